//! Which program the compiler makes of a project, as functions of its trees and of what the analysis says of them
//! (docs/machine.md). No code is held to these definitions yet; the functions below try them on small projects: the
//! machine's run of the program sees what a run of the project does, and ends as it does.
#![tactic(auto)]

ghost use Rattle.emitted_code.specs.TrialsOfOrder.{EmissionAlike, GuardAlike, KeyAlike, RangeAlike};
ghost use Rattle.emitted_code.specs.TrialsOfOrder.{TurnFirstAlike, TypeBehindAlike};
ghost use Rattle.emitted_code.specs.TrialsOfObjects.{BreakAlike, DictionaryAlike, FreedAlike, ReadOnlyAlike};
ghost use Rattle.emitted_code.specs.TrialsOfObjects.{RingAlike, RoundsAlike, SignalsAlike, StaticCallAlike};
ghost use Rattle.emitted_code.specs.TrialsOfObjects.{StaticObjectAlike, StaticTurnAlike, StaticsAlike};
ghost use Rattle.emitted_code.specs.TrialsOfCalls.{CallTurnAlike, DefaultAlike, OverrideAlike, ReceiverAlike};
ghost use Rattle.emitted_code.specs.TrialsOfCalls.{ResultAlike, SetterAlike, SetterTurnAlike, TargetAlike};
ghost use Rattle.emitted_code.specs.TrialsOfCalls.{ValueAlike};
ghost use Rattle.emitted_code.specs.TrialsOfStatements.{FaultAlike, ForAlike, MatchAlike, NoTurnAlike};
ghost use Rattle.emitted_code.specs.TrialsOfStatements.{OperatorsAlike, SubscriptAlike, TextAlike, TurnsAlike};
ghost use Rattle.emitted_code.specs.TrialsOfStatements.{WhileAlike};

/// Statements tried.
pub fn statement_trials()
    ensures text { TextAlike }
    ensures no_turn { NoTurnAlike }
    ensures repeats { WhileAlike }
    ensures turns { TurnsAlike }
    ensures loops { ForAlike }
    ensures fault { FaultAlike }
    ensures operators { OperatorsAlike }
    ensures subscript { SubscriptAlike }
    ensures matches { MatchAlike }
{}

/// Calls, accessors and assignments tried.
pub fn call_trials()
    ensures result { ResultAlike }
    ensures call_turn { CallTurnAlike }
    ensures defaulted { DefaultAlike }
    ensures receiver { ReceiverAlike }
    ensures overridden { OverrideAlike }
    ensures setter { SetterAlike }
    ensures setter_turn { SetterTurnAlike }
    ensures value { ValueAlike }
    ensures target { TargetAlike }
{}

/// What holds objects, statics, signals and constants, tried.
pub fn object_trials()
    ensures freed { FreedAlike }
    ensures read_only { ReadOnlyAlike }
    ensures signals { SignalsAlike }
    ensures static_call { StaticCallAlike }
    ensures rounds { RoundsAlike }
    ensures ring { RingAlike }
    ensures leaves { BreakAlike }
    ensures statics { StaticsAlike }
    ensures static_turn { StaticTurnAlike }
    ensures static_object { StaticObjectAlike }
    ensures dictionary { DictionaryAlike }
{}

/// In which order things are done and tested, tried.
pub fn order_trials()
    ensures turn_first { TurnFirstAlike }
    ensures type_behind { TypeBehindAlike }
    ensures range { RangeAlike }
    ensures key { KeyAlike }
    ensures emission { EmissionAlike }
    ensures guard { GuardAlike }
{}
