//! What a project means: the values that its expressions have, what its statements do, and what a run of
//! it prints, frees and ends in (docs/runtime.md). These are definitions, which no code here runs; the
//! functions below state laws of them, and try them on small projects.
#![tactic(auto)]

ghost use Rattle.source_semantics.specs.TrialsOfStatements.{CountsInWhile, FaultsAtPlace, GoesOverGrowing};
ghost use Rattle.source_semantics.specs.TrialsOfStatements.{NoTurnToEnter, PrintsText, TakesThird, TurnsAreEnough};
ghost use Rattle.source_semantics.specs.TrialsOfStatements.{TurnsRunOut};
ghost use Rattle.source_semantics.specs.TrialsOfCalls.{CallsOverride, EachCallUsesTurn, OldValueComesFirst};
ghost use Rattle.source_semantics.specs.TrialsOfCalls.{ReceiverComesFirst, ReturnsTwice, SetsAgain, SetsOnce};
ghost use Rattle.source_semantics.specs.TrialsOfCalls.{SetsTooDeep, TakesDefault, TargetComesFirst};
ghost use Rattle.source_semantics.specs.TrialsOfObjects.{CallsFreed, ConstantIsReadOnly, EmitsOnce, FreesAtBreak};
ghost use Rattle.source_semantics.specs.TrialsOfObjects.{FreesInRounds, KeepsPlaces, RingLeaks, StaticInitUsesTurn};
ghost use Rattle.source_semantics.specs.TrialsOfObjects.{StaticsComeFirst, StaticsGoLast};
ghost use Rattle.source_semantics.specs.TrialsOfHolding.{BreakFreesSubject, CallPassesOn, CallablePassesOn, EmitHolds};
ghost use Rattle.source_semantics.specs.TrialsOfHolding.{FreesCondition, FreesEarlierValue, FreesOperand};
ghost use Rattle.source_semantics.specs.TrialsOfHolding.{ReturnFreesTogether, StaticCallHolds};
ghost use Rattle.source_semantics.specs.TrialsOfOrder.{BadKeyComesLast, BaseComesFirst, EmitsOldList};
ghost use Rattle.source_semantics.specs.TrialsOfOrder.{GuardChangesSubject, RangeFaultsAtName, TurnComesFirst};
ghost use Rattle.source_semantics.specs.TrialOfStore.{KeepsShop};
ghost use Rattle.source_semantics.specs.Growth.{MoreTurnsGoOn};
ghost use Rattle.source_semantics.specs.Settling.{AsksAmong, LeavesHeld, MoreHeld, StaysSettled};
ghost use Rattle.source_semantics.specs.Types.{ElementsAgree, FitsAgree, StartsAgree};

/// A run that ends is the same with more turns, and one that runs out of turns goes on with more.
pub fn more_turns()
    ensures goes_on { MoreTurnsGoOn }
{}

/// Behind a settling each thing is held. Where each is, it changes nothing, and stays so while more is held; and it
/// asks of what the running code holds only which things are among it.
pub fn settling()
    ensures leaves { LeavesHeld }
    ensures stays { StaysSettled }
    ensures among { AsksAmong }
    ensures more { MoreHeld }
{}

/// What a type says of values at once is what it says once it is opened.
pub fn types_agree()
    ensures starts { StartsAgree }
    ensures fits { FitsAgree }
    ensures elements { ElementsAgree }
{}

/// Statements tried on small projects.
pub fn statement_trials()
    ensures prints { PrintsText }
    ensures enters { NoTurnToEnter }
    ensures counts { CountsInWhile }
    ensures ends { TurnsRunOut }
    ensures enough { TurnsAreEnough }
    ensures faults { FaultsAtPlace }
    ensures takes { TakesThird }
    ensures grows { GoesOverGrowing }
{}

/// Calls, accessors and assignments tried on small projects.
pub fn call_trials()
    ensures returns { ReturnsTwice }
    ensures turns { EachCallUsesTurn }
    ensures defaulted { TakesDefault }
    ensures receiver { ReceiverComesFirst }
    ensures overridden { CallsOverride }
    ensures once { SetsOnce }
    ensures again { SetsAgain }
    ensures deep { SetsTooDeep }
    ensures target { TargetComesFirst }
    ensures old { OldValueComesFirst }
{}

/// What holds objects, statics, signals and constants, tried on small projects.
pub fn object_trials()
    ensures rounds { FreesInRounds }
    ensures ring { RingLeaks }
    ensures leaves { FreesAtBreak }
    ensures freed { CallsFreed }
    ensures statics { StaticsComeFirst }
    ensures turns { StaticInitUsesTurn }
    ensures last { StaticsGoLast }
    ensures fixed { ConstantIsReadOnly }
    ensures dictionary { KeepsPlaces }
    ensures signals { EmitsOnce }
{}

/// How long values are held, tried on small projects.
pub fn holding_trials()
    ensures operand { FreesOperand }
    ensures condition { FreesCondition }
    ensures repeats { FreesEarlierValue }
    ensures leaves { BreakFreesSubject }
    ensures returns { ReturnFreesTogether }
    ensures passes { CallPassesOn }
    ensures callable { CallablePassesOn }
    ensures emits { EmitHolds }
    ensures holds { StaticCallHolds }
{}

/// In which order things are done and tested, tried on small projects.
pub fn order_trials()
    ensures turn { TurnComesFirst }
    ensures range { RangeFaultsAtName }
    ensures key { BadKeyComesLast }
    ensures guard { GuardChangesSubject }
    ensures emits { EmitsOldList }
    ensures base { BaseComesFirst }
{}

/// A larger project tried: three scripts.
pub fn larger_trial()
    ensures shop { KeepsShop }
{}
