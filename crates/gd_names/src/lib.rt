//! What the names of a project stand for: its classes, their members, their bases and what a look-up finds
//! (docs/language.md, "Names and bases").
//!
//! The definitions stand in specs/. They walk the trees and keep no tables.
#![tactic(auto)]

ghost use Rattle.gd_names.specs.Trials.{BaseComesFirst, BothInCircle, CircleIsCut, ExtendsThroughConstant, FindsAround, FindsInBase, FindsNoInstance, HidesOne, HoldsClass, OnePathNotFound, PathsFound, ThreeFaults};

/// Small projects have the class order, the look-ups and the faults that they should.
pub fn trials()
    ensures order { BaseComesFirst }
    ensures members { FindsInBase }
    ensures hides { HidesOne }
    ensures circle { BothInCircle }
    ensures cut { CircleIsCut }
    ensures constant { ExtendsThroughConstant }
    ensures holds { HoldsClass }
    ensures around { FindsAround }
    ensures path { OnePathNotFound }
    ensures paths { PathsFound }
    ensures faulty { ThreeFaults }
    ensures instance { FindsNoInstance }
{}
