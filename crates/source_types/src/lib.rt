//! What the analysis of a project knows: the type of each expression, and what each name, attribute and call resolves
//! to (docs/language.md, "Types" and "Inference"). These are definitions, to which no code is held yet; the functions
//! below state laws of them.
#![tactic(auto)]

ghost use Rattle.source_types.specs.Laws.{AllSeen, KnownStays, SeenStays, StepStays};
ghost use Rattle.source_types.specs.TrialsOfBodies.{BindsInBranch, InnerHidesOuter};
ghost use Rattle.source_types.specs.TrialsOfClasses.{HoldsBase, NoStaticSuper, TypesInDerived};
ghost use Rattle.source_types.specs.TrialsOfExpressions.{FindsNames, NumbersBuiltins, StaticHasNoInstance};
ghost use Rattle.source_types.specs.TrialsOfExpressions.{TypesOfAttributes};
ghost use Rattle.source_types.specs.TrialsOfExpressions.{TypesOfCalls, TypesOfNames, TypesOfOperators};
ghost use Rattle.source_types.specs.TrialsOfItems.{CircleIsBad, FindsAlongBases, FindsCircle, HasItems, InfersByNeed};
ghost use Rattle.source_types.specs.TrialsOfItems.{TakesThreeSteps};
ghost use Rattle.source_types.specs.TrialsOfTypes.{CastsToSame, ChoosesSame, TypedElement, TypedLiteral};

/// Where the types of more items are known, each expression and each item that had a type has the same. So what is
/// known behind so many steps of inference stays the same behind more. Where all items are known, each expression is
/// seen.
pub fn more_known()
    ensures seen { SeenStays }
    ensures step { StepStays }
    ensures known { KnownStays }
    ensures all { AllSeen }
{}

/// Items of small projects have the types that they should, after the steps that their needs ask for.
pub fn item_trials()
    ensures count { HasItems }
    ensures types { InfersByNeed }
    ensures steps { TakesThreeSteps }
    ensures circle { FindsCircle }
    ensures cut { CircleIsBad }
    ensures bases { FindsAlongBases }
{}

/// Expressions at places of a small project have the types, and mean what they should.
pub fn expression_trials()
    ensures names { TypesOfNames }
    ensures meanings { FindsNames }
    ensures static_code { StaticHasNoInstance }
    ensures calls { TypesOfCalls }
    ensures attributes { TypesOfAttributes }
    ensures operators { TypesOfOperators }
    ensures builtins { NumbersBuiltins }
{}

/// The expressions of bodies have the types that the locals in force there give them.
pub fn body_trials()
    ensures hides { InnerHidesOuter }
    ensures binds { BindsInBranch }
{}

/// Typed literals and subscripts, conditional expressions and casts have the types that they should.
pub fn type_trials()
    ensures literal { TypedLiteral }
    ensures element { TypedElement }
    ensures chooses { ChoosesSame }
    ensures casts { CastsToSame }
{}

/// Bases, `super` and constants that hold a class give the types that they should.
pub fn class_trials()
    ensures holds { HoldsBase }
    ensures derived { TypesInDerived }
    ensures static_code { NoStaticSuper }
{}
