//! The rules of the language whose breach a check reports (docs/diagnostics.md).

/// A rule, in the order of the bytes of the codes.
#[derive(Clone, Copy, Debug, PartialEq, Eq, PartialOrd, Ord)]
pub enum Rule {
    /// A01: path not found
    PathNotFound,
    /// A02: class name taken
    ClassNameTaken,
    /// A03: duplicate member
    DuplicateMember,
    /// A04: hides an inherited member
    HidesAnInheritedMember,
    /// A05: unknown base
    UnknownBase,
    /// A06: extends cycle
    ExtendsCycle,
    /// A07: unknown type
    UnknownType,
    /// A08: nested typed array
    NestedTypedArray,
    /// A09: unknown name
    UnknownName,
    /// A10: local declared twice
    LocalDeclaredTwice,
    /// A11: cyclic inference
    CyclicInference,
    /// A12: cannot infer
    CannotInfer,
    /// A13: not assignable
    NotAssignable,
    /// A14: bad argument
    BadArgument,
    /// A15: wrong number of arguments
    WrongNumberOfArguments,
    /// A16: bad return
    BadReturn,
    /// A17: missing return
    MissingReturn,
    /// A18: bad operands
    BadOperands,
    /// A19: no member
    NoMember,
    /// A20: no method
    NoMethod,
    /// A21: not callable
    NotCallable,
    /// A22: not assignable target
    NotAssignableTarget,
    /// A23: not constant
    NotConstant,
    /// A24: static code uses instance
    StaticCodeUsesInstance,
    /// A25: instance member through class
    InstanceMemberThroughClass,
    /// A26: bad override
    BadOverride,
    /// A27: bad cast
    BadCast,
    /// A28: test cannot hold
    TestCannotHold,
    /// A29: not a value
    NotAValue,
    /// A30: break outside a loop
    BreakOutsideALoop,
    /// A31: continue outside a loop
    ContinueOutsideALoop,
    /// A32: binding among alternatives
    BindingAmongAlternatives,
    /// A33: pattern key not constant
    PatternKeyNotConstant,
    /// A34: rest not last
    RestNotLast,
    /// A35: duplicate key
    DuplicateKey,
    /// A36: enum value not a constant int
    EnumValueNotAConstantInt,
    /// A37: bad accessor
    BadAccessor,
    /// A38: no base method
    NoBaseMethod,
    /// A39: bad constructor
    BadConstructor,
    /// A40: required after optional
    RequiredAfterOptional,
    /// A41: not iterable
    NotIterable,
    /// A42: type is no value
    TypeIsNoValue,
    /// A43: constant fault
    ConstantFault,
    /// A44: annotation left out
    AnnotationLeftOut,
    /// A45: bad key type
    BadKeyType,
    /// L01: not UTF-8
    NotUtf8,
    /// L02: mixed indentation
    MixedIndentation,
    /// L03: unmatched dedent
    UnmatchedDedent,
    /// L04: unterminated string
    UnterminatedString,
    /// L05: bad escape
    BadEscape,
    /// L06: stray character
    StrayCharacter,
    /// L07: float
    Float,
    /// L08: integer too large
    IntegerTooLarge,
    /// L09: bad number
    BadNumber,
    /// L10: brackets too deep
    BracketsTooDeep,
    /// L11: blocks too deep
    BlocksTooDeep,
    /// L12: item too long
    ItemTooLong,
    /// S01: syntax
    Syntax,
    /// S02: form left out
    FormLeftOut,
    /// W1: unsafe_property_access
    UnsafePropertyAccess,
    /// W2: unsafe_method_access
    UnsafeMethodAccess,
    /// W3: unsafe_cast
    UnsafeCast,
    /// W4: unsafe_call_argument
    UnsafeCallArgument,
    /// W5: integer_division
    IntegerDivision,
}

impl Rule {
    ghost use Rattle.std.specs.Prelude.{◌≡◌};
    ghost use Rattle.gd_rules.specs.Rule.{rule_code, rule_text};

    /// The code that diagnostics and errors print.
    pub fn code(self) -> &'static str
        ensures { result.now ≡ rule_code self }
    {
        match self {
            Rule::PathNotFound => "A01",
            Rule::ClassNameTaken => "A02",
            Rule::DuplicateMember => "A03",
            Rule::HidesAnInheritedMember => "A04",
            Rule::UnknownBase => "A05",
            Rule::ExtendsCycle => "A06",
            Rule::UnknownType => "A07",
            Rule::NestedTypedArray => "A08",
            Rule::UnknownName => "A09",
            Rule::LocalDeclaredTwice => "A10",
            Rule::CyclicInference => "A11",
            Rule::CannotInfer => "A12",
            Rule::NotAssignable => "A13",
            Rule::BadArgument => "A14",
            Rule::WrongNumberOfArguments => "A15",
            Rule::BadReturn => "A16",
            Rule::MissingReturn => "A17",
            Rule::BadOperands => "A18",
            Rule::NoMember => "A19",
            Rule::NoMethod => "A20",
            Rule::NotCallable => "A21",
            Rule::NotAssignableTarget => "A22",
            Rule::NotConstant => "A23",
            Rule::StaticCodeUsesInstance => "A24",
            Rule::InstanceMemberThroughClass => "A25",
            Rule::BadOverride => "A26",
            Rule::BadCast => "A27",
            Rule::TestCannotHold => "A28",
            Rule::NotAValue => "A29",
            Rule::BreakOutsideALoop => "A30",
            Rule::ContinueOutsideALoop => "A31",
            Rule::BindingAmongAlternatives => "A32",
            Rule::PatternKeyNotConstant => "A33",
            Rule::RestNotLast => "A34",
            Rule::DuplicateKey => "A35",
            Rule::EnumValueNotAConstantInt => "A36",
            Rule::BadAccessor => "A37",
            Rule::NoBaseMethod => "A38",
            Rule::BadConstructor => "A39",
            Rule::RequiredAfterOptional => "A40",
            Rule::NotIterable => "A41",
            Rule::TypeIsNoValue => "A42",
            Rule::ConstantFault => "A43",
            Rule::AnnotationLeftOut => "A44",
            Rule::BadKeyType => "A45",
            Rule::NotUtf8 => "L01",
            Rule::MixedIndentation => "L02",
            Rule::UnmatchedDedent => "L03",
            Rule::UnterminatedString => "L04",
            Rule::BadEscape => "L05",
            Rule::StrayCharacter => "L06",
            Rule::Float => "L07",
            Rule::IntegerTooLarge => "L08",
            Rule::BadNumber => "L09",
            Rule::BracketsTooDeep => "L10",
            Rule::BlocksTooDeep => "L11",
            Rule::ItemTooLong => "L12",
            Rule::Syntax => "S01",
            Rule::FormLeftOut => "S02",
            Rule::UnsafePropertyAccess => "W1",
            Rule::UnsafeMethodAccess => "W2",
            Rule::UnsafeCast => "W3",
            Rule::UnsafeCallArgument => "W4",
            Rule::IntegerDivision => "W5",
        }
    }

    /// The text that stands after the code.
    pub fn text(self) -> &'static str
        ensures { result.now ≡ rule_text self }
    {
        match self {
            Rule::PathNotFound => "path not found",
            Rule::ClassNameTaken => "class name taken",
            Rule::DuplicateMember => "duplicate member",
            Rule::HidesAnInheritedMember => "hides an inherited member",
            Rule::UnknownBase => "unknown base",
            Rule::ExtendsCycle => "extends cycle",
            Rule::UnknownType => "unknown type",
            Rule::NestedTypedArray => "nested typed array",
            Rule::UnknownName => "unknown name",
            Rule::LocalDeclaredTwice => "local declared twice",
            Rule::CyclicInference => "cyclic inference",
            Rule::CannotInfer => "cannot infer",
            Rule::NotAssignable => "not assignable",
            Rule::BadArgument => "bad argument",
            Rule::WrongNumberOfArguments => "wrong number of arguments",
            Rule::BadReturn => "bad return",
            Rule::MissingReturn => "missing return",
            Rule::BadOperands => "bad operands",
            Rule::NoMember => "no member",
            Rule::NoMethod => "no method",
            Rule::NotCallable => "not callable",
            Rule::NotAssignableTarget => "not assignable target",
            Rule::NotConstant => "not constant",
            Rule::StaticCodeUsesInstance => "static code uses instance",
            Rule::InstanceMemberThroughClass => "instance member through class",
            Rule::BadOverride => "bad override",
            Rule::BadCast => "bad cast",
            Rule::TestCannotHold => "test cannot hold",
            Rule::NotAValue => "not a value",
            Rule::BreakOutsideALoop => "break outside a loop",
            Rule::ContinueOutsideALoop => "continue outside a loop",
            Rule::BindingAmongAlternatives => "binding among alternatives",
            Rule::PatternKeyNotConstant => "pattern key not constant",
            Rule::RestNotLast => "rest not last",
            Rule::DuplicateKey => "duplicate key",
            Rule::EnumValueNotAConstantInt => "enum value not a constant int",
            Rule::BadAccessor => "bad accessor",
            Rule::NoBaseMethod => "no base method",
            Rule::BadConstructor => "bad constructor",
            Rule::RequiredAfterOptional => "required after optional",
            Rule::NotIterable => "not iterable",
            Rule::TypeIsNoValue => "type is no value",
            Rule::ConstantFault => "constant fault",
            Rule::AnnotationLeftOut => "annotation left out",
            Rule::BadKeyType => "bad key type",
            Rule::NotUtf8 => "not UTF-8",
            Rule::MixedIndentation => "mixed indentation",
            Rule::UnmatchedDedent => "unmatched dedent",
            Rule::UnterminatedString => "unterminated string",
            Rule::BadEscape => "bad escape",
            Rule::StrayCharacter => "stray character",
            Rule::Float => "float",
            Rule::IntegerTooLarge => "integer too large",
            Rule::BadNumber => "bad number",
            Rule::BracketsTooDeep => "brackets too deep",
            Rule::BlocksTooDeep => "blocks too deep",
            Rule::ItemTooLong => "item too long",
            Rule::Syntax => "syntax",
            Rule::FormLeftOut => "form left out",
            Rule::UnsafePropertyAccess => "unsafe_property_access",
            Rule::UnsafeMethodAccess => "unsafe_method_access",
            Rule::UnsafeCast => "unsafe_cast",
            Rule::UnsafeCallArgument => "unsafe_call_argument",
            Rule::IntegerDivision => "integer_division",
        }
    }
}
