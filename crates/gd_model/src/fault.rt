//! The faults that end a run (docs/runtime.md, "Faults").

/// A runtime fault, in the order of its number, from 1.
#[derive(Clone, Copy, Debug, PartialEq, Eq)]
pub enum RunFault {
    /// R01: zero divisor or step
    ZeroDivisorOrStep,
    /// R02: bad operands
    BadOperands,
    /// R03: bad shift
    BadShift,
    /// R04: out of range
    OutOfRange,
    /// R05: no such key
    NoSuchKey,
    /// R06: null receiver
    NullReceiver,
    /// R07: no such member
    NoSuchMember,
    /// R08: no such method
    NoSuchMethod,
    /// R09: wrong number of arguments
    WrongNumberOfArguments,
    /// R10: value of another type
    ValueOfAnotherType,
    /// R11: bad cast
    BadCast,
    /// R12: read-only
    ReadOnly,
    /// R13: calls too deep
    CallsTooDeep,
    /// R14: assertion failed
    AssertionFailed,
    /// R15: bad key
    BadKey,
    /// R16: freed target
    FreedTarget,
    /// R17: too long
    TooLong,
    /// R18: too many things
    TooManyThings,
    /// R19: too deep to compare
    TooDeepToCompare,
    /// R20: bad format
    BadFormat,
    /// R21: not iterable
    NotIterable,
}

impl RunFault {
    ghost use Rattle.std.specs.Prelude.{◌≡◌};
    ghost use Rattle.gd_model.specs.Fault.{fault_code, fault_text};

    /// The code that diagnostics and errors print.
    pub fn code(self) -> &'static str
        ensures { result.now ≡ fault_code self }
    {
        match self {
            RunFault::ZeroDivisorOrStep => "R01",
            RunFault::BadOperands => "R02",
            RunFault::BadShift => "R03",
            RunFault::OutOfRange => "R04",
            RunFault::NoSuchKey => "R05",
            RunFault::NullReceiver => "R06",
            RunFault::NoSuchMember => "R07",
            RunFault::NoSuchMethod => "R08",
            RunFault::WrongNumberOfArguments => "R09",
            RunFault::ValueOfAnotherType => "R10",
            RunFault::BadCast => "R11",
            RunFault::ReadOnly => "R12",
            RunFault::CallsTooDeep => "R13",
            RunFault::AssertionFailed => "R14",
            RunFault::BadKey => "R15",
            RunFault::FreedTarget => "R16",
            RunFault::TooLong => "R17",
            RunFault::TooManyThings => "R18",
            RunFault::TooDeepToCompare => "R19",
            RunFault::BadFormat => "R20",
            RunFault::NotIterable => "R21",
        }
    }

    /// The text that stands after the code.
    pub fn text(self) -> &'static str
        ensures { result.now ≡ fault_text self }
    {
        match self {
            RunFault::ZeroDivisorOrStep => "zero divisor or step",
            RunFault::BadOperands => "bad operands",
            RunFault::BadShift => "bad shift",
            RunFault::OutOfRange => "out of range",
            RunFault::NoSuchKey => "no such key",
            RunFault::NullReceiver => "null receiver",
            RunFault::NoSuchMember => "no such member",
            RunFault::NoSuchMethod => "no such method",
            RunFault::WrongNumberOfArguments => "wrong number of arguments",
            RunFault::ValueOfAnotherType => "value of another type",
            RunFault::BadCast => "bad cast",
            RunFault::ReadOnly => "read-only",
            RunFault::CallsTooDeep => "calls too deep",
            RunFault::AssertionFailed => "assertion failed",
            RunFault::BadKey => "bad key",
            RunFault::FreedTarget => "freed target",
            RunFault::TooLong => "too long",
            RunFault::TooManyThings => "too many things",
            RunFault::TooDeepToCompare => "too deep to compare",
            RunFault::BadFormat => "bad format",
            RunFault::NotIterable => "not iterable",
        }
    }
}
