//! The operations of the machine (docs/machine.md, "Instructions").

/// What an instruction does, in the order of the numbers, from 0, that images write.
#[derive(Clone, Copy, PartialEq, Eq)]
pub enum Opcode {
    /// Pushes a value: `a` is the number of a `Tag`, `b` the index that it takes.
    Push,
    /// Pushes the receiver.
    Me,
    /// Pushes local `a`, null where it is not set.
    Get,
    /// Takes a value into local `a`, tested against the local's type.
    Set,
    /// Locals `a` to `b` - 1 become unset together.
    Clear,
    /// Pushes a copy of the `a`-th value from the top, 0 being the top.
    Dup,
    /// Gives up `a` values or iterations together.
    Drop,
    /// Goes on at `b`.
    Jump,
    /// Takes a value, and goes on at `b` where it is true.
    JumpIf,
    /// Takes a value, and goes on at `b` where it is false.
    JumpIfNot,
    /// Uses one turn.
    Turn,
    /// Operator number `a`.
    Op,
    /// Takes a value and pushes its truth as a bool.
    Truth,
    /// Makes an array of `a` values, with the element type `b`.
    Array,
    /// Makes a dictionary of `a` pairs.
    Dict,
    /// Takes a base and pushes its attribute, text `a`.
    Attr,
    /// Takes a base and a value, which is written to the attribute, text `a`.
    SetAttr,
    /// Takes a base and an index, and pushes what stands there.
    Index,
    /// Takes a base, an index and a value, which is written there.
    SetIndex,
    /// Pushes the receiver's variable, text `a`, without accessors.
    Own,
    /// Takes a value into the receiver's variable, text `a`, without accessors.
    SetOwn,
    /// Pushes the static variable, text `a`, of class `b` (an index plus one; 0 is RefCounted).
    Static,
    /// Takes a value into that static variable.
    SetStatic,
    /// Takes a base and `a` arguments, and calls the method, text `b`.
    Call,
    /// Calls function `b` with `a` arguments, on the receiver unless it is static.
    Direct,
    /// Makes an instance of class `b` (an index plus one; 0 is RefCounted) with `a` arguments.
    New,
    /// Calls the builtin function number `b` with `a` arguments.
    Builtin,
    /// Takes a value and pushes whether it fits type `a`.
    Is,
    /// Casts a value to type `a`.
    As,
    /// Pushes static function `a` as a Callable.
    Func,
    /// Takes a subject and begins an iteration over it.
    Iter,
    /// Pushes the iteration's next value; where there is none, the iteration goes, and it goes on at `b`.
    Next,
    /// Takes `a` numbers, 1 to 3, and begins an iteration over their range.
    Range,
    /// Goes on at `b` where argument `a` was given.
    Default,
    /// Returns from the function with a value, which is tested against the function's type.
    Return,
    /// Fails an assertion, with a message taken where `a` is 1.
    Fail,
    /// Pushes whether the top is an array of size `a`, or of at least that size where `b` is 1.
    SizeArr,
    /// Pushes whether the top is a dictionary of size `a`, or of at least that size where `b` is 1.
    SizeDict,
    /// Takes a key; pushes the top's value for it, or null, and whether it is there.
    KeyOf,
    /// Pushes element `a` of the top, or null.
    Elem,
    /// Takes two values, and pushes whether the lower one matches the upper one as a pattern.
    Same,
    /// Tests the top against type `a`.
    Test,
    /// Makes a dictionary of `a` pairs with the typed dictionary type `b`.
    DictOf,
}
