//! Instructions that name things as the source does.
//!
//! The code of a construct is a list of these. What they name gets its number when a function is whole (`link`).

use crate::function_key::FunctionKey;
use crate::type_code::TypeCode;
use gd_bytecode::Opcode;
use gd_syntax::{Pos, Text};

/// A value that a Push puts on the stack.
#[derive(Clone, Copy)]
pub enum Literal<'a> {
    Null,
    Bool(bool),
    Int(i64),
    Text(&'a Text),
    /// `""`
    EmptyText,
    /// The value of the constant, enum or value of an enum that the name at this place declares.
    Constant(Pos),
}

/// What an instruction does. The numbers that stand beside an operation are those of the machine.
#[derive(Clone, Copy)]
pub enum Action<'a> {
    /// An operation with two numbers that mean themselves.
    Plain(Opcode, u32, u32),
    Push(Literal<'a>),
    /// Get or Set of the local that is declared at this place.
    Local(Opcode, Pos),
    /// A jump, with its first number and the place in the code to which it leads.
    Go(Opcode, u32, u32),
    /// An operation with a name: Attr, SetAttr, Own, SetOwn.
    Named(Opcode, &'a Text),
    /// Static or SetStatic: the name and the class.
    Static(Opcode, &'a Text, u32),
    /// A call of a method with so many arguments.
    Call(u32, &'a Text),
    /// A call of a function with so many arguments.
    Direct(u32, FunctionKey),
    /// A static function as a Callable.
    Func(FunctionKey),
    /// An operation with a type: Is, As, Test.
    Typed(Opcode, TypeCode),
    /// A literal of so many parts with a type: Array, DictOf.
    Made(Opcode, u32, TypeCode),
}

/// An instruction with the place that its faults name.
#[derive(Clone, Copy)]
pub struct Step<'a> {
    pub action: Action<'a>,
    pub pos: Pos,
}
