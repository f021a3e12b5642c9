//! Programs. A field that names an entry of a list is an index from 0.
use crate::Opcode;
use gd_model::Ty;
use gd_syntax::{Seq, Text};

/// One instruction, with its operands and the place that its faults name.
#[derive(Clone, Copy)]
pub struct Instr {
    pub op: Opcode,
    pub a: u32,
    pub b: u32,
    pub line: u32,
    pub column: u32,
}

/// A compiled project.
#[derive(Drop)]
pub struct Program {
    /// The paths of the project's files, in order.
    pub paths: Seq<Text>,
    pub texts: Seq<Text>,
    pub ints: Seq<i64>,
    /// Types. A class in a type is numbered from 1, and 0 is RefCounted.
    pub types: Seq<Ty>,
    /// The things that the constants hold, in the order in which a run makes them.
    pub constants: Seq<ConstThing>,
    /// The classes, in class order.
    pub classes: Seq<ClassCode>,
    pub functions: Seq<Function>,
    /// The class whose instance a run makes.
    pub main: u32,
}

/// The kind of a thing that a constant holds.
#[derive(Clone, Copy, PartialEq, Eq)]
pub enum ConstKind {
    Array,
    Dict,
    /// a typed dictionary
    DictOf,
}

/// How an operand of a constant, or a Push, names its value.
#[derive(Clone, Copy, PartialEq, Eq)]
pub enum Tag {
    Null,
    False,
    True,
    /// an entry of the ints
    Int,
    /// an entry of the texts
    Text,
    /// an entry of the constants
    Constant,
}

/// A value in a constant. The number counts only for `Int`, `Text` and `Constant`.
#[derive(Clone, Copy, PartialEq, Eq)]
pub struct Operand {
    pub tag: Tag,
    pub number: u32,
}

/// An array or dictionary that is made before a run begins, and is read-only.
#[derive(Drop)]
pub struct ConstThing {
    pub kind: ConstKind,
    /// The type of the elements, Variant for a dictionary, or the type of a typed dictionary.
    pub typed: u32,
    /// The elements, or keys and values in turn.
    pub operands: Seq<Operand>,
}

/// A class.
#[derive(Drop)]
pub struct ClassCode {
    /// The text of its name.
    pub name: u32,
    /// The path of its file.
    pub path: u32,
    /// The class that it extends, an earlier one; none is RefCounted.
    pub base: Option<u32>,
    pub variables: Seq<VarCode>,
    pub methods: Seq<Method>,
    /// The texts of the names of its signals.
    pub signals: Seq<u32>,
    /// The function that gives the variables their initial values.
    pub initial: Option<u32>,
    /// The static function that gives the static variables their initial values.
    pub static_initial: Option<u32>,
    pub static_init: Option<u32>,
}

/// A variable of a class, with the functions of its accessors.
#[derive(Clone, Copy, PartialEq, Eq)]
pub struct VarCode {
    pub name: u32,
    pub is_static: bool,
    pub typed: u32,
    pub setter: Option<u32>,
    pub getter: Option<u32>,
}

/// A function under a name among the methods of a class.
#[derive(Clone, Copy, PartialEq, Eq)]
pub struct Method {
    pub name: u32,
    pub function: u32,
}

/// A function. Its first locals are its parameters.
#[derive(Drop)]
pub struct Function {
    pub name: u32,
    pub path: u32,
    /// The class that declares it.
    pub class: u32,
    pub is_static: bool,
    /// How many parameters it has, and how many of them a call must give.
    pub params: u32,
    pub required: u32,
    /// The types of the parameters, and then of the other locals.
    pub types: Seq<u32>,
    pub returns: u32,
    pub code: Seq<Instr>,
}
