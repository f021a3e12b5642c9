//! What the declarations of a class say of types.

use crate::enum_names::EnumNames;
use gd_model::Ty;

/// How a variable or a parameter gets its type.
#[derive(Drop)]
pub enum Typing {
    /// No type is written, and no `:=`: it is Variant.
    Untyped,
    /// By `:=`, from its value.
    Inferred,
    Written(Ty),
}

/// The parameters and the result of a function.
#[derive(Drop)]
pub struct Signature {
    pub is_static: bool,
    pub parameters: Vec<Typing>,
    /// How many arguments a call needs: the parameters without a default value.
    pub required: u32,
    /// The written type of the result, which may be void; none where none is written, and then it is Variant.
    pub result: Option<Ty>,
}

/// A declaration of a class.
#[derive(Drop)]
pub enum Member {
    /// Whether it is static, and its type.
    Variable(bool, Typing),
    /// The written type.
    Constant(Option<Ty>),
    Function(Signature),
    /// The number of its parameters.
    Signal(usize),
    Enum(EnumNames),
    Class,
    /// `pass`
    Nothing,
}
