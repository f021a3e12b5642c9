//! Types as instructions name them, before they have numbers.

use gd_model::{Ty, impossible};
use no_memory::NoMemory;
use sqlite_items::Boxed;
use std::alloc::Global;

/// A type that may stand in brackets. A class has its number in the class order.
#[derive(Clone, Copy, Debug, PartialEq, Eq, Hash)]
pub enum PlainType {
    Variant,
    Bool,
    Int,
    Str,
    Callable,
    Signal,
    Dict,
    Array,
    Class(u32),
    Void,
}

/// A type of a place.
#[derive(Clone, Copy, Debug, PartialEq, Eq, Hash)]
pub enum TypeCode {
    Plain(PlainType),
    /// A typed array: the type of its elements.
    ArrayOf(PlainType),
    /// A typed dictionary: the types of its keys and of its values.
    DictOf(PlainType, PlainType),
}

/// Any value.
pub const VARIANT: TypeCode = TypeCode::Plain(PlainType::Variant);

impl TypeCode {
    /// The type of a place in a project that breaks no rule: it is not that of null, of a class itself or of an error.
    pub fn of(ty: &Ty) -> Result<TypeCode, NoMemory> {
        Ok(match ty {
            Ty::ArrayOf(element) => TypeCode::ArrayOf(plain(element.get())?),
            Ty::DictOf(key, value) => TypeCode::DictOf(plain(key.get())?, plain(value.get())?),
            ty => TypeCode::Plain(plain(ty)?),
        })
    }

    /// The type as a program has it.
    pub fn ty(self, alloc: Global) -> Result<Ty, NoMemory> {
        Ok(match self {
            TypeCode::Plain(ty) => ty.ty(),
            TypeCode::ArrayOf(element) => Ty::ArrayOf(Boxed::new(alloc, element.ty())?),
            TypeCode::DictOf(key, value) => {
                Ty::DictOf(Boxed::new(alloc, key.ty())?, Boxed::new(alloc, value.ty())?)
            }
        })
    }

    /// Whether every value fits.
    pub fn is_variant(self) -> bool {
        matches!(self, TypeCode::Plain(PlainType::Variant))
    }
}

impl PlainType {
    fn ty(self) -> Ty {
        match self {
            PlainType::Variant => Ty::Variant,
            PlainType::Bool => Ty::Bool,
            PlainType::Int => Ty::Int,
            PlainType::Str => Ty::Str,
            PlainType::Callable => Ty::Callable,
            PlainType::Signal => Ty::Signal,
            PlainType::Dict => Ty::Dict,
            PlainType::Array => Ty::Array,
            PlainType::Class(class) => Ty::Class(class),
            PlainType::Void => Ty::Void,
        }
    }
}

// Rules and grammar leave no other type at a place.
fn plain(ty: &Ty) -> Result<PlainType, NoMemory> {
    Ok(match ty {
        Ty::Variant => PlainType::Variant,
        Ty::Bool => PlainType::Bool,
        Ty::Int => PlainType::Int,
        Ty::Str => PlainType::Str,
        Ty::Callable => PlainType::Callable,
        Ty::Signal => PlainType::Signal,
        Ty::Dict => PlainType::Dict,
        Ty::Array => PlainType::Array,
        Ty::Class(class) => PlainType::Class(*class),
        Ty::Void => PlainType::Void,
        Ty::Nil | Ty::Meta(_) | Ty::Bad | Ty::ArrayOf(_) | Ty::DictOf(_, _) => {
            return Err(impossible().into());
        }
    })
}
