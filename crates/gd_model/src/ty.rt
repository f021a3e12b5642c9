//! The types of the language, and the values of constants.
ghost use Rattle.std.specs.Prelude.{◌≡◌, ◌↔◌, IfOk, IsTrue};
ghost use Rattle.gd_model.specs.SameType.{same_type};

use gd_syntax::{Seq, Text};
use no_memory::NoMemory;
use sqlite_items::Boxed;
use std::alloc::Global;

/// A type. Class 0 is RefCounted, and class k, from 1, is the k-th of the class order.
#[derive(Drop)]
pub enum Ty {
    Variant,
    Nil,
    Bool,
    Int,
    Str,
    Callable,
    Signal,
    Dict,
    /// A typed dictionary: the types of its keys and of its values.
    DictOf(Boxed<Ty>, Boxed<Ty>),
    Array,
    /// A typed array: the type of its elements.
    ArrayOf(Boxed<Ty>),
    Class(u32),
    Void,
    /// A class itself, as its name stands before a dot.
    Meta(u32),
    /// The type of an expression that has an error.
    Bad,
}

impl Ty {
    /// Whether the two are one type.
    pub fn same(&self, other: &Ty) -> bool
        ensures { result ≡ same_type self.now other.now }
    {
        self.is(other)
    }

    fn is(&self, other: &Ty) -> bool
        ensures { IsTrue result ↔ (self.now ≡ other.now) }
    {
        match (self, other) {
            (Ty::DictOf(k, v), Ty::DictOf(l, w)) => k.get().is(l.get()) && v.get().is(w.get()),
            (Ty::ArrayOf(t), Ty::ArrayOf(u)) => t.get().is(u.get()),
            (Ty::Class(c), Ty::Class(d)) => *c == *d,
            (Ty::Meta(c), Ty::Meta(d)) => *c == *d,
            (Ty::Variant, Ty::Variant) => true,
            (Ty::Nil, Ty::Nil) => true,
            (Ty::Bool, Ty::Bool) => true,
            (Ty::Int, Ty::Int) => true,
            (Ty::Str, Ty::Str) => true,
            (Ty::Callable, Ty::Callable) => true,
            (Ty::Signal, Ty::Signal) => true,
            (Ty::Dict, Ty::Dict) => true,
            (Ty::Array, Ty::Array) => true,
            (Ty::Void, Ty::Void) => true,
            (Ty::Bad, Ty::Bad) => true,
            _ => false,
        }
    }

    /// A copy of the type.
    pub fn copy(&self, alloc: Global) -> Result<Ty, NoMemory>
        ensures { IfOk result (λ t. t ≡ self.now) }
    {
        Ok(match self {
            Ty::Variant => Ty::Variant,
            Ty::Nil => Ty::Nil,
            Ty::Bool => Ty::Bool,
            Ty::Int => Ty::Int,
            Ty::Str => Ty::Str,
            Ty::Callable => Ty::Callable,
            Ty::Signal => Ty::Signal,
            Ty::Dict => Ty::Dict,
            Ty::DictOf(k, v) => {
                let key = k.get().copy(alloc)?;
                let value = v.get().copy(alloc)?;
                Ty::DictOf(Boxed::new(alloc, key)?, Boxed::new(alloc, value)?)
            }
            Ty::Array => Ty::Array,
            Ty::ArrayOf(t) => {
                let element = t.get().copy(alloc)?;
                Ty::ArrayOf(Boxed::new(alloc, element)?)
            }
            Ty::Class(c) => Ty::Class(*c),
            Ty::Void => Ty::Void,
            Ty::Meta(c) => Ty::Meta(*c),
            Ty::Bad => Ty::Bad,
        })
    }
}

/// The value of a constant.
#[derive(Drop)]
pub enum Fixed {
    Nil,
    Bool(bool),
    Int(i64),
    Str(Text),
    /// One of the things that the constants of a project hold, by its number.
    Thing(u32),
}

/// A thing that is made for a constant.
#[derive(Drop)]
pub enum FixedThing {
    /// The element type, and the elements.
    Items(Ty, Seq<Fixed>),
    /// The type of the dictionary, and its pairs.
    Pairs(Ty, Seq<(Fixed, Fixed)>),
}
