//! The numbers by which the analysis names the members of classes, and what a name is found to be.
//!
//! Class 0 is RefCounted; class k, from 1, is the k-th of the project's classes in their order (docs/language.md,
//! "Names and bases").
#![tactic(auto)]

/// A declaration of a class: its place among the class's declarations, from 0.
#[derive(Clone, Copy, Debug, PartialEq, Eq, Hash)]
pub struct MemberId {
    pub class: u32,
    pub index: u32,
}

/// What inference settles as a whole: a variable declared by `:=`, a constant, or one value of an enum.
#[derive(Clone, Copy, Debug, PartialEq, Eq, Hash)]
pub struct Item {
    pub member: MemberId,
    /// 0, or for an enum value its place in the enum, from 1.
    pub value: u32,
}

/// What a name is.
#[derive(Clone, Copy, Debug, PartialEq, Eq)]
pub enum Found {
    /// A declaration, but for an inner class; a constant that holds a class is one too.
    Member(MemberId),
    /// A value of an unnamed enum: the enum, and the value's place in it, from 0.
    EnumValue(MemberId, u32),
    /// A class, by its number.
    Class(u32),
    /// A builtin, by its number.
    Builtin(u16),
    /// Nothing has the name.
    Missing,
}
