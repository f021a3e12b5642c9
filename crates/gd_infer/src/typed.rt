//! A project with the types and meanings of all its expressions.

use crate::fixing::{FixedConstants, fix};
use crate::inference::Inference;
use crate::inferring::Inferring;
use crate::scope::Local;
use cycle_resolver::{Item, MemberId};
use gd_members::Found;
use gd_model::{Fixed, FixedThing, Ty};
use gd_rules::Diag;
use gd_syntax::{Expr, Pos};
use gd_typing::{Declared, Known, Member, Typing};
use no_memory::NoMemory;
use script_table::Table;
use std::alloc::Global;

/// A project whose expressions have types.
#[derive(Drop)]
pub struct Typed {
    table: Table,
    declared: Declared,
    inference: Inference,
    fixed: FixedConstants,
    plain: PlainTypes,
}

/// The types of members that are the same for all of a kind.
#[derive(Drop)]
struct PlainTypes {
    variant: Ty,
    callable: Ty,
    signal: Ty,
    dictionary: Ty,
}

/// Finds the types of all expressions of a project, what its names resolve to, and the values of its constants.
pub fn infer(alloc: Global, table: Table) -> Result<Typed, NoMemory> {
    let mut inferring = Inferring::new(alloc, table)?;
    inferring.settle(alloc)?;
    inferring.type_all(alloc)?;
    let fixed = fix(alloc, &inferring)?;
    Ok(whole(inferring, fixed))
}

fn whole(inferring: Inferring, fixed: FixedConstants) -> Typed {
    let Inferring {
        table,
        declared,
        inference,
        needs: _,
        progress: _,
    } = inferring;
    Typed {
        table,
        declared,
        inference,
        fixed,
        plain: PlainTypes {
            variant: Ty::Variant,
            callable: Ty::Callable,
            signal: Ty::Signal,
            dictionary: Ty::Dict,
        },
    }
}

impl Typed {
    /// The type of the outermost expression with this place.
    pub fn ty(&self, place: Pos) -> Option<&Ty> {
        match self.inference.called_values.get(place) {
            Some(ty) => Some(ty),
            None => self.inner_type(place),
        }
    }

    /// The type of the innermost expression with this place, a name or an attribute that is called aside.
    pub fn inner_type(&self, place: Pos) -> Option<&Ty> {
        match self.inference.notes.get(place) {
            Some(seen) => Some(&seen.ty),
            None => None,
        }
    }

    /// What the name, attribute or call at this place resolves to; none for a local.
    pub fn target(&self, place: Pos) -> Option<Found> {
        self.inference.notes.get(place)?.found
    }

    /// The place of the name that declares the local which the name at this place means.
    pub fn local_at(&self, place: Pos) -> Option<Pos> {
        let number = self.inference.notes.get(place)?.local?;
        Some(self.inference.locals.get(number)?.pos)
    }

    fn local_of(&self, declares: Pos) -> Option<&Local> {
        let number = self.inference.declared_at.get(declares)?;
        self.inference.locals.get(*number)
    }

    /// The type of the local that the name at this place declares: of a setter's parameter the place of the word `set`.
    pub fn local(&self, declares: Pos) -> Option<&Ty> {
        match self.local_of(declares) {
            Some(local) => Some(&local.ty),
            None => None,
        }
    }

    /// Whether the local that the name at this place declares is a constant.
    pub fn is_local_constant(&self, declares: Pos) -> bool {
        match self.local_of(declares) {
            Some(local) => local.is_constant,
            None => false,
        }
    }

    /// The classes of the project and their names.
    pub fn table(&self) -> &Table {
        &self.table
    }

    /// What the declarations of the project say.
    pub fn declared(&self) -> &Declared {
        &self.declared
    }

    /// The value of the constant, local constant, value of an enum or enum that the name at this place declares.
    pub fn value(&self, name: Pos) -> Option<&Fixed> {
        self.fixed.values.get(name)
    }

    /// The things that constants make, in the order in which a run makes them.
    pub fn things(&self) -> &[FixedThing] {
        self.fixed.things.items()
    }

    /// The places at which A11, A35 and A43 hold.
    pub fn faults(&self) -> &[Diag] {
        self.inference.faults.as_slice()
    }

    /// The places at which A10 holds: of locals that have the name of one in force.
    pub fn repeated_locals(&self) -> &[Pos] {
        self.inference.repeated.as_slice()
    }

    /// The first part of an expression that no constant is made of.
    pub fn first_variable(&self, e: &Expr) -> Option<Pos> {
        self.inference.first_variable(&self.declared, e)
    }

    /// Whether the expression is a call of the builtin `range`.
    pub fn is_range(&self, e: &Expr) -> bool {
        self.inference.is_range(e)
    }

    /// The type of a member as its name has it: of a variable its own, of a constant that of its value, of a function Callable,
    /// of a signal Signal, and of an enum Dictionary.
    pub fn member_type(&self, member: MemberId) -> Option<&Ty> {
        match self.declared.member(member)? {
            Member::Variable(_, Typing::Untyped) => Some(&self.plain.variant),
            Member::Variable(_, Typing::Written(ty)) => Some(ty),
            Member::Variable(_, Typing::Inferred) | Member::Constant(_) => {
                self.inference.known.item(Item { member, value: 0 })
            }
            Member::Function(_) => Some(&self.plain.callable),
            Member::Signal(_) => Some(&self.plain.signal),
            Member::Enum(_) => Some(&self.plain.dictionary),
            Member::Class | Member::Nothing => None,
        }
    }
}

/// The items and the parameters that are declared by `:=` are all known.
impl Known for Typed {
    fn item(&self, item: Item) -> Option<&Ty> {
        self.inference.known.item(item)
    }

    fn unknown_value(&self, enumeration: MemberId) -> Option<Item> {
        self.inference.known.unknown_value(enumeration)
    }

    fn parameter(&self, function: MemberId, index: usize) -> Option<&Ty> {
        self.inference.known.parameter(function, index)
    }
}
