//! Where code stands, and what is known of its project.

use crate::function_key::FunctionKey;
use crate::known::known;
use crate::type_code::TypeCode;
use gd_infer::Typed;
use gd_members::{Found, MemberId};
use gd_model::Ty;
use gd_syntax::{DeclKind, Expr, Pos, TypeName};
use gd_typing::{Declared, written_type};
use no_memory::NoMemory;
use script_table::Table;
use std::alloc::Global;
use std::collections::HashSet;

/// A function that a variable names as its accessor.
#[derive(Clone, Copy, PartialEq, Eq, Hash)]
pub struct NamedAccessor {
    pub function: MemberId,
    pub variable: MemberId,
}

/// The function that is compiled, and its project.
#[derive(Clone, Copy)]
pub struct Scene<'a> {
    pub alloc: Global,
    pub typed: &'a Typed,
    pub accessors: &'a HashSet<NamedAccessor>,
    /// The class in which the code stands.
    pub class: u32,
    pub code: FunctionKey,
}

impl<'a> Scene<'a> {
    /// The classes of the project.
    pub fn table(&self) -> &'a Table {
        self.typed.table()
    }

    /// What the declarations of the project say.
    pub fn declared(&self) -> &'a Declared {
        self.typed.declared()
    }

    /// The type of an expression.
    pub fn ty(&self, expr: &Expr) -> Option<&'a Ty> {
        self.typed.inner_type(expr.pos)
    }

    /// The type of a target, against which what is written there is tested.
    pub fn place_type(&self, target: &Expr) -> Result<TypeCode, NoMemory> {
        TypeCode::of(known(self.ty(target))?)
    }

    /// The type of the local that is declared at this place.
    pub fn local_type(&self, declares: Pos) -> Result<TypeCode, NoMemory> {
        TypeCode::of(known(self.typed.local(declares))?)
    }

    /// A type that is written in an expression.
    pub fn written(&self, written: &TypeName) -> Result<TypeCode, NoMemory> {
        let mut faults = Vec::new(self.alloc);
        let ty = written_type(self.alloc, self.table(), self.class, written, &mut faults)?;
        TypeCode::of(&ty)
    }

    /// Whether an expression stands for a class.
    pub fn is_class(&self, expr: &Expr) -> bool {
        matches!(self.ty(expr), Some(Ty::Meta(_)))
    }

    /// What the name, attribute or call at this place means, a local aside.
    pub fn found(&self, place: Pos) -> Option<Found> {
        self.typed.target(place)
    }

    /// The declaration of a member.
    pub fn kind(&self, member: MemberId) -> Option<&'a DeclKind> {
        match self.table().declaration(member) {
            Some(declared) => Some(&declared.kind),
            None => None,
        }
    }

    /// Whether the bare name of a variable is the variable itself here: in its accessors.
    pub fn is_direct(&self, variable: MemberId) -> bool {
        match self.code {
            FunctionKey::Setter(own) | FunctionKey::Getter(own) => own == variable,
            FunctionKey::Declared(function) => {
                self.accessors
                    .contains(&NamedAccessor { function, variable })
            }
            FunctionKey::Initial(_) | FunctionKey::StaticInitial(_) => false,
        }
    }
}
