//! The functions of a program, in their order.

use crate::function_key::FunctionKey;
use crate::functions::has_initial_values;
use crate::scene::NamedAccessor;
use gd_members::{Found, MemberId};
use gd_syntax::{Accessor, ClassDecl, DeclKind, Text, VarDecl};
use indexmap::IndexSet;
use no_memory::NoMemory;
use script_table::Table;
use sqlite_items::Boxed;
use std::alloc::Global;
use std::collections::HashSet;

/// The functions of a project, and which of them variables name as their accessors.
#[derive(Drop)]
pub struct Numbering {
    pub functions: IndexSet<FunctionKey>,
    pub accessors: HashSet<NamedAccessor>,
}

/// Numbers the functions of all classes in class order: of each class its functions and the bodies of accessors by
/// place, then its initial values, and then its static ones.
pub fn number_functions(alloc: Global, table: &Table) -> Result<Numbering, NoMemory> {
    let mut numbering = Numbering {
        functions: IndexSet::new(alloc),
        accessors: HashSet::new(alloc),
    };
    for place in 0..table.class_count() {
        let class = place.saturating_add(1);
        if let Some(tree) = table.class(class) {
            numbering.add_class(table, class, tree)?;
        }
    }
    Ok(numbering)
}

impl Numbering {
    fn add_class(&mut self, table: &Table, class: u32, tree: &ClassDecl) -> Result<(), NoMemory> {
        let mut index = 0u32;
        for member in tree.members.as_slice() {
            let id = MemberId { class, index };
            match &member.kind {
                DeclKind::Func(_) => self.add(FunctionKey::Declared(id))?,
                DeclKind::Var(variable) => self.add_accessors(table, id, variable)?,
                _ => {}
            }
            index = index.saturating_add(1);
        }
        if has_initial_values(tree, false) {
            self.add(FunctionKey::Initial(class))?;
        }
        if has_initial_values(tree, true) {
            self.add(FunctionKey::StaticInitial(class))?;
        }
        Ok(())
    }

    fn add(&mut self, key: FunctionKey) -> Result<(), NoMemory> {
        self.functions.insert(key)?;
        Ok(())
    }

    fn add_accessors(
        &mut self,
        table: &Table,
        id: MemberId,
        variable: &VarDecl,
    ) -> Result<(), NoMemory> {
        self.add_accessor(table, id, variable.setter.as_ref(), FunctionKey::Setter(id))?;
        self.add_accessor(table, id, variable.getter.as_ref(), FunctionKey::Getter(id))
    }

    fn add_accessor(
        &mut self,
        table: &Table,
        variable: MemberId,
        accessor: Option<&Boxed<Accessor>>,
        key: FunctionKey,
    ) -> Result<(), NoMemory> {
        let Some(accessor) = accessor else {
            return Ok(());
        };
        match accessor.get() {
            Accessor::Named(name, _) => {
                if let Some(function) = own_function(table, variable.class, name) {
                    self.accessors.insert(NamedAccessor { function, variable })?;
                }
                Ok(())
            }
            Accessor::Body(_, _, _, _) => self.add(key),
        }
    }
}

/// The function of this name that a class itself declares.
pub fn own_function(table: &Table, class: u32, name: &Text) -> Option<MemberId> {
    let Some(Found::Member(member)) = table.own(class, name) else {
        return None;
    };
    match &table.declaration(member)?.kind {
        DeclKind::Func(_) => Some(member),
        _ => None,
    }
}
