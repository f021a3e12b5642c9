//! Where the rules A01 to A06 hold.
use crate::builtins::builtin_number;
use crate::listing::Reference;
use crate::members::{Declared, Sort};
use crate::names::Names;
use gd_rules::{Diag, Rule};
use gd_syntax::{BaseName, ClassDecl, DeclKind, Expr, Pos, Text};
use indexmap::IndexSet;
use no_memory::NoMemory;
use std::alloc::Global;

/// All places at which A01 to A06 hold.
pub fn all_faults(
    alloc: Global,
    names: &Names,
    trees: &[&ClassDecl],
    references: &[Reference<'_>],
) -> Result<Vec<Diag>, NoMemory> {
    let mut faults = Vec::new(alloc);
    add_of_references(names, references, &mut faults)?;
    add_of_declarations(names, &mut faults)?;
    add_of_classes(alloc, names, trees, &mut faults)?;
    Ok(faults)
}

// A01 at each path that names no file.
fn add_of_references(
    names: &Names,
    references: &[Reference<'_>],
    faults: &mut Vec<Diag>,
) -> Result<(), NoMemory> {
    for reference in references {
        if names
            .class_at_path(reference.class, reference.path)
            .is_none()
        {
            report(faults, reference.pos, Rule::PathNotFound)?;
        }
    }
    Ok(())
}

// A03 and A04 at each declaration.
fn add_of_declarations(names: &Names, faults: &mut Vec<Diag>) -> Result<(), NoMemory> {
    for (place, declared) in names.members.declared().iter().enumerate() {
        add_of_declaration(names, place, declared, faults)?;
    }
    Ok(())
}

fn add_of_classes(
    alloc: Global,
    names: &Names,
    trees: &[&ClassDecl],
    faults: &mut Vec<Diag>,
) -> Result<(), NoMemory> {
    let mut class = 0u32;
    for tree in trees {
        class = class.saturating_add(1);
        add_of_class(names, class, tree, faults)?;
        add_of_enums(alloc, tree, faults)?;
    }
    Ok(())
}

// A02 at the name of a class, and A05 and A06 at its base.
fn add_of_class(
    names: &Names,
    class: u32,
    tree: &ClassDecl,
    faults: &mut Vec<Diag>,
) -> Result<(), NoMemory> {
    if is_name_taken(names, class, tree) {
        report(faults, tree.pos, Rule::ClassNameTaken)?;
    }
    match &tree.base {
        Some(base) => add_of_base(names, class, base, faults),
        None => Ok(()),
    }
}

// A03 at the values of the named enums of a class.
fn add_of_enums(alloc: Global, tree: &ClassDecl, faults: &mut Vec<Diag>) -> Result<(), NoMemory> {
    for member in tree.members.as_slice() {
        if let DeclKind::Enum(Some(_), values) = &member.kind {
            add_of_enum(alloc, values.items(), faults)?;
        }
    }
    Ok(())
}

fn report(faults: &mut Vec<Diag>, pos: Pos, rule: Rule) -> Result<(), NoMemory> {
    faults.push(Diag { pos, rule })?;
    Ok(())
}

// A03 and A04 at a declaration.
fn add_of_declaration(
    names: &Names,
    place: usize,
    declared: &Declared,
    faults: &mut Vec<Diag>,
) -> Result<(), NoMemory> {
    let first = names.members.first(declared.class, declared.name);
    if first.is_some_and(|first| first as usize != place) {
        report(faults, declared.pos, Rule::DuplicateMember)?;
    }
    if hides(names, declared) {
        report(faults, declared.pos, Rule::HidesAnInheritedMember)?;
    }
    Ok(())
}

// Whether a base has a member of that name, and not both are functions.
fn hides(names: &Names, declared: &Declared) -> bool {
    let mut at = names.base(declared.class);
    for _ in 0..names.classes.len() {
        if at == 0 {
            return false;
        }
        if is_hidden(names, at, declared) {
            return true;
        }
        at = names.base(at);
    }
    false
}

fn is_hidden(names: &Names, base: u32, declared: &Declared) -> bool {
    let Some(place) = names.members.first(base, declared.name) else {
        return false;
    };
    match names.members.at(place) {
        Some(other) => !(is_function(declared.sort) && is_function(other.sort)),
        None => false,
    }
}

fn is_function(sort: Sort) -> bool {
    matches!(sort, Sort::Function(_))
}

// Whether the name of the class of a file is that of a builtin or of the class of a file before it.
fn is_name_taken(names: &Names, class: u32, tree: &ClassDecl) -> bool {
    if names.outer(class) != 0 {
        return false;
    }
    match &tree.name {
        Some(name) => builtin_number(name.chars()).is_some() || is_of_other(names, class, name),
        None => false,
    }
}

// Whether another class has the name in the whole project.
fn is_of_other(names: &Names, class: u32, name: &Text) -> bool {
    match names.class_named(name) {
        Some(other) => other != class,
        None => false,
    }
}

// A05 and A06 at what stands after `extends`.
fn add_of_base(
    names: &Names,
    class: u32,
    base: &BaseName,
    faults: &mut Vec<Diag>,
) -> Result<(), NoMemory> {
    if !has_no_file(names, class, base) && names.extended_by(class, base).is_none() {
        report(faults, base.pos, Rule::UnknownBase)?;
    }
    if names.is_cyclic(class) {
        report(faults, base.pos, Rule::ExtendsCycle)?;
    }
    Ok(())
}

// Whether a path stands there that names no file.
fn has_no_file(names: &Names, class: u32, base: &BaseName) -> bool {
    match &base.path {
        Some(path) => names.class_at_path(class, path).is_none(),
        None => false,
    }
}

// A03 at the values of a named enum.
fn add_of_enum(
    alloc: Global,
    values: &[(Text, Pos, Option<Expr>)],
    faults: &mut Vec<Diag>,
) -> Result<(), NoMemory> {
    let mut seen: IndexSet<&Text> = IndexSet::new(alloc);
    for value in values {
        if !seen.insert(&value.0)? {
            report(faults, value.1, Rule::DuplicateMember)?;
        }
    }
    Ok(())
}
