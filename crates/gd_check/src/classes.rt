//! The declarations of classes.
use crate::accessors::examine_accessors;
use crate::annotations;
use crate::bodies::{examine_function, examine_parameters};
use crate::constants::is_no_enum_value;
use crate::declarations::required_after_optional;
use crate::expressions::Role;
use crate::facts::Facts;
use crate::findings::Findings;
use crate::scene::Scene;
use crate::setting::{Code, Setting};
use crate::values::examine;
use crate::variables::{examine_constant, examine_variable};
use gd_infer::Typed;
use gd_members::MemberId;
use gd_model::Ty;
use gd_rules::Rule;
use gd_syntax::{ClassDecl, Decl, DeclKind, Expr, Pos, Text};
use no_memory::NoMemory;
use std::alloc::Global;

/// What all rules find in a project.
pub fn examine_project(alloc: Global, typed: &Typed) -> Result<Findings, NoMemory> {
    let mut found = Findings::new(alloc);
    let constant_faults = constant_faults(alloc, typed)?;
    let facts = Facts {
        typed,
        bad: &Ty::Bad,
        constant_faults: &constant_faults,
    };
    found.add_errors(facts.table().faults())?;
    found.add_errors(facts.declared().faults())?;
    found.add_errors(typed.faults())?;
    for pos in typed.repeated_locals() {
        found.error(Rule::LocalDeclaredTwice, *pos)?;
    }
    for place in 0..facts.table().class_count() {
        let class = place.saturating_add(1);
        if let Some(declared) = facts.table().class(class) {
            examine_class(alloc, facts, class, declared, &mut found)?;
        }
    }
    Ok(found)
}

/// The places at which the evaluation of a constant faults, in order.
fn constant_faults(alloc: Global, typed: &Typed) -> Result<Vec<Pos>, NoMemory> {
    let mut places = Vec::new(alloc);
    for fault in typed.faults() {
        if matches!(fault.rule, Rule::ConstantFault) {
            places.push(fault.pos)?;
        }
    }
    places.sort_unstable();
    Ok(places)
}

/// Looks at the declarations of a class, inner classes aside.
fn examine_class<'a>(
    alloc: Global,
    facts: Facts<'a>,
    class: u32,
    declared: &'a ClassDecl,
    found: &mut Findings,
) -> Result<(), NoMemory> {
    let mut index = 0u32;
    for member in declared.members.as_slice() {
        annotations::examine(member.notes.items(), member.pos, member.last, found)?;
        let setting = Setting {
            class,
            is_static: is_static(member),
            code: code_of(member),
        };
        let scene = Scene {
            alloc,
            facts,
            setting,
        };
        examine_member(&scene, MemberId { class, index }, member, found)?;
        index = index.saturating_add(1);
    }
    Ok(())
}

/// Whether the code of a declaration has no instance.
fn is_static(member: &Decl) -> bool {
    match &member.kind {
        DeclKind::Var(variable) => variable.is_static,
        DeclKind::Func(function) => function.is_static,
        DeclKind::Const(_) | DeclKind::Enum(_, _) => true,
        DeclKind::Signal(_, _, _) | DeclKind::Class(_) | DeclKind::Nothing => false,
    }
}

fn code_of(member: &Decl) -> Code<'_> {
    match &member.kind {
        DeclKind::Func(function) => Code::Function(function),
        _ => Code::Class,
    }
}

/// Looks at a declaration.
fn examine_member<'a>(
    scene: &Scene<'a>,
    id: MemberId,
    member: &'a Decl,
    found: &mut Findings,
) -> Result<(), NoMemory> {
    match &member.kind {
        DeclKind::Var(variable) => {
            examine_variable(scene, variable, found)?;
            examine_accessors(scene, variable, found)
        }
        DeclKind::Const(constant) => examine_constant(scene, constant, found),
        DeclKind::Func(function) => examine_function(scene, id, function, found),
        DeclKind::Signal(_, _, parameters) => {
            required_after_optional(parameters.items(), found)?;
            examine_parameters(scene, parameters.items(), found)
        }
        DeclKind::Enum(_, values) => examine_enum(scene, values.items(), found),
        DeclKind::Class(_) | DeclKind::Nothing => Ok(()),
    }
}

/// Looks at the values of an enum. A36 of each that is no constant int, at the value.
fn examine_enum(
    scene: &Scene<'_>,
    values: &[(Text, Pos, Option<Expr>)],
    found: &mut Findings,
) -> Result<(), NoMemory> {
    for (_, name, value) in values {
        if let Some(value) = value {
            examine(scene, value, Role::Value, found)?;
            let is_bad = is_no_enum_value(scene, *name, value)?;
            found.error_if(is_bad, Rule::EnumValueNotAConstantInt, value.pos)?;
        }
    }
    Ok(())
}
