//! The code of functions.
//!
//! | Function | Code |
//! |---|---|
//! | a declared one, the body of an accessor | the default values, the body; Push null, Return |
//! | a default value | Default next, the value, Set; next: |
//! | initial values | for each variable with a value the value, SetOwn or SetStatic; Push null, Return |

use crate::action::{Action, Literal};
use crate::draft::Draft;
use crate::expression::expression;
use crate::number::number;
use crate::scene::Scene;
use crate::statement::statements;
use crate::type_code::TypeCode;
use gd_bytecode::Opcode;
use gd_syntax::{ClassDecl, DeclKind, Expr, Pos, Stmt, VarDecl};
use no_memory::NoMemory;

/// The body of a function with these parameters.
pub fn function<'a>(
    scene: &Scene<'a>,
    parameters: &'a [VarDecl],
    body: &'a [Stmt],
    pos: Pos,
) -> Result<Draft<'a>, NoMemory> {
    let mut draft = Draft::new(scene.alloc);
    for parameter in parameters {
        draft.declare(parameter.pos, scene.local_type(parameter.pos)?)?;
    }
    for (index, parameter) in parameters.iter().enumerate() {
        default_value(scene, &mut draft, number(index)?, parameter)?;
    }
    statements(scene, &mut draft, body)?;
    end(&mut draft, pos)?;
    Ok(draft)
}

// The default value of a parameter, if it has one, where no argument was given.
fn default_value<'a>(
    scene: &Scene<'a>,
    draft: &mut Draft<'a>,
    slot: u32,
    parameter: &'a VarDecl,
) -> Result<(), NoMemory> {
    let (Some(value), Some(equals)) = (&parameter.value, parameter.equals) else {
        return Ok(());
    };
    let given = draft.leap(Opcode::Default, slot, equals)?;
    expression(scene, draft, value)?;
    draft.add(Action::Local(Opcode::Set, parameter.pos), equals)?;
    draft.land(given)
}

/// The body of a setter, whose parameter is declared at this place, or of a getter.
pub fn accessor<'a>(
    scene: &Scene<'a>,
    parameter: Option<TypeCode>,
    body: &'a [Stmt],
    pos: Pos,
) -> Result<Draft<'a>, NoMemory> {
    let mut draft = Draft::new(scene.alloc);
    if let Some(ty) = parameter {
        draft.declare(pos, ty)?;
    }
    statements(scene, &mut draft, body)?;
    end(&mut draft, pos)?;
    Ok(draft)
}

/// The initial values of a class: of its static variables, or of the others.
pub fn initial_values<'a>(
    scene: &Scene<'a>,
    class: &'a ClassDecl,
    is_static: bool,
) -> Result<Draft<'a>, NoMemory> {
    let mut draft = Draft::new(scene.alloc);
    for member in class.members.as_slice() {
        if let DeclKind::Var(variable) = &member.kind
            && variable.is_static == is_static
            && let (Some(value), Some(equals)) = (&variable.value, variable.equals)
        {
            initial_value(scene, &mut draft, variable, value, equals)?;
        }
    }
    end(&mut draft, class.pos)?;
    Ok(draft)
}

fn initial_value<'a>(
    scene: &Scene<'a>,
    draft: &mut Draft<'a>,
    variable: &'a VarDecl,
    value: &'a Expr,
    equals: Pos,
) -> Result<(), NoMemory> {
    expression(scene, draft, value)?;
    if variable.is_static {
        draft.add(
            Action::Static(Opcode::SetStatic, &variable.name, scene.class),
            equals,
        )
    } else {
        draft.named(Opcode::SetOwn, &variable.name, equals)
    }
}

// The end of a function gives null.
fn end(draft: &mut Draft<'_>, pos: Pos) -> Result<(), NoMemory> {
    draft.value(Literal::Null, pos)?;
    draft.plain(Opcode::Return, 0, 0, pos)
}

/// Whether a class has initial values, of its static variables or of the others.
pub fn has_initial_values(class: &ClassDecl, is_static: bool) -> bool {
    for member in class.members.as_slice() {
        if let DeclKind::Var(variable) = &member.kind
            && variable.is_static == is_static
            && variable.value.is_some()
        {
            return true;
        }
    }
    false
}
