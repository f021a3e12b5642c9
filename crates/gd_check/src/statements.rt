//! The rules of statements.
use crate::blocks::Placed;
use crate::calls::is_range;
use crate::expressions::Role;
use crate::findings::Findings;
use crate::scene::Scene;
use crate::setting::Code;
use crate::values::{examine, examine_literal, examine_optional};
use crate::variables::{examine_constant, examine_variable};
use crate::{annotations, assignments, match_patterns};
use gd_model::Ty;
use gd_rules::Rule;
use gd_syntax::{Expr, Pos, Stmt, StmtKind, TypeName};
use gd_typing::{Returning, assigned, iterated, iterated_range, returned};
use no_memory::NoMemory;

/// Looks at a statement, the blocks inside it aside.
pub fn examine_statement(
    scene: &Scene<'_>,
    placed: &Placed<'_>,
    found: &mut Findings,
) -> Result<(), NoMemory> {
    let Stmt {
        pos,
        last,
        notes,
        kind,
    } = placed.stmt;
    annotations::examine(notes.items(), *pos, *last, found)?;
    match kind {
        StmtKind::Pass => Ok(()),
        StmtKind::Break => found.error_if(!placed.in_loop, Rule::BreakOutsideALoop, *pos),
        StmtKind::Continue => found.error_if(!placed.in_loop, Rule::ContinueOutsideALoop, *pos),
        StmtKind::Return(value) => examine_return(scene, value.as_ref(), *pos, found),
        StmtKind::Plain(expr) => examine(scene, expr, Role::Statement, found),
        StmtKind::Assign(operator, mark, target, value) => {
            assignments::examine_assignment(scene, *operator, *mark, target, value, found)
        }
        StmtKind::Local(variable) => {
            scene.examine_written(variable.get().typed.as_ref(), found)?;
            examine_variable(scene, variable.get(), found)
        }
        StmtKind::LocalConst(constant) => {
            scene.examine_written(constant.get().typed.as_ref(), found)?;
            examine_constant(scene, constant.get(), found)
        }
        StmtKind::If(choices, _) => {
            for (condition, _) in choices.as_slice() {
                examine(scene, condition, Role::Value, found)?;
            }
            Ok(())
        }
        StmtKind::While(condition, _) => examine(scene, condition, Role::Value, found),
        StmtKind::For(_, name, written, word, subject, _) => {
            examine(scene, subject, Role::Value, found)?;
            let written = written.as_ref().map(|written| written.get());
            examine_loop(scene, *name, written, *word, subject, found)
        }
        StmtKind::Match(subject, branches) => {
            examine(scene, subject, Role::Value, found)?;
            for branch in branches.as_slice() {
                match_patterns::examine_branch(scene, branch, found)?;
            }
            Ok(())
        }
        StmtKind::Assert(condition, message) => {
            examine(scene, condition, Role::Value, found)?;
            examine_optional(scene, message.as_ref(), found)
        }
    }
}

/// A16: what a `return` at this place gives.
fn examine_return(
    scene: &Scene<'_>,
    value: Option<&Expr>,
    pos: Pos,
    found: &mut Findings,
) -> Result<(), NoMemory> {
    examine_optional(scene, value, found)?;
    let table = scene.facts.table();
    let ty = value.map(|value| scene.facts.ty(value));
    match wanted_return(scene)? {
        Wanted::Anything => Ok(()),
        Wanted::Nothing => found.add(returned(table, Returning::Nothing, ty), pos),
        Wanted::Value(place) => {
            found.add(returned(table, Returning::Value(&place), ty), pos)?;
            match value {
                Some(value) => examine_literal(scene, value, &place, found),
                None => Ok(()),
            }
        }
    }
}

/// What code is to return.
#[derive(Drop)]
enum Wanted {
    /// No type is written: any value, or none.
    Anything,
    /// No value.
    Nothing,
    /// A value for a place of this type.
    Value(Ty),
}

/// What the code here is to return.
fn wanted_return(scene: &Scene<'_>) -> Result<Wanted, NoMemory> {
    Ok(match scene.setting.code {
        Code::Class => Wanted::Anything,
        Code::Function(function) => match &function.result {
            None => Wanted::Anything,
            Some(written) if written.is_void => Wanted::Nothing,
            Some(written) => Wanted::Value(scene.written(written)?),
        },
        Code::Setter(_) => Wanted::Nothing,
        Code::Getter(variable) => Wanted::Value(scene.variable_type(variable)?),
    })
}

/// A41 of the subject of a `for` at its word `in`, and A13 of a written type of its variable, at the variable's name.
fn examine_loop(
    scene: &Scene<'_>,
    name: Pos,
    written: Option<&TypeName>,
    word: Pos,
    subject: &Expr,
    found: &mut Findings,
) -> Result<(), NoMemory> {
    let ty = scene.facts.ty(subject);
    let verdict = if is_range(scene, subject)? {
        iterated_range(ty)
    } else {
        iterated(scene.alloc, ty)?
    };
    found.add(verdict.finding, word)?;
    if let Some(written) = written {
        let place = scene.examined_type(written, found)?;
        found.add(assigned(scene.facts.table(), &verdict.ty, &place), name)?;
    }
    Ok(())
}
