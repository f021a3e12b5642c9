//! The code of loops, `break` and `continue`.
//!
//! | Statement | Code |
//! |---|---|
//! | `while c` | Jump test; begin: Turn, the body; test: c, JumpIf begin; end: |
//! | `for v in s` | s, Iter; Next end; begin: Turn, Set v, the body; again: Next end, Jump begin; end: Clear v |
//! | `for v in range(..)` | the numbers, Range, and on as above |
//! | `continue` | Drop of the subjects inside the loop, Clear of the body's locals, Jump test or again |
//! | `break` | Drop of the subjects, that of a `for` too, Clear of the locals, its variable too, Jump behind the loop |
//!
//! The body is a block. Its end gives its locals up.

use crate::action::Action;
use crate::calls::builtin_callee;
use crate::draft::{Draft, Leap};
use crate::expression::{all, expression};
use crate::foreseen::{checks_of, test_arguments};
use crate::number::number;
use crate::scene::Scene;
use crate::type_code::VARIANT;
use gd_bytecode::Opcode;
use gd_model::impossible;
use gd_syntax::{Expr, ExprKind, Pos};
use no_memory::NoMemory;
use std::alloc::Global;

/// The number of the builtin function `range`.
const RANGE: u16 = 5;

/// A loop around the code that is written.
#[derive(Drop)]
pub struct Loop {
    // How many subjects stand on the stack outside the loop, and in its body.
    outside: u32,
    inside: u32,
    // The first slot of the loop's locals, and of its body's.
    own: u32,
    body: u32,
    breaks: Vec<Leap>,
    continues: Vec<Leap>,
}

impl Loop {
    fn begin(alloc: Global, outside: u32, inside: u32, own: u32, body: u32) -> Loop {
        Loop {
            outside,
            inside,
            own,
            body,
            breaks: Vec::new(alloc),
            continues: Vec::new(alloc),
        }
    }
}

// The jumps out of the body of a loop.
#[derive(Drop)]
struct Ways {
    breaks: Vec<Leap>,
    continues: Vec<Leap>,
}

/// A `while` whose body is being written.
#[derive(Clone, Copy)]
pub struct OpenWhile {
    pos: Pos,
    test: Leap,
    begin: u32,
}

/// The code of a `while` up to its body.
pub fn begin_while<'a>(
    scene: &Scene<'a>,
    draft: &mut Draft<'a>,
    pos: Pos,
) -> Result<OpenWhile, NoMemory> {
    let test = draft.leap(Opcode::Jump, 0, pos)?;
    let begin = draft.place()?;
    draft.plain(Opcode::Turn, 0, 0, pos)?;
    let subjects = draft.subjects;
    let slot = draft.next_slot()?;
    let this = Loop::begin(scene.alloc, subjects, subjects, slot, slot);
    draft.loops.push(this)?;
    Ok(OpenWhile { pos, test, begin })
}

/// The code of a `while` behind its body.
pub fn end_while<'a>(
    scene: &Scene<'a>,
    draft: &mut Draft<'a>,
    begun: OpenWhile,
    condition: &'a Expr,
) -> Result<(), NoMemory> {
    let OpenWhile { pos, test, begin } = begun;
    let ways = end_body(draft, pos)?;
    draft.land(test)?;
    draft.land_all(&ways.continues)?;
    expression(scene, draft, condition)?;
    draft.jump(Opcode::JumpIf, begin, pos)?;
    draft.land_all(&ways.breaks)
}

/// A `for` whose body is being written.
#[derive(Clone, Copy)]
pub struct OpenFor {
    // the place of the word `in`
    word: Pos,
    // how many subjects stand outside
    outside: u32,
    // the slot of the variable
    own: u32,
    none: Leap,
    begin: u32,
}

/// The code of a `for` up to its body: `variable` and `word` are the places of its variable and of the word `in`.
pub fn begin_for<'a>(
    scene: &Scene<'a>,
    draft: &mut Draft<'a>,
    variable: Pos,
    word: Pos,
    subject: &'a Expr,
) -> Result<OpenFor, NoMemory> {
    iteration(scene, draft, word, subject)?;
    let outside = draft.subjects;
    let inside = outside.saturating_add(1);
    let own = draft.next_slot()?;
    draft.declare(variable, scene.local_type(variable)?)?;
    let none = draft.leap(Opcode::Next, 0, word)?;
    let begin = draft.place()?;
    draft.plain(Opcode::Turn, 0, 0, word)?;
    draft.add(Action::Local(Opcode::Set, variable), variable)?;
    let this = Loop::begin(scene.alloc, outside, inside, own, draft.next_slot()?);
    draft.loops.push(this)?;
    draft.subjects = inside;
    Ok(OpenFor {
        word,
        outside,
        own,
        none,
        begin,
    })
}

/// The code of a `for` behind its body.
pub fn end_for(draft: &mut Draft<'_>, begun: OpenFor) -> Result<(), NoMemory> {
    let OpenFor {
        word,
        outside,
        own,
        none,
        begin,
    } = begun;
    let ways = end_body(draft, word)?;
    draft.subjects = outside;
    draft.land_all(&ways.continues)?;
    let over = draft.leap(Opcode::Next, 0, word)?;
    draft.jump(Opcode::Jump, begin, word)?;
    draft.land(none)?;
    draft.land(over)?;
    draft.plain(Opcode::Clear, own, own.saturating_add(1), word)?;
    draft.land_all(&ways.breaks)
}

// The subject as an iteration. A `range` that is written there makes no array.
fn iteration<'a>(
    scene: &Scene<'a>,
    draft: &mut Draft<'a>,
    word: Pos,
    subject: &'a Expr,
) -> Result<(), NoMemory> {
    if scene.typed.is_range(subject)
        && let ExprKind::Call(_, arguments) = &subject.kind
    {
        return range(scene, draft, subject.pos, arguments.as_slice());
    }
    expression(scene, draft, subject)?;
    draft.plain(Opcode::Iter, 0, 0, word)
}

fn range<'a>(
    scene: &Scene<'a>,
    draft: &mut Draft<'a>,
    pos: Pos,
    numbers: &'a [Expr],
) -> Result<(), NoMemory> {
    all(scene, draft, numbers, VARIANT)?;
    let checks = checks_of(builtin_callee(RANGE), None, numbers);
    test_arguments(scene, draft, pos, checks)?;
    draft.plain(Opcode::Range, number(numbers.len())?, 0, pos)
}

// The end of a loop's body, whose locals are given up. Answers the jumps out of it.
fn end_body(draft: &mut Draft<'_>, pos: Pos) -> Result<Ways, NoMemory> {
    let Some(done) = draft.loops.pop() else {
        return Err(impossible().into());
    };
    draft.clear_from(done.body, pos)?;
    Ok(Ways {
        breaks: done.breaks,
        continues: done.continues,
    })
}

/// `break`.
pub fn break_loop(draft: &mut Draft<'_>, pos: Pos) -> Result<(), NoMemory> {
    let Some((outside, own)) = draft.loops.last().map(|this| (this.outside, this.own)) else {
        return Ok(());
    };
    let leap = leave(draft, outside, own, pos)?;
    if let Some(this) = draft.loops.last_mut() {
        this.breaks.push(leap)?;
    }
    Ok(())
}

/// `continue`.
pub fn continue_loop(draft: &mut Draft<'_>, pos: Pos) -> Result<(), NoMemory> {
    let Some((inside, body)) = draft.loops.last().map(|this| (this.inside, this.body)) else {
        return Ok(());
    };
    let leap = leave(draft, inside, body, pos)?;
    if let Some(this) = draft.loops.last_mut() {
        this.continues.push(leap)?;
    }
    Ok(())
}

// Leaves blocks down to so many subjects and up to this slot.
fn leave(draft: &mut Draft<'_>, subjects: u32, first: u32, pos: Pos) -> Result<Leap, NoMemory> {
    draft.give_up(draft.subjects.saturating_sub(subjects), pos)?;
    draft.clear_from(first, pos)?;
    draft.leap(Opcode::Jump, 0, pos)
}
