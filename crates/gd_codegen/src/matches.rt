//! The code of `match`: the subject stands on the stack, and the tests of its patterns are laid out one after another.
//!
//! A test of a part of the subject reads that part anew, from the subject on: a copy of it, and for each step Elem, or
//! the key, KeyOf and Drop 1. These stay on the stack until the test is made, and are given up together.
//!
//! | Node | Code |
//! |---|---|
//! | Kind | the part, Is; the ways on |
//! | Size | the part, SizeArr or SizeDict; the ways on |
//! | HasKey | the key into its local, if it is no single Push; the part, the key, KeyOf; the ways on |
//! | Equals of the subject itself | Dup 0, the pattern, Same; the ways on |
//! | Equals of another part | the pattern, the part, Dup of the pattern's value, Same; the ways on |
//! | Bind | the part, Set, Drop of the rest |
//! | Guard | the guard; the ways on |
//! | Take | the branch's body; Drop 1, Clear of all locals, Jump end |
//! | Fail | Drop 1, Clear of the keys' locals |
//!
//! The ways on, where nothing is to be given up: JumpIfNot to the node for no, and on to the node for yes. Over entries
//! of the stack or bindings of the branch: JumpIf yes; Drop, Clear of the bindings, Jump to the node for no; yes: Drop,
//! and on to the node for yes. It mostly stands next, and is jumped to where it does not.

use crate::action::{Action, Literal};
use crate::draft::{Draft, Leap};
use crate::expression::{expression, first_token};
use crate::scene::Scene;
use crate::statement::statements;
use crate::type_code::{PlainType, TypeCode, VARIANT};
use gd_bytecode::Opcode;
use gd_syntax::{Branch, Expr, ExprKind, Pos};
use match_code::{Parts, Subject, TestNode, TestTree, parts_of, tests};
use no_memory::NoMemory;
use std::alloc::Global;

// A `match` whose code is written.
#[derive(Drop)]
struct Layout<'a> {
    pos: Pos,
    tree: TestTree,
    parts: Parts<'a>,
    // Where the nodes stand that are written.
    places: Vec<u32>,
    // The jumps to nodes.
    leaps: Vec<(Leap, u32)>,
    // The jumps to the end.
    ends: Vec<Leap>,
    // The first slot of the `match`, and of the branch that is written.
    first: u32,
    branch: u32,
}

/// The branches of a `match`, whose subject stands on the stack.
#[cycle(statement)]
pub fn match_branches<'a>(
    scene: &Scene<'a>,
    draft: &mut Draft<'a>,
    pos: Pos,
    branches: &'a [Branch],
) -> Result<(), NoMemory> {
    let mut layout = begin(scene, draft, pos, branches)?;
    let keys_end = layout.branch;
    let outside = draft.subjects;
    draft.subjects = outside.saturating_add(1);
    for place in 0..layout.tree.nodes.items().len() {
        layout.places.push(draft.place()?)?;
        match layout.node(place) {
            TestNode::Take(branch) => {
                if let Some(branch) = branches.get(branch as usize) {
                    statements(scene, draft, branch.body.as_slice())?;
                }
                layout.end_branch(draft)?;
            }
            TestNode::Guard(branch, yes, no) => {
                let guard = guard_of(branches, branch);
                layout.guard(scene, draft, guard, Ways::over(place, yes, no, 0))?;
            }
            node => layout.test(scene, draft, place, node)?,
        }
    }
    draft.subjects = outside;
    draft.give_up(1, pos)?;
    if layout.first < keys_end {
        draft.plain(Opcode::Clear, layout.first, keys_end, pos)?;
    }
    layout.finish(draft)
}

fn guard_of<'a>(branches: &'a [Branch], branch: u32) -> Option<&'a Expr> {
    match branches.get(branch as usize) {
        Some(branch) => branch.guard.as_ref(),
        None => None,
    }
}

// Nothing is written but the locals of the keys that have one.
fn begin<'a>(
    scene: &Scene<'a>,
    draft: &mut Draft<'a>,
    pos: Pos,
    branches: &'a [Branch],
) -> Result<Layout<'a>, NoMemory> {
    let parts = parts_of(scene.alloc, branches)?;
    let first = draft.next_slot()?;
    for key in &parts.keys {
        if !is_single(key) {
            draft.declare(key.pos, VARIANT)?;
        }
    }
    Ok(Layout {
        pos,
        tree: tests(scene.alloc, branches)?,
        parts,
        places: Vec::new(scene.alloc),
        leaps: Vec::new(scene.alloc),
        ends: Vec::new(scene.alloc),
        first,
        branch: draft.next_slot()?,
    })
}

// Where a test leads.
#[derive(Clone, Copy)]
struct Ways {
    // the node that stands next
    next: usize,
    yes: u32,
    no: u32,
    // how many entries of the stack are still to be given up
    entries: u32,
}

impl Ways {
    // From the node at a place.
    fn over(place: usize, yes: u32, no: u32, entries: u32) -> Ways {
        Ways {
            next: place.saturating_add(1),
            yes,
            no,
            entries,
        }
    }
}

impl<'a> Layout<'a> {
    // The end of the branch that is taken: the subject first, and then all locals.
    fn end_branch(&mut self, draft: &mut Draft<'a>) -> Result<(), NoMemory> {
        draft.give_up(1, self.pos)?;
        draft.clear_from(self.first, self.pos)?;
        self.ends.push(draft.leap(Opcode::Jump, 0, self.pos)?)?;
        self.branch = draft.next_slot()?;
        Ok(())
    }

    // All jumps lead to their nodes, and those behind the branches here.
    fn finish(&mut self, draft: &mut Draft<'a>) -> Result<(), NoMemory> {
        for (leap, node) in &self.leaps {
            if let Some(place) = self.places.get(*node as usize) {
                draft.land_at(*leap, *place);
            }
        }
        draft.land_all(&self.ends)
    }

    // The node at a place.
    fn node(&self, place: usize) -> TestNode {
        match self.tree.nodes.items().get(place) {
            Some(node) => *node,
            None => TestNode::Fail,
        }
    }

    // A guard.
    fn guard(
        &mut self,
        scene: &Scene<'a>,
        draft: &mut Draft<'a>,
        guard: Option<&'a Expr>,
        ways: Ways,
    ) -> Result<(), NoMemory> {
        if let Some(guard) = guard {
            expression(scene, draft, guard)?;
            self.ways_on(draft, ways)?;
        }
        Ok(())
    }

    // A node that tests a part of the subject, or binds one.
    fn test(
        &mut self,
        scene: &Scene<'a>,
        draft: &mut Draft<'a>,
        place: usize,
        node: TestNode,
    ) -> Result<(), NoMemory> {
        match node {
            TestNode::Kind(subject, kind, yes, no) => {
                let read = self.read(scene, draft, subject, 0)?;
                draft.add(Action::Typed(Opcode::Is, type_of_kind(kind)), self.pos)?;
                self.ways_on(draft, Ways::over(place, yes, no, read.saturating_sub(1)))
            }
            TestNode::Size(subject, size, more, yes, no) => {
                let read = self.read(scene, draft, subject, 0)?;
                let op = self.size_of_kind(place);
                draft.plain(op, size, if more { 1 } else { 0 }, self.pos)?;
                self.ways_on(draft, Ways::over(place, yes, no, read))
            }
            TestNode::HasKey(subject, key, yes, no) => {
                let read = self.look_up(scene, draft, subject, key)?;
                self.ways_on(draft, Ways::over(place, yes, no, read.saturating_add(1)))
            }
            TestNode::Equals(subject, pattern, yes, no) => {
                let left = self.compare(scene, draft, subject, pattern)?;
                self.ways_on(draft, Ways::over(place, yes, no, left))
            }
            TestNode::Bind(subject, binding, _) => self.bind(scene, draft, subject, binding),
            TestNode::Guard(_, _, _) | TestNode::Take(_) | TestNode::Fail => Ok(()),
        }
    }

    // The operation for the size that a node tests: the node before it tests the kind.
    fn size_of_kind(&self, place: usize) -> Opcode {
        match self.tree.nodes.items().get(place.saturating_sub(1)) {
            Some(TestNode::Kind(_, 0, _, _)) => Opcode::SizeArr,
            _ => Opcode::SizeDict,
        }
    }

    // Reads a part of the subject, above which so many entries stand. Answers how many entries it leaves, itself among
    // them.
    fn read(
        &self,
        scene: &Scene<'a>,
        draft: &mut Draft<'a>,
        subject: u32,
        above: u32,
    ) -> Result<u32, NoMemory> {
        draft.plain(Opcode::Dup, above, 0, self.pos)?;
        let mut entries = 1u32;
        let steps = self.steps_to(scene.alloc, subject)?;
        for step in steps.iter().rev() {
            match *step {
                Subject::Whole => {}
                Subject::Element(_, place) => {
                    draft.plain(Opcode::Elem, place, 0, self.pos)?;
                    entries = entries.saturating_add(1);
                }
                Subject::ValueAt(_, key) => {
                    self.push_key(draft, key)?;
                    draft.plain(Opcode::KeyOf, 0, 0, self.pos)?;
                    draft.give_up(1, self.pos)?;
                    entries = entries.saturating_add(1);
                }
            }
        }
        Ok(entries)
    }

    // The steps from a part of the subject to the subject itself.
    fn steps_to(&self, alloc: Global, subject: u32) -> Result<Vec<Subject>, NoMemory> {
        let mut steps = Vec::new(alloc);
        let subjects = self.tree.subjects.items();
        let mut at = subject;
        // An earlier subject has a lower number.
        for _ in 0..subjects.len() {
            let Some(step) = subjects.get(at as usize) else {
                return Ok(steps);
            };
            match *step {
                Subject::Whole => return Ok(steps),
                Subject::Element(outer, _) | Subject::ValueAt(outer, _) => {
                    steps.push(*step)?;
                    at = outer;
                }
            }
        }
        Ok(steps)
    }

    // Looks a key up in a part of the subject: the value for it and whether it is there stand above the part.
    fn look_up(
        &self,
        scene: &Scene<'a>,
        draft: &mut Draft<'a>,
        subject: u32,
        key: u32,
    ) -> Result<u32, NoMemory> {
        if let Some(e) = self.parts.keys.get(key as usize)
            && !is_single(e)
        {
            expression(scene, draft, e)?;
            draft.add(Action::Local(Opcode::Set, e.pos), e.pos)?;
        }
        let read = self.read(scene, draft, subject, 0)?;
        self.push_key(draft, key)?;
        draft.plain(Opcode::KeyOf, 0, 0, self.pos)?;
        Ok(read)
    }

    fn push_key(&self, draft: &mut Draft<'a>, key: u32) -> Result<(), NoMemory> {
        match self.parts.keys.get(key as usize) {
            Some(e) => match single(e) {
                Some(literal) => draft.value(literal, e.pos),
                None => draft.add(Action::Local(Opcode::Get, e.pos), e.pos),
            },
            None => draft.value(Literal::Null, self.pos),
        }
    }

    // Compares a part of the subject with an expression pattern, which is evaluated first. Answers how many entries are
    // left.
    fn compare(
        &self,
        scene: &Scene<'a>,
        draft: &mut Draft<'a>,
        subject: u32,
        pattern: u32,
    ) -> Result<u32, NoMemory> {
        let Some(e) = self.parts.expressions.get(pattern as usize) else {
            return Ok(0);
        };
        if subject == 0 {
            draft.plain(Opcode::Dup, 0, 0, self.pos)?;
            expression(scene, draft, e)?;
            draft.plain(Opcode::Same, 0, 0, first_token(e))?;
            return Ok(0);
        }
        expression(scene, draft, e)?;
        let read = self.read(scene, draft, subject, 1)?;
        draft.plain(Opcode::Dup, read, 0, self.pos)?;
        draft.plain(Opcode::Same, 0, 0, first_token(e))?;
        Ok(read)
    }

    // Binds a part of the subject. The node that follows stands next.
    fn bind(
        &self,
        scene: &Scene<'a>,
        draft: &mut Draft<'a>,
        subject: u32,
        binding: u32,
    ) -> Result<(), NoMemory> {
        let Some(pattern) = self.parts.bindings.get(binding as usize) else {
            return Ok(());
        };
        let at = pattern.pos;
        draft.declare(at, VARIANT)?;
        let read = self.read(scene, draft, subject, 0)?;
        draft.add(Action::Local(Opcode::Set, at), at)?;
        draft.give_up(read.saturating_sub(1), self.pos)
    }

    // The ways on from a bool on the top.
    fn ways_on(&mut self, draft: &mut Draft<'a>, ways: Ways) -> Result<(), NoMemory> {
        let has_bindings = self.branch < draft.next_slot()?;
        if ways.entries == 0 && !has_bindings {
            let no = draft.leap(Opcode::JumpIfNot, 0, self.pos)?;
            self.leaps.push((no, ways.no))?;
            return self.go_to(draft, ways.yes, ways.next);
        }
        let yes = draft.leap(Opcode::JumpIf, 0, self.pos)?;
        draft.give_up(ways.entries, self.pos)?;
        draft.clear_from(self.branch, self.pos)?;
        let no = draft.leap(Opcode::Jump, 0, self.pos)?;
        self.leaps.push((no, ways.no))?;
        draft.land(yes)?;
        draft.give_up(ways.entries, self.pos)?;
        self.go_to(draft, ways.yes, ways.next)
    }

    // Goes on at a node, which may be the one that stands next.
    fn go_to(&mut self, draft: &mut Draft<'a>, node: u32, next: usize) -> Result<(), NoMemory> {
        if node as usize == next {
            return Ok(());
        }
        let leap = draft.leap(Opcode::Jump, 0, self.pos)?;
        self.leaps.push((leap, node))?;
        Ok(())
    }
}

fn type_of_kind(kind: u8) -> TypeCode {
    TypeCode::Plain(if kind == 0 {
        PlainType::Array
    } else {
        PlainType::Dict
    })
}

// A key that is a single Push.
fn single<'a>(key: &'a Expr) -> Option<Literal<'a>> {
    match &key.kind {
        ExprKind::Null => Some(Literal::Null),
        ExprKind::Bool(b) => Some(Literal::Bool(*b)),
        ExprKind::Int(n) => Some(Literal::Int(*n)),
        ExprKind::Str(text) => Some(Literal::Text(text)),
        _ => None,
    }
}

fn is_single(key: &Expr) -> bool {
    single(key).is_some()
}
