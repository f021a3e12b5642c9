//! How the stack stands at each instruction of a function.
ghost use Rattle.std.specs.Prelude.{◌≡◌, ◌<◌, ◌≤◌, length, OnOk, IfSome};
ghost use Rattle.gd_bytecode.specs.Marks.{left};

use crate::chains::{Chain, Chains, NO_ITERATION};
use crate::effect::{StackEffect, effect};
use crate::jumps::{may_go_on, may_jump};
use crate::{Instr, Opcode};
use no_memory::NoMemory;
use std::alloc::Global;

/// The most entries of a stack.
pub const MAX_STACK: usize = 1_048_576;

/// A stack of values and iterations: how many entries it has, and where iterations stand.
#[derive(Clone, Copy, PartialEq, Eq)]
pub struct Shape {
    pub depth: usize,
    pub chain: Chain,
}

const EMPTY: Shape = Shape {
    depth: 0,
    chain: NO_ITERATION,
};

/// The stacks with which an instruction is come to.
#[derive(Clone, Copy)]
enum Mark {
    /// No way leads to it.
    Unreached,
    /// Each way leads to it with this stack.
    At(Shape),
    /// Ways lead to it, or to an instruction before it, with stacks that differ.
    Differs,
}

/// The stacks behind an instruction, where it goes on at the next one and where it jumps.
#[derive(Clone, Copy)]
struct Behind {
    on: Shape,
    jumped: Shape,
}

/// How many iterations and values an instruction gives up together.
#[derive(Clone, Copy, Debug, PartialEq, Eq)]
pub struct GivenUp {
    pub iterations: usize,
    pub values: usize,
}

/// How the stack stands at each instruction of a function.
#[derive(Drop)]
pub struct Shapes {
    marks: Vec<Mark>,
    chains: Chains,
    // The instructions whose mark has changed since the ways from it were followed.
    work: Vec<usize>,
}

impl Shapes {
    ghost use Rattle.gd_bytecode.specs.Potential.{potential};

    /// The stacks at the instructions of this code. Each instruction is looked at twice at most.
    pub fn of(alloc: Global, code: &[Instr]) -> Result<Shapes, NoMemory> {
        let mut marks = Vec::new(alloc);
        for _ in code {
            marks.push(Mark::Unreached)?;
        }
        let mut shapes = Shapes {
            marks,
            chains: Chains::new(alloc),
            work: Vec::new(alloc),
        };
        shapes.raise(0, Mark::At(EMPTY))?;
        while let Some(k) = shapes.work.pop() {
            shapes.follow(code, k)?;
        }
        Ok(shapes)
    }

    /// Whether an instruction fits the stack with which it is come to, if it is come to, and all ways there agree.
    pub fn is_right(&self, k: usize, instr: Instr) -> bool {
        match self.mark(k) {
            Mark::Unreached => true,
            Mark::At(shape) => self.fits(effect(instr), shape),
            Mark::Differs => false,
        }
    }

    /// What a Drop gives up, or a Return below the value that it returns; nothing for every other instruction, and for one
    /// that is not come to.
    pub fn given_up(&self, k: usize, instr: Instr) -> GivenUp {
        match self.mark(k) {
            Mark::At(shape) => self.given_up_at(shape, instr),
            _ => GivenUp {
                iterations: 0,
                values: 0,
            },
        }
    }

    fn given_up_at(&self, shape: Shape, instr: Instr) -> GivenUp {
        match instr.op {
            Opcode::Drop => self.split(shape, shape.depth.min(instr.a as usize)),
            Opcode::Return => self.split(
                Shape {
                    depth: shape.depth.saturating_sub(1),
                    chain: shape.chain,
                },
                shape.depth.saturating_sub(1),
            ),
            _ => GivenUp {
                iterations: 0,
                values: 0,
            },
        }
    }

    // The iterations and the values among so many entries on the top.
    fn split(&self, shape: Shape, entries: usize) -> GivenUp
        requires { entries ≤ shape.depth }
    {
        let rest = self.chains.under(shape.chain, shape.depth - entries);
        let iterations = self
            .chains
            .count(shape.chain)
            .saturating_sub(self.chains.count(rest));
        GivenUp {
            iterations,
            values: entries.saturating_sub(iterations),
        }
    }

    fn mark(&self, k: usize) -> Mark {
        self.marks.get(k).copied().unwrap_or(Mark::Unreached)
    }

    // Goes along the ways from an instruction.
    fn follow(&mut self, code: &[Instr], k: usize) -> Result<(), NoMemory>
        ensures { OnOk result (potential self.new ≤ potential self.old) }
    {
        let Some(instr) = code.get(k) else {
            return Ok(());
        };
        match self.mark(k) {
            Mark::Unreached => Ok(()),
            Mark::At(shape) if self.fits(effect(*instr), shape) => {
                let after = after(&mut self.chains, effect(*instr), shape)?;
                self.lead(*instr, k, Mark::At(after.on), Mark::At(after.jumped))
            }
            Mark::At(_) => Ok(()),
            Mark::Differs => self.lead(*instr, k, Mark::Differs, Mark::Differs),
        }
    }

    // Comes to the instructions behind an instruction.
    fn lead(&mut self, instr: Instr, k: usize, on: Mark, jumped: Mark) -> Result<(), NoMemory>
        ensures { OnOk result (potential self.new ≤ potential self.old) }
    {
        if may_go_on(instr.op) {
            self.raise(k.saturating_add(1), on)?;
        }
        if may_jump(instr.op) {
            self.raise(instr.b as usize, jumped)?;
        }
        Ok(())
    }

    // Comes to an instruction. Nothing stands behind the end of the code.
    #[tactic(auto, using(crate::proofs::Potentials::raised_lowers))]
    fn raise(&mut self, k: usize, mark: Mark) -> Result<(), NoMemory>
        ensures { OnOk result (potential self.new ≤ potential self.old) }
    {
        if k >= self.marks.len() {
            return Ok(());
        }
        if let Some(raised) = raised(self.marks[k], mark) {
            self.work.push(k)?;
            self.marks[k] = raised;
        }
        Ok(())
    }

    // Whether an instruction with this effect fits a stack.
    fn fits(&self, effect: StackEffect, shape: Shape) -> bool {
        match effect {
            StackEffect::Values(taken, left) => {
                self.are_values(shape, taken) && is_room(shape.depth.saturating_sub(taken), left)
            }
            StackEffect::Iterate(taken) => {
                self.are_values(shape, taken) && is_room(shape.depth.saturating_sub(taken), 1)
            }
            StackEffect::Next => self.is_iteration(shape, 0) && is_room(shape.depth, 1),
            StackEffect::Copy(below) => {
                below < shape.depth && !self.is_iteration(shape, below) && is_room(shape.depth, 1)
            }
            StackEffect::Drop(count) => count <= shape.depth,
        }
    }

    // Whether there are so many entries, and the topmost of them are all values.
    fn are_values(&self, shape: Shape, count: usize) -> bool {
        count <= shape.depth
            && match self.chains.height(shape.chain) {
                Some(height) => height < shape.depth - count,
                None => true,
            }
    }

    // Whether the entry so far below the top is an iteration.
    fn is_iteration(&self, shape: Shape, below: usize) -> bool {
        if below >= shape.depth {
            return false;
        }
        let chain = self.chains.under(shape.chain, shape.depth - below);
        self.chains.height(chain) == Some(shape.depth - below - 1)
    }
}

// The stacks behind an instruction with this effect, which fits.
fn after(chains: &mut Chains, effect: StackEffect, shape: Shape) -> Result<Behind, NoMemory> {
    let chain = shape.chain;
    Ok(match effect {
        StackEffect::Values(taken, left) => {
            alike(
                shape.depth.saturating_sub(taken).saturating_add(left),
                chain,
            )
        }
        StackEffect::Iterate(taken) => {
            let height = shape.depth.saturating_sub(taken);
            alike(height.saturating_add(1), chains.push(height, chain)?)
        }
        StackEffect::Next => Behind {
            on: Shape {
                depth: shape.depth.saturating_add(1),
                chain,
            },
            jumped: Shape {
                depth: shape.depth.saturating_sub(1),
                chain: chains.below(chain),
            },
        },
        StackEffect::Copy(_) => alike(shape.depth.saturating_add(1), chain),
        StackEffect::Drop(count) => {
            let depth = shape.depth.saturating_sub(count);
            alike(depth, chains.under(chain, depth))
        }
    })
}

// The same stack wherever the instruction goes on.
fn alike(depth: usize, chain: Chain) -> Behind {
    let shape = Shape { depth, chain };
    Behind {
        on: shape,
        jumped: shape,
    }
}

// Whether so many further entries keep the limit.
fn is_room(depth: usize, more: usize) -> bool {
    depth <= MAX_STACK && more <= MAX_STACK - depth
}

// What is newly known of an instruction once a further way has come to it.
fn raised(was: Mark, mark: Mark) -> Option<Mark>
    ensures { IfSome result (λ m. left m < left was) }
{
    match (was, mark) {
        (_, Mark::Unreached) => None,
        (Mark::Unreached, _) => Some(mark),
        (Mark::At(one), Mark::At(other)) if one == other => None,
        (Mark::At(_), _) => Some(Mark::Differs),
        (Mark::Differs, _) => None,
    }
}
