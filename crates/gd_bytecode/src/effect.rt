//! What an instruction takes from the stack and leaves on it.
ghost use Rattle.std.specs.Prelude.{◌≡◌};
ghost use Rattle.gd_bytecode.specs.Effects as spec;

use crate::{Instr, Opcode};

/// What an instruction does to the stack.
#[derive(Clone, Copy)]
pub enum StackEffect {
    /// Takes so many values, and leaves so many.
    Values(usize, usize),
    /// Takes so many values, and leaves an iteration.
    Iterate(usize),
    /// Leaves a value above the iteration on the top, or takes that iteration and jumps.
    Next,
    /// Leaves a copy of the entry so far below the top, which has to be a value.
    Copy(usize),
    /// Takes so many entries of either kind.
    Drop(usize),
}

/// What an instruction does to the stack.
pub fn effect(instr: Instr) -> StackEffect
    ensures { result ≡ spec.effect instr }
{
    match instr.op {
        Opcode::Dup => StackEffect::Copy(instr.a as usize),
        Opcode::Drop => StackEffect::Drop(instr.a as usize),
        Opcode::Iter => StackEffect::Iterate(1),
        Opcode::Range => StackEffect::Iterate(instr.a as usize),
        Opcode::Next => StackEffect::Next,
        op => StackEffect::Values(taken(op, instr.a), left(op)),
    }
}

// The number of values that an operation takes, also those that it leaves where they are.
fn taken(op: Opcode, a: u32) -> usize
    ensures { result ≡ spec.taken op a }
{
    match op {
        Opcode::Array | Opcode::Direct | Opcode::New | Opcode::Builtin | Opcode::Fail => a as usize,
        Opcode::Call => a as usize + 1,
        Opcode::Dict | Opcode::DictOf => 2 * a as usize,
        Opcode::Op => operands(a),
        Opcode::SetIndex => 3,
        op => fixed_taken(op),
    }
}

fn fixed_taken(op: Opcode) -> usize
    ensures { result ≡ spec.fixed_taken op }
{
    match op {
        Opcode::SetAttr | Opcode::Index | Opcode::KeyOf | Opcode::Same => 2,
        Opcode::Set
        | Opcode::SetOwn
        | Opcode::SetStatic
        | Opcode::JumpIf
        | Opcode::JumpIfNot
        | Opcode::Truth
        | Opcode::Attr
        | Opcode::Is
        | Opcode::As
        | Opcode::Return
        | Opcode::SizeArr
        | Opcode::SizeDict
        | Opcode::Elem
        | Opcode::Test => 1,
        _ => 0,
    }
}

// The operators before one operand come last.
fn operands(operator: u32) -> usize
    ensures { result ≡ spec.operands operator }
{
    if operator < 19 { 2 } else { 1 }
}

// The number of values that an operation leaves.
fn left(op: Opcode) -> usize
    ensures { result ≡ spec.left op }
{
    match op {
        Opcode::KeyOf => 3,
        Opcode::SizeArr | Opcode::SizeDict | Opcode::Elem => 2,
        Opcode::Set
        | Opcode::Clear
        | Opcode::Jump
        | Opcode::JumpIf
        | Opcode::JumpIfNot
        | Opcode::Turn
        | Opcode::SetAttr
        | Opcode::SetIndex
        | Opcode::SetOwn
        | Opcode::SetStatic
        | Opcode::Default
        | Opcode::Return
        | Opcode::Fail => 0,
        _ => 1,
    }
}
