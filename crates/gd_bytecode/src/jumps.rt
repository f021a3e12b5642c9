//! Where jumps lead.
ghost use Rattle.std.specs.Prelude.{◌≡◌};
ghost use Rattle.gd_bytecode.specs.Jumps as spec;

use crate::{Instr, Opcode};

/// The first instruction whose jump leads outside the code, or not forward and to no Turn.
pub fn jump_fault(code: &[Instr]) -> Option<usize>
    ensures { result ≡ spec.jump_fault code.now }
{
    for (k, instr) in code.iter().enumerate() {
        if is_wrong_jump(code, k, *instr) {
            return Some(k);
        }
    }
    None
}

fn is_wrong_jump(code: &[Instr], k: usize, instr: Instr) -> bool
    ensures { result ≡ spec.is_wrong_jump code.now k instr }
{
    if !may_jump(instr.op) {
        return false;
    }
    let target = instr.b as usize;
    match code.get(target) {
        Some(there) => target <= k && !is_turn(there.op),
        None => true,
    }
}

fn is_turn(op: Opcode) -> bool
    ensures { result ≡ spec.is_turn op }
{
    matches!(op, Opcode::Turn)
}

/// Whether the operation may go on at `b`.
pub fn may_jump(op: Opcode) -> bool
    ensures { result ≡ spec.may_jump op }
{
    matches!(
        op,
        Opcode::Jump | Opcode::JumpIf | Opcode::JumpIfNot | Opcode::Next | Opcode::Default
    )
}

/// Whether the operation may go on at the next instruction.
pub fn may_go_on(op: Opcode) -> bool
    ensures { result ≡ spec.may_go_on op }
{
    !matches!(op, Opcode::Jump | Opcode::Return | Opcode::Fail)
}
