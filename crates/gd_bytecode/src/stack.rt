//! The instructions of a function against its stack.
ghost use Rattle.std.specs.Prelude.{◌≡◌, None, IfOk, IfNone};
ghost use Rattle.gd_bytecode.specs.Verified.{alone_fault};
ghost use Rattle.gd_bytecode.specs.Receivers as spec;

use crate::jumps::may_go_on;
use crate::shapes::Shapes;
use crate::{Function, Instr, Opcode, Program};
use no_memory::NoMemory;
use std::alloc::Global;

/// The first instruction that does not fit the stack, goes on past the end of the code, or uses a receiver that a static
/// function does not have. The last two hold of instructions too that no way leads to.
pub fn stack_fault(
    alloc: Global,
    program: &Program,
    function: &Function,
) -> Result<Option<usize>, NoMemory>
    ensures { IfOk result (λ fault. IfNone fault (alone_fault program.now function.now ≡ None)) }
{
    let code = function.code.items();
    let shapes = Shapes::of(alloc, code)?;
    for (k, instr) in code.iter().enumerate() {
        if !is_right_alone(program, function, k, *instr) || !shapes.is_right(k, *instr) {
            return Ok(Some(k));
        }
    }
    Ok(None)
}

// Whether an instruction has the receiver that it uses, and one behind it where it goes on.
fn is_right_alone(program: &Program, function: &Function, k: usize, instr: Instr) -> bool
    ensures { result ≡ spec.is_right_alone program.now function.now k instr }
{
    let has_receiver = !function.is_static || !uses_receiver(program, instr);
    let is_last = k.saturating_add(1) >= function.code.items().len();
    has_receiver && !(is_last && may_go_on(instr.op))
}

// Whether the instruction uses the receiver.
fn uses_receiver(program: &Program, instr: Instr) -> bool
    ensures { result ≡ spec.uses_receiver program.now instr }
{
    match instr.op {
        Opcode::Me | Opcode::Own | Opcode::SetOwn => true,
        Opcode::Direct => match program.functions.items().get(instr.b as usize) {
            Some(function) => !function.is_static,
            None => false,
        },
        _ => false,
    }
}
