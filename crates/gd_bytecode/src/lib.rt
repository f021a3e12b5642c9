//! Compiled programs as plain data, which of them are verified, and what the machine does with them (docs/machine.md).
#![tactic(auto)]

ghost use Rattle.std.specs.Prelude.{◌≡◌};
ghost use Rattle.gd_bytecode.specs.Trials.{PrintsText, FreesLocal, NeedsTurns, Fails};

mod chains;
mod classes;
mod constants;
mod effect;
mod field;
mod first;
mod functions;
mod jumps;
mod limits;
mod main_class;
mod named;
mod numbers;
mod opcode;
mod program;
mod shapes;
mod stack;
mod types;
mod unverified;
mod verifier;

pub use field::{ClassField, ConstField, Field, FunctionField, TypeField};
pub use opcode::Opcode;
pub use program::{
    ClassCode, ConstKind, ConstThing, Function, Instr, Method, Operand, Program, Tag, VarCode,
};
pub use shapes::{GivenUp, MAX_STACK, Shapes};
pub use unverified::{Limit, Spot, Unverified};
pub use verifier::verify;

/// The machine's definition tried on small programs.
pub fn trials()
    ensures prints { PrintsText }
    ensures frees { FreesLocal }
    ensures turns { NeedsTurns }
    ensures fails { Fails }
{}
