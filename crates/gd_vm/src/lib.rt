//! The machine: a run of a verified program, step by step (docs/machine.md).
//!
//! All values that a run holds are one list, which counts what it holds by itself (rooted_heap): constants, static
//! variables, the main instance, and then what goes on, the innermost last. Code is decoded once, and a loop does
//! instruction after instruction as long as nothing else goes on between them: no thing is to be released, no result to
//! be given up, and neither a `new` nor an emission nor the run itself comes to its next step.
#![tactic(auto)]

mod answer;
mod arithmetic;
mod attributes;
mod beginning;
mod builtins;
mod calls;
mod code;
mod construction;
mod container_calls;
mod decoder;
mod ending;
mod entering;
mod fitting;
mod fused;
mod fusing;
mod giving;
mod instructions;
mod ints;
mod iteration;
mod layout;
mod literals;
mod locals;
mod machine;
mod marks;
mod methods;
mod names;
mod operators;
mod parents;
mod patterns;
mod plans;
mod running;
mod signals;
mod site;
mod stages;
mod starting;
mod stop;
mod subscripts;
mod tables;
mod vm;
mod went;

pub use answer::Step;
pub use layout::Layout;
pub use vm::Vm;
