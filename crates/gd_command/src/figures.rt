//! Runs a program, and counts what is to be seen of it.
use crate::stream::STEPS;
use gd_model::{Outcome, impossible};
use gd_syntax::Text;
use gd_vm::{Step, Vm};
use no_memory::NoMemory;

/// What was to be seen of a run.
#[derive(Drop)]
pub struct Figures {
    /// How many lines it printed.
    pub lines: u64,
    /// How many objects were freed.
    pub freed: u64,
    /// The last line that it printed, if it printed one.
    pub last: Option<Text>,
}

impl Figures {
    fn new() -> Figures {
        Figures {
            lines: 0,
            freed: 0,
            last: None,
        }
    }

    /// Counts what is to be seen of a step.
    fn see(&mut self, step: Step) {
        match step {
            Step::Line(text) => {
                self.lines = self.lines.saturating_add(1);
                self.last = Some(text);
            }
            Step::Freed(_, _) => self.freed = self.freed.saturating_add(1),
            _ => {}
        }
    }
}

/// Runs a machine to the end of its run, which ends well, and counts. That it ends so, and before the loop does, is for
/// a later proof to show.
pub fn figures_of(vm: &mut Vm) -> Result<Figures, NoMemory> {
    let mut figures = Figures::new();
    for _ in 0..u64::MAX {
        match vm.advance(STEPS) {
            Step::Ended(Outcome::Done) => return Ok(figures),
            Step::Ended(_) => break,
            Step::NoMemory => return Err(NoMemory),
            step => figures.see(step),
        }
    }
    Err(NoMemory::from(impossible()))
}
