//! A run of a program, step by step.
ghost use Rattle.std.specs.Prelude.{◌≡◌};
ghost use Rattle.gd_vm.specs.Ends.{end_told, StaysEnded};

use crate::answer::{Step, again};
use crate::beginning::{class_names, push_constants, push_statics};
use crate::construction::go_on_making;
use crate::decoder::decode;
use crate::ending::End;
use crate::machine::{Activity, Emitting, Frame, Held, Machine, Making, NOWHERE};
use crate::plans::Plans;
use crate::running::{Ran, Sides, run};
use crate::signals::{Signals, go_on_emitting};
use crate::stages::{Seen, Stage, Stages, next_stage};
use crate::stop::{Done, Stop, broken};
use crate::tables::{Tables, View};
use gd_bytecode::Program;
use gd_model::{Outcome, RunFault};
use gd_signals::Connections;
use gd_syntax::Pos;
use no_memory::NoMemory;
use std::alloc::Global;

/// A run of a program.
#[derive(Drop)]
pub struct Vm {
    alloc: Global,
    program: Program,
    tables: Tables,
    machine: Machine,
    sides: Sides,
    stages: Stages,
    end: End,
}

impl Vm {
    /// A run of a verified program with so many turns, at its beginning.
    pub fn start(alloc: Global, program: Program, turns: u32) -> Result<Vm, NoMemory> {
        let decoded = decode(alloc, &program)?;
        let view = View {
            program: &program,
            tables: &decoded.tables,
        };
        let machine = begun(alloc, view, turns)?;
        let plans = Plans::new(alloc, decoded.tables.layout.classes())?;
        Ok(Vm {
            alloc,
            program,
            tables: decoded.tables,
            machine,
            sides: Sides {
                sites: decoded.sites,
                plans,
                signals: Signals {
                    connections: Connections::new(alloc),
                    emissions: Vec::new(alloc),
                },
            },
            stages: Stages {
                stage: Stage::StaticValues(0),
                leaks: Vec::new(alloc),
            },
            end: End::None,
        })
    }

    /// The program.
    pub fn program(&self) -> &Program {
        &self.program
    }

    /// One step: an instruction, one thing of a round of releases, or what else goes on. After `NoMemory` each step
    /// answers that, and after `Ended` the same end, or `NoMemory`.
    pub fn step(&mut self) -> Step
        ensures told { self.new.end ≡ end_told result }
        ensures stays { StaysEnded self.old.end result }
    {
        self.advance(1)
    }

    /// At most so many steps, and at least one where `most` is not 0: all of them quiet, but perhaps for the last.
    pub fn advance(&mut self, most: u32) -> Step
        ensures told { self.new.end ≡ end_told result }
        ensures stays { StaysEnded self.old.end result }
    {
        let said = match &self.end {
            End::None => return self.go_on(most),
            End::With(outcome) => again(outcome),
            End::NoMemory => return Step::NoMemory,
        };
        match said {
            Ok(outcome) => Step::Ended(outcome),
            Err(NoMemory) => self.without_memory(),
        }
    }

    // Memory lacks: each further answer is that.
    fn without_memory(&mut self) -> Step
        ensures said { result ≡ Step.NoMemory }
        ensures told { self.new.end ≡ End.NoMemory }
    {
        self.end = End::NoMemory;
        Step::NoMemory
    }

    // At most so many steps of a run that goes on.
    fn go_on(&mut self, most: u32) -> Step
        requires { self.old.end ≡ End.None }
        ensures { self.new.end ≡ end_told result }
    {
        let mut left = most;
        for _ in 0..most {
            if left == 0 {
                break;
            }
            let (rest, seen) = self.some_steps(left);
            match seen {
                Step::Quiet => left = rest,
                seen => return seen,
            }
        }
        Step::Quiet
    }

    // Instructions, at most so many, or one step between them; gives how many are left.
    fn some_steps(&mut self, most: u32) -> (u32, Step)
        requires { self.old.end ≡ End.None }
        ensures { self.new.end ≡ end_told result.1 }
    {
        if !self.machine.is_calm() {
            let seen = self.between();
            return (most.wrapping_sub(1), seen);
        }
        match self.instructions(most) {
            Ran::Quiet(rest) => (rest, Step::Quiet),
            Ran::Line(line) => (0, Step::Line(line)),
            Ran::Stopped(stop) => {
                let seen = self.stopped_here(stop);
                (0, seen)
            }
        }
    }

    // Instructions, at most so many.
    fn instructions(&mut self, most: u32) -> Ran
        ensures { self.new.end ≡ self.old.end }
    {
        let view = View {
            program: &self.program,
            tables: &self.tables,
        };
        run(self.alloc, view, &mut self.machine, &mut self.sides, most)
    }

    // The instruction before the next one has stopped.
    fn stopped_here(&mut self, stop: Stop) -> Step
        ensures { self.new.end ≡ end_told result }
    {
        let view = View {
            program: &self.program,
            tables: &self.tables,
        };
        let frame = self.machine.frame;
        let pos = view.pos(frame.function, frame.pc.wrapping_sub(1));
        self.stopped(stop, pos)
    }

    // A step between instructions: one thing of a round of releases goes; a result that nobody takes is given up; or
    // what goes on goes on.
    fn between(&mut self) -> Step
        requires { self.old.end ≡ End.None }
        ensures { self.new.end ≡ end_told result }
    {
        if let Some((serial, class)) = self.machine.heap.settle_one() {
            return self.released(serial, class);
        }
        if self.machine.is_owed {
            return self.give_up_owed();
        }
        match self.machine.around.last().copied() {
            Some(Activity::Making(making)) => self.make_more(making),
            Some(Activity::Emitting(emitting)) => self.emit_more(emitting),
            Some(Activity::Running(_)) => self.stopped_at_beginning(broken()),
            None => self.stage(),
        }
    }

    // A thing has gone.
    fn released(&mut self, serial: u64, class: Option<u32>) -> Step
        requires { self.old.end ≡ End.None }
        ensures { self.new.end ≡ end_told result }
    {
        match class {
            Some(class) => {
                self.sides.signals.connections.forget(serial);
                Step::Freed(serial, class)
            }
            None => Step::Quiet,
        }
    }

    // A result that nobody takes is given up.
    fn give_up_owed(&mut self) -> Step
        requires { self.old.end ≡ End.None }
        ensures { self.new.end ≡ end_told result }
    {
        self.machine.is_owed = false;
        match self.machine.drop_values(1) {
            Ok(()) => Step::Quiet,
            Err(stop) => self.stopped_at_beginning(stop),
        }
    }

    // A `new` goes on.
    fn make_more(&mut self, making: Making) -> Step
        requires { self.old.end ≡ End.None }
        ensures { self.new.end ≡ end_told result }
    {
        let view = View {
            program: &self.program,
            tables: &self.tables,
        };
        let done = go_on_making(view, &mut self.machine, &self.sides.plans, making);
        self.done(done, making.pos)
    }

    // An emission goes on.
    fn emit_more(&mut self, emitting: Emitting) -> Step
        requires { self.old.end ≡ End.None }
        ensures { self.new.end ≡ end_told result }
    {
        let view = View {
            program: &self.program,
            tables: &self.tables,
        };
        let signals = &mut self.sides.signals;
        let done = go_on_emitting(view, &mut self.machine, signals, emitting);
        self.done(done, emitting.pos)
    }

    // The run comes to its next stage.
    fn stage(&mut self) -> Step
        requires { self.old.end ≡ End.None }
        ensures { self.new.end ≡ end_told result }
    {
        match self.next_stage() {
            Ok(Seen::Nothing) => Step::Quiet,
            Ok(Seen::Leaked(serial, class)) => Step::Leaked(serial, class),
            Ok(Seen::Done) => self.ended(Outcome::Done),
            Err(stop) => self.stopped_at_beginning(stop),
        }
    }

    fn next_stage(&mut self) -> Result<Seen, Stop>
        ensures { self.new.end ≡ self.old.end }
    {
        let view = View {
            program: &self.program,
            tables: &self.tables,
        };
        let plans = &mut self.sides.plans;
        next_stage(self.alloc, view, &mut self.machine, plans, &mut self.stages)
    }

    // A step that is quiet unless it stopped.
    fn done(&mut self, done: Done, pos: Pos) -> Step
        requires { self.old.end ≡ End.None }
        ensures { self.new.end ≡ end_told result }
    {
        match done {
            Ok(()) => Step::Quiet,
            Err(stop) => self.stopped(stop, pos),
        }
    }

    // What the run asks for by itself has stopped.
    fn stopped_at_beginning(&mut self, stop: Stop) -> Step
        ensures { self.new.end ≡ end_told result }
    {
        let view = View {
            program: &self.program,
            tables: &self.tables,
        };
        let pos = view.beginning();
        self.stopped(stop, pos)
    }

    // The run has stopped at this place.
    fn stopped(&mut self, stop: Stop, pos: Pos) -> Step
        ensures { self.new.end ≡ end_told result }
    {
        match stop {
            Stop::Run(fault) => self.ended(Outcome::Fault(fault, pos, None)),
            Stop::Said(message) => {
                self.ended(Outcome::Fault(RunFault::AssertionFailed, pos, Some(message)))
            }
            Stop::OutOfTurns => self.ended(Outcome::OutOfTurns),
            Stop::NoMemory => self.without_memory(),
        }
    }

    // The run is over.
    fn ended(&mut self, outcome: Outcome) -> Step
        ensures { self.new.end ≡ end_told result }
    {
        match again(&outcome) {
            Ok(first) => {
                self.end = End::With(outcome);
                Step::Ended(first)
            }
            Err(NoMemory) => self.without_memory(),
        }
    }
}

// The machine at the beginning of a run: it holds the constants and the static variables.
fn begun(alloc: Global, view: View<'_>, turns: u32) -> Result<Machine, NoMemory> {
    let names = class_names(alloc, view)?;
    let mut machine = Machine {
        heap: Held::new(alloc, names),
        frame: NO_FRAME,
        is_running: false,
        around: Vec::new(alloc),
        iterations: Vec::new(alloc),
        turns,
        calls: 0,
        is_owed: false,
    };
    match push_constants(alloc, view, &mut machine) {
        Ok(()) => {}
        // A verified program has so few that only memory can lack.
        Err(_) => return Err(NoMemory),
    }
    match push_statics(alloc, view, &mut machine) {
        Ok(()) => Ok(machine),
        Err(_) => Err(NoMemory),
    }
}

/// The frame where no function runs.
const NO_FRAME: Frame = Frame {
    function: 0,
    pc: 0,
    floor: 0,
    base: 0,
    me: NOWHERE,
    iterations: 0,
    is_taken: false,
    is_call: false,
};
