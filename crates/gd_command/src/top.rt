//! The call that does all that the program does.
ghost use Rattle.std.specs.Prelude.{◌≡◌, IfSome, IfOk, IsSome, ◌≤◌};
ghost use Rattle.gd_outside.specs.Cause.{Rose};
ghost use Rattle.gd_command.specs.Words.{words_of};
ghost use Rattle.gd_command.specs.Output.{Output, NoCommand};
ghost use Rattle.gd_command.specs.Answer.{IsAnswer, IsFaultOf};
ghost use Rattle.gd_command.specs.Ends.{IsRunEnd};
ghost use Rattle.gd_command.specs.Call.{Answers, IsUsageAnswer, WordsRead};
ghost use Rattle.gd_command.specs.declared.answer.Answer.{Answer};
ghost use Rattle.gd_command.specs.declared.answer.Answer.TheVariants.{Usage as UsageAnswer};

use crate::answer::Answer;
use crate::check::check;
use crate::print::perform;
use crate::run::run;
use crate::sample::make_sample;
use crate::status::Status;
use crate::words::{Command, WordsFault, read_words};
use gd_outside::{Shelf, Sink, SinkFault};
use gd_vm::Vm;
use no_memory::NoMemory;
use std::alloc::Global;

/// Does what the words ask for: reads files from the shelf and writes text to the sink.
///
/// `words` are those after the program's name. `Usage` where they are no command; `ReadFault` where the
/// shelf failed, and `WriteFault` where the sink did; `NoMemory` where no memory was left (docs/command-line.md has the
/// rest). Where a run ended, `last` is its machine at the end; with every other answer it is `None`.
pub fn gd<H: Shelf, K: Sink>(
    alloc: Global,
    words: &[String],
    shelf: &mut H,
    out: &mut K,
    last: &mut Option<Vm>,
) -> Status
    // Over a shelf that tells its files, the status and the text are those that the words mean, and the text is
    // appended where the sink tells its bytes.
    ensures output { IfSome (H.files shelf.old) (λ files. Answers (words_of words.now) files (H.failed shelf.new) (Rose (H.faults shelf.old) (H.faults shelf.new)) result
        (K.contents out.old) (K.contents out.new)) }

    // Usage is the answer exactly to words that are no form, whatever the shelf does.
    ensures no_form { NoCommand (words_of words.now) → IsUsageAnswer result }
    ensures usage { result ≡ Status.Usage → NoCommand (words_of words.now) }

    // A machine is left only of a run that has ended, and of each that ended early.
    ensures left { IsSome last.new → IsRunEnd result }
    ensures fault { result ≡ Status.RunError → IsSome last.new }
    ensures out_of_turns { result ≡ Status.OutOfTurns → IsSome last.new }

    // Faults come from the outside alone.
    ensures read_fault { result ≡ Status.ReadFault → Rose (H.faults shelf.old) (H.faults shelf.new) }
    ensures write_fault { result ≡ Status.WriteFault → Rose (K.faults out.old) (K.faults out.new) }
{
    *last = None;
    let Ok(answer) = decide(alloc, words, shelf) else {
        return Status::NoMemory;
    };
    match perform(alloc, answer, out, last) {
        Ok(status) => status,
        Err(SinkFault::Failed) => Status::WriteFault,
        Err(SinkFault::NoMemory) => Status::NoMemory,
    }
}

/// What the words are answered, before anything is written.
fn decide<H: Shelf>(alloc: Global, words: &[String], shelf: &mut H) -> Result<Answer, NoMemory>
    ensures told { IfSome (H.files shelf.old) (λ files. IfOk result (IsAnswer (Output (words_of words.now) files) (WordsRead (words_of words.now) files) files (H.failed shelf.new))) }
    ensures no_form { NoCommand (words_of words.now) → IfOk result (λ answer. answer ≡ UsageAnswer) }
    ensures usage { IfOk result (λ answer. answer ≡ UsageAnswer → NoCommand (words_of words.now)) }
    ensures faults { H.faults shelf.old ≤ H.faults shelf.new }
    ensures cause { IfOk result (λ answer. IsFaultOf answer → Rose (H.faults shelf.old) (H.faults shelf.new)) }
{
    let command = match read_words(alloc, words) {
        Ok(command) => command,
        Err(WordsFault::NoForm) => return Ok(Answer::Usage),
        Err(WordsFault::NoMemory) => return Err(NoMemory),
    };
    match command {
        Command::Check(options) => check(alloc, options, shelf),
        Command::Run(main, options) => run(alloc, main, options, shelf),
        Command::Sample(count) => Ok(Answer::Samples(make_sample(alloc, count)?)),
    }
}
