//! What a step answers.
ghost use Rattle.std.specs.Prelude.{◌≡◌, IfOk};

use gd_model::Outcome;
use gd_syntax::Text;
use no_memory::NoMemory;

/// What a step answers.
#[derive(Drop)]
pub enum Step {
    /// Nothing is to be seen of it.
    Quiet,
    /// A printed line.
    Line(Text),
    /// An object that was freed: its serial number and its class.
    Freed(u64, u32),
    /// An object that was still there at the end.
    Leaked(u64, u32),
    /// The run is over.
    Ended(Outcome),
    NoMemory,
}

/// The end of a run once more.
pub fn again(outcome: &Outcome) -> Result<Outcome, NoMemory>
    ensures { IfOk result (λ same. same ≡ outcome.now) }
{
    Ok(match outcome {
        Outcome::Done => Outcome::Done,
        Outcome::OutOfTurns => Outcome::OutOfTurns,
        Outcome::Fault(fault, pos, None) => Outcome::Fault(*fault, *pos, None),
        Outcome::Fault(fault, pos, Some(message)) => {
            Outcome::Fault(*fault, *pos, Some(message.share()?))
        }
    })
}
