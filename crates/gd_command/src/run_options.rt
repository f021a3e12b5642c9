//! The options of a run, read by hand (docs/command-line.md).
ghost use Rattle.std.specs.Prelude.{◌≡◌, ◌∷◌, []};
ghost use Rattle.std.specs.String.{string_bytes};
ghost use Rattle.gd_command.specs.RunWords as spec;
ghost use Rattle.gd_command.specs.RunWords.{ReadsOptions, ReadsTurns};
ghost use Rattle.gd_command.specs.Words.{words_of};

use crate::decimal::read_decimal;
use crate::words::is_word;

/// The most turns that a run may be given.
const MOST_TURNS: u32 = 1_000_000_000;

/// The turns of a run whose words name none.
const USUAL_TURNS: u32 = 10_000_000;

/// How a script is to be run.
#[derive(Clone, Copy, Debug, PartialEq, Eq)]
pub struct RunOptions {
    /// `--turns N`: the most turns that the run takes.
    pub turns: u32,
    /// `--frees`: the objects that are freed, and those that leak, are told.
    pub frees: bool,
}

impl RunOptions {
    /// How a script is run where no option says otherwise.
    pub const fn usual() -> RunOptions
        ensures { result ≡ spec.usual }
    {
        RunOptions {
            turns: USUAL_TURNS,
            frees: false,
        }
    }
}

/// The options that these words are: each at most once, in any order.
pub fn read_run_options(words: &[String]) -> Option<RunOptions>
    ensures { ReadsOptions (words_of words.now) result }
{
    match words {
        [] => Some(RunOptions::usual()),
        [word] => only_frees(word),
        [name, number] => only_turns(name, number),
        [first, second, third] => both_options(first, second, third),
        _ => None,
    }
}

/// `--frees` alone.
fn only_frees(word: &String) -> Option<RunOptions>
    ensures { ReadsOptions (string_bytes word.now ∷ []) result }
{
    if !is_word(word, "--frees") {
        return None;
    }
    Some(RunOptions {
        turns: USUAL_TURNS,
        frees: true,
    })
}

/// `--turns N` alone.
fn only_turns(name: &String, number: &String) -> Option<RunOptions>
    ensures { ReadsOptions (string_bytes name.now ∷ string_bytes number.now ∷ []) result }
{
    let turns = read_turns(name, number)?;
    Some(RunOptions {
        turns,
        frees: false,
    })
}

/// Both options, in either order.
fn both_options(first: &String, second: &String, third: &String) -> Option<RunOptions>
    ensures { ReadsOptions (string_bytes first.now ∷ string_bytes second.now ∷ string_bytes third.now ∷ []) result }
{
    let turns = if is_word(first, "--frees") {
        read_turns(second, third)?
    } else if is_word(third, "--frees") {
        read_turns(first, second)?
    } else {
        return None;
    };
    Some(RunOptions { turns, frees: true })
}

/// The turns that `--turns N` gives.
fn read_turns(name: &String, number: &String) -> Option<u32>
    ensures { ReadsTurns (string_bytes name.now) (string_bytes number.now) result }
{
    if !is_word(name, "--turns") {
        return None;
    }
    read_decimal(number.as_str(), MOST_TURNS)
}
