//! The words of the command line, read by hand (docs/command-line.md).
ghost use Rattle.std.specs.Prelude.{◌≡◌, ℕ, List, IfOk, MatchOption, bytes_eq};
ghost use Rattle.std.specs.String.{string_bytes};
ghost use Rattle.gd_command.specs.Words as spec;
ghost use Rattle.gd_command.specs.Words.{IsRunOf, IsSampleOf, Means, check_options, options_behind, words_of};
ghost use Rattle.gd_command.specs.declared.run_options.RunOptions.{RunOptions};
ghost use Rattle.gd_command.specs.declared.words.Command.{Command};
ghost use Rattle.gd_command.specs.declared.words.WordsFault.TheVariants.{NoForm};

use crate::decimal::read_decimal;
use crate::run_options::{RunOptions, read_run_options};
use gd_outside::{Path, PathFault};
use std::alloc::Global;

/// The most classes of a sample.
const MOST_SAMPLES: u32 = 1000;

/// What a check is to print beside the errors.
#[derive(Clone, Copy, Debug, PartialEq, Eq)]
pub struct CheckOptions {
    /// `--warn`: the warnings.
    pub warn: bool,
    /// `--marks`: where no error holds, the places at which a value may be of another type than the code expects.
    pub marks: bool,
}

/// What the words ask for.
#[derive(Drop)]
pub enum Command {
    /// `check [--warn] [--marks]`: checks the scripts of the project.
    Check(CheckOptions),
    /// `run MAIN [--turns N] [--frees]`: runs the script with this path.
    Run(Path, RunOptions),
    /// `sample N`: checks and runs a project of so many classes, which is made up.
    Sample(u32),
}

/// Why words gave no command.
#[derive(Clone, Copy, Debug, PartialEq, Eq)]
pub enum WordsFault {
    /// They are no form.
    NoForm,
    NoMemory,
}

/// The command that these words mean. `NoForm` where they mean none.
pub fn read_words(alloc: Global, words: &[String]) -> Result<Command, WordsFault>
    ensures means { IfOk result (λ command. Means (words_of words.now) command) }
    ensures no_form { result ≡ Err NoForm → (command : Command) → Means (words_of words.now) command → ⊥ }
{
    if let Some(options) = read_check(words) {
        return Ok(Command::Check(options));
    }
    if let Some(count) = read_sample(words) {
        return Ok(Command::Sample(count));
    }
    read_run(alloc, words)
}

/// The run that these words ask for. `NoForm` where they ask for none.
fn read_run(alloc: Global, words: &[String]) -> Result<Command, WordsFault>
    ensures means { IfOk result (λ command. Means (words_of words.now) command) }
    ensures no_form { result ≡ Err NoForm → (main : List ℕ) (options : RunOptions) → IsRunOf (words_of words.now) main options → ⊥ }
{
    let [run, main, options @ ..] = words else {
        return Err(WordsFault::NoForm);
    };
    if !is_word(run, "run") {
        return Err(WordsFault::NoForm);
    }
    let Some(options) = read_run_options(options) else {
        return Err(WordsFault::NoForm);
    };
    match Path::new(alloc, main.as_str()) {
        Ok(path) => Ok(Command::Run(path, options)),
        Err(PathFault::Bad) => Err(WordsFault::NoForm),
        Err(PathFault::NoMemory) => Err(WordsFault::NoMemory),
    }
}

/// The size of the sample, where these words ask for one.
fn read_sample(words: &[String]) -> Option<u32>
    ensures { MatchOption result ((count : ℕ) → IsSampleOf (words_of words.now) count → ⊥) (IsSampleOf (words_of words.now)) }
{
    let [sample, number] = words else {
        return None;
    };
    if !is_word(sample, "sample") {
        return None;
    }
    match read_decimal(number.as_str(), MOST_SAMPLES) {
        Some(0) => None,
        found => found,
    }
}

/// The options of `check`, where these words ask for one: each at most once, in any order.
fn read_check(words: &[String]) -> Option<CheckOptions>
    ensures { result ≡ check_options (words_of words.now) }
{
    let Some((check, options)) = words.split_first() else {
        return None;
    };
    if !is_word(check, "check") {
        return None;
    }
    read_options(options)
}

/// The options that stand behind the word `check`.
fn read_options(options: &[String]) -> Option<CheckOptions>
    ensures { result ≡ options_behind (words_of options.now) }
{
    match options {
        [] => Some(options_of(false, false)),
        [option] => one_option(option),
        [first, second] => two_options(first, second),
        _ => None,
    }
}

/// The options of a check with this one alone.
fn one_option(option: &String) -> Option<CheckOptions>
    ensures { result ≡ spec.one_option (string_bytes option.now) }
{
    if is_word(option, "--warn") {
        return Some(options_of(true, false));
    }
    if is_word(option, "--marks") {
        return Some(options_of(false, true));
    }
    None
}

/// The options of a check with these two.
fn two_options(first: &String, second: &String) -> Option<CheckOptions>
    ensures { result ≡ spec.two_options (string_bytes first.now) (string_bytes second.now) }
{
    if is_word(first, "--warn") && is_word(second, "--marks") {
        return Some(options_of(true, true));
    }
    if is_word(first, "--marks") && is_word(second, "--warn") {
        return Some(options_of(true, true));
    }
    None
}

fn options_of(warn: bool, marks: bool) -> CheckOptions
    ensures { result ≡ spec.options_of warn marks }
{
    CheckOptions { warn, marks }
}

/// Whether a word is this text.
pub fn is_word(word: &String, text: &str) -> bool
    ensures { result ≡ bytes_eq (string_bytes word.now) text.now }
{
    word.as_str() == text
}
