//! A pattern with the arguments that the right operand of `%` gives (docs/runtime.md, "Formatting").
ghost use Rattle.std.specs.Prelude.{◌≡◌, Option, List, ℕ, [], ◌∷◌, ◌++◌, Some, IfOk, OnOk, IfErr, map};
ghost use Rattle.gd_text.specs.declared.formatting.Arg.{Arg};
ghost use Rattle.gd_text.specs.declared.formatting.Arg.TheVariants as arg;
ghost use Rattle.gd_model.specs.Meant.{datum};
ghost use Rattle.gd_model.specs.Whole.{Whole, AllWhole};
ghost use Rattle.gd_answers.specs.Answers.{Answers, Gives};
ghost use Rattle.value_semantics.specs.Formatting as spec;
ghost use Rattle.value_semantics.specs.Made.{limited};
ghost use Rattle.gd_printing.specs.Arguments.{IsArgument, AllStand, unless_over};

use crate::print::text_of;
use gd_answers::{Fresh, refused};
use gd_containers::{Look, ThingFault, array_of};
use gd_model::{RunFault, Value};
use gd_syntax::{Text, TextFault};
use gd_text::{Arg, FormatFault, format};
use smallvec::SmallVec;
use std::alloc::Global;

/// How many arguments a pattern takes without memory of their own.
const FEW: usize = 4;

/// The arguments of a pattern. An empty text stands in for a printed form that passes the limit of a text: the pattern
/// may still not fit them, and that fault goes first.
#[derive(Drop)]
struct Arguments {
    list: SmallVec<Arg, FEW>,
    too_long: bool,
}

/// The text of the pattern with the elements of an array, or with any other value as the one argument. `BadFormat`
/// exactly where there is none, then `TooLong` exactly where it passes the limit of a text.
pub fn format_with<K: Look>(
    alloc: Global,
    pattern: &Text,
    v: &Value,
    look: &K,
) -> Result<Fresh, ThingFault>
    requires whole { Whole (K.things look.now) (K.names look.now) v.now }
    ensures { Gives (spec.format_gives pattern.now (spec.arguments (K.store look.now) (K.names look.now) (datum v.now))) result }
{
    match v {
        Value::Array(h) => format_all(alloc, pattern, array_of(look, *h).items(), look),
        _ => format_one(alloc, pattern, v, look),
    }
}

/// The text that the pattern gives with the arguments.
pub fn formatted(alloc: Global, pattern: &Text, args: &[Arg]) -> Result<Fresh, ThingFault>
    ensures { Gives (spec.format_gives pattern.now args.now) result }
{
    match format(alloc, pattern, args) {
        Ok(text) => Ok(Fresh::Value(Value::Str(text))),
        Err(FormatFault::BadFormat) => refused(RunFault::BadFormat),
        Err(FormatFault::TooLong) => refused(RunFault::TooLong),
        Err(FormatFault::NoMemory) => Err(ThingFault::NoMemory),
    }
}

fn format_one<K: Look>(
    alloc: Global,
    pattern: &Text,
    v: &Value,
    look: &K,
) -> Result<Fresh, ThingFault>
    requires whole { Whole (K.things look.now) (K.names look.now) v.now }
    ensures { Gives (spec.format_gives pattern.now (spec.argument (K.store look.now) (K.names look.now) (datum v.now) ∷ [])) result }
{
    let mut args = Arguments::new(alloc);
    args.put(alloc, v, look)?;
    args.fill(alloc, pattern)
}

fn format_all<K: Look>(
    alloc: Global,
    pattern: &Text,
    items: &[Value],
    look: &K,
) -> Result<Fresh, ThingFault>
    requires whole { AllWhole (K.things look.now) (K.names look.now) items.now }
    ensures { Gives (spec.format_gives pattern.now (map (spec.argument (K.store look.now) (K.names look.now)) (map datum items.now))) result }
{
    let mut args = Arguments::new(alloc);
    for item in items {
        args.put(alloc, item, look)?;
    }
    args.fill(alloc, pattern)
}

impl Arguments {
    fn new(alloc: Global) -> Arguments
        ensures { AllStand [] result.list.items result.too_long }
    {
        Arguments {
            list: SmallVec::new(alloc),
            too_long: false,
        }
    }

    /// Puts the argument that the value is at the end; only memory may lack.
    fn put<K: Look>(&mut self, alloc: Global, v: &Value, look: &K) -> Result<(), ThingFault>
        requires whole { Whole (K.things look.now) (K.names look.now) v.now }
        ensures ok { IfOk result (λ _. (wants : List Arg) → AllStand wants self.old.list.items self.old.too_long → AllStand (wants ++ spec.argument (K.store look.now) (K.names look.now) (datum v.now) ∷ []) self.new.list.items self.new.too_long) }
        ensures err { IfErr result (λ fault. fault ≡ ThingFault.NoMemory) }
    {
        match argument(alloc, v, look)? {
            Some(arg) => push(&mut self.list, arg),
            None => {
                self.too_long = true;
                push(&mut self.list, Arg::Other(empty(alloc)?))
            }
        }
    }

    /// The text that the pattern gives with the arguments.
    fn fill(&self, alloc: Global, pattern: &Text) -> Result<Fresh, ThingFault>
        ensures { (wants : List Arg) → AllStand wants self.now.list.items self.now.too_long → Gives (spec.format_gives pattern.now wants) result }
    {
        let made = formatted(alloc, pattern, self.list.as_slice());
        within(self.too_long, made)
    }
}

/// The answer, but `TooLong` in place of a text of which a part passes the limit.
fn within(too_long: bool, made: Result<Fresh, ThingFault>) -> Result<Fresh, ThingFault>
    ensures { result ≡ unless_over too_long made }
{
    match made {
        Ok(_) if too_long => refused(RunFault::TooLong),
        made => made,
    }
}

fn push(list: &mut SmallVec<Arg, FEW>, arg: Arg) -> Result<(), ThingFault>
    ensures ok { OnOk result (list.new.items ≡ list.old.items ++ arg ∷ []) }
    ensures err { IfErr result (λ fault. fault ≡ ThingFault.NoMemory) }
{
    match list.push(arg) {
        Ok(()) => Ok(()),
        Err(_) => Err(ThingFault::NoMemory),
    }
}

fn empty(alloc: Global) -> Result<Text, ThingFault>
    ensures { IfErr result (λ fault. fault ≡ ThingFault.NoMemory) }
{
    match Text::of(Vec::new(alloc)) {
        Ok(text) => Ok(text),
        Err(TextFault::NoMemory) => Err(ThingFault::NoMemory),
        Err(_) => unreachable!(),
    }
}

/// The argument that the value is, or none where its printed form passes the limit of a text.
fn argument<K: Look>(alloc: Global, v: &Value, look: &K) -> Result<Option<Arg>, ThingFault>
    requires whole { Whole (K.things look.now) (K.names look.now) v.now }
    ensures { IsArgument (spec.argument (K.store look.now) (K.names look.now) (datum v.now)) result }
{
    match v {
        Value::Int(n) => Ok(Some(Arg::Num(*n))),
        Value::Str(text) => Ok(Some(Arg::Str(text.share()?))),
        _ => other(text_of(alloc, v, look)),
    }
}

/// The argument with a printed form that was made, or none where it passes the limit of a text.
fn other(made: Result<Text, ThingFault>) -> Result<Option<Arg>, ThingFault>
    ensures { (form : List ℕ) → Answers (limited form) made → IsArgument (arg.Other form) result }
{
    match made {
        Ok(text) => Ok(Some(Arg::Other(text))),
        Err(ThingFault::Run(RunFault::TooLong)) => Ok(None),
        Err(fault) => Err(fault),
    }
}
