//! The texts that were read last, so that a name which comes again shares its characters.
ghost use Rattle.std.specs.Prelude.{◌≡◌, ◌≤◌, length, IfOk, IfSome};

use gd_syntax::{Text, TextFault};
use no_memory::NoMemory;
use std::alloc::Global;

/// The number of slots.
const SLOTS: usize = 1024;

/// The last text of each hash.
#[derive(Drop)]
pub struct Recent {
    alloc: Global,
    /// Empty until the first text comes.
    slots: Vec<Option<Text>>,
}

impl Recent {
    pub fn new(alloc: Global) -> Recent {
        Recent {
            alloc,
            slots: Vec::new(alloc),
        }
    }

    /// The text of these characters, of a token of one file, shared with one that was read before where that is
    /// still known.
    pub fn text(&mut self, chars: &[char]) -> Result<Text, NoMemory>
        requires { length chars.now ≤ 1_048_577 }
        ensures { IfOk result (λ t. t ≡ chars.now) }
    {
        let at = slot_of(chars);
        if let Some(text) = self.known(at, chars)? {
            return Ok(text);
        }
        let text = made(self.alloc, chars)?;
        self.keep(at, text.share()?)?;
        Ok(text)
    }

    /// The text in this slot, if it has these characters.
    fn known(&self, at: usize, chars: &[char]) -> Result<Option<Text>, NoMemory>
        ensures { IfOk result (λ found. IfSome found (λ t. t ≡ chars.now)) }
    {
        match self.slots.as_slice().get(at) {
            Some(Some(text)) if text.chars() == chars => Ok(Some(text.share()?)),
            _ => Ok(None),
        }
    }

    /// Puts a text into this slot.
    fn keep(&mut self, at: usize, text: Text) -> Result<(), NoMemory> {
        if self.slots.is_empty() {
            self.fill()?;
        }
        if let Some(slot) = self.slots.get_mut(at) {
            *slot = Some(text);
        }
        Ok(())
    }

    /// Makes the slots.
    fn fill(&mut self) -> Result<(), NoMemory> {
        for _ in 0..SLOTS {
            self.slots.push(None)?;
        }
        Ok(())
    }
}

/// The slot for these characters.
fn slot_of(chars: &[char]) -> usize {
    let mut hash: u32 = 0;
    for c in chars {
        hash = hash.wrapping_mul(31).wrapping_add(*c as u32);
    }
    hash as usize % SLOTS
}

/// A text of these characters.
fn made(alloc: Global, chars: &[char]) -> Result<Text, NoMemory>
    requires { length chars.now ≤ 1_048_577 }
    ensures { IfOk result (λ t. t ≡ chars.now) }
{
    let chars = Vec::from_slice(alloc, chars)?;
    match Text::of(chars) {
        Ok(text) => Ok(text),
        Err(TextFault::NoMemory) => Err(NoMemory),
        // A file has fewer characters than a text may have.
        Err(TextFault::TooLong | TextFault::NotUtf8 | TextFault::OutOfRange) => unreachable!(),
    }
}
