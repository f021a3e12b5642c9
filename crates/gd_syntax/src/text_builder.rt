//! A text in the making.
ghost use Rattle.std.specs.Prelude.{◌≡◌, ◌+◌, ◌<◌, ◌↔◌, ◌⊎◌, [], ◌∷◌, ◌++◌, length, replicate, IfOk, IsErrOf, OnErr, OnOk};

use crate::text::{MAX_TEXT, SHORT, Text, TextFault};
use no_memory::NoMemory;
use smallvec::SmallVec;
use std::alloc::{AllocError, Global};
use std::marker::Model;

/// The characters of a text that is put together from left to right. Contracts see them as the list of code points.
/// It takes no memory of its own up to the length of a short text.
#[derive(Drop)]
pub struct TextBuilder {
    chars: SmallVec<char, SHORT>,
}

impl Model for TextBuilder {
    ghost use Rattle.std.specs.Prelude.{List, ℕ, ◌≤◌, length};

    ghost Value = { List ℕ };

    ghost view = { λ b. b.chars.items };

    ghost invariant = { λ b. length b.chars.items ≤ 16777216 };
}

/// Puts the characters whose codes are these bytes at the end. Where there is no memory nothing changes.
pub(crate) fn add_bytes(chars: &mut SmallVec<char, SHORT>, bytes: &[u8]) -> Result<(), AllocError>
    ensures ok { OnOk result (chars.new.items ≡ chars.old.items ++ bytes.now) }
    ensures unchanged { OnErr result (chars.new ≡ chars.old) }
{
    chars.reserve(bytes.len())?;
    for b in bytes {
        chars.push_reserved(*b as char);
    }
    Ok(())
}

impl TextBuilder {
    /// No characters yet.
    pub fn new(alloc: Global) -> TextBuilder
        ensures { result ≡ [] }
    {
        TextBuilder {
            chars: SmallVec::new(alloc),
        }
    }

    /// No characters yet, with room for `n`. `TooLong` exactly where a text has no more than fewer.
    pub fn with_capacity(alloc: Global, n: usize) -> Result<TextBuilder, TextFault>
        ensures empty { IfOk result (λ b. b ≡ []) }
        ensures too_long { OnErr result (IsErrOf result TextFault.TooLong ⊎ IsErrOf result TextFault.NoMemory) }
        ensures long { IsErrOf result TextFault.TooLong ↔ (MAX_TEXT < n) }
    {
        if n > MAX_TEXT {
            return Err(TextFault::TooLong);
        }
        match SmallVec::with_capacity(alloc, n) {
            Ok(chars) => Ok(TextBuilder { chars }),
            Err(_) => Err(TextFault::NoMemory),
        }
    }

    /// Puts the character at the end. `TooLong` exactly where `MAX_TEXT` are there; after an error all stays as it was.
    pub fn push(&mut self, c: char) -> Result<(), TextFault>
        ensures ok { OnOk result (self.new ≡ self.old ++ c ∷ []) }
        ensures unchanged { OnErr result (self.new ≡ self.old) }
        ensures too_long { OnErr result (IsErrOf result TextFault.TooLong ⊎ IsErrOf result TextFault.NoMemory) }
        ensures long { IsErrOf result TextFault.TooLong ↔ (MAX_TEXT < length self.old + 1) }
    {
        if self.chars.len() >= MAX_TEXT {
            return Err(TextFault::TooLong);
        }
        match self.chars.push(c) {
            Ok(()) => Ok(()),
            Err(_) => Err(TextFault::NoMemory),
        }
    }

    /// Puts the characters at the end. `TooLong` exactly where more than `MAX_TEXT` would come of it; after an error all
    /// stays as it was.
    pub fn append(&mut self, more: &[char]) -> Result<(), TextFault>
        ensures ok { OnOk result (self.new ≡ self.old ++ more.now) }
        ensures unchanged { OnErr result (self.new ≡ self.old) }
        ensures too_long { OnErr result (IsErrOf result TextFault.TooLong ⊎ IsErrOf result TextFault.NoMemory) }
        ensures long { IsErrOf result TextFault.TooLong ↔ (MAX_TEXT < length self.old + length more.now) }
    {
        if more.len() > MAX_TEXT - self.chars.len() {
            return Err(TextFault::TooLong);
        }
        match self.chars.extend_from_slice(more) {
            Ok(()) => Ok(()),
            Err(_) => Err(TextFault::NoMemory),
        }
    }

    /// Puts the character at the end, `n` times. `TooLong` exactly where more than `MAX_TEXT` would come of it; after an
    /// error all stays as it was.
    pub fn fill(&mut self, c: char, n: usize) -> Result<(), TextFault>
        ensures ok { OnOk result (self.new ≡ self.old ++ replicate n c) }
        ensures unchanged { OnErr result (self.new ≡ self.old) }
        ensures too_long { OnErr result (IsErrOf result TextFault.TooLong ⊎ IsErrOf result TextFault.NoMemory) }
        ensures long { IsErrOf result TextFault.TooLong ↔ (MAX_TEXT < length self.old + n) }
    {
        let len = self.chars.len();
        if n > MAX_TEXT - len {
            return Err(TextFault::TooLong);
        }
        match self.chars.resize(len + n, c) {
            Ok(()) => Ok(()),
            Err(_) => Err(TextFault::NoMemory),
        }
    }

    /// Puts the characters whose codes are these bytes at the end. `TooLong` exactly where more than `MAX_TEXT` would
    /// come of it; after an error all stays as it was.
    pub fn append_bytes(&mut self, bytes: &[u8]) -> Result<(), TextFault>
        ensures ok { OnOk result (self.new ≡ self.old ++ bytes.now) }
        ensures unchanged { OnErr result (self.new ≡ self.old) }
        ensures too_long { OnErr result (IsErrOf result TextFault.TooLong ⊎ IsErrOf result TextFault.NoMemory) }
        ensures long { IsErrOf result TextFault.TooLong ↔ (MAX_TEXT < length self.old + length bytes.now) }
    {
        if bytes.len() > MAX_TEXT - self.chars.len() {
            return Err(TextFault::TooLong);
        }
        match add_bytes(&mut self.chars, bytes) {
            Ok(()) => Ok(()),
            Err(_) => Err(TextFault::NoMemory),
        }
    }

    /// The characters so far.
    pub fn chars(&self) -> &[char]
        ensures { result.now ≡ self.now }
    {
        self.chars.as_slice()
    }

    /// The text of the characters.
    pub fn finish(self) -> Result<Text, NoMemory>
        ensures { IfOk result (λ t. t ≡ self) }
    {
        Text::over(self.chars)
    }
}
