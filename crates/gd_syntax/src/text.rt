//! A text, which contracts see as the list of its code points.
ghost use Rattle.std.specs.Prelude.{◌≡◌, ◌<◌, ◌≤◌, ◌↔◌, ◌⊎◌, [], ◌∷◌, chars, encode_utf8_all, length, nat_eq, Some, IfOk, IsErrOf, IsTrue, IsUtf8, OnErr};
ghost use Rattle.std.specs.Cmp.Lexicographic.{pointwise, slice_cmp};
ghost use Rattle.std.specs.Hash as fed;
ghost use Rattle.std.specs.List.{slice_get};
ghost use Rattle.std.specs.Str.{IsAscii};
ghost use Rattle.std.specs.Ordering.{nat_cmp};
ghost use Rattle.std.proofs.lemmas.Cmp.{nat_list_cmp_total, nat_list_eq_equiv};
ghost use Rattle.std.specs.Cmp.{partial_equiv_from_equiv};
ghost use Rattle.std.specs.Cmp.Lexicographic.{texts_ties, texts_po};
ghost use Rattle.std.specs.Cmp.Rules.{comparing, hashing};
ghost use Rattle.std.proofs.Common.{rules, refl};

use crate::text_builder::add_bytes;
use no_memory::NoMemory;
use smallvec::SmallVec;
use std::alloc::{AllocError, Global};
use std::cmp::Ordering;
use std::hash::{Hash, Hasher};
use std::marker::Model;
use std::rc::Rc;
use thiserror::Error;

/// The most code points that a text has.
pub const MAX_TEXT: usize = 16_777_216;

/// The most code points that lie in the block of a text itself. A longer text has them in a second block.
pub(crate) const SHORT: usize = 12;

/// An immutable text. It is one block of memory up to `SHORT` code points, and two above: the invariant says so. Copies
/// made by `share` use the same characters.
#[derive(Drop)]
pub struct Text {
    chars: Rc<SmallVec<char, SHORT>>,
}

impl Model for Text {
    ghost use Rattle.std.specs.Prelude.{List, ℕ, ◌≤◌, length};

    ghost Value = { List ℕ };

    ghost view = { λ t. t.chars.value.items };

    // Within the limit, and a short text has no room but that in its block.
    ghost invariant = { λ t. (length t.chars.value.items ≤ 16777216)
        × (length t.chars.value.items ≤ 12 → t.chars.value.capacity ≤ 12) };
}

/// Why a text cannot be made.
#[derive(Clone, Copy, Debug, PartialEq, Eq, Drop, Error)]
pub enum TextFault {
    /// The bytes are not UTF-8.
    #[error("not UTF-8")]
    NotUtf8,
    /// The text would have more than `MAX_TEXT` code points.
    #[error("too long")]
    TooLong,
    /// A number that the call was given is out of its range.
    #[error("out of range")]
    OutOfRange,
    /// No memory was left.
    #[error("out of memory")]
    NoMemory,
}

impl From<NoMemory> for TextFault {
    ghost use Rattle.gd_syntax.specs.declared.text.TextFault.TheVariants.{NoMemory};

    ghost from_gives = { λ _ fault. fault ≡ NoMemory };

    fn from(_: NoMemory) -> TextFault {
        TextFault::NoMemory
    }
}

impl From<AllocError> for TextFault {
    ghost use Rattle.gd_syntax.specs.declared.text.TextFault.TheVariants.{NoMemory};

    ghost from_gives = { λ _ fault. fault ≡ NoMemory };

    fn from(_: AllocError) -> TextFault {
        TextFault::NoMemory
    }
}

fn count_chars(text: &str) -> usize
    ensures { result ≡ length (chars text.now) }
{
    text.chars().count()
}

/// Whether there are more characters than a text has. They are no more than the bytes, so that few texts are counted.
#[tactic(auto, using(crate::proofs::Spelled::chars_are_few))]
fn is_too_long(text: &str) -> bool
    ensures { IsTrue result ↔ (MAX_TEXT < length (chars text.now)) }
{
    text.len() > MAX_TEXT && count_chars(text) > MAX_TEXT
}

fn collect_chars(alloc: Global, text: &str) -> Result<SmallVec<char, SHORT>, AllocError>
    ensures { IfOk result (λ all. all.items ≡ chars text.now) }
{
    text.chars().collect(alloc)
}

/// The characters of the text. Those of an ASCII text are its bytes.
#[tactic(auto, using(crate::proofs::Spelled::chars_of_ascii))]
fn decoded(alloc: Global, text: &str) -> Result<SmallVec<char, SHORT>, AllocError>
    ensures { IfOk result (λ all. all.items ≡ chars text.now) }
{
    if text.is_ascii() {
        let mut all = SmallVec::new(alloc);
        add_bytes(&mut all, text.as_bytes())?;
        return Ok(all);
    }
    collect_chars(alloc, text)
}

/// Takes over the buffer of a long list. That of a short one goes, and its characters lie in the block of the text.
fn packed(chars: Vec<char>) -> Result<SmallVec<char, SHORT>, AllocError>
    ensures { IfOk result (λ all. all.items ≡ chars.items) }
{
    if chars.len() <= SHORT {
        return SmallVec::from_slice(*chars.allocator(), chars.as_slice());
    }
    Ok(SmallVec::from_vec(chars))
}

impl Text {
    /// The text of these characters. `TooLong` exactly where there are more than `MAX_TEXT`.
    pub fn of(chars: Vec<char>) -> Result<Text, TextFault>
        ensures text { IfOk result (λ t. t ≡ chars.items) }
        ensures too_long { OnErr result (IsErrOf result TextFault.TooLong ⊎ IsErrOf result TextFault.NoMemory) }
        ensures long { IsErrOf result TextFault.TooLong ↔ (MAX_TEXT < length chars.items) }
    {
        if chars.len() > MAX_TEXT {
            return Err(TextFault::TooLong);
        }
        Ok(Text::over(packed(chars)?)?)
    }

    /// The text of a copy of these characters. `TooLong` exactly where there are more than `MAX_TEXT`.
    pub fn of_slice(alloc: Global, chars: &[char]) -> Result<Text, TextFault>
        ensures text { IfOk result (λ t. t ≡ chars.now) }
        ensures too_long { OnErr result (IsErrOf result TextFault.TooLong ⊎ IsErrOf result TextFault.NoMemory) }
        ensures long { IsErrOf result TextFault.TooLong ↔ (MAX_TEXT < length chars.now) }
    {
        if chars.len() > MAX_TEXT {
            return Err(TextFault::TooLong);
        }
        Ok(Text::over(SmallVec::from_slice(alloc, chars)?)?)
    }

    /// The text of one character.
    pub fn one(alloc: Global, c: char) -> Result<Text, NoMemory>
        ensures { IfOk result (λ t. t ≡ c ∷ []) }
    {
        Text::over(SmallVec::from_slice(alloc, &[c])?)
    }

    /// The text over these characters, of which there are no more than a text has.
    pub(crate) fn over(mut chars: SmallVec<char, SHORT>) -> Result<Text, NoMemory>
        requires { length chars.items ≤ MAX_TEXT }
        ensures { IfOk result (λ t. t ≡ chars.items) }
    {
        if chars.len() <= SHORT {
            chars.shrink_to_fit();
        }
        match Rc::new(*chars.allocator(), chars) {
            Ok(chars) => Ok(Text { chars }),
            Err(_) => Err(NoMemory),
        }
    }

    /// The text that `bytes` spell. `NotUtf8` exactly where they are not UTF-8, and `TooLong` exactly where they
    /// are UTF-8 of more than `MAX_TEXT` characters; never `OutOfRange`.
    pub fn from_utf8(alloc: Global, bytes: &[u8]) -> Result<Text, TextFault>
        ensures text { IfOk result (λ t. t ≡ chars bytes.now) }
        ensures not_utf8 { IsErrOf result TextFault.NotUtf8 ↔ ¬ (IsUtf8 bytes.now) }
        ensures too_long { IsErrOf result TextFault.TooLong ↔ (IsUtf8 bytes.now × (MAX_TEXT < length (chars bytes.now))) }
        ensures in_range { ¬ (IsErrOf result TextFault.OutOfRange) }
    {
        let Ok(text) = str::from_utf8(bytes) else {
            return Err(TextFault::NotUtf8);
        };
        if is_too_long(text) {
            return Err(TextFault::TooLong);
        }
        Ok(Text::over(decoded(alloc, text)?)?)
    }

    /// The bytes of the text in UTF-8.
    pub fn to_utf8(&self, alloc: Global) -> Result<Vec<u8>, NoMemory>
        ensures bytes { IfOk result (λ bytes. bytes.items ≡ encode_utf8_all self.now) }
        ensures utf8 { IfOk result (λ bytes. IsUtf8 bytes.items) }
        ensures spells { IfOk result (λ bytes. chars bytes.items ≡ self.now) }
    {
        let mut text = String::with_capacity(alloc, self.chars().len())?;
        for c in self.chars() {
            text.push(*c)?;
        }
        Ok(text.into_bytes())
    }

    /// The same text over the same characters.
    pub fn share(&self) -> Result<Text, NoMemory>
        ensures { IfOk result (λ t. t ≡ self.now) }
    {
        match self.chars.clone() {
            Ok(chars) => Ok(Text { chars }),
            Err(_) => Err(NoMemory),
        }
    }

    /// The number of code points.
    pub fn length(&self) -> u32
        ensures value { result ≡ length self.now }
        ensures limit { result ≤ MAX_TEXT }
    {
        self.chars().len() as u32
    }

    /// The code point at place `i`, counted from 0.
    pub fn at(&self, i: u32) -> Option<u32>
        ensures { result ≡ slice_get self.now i }
    {
        match self.chars().get(i as usize) {
            Some(c) => Some(*c as u32),
            None => None,
        }
    }

    /// The characters in order.
    pub fn chars(&self) -> &[char]
        ensures value { result.now ≡ self.now }
        ensures limit { length result.now ≤ MAX_TEXT }
    {
        self.chars.as_slice()
    }

    /// The order of the two texts by their code points.
    pub fn compare(&self, other: &Text) -> Ordering
        ensures { result ≡ slice_cmp nat_cmp self.now other.now }
    {
        self.chars().cmp(other.chars())
    }
}

impl PartialEq for Text {
    ghost eq = { λ a b. pointwise nat_eq a b };

    ghost laws = { partial_equiv_from_equiv nat_list_eq_equiv };

    fn eq(&self, other: &Text) -> bool {
        self.chars() == other.chars()
    }
}

impl Eq for Text {
    ghost laws = { nat_list_eq_equiv };
}

impl PartialOrd for Text {
    ghost partial_cmp = { λ a b. Some (slice_cmp nat_cmp a b) };

    ghost laws = { texts_po };

    fn partial_cmp(&self, other: &Text) -> Option<Ordering> {
        Some(self.compare(other))
    }
}

impl Ord for Text {
    ghost cmp = { λ a b. slice_cmp nat_cmp a b };

    ghost total = { nat_list_cmp_total };

    ghost matches_partial_cmp = { λ a b. refl };

    ghost matches_eq = { λ a b. texts_ties a b };

    fn cmp(&self, other: &Text) -> Ordering {
        self.compare(other)
    }
}

impl Hash for Text {
    ghost hash_input = { λ t. fed.slice fed.char t };

    ghost respects_eq = { Prim.search (hashing, rules) };

    fn hash<H: Hasher>(&self, state: &mut H) {
        self.chars().hash(state);
    }
}
