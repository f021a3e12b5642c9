//! Logical lines, their levels, and the open blocks.
ghost use Rattle.std.specs.Prelude.{◌≡◌, ◌<◌, ◌≤◌, ◌+◌, ◌++◌, [], ◌∷◌, length, true, false, None, OnOk, IfOk, IfErr};

use crate::stop::{Fault, Stop, fault_at};
use crate::stopped::stop_at;
use gd_rules::Rule;
use gd_syntax::Pos;
use sqlite_items::Items;
use std::alloc::Global;

/// The most blocks that are open at once.
pub const MAX_BLOCKS: usize = 32;

/// By what a file indents.
#[derive(Clone, Copy, Debug, PartialEq, Eq)]
pub enum Blank {
    Space,
    Tab,
}

/// What stands in a line before its first token.
#[derive(Clone, Copy, Debug, PartialEq, Eq, Drop)]
struct Lead {
    /// The number of blanks.
    level: u32,
    /// By what the file indents if this line has a token.
    kind: Option<Blank>,
    /// The first blank of the other kind.
    mixed: Option<Fault>,
    /// The first fault behind that blank, which counts only if the line has no token.
    hidden: Option<Fault>,
}

/// The line that is read, and the blocks around it.
#[derive(Drop)]
pub struct Lines {
    /// By what the file indents, once an indented logical line has settled it.
    kind: Option<Blank>,
    lead: Lead,
    /// Whether the line has a token.
    is_open: bool,
    /// The level of each open block, the innermost last.
    blocks: Items<u32>,
}

fn lead_of(kind: Option<Blank>) -> Lead
    ensures { result ≡ spec.new_lead kind }
{
    Lead {
        level: 0,
        kind,
        mixed: None,
        hidden: None,
    }
}

impl Lead {
    /// Takes a blank.
    fn blank(&mut self, blank: Blank, pos: Pos)
        requires line { 1 ≤ pos.line }
        requires column { 1 ≤ pos.column }
        requires room { self.old.level ≤ 1_048_576 }
        ensures level { self.new.level ≡ self.old.level + 1 }
        ensures kind { self.new.kind ≡ spec.kind_behind self.old.kind blank }
        ensures mixed { spec.MixedBy (spec.is_of self.old.kind blank) pos self.old.mixed self.new.mixed }
        ensures hidden { self.new.hidden ≡ self.old.hidden }
    {
        self.level += 1;
        let is_mixed = !is_of(self.kind, blank);
        self.kind = Some(self.kind.unwrap_or(blank));
        if is_mixed {
            self.mix(pos);
        }
    }

    /// Notes a blank of the other kind, if none is noted yet.
    fn mix(&mut self, pos: Pos)
        requires line { 1 ≤ pos.line }
        requires column { 1 ≤ pos.column }
        ensures level { self.new.level ≡ self.old.level }
        ensures kind { self.new.kind ≡ self.old.kind }
        ensures mixed { spec.MixedBy false pos self.old.mixed self.new.mixed }
        ensures hidden { self.new.hidden ≡ self.old.hidden }
    {
        match self.mixed {
            Some(_) => {}
            None => self.mixed = Some(fault_at(pos, Rule::MixedIndentation)),
        }
    }
}

/// Whether the blank is of this kind, if there is one.
fn is_of(kind: Option<Blank>, blank: Blank) -> bool
    ensures { result ≡ spec.is_of kind blank }
{
    match (kind, blank) {
        (Some(Blank::Space), Blank::Tab) | (Some(Blank::Tab), Blank::Space) => false,
        _ => true,
    }
}

ghost use Rattle.gd_lexer.specs.Lines as spec;

impl Lines {
    ghost use Rattle.gd_lexer.specs.Lines.{Keeps, KeepsLine};
    ghost use Rattle.gd_lexer.specs.PutOff.{IsNotPutOff, StopsBy, first_of};
    ghost use Rattle.gd_lexer.specs.Stops.{IsFaultAt};
    ghost use Rattle.gd_lexis.specs.Lines.{innermost};

    pub fn new(alloc: Global) -> Lines
        ensures blocks { result.blocks ≡ [] }
        ensures open { result.is_open ≡ false }
        ensures kind { result.kind ≡ None }
        ensures lead { result.lead ≡ spec.new_lead None }
    {
        Lines {
            kind: None,
            lead: lead_of(None),
            is_open: false,
            blocks: Items::new(alloc),
        }
    }

    /// Whether the line has a token.
    pub fn is_open(&self) -> bool
        ensures { result ≡ self.now.is_open }
    {
        self.is_open
    }

    /// Takes a blank, which counts before the line's first token.
    pub fn blank(&mut self, blank: Blank, pos: Pos)
        requires line { 1 ≤ pos.line }
        requires column { 1 ≤ pos.column }
        requires room { self.old.lead.level ≤ 1_048_576 }
        ensures keeps { Keeps self.old self.new }
        ensures kind { self.new.kind ≡ self.old.kind }
        ensures lead { spec.LeadBy self.old.is_open blank pos self.old.lead self.new.lead }
    {
        if self.is_open {
            return;
        }
        self.lead.blank(blank, pos);
    }

    /// Takes a fault at a glyph that begins no token. It is put off where the line, if it has a token, has
    /// a fault before it.
    pub fn stray(&mut self, fault: Fault) -> Result<(), Stop>
        ensures keeps { Keeps self.old self.new }
        ensures hidden { OnOk result (self.new.lead.hidden ≡ None → ⊥) }
        ensures mixed { OnOk result (self.new.lead.mixed ≡ None → ⊥) }
        ensures shut { OnOk result (self.new.is_open ≡ false) }
        ensures level { self.new.lead.level ≡ self.old.lead.level }
        ensures put_off { OnOk result (self.new.lead.hidden ≡ first_of self.old.lead.hidden fault) }
        ensures blank { self.new.lead.mixed ≡ self.old.lead.mixed }
        ensures refused { IfErr result (IsNotPutOff self.old.is_open self.old.lead fault) }
    {
        if self.is_open || self.lead.mixed.is_none() {
            return Err(Stop::Fault(fault));
        }
        self.hide(fault);
        Ok(())
    }

    /// Puts a fault off, if none is put off yet.
    fn hide(&mut self, fault: Fault)
        ensures keeps { Keeps self.old self.new }
        ensures hidden { self.new.lead.hidden ≡ None → ⊥ }
        ensures mixed { self.new.lead.mixed ≡ self.old.lead.mixed }
        ensures level { self.new.lead.level ≡ self.old.lead.level }
        ensures first { self.new.lead.hidden ≡ first_of self.old.lead.hidden fault }
    {
        if self.lead.hidden.is_none() {
            self.lead.hidden = Some(fault);
        }
    }

    /// Takes a comment, behind which the line has no token.
    pub fn comment(&self) -> Result<(), Stop>
        ensures hidden { OnOk result (self.now.lead.hidden ≡ None) }
        ensures put_off { IfErr result (StopsBy self.now.lead.hidden) }
    {
        match self.lead.hidden {
            Some(fault) => Err(Stop::Fault(fault)),
            None => Ok(()),
        }
    }

    /// Begins a logical line with its first token. The answer is its level.
    pub fn open(&mut self) -> Result<u32, Stop>
        ensures level { IfOk result (λ level. level ≡ self.old.lead.level) }
        ensures one { OnOk result (self.old.lead.mixed ≡ None) }
        ensures mixed { IfErr result (StopsBy self.old.lead.mixed) }
        ensures open { OnOk result (self.new.is_open ≡ true) }
        ensures kind { OnOk result (self.new.kind ≡ self.old.lead.kind) }
        ensures blocks { self.new.blocks ≡ self.old.blocks }
        ensures lead { self.new.lead ≡ self.old.lead }
    {
        if let Some(fault) = self.lead.mixed {
            return Err(Stop::Fault(fault));
        }
        self.kind = self.lead.kind;
        self.is_open = true;
        Ok(self.lead.level)
    }

    /// Ends the line, logical or not.
    pub fn end(&mut self) -> Result<(), Stop>
        ensures open { OnOk result (self.new.is_open ≡ false) }
        ensures blocks { self.new.blocks ≡ self.old.blocks }
        ensures kind { self.new.kind ≡ self.old.kind }
        ensures lead { OnOk result (self.new.lead ≡ spec.new_lead self.old.kind) }
        ensures hidden { OnOk result (self.old.lead.hidden ≡ None) }
        ensures put_off { IfErr result (StopsBy self.old.lead.hidden) }
    {
        self.comment()?;
        self.lead = lead_of(self.kind);
        self.is_open = false;
        Ok(())
    }

    /// The level of the innermost block, or 0.
    pub fn level(&self) -> u32
        ensures value { result ≡ innermost self.now.blocks }
        ensures some { 0 < result → 0 < length self.now.blocks }
    {
        match self.blocks.as_slice().last() {
            Some(level) => *level,
            None => 0,
        }
    }

    /// Closes the innermost block.
    pub fn close_block(&mut self)
        requires { 0 < length self.old.blocks }
        ensures blocks { self.old.blocks ≡ self.new.blocks ++ innermost self.old.blocks ∷ [] }
        ensures line { KeepsLine self.old self.new }
    {
        self.blocks.pop();
    }

    /// Opens a block at this level. `pos` is its first token's place.
    pub fn open_block(&mut self, level: u32, pos: Pos) -> Result<(), Stop>
        requires line { 1 ≤ pos.line }
        requires column { 1 ≤ pos.column }
        ensures blocks { OnOk result (self.new.blocks ≡ self.old.blocks ++ level ∷ []) }
        ensures room { OnOk result (length self.old.blocks < 32) }
        ensures full { IfErr result (IsFaultAt pos Rule.BlocksTooDeep (32 ≤ length self.old.blocks)) }
        ensures line { KeepsLine self.old self.new }
    {
        if self.blocks.len() >= MAX_BLOCKS {
            return Err(stop_at(pos, Rule::BlocksTooDeep));
        }
        match self.blocks.push(level) {
            Ok(()) => Ok(()),
            Err(_) => Err(Stop::NoMemory),
        }
    }
}
