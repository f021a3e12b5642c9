//! Open brackets, and the tokens of the items between separators.
ghost use Rattle.std.specs.Prelude.{◌≡◌, ◌<◌, ◌≤◌, ◌+◌, ◌++◌, [], ◌∷◌, OnOk, IfErr, length, nat_lt};
ghost use Rattle.gd_lexis.specs.Lines as lines;
ghost use Rattle.gd_lexis.specs.Items as items;
ghost use Rattle.gd_lexer.specs.Brackets as spec;

use crate::stop::Stop;
use crate::stopped::stop_at;
use gd_rules::Rule;
use gd_syntax::{Mark, Pos, TokenKind};
use sqlite_items::Items;
use std::alloc::Global;

/// The most brackets that are open at once.
pub const MAX_BRACKETS: usize = 32;

/// The most tokens of an item.
pub const MAX_ITEM: u32 = 100;

/// How a token bears on items.
#[derive(Clone, Copy, Debug, PartialEq, Eq)]
enum Role {
    Part,
    Separator,
    Opening,
    Closing,
}

/// The number of tokens of the running item, and those of the items around the open brackets, the innermost last.
#[derive(Drop)]
pub struct Brackets {
    item: u32,
    around: Items<u32>,
}

fn role_of_mark(mark: Mark) -> Role
    ensures { result ≡ spec.role_of_mark mark }
{
    if is_separator(mark) {
        Role::Separator
    } else if is_opening(mark) {
        Role::Opening
    } else if is_closing(mark) {
        Role::Closing
    } else {
        Role::Part
    }
}

fn is_opening(mark: Mark) -> bool
    ensures { result ≡ lines.is_opening mark }
{
    match mark {
        Mark::LeftParen | Mark::LeftBracket | Mark::LeftBrace => true,
        _ => false,
    }
}

fn is_closing(mark: Mark) -> bool
    ensures { result ≡ lines.is_closing mark }
{
    match mark {
        Mark::RightParen | Mark::RightBracket | Mark::RightBrace => true,
        _ => false,
    }
}

/// Whether the mark ends an item: a comma, a semicolon, a colon or an assignment.
fn is_separator(mark: Mark) -> bool
    ensures { result ≡ items.is_separator mark }
{
    match mark {
        Mark::Comma
        | Mark::Semicolon
        | Mark::Colon
        | Mark::Equal
        | Mark::PlusEqual
        | Mark::MinusEqual
        | Mark::StarEqual
        | Mark::SlashEqual
        | Mark::PercentEqual
        | Mark::StarStarEqual
        | Mark::ShiftLeftEqual
        | Mark::ShiftRightEqual
        | Mark::AmpersandEqual
        | Mark::BarEqual
        | Mark::CaretEqual => true,
        _ => false,
    }
}

fn role_of(kind: &TokenKind) -> Role
    ensures { result ≡ spec.role_of kind.now }
{
    match kind {
        TokenKind::Mark(mark) => role_of_mark(*mark),
        _ => Role::Part,
    }
}

impl Brackets {
    ghost use Rattle.gd_lexer.specs.Stops.{IsFaultAt};
    ghost use Rattle.gd_lexis.specs.Items.{counted, closed, ended};
    ghost use Rattle.gd_lexer.specs.Brackets as spec;

    pub fn new(alloc: Global) -> Brackets
        ensures { spec.items_of result ≡ 0 ∷ [] }
    {
        Brackets {
            item: 0,
            around: Items::new(alloc),
        }
    }

    /// Whether a bracket is open.
    pub fn is_inside(&self) -> bool
        ensures { result ≡ nat_lt 1 (length (spec.items_of self.now)) }
    {
        !self.around.is_empty()
    }

    /// Ends the running item.
    pub fn end_item(&mut self)
        ensures { spec.items_of self.new ≡ ended (spec.items_of self.old) }
    {
        self.item = 0;
    }

    /// Counts a token of the running item.
    fn count(&mut self, pos: Pos) -> Result<(), Stop>
        requires line { 1 ≤ pos.line }
        requires column { 1 ≤ pos.column }
        ensures item { OnOk result ((self.old.item < 100) × (self.new.item ≡ self.old.item + 1)) }
        ensures around { self.new.around ≡ self.old.around }
        ensures full { IfErr result (IsFaultAt pos Rule.ItemTooLong (100 ≤ self.old.item)) }
        ensures items { OnOk result (spec.items_of self.new ≡ counted (spec.items_of self.old)) }
    {
        if self.item >= MAX_ITEM {
            return Err(stop_at(pos, Rule::ItemTooLong));
        }
        self.item += 1;
        Ok(())
    }

    /// Counts an opening bracket, and begins the item behind it.
    fn open(&mut self, pos: Pos) -> Result<(), Stop>
        requires line { 1 ≤ pos.line }
        requires column { 1 ≤ pos.column }
        ensures room { OnOk result (spec.FitsBy Role.Opening (spec.items_of self.old)) }
        ensures around { OnOk result ((self.new.around ≡ self.old.around ++ (self.old.item + 1) ∷ []) × (self.new.item ≡ 0)) }
        ensures items { OnOk result (spec.items_of self.new ≡ spec.items_by Role.Opening (spec.items_of self.old)) }
        ensures refused { IfErr result (spec.IsRefusal pos Role.Opening (spec.items_of self.old)) }
    {
        if self.around.len() >= MAX_BRACKETS {
            return Err(stop_at(pos, Rule::BracketsTooDeep));
        }
        self.count(pos)?;
        self.around.push(self.item)?;
        self.item = 0;
        Ok(())
    }

    /// Goes back to the item around the last open bracket, if one is open, and counts the closing bracket.
    fn close(&mut self, pos: Pos) -> Result<(), Stop>
        requires line { 1 ≤ pos.line }
        requires column { 1 ≤ pos.column }
        ensures items { OnOk result (spec.items_of self.new ≡ spec.items_by Role.Closing (spec.items_of self.old)) }
        ensures room { OnOk result (spec.FitsBy Role.Closing (spec.items_of self.old)) }
        ensures refused { IfErr result (spec.IsRefusal pos Role.Closing (spec.items_of self.old)) }
    {
        self.leave();
        self.count(pos)
    }

    /// Goes back to the item around the last open bracket, if one is open.
    fn leave(&mut self)
        ensures { spec.items_of self.new ≡ closed (spec.items_of self.old) }
    {
        if let Some(item) = self.around.pop() {
            self.item = item;
        }
    }

    /// Takes the token at `pos`.
    #[tactic(auto, using(crate::proofs::BracketLemmas::items_by_kind))]
    pub fn take(&mut self, kind: &TokenKind, pos: Pos) -> Result<(), Stop>
        requires line { 1 ≤ pos.line }
        requires column { 1 ≤ pos.column }
        ensures items { OnOk result (spec.items_of self.new ≡ spec.items_after kind.now (spec.items_of self.old)) }
        ensures room { OnOk result (spec.FitsBy (spec.role_of kind.now) (spec.items_of self.old)) }
        ensures refused { IfErr result (spec.IsRefusal pos (spec.role_of kind.now) (spec.items_of self.old)) }
    {
        self.take_by(role_of(kind), pos)
    }

    /// Takes the token of this role at `pos`.
    fn take_by(&mut self, role: Role, pos: Pos) -> Result<(), Stop>
        requires line { 1 ≤ pos.line }
        requires column { 1 ≤ pos.column }
        ensures items { OnOk result (spec.items_of self.new ≡ spec.items_by role (spec.items_of self.old)) }
        ensures room { OnOk result (spec.FitsBy role (spec.items_of self.old)) }
        ensures refused { IfErr result (spec.IsRefusal pos role (spec.items_of self.old)) }
    {
        match role {
            Role::Part => self.count(pos),
            Role::Separator => {
                self.end_item();
                Ok(())
            }
            Role::Opening => self.open(pos),
            Role::Closing => self.close(pos),
        }
    }
}
