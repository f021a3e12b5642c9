//! Items of a table, ordered.
ghost use Rattle.std.specs.Prelude.{◌≡◌, ◌<◌, ◌↔◌, All, Contains, IfOk, IsTrue, map};
ghost use Rattle.cycle_resolver.specs.Table.{AreClosed, item_of, items_to, needs_by};
ghost use Rattle.cycle_resolver.specs.Unfold.{IsCause, Settled};

use super::*;
use no_memory::NoMemory;
use std::alloc::{Allocator, Global};
use std::test::Fail;

// An `Unfold` whose items are numbers, and whose needs are rows of numbers.
#[derive(Drop)]
struct Table {
    rows: Vec<Vec<u32>>,
    typed: Vec<Item>,
    given_up: Vec<Item>,
}

fn item_of_number(number: u32) -> Item
    ensures { result ≡ item_of number }
{
    Item {
        member: MemberId {
            class: 0,
            index: number,
        },
        value: 0,
    }
}

// What the first need in the row says that is not typed.
fn visit_of_row(row: &[u32], typed: &[Item], given_up: &[Item]) -> Visit
    ensures { IsCause (map item_of row.now) (record { typed = typed.now; given_up = given_up.now }) result }
{
    for &number in row {
        let next = item_of_number(number);
        if given_up.contains(&next) {
            return Visit::Cyclic;
        }
        if !is_typed(typed, next) {
            return Visit::Needs(next);
        }
    }
    Visit::Typed
}

// Whether the item is among these. The last is looked at first, so that a long chain takes no time.
fn is_typed(typed: &[Item], item: Item) -> bool
    ensures { IsTrue result ↔ Contains typed.now item }
{
    if !typed.is_empty() && typed[typed.len() - 1] == item {
        return true;
    }
    typed.contains(&item)
}

fn visit_of(rows: &[Vec<u32>], typed: &[Item], given_up: &[Item], item: Item) -> Visit
    ensures { IsCause (needs_by rows.now item) (record { typed = typed.now; given_up = given_up.now }) result }
{
    let index = item.member.index as usize;
    if index < rows.len() {
        visit_of_row(&rows[index], typed, given_up)
    } else {
        Visit::Typed
    }
}

impl Unfold for Table {
    ghost needs = { λ table item. needs_by table.rows.items item };

    ghost settled = { λ table. record { typed = table.typed.items; given_up = table.given_up.items } };

    fn visit(&mut self, _alloc: Global, item: Item) -> Result<Visit, NoMemory> {
        match visit_of(&self.rows, &self.typed, &self.given_up, item) {
            Visit::Typed => {
                self.typed.push(item)?;
                Ok(Visit::Typed)
            }
            Visit::Needs(next) => Ok(Visit::Needs(next)),
            Visit::Cyclic => Ok(Visit::Cyclic),
        }
    }

    fn give_up(&mut self, item: Item) -> Result<(), NoMemory> {
        self.given_up.push(item)?;
        Ok(())
    }
}

fn is_within(row: &[u32], count: usize) -> bool
    ensures { IsTrue result ↔ All (λ number. number < count) row.now }
{
    row.iter().all(|&number| (number as usize) < count)
}

// Whether the rows name no other items than those that have a row.
fn is_closed(rows: &[Vec<u32>]) -> bool
    ensures { IsTrue result → AreClosed rows.now }
{
    for row in rows {
        if !is_within(row, rows.len()) {
            return false;
        }
    }
    true
}

fn items_up_to(alloc: Global, count: u32) -> Result<Vec<Item>, NoMemory>
    ensures { IfOk result (λ items. items.items ≡ items_to count) }
{
    let mut items = Vec::new(alloc);
    for number in 0..count {
        items.push(item_of_number(number))?;
    }
    Ok(items)
}

// The numbers of the sequence, and of the cyclic items.
fn order_of(alloc: Global, rows: Vec<Vec<u32>>) -> Result<Option<(Vec<u32>, Vec<u32>)>, NoMemory> {
    if !is_closed(&rows) || rows.len() > u32::MAX as usize {
        return Ok(None);
    }
    let items = items_up_to(alloc, rows.len() as u32)?;
    let mut table = Table {
        rows,
        typed: Vec::new(alloc),
        given_up: Vec::new(alloc),
    };
    let found = order(alloc, &items, &mut table)?;
    Ok(Some((
        numbers(alloc, found.sequence.items())?,
        numbers(alloc, found.cyclic.items())?,
    )))
}

fn numbers(alloc: Global, items: &[Item]) -> Result<Vec<u32>, NoMemory> {
    let mut all = Vec::new(alloc);
    for item in items {
        all.push(item.member.index)?;
    }
    Ok(all)
}

// The rows that a text gives: rows between `/`, numbers between blanks.
fn rows_of(alloc: Global, text: &str) -> Result<Vec<Vec<u32>>, Fail> {
    let mut rows = Vec::new(alloc);
    for part in text.split('/') {
        rows.push(row_of(alloc, part)?)?;
    }
    Ok(rows)
}

fn row_of(alloc: Global, text: &str) -> Result<Vec<u32>, Fail> {
    let mut row = Vec::new(alloc);
    for word in text.split_whitespace() {
        row.push(word.parse::<u32>()?)?;
    }
    Ok(row)
}

#[test]
fn orders_by_needs(rt: HostRuntime) -> Result<(), Fail> {
    let alloc = rt.alloc();
    // the needs of each item, the sequence, the items that lead to a cycle
    let cases = [
        ("", "0", ""),
        ("1 2/2/", "2 1 0", ""),
        // an item that needs itself, and one that needs it
        ("/1/0 1", "0", "1 2"),
        // two that need each other, with a tail into them and one out of them
        ("1/2 3/1/", "3", "2 1 0"),
        // one need is twice there
        ("1 1/", "1 0", ""),
        // two cycles that one item leads to
        ("2/1/0/1 0", "", "2 0 1 3"),
    ];
    for (needs, sequence, cyclic) in cases {
        let found = order_of(alloc, rows_of(alloc, needs)?)?.ok_or("a need has no row")?;
        assert_eq!(rt; found.0, row_of(alloc, sequence)?);
        assert_eq!(rt; found.1, row_of(alloc, cyclic)?);
    }
    Ok(())
}

// A chain of so many items, each of which needs the next.
fn chain(alloc: Global, count: u32) -> Result<Vec<Vec<u32>>, NoMemory> {
    let mut rows = Vec::new(alloc);
    for next in 1..count {
        rows.push([next].to_vec(alloc)?)?;
    }
    rows.push(Vec::new(alloc))?;
    Ok(rows)
}

#[test]
fn orders_a_long_chain(rt: HostRuntime) -> Result<(), Fail> {
    let alloc = rt.alloc();
    let rows = chain(alloc, 100_000)?;
    let found = order_of(alloc, rows)?.ok_or("a need has no row")?;
    assert_eq!(rt; found.0.len(), 100_000);
    assert_eq!(rt; found.0.first(), Some(&99_999));
    assert_eq!(rt; found.0.last(), Some(&0));
    assert_eq!(rt; found.1.len(), 0);
    Ok(())
}
