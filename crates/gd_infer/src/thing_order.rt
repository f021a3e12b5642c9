//! Things in another order than that in which inference made them.

use gd_model::{Fixed, FixedThing};
use gd_syntax::Seq;
use no_memory::NoMemory;
use std::alloc::{Allocator, Global};

/// Things that were made one behind the other: the number of the first, and that of the first behind them.
#[derive(Clone, Copy)]
pub struct Span {
    pub first: u32,
    pub end: u32,
}

/// An order of things, which had other numbers before.
#[derive(Drop)]
pub struct ThingOrder {
    // the number that each had before
    before: Vec<u32>,
    // by the number that a thing had before its number in this order, if it has one
    numbers: Vec<Option<u32>>,
    count: u32,
}

impl ThingOrder {
    /// None of so many things has a number.
    pub fn new(alloc: Global, count: u32) -> Result<ThingOrder, NoMemory> {
        Ok(ThingOrder {
            before: Vec::new(alloc),
            numbers: vec![in alloc; None; count as usize]?,
            count: 0,
        })
    }

    /// Those of these things that have no number yet come next.
    pub fn add(&mut self, span: Span) -> Result<(), NoMemory> {
        for before in span.first..span.end {
            if let Some(None) = self.numbers.get(before as usize) {
                self.add_next(before)?;
            }
        }
        Ok(())
    }

    fn add_next(&mut self, before: u32) -> Result<(), NoMemory> {
        self.before.push(before)?;
        if let Some(number) = self.numbers.get_mut(before as usize) {
            *number = Some(self.count);
        }
        self.count = self.count.saturating_add(1);
        Ok(())
    }

    // The number of the thing that had this one before.
    fn number(&self, before: u32) -> u32 {
        match self.numbers.get(before as usize) {
            Some(Some(number)) => *number,
            _ => before,
        }
    }

    /// The value with the number that its thing has in this order.
    pub fn fixed(&self, value: Fixed) -> Fixed {
        match value {
            Fixed::Thing(before) => Fixed::Thing(self.number(before)),
            value => value,
        }
    }

    /// These things in this order.
    pub fn things(
        &self,
        alloc: Global,
        things: &[FixedThing],
    ) -> Result<Seq<FixedThing>, NoMemory> {
        let mut all = Vec::new(alloc);
        for before in &self.before {
            if let Some(thing) = things.get(*before as usize) {
                all.push(self.thing(alloc, thing)?)?;
            }
        }
        Ok(Seq::of(all))
    }

    fn thing(&self, alloc: Global, thing: &FixedThing) -> Result<FixedThing, NoMemory> {
        match thing {
            FixedThing::Items(element, items) => {
                let items = self.items(alloc, items.items())?;
                Ok(FixedThing::Items(element.copy(alloc)?, items))
            }
            FixedThing::Pairs(ty, pairs) => {
                let pairs = self.pairs(alloc, pairs.items())?;
                Ok(FixedThing::Pairs(ty.copy(alloc)?, pairs))
            }
        }
    }

    fn items(&self, alloc: Global, items: &[Fixed]) -> Result<Seq<Fixed>, NoMemory> {
        let mut all = Vec::new(alloc);
        for item in items {
            all.push(self.value(item)?)?;
        }
        Ok(Seq::of(all))
    }

    fn pairs(
        &self,
        alloc: Global,
        pairs: &[(Fixed, Fixed)],
    ) -> Result<Seq<(Fixed, Fixed)>, NoMemory> {
        let mut all = Vec::new(alloc);
        for pair in pairs {
            all.push(self.pair(pair)?)?;
        }
        Ok(Seq::of(all))
    }

    fn pair(&self, pair: &(Fixed, Fixed)) -> Result<(Fixed, Fixed), NoMemory> {
        let key = self.value(&pair.0)?;
        Ok((key, self.value(&pair.1)?))
    }

    // A copy of the value, with the number that its thing has in this order.
    fn value(&self, value: &Fixed) -> Result<Fixed, NoMemory> {
        Ok(match value {
            Fixed::Nil => Fixed::Nil,
            Fixed::Bool(b) => Fixed::Bool(*b),
            Fixed::Int(n) => Fixed::Int(*n),
            Fixed::Str(text) => Fixed::Str(text.share()?),
            Fixed::Thing(before) => Fixed::Thing(self.number(*before)),
        })
    }
}
