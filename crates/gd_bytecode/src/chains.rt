//! Where iterations stand on a stack.
ghost use Rattle.std.specs.Prelude.{◌≡◌, ◌<◌, length};

use indexmap::IndexSet;
use no_memory::NoMemory;
use std::alloc::Global;

/// The iterations of a stack, from the top one on. Equal ones are kept once, so that they are one chain exactly where they
/// have one number; `NO_ITERATION` is the number of none.
pub type Chain = usize;

pub const NO_ITERATION: Chain = 0;

/// An iteration with those below it.
#[derive(Clone, Copy, PartialEq, Eq, Hash)]
struct Link {
    /// How many entries stand below it on the stack.
    height: usize,
    below: Chain,
}

/// What makes the way down a chain short.
#[derive(Clone, Copy)]
struct Shortcut {
    /// How many iterations the chain has.
    count: usize,
    /// A chain further down.
    far: Chain,
}

/// All chains of a function. Chain `c` is link `c` - 1.
#[derive(Drop)]
pub struct Chains {
    links: IndexSet<Link>,
    shortcuts: Vec<Shortcut>,
}

impl Chains {
    pub fn new(alloc: Global) -> Chains {
        Chains {
            links: IndexSet::new(alloc),
            shortcuts: Vec::new(alloc),
        }
    }

    /// The chain of an iteration with so many entries below it, above those of another chain.
    pub fn push(&mut self, height: usize, below: Chain) -> Result<Chain, NoMemory> {
        let (index, is_new) = self.links.insert_full(Link { height, below })?;
        if is_new {
            let shortcut = self.shortcut_above(below);
            self.shortcuts.push(shortcut)?;
        }
        Ok(index.saturating_add(1))
    }

    /// How many entries stand below the top iteration, if there is one.
    pub fn height(&self, chain: Chain) -> Option<usize> {
        Some(self.link(chain)?.height)
    }

    /// The chain without its top iteration.
    pub fn below(&self, chain: Chain) -> Chain {
        match self.link(chain) {
            Some(link) => link.below,
            None => NO_ITERATION,
        }
    }

    /// How many iterations the chain has.
    pub fn count(&self, chain: Chain) -> usize {
        self.shortcut(chain).count
    }

    /// The chain of those iterations that have fewer entries below them than `height`. It takes the time of the logarithm
    /// of how many there are.
    pub fn under(&self, chain: Chain, height: usize) -> Chain {
        let mut at = chain;
        while self.is_at_least(at, height) {
            let far = self.shortcut(at).far;
            let next = if self.is_at_least(far, height) {
                far
            } else {
                self.below(at)
            };
            if next >= at {
                return NO_ITERATION;
            }
            at = next;
        }
        at
    }

    // Whether the top iteration is there and has at least so many entries below it.
    fn is_at_least(&self, chain: Chain, height: usize) -> bool {
        match self.link(chain) {
            Some(link) => link.height >= height,
            None => false,
        }
    }

    fn link(&self, chain: Chain) -> Option<Link> {
        if chain == NO_ITERATION {
            return None;
        }
        self.links.get_index(chain - 1).copied()
    }

    fn shortcut(&self, chain: Chain) -> Shortcut {
        let none = Shortcut {
            count: 0,
            far: NO_ITERATION,
        };
        if chain == NO_ITERATION {
            return none;
        }
        self.shortcuts.get(chain - 1).copied().unwrap_or(none)
    }

    // The shortcut of a chain right above another: over two ways down of one length where there are two, so that few steps
    // lead from any chain to any below it.
    fn shortcut_above(&self, below: Chain) -> Shortcut {
        let here = self.shortcut(below);
        let middle = self.shortcut(here.far);
        let end = self.shortcut(middle.far);
        let is_even = here.count.abs_diff(middle.count) == middle.count.abs_diff(end.count);
        Shortcut {
            count: here.count.saturating_add(1),
            far: if is_even && here.far != NO_ITERATION {
                middle.far
            } else {
                below
            },
        }
    }
}
