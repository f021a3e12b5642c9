//! A value behind a pointer, which contracts see as the value.
ghost use Rattle.std.specs.Prelude.{◌≡◌, IfOk};
ghost use Rattle.std.specs.Borrow.{sem};

use no_memory::NoMemory;
use std::alloc::Global;
use std::marker::Model;

/// A value on the heap with one owner. It takes one word, so that what holds it stays small.
#[derive(Drop)]
pub struct OnHeap<T> {
    inner: Box<T>,
}

impl<T> Model for OnHeap<T> {
    ghost Value = { T };

    ghost coded = { T.code };

    ghost view = { λ b. b.inner.value };
}

impl<T> OnHeap<T> {
    ghost use Rattle.gd_containers.specs.Lending.{lends_content};

    /// The value.
    pub fn get(&self) -> &T
        ensures { result.now ≡ self.now }
    {
        &self.inner
    }

    /// The value, to write it.
    pub fn get_mut(&mut self) -> &mut T
        ensures* writes_back { sem 𝓛 (lends_content T.row self.entry result) }
        ensures value { result.now ≡ self.old }
    {
        &mut self.inner
    }

    /// The value, moved out.
    pub fn into_inner(self) -> T
        ensures { result ≡ self }
    {
        let OnHeap { inner } = self;
        Box::into_inner(inner)
    }
}

impl<T: Drop> OnHeap<T> {
    /// The value, moved to the heap.
    pub fn new(alloc: Global, value: T) -> Result<OnHeap<T>, NoMemory>
        ensures { IfOk result (λ b. b ≡ value) }
    {
        match Box::new(alloc, value) {
            Ok(inner) => Ok(OnHeap { inner }),
            Err(_) => Err(NoMemory),
        }
    }
}
