//! A `Vec` that contracts see as the list of its items.
ghost use Rattle.std.specs.Prelude.{◌≡◌};
ghost use Rattle.std.specs.Borrow.{sem};

use std::marker::Model;

/// A list of items in plain data. It is made from a `Vec` and takes no memory of its own.
#[derive(Debug, Drop)]
pub struct Seq<T> {
    items: Vec<T>,
}

impl<T> Model for Seq<T> {
    ghost use Rattle.std.specs.Prelude.{List};
    ghost use Rattle.std.specs.Coded.{coded_list};

    ghost Value = { List T };

    ghost coded = { coded_list T.code };

    ghost view = { λ s. s.items.items };
}

impl<T> Seq<T> {
    ghost use Rattle.gd_syntax.specs.Lending.{lends_items};

    /// The list of these items.
    pub fn of(items: Vec<T>) -> Seq<T>
        ensures { result ≡ items.items }
    {
        Seq { items }
    }

    /// The items in order.
    pub fn items(&self) -> &[T]
        ensures { result.now ≡ self.now }
    {
        self.items.as_slice()
    }

    /// The items in order, to be changed in place: their number stays.
    pub fn items_mut(&mut self) -> &mut [T]
        ensures* writes_back { sem 𝓛 (lends_items T.row self.entry result) }
        ensures value { result.now ≡ self.old }
    {
        self.items.as_mut_slice()
    }
}
