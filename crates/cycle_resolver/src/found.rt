//! What an order of items is.
use gd_members::Item;
use gd_syntax::Seq;

/// Items in the order in which they can be typed, and the items that cannot.
#[derive(Debug, Drop)]
pub struct Order {
    /// Each item stands behind those that it needs.
    pub sequence: Seq<Item>,
    /// The items from which needs lead to an item that needs itself.
    pub cyclic: Seq<Item>,
}
