//! The order of items by what they need.
ghost use Rattle.std.specs.Prelude.{◌≡◌, All, Contains, IfOk};
ghost use Rattle.cycle_resolver.specs.Unfold.{IsOpen};
ghost use Rattle.cycle_resolver.specs.Order.{AreDistinct, Orders, after_order};

use crate::found::Order;
use crate::unfold::Unfold;
use crate::walk::Walk;
use gd_members::Item;
use gd_syntax::Seq;
use no_memory::NoMemory;
use std::alloc::Global;

/// Settles distinct items, none of which is settled and which need none but one another. Each is visited at most twice
/// for each time that it is met, without recursion. After `NoMemory` items may have been settled in `visitor`.
pub fn order<U: Unfold>(alloc: Global, items: &[Item], visitor: &mut U) -> Result<Order, NoMemory>
    requires distinct { AreDistinct items.now }
    requires open { All (IsOpen (U.settled visitor.old)) items.now }
    requires among { All (λ item. All (Contains items.now) (U.needs visitor.old item)) items.now }
    ensures needs { U.needs visitor.new ≡ U.needs visitor.old }
    ensures order { IfOk result (Orders (U.needs visitor.old) items.now) }
    ensures settled { IfOk result (λ found. U.settled visitor.new ≡ after_order (U.settled visitor.old) found) }
{
    let mut walk = Walk::new(alloc);
    for &item in items {
        if walk.met.insert(item)? {
            walk.path.push(item)?;
        }
        while let Some(top) = walk.path.pop() {
            walk.step(alloc, visitor, top)?;
        }
    }
    Ok(Order {
        sequence: Seq::of(walk.sequence),
        cyclic: Seq::of(walk.cyclic),
    })
}
