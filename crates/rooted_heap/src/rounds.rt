//! What nothing holds is taken out, in rounds.
ghost use Rattle.std.specs.Prelude.{◌≡◌, ◌↔◌, [], IfNone, IfSome, IsTrue};
ghost use Rattle.rooted_heap.specs.Rooted.{Releases, running};

use crate::RootedHeap;
use crate::uncounted::settle;

impl RootedHeap {
    /// Whether each thing is held: whether `settle_one` would answer `None`.
    pub fn is_settled(&self) -> bool
        ensures { IsTrue result ↔ (running self.now ≡ []) }
    {
        self.heap.is_settled()
    }

    /// Takes out the thing of least serial number in the running round, and gives up what it holds; where that round is at
    /// its end, the next is all things that nothing holds. Answers the thing's serial number and, of an object, its class.
    /// `None` exactly where each thing is held.
    pub fn settle_one(&mut self) -> Option<(u64, Option<u32>)>
        ensures settled { IfNone result (running self.old ≡ []) }
        ensures same { IfNone result (self.new ≡ self.old) }
        ensures released { IfSome result (λ r. Releases self.old r.0 r.1 self.new) }
    {
        self.heap.rising_law();
        let released = settle(&mut self.heap)?;
        Some(released)
    }
}
