//! Laws of counting: what a caller knows that counts each thing it holds.
ghost use Rattle.std.specs.Prelude.{◌≡◌, [], ℕ, ◌+◌, ◌^◌, ◌<◌, List, length, sum_by, Contains, IsSome};
ghost use Rattle.std.specs.List.Sorted.{IsPermutation};
ghost use Rattle.std.specs.Option.{ForSome};
ghost use Rattle.slot_arena.specs.declared.handle.Handle.{Handle};
ghost use Rattle.slot_arena.specs.Slots.{Entry, count_at, find_at};
ghost use Rattle.gd_holding.specs.Rounds.{unheld};
ghost use Rattle.gd_holding.specs.Holding.{AreCounted, IsCounted, IsHeld, filled, held_in, occurrences};

use gd_holding::Holds;

/// What the caller holds is held, so it can be kept and given up.
pub fn in_hand<T: Holds>()
    ensures { (es : List (Entry T)) (hand : List Handle) (h : Handle)
        → AreCounted T.places es hand → Contains hand h → IsHeld es h }
{}

/// What the caller holds is alive.
pub fn alive_in_hand<T: Holds>()
    ensures { (es : List (Entry T)) (hand : List Handle) (h : Handle)
        → AreCounted T.places es hand → Contains hand h → IsSome (find_at es h) }
{}

/// What a thing holds is alive.
pub fn alive_in_thing<T: Holds>()
    ensures { (es : List (Entry T)) (hand : List Handle) (e : Entry T) (h : Handle)
        → AreCounted T.places es hand → Contains es e → Contains (filled (T.places e.value)) h → IsSome (find_at es h) }
{}

/// The heap may settle.
pub fn may_settle<T: Holds>()
    ensures { (es : List (Entry T)) (hand : List Handle)
        → AreCounted T.places es hand → IsCounted (λ t. filled (T.places t)) es }
{}

/// The caller's handles may stand in any order.
pub fn any_order<T: Holds>()
    ensures { (es : List (Entry T)) (hand : List Handle) (left : List Handle)
        → IsPermutation hand left → AreCounted T.places es hand → AreCounted T.places es left }
{}

/// No count is above the number of handles in things and in the caller's hand.
pub fn few_holders<T: Holds>()
    ensures { (es : List (Entry T)) (hand : List Handle) (h : Handle)
        → AreCounted T.places es hand
        → sum_by (λ e. length (filled (T.places e.value))) es + length hand < 2 ^ 127
        → ForSome (count_at es h) (λ n. n < 2 ^ 127) }
{}

/// Where nothing waits to be taken out, each thing that is alive is named by a place of a thing or by the caller's hand.
pub fn all_held<T: Holds>()
    ensures { (es : List (Entry T)) (hand : List Handle) (e : Entry T)
        → AreCounted T.places es hand → unheld es ≡ [] → Contains es e
        → 0 < held_in (λ t. filled (T.places t)) es e.serial + occurrences e.serial hand }
{}
