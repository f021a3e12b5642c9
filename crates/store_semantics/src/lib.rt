//! What a run's store means: the things made, what holds them and how they go, start values, subscripts, tests and casts, the
//! methods that write, and which branch of a `match` is taken (`specs/`; docs/runtime.md).
#![tactic(auto)]

ghost use Rattle.std.specs.Prelude.{◌≡◌, ℕ, List, Result};
ghost use Rattle.gd_model.specs.declared.fault.RunFault.{RunFault};
ghost use Rattle.gd_model.specs.declared.ty.Ty.{Ty};
ghost use Rattle.gd_model.specs.Datum.{Datum};
ghost use Rattle.gd_model.specs.Store.{Store};
ghost use Rattle.store_semantics.specs.Starts.{start};
ghost use Rattle.store_semantics.specs.Tests.{is_of, cast};
ghost use Rattle.store_semantics.specs.Trials.{TwoRounds, BothStay, RingStays, FromTheEnd, Beyond, Frozen, NoKey, Appended, Popped, Tested, SecondBranch};
ghost use Rattle.store_semantics.specs.World.{World};
ghost use Rattle.store_semantics.specs.Writes.{resize};

/// The definitions tried on small stores.
pub fn trials()
    ensures rounds { TwoRounds }
    ensures stays { BothStay }
    ensures ring { RingStays }
    ensures end { FromTheEnd }
    ensures beyond { Beyond }
    ensures frozen { Frozen }
    ensures key { NoKey }
    ensures appended { Appended }
    ensures popped { Popped }
    ensures tested { Tested }
    ensures branch { SecondBranch }
{}
