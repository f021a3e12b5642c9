//! Laws of what the operators mean.
ghost use Rattle.std.specs.Prelude.{◌≡◌, false, Err};
ghost use Rattle.gd_syntax.specs.declared.operator.Operator.{Operator};
ghost use Rattle.gd_model.specs.declared.fault.RunFault.TheVariants.{BadOperands};
ghost use Rattle.gd_model.specs.Datum.{Datum};
ghost use Rattle.gd_model.specs.Store.{Store, Names};
ghost use Rattle.value_semantics.specs.Kinds.{kind_of, takes, is_membership};
ghost use Rattle.value_semantics.specs.Operators.{others_give};

/// An operator, but for `in` and `not in`, refuses operands of kinds that its row does not have as bad ones.
#[tactic(auto, using(crate::proofs::Refused::untaken))]
pub fn untaken()
    ensures { (store : Store) (names : Names) (op : Operator) (a b : Datum) → is_membership op ≡ false → takes op (kind_of a) (kind_of b) ≡ false → others_give store names op a b ≡ Err BadOperands }
{}
