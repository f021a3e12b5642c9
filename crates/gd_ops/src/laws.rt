//! Laws of what operators and builtins mean: the functions here state them, and do nothing.
ghost use Rattle.std.specs.Prelude.{◌≡◌, ℕ, List, Bool, true, false, None, Some, Err};
ghost use Rattle.gd_syntax.specs.declared.operator.Operator.{Operator};
ghost use Rattle.gd_model.specs.declared.fault.RunFault.{RunFault};
ghost use Rattle.gd_model.specs.declared.fault.RunFault.TheVariants.{BadOperands};
ghost use Rattle.gd_model.specs.declared.ty.Ty.{Ty};
ghost use Rattle.gd_model.specs.Datum.{Datum, null};
ghost use Rattle.gd_model.specs.Store.{Names, Store};
ghost use Rattle.assignability.specs.Fits.{fits};
ghost use Rattle.value_semantics.specs.declared.builtin.Builtin.{Builtin};
ghost use Rattle.value_semantics.specs.declared.kind.Kind.{Kind};
ghost use Rattle.value_semantics.specs.declared.rows.Given.{Given};
ghost use Rattle.value_semantics.specs.BuiltinRows.{row_of};
ghost use Rattle.value_semantics.specs.Builtins.{called};
ghost use Rattle.value_semantics.specs.Kinds.{kind_of, kind_of_type, right_kind, takes, is_unary, fits_kind, result_type};
ghost use Rattle.value_semantics.specs.Operators.{applied};
ghost use Rattle.value_semantics.specs.Parameters.{call_fault, is_of_call};

/// Where there is the operator for the kinds of the operands, and null on the right of one that takes one operand, it
/// does not refuse them as bad operands.
pub fn no_bad_operands()
    ensures { (store : Store) (names : Names) (op : Operator) (a : Datum) (b : Datum)
        → takes op (kind_of a) (kind_of b) ≡ true → (is_unary op ≡ true → b ≡ null) → ¬ (applied store names op a b ≡ Err BadOperands) }
{}

/// A value that fits a type is of the kind of the type's values.
pub fn fitting_values_are_of_the_kind()
    ensures { (bases : ℕ → List ℕ) (store : Store) (t : Ty) (k : Kind) (a : Datum)
        → kind_of_type t ≡ Some k → fits bases store t a ≡ true → fits_kind k (kind_of a) ≡ true }
{}

/// Where `result_type` gives a type for operands whose types are known, the values fit these types, and null stands on
/// the right of an operator that takes one operand, it does not refuse them as bad operands.
pub fn known_types_have_no_bad_operands()
    ensures { (bases : ℕ → List ℕ) (store : Store) (names : Names) (op : Operator) (s : Ty) (t : Ty) (same : Bool)
        (g : Given) (k : Kind) (l : Kind) (a : Datum) (b : Datum)
        → result_type op s t same ≡ Some g → kind_of_type s ≡ Some k → right_kind op t ≡ Some l
        → fits bases store s a ≡ true → (is_unary op ≡ true → b ≡ null)
        → (is_unary op ≡ false → fits bases store t b ≡ true) → ¬ (applied store names op a b ≡ Err BadOperands) }
{}

/// A builtin refuses a call that its row does not take with the fault that the row gives: the receiver's, or that of
/// the number of the arguments, or that of their kinds.
pub fn misfits_are_refused()
    ensures { (store : Store) (names : Names) (builtin : Builtin) (args : List Datum) (f : RunFault)
        → call_fault (row_of builtin) args ≡ Some f → called store names builtin args ≡ Err f }
{}

/// A call that the row takes is refused for no receiver, and for neither the number nor the kinds of its arguments.
pub fn fitting_calls_are_taken()
    ensures { (store : Store) (names : Names) (builtin : Builtin) (args : List Datum) (f : RunFault)
        → call_fault (row_of builtin) args ≡ None → called store names builtin args ≡ Err f → is_of_call f ≡ false }
{}
