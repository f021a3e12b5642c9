//! Which values of constants fit a type, and which are one key.
ghost use Rattle.std.specs.Prelude.{◌≡◌, ℕ, List, [], true, IfOk};
ghost use Rattle.gd_model.specs.Meant.{datum};
ghost use Rattle.gd_model.specs.Same as meant;
ghost use Rattle.gd_model.specs.declared.ty.Ty.TheVariants as ty;
ghost use Rattle.assignability.specs.Assign as assigned;
ghost use Rattle.assignability.specs.Fits as fitting;
ghost use Rattle.store_semantics.specs.Tests as spec;
ghost use Rattle.value_semantics.specs.Answer.{in_form};
ghost use Rattle.constant_store.specs.Things.{is_held, store_of};

use crate::ConstantStore;
use assignability::{Bases, fits};
use gd_model::{RunFault, Ty, Value};

/// The bases of classes where no object is tested: none counts.
struct NoBases;

impl Bases for NoBases {
    ghost bases = { λ b c. [] };

    fn is_base(&self, _class: u32, _base: u32) -> bool {
        false
    }
}

impl ConstantStore {
    /// Whether the value fits the type. No constant holds an object, so that the bases of classes count for nothing.
    pub fn fits(&self, t: &Ty, v: &Value) -> bool
        requires { is_held self.now (datum v.now) ≡ true }
        ensures { (bases : ℕ → List ℕ) → result ≡ fitting.fits bases (store_of self.now) t.now (datum v.now) }
    {
        let _alloc = self.allocator();
        fits(&NoBases, self, t, v)
    }

    /// `v is t`: whether the value fits the type, null being of no type but Variant.
    pub fn is_of(&self, t: &Ty, v: &Value) -> bool
        requires { is_held self.now (datum v.now) ≡ true }
        ensures { (bases : ℕ → List ℕ) → result ≡ spec.is_of bases (store_of self.now) t.now (datum v.now) }
    {
        self.fits(t, v) && (is_variant(t) || !is_null(v))
    }

    /// `v as t`: the value where it fits the type, else null for a class, and between bool and int the other's value. `BadCast`
    /// for all else.
    pub fn cast(&self, t: &Ty, v: Value) -> Result<Value, RunFault>
        requires { is_held self.now (datum v) ≡ true }
        ensures value { (bases : ℕ → List ℕ) → in_form datum result ≡ spec.cast bases (store_of self.now) t.now (datum v) }
        ensures held { IfOk result (λ x. is_held self.now (datum x) ≡ true) }
    {
        if self.fits(t, &v) {
            return Ok(v);
        }
        converted(t, &v)
    }
}

fn is_variant(t: &Ty) -> bool
    ensures { result ≡ assigned.is_variant t.now }
{
    matches!(t, Ty::Variant)
}

fn is_null(v: &Value) -> bool
    ensures { result ≡ spec.is_null (datum v.now) }
{
    matches!(v, Value::Nil)
}

/// What a value that does not fit the type is cast to.
fn converted(t: &Ty, v: &Value) -> Result<Value, RunFault>
    ensures { in_form datum result ≡ spec.converted t.now (datum v.now) }
{
    match t {
        Ty::Class(_) => Ok(Value::Nil),
        Ty::Int => int_of(v),
        Ty::Bool => bool_of(v),
        _ => Err(RunFault::BadCast),
    }
}

fn int_of(v: &Value) -> Result<Value, RunFault>
    ensures { in_form datum result ≡ spec.converted ty.Int (datum v.now) }
{
    match v {
        Value::Bool(b) => Ok(Value::Int(if *b { 1 } else { 0 })),
        _ => Err(RunFault::BadCast),
    }
}

fn bool_of(v: &Value) -> Result<Value, RunFault>
    ensures { in_form datum result ≡ spec.converted ty.Bool (datum v.now) }
{
    match v {
        Value::Int(n) => Ok(Value::Bool(*n != 0)),
        _ => Err(RunFault::BadCast),
    }
}

/// Whether the two are one key of a dictionary. What is no key is none. For many keys at once, `gd_containers::key_of` gives keys that
/// hashed tables take.
pub fn same_key(a: &Value, b: &Value) -> bool
    ensures { result ≡ meant.same_key (datum a.now) (datum b.now) }
{
    match (a, b) {
        (Value::Nil, Value::Nil) => true,
        (Value::Bool(x), Value::Bool(y)) => *x == *y,
        (Value::Int(x), Value::Int(y)) => *x == *y,
        (Value::Str(x), Value::Str(y)) => *x == *y,
        (Value::Object(h), Value::Object(i)) => h.serial == i.serial,
        _ => false,
    }
}
