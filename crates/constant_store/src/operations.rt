//! Operators on values of constants.
ghost use Rattle.std.specs.Prelude.{◌≡◌, true, IfOk};
ghost use Rattle.gd_model.specs.Meant.{datum};
ghost use Rattle.value_semantics.specs.Operators as spec;
ghost use Rattle.constant_store.specs.Operations.{Keeps};
ghost use Rattle.constant_store.specs.Things.{is_held, no_names, store_of};

use crate::{ConstantStore, ConstantThing};
use gd_answers::Fresh;
use gd_containers::ThingFault;
use gd_model::Value;
use gd_operators::{apply, truth};
use gd_syntax::Operator;

impl ConstantStore {
    /// What the operator gives on the values; `b` counts for nothing where the operator takes one. A new array becomes a thing
    /// of the store. The faults are those of docs/runtime.md, "Operators".
    pub fn operator(&mut self, op: Operator, a: &Value, b: &Value) -> Result<Value, ThingFault>
        requires left { is_held self.old (datum a.now) ≡ true }
        requires right { is_held self.old (datum b.now) ≡ true }
        ensures value { Keeps self.old self.new (spec.applied (store_of self.old) no_names op (datum a.now) (datum b.now)) result }
        ensures held { IfOk result (λ v. is_held self.new (datum v) ≡ true) }
    {
        let alloc = self.allocator();
        match apply(alloc, op, a, b, &*self)? {
            Fresh::Value(v) => Ok(v),
            Fresh::Array(mut array) => {
                array.fix();
                Ok(self.keep(ConstantThing::Array(array))?)
            }
            Fresh::Dict(mut dict) => {
                dict.fix();
                Ok(self.keep(ConstantThing::Dict(dict))?)
            }
        }
    }

    /// Whether the value counts as true: all do but null, `false`, 0, `""` and what has no elements.
    pub fn truth(&self, v: &Value) -> bool
        requires { is_held self.now (datum v.now) ≡ true }
        ensures { result ≡ spec.truth (store_of self.now) (datum v.now) }
    {
        let _alloc = self.allocator();
        truth(v, self)
    }
}
