//! Whether values fit types of the program.
ghost use Rattle.gd_model.specs.Whole.{Whole, AllWhole};

use crate::machine::Machine;
use crate::stop::{Done, Stop, broken, fault};
use crate::tables::View;
use assignability::fits;
use gd_containers::Look;
use gd_model::{RunFault, Ty, Value};

/// Whether a value fits a type.
#[inline(always)]
pub fn fits_ty<K: Look>(view: View<'_>, ty: &Ty, value: &Value, things: &K) -> bool
    requires { Whole (K.things things.now) (K.names things.now) value.now }
{
    match (ty, value) {
        (Ty::Variant, _) => true,
        (Ty::Int, Value::Int(_)) => true,
        _ => fits(&view.tables.layout.parents, things, ty, value),
    }
}

/// Whether a value fits the type with this index.
#[inline(always)]
pub fn fits_type<K: Look>(view: View<'_>, typed: usize, value: &Value, things: &K) -> bool
    requires { Whole (K.things things.now) (K.names things.now) value.now }
{
    match view.ty(typed) {
        Some(ty) => fits_ty(view, ty, value, things),
        None => false,
    }
}

/// Whether the value on the top fits the type with this index.
#[inline(always)]
pub fn last_fits(view: View<'_>, machine: &Machine, typed: usize) -> bool {
    if machine.heap.len() == 0 {
        return false;
    }
    let (value, things) = machine.heap.last();
    fits_type(view, typed, value, &things)
}

/// The value on the top is tested against the type with this index.
#[inline(always)]
pub fn test_last(view: View<'_>, machine: &Machine, typed: usize) -> Done {
    if last_fits(view, machine, typed) {
        Ok(())
    } else {
        fault(RunFault::ValueOfAnotherType)
    }
}

/// Whether each of the last values fits the type of a parameter, from the one with this place in the list of all on.
pub fn arguments_fit(
    view: View<'_>,
    machine: &Machine,
    types: usize,
    given: usize,
) -> Result<bool, Stop> {
    if given > machine.heap.len() {
        return Err(broken());
    }
    let (values, things) = machine.heap.last_values(given);
    Ok(all_fit(view, types, values, &things))
}

// Whether each of these values fits the type of a parameter.
fn all_fit<K: Look>(view: View<'_>, types: usize, values: &[Value], things: &K) -> bool
    requires { AllWhole (K.things things.now) (K.names things.now) values.now }
{
    for k in 0..values.len() {
        let typed = view.tables.param_types.get(types.wrapping_add(k)).copied();
        if !fits_type(view, typed.unwrap_or(NO_TYPE), &values[k], things) {
            return false;
        }
    }
    true
}

/// The index of no type.
const NO_TYPE: usize = 18_446_744_073_709_551_615;

/// Whether the value on the top is of a type: it fits, and null is of no type but Variant.
pub fn is_of(view: View<'_>, machine: &mut Machine, typed: usize) -> Done {
    if machine.heap.len() == 0 {
        return Err(broken());
    }
    let (value, things) = machine.heap.last();
    let is_null = matches!(value, Value::Nil);
    let is_variant = matches!(view.ty(typed), Some(Ty::Variant));
    let answer = fits_type(view, typed, value, &things) && (is_variant || !is_null);
    machine.give_free(1, Value::Bool(answer))
}

/// The value on the top as one of a type.
pub fn cast(view: View<'_>, machine: &mut Machine, typed: usize) -> Done {
    if machine.heap.len() == 0 {
        return Err(broken());
    }
    let (value, things) = machine.heap.last();
    if fits_type(view, typed, value, &things) {
        return Ok(());
    }
    let made = match (view.ty(typed), value) {
        (Some(Ty::Class(_)), _) => Value::Nil,
        (Some(Ty::Int), Value::Bool(b)) => Value::Int(if *b { 1 } else { 0 }),
        (Some(Ty::Bool), Value::Int(n)) => Value::Bool(*n != 0),
        _ => return fault(RunFault::BadCast),
    };
    machine.give_free(1, made)
}
