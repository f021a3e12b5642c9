//! The values with which a run begins: those of constants, and of static variables before their initial values.
use crate::giving::{push_array, push_dict};
use crate::machine::{Held, Machine};
use crate::methods::spelled;
use crate::starting::push_start;
use crate::stop::{Done, Stop, broken};
use crate::tables::View;
use gd_bytecode::{ConstKind, ConstThing, Operand, Tag};
use gd_containers::{OrderedDict, TypedArray, key_of};
use gd_model::{Ty, Value};
use gd_syntax::{Seq, Text};
use no_memory::NoMemory;
use std::alloc::Global;

/// The names of the classes by number.
pub fn class_names(alloc: Global, view: View<'_>) -> Result<Seq<Text>, NoMemory> {
    let mut names = Vec::new(alloc);
    names.push(spelled(alloc, "RefCounted")?)?;
    for class in view.program.classes.items() {
        let name = match view.text(class.name as usize) {
            Some(text) => text.share()?,
            None => view.tables.empty.share()?,
        };
        names.push(name)?;
    }
    Ok(Seq::of(names))
}

/// Pushes the values of the constants, in order.
pub fn push_constants(alloc: Global, view: View<'_>, machine: &mut Machine) -> Done {
    for constant in view.program.constants.items() {
        machine.make_room()?;
        match constant.kind {
            ConstKind::Array => {
                let array = array_of(alloc, view, &machine.heap, constant)?;
                push_array(machine, array)?;
            }
            ConstKind::Dict | ConstKind::DictOf => {
                let dict = dict_of(alloc, view, &machine.heap, constant)?;
                push_dict(machine, dict)?;
            }
        }
    }
    Ok(())
}

// The value of an operand, of which a constant was made before.
fn operand_value(view: View<'_>, heap: &Held, operand: Operand) -> Result<Value, Stop> {
    let n = operand.number as usize;
    Ok(match operand.tag {
        Tag::Null => Value::Nil,
        Tag::False => Value::Bool(false),
        Tag::True => Value::Bool(true),
        Tag::Int => Value::Int(view.program.ints.items().get(n).copied().unwrap_or(0)),
        Tag::Text => match view.text(n) {
            Some(text) => Value::Str(text.share()?),
            None => return Err(broken()),
        },
        Tag::Constant if n < heap.len() => heap.value(n).share()?,
        Tag::Constant => return Err(broken()),
    })
}

fn array_of(
    alloc: Global,
    view: View<'_>,
    heap: &Held,
    constant: &ConstThing,
) -> Result<TypedArray, Stop> {
    let Some(element) = view.ty(constant.typed as usize) else {
        return Err(broken());
    };
    let mut array = TypedArray::new(alloc, element.copy(alloc)?, false);
    for operand in constant.operands.items() {
        let value = operand_value(view, heap, *operand)?;
        array.push(value, true)?;
    }
    array.fix();
    Ok(array)
}

fn dict_of(
    alloc: Global,
    view: View<'_>,
    heap: &Held,
    constant: &ConstThing,
) -> Result<OrderedDict, Stop> {
    let mut dict = match view.ty(constant.typed as usize) {
        Some(Ty::DictOf(key, value)) if constant.kind == ConstKind::DictOf => {
            let key = key.get().copy(alloc)?;
            let value = value.get().copy(alloc)?;
            OrderedDict::of(alloc, false, key, value)
        }
        _ => OrderedDict::new(alloc, false),
    };
    for pair in constant.operands.items().chunks(2) {
        let [key, value] = pair else {
            return Err(broken());
        };
        let key = key_of(&operand_value(view, heap, *key)?)?;
        let value = operand_value(view, heap, *value)?;
        dict.put(key, value, true)?;
    }
    dict.fix();
    Ok(dict)
}

/// Pushes the values with which the static variables begin, in order.
pub fn push_statics(alloc: Global, view: View<'_>, machine: &mut Machine) -> Done {
    for class in view.program.classes.items() {
        for variable in class.variables.items() {
            if !variable.is_static {
                continue;
            }
            let Some(ty) = view.ty(variable.typed as usize) else {
                return Err(broken());
            };
            push_start(alloc, machine, ty, &view.tables.empty)?;
        }
    }
    Ok(())
}
