//! Attributes of values, and the receiver's own variables.
ghost use Rattle.std.specs.Prelude.{◌≡◌, ◌+◌, ◌<◌, None, length, IfOk};
ghost use Rattle.gd_holding.specs.Handles.{value_handle};

use crate::entering::{Entry, enter};
use crate::fitting::test_last;
use crate::layout::{Field, Member};
use crate::machine::Machine;
use crate::site::Site;
use crate::stop::{Done, Stop, broken, fault};
use crate::subscripts::{push_entry, set_at_name};
use crate::tables::View;
use gd_model::{Key, RunFault, Shared, SignalSource, Target, Value};
use gd_syntax::Text;
use slot_arena::Handle;
use std::alloc::Global;

/// The attribute at a site of the value on the top comes in its place.
#[inline(never)]
pub fn read_attribute(
    alloc: Global,
    view: View<'_>,
    machine: &mut Machine,
    site: &mut Site,
) -> Done {
    let base = machine.below(0)?;
    machine.make_room()?;
    if let Some(class) = machine.heap.class_at(base) {
        let member = site.member(&view.tables.layout, class);
        return read_member(alloc, view, machine, base, class, site.name, member);
    }
    match machine.heap.value(base) {
        Value::Nil => fault(RunFault::NullReceiver),
        Value::Dict(_) => read_entry(view, machine, base, site.name),
        _ => fault(RunFault::NoSuchMember),
    }
}

// The value at the name as a key.
fn read_entry(view: View<'_>, machine: &mut Machine, base: usize, name: u32) -> Done
    requires there { base < length machine.old.heap.values }
    requires room { length machine.old.heap.values < machine.old.heap.slots }
{
    let Some(text) = view.tables.layout.names.text(name) else {
        return Err(broken());
    };
    let key = Key::Str(text.share()?);
    push_entry(machine, base, &key)?;
    machine.keep_last(1)
}

// A member of the object on the top.
fn read_member(
    alloc: Global,
    view: View<'_>,
    machine: &mut Machine,
    base: usize,
    class: u32,
    name: u32,
    member: Option<Member>,
) -> Done
    requires there { base < length machine.old.heap.values }
    requires room { length machine.old.heap.values < machine.old.heap.slots }
{
    match member {
        Some(Member::Field(field)) => read_field(view, machine, base, class, field),
        Some(Member::Static(found)) => {
            machine.push_copy(found.place)?;
            machine.keep_last(1)
        }
        Some(Member::Method(_)) => read_method(alloc, view, machine, base, class, name),
        Some(Member::Signal) => read_signal(alloc, view, machine, base, name),
        None => fault(RunFault::NoSuchMember),
    }
}

// A variable of the object on the top, by its getter where it has one.
fn read_field(view: View<'_>, machine: &mut Machine, base: usize, class: u32, field: Field) -> Done
    requires there { base < length machine.old.heap.values }
    requires room { length machine.old.heap.values < machine.old.heap.slots }
{
    if let Some(getter) = field.getter {
        return enter(
            view,
            machine,
            Entry {
                function: getter as usize,
                given: 0,
                floor: base,
                me: base,
                is_taken: true,
            },
        );
    }
    if !machine
        .heap
        .push_variable(base, class, field.place as usize)?
    {
        return Err(broken());
    }
    machine.keep_last(1)
}

// A function of the object on the top, as a Callable.
fn read_method(
    alloc: Global,
    view: View<'_>,
    machine: &mut Machine,
    base: usize,
    class: u32,
    name: u32,
) -> Done
    requires { base < length machine.old.heap.values }
{
    let Value::Object(h) = machine.heap.value(base) else {
        return Err(broken());
    };
    let target = Target {
        object: Some(*h),
        class,
        name: named(view, name)?,
    };
    let callable = Value::Callable(Shared::new(alloc, target)?);
    machine.give_free(1, callable)
}

// A signal of the object on the top.
fn read_signal(alloc: Global, view: View<'_>, machine: &mut Machine, base: usize, name: u32) -> Done
    requires { base < length machine.old.heap.values }
{
    let Value::Object(h) = machine.heap.value(base) else {
        return Err(broken());
    };
    let signal = signal_of(alloc, *h, named(view, name)?)?;
    machine.give_free(1, signal)
}

fn signal_of(alloc: Global, emitter: Handle, name: Text) -> Result<Value, Stop>
    ensures { IfOk result (λ x. value_handle x ≡ None) }
{
    Ok(Value::Signal(Shared::new(alloc, SignalSource { emitter, name })?))
}

// The text of a name.
fn named(view: View<'_>, name: u32) -> Result<Text, Stop> {
    match view.tables.layout.names.text(name) {
        Some(text) => Ok(text.share()?),
        None => Err(broken()),
    }
}

/// Writes the value on the top to the attribute at a site of the base below it.
#[inline(never)]
pub fn write_attribute(view: View<'_>, machine: &mut Machine, site: &mut Site) -> Done {
    let base = machine.below(1)?;
    if let Some(class) = machine.heap.class_at(base) {
        let member = site.member(&view.tables.layout, class);
        return write_member(view, machine, base, member);
    }
    match machine.heap.value(base) {
        Value::Nil => fault(RunFault::NullReceiver),
        Value::Dict(_) => {
            let Some(name) = view.tables.layout.names.text(site.name) else {
                return Err(broken());
            };
            set_at_name(view, machine, base, name)?;
            machine.drop_values(2)
        }
        _ => fault(RunFault::NoSuchMember),
    }
}

fn write_member(view: View<'_>, machine: &mut Machine, base: usize, member: Option<Member>) -> Done
    requires { base + 1 < length machine.old.heap.values }
{
    match member {
        Some(Member::Field(field)) => write_field(view, machine, base, field),
        Some(Member::Static(found)) => {
            test_last(view, machine, found.typed as usize)?;
            machine.store(found.place)?;
            machine.drop_values(1)
        }
        Some(Member::Method(_)) | Some(Member::Signal) | None => fault(RunFault::NoSuchMember),
    }
}

// Into a variable, through its setter where it has one.
fn write_field(view: View<'_>, machine: &mut Machine, base: usize, field: Field) -> Done
    requires { base + 1 < length machine.old.heap.values }
{
    test_last(view, machine, field.typed as usize)?;
    if let Some(setter) = field.setter {
        return enter(
            view,
            machine,
            Entry {
                function: setter as usize,
                given: 1,
                floor: base,
                me: base,
                is_taken: false,
            },
        );
    }
    if !machine.heap.swap_variable(base, field.place as usize) {
        return Err(broken());
    }
    machine.drop_values(2)
}

/// Pushes the receiver's variable at a site, without accessors.
#[inline(always)]
pub fn read_own(view: View<'_>, machine: &mut Machine, site: &mut Site) -> Done {
    machine.make_room()?;
    let me = machine.frame.me;
    if me >= machine.heap.len() {
        return fault(RunFault::NoSuchMember);
    }
    let Some(class) = machine.heap.class_at(me) else {
        return fault(RunFault::NoSuchMember);
    };
    let Some(field) = site.field(&view.tables.layout, class) else {
        return fault(RunFault::NoSuchMember);
    };
    if machine.heap.push_variable(me, class, field.place as usize)? {
        Ok(())
    } else {
        Err(broken())
    }
}

/// Writes the value on the top to the receiver's variable at a site, without accessors.
#[inline(always)]
pub fn write_own(view: View<'_>, machine: &mut Machine, site: &mut Site) -> Done {
    let me = machine.frame.me;
    if me.saturating_add(1) >= machine.heap.len() {
        return fault(RunFault::NoSuchMember);
    }
    let Some(class) = machine.heap.class_at(me) else {
        return fault(RunFault::NoSuchMember);
    };
    let Some(field) = site.field(&view.tables.layout, class) else {
        return fault(RunFault::NoSuchMember);
    };
    test_last(view, machine, field.typed as usize)?;
    if !machine.heap.swap_variable(me, field.place as usize) {
        return Err(broken());
    }
    machine.drop_values(1)
}

/// Pushes a static function as a Callable.
#[inline(never)]
pub fn push_function(
    alloc: Global,
    view: View<'_>,
    machine: &mut Machine,
    function: usize,
) -> Done {
    let Some(of) = view.program.functions.items().get(function) else {
        return Err(broken());
    };
    let Some(name) = view.text(of.name as usize) else {
        return Err(broken());
    };
    let target = Target {
        object: None,
        class: of.class.wrapping_add(1),
        name: name.share()?,
    };
    machine.push_free(Value::Callable(Shared::new(alloc, target)?))
}
