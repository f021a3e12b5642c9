//! One connection.
ghost use Rattle.std.specs.Prelude.{◌≡◌};
ghost use Rattle.gd_model.specs.Meant.{callee};
ghost use Rattle.gd_model.specs.Same.{same_receiver, same_target};
ghost use Rattle.gd_signals.specs.Connections.{is_of, is_between, serial_of};

use gd_model::{Shared, Target};
use gd_syntax::Text;
use slot_arena::Handle;

/// A callable that is called when a signal of one emitter is emitted.
#[derive(Drop)]
pub struct Connection {
    /// The signal's name.
    pub signal: Text,
    pub to: Shared<Target>,
    /// The connection goes with the first call.
    pub one_shot: bool,
}

impl Connection {
    /// Whether it is of this signal.
    pub fn is_of(&self, signal: &Text) -> bool
        ensures { result ≡ is_of signal.now self.now }
    {
        self.signal == *signal
    }

    /// Whether it is of this signal, to this target.
    pub fn is_between(&self, signal: &Text, to: &Target) -> bool
        ensures { result ≡ is_between signal.now to.now self.now }
    {
        self.is_of(signal) && is_same_target(self.to.get(), to)
    }
}

// Whether two targets are one: of one object, or of no object and one class, under one name.
fn is_same_target(a: &Target, b: &Target) -> bool
    ensures { result ≡ same_target (callee a.now) (callee b.now) }
{
    is_same_receiver(a.object, b.object, a.class, b.class) && a.name == b.name
}

fn is_same_receiver(a: Option<Handle>, b: Option<Handle>, class: u32, other: u32) -> bool
    ensures { result ≡ same_receiver (serial_of a) (serial_of b) class other }
{
    match (a, b) {
        (None, None) => class == other,
        (Some(h), Some(i)) => h.serial == i.serial,
        _ => false,
    }
}
