//! What tests on the connections of one emitter find and pick.
ghost use Rattle.std.specs.Prelude.{◌≡◌, filter, not, IfOk};
ghost use Rattle.std.specs.List.{list_any};
ghost use Rattle.gd_signals.specs.Connections.{is_between, links_of};

use crate::connection::Connection;
use gd_model::{Shared, Target};
use gd_syntax::Text;
use no_memory::NoMemory;
use std::alloc::Global;

/// Whether a connection of this signal to this target is there.
pub fn contains_between(all: &[Connection], signal: &Text, to: &Target) -> bool
    ensures { result ≡ list_any (is_between signal.now to.now) all.now }
{
    all.iter().any(|c| c.is_between(signal, to))
}

/// Removes it.
pub fn remove_between(all: &mut Vec<Connection>, signal: &Text, to: &Target)
    ensures { all.new.items ≡ filter (λ c. not (is_between signal.now to.now c)) all.old.items }
{
    all.retain(|c| !c.is_between(signal, to));
}

/// The targets of a signal in order, each with whether it goes with its first call.
pub fn targets_of(
    alloc: Global,
    all: &[Connection],
    signal: &Text,
) -> Result<Vec<(Shared<Target>, bool)>, NoMemory>
    ensures { IfOk result (λ v. v.items ≡ links_of signal.now all.now) }
{
    let mut targets = Vec::new(alloc);
    for c in all {
        if c.is_of(signal) {
            targets.push((c.to.share()?, c.one_shot))?;
        }
    }
    Ok(targets)
}
