//! All connections of a run.
ghost use Rattle.std.specs.Prelude.{◌≡◌, ◌++◌, [], ◌∷◌, ℕ, List, pos, nat_eq, IfOk, OnErr, OnOk, if◌then◌else◌};
ghost use Rattle.gd_signals.specs.Connections.{links, of_emitter, is_linked, may_connect, connected, without, changed_at, forgotten};

use crate::connection::Connection;
use crate::lists::{contains_between, remove_between, targets_of};
use gd_model::{Shared, Target};
use gd_syntax::Text;
use indexmap::IndexMap;
use no_memory::NoMemory;
use std::alloc::Global;
use std::marker::Model;

/// The flag of a connection that goes with its first call.
pub const CONNECT_ONE_SHOT: i64 = 4;

/// What `connect` answers where it refuses.
pub const REFUSED: i64 = 31;

/// The connections of each emitter, in the order in which they were made. Each call takes the time of those of one
/// emitter.
#[derive(Drop)]
pub struct Connections {
    /// By the serial number of the emitter.
    emitters: IndexMap<u64, Vec<Connection>>,
    alloc: Global,
}

impl Model for Connections {
    ghost use Rattle.std.specs.Prelude.{map};
    ghost use Rattle.gd_signals.specs.Connections.{Emitters};
    ghost use Rattle.gd_signals.specs.contracts.connection.Connection as the_connection;
    ghost use Rattle.std.specs.Coded.{codes};

    ghost Value = { Emitters };

    ghost coded = { Prim.hlevel (codes, the_connection.the_row.coded) };

    ghost view = { λ c. map (λ e. (e.0, e.1.items)) c.emitters.entries };
}

impl Connections {
    /// No connections. It takes no memory.
    pub fn new(alloc: Global) -> Connections
        ensures { (e : ℕ) (s : List ℕ) → links result e s ≡ [] }
    {
        Connections {
            emitters: IndexMap::new(alloc),
            alloc,
        }
    }

    /// Adds a target to the list of a signal and answers 0, or answers 31 where the flags are neither 0 nor 4 or the
    /// target is in the list already. After `NoMemory` nothing has changed.
    pub fn connect(
        &mut self,
        emitter: u64,
        signal: &Text,
        to: Shared<Target>,
        flags: i64,
    ) -> Result<i64, NoMemory>
        ensures answer { IfOk result (λ n. n ≡ (if may_connect (links self.old emitter signal.now) to flags then pos 0 else pos 31)) }
        ensures added { OnOk result ((e : ℕ) (s : List ℕ) → links self.new e s ≡ changed_at emitter signal.now (λ list. connected list to flags) self.old e s) }
        ensures refused { OnErr result ((e : ℕ) (s : List ℕ) → links self.new e s ≡ links self.old e s) }
    {
        let one_shot = flags == CONNECT_ONE_SHOT;
        if (flags != 0 && !one_shot) || self.is_connected(emitter, signal, to.get()) {
            return Ok(REFUSED);
        }
        let signal = signal.share()?;
        self.add(
            emitter,
            Connection {
                signal,
                to,
                one_shot,
            },
        )?;
        Ok(0)
    }

    /// Removes a target from the list of a signal. Answers whether it was there.
    pub fn disconnect(&mut self, emitter: u64, signal: &Text, to: &Target) -> bool
        ensures answer { result ≡ is_linked to.now (links self.old emitter signal.now) }
        ensures removed { (e : ℕ) (s : List ℕ) → links self.new e s ≡ changed_at emitter signal.now (without to.now) self.old e s }
    {
        let was = self.is_connected(emitter, signal, to);
        if let Some(all) = self.emitters.get_mut(&emitter) {
            remove_between(all, signal, to);
        }
        was
    }

    /// Whether a target is in the list of a signal.
    pub fn is_connected(&self, emitter: u64, signal: &Text, to: &Target) -> bool
        ensures { result ≡ is_linked to.now (links self.now emitter signal.now) }
    {
        contains_between(self.of(emitter), signal, to)
    }

    /// The list of a signal as an emission begins: each target with whether it goes with its first call.
    pub fn begin_emit(
        &self,
        alloc: Global,
        emitter: u64,
        signal: &Text,
    ) -> Result<Vec<(Shared<Target>, bool)>, NoMemory>
        ensures { IfOk result (λ v. v.items ≡ links self.now emitter signal.now) }
    {
        targets_of(alloc, self.of(emitter), signal)
    }

    /// Empties all lists of an emitter.
    pub fn forget(&mut self, emitter: u64)
        ensures { (e : ℕ) (s : List ℕ) → links self.new e s ≡ forgotten emitter self.old e s }
    {
        self.emitters.swap_remove(&emitter);
    }

    // The connections of an emitter.
    fn of(&self, emitter: u64) -> &[Connection]
        ensures { result.now ≡ of_emitter self.now emitter }
    {
        match self.emitters.get(&emitter) {
            Some(all) => all.as_slice(),
            None => &[],
        }
    }

    // Adds a connection at the end of those of its emitter. After `NoMemory` nothing has changed.
    fn add(&mut self, emitter: u64, connection: Connection) -> Result<(), NoMemory>
        ensures added { OnOk result ((e : ℕ) → of_emitter self.new e ≡ (if nat_eq emitter e then of_emitter self.old e ++ connection ∷ [] else of_emitter self.old e)) }
        ensures refused { OnErr result ((e : ℕ) → of_emitter self.new e ≡ of_emitter self.old e) }
    {
        if let Some(all) = self.emitters.get_mut(&emitter) {
            return Ok(all.push(connection)?);
        }
        let mut first = Vec::new(self.alloc);
        first.push(connection)?;
        self.emitters.insert(emitter, first)?;
        Ok(())
    }
}
