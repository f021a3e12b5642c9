//! The keys of dictionaries.
ghost use Rattle.std.specs.Prelude.{◌≡◌, IfOk};

use gd_syntax::Text;
use no_memory::NoMemory;
use slot_arena::Handle;
use std::hash::{Hash, Hasher};

/// The key of a dictionary. Objects are keys by their identity, which is their serial number.
#[derive(Drop)]
pub enum Key {
    Nil,
    Bool(bool),
    Int(i64),
    Str(Text),
    Object(Handle),
}

impl Key {
    /// The same key once more.
    pub fn share(&self) -> Result<Key, NoMemory>
        ensures { IfOk result (λ k. k ≡ self.now) }
    {
        Ok(match self {
            Key::Nil => Key::Nil,
            Key::Bool(b) => Key::Bool(*b),
            Key::Int(n) => Key::Int(*n),
            Key::Str(text) => Key::Str(text.share()?),
            Key::Object(handle) => Key::Object(*handle),
        })
    }
}

impl PartialEq for Key {
    ghost use Rattle.std.specs.Cmp.{partial_equiv_from_equiv};
    ghost use Rattle.gd_model.specs.Key.{one_key, one_key-equiv};

    ghost eq = { one_key };

    ghost laws = { partial_equiv_from_equiv one_key-equiv };

    fn eq(&self, other: &Key) -> bool {
        match (self, other) {
            (Key::Nil, Key::Nil) => true,
            (Key::Bool(a), Key::Bool(b)) => *a == *b,
            (Key::Int(a), Key::Int(b)) => *a == *b,
            (Key::Str(a), Key::Str(b)) => *a == *b,
            (Key::Object(a), Key::Object(b)) => a.serial == b.serial,
            _ => false,
        }
    }
}

impl Eq for Key {
    ghost use Rattle.gd_model.specs.Key.{one_key-equiv};

    ghost laws = { one_key-equiv };
}

impl Hash for Key {
    ghost use Rattle.gd_model.specs.KeyHash.{key_hash_input, keys_fed_alike};

    ghost hash_input = { key_hash_input };

    ghost respects_eq = { keys_fed_alike.fed };

    fn hash<H: Hasher>(&self, state: &mut H) {
        match self {
            Key::Nil => state.write_u8(0),
            Key::Bool(b) => b.hash(state),
            Key::Int(n) => n.hash(state),
            Key::Str(text) => text.hash(state),
            Key::Object(handle) => handle.serial.hash(state),
        }
    }
}
