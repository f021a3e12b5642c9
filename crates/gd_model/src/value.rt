//! Values at run time (docs/runtime.md, "Values").
ghost use Rattle.std.specs.Prelude.{◌≡◌, IfOk};
ghost use Rattle.gd_model.specs.Plain.{plain_copy};

use crate::Shared;
use gd_syntax::Text;
use no_memory::NoMemory;
use slot_arena::Handle;

/// A value at run time. It takes 24 bytes: what is larger stands behind a pointer that its copies share.
#[derive(Drop)]
pub enum Value {
    Nil,
    Bool(bool),
    Int(i64),
    Str(Text),
    Object(Handle),
    Array(Handle),
    Dict(Handle),
    Callable(Shared<Target>),
    Signal(Shared<SignalSource>),
}

/// What a Callable calls: a function of an object, or a static function of a class.
#[derive(Drop)]
pub struct Target {
    pub object: Option<Handle>,
    pub class: u32,
    pub name: Text,
}

/// A signal: the object that emits it, and its name.
#[derive(Drop)]
pub struct SignalSource {
    pub emitter: Handle,
    pub name: Text,
}

impl Value {
    /// The same value once more. Texts, targets and signals are shared, so nothing is allocated.
    pub fn share(&self) -> Result<Value, NoMemory>
        ensures { IfOk result (λ v. v ≡ self.now) }
    {
        Ok(match self {
            Value::Nil => Value::Nil,
            Value::Bool(b) => Value::Bool(*b),
            Value::Int(n) => Value::Int(*n),
            Value::Str(text) => Value::Str(text.share()?),
            Value::Object(handle) => Value::Object(*handle),
            Value::Array(handle) => Value::Array(*handle),
            Value::Dict(handle) => Value::Dict(*handle),
            Value::Callable(target) => Value::Callable(target.share()?),
            Value::Signal(source) => Value::Signal(source.share()?),
        })
    }

    /// The same value once more, of a value that shares nothing: it cannot fail. `None` exactly for a String, a Callable
    /// and a Signal.
    pub fn copied(&self) -> Option<Value>
        ensures { result ≡ plain_copy self.now }
    {
        match self {
            Value::Nil => Some(Value::Nil),
            Value::Bool(b) => Some(Value::Bool(*b)),
            Value::Int(n) => Some(Value::Int(*n)),
            Value::Object(handle) => Some(Value::Object(*handle)),
            Value::Array(handle) => Some(Value::Array(*handle)),
            Value::Dict(handle) => Some(Value::Dict(*handle)),
            Value::Str(_) | Value::Callable(_) | Value::Signal(_) => None,
        }
    }
}

impl Target {
    /// The same target once more.
    pub fn share(&self) -> Result<Target, NoMemory>
        ensures { IfOk result (λ t. t ≡ self.now) }
    {
        Ok(Target {
            object: self.object,
            class: self.class,
            name: self.name.share()?,
        })
    }
}
