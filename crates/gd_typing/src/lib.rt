//! The types of the language's operations, and the rules that hold at each: one function for each kind of operation, over
//! the types of its parts and the table of the project (docs/language.md, "Types").
//!
//! A function answers what holds where its parts have these types; it walks no tree of expressions and keeps no scopes.
#![tactic(auto)]

mod accessors;
mod arguments;
mod attributes;
mod calls;
mod conversions;
mod declared;
mod enum_names;
mod known;
mod literals;
mod member;
mod names;
mod operators;
mod overriding;
mod places;
mod subscripts;
mod targets;
mod values;
mod verdict;
mod written;

pub use accessors::{fits_getter, fits_setter};
pub use arguments::{Parameter, argument, parameter_at};
pub use attributes::{Receiver, attribute, receiver_of};
pub use calls::{Call, Callee, bare_callee, called_value, finished, method_callee, super_callee};
pub use conversions::{cast, test};
pub use declared::{Declared, declare};
pub use enum_names::EnumNames;
pub use known::Known;
pub use literals::{array_literal, dictionary_literal, element_place, key_place, value_place};
pub use member::{Member, Signature, Typing};
pub use names::{Name, Use, bare_name, me};
pub use operators::{binary, choose, logic, unary};
pub use overriding::{base_function, overrides_badly};
pub use places::{Returning, assigned, inferred, returned};
pub use subscripts::{iterated, iterated_range, subscript, write_is_marked};
pub use targets::{Target, assignment};
pub use values::as_value;
pub use verdict::{Finding, Verdict};
pub use written::written_type;
