//! Arrays and dictionaries: lists that know the types of what they hold, and may be read-only.
#![tactic(auto)]

mod array;
mod dict;
mod fault;
mod found;
mod key;
mod look;
mod on_heap;
mod place;

pub use array::TypedArray;
pub use dict::OrderedDict;
pub use fault::{MAX_ITEMS, ThingFault};
pub use found::{array_of, class_name_of, class_of, dict_of};
pub use key::key_of;
pub use look::Look;
pub use on_heap::OnHeap;
pub use place::{clamped_place, gap_place, item_place};
