//! The methods of arrays and dictionaries that write (docs/runtime.md, "Builtins"), in two steps: what a call does is decided
//! while the store can be read, and is then done to the one container.
#![tactic(auto)]

mod array_change;
mod arrays;
mod calling;
mod dict_change;
mod dicts;
mod fitting;
mod growing;
mod merging;
mod resizing;
mod sorting;

pub use array_change::{ArrayChange, Gone, change_array};
pub use arrays::decide_array;
pub use dict_change::{DictChange, GonePairs, change_dict};
pub use dicts::decide_dict;
pub use resizing::{resize, resized_by};
