//! A heap with its roots: the values that a running machine holds.
//!
//! All that a machine holds from outside the heap is one list of values, with the newest last: first the values of constants
//! and statics, then the frames, each with its receiver, its locals and its operands. The count of each thing is the number
//! of its occurrences in things and in these values; each handle in either names a thing that is there and of its kind, an
//! object of a class that has a name; and no count comes near its limit. Each call keeps that by itself, so the machine
//! above counts nothing, and may lend any of its values to operators and builtins.
//!
//! | Call | What becomes of the values |
//! |---|---|
//! | `push_free`, `push_nils` | values that name no thing come at the end; nothing is counted |
//! | `push_copy`, `push_held` | a copy of one of them, or a value from elsewhere, comes at the end |
//! | `pop`, `drop_last` | the last ones are given up |
//! | `store` | the last one takes a place, whose value is given up |
//! | `set_free`, `clear` | values that name no thing take places, whose values are given up |
//! | `join`, `take_truth` | ints and other plain values on the top go; nothing is counted |
//! | `set_held` | a value from elsewhere takes a place, whose value is given up |
//! | `sink` | the last one moves below others |
//! | `push_variable`, `push_element`, `push_entry`, `push_keys` | copies of what a thing holds come at the end |
//! | `push_thing`, `push_array`, `push_dict` | the value of a new thing comes at the end |
//! | `swap_variable`, `swap_element` | the last one changes places with one that a thing holds |
//! | `exchange_entry`, `put_entry` | a pair comes into a dictionary, and what was there comes at the end, or is given up |
//! | `change_array`, `change_dict` | a container changes as one of its methods decided, and the answer comes at the end |
//! | `leave` | the last one moves down to a place, and all others from there on are given up |
//! | `settle_one` | none: a thing that nothing holds goes |
//!
//! The arguments of a call are its frame's first locals where they stand, and are not counted anew. `reserve` makes room
//! when a frame is entered, so no other call on the values takes memory, but for a share of a text, a Callable or a Signal
//! that has as many owners as there can be.
#![tactic(auto)]

mod changing;
mod entries;
mod fresh;
mod held;
mod keeping;
mod lending;
mod look;
mod making;
mod moving;
mod named;
mod objects;
mod pairs;
mod plain;
mod reading;
mod rooted;
mod rounds;
mod stack;
mod uncounted;
mod writing;

pub use look::Things;
pub use rooted::RootedHeap;
