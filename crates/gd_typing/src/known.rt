//! The types that inference has found so far.

use gd_members::{Item, MemberId};
use gd_model::Ty;

/// The types of the items that are known.
pub trait Known {
    /// The type of a variable declared by `:=`, of a constant, or of a value of an enum; none where it is not known yet. An
    /// item that has been given up is Bad.
    fn item(&self, item: Item) -> Option<&Ty>;

    /// A value of the enum whose type is not known yet.
    fn unknown_value(&self, enumeration: MemberId) -> Option<Item>;

    /// The type of a parameter that is declared by `:=`; none where it is not known yet.
    fn parameter(&self, function: MemberId, index: usize) -> Option<&Ty>;
}
