//! Which functions a program has.

use gd_members::MemberId;

/// A function of a program, by what it is compiled from.
#[derive(Clone, Copy, Debug, PartialEq, Eq, Hash)]
pub enum FunctionKey {
    /// A function that is declared.
    Declared(MemberId),
    /// The body of the setter of a variable.
    Setter(MemberId),
    /// The body of the getter of a variable.
    Getter(MemberId),
    /// The initial values of a class.
    Initial(u32),
    /// The static initial values of a class.
    StaticInitial(u32),
}
