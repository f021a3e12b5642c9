//! Where code stands.
use gd_syntax::{FuncDecl, VarDecl};

/// The code that a statement or expression belongs to.
#[derive(Clone, Copy)]
pub enum Code<'a> {
    /// A value of a class: an initial value, a constant, an enum value or a default value of a signal.
    Class,
    Function(&'a FuncDecl),
    /// The setter of a variable.
    Setter(&'a VarDecl),
    /// The getter of a variable.
    Getter(&'a VarDecl),
}

/// Where code stands.
#[derive(Clone, Copy)]
pub struct Setting<'a> {
    /// The class, by its number.
    pub class: u32,
    /// Whether it has no instance: it is of a static function, a static initial value or a constant.
    pub is_static: bool,
    pub code: Code<'a>,
}

impl<'a> Setting<'a> {
    /// The same place, without an instance.
    pub fn constant(&self) -> Setting<'a> {
        Setting {
            class: self.class,
            is_static: true,
            code: self.code,
        }
    }
}
