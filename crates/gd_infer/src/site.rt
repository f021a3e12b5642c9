//! Where code stands.

use gd_model::Ty;
use gd_syntax::Text;
use gd_typing::Declared;
use script_table::Table;

/// Where an expression or a statement stands, its locals aside.
#[derive(Clone, Copy)]
pub struct Site<'a> {
    pub table: &'a Table,
    pub declared: &'a Declared,
    /// The class in whose body it is.
    pub class: u32,
    /// Whether it is in a static function, a static initial value, a constant or the value of an enum.
    pub is_static: bool,
    /// The name of the function around it.
    pub function: Option<&'a Text>,
    /// The type of what is returned there, where one is written.
    pub returns: Option<&'a Ty>,
}

impl<'a> Site<'a> {
    /// The body of a class, outside of functions.
    pub fn in_class(
        table: &'a Table,
        declared: &'a Declared,
        class: u32,
        is_static: bool,
    ) -> Site<'a> {
        Site {
            table,
            declared,
            class,
            is_static,
            function: None,
            returns: None,
        }
    }
}
