//! What inference knows, as the rules ask for it.
use gd_infer::Typed;
use gd_members::Found;
use gd_model::Ty;
use gd_syntax::{Expr, ExprKind, Pos};
use gd_typing::Declared;
use script_table::Table;

/// The types and resolutions of a project.
#[derive(Clone, Copy)]
pub struct Facts<'a> {
    pub typed: &'a Typed,
    /// The type of what has an error.
    pub bad: &'a Ty,
    /// The places at which the evaluation of a constant faults, in order.
    pub constant_faults: &'a [Pos],
}

/// What is known of a local.
#[derive(Clone, Copy)]
pub struct Local<'a> {
    pub ty: &'a Ty,
    pub is_constant: bool,
}

impl<'a> Facts<'a> {
    /// The classes of the project.
    pub fn table(&self) -> &'a Table {
        self.typed.table()
    }

    /// The written types of all declarations.
    pub fn declared(&self) -> &'a Declared {
        self.typed.declared()
    }

    /// The type of an expression.
    pub fn ty(&self, expr: &Expr) -> &'a Ty {
        if calls_a_value(expr) {
            return self.bad;
        }
        self.typed.inner_type(expr.pos).unwrap_or(self.bad)
    }

    /// The local that the bare name at this place is.
    pub fn local(&self, name: Pos) -> Option<Local<'a>> {
        let declares = self.typed.local_at(name)?;
        Some(Local {
            ty: self.typed.local(declares)?,
            is_constant: self.typed.is_local_constant(declares),
        })
    }

    /// What the name or attribute at this place was found to be, a local aside.
    pub fn found(&self, place: Pos) -> Option<Found> {
        self.typed.target(place)
    }

    /// Whether the evaluation of a constant faults at this place.
    pub fn faults_at(&self, place: Pos) -> bool {
        self.constant_faults.binary_search(&place).is_ok()
    }

    /// Whether any of these expressions is Bad.
    pub fn has_bad(&self, parts: &[Expr]) -> bool {
        for part in parts {
            if matches!(self.ty(part), Ty::Bad) {
                return true;
            }
        }
        false
    }
}

/// Whether an expression calls something other than a name or an attribute: it is Bad whatever it calls.
fn calls_a_value(expr: &Expr) -> bool {
    match &expr.kind {
        ExprKind::Call(callee, _) => {
            !matches!(&callee.get().kind, ExprKind::Name(_) | ExprKind::Attr(_, _))
        }
        _ => false,
    }
}
