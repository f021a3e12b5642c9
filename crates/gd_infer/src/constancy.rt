//! Which expressions are constant.

use crate::inference::Inference;
use cycle_resolver::MemberId;
use gd_members::Found;
use gd_syntax::{Expr, ExprKind, Pos};
use gd_typing::{Declared, Member};
use sqlite_items::Boxed;

impl Inference {
    /// The first part of an expression that no constant is made of: a call, `self`, `super`, or a name or an attribute that is
    /// no constant, enum or class. Its parts were seen already.
    #[cycle(constancy)]
    pub fn first_variable(&self, declared: &Declared, e: &Expr) -> Option<Pos> {
        match &e.kind {
            ExprKind::Name(_) => self.variable_name(declared, e.pos),
            ExprKind::Attr(base, _) => self
                .first_variable(declared, base.get())
                .or(self.variable_attribute(declared, e.pos)),
            ExprKind::Me | ExprKind::Call(_, _) | ExprKind::Super(_, _, _) => Some(e.pos),
            ExprKind::ArrayLit(items) => self.first_of(declared, items.as_slice()),
            ExprKind::DictLit(pairs) => self.first_of_pairs(declared, pairs.as_slice()),
            ExprKind::Unary(_, a) | ExprKind::Cast(a, _) | ExprKind::Test(a, _, _) => {
                self.first_variable(declared, a.get())
            }
            ExprKind::Binary(_, a, b)
            | ExprKind::And(a, b)
            | ExprKind::Or(a, b)
            | ExprKind::Index(a, b) => self
                .first_variable(declared, a.get())
                .or(self.first_variable(declared, b.get())),
            ExprKind::Choose(x, c, y) => self
                .first_variable(declared, x.get())
                .or(self.first_variable(declared, c.get()))
                .or(self.first_variable(declared, y.get())),
            _ => None,
        }
    }

    #[cycle(constancy)]
    fn first_of(&self, declared: &Declared, items: &[Expr]) -> Option<Pos> {
        for item in items {
            if let Some(pos) = self.first_variable(declared, item) {
                return Some(pos);
            }
        }
        None
    }

    #[cycle(constancy)]
    fn first_of_pairs(&self, declared: &Declared, pairs: &[(Expr, Expr)]) -> Option<Pos> {
        for pair in pairs {
            if let Some(pos) = self.first_variable(declared, &pair.0) {
                return Some(pos);
            }
            if let Some(pos) = self.first_variable(declared, &pair.1) {
                return Some(pos);
            }
        }
        None
    }

    // A bare name that is no constant.
    fn variable_name(&self, declared: &Declared, pos: Pos) -> Option<Pos> {
        let seen = self.notes.get(pos)?;
        let is_constant = match seen.local {
            Some(number) => match self.locals.get(number) {
                Some(local) => local.is_constant,
                None => false,
            },
            None => is_constant(declared, seen.found),
        };
        if is_constant { None } else { Some(pos) }
    }

    // An attribute that is no constant. One that was not found is looked up in a dictionary.
    fn variable_attribute(&self, declared: &Declared, pos: Pos) -> Option<Pos> {
        let found = self.found_at(pos)?;
        if is_constant(declared, Some(found)) {
            None
        } else {
            Some(pos)
        }
    }
}

// Whether what a name was found to be is a constant, an enum, one of its values, or a class.
fn is_constant(declared: &Declared, found: Option<Found>) -> bool {
    match found {
        Some(Found::EnumValue(_, _) | Found::Class(_)) => true,
        Some(Found::Builtin(number)) => value_semantics::constant_value(number).is_some(),
        Some(Found::Member(member)) => matches!(
            declared.member(member),
            Some(Member::Constant(_) | Member::Enum(_))
        ),
        Some(Found::Missing) | None => false,
    }
}
