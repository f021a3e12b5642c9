//! Constant keys of dictionary literals that are equal.

use crate::evaluation::Evaluated;
use crate::inference::Inference;
use crate::site::Site;
use gd_containers::key_of;
use gd_model::{Key, Ty};
use gd_rules::Rule;
use gd_syntax::{Expr, ExprKind, Operator, Pos};
use no_memory::NoMemory;
use sqlite_items::Boxed;
use std::alloc::Global;
use std::collections::HashSet;

impl Inference {
    /// Whether two constant keys of the literal, none of whose parts is Bad, are equal. Each later one is reported once all
    /// items are known.
    pub fn repeats_key(
        &mut self,
        alloc: Global,
        site: &Site<'_>,
        pairs: &[(Expr, Expr)],
    ) -> Result<bool, NoMemory> {
        let mut keys = HashSet::new(alloc);
        let mut repeats = false;
        for pair in pairs {
            if let Some(key) = self.constant_key(alloc, site, &pair.0)?
                && !keys.insert(key)?
            {
                repeats = true;
                if !self.is_finding {
                    self.report(pair.0.pos, Rule::DuplicateKey)?;
                }
            }
        }
        Ok(repeats)
    }

    // The key, where it is constant and of a kind that is one. A key whose evaluation would make a thing counts as none, since
    // the things that are kept are those of constants.
    fn constant_key(
        &mut self,
        alloc: Global,
        site: &Site<'_>,
        e: &Expr,
    ) -> Result<Option<Key>, NoMemory> {
        if self.first_variable(site.declared, e).is_some() || self.makes_thing(e) {
            return Ok(None);
        }
        match self.evaluate(alloc, site, e, None)? {
            Evaluated::Value(value) => Ok(key_of(&value).ok()),
            Evaluated::Fault(_) | Evaluated::Nothing => Ok(None),
        }
    }

    // Whether the evaluation of an expression may make an array or a dictionary.
    #[cycle(making)]
    fn makes_thing(&self, e: &Expr) -> bool {
        match &e.kind {
            ExprKind::ArrayLit(_) | ExprKind::DictLit(_) => true,
            ExprKind::Binary(op, a, b) => {
                (matches!(op, Operator::Add) && !self.is_plain(e.pos))
                    || self.makes_thing(a.get())
                    || self.makes_thing(b.get())
            }
            ExprKind::And(a, b) | ExprKind::Or(a, b) | ExprKind::Index(a, b) => {
                self.makes_thing(a.get()) || self.makes_thing(b.get())
            }
            ExprKind::Choose(x, c, y) => {
                self.makes_thing(x.get()) || self.makes_thing(c.get()) || self.makes_thing(y.get())
            }
            ExprKind::Unary(_, a)
            | ExprKind::Cast(a, _)
            | ExprKind::Test(a, _, _)
            | ExprKind::Attr(a, _) => self.makes_thing(a.get()),
            _ => false,
        }
    }

    // Whether the expression at this place has the type int or String.
    fn is_plain(&self, pos: Pos) -> bool {
        match self.notes.get(pos) {
            Some(seen) => matches!(seen.ty, Ty::Int | Ty::Str),
            None => false,
        }
    }
}
