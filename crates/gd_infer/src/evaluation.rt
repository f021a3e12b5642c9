//! The value of a constant expression.

use crate::expression::written;
use crate::inference::Inference;
use crate::site::Site;
use gd_members::Found;
use gd_model::{Ty, Value};
use gd_syntax::{Expr, ExprKind, Operator, Pos, Text};
use gd_typing::{assigned, element_place, key_place, value_place};
use no_memory::NoMemory;
use sqlite_items::Boxed;
use std::alloc::Global;

/// What the evaluation of an expression comes to.
#[derive(Drop)]
pub enum Evaluated {
    Value(Value),
    /// A fault of a run, at this place.
    Fault(Pos),
    /// It has no value before a run.
    Nothing,
}

/// Goes on with the value, or answers what stands in its place.
macro_rules! value_of {
    ($e:expr) => {
        match $e? {
            Evaluated::Value(v) => v,
            other => return Ok(other),
        }
    };
}

impl Inference {
    /// The value of an expression whose parts were seen already. `place` is the type of the place whose value it is.
    #[cycle(evaluation)]
    pub fn evaluate(
        &mut self,
        alloc: Global,
        site: &Site<'_>,
        e: &Expr,
        place: Option<&Ty>,
    ) -> Result<Evaluated, NoMemory> {
        match &e.kind {
            ExprKind::Null => Ok(Evaluated::Value(Value::Nil)),
            ExprKind::Bool(b) => Ok(Evaluated::Value(Value::Bool(*b))),
            ExprKind::Int(n) => Ok(Evaluated::Value(Value::Int(*n))),
            ExprKind::Str(text) => Ok(Evaluated::Value(Value::Str(text.share()?))),
            ExprKind::Name(_) => self.named_value(e.pos),
            ExprKind::ArrayLit(items) => {
                self.evaluate_array(alloc, site, e.pos, items.as_slice(), place)
            }
            ExprKind::DictLit(pairs) => {
                self.evaluate_dictionary(alloc, site, e.pos, pairs.as_slice(), place)
            }
            ExprKind::Attr(base, name) => self.evaluate_attribute(
                alloc,
                site,
                e.pos,
                base.get(),
                name,
            ),
            ExprKind::And(_, _) | ExprKind::Or(_, _) | ExprKind::Choose(_, _, _) => {
                self.evaluate_branching(alloc, site, e)
            }
            _ => self.evaluate_operation(alloc, site, e),
        }
    }

    // An operation that evaluates only what it needs.
    #[cycle(evaluation)]
    fn evaluate_branching(
        &mut self,
        alloc: Global,
        site: &Site<'_>,
        e: &Expr,
    ) -> Result<Evaluated, NoMemory> {
        match &e.kind {
            ExprKind::And(a, b) => {
                let a = value_of!(self.evaluate(alloc, site, a.get(), None));
                if !self.constants.truth(&a)? {
                    return Ok(Evaluated::Value(Value::Bool(false)));
                }
                let b = value_of!(self.evaluate(alloc, site, b.get(), None));
                Ok(Evaluated::Value(Value::Bool(self.constants.truth(&b)?)))
            }
            ExprKind::Or(a, b) => {
                let a = value_of!(self.evaluate(alloc, site, a.get(), None));
                if self.constants.truth(&a)? {
                    return Ok(Evaluated::Value(Value::Bool(true)));
                }
                let b = value_of!(self.evaluate(alloc, site, b.get(), None));
                Ok(Evaluated::Value(Value::Bool(self.constants.truth(&b)?)))
            }
            ExprKind::Choose(x, c, y) => {
                let c = value_of!(self.evaluate(alloc, site, c.get(), None));
                let branch = if self.constants.truth(&c)? { x } else { y };
                self.evaluate(alloc, site, branch.get(), None)
            }
            _ => Ok(Evaluated::Nothing),
        }
    }

    #[cycle(evaluation)]
    fn evaluate_operation(
        &mut self,
        alloc: Global,
        site: &Site<'_>,
        e: &Expr,
    ) -> Result<Evaluated, NoMemory> {
        match &e.kind {
            ExprKind::Unary(op, a) => {
                let a = value_of!(self.evaluate(alloc, site, a.get(), None));
                self.constants.operator(e.pos, *op, &a, &Value::Nil)
            }
            ExprKind::Binary(op, a, b) => {
                let a = value_of!(self.evaluate(alloc, site, a.get(), None));
                let b = value_of!(self.evaluate(alloc, site, b.get(), None));
                self.constants.operator(e.pos, *op, &a, &b)
            }
            ExprKind::Index(a, b) => {
                let a = value_of!(self.evaluate(alloc, site, a.get(), None));
                let b = value_of!(self.evaluate(alloc, site, b.get(), None));
                self.constants.subscript(e.pos, &a, &b)
            }
            ExprKind::Cast(a, to) => {
                let a = value_of!(self.evaluate(alloc, site, a.get(), None));
                self.constants
                    .cast(e.pos, &written(alloc, site, to.get())?, a)
            }
            ExprKind::Test(a, to, is_negated) => {
                let a = value_of!(self.evaluate(alloc, site, a.get(), None));
                let is_of = self.constants.is_of(&written(alloc, site, to.get())?, &a)?;
                Ok(Evaluated::Value(Value::Bool(is_of != *is_negated)))
            }
            _ => Ok(Evaluated::Nothing),
        }
    }

    // An array literal; an element that does not fit faults at its first token.
    #[cycle(evaluation)]
    fn evaluate_array(
        &mut self,
        alloc: Global,
        site: &Site<'_>,
        pos: Pos,
        items: &[Expr],
        place: Option<&Ty>,
    ) -> Result<Evaluated, NoMemory> {
        let element = element_place(place);
        let mut values = Vec::new(alloc);
        for item in items {
            let value = value_of!(self.evaluate(alloc, site, item, element));
            if !self.constants.fits(element, &value)? {
                return Ok(self.misfit(site, item, element));
            }
            values.push(value)?;
        }
        self.constants
            .array(pos, type_or_variant(alloc, element)?, values)
    }

    // A dictionary literal; a key or value that does not fit faults at its first token.
    #[cycle(evaluation)]
    fn evaluate_dictionary(
        &mut self,
        alloc: Global,
        site: &Site<'_>,
        pos: Pos,
        pairs: &[(Expr, Expr)],
        place: Option<&Ty>,
    ) -> Result<Evaluated, NoMemory> {
        let mut values = Vec::new(alloc);
        for pair in pairs {
            let key = value_of!(self.evaluate(alloc, site, &pair.0, key_place(place)));
            if !self.constants.fits(key_place(place), &key)? {
                return Ok(self.misfit(site, &pair.0, key_place(place)));
            }
            let value = value_of!(self.evaluate(alloc, site, &pair.1, value_place(place)));
            if !self.constants.fits(value_place(place), &value)? {
                return Ok(self.misfit(site, &pair.1, value_place(place)));
            }
            values.push((key, value))?;
        }
        let key = type_or_variant(alloc, key_place(place))?;
        let value = type_or_variant(alloc, value_place(place))?;
        self.constants.dictionary(pos, key, value, values)
    }

    // A constant or an enum's value behind a dot, or the value that a dictionary has at the name.
    #[cycle(evaluation)]
    fn evaluate_attribute(
        &mut self,
        alloc: Global,
        site: &Site<'_>,
        pos: Pos,
        base: &Expr,
        name: &Text,
    ) -> Result<Evaluated, NoMemory> {
        if self.found_at(pos).is_some() {
            return self.named_value(pos);
        }
        let base = value_of!(self.evaluate(alloc, site, base, None));
        self.constants.attribute(pos, &base, name)
    }

    // A value that does not fit the type of its place: a fault at its first token, or nothing where its type never fits, which
    // breaks a rule of its own.
    fn misfit(&self, site: &Site<'_>, e: &Expr, place: Option<&Ty>) -> Evaluated {
        match (self.notes.get(e.pos), place) {
            (Some(seen), Some(place)) if assigned(site.table, &seen.ty, place).rule.is_some() => {
                Evaluated::Nothing
            }
            _ => Evaluated::Fault(first_token(e)),
        }
    }

    // The value of what a name or an attribute at this place means.
    fn named_value(&self, pos: Pos) -> Result<Evaluated, NoMemory> {
        let Some(seen) = self.notes.get(pos) else {
            return Ok(Evaluated::Nothing);
        };
        let value = match (seen.local, seen.found) {
            (Some(number), _) => match self.locals.get(number) {
                Some(local) => local.value.as_ref(),
                None => None,
            },
            (None, Some(found)) => self.constants.found(found),
            (None, None) => None,
        };
        match (value, seen.found) {
            (Some(value), _) => Ok(Evaluated::Value(value.share()?)),
            (None, Some(Found::Builtin(number))) => Ok(builtin_value(number)),
            (None, _) => Ok(Evaluated::Nothing),
        }
    }

    /// What the name or attribute at this place was found to be.
    pub fn found_at(&self, pos: Pos) -> Option<Found> {
        self.notes.get(pos)?.found
    }
}

fn builtin_value(number: u16) -> Evaluated {
    match value_semantics::constant_value(number) {
        Some(n) => Evaluated::Value(Value::Int(n)),
        None => Evaluated::Nothing,
    }
}

fn type_or_variant(alloc: Global, ty: Option<&Ty>) -> Result<Ty, NoMemory> {
    match ty {
        Some(ty) => ty.copy(alloc),
        None => Ok(Ty::Variant),
    }
}

/// The place of the first token of an expression, parentheses aside.
pub fn first_token(e: &Expr) -> Pos {
    match &e.kind {
        ExprKind::Binary(_, a, _)
        | ExprKind::And(a, _)
        | ExprKind::Or(a, _)
        | ExprKind::Choose(a, _, _)
        | ExprKind::Cast(a, _)
        | ExprKind::Test(a, _, _)
        | ExprKind::Attr(a, _)
        | ExprKind::Index(a, _)
        | ExprKind::Call(a, _) => first_token(a.get()),
        ExprKind::Super(pos, _, _) => *pos,
        _ => e.pos,
    }
}
