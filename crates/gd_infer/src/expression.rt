//! The type of an expression, by the types of its parts.

use crate::call::super_call;
use crate::inference::Inference;
use crate::seen::Seen;
use crate::site::Site;
use gd_model::Ty;
use gd_rules::Rule;
use gd_syntax::{Expr, ExprKind, Text, TypeName};
use gd_typing::{
    Receiver, Verdict, array_literal, as_value, attribute, binary, cast, choose,
    dictionary_literal, element_place, key_place, logic, me, subscript, test, unary, value_place,
    written_type,
};
use no_memory::NoMemory;
use sqlite_items::Boxed;
use std::alloc::Global;

impl Inference {
    /// What an expression is. `place` is the type of the place whose value it is, if it is that of a known one: a literal is
    /// made for it.
    #[cycle(expression)]
    pub fn expression(
        &mut self,
        alloc: Global,
        site: &Site<'_>,
        e: &Expr,
        place: Option<&Ty>,
    ) -> Result<Seen, NoMemory> {
        let seen = self.judged(alloc, site, e, place)?;
        self.note(alloc, e, &seen)?;
        Ok(seen)
    }

    // A call of something other than a name or an attribute is Bad. It has the place of the leftmost expression in it, whose
    // note stays.
    fn note(&mut self, alloc: Global, e: &Expr, seen: &Seen) -> Result<(), NoMemory> {
        if calls_value(e) {
            self.called_values.put(e.pos, Ty::Bad)
        } else {
            self.notes.put(e.pos, seen.copy(alloc)?)
        }
    }

    /// The type of an expression where a value is needed: void and a class are none.
    #[cycle(expression)]
    pub fn value(
        &mut self,
        alloc: Global,
        site: &Site<'_>,
        e: &Expr,
        place: Option<&Ty>,
    ) -> Result<Ty, NoMemory> {
        let seen = self.expression(alloc, site, e, place)?;
        if as_value(&seen.ty).rule.is_none() {
            return Ok(seen.ty);
        }
        self.make_bad(e, seen)?;
        Ok(Ty::Bad)
    }

    /// What stands before a dot: a value or a class.
    #[cycle(expression)]
    pub fn before_dot(
        &mut self,
        alloc: Global,
        site: &Site<'_>,
        e: &Expr,
    ) -> Result<Seen, NoMemory> {
        let seen = self.expression(alloc, site, e, None)?;
        if !matches!(seen.ty, Ty::Void) {
            return Ok(seen);
        }
        self.make_bad(e, seen)?;
        Ok(Seen::of(Ty::Bad))
    }

    fn make_bad(&mut self, e: &Expr, mut seen: Seen) -> Result<(), NoMemory> {
        seen.ty = Ty::Bad;
        self.notes.put(e.pos, seen)
    }

    #[cycle(expression)]
    fn judged(
        &mut self,
        alloc: Global,
        site: &Site<'_>,
        e: &Expr,
        place: Option<&Ty>,
    ) -> Result<Seen, NoMemory> {
        let verdict = match &e.kind {
            ExprKind::Null => Verdict::fine(Ty::Nil),
            ExprKind::Bool(_) => Verdict::fine(Ty::Bool),
            ExprKind::Int(_) => Verdict::fine(Ty::Int),
            ExprKind::Str(_) => Verdict::fine(Ty::Str),
            ExprKind::Name(name) => return self.name(alloc, site, name),
            ExprKind::Me => me(site.class, site.is_static),
            ExprKind::ArrayLit(items) => {
                let is_bad = self.elements(alloc, site, items.as_slice(), place)?;
                array_literal(alloc, place, is_bad)?
            }
            ExprKind::DictLit(pairs) => {
                let is_bad = self.pairs(alloc, site, pairs.as_slice(), place)?;
                let is_bad = is_bad || self.repeats_key(alloc, site, pairs.as_slice())?;
                dictionary_literal(alloc, place, is_bad)?
            }
            ExprKind::Attr(base, name) => {
                let seen = self.before_dot(alloc, site, base.get())?;
                return self.attribute(alloc, site, base.get(), &seen, name);
            }
            ExprKind::Call(_, _) => return self.call(alloc, site, e),
            ExprKind::Super(_, name, args) => {
                let call = super_call(alloc, site, name.as_ref())?;
                return self.finish(alloc, site, args.as_slice(), call, None);
            }
            ExprKind::Preload(path) => preloaded(site, path),
            _ => self.operation(alloc, site, e)?,
        };
        Ok(Seen::by(verdict))
    }

    // An operator, a conditional expression, a cast, a test of a type or a subscript.
    #[cycle(expression)]
    fn operation(&mut self, alloc: Global, site: &Site<'_>, e: &Expr) -> Result<Verdict, NoMemory> {
        match &e.kind {
            ExprKind::Unary(op, a) => {
                let a = self.value(alloc, site, a.get(), None)?;
                unary(alloc, *op, &a)
            }
            ExprKind::Binary(op, _, _) => {
                let (a, b) = self.operands(alloc, site, e)?;
                binary(alloc, *op, &a, &b)
            }
            ExprKind::And(_, _) | ExprKind::Or(_, _) => {
                let (a, b) = self.operands(alloc, site, e)?;
                Ok(logic(&a, &b))
            }
            ExprKind::Choose(x, c, y) => {
                let x = self.value(alloc, site, x.get(), None)?;
                let c = self.value(alloc, site, c.get(), None)?;
                let y = self.value(alloc, site, y.get(), None)?;
                choose(alloc, site.table, &x, &c, &y)
            }
            ExprKind::Index(_, _) => {
                let (a, b) = self.operands(alloc, site, e)?;
                subscript(alloc, site.table, &a, &b)
            }
            ExprKind::Cast(a, to) => {
                let a = self.value(alloc, site, a.get(), None)?;
                cast_to(alloc, site, &a, to.get())
            }
            ExprKind::Test(a, to, _) => {
                let a = self.value(alloc, site, a.get(), None)?;
                tested_for(alloc, site, &a, to.get())
            }
            _ => Ok(Verdict::bad()),
        }
    }

    // The types of the two values that an operator or a subscript takes.
    #[cycle(expression)]
    fn operands(&mut self, alloc: Global, site: &Site<'_>, e: &Expr) -> Result<(Ty, Ty), NoMemory> {
        match &e.kind {
            ExprKind::Binary(_, a, b)
            | ExprKind::And(a, b)
            | ExprKind::Or(a, b)
            | ExprKind::Index(a, b) => {
                let a = self.value(alloc, site, a.get(), None)?;
                let b = self.value(alloc, site, b.get(), None)?;
                Ok((a, b))
            }
            _ => Ok((Ty::Bad, Ty::Bad)),
        }
    }

    // The elements of an array literal; whether one is Bad.
    #[cycle(expression)]
    fn elements(
        &mut self,
        alloc: Global,
        site: &Site<'_>,
        items: &[Expr],
        place: Option<&Ty>,
    ) -> Result<bool, NoMemory> {
        let mut is_bad = false;
        for item in items {
            let ty = self.value(alloc, site, item, element_place(place))?;
            is_bad = is_bad || matches!(ty, Ty::Bad);
        }
        Ok(is_bad)
    }

    // The keys and values of a dictionary literal; whether one is Bad.
    #[cycle(expression)]
    fn pairs(
        &mut self,
        alloc: Global,
        site: &Site<'_>,
        pairs: &[(Expr, Expr)],
        place: Option<&Ty>,
    ) -> Result<bool, NoMemory> {
        let mut is_bad = false;
        for pair in pairs {
            let key = self.value(alloc, site, &pair.0, key_place(place))?;
            let value = self.value(alloc, site, &pair.1, value_place(place))?;
            is_bad = is_bad || matches!(key, Ty::Bad) || matches!(value, Ty::Bad);
        }
        Ok(is_bad)
    }

    // A name behind a dot, by what stands before it.
    fn attribute(
        &mut self,
        alloc: Global,
        site: &Site<'_>,
        base: &Expr,
        seen: &Seen,
        name: &Text,
    ) -> Result<Seen, NoMemory> {
        let receiver = receiver_of(site, base, seen);
        let name = attribute(
            alloc,
            site.table,
            site.declared,
            &self.known,
            receiver,
            name,
        )?;
        self.used(site, name)
    }
}

/// What stands before a dot, by what it was seen to be.
pub fn receiver_of<'a>(site: &Site<'_>, base: &Expr, seen: &'a Seen) -> Receiver<'a> {
    match &base.kind {
        ExprKind::Me if !site.is_static => Receiver::Me(site.class),
        _ => gd_typing::receiver_of(site.declared, seen.found, &seen.ty),
    }
}

/// The type that is written there; Bad where it is none.
pub fn written(alloc: Global, site: &Site<'_>, written: &TypeName) -> Result<Ty, NoMemory> {
    let mut faults = Vec::new(alloc);
    written_type(alloc, site.table, site.class, written, &mut faults)
}

fn cast_to(alloc: Global, site: &Site<'_>, from: &Ty, to: &TypeName) -> Result<Verdict, NoMemory> {
    let to = written(alloc, site, to)?;
    cast(alloc, site.table, from, &to)
}

fn tested_for(alloc: Global, site: &Site<'_>, of: &Ty, to: &TypeName) -> Result<Verdict, NoMemory> {
    let to = written(alloc, site, to)?;
    Ok(test(site.table, of, &to))
}

// The class that a path names.
fn preloaded(site: &Site<'_>, path: &Text) -> Verdict {
    match site.table.preload_class(site.class, path) {
        Some(class) => Verdict::fine(Ty::Meta(class)),
        None => Verdict::broken(Rule::PathNotFound),
    }
}

// Whether an expression calls something other than a name or an attribute.
fn calls_value(e: &Expr) -> bool {
    match &e.kind {
        ExprKind::Call(callee, _) => {
            !matches!(&callee.get().kind, ExprKind::Name(_) | ExprKind::Attr(_, _))
        }
        _ => false,
    }
}
