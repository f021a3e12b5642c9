//! The types and values of constants and of the values of enums.

use crate::evaluation::Evaluated;
use crate::inference::Inference;
use crate::site::Site;
use crate::statement::optional;
use cycle_resolver::{Item, MemberId};
use gd_model::{Ty, Value};
use gd_rules::Rule;
use gd_syntax::{Expr, Pos, Text, VarDecl};
use gd_typing::{Known, assigned};
use no_memory::NoMemory;
use std::alloc::Global;

/// What a constant is.
#[derive(Drop)]
pub struct Fixation {
    pub ty: Ty,
    /// None where it holds a class, and where a rule is broken.
    pub value: Option<Value>,
}

impl Fixation {
    /// A constant that is Bad.
    pub fn bad() -> Fixation {
        Fixation {
            ty: Ty::Bad,
            value: None,
        }
    }

    /// A constant of this type without a value.
    fn valueless(ty: Ty) -> Fixation {
        Fixation { ty, value: None }
    }

    /// A constant int.
    fn int(n: i64) -> Fixation {
        Fixation {
            ty: Ty::Int,
            value: Some(Value::Int(n)),
        }
    }
}

impl Inference {
    /// The written type of a constant, if there is one, and the type of its value, which may be a class where none is written.
    pub fn constant_types(
        &mut self,
        alloc: Global,
        site: &Site<'_>,
        constant: &VarDecl,
    ) -> Result<(Option<Ty>, Ty), NoMemory> {
        let typed = optional(alloc, site, constant.typed.as_ref())?;
        let Some(value) = &constant.value else {
            return Ok((typed, Ty::Bad));
        };
        if typed.is_some() {
            let ty = self.value(alloc, site, value, typed.as_ref())?;
            return Ok((typed, ty));
        }
        let seen = self.before_dot(alloc, site, value)?;
        Ok((None, seen.ty))
    }

    /// A constant. Without a written type it is Bad where its value is, where that is not constant, and where its evaluation
    /// faults; with one it is of that type, and has no value then.
    pub fn constant(
        &mut self,
        alloc: Global,
        site: &Site<'_>,
        constant: &VarDecl,
    ) -> Result<Fixation, NoMemory> {
        let (typed, ty) = self.constant_types(alloc, site, constant)?;
        let Some(value) = &constant.value else {
            return Ok(Fixation::bad());
        };
        if !self.waits.is_empty() {
            return Ok(Fixation::bad());
        }
        if matches!(ty, Ty::Meta(_)) {
            return Ok(Fixation { ty, value: None });
        }
        let is_bad = matches!(ty, Ty::Bad);
        if is_bad || self.first_variable(site.declared, value).is_some() {
            return Ok(Fixation::valueless(typed.unwrap_or(Ty::Bad)));
        }
        match typed {
            None => self.evaluated(alloc, site, value, ty),
            Some(Ty::Bad) => Ok(Fixation::bad()),
            Some(to) if assigned(site.table, &ty, &to).rule.is_some() => Ok(Fixation {
                ty: to,
                value: None,
            }),
            Some(to) => {
                let equals = constant.equals.unwrap_or(constant.pos);
                self.evaluated_for(alloc, site, value, to, equals)
            }
        }
    }

    // The value, of this type.
    fn evaluated(
        &mut self,
        alloc: Global,
        site: &Site<'_>,
        value: &Expr,
        ty: Ty,
    ) -> Result<Fixation, NoMemory> {
        match self.evaluate(alloc, site, value, None)? {
            Evaluated::Value(value) => Ok(Fixation {
                ty,
                value: Some(value),
            }),
            Evaluated::Fault(pos) => self.faulted(pos),
            Evaluated::Nothing => Ok(Fixation::bad()),
        }
    }

    // The value for a place of this type, tested at the `=`.
    fn evaluated_for(
        &mut self,
        alloc: Global,
        site: &Site<'_>,
        value: &Expr,
        to: Ty,
        equals: Pos,
    ) -> Result<Fixation, NoMemory> {
        match self.evaluate(alloc, site, value, Some(&to))? {
            Evaluated::Value(value) if self.constants.fits(Some(&to), &value)? => Ok(Fixation {
                ty: to,
                value: Some(value),
            }),
            Evaluated::Value(_) => self.faulted_for(to, equals),
            Evaluated::Fault(pos) => self.faulted_for(to, pos),
            Evaluated::Nothing => Ok(Fixation::valueless(to)),
        }
    }

    fn faulted_for(&mut self, to: Ty, pos: Pos) -> Result<Fixation, NoMemory> {
        self.report(pos, Rule::ConstantFault)?;
        Ok(Fixation::valueless(to))
    }

    fn faulted(&mut self, pos: Pos) -> Result<Fixation, NoMemory> {
        self.report(pos, Rule::ConstantFault)?;
        Ok(Fixation::bad())
    }

    /// A value of an enum, by its place there from 1: the one that is written, else one more than that before it.
    pub fn enum_value(
        &mut self,
        alloc: Global,
        site: &Site<'_>,
        values: &[(Text, Pos, Option<Expr>)],
        item: Item,
    ) -> Result<Fixation, NoMemory> {
        let place = item.value.saturating_sub(1);
        match values.get(place as usize) {
            Some((_, _, Some(value))) => self.written_enum_value(alloc, site, value),
            Some((_, _, None)) if place == 0 => Ok(Fixation::int(0)),
            Some((_, _, None)) => self.next_enum_value(Item {
                member: item.member,
                value: place,
            }),
            None => Ok(Fixation::bad()),
        }
    }

    fn written_enum_value(
        &mut self,
        alloc: Global,
        site: &Site<'_>,
        value: &Expr,
    ) -> Result<Fixation, NoMemory> {
        let ty = self.value(alloc, site, value, None)?;
        if !self.waits.is_empty() || matches!(ty, Ty::Bad) {
            return Ok(Fixation::bad());
        }
        if self.first_variable(site.declared, value).is_some() {
            return Ok(Fixation::bad());
        }
        match self.evaluate(alloc, site, value, None)? {
            Evaluated::Value(Value::Int(n)) => Ok(Fixation::int(n)),
            Evaluated::Fault(pos) => self.faulted(pos),
            Evaluated::Value(_) | Evaluated::Nothing => Ok(Fixation::bad()),
        }
    }

    fn next_enum_value(&mut self, before: Item) -> Result<Fixation, NoMemory> {
        self.needs(before)?;
        Ok(match self.constants.get(before) {
            Some(Value::Int(n)) => Fixation::int(n.wrapping_add(1)),
            _ => Fixation::bad(),
        })
    }

    /// An enum as a whole, which needs all its values: a dictionary of them by their names. It is Bad where one of them is.
    pub fn whole_enum(
        &mut self,
        alloc: Global,
        site: &Site<'_>,
        member: MemberId,
        pos: Pos,
        values: &[(Text, Pos, Option<Expr>)],
    ) -> Result<Fixation, NoMemory> {
        let mut pairs = Vec::new(alloc);
        let mut is_bad = false;
        let mut number = 0u32;
        for value in values {
            number = number.saturating_add(1);
            let item = Item {
                member,
                value: number,
            };
            self.needs(item)?;
            match self.constants.get(item) {
                Some(Value::Int(n)) if is_first(site, member, &value.0, number) => {
                    pairs.push((value.0.share()?, *n))?;
                }
                Some(_) => {}
                None => is_bad = true,
            }
        }
        if is_bad {
            return Ok(Fixation::bad());
        }
        Ok(match self.constants.enumeration(pos, &pairs)? {
            Evaluated::Value(value) => Fixation {
                ty: Ty::Dict,
                value: Some(value),
            },
            Evaluated::Fault(_) | Evaluated::Nothing => Fixation::bad(),
        })
    }

    // The running value needs this item, and waits for it where it is not known.
    fn needs(&mut self, item: Item) -> Result<(), NoMemory> {
        self.met.insert(item)?;
        if self.known.item(item).is_none() {
            self.waits.insert(item)?;
        }
        Ok(())
    }
}

// Whether the value with this number in an enum, from 1, is the first with its name.
fn is_first(site: &Site<'_>, member: MemberId, name: &Text, number: u32) -> bool {
    match site.declared.enumeration(member) {
        Some(names) => match names.place_of(name) {
            Some(place) => place.saturating_add(1) == number,
            None => false,
        },
        None => false,
    }
}
