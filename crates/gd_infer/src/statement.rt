//! The types in statements, with the locals that they declare.

use crate::expression::written;
use crate::inference::Inference;
use crate::site::Site;
use crate::thing_order::Span;
use gd_members::Found;
use gd_model::Ty;
use gd_syntax::{Branch, Expr, ExprKind, Operator, Stmt, StmtKind, TypeName, VarDecl};
use gd_typing::{iterated, iterated_range};
use indexmap::IndexSet;
use no_memory::NoMemory;
use sqlite_items::Boxed;
use std::alloc::Global;

/// The number of the builtin function `range`.
const RANGE: u16 = 5;

impl Inference {
    /// A block of its own.
    #[cycle(statement)]
    pub fn block(
        &mut self,
        alloc: Global,
        site: &Site<'_>,
        stmts: &[Stmt],
    ) -> Result<(), NoMemory> {
        self.scope.enter()?;
        for stmt in stmts {
            self.statement(alloc, site, stmt)?;
        }
        self.scope.leave()
    }

    #[cycle(statement)]
    fn statement(&mut self, alloc: Global, site: &Site<'_>, stmt: &Stmt) -> Result<(), NoMemory> {
        match &stmt.kind {
            StmtKind::If(arms, other) => {
                for arm in arms.as_slice() {
                    self.value(alloc, site, &arm.0, None)?;
                    self.block(alloc, site, arm.1.as_slice())?;
                }
                match other {
                    Some(block) => self.block(alloc, site, block.as_slice()),
                    None => Ok(()),
                }
            }
            StmtKind::While(condition, block) => {
                self.value(alloc, site, condition, None)?;
                self.block(alloc, site, block.as_slice())
            }
            StmtKind::For(name, pos, typed, _, subject, block) => {
                let ty = self.loop_variable(alloc, site, typed.as_ref(), subject)?;
                self.scope.enter()?;
                self.declare(name, *pos, ty)?;
                self.block(alloc, site, block.as_slice())?;
                self.scope.leave()
            }
            StmtKind::Match(subject, branches) => {
                self.value(alloc, site, subject, None)?;
                self.branches(alloc, site, branches.as_slice())
            }
            _ => self.simple(alloc, site, stmt),
        }
    }

    // The bindings of a branch are in force in its guard and its block.
    #[cycle(statement)]
    fn branches(
        &mut self,
        alloc: Global,
        site: &Site<'_>,
        branches: &[Branch],
    ) -> Result<(), NoMemory> {
        for branch in branches {
            self.scope.enter()?;
            self.patterns(alloc, site, branch.patterns.items())?;
            if let Some(guard) = &branch.guard {
                self.value(alloc, site, guard, None)?;
            }
            self.block(alloc, site, branch.body.as_slice())?;
            self.scope.leave()?;
        }
        Ok(())
    }

    // A statement without blocks.
    fn simple(&mut self, alloc: Global, site: &Site<'_>, stmt: &Stmt) -> Result<(), NoMemory> {
        match &stmt.kind {
            StmtKind::Return(Some(value)) => {
                self.value(alloc, site, value, site.returns)?;
            }
            StmtKind::Plain(e) => {
                self.expression(alloc, site, e, None)?;
            }
            StmtKind::Assign(op, _, target, value) => self.assign(alloc, site, *op, target, value)?,
            StmtKind::Local(variable) => self.local_variable(alloc, site, variable.get())?,
            StmtKind::LocalConst(constant) => self.local_constant(alloc, site, constant.get())?,
            StmtKind::Assert(condition, message) => {
                self.value(alloc, site, condition, None)?;
                if let Some(message) = message {
                    self.value(alloc, site, message, None)?;
                }
            }
            _ => {}
        }
        Ok(())
    }

    // The value goes to the place that the target is, but not where an operator makes another of the two.
    fn assign(
        &mut self,
        alloc: Global,
        site: &Site<'_>,
        op: Option<Operator>,
        target: &Expr,
        value: &Expr,
    ) -> Result<(), NoMemory> {
        let target = self.expression(alloc, site, target, None)?;
        if op.is_none() {
            self.value(alloc, site, value, Some(&target.ty))?;
        } else {
            self.value(alloc, site, value, None)?;
        }
        Ok(())
    }

    fn local_variable(
        &mut self,
        alloc: Global,
        site: &Site<'_>,
        variable: &VarDecl,
    ) -> Result<(), NoMemory> {
        let ty = self.variable(alloc, site, variable)?;
        self.declare(&variable.name, variable.pos, ty)
    }

    /// The type of a variable or a parameter with its value: the written one, by `:=` that of the value, else Variant.
    pub fn variable(
        &mut self,
        alloc: Global,
        site: &Site<'_>,
        variable: &VarDecl,
    ) -> Result<Ty, NoMemory> {
        let ty = optional(alloc, site, variable.typed.as_ref())?;
        let value = match &variable.value {
            Some(value) => Some(self.value(alloc, site, value, ty.as_ref())?),
            None => None,
        };
        Ok(match (ty, value) {
            (Some(ty), _) => ty,
            (None, Some(value)) if variable.inferred => value,
            (None, _) => Ty::Variant,
        })
    }

    fn local_constant(
        &mut self,
        alloc: Global,
        site: &Site<'_>,
        constant: &VarDecl,
    ) -> Result<(), NoMemory> {
        let inner = Site {
            is_static: true,
            ..*site
        };
        let first = self.constants.count();
        self.met = IndexSet::new(alloc);
        self.notes_items = true;
        let made = self.constant(alloc, &inner, constant)?;
        self.notes_items = false;
        self.declare_constant(&constant.name, constant.pos, made.ty, made.value)?;
        let end = self.constants.count();
        self.making
            .come_to_local(self.met.as_slice(), Span { first, end })
    }

    // The type of the variable of a `for`. A `range` that is written there as a call makes no array.
    fn loop_variable(
        &mut self,
        alloc: Global,
        site: &Site<'_>,
        typed: Option<&Boxed<TypeName>>,
        subject: &Expr,
    ) -> Result<Ty, NoMemory> {
        let ty = self.value(alloc, site, subject, None)?;
        let verdict = if self.is_range(subject) {
            iterated_range(&ty)
        } else {
            iterated(alloc, &ty)?
        };
        match typed {
            Some(typed) => written(alloc, site, typed.get()),
            None => Ok(verdict.ty),
        }
    }

    /// Whether the expression is a call of the builtin `range`.
    pub fn is_range(&self, e: &Expr) -> bool {
        match &e.kind {
            ExprKind::Call(callee, _) if matches!(callee.get().kind, ExprKind::Name(_)) => {
                matches!(self.found_at(e.pos), Some(Found::Builtin(RANGE)))
            }
            _ => false,
        }
    }
}

/// The type that is written there, if one is.
pub fn optional(
    alloc: Global,
    site: &Site<'_>,
    typed: Option<&TypeName>,
) -> Result<Option<Ty>, NoMemory> {
    Ok(match typed {
        Some(typed) => Some(written(alloc, site, typed)?),
        None => None,
    })
}
