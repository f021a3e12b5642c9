//! The type of a call.

use crate::expression::receiver_of;
use crate::inference::Inference;
use crate::seen::Seen;
use crate::site::Site;
use gd_model::Ty;
use gd_syntax::{Expr, ExprKind, Text};
use gd_typing::{
    Call, bare_callee, called_value, finished, method_callee, parameter_at, super_callee,
};
use no_memory::NoMemory;
use sqlite_items::Boxed;
use std::alloc::Global;

impl Inference {
    /// A call of a bare name, of a name behind a dot, or of something else, which nothing may be.
    #[cycle(expression)]
    pub fn call(&mut self, alloc: Global, site: &Site<'_>, e: &Expr) -> Result<Seen, NoMemory> {
        let ExprKind::Call(callee, args) = &e.kind else {
            return Ok(Seen::of(Ty::Bad));
        };
        match &callee.get().kind {
            ExprKind::Name(name) => {
                let local = self.scope.find(name);
                let call = self.bare_call(alloc, site, name)?;
                let mut seen = self.finish(alloc, site, args.as_slice(), call, None)?;
                seen.local = local;
                Ok(seen)
            }
            ExprKind::Attr(base, name) => {
                let seen = self.before_dot(alloc, site, base.get())?;
                let receiver = receiver_of(site, base.get(), &seen);
                let call = method_callee(alloc, site.table, site.declared, receiver, name)?;
                self.finish(alloc, site, args.as_slice(), call, Some(&seen.ty))
            }
            _ => {
                let ty = self.value(alloc, site, callee.get(), None)?;
                self.finish(alloc, site, args.as_slice(), called_value(&ty), None)
            }
        }
    }

    // What a bare name is that is called.
    fn bare_call(&mut self, alloc: Global, site: &Site<'_>, name: &Text) -> Result<Call, NoMemory> {
        if let Some(number) = self.scope.find(name) {
            let local = self.local_seen(alloc, number)?;
            return Ok(called_value(&local.ty));
        }
        let call = bare_callee(
            alloc,
            site.table,
            site.declared,
            site.class,
            site.is_static,
            name,
        )?;
        self.meets_found(site, call.found)?;
        Ok(call)
    }

    /// The call with its arguments, each the value of the parameter that it goes to.
    #[cycle(expression)]
    pub fn finish(
        &mut self,
        alloc: Global,
        site: &Site<'_>,
        args: &[Expr],
        call: Call,
        receiver: Option<&Ty>,
    ) -> Result<Seen, NoMemory> {
        let mut is_bad = false;
        for (index, arg) in args.iter().enumerate() {
            let place = self.parameter_place(alloc, site, &call, receiver, index)?;
            let ty = self.value(alloc, site, arg, place.as_ref())?;
            is_bad = is_bad || matches!(ty, Ty::Bad);
        }
        let found = call.found;
        let verdict = finished(site.declared, call, args.len(), is_bad);
        Ok(Seen {
            ty: verdict.ty,
            found,
            local: None,
        })
    }

    // The type of the place that an argument is the value of.
    fn parameter_place(
        &self,
        alloc: Global,
        site: &Site<'_>,
        call: &Call,
        receiver: Option<&Ty>,
        index: usize,
    ) -> Result<Option<Ty>, NoMemory> {
        let parameter = parameter_at(site.declared, &self.known, call.callee, receiver, index);
        Ok(match parameter.place() {
            Some(ty) => Some(ty.copy(alloc)?),
            None => None,
        })
    }
}

/// `super(..)` in a function, or `super.NAME(..)`.
pub fn super_call(
    alloc: Global,
    site: &Site<'_>,
    name: Option<&Boxed<Text>>,
) -> Result<Call, NoMemory> {
    let name = match name {
        Some(name) => Some(name.get()),
        None => site.function,
    };
    super_callee(
        alloc,
        site.table,
        site.declared,
        site.class,
        site.is_static,
        name,
    )
}
