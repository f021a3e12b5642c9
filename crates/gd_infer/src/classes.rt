//! The types in the bodies of classes, once the items are known.

use crate::inference::Inference;
use crate::site::Site;
use crate::statement::optional;
use cycle_resolver::{Item, MemberId};
use gd_model::Ty;
use gd_syntax::{Accessor, ClassDecl, DeclKind, Expr, FuncDecl, Pos, Text, VarDecl};
use gd_typing::{Declared, Known, Member, Typing};
use no_memory::NoMemory;
use script_table::Table;
use sqlite_items::Boxed;
use std::alloc::Global;

impl Inference {
    /// Finds the types of the parameters of the project that are declared by `:=`.
    pub fn find_parameters(
        &mut self,
        alloc: Global,
        table: &Table,
        declared: &Declared,
    ) -> Result<(), NoMemory> {
        for place in 0..table.class_count() {
            let class = place.saturating_add(1);
            if let Some(body) = table.class(class) {
                self.find_class_parameters(alloc, table, declared, class, body)?;
            }
        }
        Ok(())
    }

    fn find_class_parameters<'x>(
        &mut self,
        alloc: Global,
        table: &'x Table,
        declared: &'x Declared,
        class: u32,
        body: &'x ClassDecl,
    ) -> Result<(), NoMemory> {
        let mut index = 0u32;
        for member in body.members.as_slice() {
            if let DeclKind::Func(function) = &member.kind {
                // A default value may call `super`, which is of this function.
                let site = Site {
                    function: Some(&function.name),
                    ..Site::in_class(table, declared, class, function.is_static)
                };
                let id = MemberId { class, index };
                if infers_parameter(function) {
                    self.scope.enter()?;
                    self.parameters(alloc, &site, Some(id), function.params.items())?;
                    self.scope.leave()?;
                }
            }
            index = index.saturating_add(1);
        }
        Ok(())
    }

    /// Types all values and bodies of the project.
    pub fn type_classes(
        &mut self,
        alloc: Global,
        table: &Table,
        declared: &Declared,
    ) -> Result<(), NoMemory> {
        for place in 0..table.class_count() {
            let class = place.saturating_add(1);
            if let Some(body) = table.class(class) {
                self.type_class(alloc, table, declared, class, body)?;
            }
        }
        Ok(())
    }

    fn type_class(
        &mut self,
        alloc: Global,
        table: &Table,
        declared: &Declared,
        class: u32,
        body: &ClassDecl,
    ) -> Result<(), NoMemory> {
        let mut index = 0u32;
        for member in body.members.as_slice() {
            let id = MemberId { class, index };
            self.type_member(alloc, table, declared, id, &member.kind)?;
            index = index.saturating_add(1);
        }
        Ok(())
    }

    fn type_member<'x>(
        &mut self,
        alloc: Global,
        table: &'x Table,
        declared: &'x Declared,
        id: MemberId,
        kind: &'x DeclKind,
    ) -> Result<(), NoMemory> {
        let site = Site::in_class(table, declared, id.class, true);
        match kind {
            DeclKind::Var(variable) => self.type_variable(alloc, &site, id, variable),
            DeclKind::Const(constant) => {
                self.making.come_to(Item {
                    member: id,
                    value: 0,
                })?;
                self.constant_types(alloc, &site, constant)?;
                Ok(())
            }
            DeclKind::Func(function) => self.type_function(alloc, &site, function),
            DeclKind::Signal(_, _, parameters) => {
                let site = Site {
                    is_static: false,
                    ..site
                };
                self.scope.enter()?;
                // The parameters of a signal may have the same name.
                let before = self.repeated.len();
                self.parameters(alloc, &site, None, parameters.items())?;
                self.repeated.truncate(before);
                self.scope.leave()
            }
            DeclKind::Enum(name, values) => {
                self.type_enum(alloc, &site, id, name.is_some(), values.items())
            }
            DeclKind::Class(_) | DeclKind::Nothing => Ok(()),
        }
    }

    fn type_enum(
        &mut self,
        alloc: Global,
        site: &Site<'_>,
        member: MemberId,
        is_named: bool,
        values: &[(Text, Pos, Option<Expr>)],
    ) -> Result<(), NoMemory> {
        let mut number = 0u32;
        for value in values {
            number = number.saturating_add(1);
            self.making.come_to(Item {
                member,
                value: number,
            })?;
            if let Some(e) = &value.2 {
                self.value(alloc, site, e, None)?;
            }
        }
        if is_named {
            self.making.come_to(Item { member, value: 0 })?;
        }
        Ok(())
    }

    fn type_variable(
        &mut self,
        alloc: Global,
        site: &Site<'_>,
        id: MemberId,
        variable: &VarDecl,
    ) -> Result<(), NoMemory> {
        let site = Site {
            is_static: variable.is_static,
            ..*site
        };
        self.variable(alloc, &site, variable)?;
        let ty = self.member_type(alloc, site.declared, id)?;
        let setter = variable.setter.as_ref();
        let getter = variable.getter.as_ref();
        // The local constants of the two are made by place.
        if stands_before(getter, setter) {
            self.accessor(alloc, &site, getter, &ty)?;
            self.accessor(alloc, &site, setter, &ty)
        } else {
            self.accessor(alloc, &site, setter, &ty)?;
            self.accessor(alloc, &site, getter, &ty)
        }
    }

    /// The type of a variable of a class.
    fn member_type(
        &self,
        alloc: Global,
        declared: &Declared,
        member: MemberId,
    ) -> Result<Ty, NoMemory> {
        match declared.member(member) {
            Some(Member::Variable(_, Typing::Written(ty))) => ty.copy(alloc),
            Some(Member::Variable(_, Typing::Inferred)) => {
                match self.known.item(Item { member, value: 0 }) {
                    Some(ty) => ty.copy(alloc),
                    None => Ok(Ty::Bad),
                }
            }
            _ => Ok(Ty::Variant),
        }
    }

    // The body of an accessor: a setter has a parameter of the variable's type, a getter returns it.
    fn accessor<'x>(
        &mut self,
        alloc: Global,
        site: &Site<'x>,
        accessor: Option<&Boxed<Accessor>>,
        ty: &'x Ty,
    ) -> Result<(), NoMemory> {
        let Some(accessor) = accessor else {
            return Ok(());
        };
        match accessor.get() {
            Accessor::Named(_, _) => Ok(()),
            Accessor::Body(Some(parameter), body, pos, _) => {
                self.scope.enter()?;
                self.declare(parameter, *pos, ty.copy(alloc)?)?;
                self.block(alloc, site, body.as_slice())?;
                self.scope.leave()
            }
            Accessor::Body(None, body, _, _) => {
                let site = Site {
                    returns: Some(ty),
                    ..*site
                };
                self.block(alloc, &site, body.as_slice())
            }
        }
    }

    fn type_function<'x>(
        &mut self,
        alloc: Global,
        site: &Site<'x>,
        function: &'x FuncDecl,
    ) -> Result<(), NoMemory> {
        let returns = optional(alloc, site, function.result.as_ref())?;
        let site = Site {
            is_static: function.is_static,
            function: Some(&function.name),
            returns: returns.as_ref(),
            ..*site
        };
        self.scope.enter()?;
        self.parameters(alloc, &site, None, function.params.items())?;
        self.block(alloc, &site, function.body.items())?;
        self.scope.leave()
    }

    // Declares the parameters, each behind its default value. Of a function that is named, the types of those that are
    // declared by `:=` are noted.
    fn parameters(
        &mut self,
        alloc: Global,
        site: &Site<'_>,
        function: Option<MemberId>,
        parameters: &[VarDecl],
    ) -> Result<(), NoMemory> {
        let mut index = 0usize;
        for parameter in parameters {
            let ty = self.variable(alloc, site, parameter)?;
            if let Some(function) = function
                && parameter.inferred
            {
                self.known.set_parameter(function, index, ty.copy(alloc)?)?;
            }
            self.declare(&parameter.name, parameter.pos, ty)?;
            index = index.saturating_add(1);
        }
        Ok(())
    }
}

// Whether the first accessor has a body that stands before that of the second.
fn stands_before(a: Option<&Boxed<Accessor>>, b: Option<&Boxed<Accessor>>) -> bool {
    match (body_place(a), body_place(b)) {
        (Some(a), Some(b)) => a < b,
        _ => false,
    }
}

fn body_place(accessor: Option<&Boxed<Accessor>>) -> Option<Pos> {
    match accessor?.get() {
        Accessor::Body(_, _, pos, _) => Some(*pos),
        Accessor::Named(_, _) => None,
    }
}

fn infers_parameter(function: &FuncDecl) -> bool {
    for parameter in function.params.items() {
        if parameter.inferred {
            return true;
        }
    }
    false
}
