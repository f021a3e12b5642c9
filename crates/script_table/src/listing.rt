//! Lists the classes of a project and what they declare.
use crate::members::{Declared, Members, Sort};
use crate::number::number;
use crate::preloads::preloads_of;
use gd_members::{Found, MemberId};
use gd_outside::Path;
use gd_syntax::{ClassDecl, DeclKind, Expr, ExprKind, Pos, Script, Text, VarDecl};
use no_memory::NoMemory;
use std::alloc::Global;

/// Where a class stands.
#[derive(Drop)]
pub struct Class {
    /// The place of its file among the files.
    pub file: u32,
    /// The number of the class around it, and 0 for the class of a file.
    pub outer: u32,
    /// The places of inner classes among members that lead from the class of the file to it.
    pub way: Vec<u32>,
}

/// A constant without a written type, whose value may stand for a class.
#[derive(Clone, Copy)]
pub struct Constant<'a> {
    /// The place of its declaration.
    pub place: u32,
    pub class: u32,
    pub value: &'a Expr,
}

/// A path in a `preload` or after `extends`, with the class in which it stands and the place at which it is not found.
#[derive(Clone, Copy)]
pub struct Reference<'a> {
    pub class: u32,
    pub pos: Pos,
    pub path: &'a Text,
}

/// What stands in the trees of the classes.
#[derive(Drop)]
pub struct Sources<'a> {
    pub trees: Vec<&'a ClassDecl>,
    pub constants: Vec<Constant<'a>>,
    pub references: Vec<Reference<'a>>,
}

/// All classes, file by file, an outer class before its inner ones and these by place. The first has the number 1.
#[derive(Drop)]
pub struct Listing<'a> {
    pub alloc: Global,
    pub classes: Vec<Class>,
    pub members: Members,
    pub sources: Sources<'a>,
}

/// Lists the classes of these files.
pub fn list_project<'a>(
    alloc: Global,
    scripts: &'a [(Path, Script)],
) -> Result<Listing<'a>, NoMemory> {
    let mut listing = Listing {
        alloc,
        classes: Vec::new(alloc),
        members: Members::new(alloc),
        sources: Sources {
            trees: Vec::new(alloc),
            constants: Vec::new(alloc),
            references: Vec::new(alloc),
        },
    };
    for (file, script) in scripts.iter().enumerate() {
        list_class(&script.1, number(file)?, 0, &[], &mut listing)?;
    }
    Ok(listing)
}

// Lists the class and those in it.
fn list_class<'a>(
    tree: &'a ClassDecl,
    file: u32,
    outer: u32,
    way: &[u32],
    listing: &mut Listing<'a>,
) -> Result<(), NoMemory> {
    let class = listing.begin(tree, file, outer, way)?;
    for (place, member) in tree.members.as_slice().iter().enumerate() {
        let place = number(place)?;
        match &member.kind {
            DeclKind::Class(inner) => {
                listing.declare_class(class, inner)?;
                let way = longer(listing.alloc, way, place)?;
                list_class(inner, file, class, &way, listing)?;
            }
            kind => listing.declare_member(
                kind,
                MemberId {
                    class,
                    index: place,
                },
            )?,
        }
    }
    Ok(())
}

// The way with one more step.
fn longer(alloc: Global, way: &[u32], place: u32) -> Result<Vec<u32>, NoMemory> {
    let mut steps = Vec::from_slice(alloc, way)?;
    steps.push(place)?;
    Ok(steps)
}

// The value of a constant that may stand for a class: a name or a `preload`, with names behind dots.
fn class_value(constant: &VarDecl) -> Option<&Expr> {
    match (&constant.typed, &constant.value) {
        (None, Some(value)) if may_hold_class(value) => Some(value),
        _ => None,
    }
}

fn may_hold_class(value: &Expr) -> bool {
    match &value.kind {
        ExprKind::Name(_) | ExprKind::Preload(_) => true,
        ExprKind::Attr(inner, _) => may_hold_class(inner.get()),
        _ => false,
    }
}

impl<'a> Listing<'a> {
    // Adds a class, and answers its number.
    fn begin(
        &mut self,
        tree: &'a ClassDecl,
        file: u32,
        outer: u32,
        way: &[u32],
    ) -> Result<u32, NoMemory> {
        self.classes.push(Class {
            file,
            outer,
            way: Vec::from_slice(self.alloc, way)?,
        })?;
        self.sources.trees.push(tree)?;
        let class = number(self.classes.len())?;
        self.add_references(tree, class)?;
        Ok(class)
    }

    // Adds the paths of a class, but for those in its inner classes.
    fn add_references(&mut self, tree: &'a ClassDecl, class: u32) -> Result<(), NoMemory> {
        let mut found = Vec::new(self.alloc);
        preloads_of(tree, &mut found)?;
        if let Some(base) = &tree.base {
            if let Some(path) = &base.path {
                found.push((base.pos, path))?;
            }
        }
        for (pos, path) in found {
            self.sources
                .references
                .push(Reference { class, pos, path })?;
        }
        Ok(())
    }

    // Declares the inner class that is listed next.
    fn declare_class(&mut self, class: u32, inner: &ClassDecl) -> Result<(), NoMemory> {
        let Some(name) = &inner.name else {
            return Ok(());
        };
        let found = Found::Class(number(self.classes.len().saturating_add(1))?);
        self.declare(class, name, inner.pos, Sort::ClassName, found)
    }

    fn declare(
        &mut self,
        class: u32,
        name: &Text,
        pos: Pos,
        sort: Sort,
        found: Found,
    ) -> Result<(), NoMemory> {
        let name = self.members.intern(name)?;
        self.members.declare(Declared {
            class,
            name,
            pos,
            sort,
            found,
        })
    }

    // Declares the names of a member that is no class.
    fn declare_member(&mut self, kind: &'a DeclKind, id: MemberId) -> Result<(), NoMemory> {
        let found = Found::Member(id);
        match kind {
            DeclKind::Var(v) => {
                self.declare(id.class, &v.name, v.pos, Sort::Variable(v.is_static), found)
            }
            DeclKind::Const(v) => self.declare_constant(v, id),
            DeclKind::Func(f) => {
                self.declare(id.class, &f.name, f.pos, Sort::Function(f.is_static), found)
            }
            DeclKind::Signal(name, pos, _) => {
                self.declare(id.class, name, *pos, Sort::Signal, found)
            }
            DeclKind::Enum(Some((name, pos)), _) => {
                self.declare(id.class, name, *pos, Sort::EnumName, found)
            }
            DeclKind::Enum(None, values) => {
                for (place, value) in values.items().iter().enumerate() {
                    let found = Found::EnumValue(id, number(place)?);
                    self.declare(id.class, &value.0, value.1, Sort::EnumValue, found)?;
                }
                Ok(())
            }
            DeclKind::Class(_) | DeclKind::Nothing => Ok(()),
        }
    }

    fn declare_constant(&mut self, v: &'a VarDecl, id: MemberId) -> Result<(), NoMemory> {
        if let Some(value) = class_value(v) {
            self.sources.constants.push(Constant {
                place: number(self.members.declared().len())?,
                class: id.class,
                value,
            })?;
        }
        self.declare(id.class, &v.name, v.pos, Sort::Constant, Found::Member(id))
    }
}
