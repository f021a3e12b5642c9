//! The table of a project's classes.
ghost use Rattle.std.specs.Prelude.{◌≡◌, ◌+◌, length, option_map, slice_get, IfOk};
ghost use Rattle.std.specs.Option.{option_copied};
ghost use Rattle.assignability.specs.Assign.{is_among};
ghost use Rattle.script_table.specs.Seen as spec;
ghost use Rattle.script_table.specs.Seen.{IsFalling, base_of, line_of};

use crate::analysis::{Analysis, analyse};
use crate::builtins::builtin_number;
use crate::class_order::{class_order, order_numbers};
use crate::listing::Class;
use crate::names::{Names, number_at};
use crate::number::number;
use crate::paths::{Files, places_of};
use assignability::Bases;
use gd_members::{Found, MemberId};
use gd_model::impossible;
use gd_outside::Path;
use gd_rules::Diag;
use gd_syntax::{ClassDecl, Decl, DeclKind, Script, Text};
use no_memory::NoMemory;
use std::alloc::{Allocator, Global};
use std::marker::Model;

/// What a class is called in prints.
#[derive(Clone, Copy)]
pub enum ClassName<'a> {
    /// Class 0.
    RefCounted,
    /// The `class_name` of a file, or the name of an inner class.
    Name(&'a Text),
    /// The path of a file without a `class_name`.
    File(&'a Path),
}

/// The classes of a project with all their names.
///
/// Class 0 is RefCounted, and class k, from 1, the k-th of the class order. A number above `class_count` is that of no
/// class.
#[derive(Drop)]
pub struct Table {
    scripts: Vec<(Path, Script)>,
    index: Index,
}

// What look-ups go by.
#[derive(Drop)]
struct Index {
    file_count: u32,
    files: Files,
    analysis: Analysis,
    order: Order,
}

// The class order.
#[derive(Drop)]
struct Order {
    class_count: u32,
    // the places in the listing, in the class order
    classes: Vec<u32>,
    // the numbers in the class order, by the places in the listing
    numbers: Vec<u32>,
    // the bases of RefCounted, whose one does not count, and of the classes in their order
    bases: Vec<u32>,
}

impl Model for Table {
    ghost use Rattle.std.specs.Prelude.{◌≡◌, length};
    ghost use Rattle.script_table.specs.Seen.{IsFalling, Seen};
    ghost use Rattle.gd_syntax.specs.contracts.tree.decl.ClassDecl as class_tree;
    ghost use Rattle.std.specs.Coded.{codes};

    ghost Value = { Seen };

    ghost coded = { Prim.hlevel (codes, class_tree.the_row.coded) };

    ghost view = { λ t. record { project = t.scripts.items; bases = t.index.order.bases.items } };

    ghost invariant = { λ t. IsFalling t.index.order.bases.items × (t.index.file_count ≡ length t.scripts.items) };
}

/// The table of these files, which have distinct paths by rising bytes. The places in the k-th script, from 0, name file k.
pub fn build(alloc: Global, scripts: Vec<(Path, Script)>) -> Result<Table, NoMemory>
    ensures { IfOk result (λ table. table.project ≡ scripts.items) }
{
    let index = index_of(alloc, &scripts)?;
    Ok(Table { scripts, index })
}

fn index_of(alloc: Global, scripts: &[(Path, Script)]) -> Result<Index, NoMemory>
    ensures falling { IfOk result (λ index. IsFalling index.order.bases.items) }
    ensures counted { IfOk result (λ index. index.file_count ≡ length scripts.now) }
{
    let file_count = number(scripts.len())?;
    let files = places_of(alloc, scripts)?;
    let analysis = analyse(alloc, scripts, &files)?;
    let order = order_of(alloc, &analysis.names)?;
    Ok(Index {
        file_count,
        files,
        analysis,
        order,
    })
}

fn order_of(alloc: Global, names: &Names) -> Result<Order, NoMemory>
    ensures { IfOk result (λ order. IsFalling order.bases.items) }
{
    let classes = class_order(alloc, &names.known.lines)?;
    let class_count = number(classes.len())?;
    let numbers = order_numbers(alloc, &classes)?;
    let bases = ordered_bases(alloc, names, &classes, &numbers)?;
    Ok(Order {
        class_count,
        classes,
        numbers,
        bases,
    })
}

// The base of RefCounted, which does not count, and of each class in the class order, by its number there.
fn ordered_bases(
    alloc: Global,
    names: &Names,
    order: &[u32],
    numbers: &[u32],
) -> Result<Vec<u32>, NoMemory>
    ensures { IfOk result (λ bases. IsFalling bases.items) }
{
    let mut bases = vec![in alloc; 0u32; 1]?;
    for class in order {
        let base = number_at(numbers, names.base(*class));
        if base as usize >= bases.len() {
            return Err(impossible().into());
        }
        bases.push(base)?;
    }
    Ok(bases)
}

impl Table {
    /// The places at which A01 to A06 hold, in no order that matters.
    pub fn faults(&self) -> &[Diag] {
        self.index.analysis.faults.as_slice()
    }

    /// How many classes the project has, RefCounted aside: they have the numbers from 1 to this one.
    pub fn class_count(&self) -> u32 {
        self.index.order.class_count
    }

    /// How many files the project has.
    pub fn file_count(&self) -> u32
        ensures { result ≡ length self.now.project }
    {
        self.index.file_count
    }

    /// The tree of a class; none of RefCounted.
    pub fn class(&self, id: u32) -> Option<&ClassDecl> {
        let class = self.listed(id)?;
        let mut tree = &self.scripts.get(class.file as usize)?.1;
        for place in &class.way {
            tree = inner_class(tree, *place)?;
        }
        Some(tree)
    }

    /// The base of a class; none of RefCounted. A class whose base is not found, or whose walk of bases does not end,
    /// has RefCounted as its base.
    pub fn base(&self, id: u32) -> Option<u32>
        ensures { result ≡ base_of self.now.bases id }
    {
        if id == 0 {
            return None;
        }
        self.index.order.bases.get(id as usize).copied()
    }

    /// The class around an inner class.
    pub fn outer(&self, class: u32) -> Option<u32> {
        match self.listed(class)?.outer {
            0 => None,
            outer => Some(self.numbered(outer)),
        }
    }

    /// The place of the file in which a class stands; none of RefCounted.
    pub fn file_of(&self, class: u32) -> Option<u32> {
        Some(self.listed(class)?.file)
    }

    /// What a class is called in prints.
    pub fn class_name(&self, class: u32) -> Option<ClassName<'_>> {
        if class == 0 {
            return Some(ClassName::RefCounted);
        }
        if let Some(name) = &self.class(class)?.name {
            return Some(ClassName::Name(name));
        }
        Some(ClassName::File(self.path(self.file_of(class)?)?))
    }

    /// The path of a file.
    pub fn path(&self, file: u32) -> Option<&Path>
        ensures { option_copied result ≡ option_map (λ f. f.0) (slice_get self.now.project file) }
    {
        match self.scripts.get(file as usize) {
            Some(script) => Some(&script.0),
            None => None,
        }
    }

    /// The class of the file with this path.
    pub fn file_class(&self, path: &Path) -> Option<u32> {
        let file = *self.index.files.get(path.bytes())?;
        Some(self.numbered(*self.index.analysis.file_classes.get(file as usize)?))
    }

    /// The class of the file that a path names, where the path stands in a `preload` or after an `extends` of this class.
    pub fn preload_class(&self, class: u32, path: &Text) -> Option<u32> {
        Some(self.numbered(self.names().class_at_path(self.place_of(class)?, path)?))
    }

    /// The class that a constant holds.
    pub fn constant_class(&self, member: MemberId) -> Option<u32> {
        let id = MemberId {
            class: self.place_of(member.class)?,
            index: member.index,
        };
        Some(self.numbered(self.names().held(*self.index.analysis.constants.get(&id)?)?))
    }

    /// The declaration of a member.
    pub fn declaration(&self, member: MemberId) -> Option<&Decl> {
        self.class(member.class)?.members.get(member.index as usize)
    }

    /// What a class itself declares by this name: a Member, an EnumValue or a Class.
    pub fn own(&self, class: u32, name: &Text) -> Option<Found> {
        let name = self.names().members.number_of(name)?;
        self.found_at(self.names().members.first(self.place_of(class)?, name)?)
    }

    /// What the class or the nearest of its bases declares by this name: a Member, an EnumValue or a Class.
    pub fn member(&self, class: u32, name: &Text) -> Option<Found> {
        let name = self.names().members.number_of(name)?;
        self.found_at(self.names().member(self.place_of(class)?, name)?)
    }

    /// The class that has this name in the whole project: that of the first file with this `class_name`, or RefCounted.
    pub fn class_named(&self, name: &Text) -> Option<u32> {
        Some(self.numbered(self.names().class_named(name)?))
    }

    /// What a bare name in a class stands for where no local has it.
    pub fn find(&self, class: u32, name: &Text) -> Found {
        if let Some(found) = self.declared(class, name) {
            return found;
        }
        if let Some(class) = self.class_named(name) {
            return Found::Class(class);
        }
        match builtin_number(name.chars()) {
            Some(number) => Found::Builtin(number),
            None => Found::Missing,
        }
    }

    fn names(&self) -> &Names {
        &self.index.analysis.names
    }

    // The declaration that a bare name in a class stands for.
    fn declared(&self, class: u32, name: &Text) -> Option<Found> {
        self.found_at(self.names().declaration(self.place_of(class)?, name)?)
    }

    // What the declaration at a place is found as.
    fn found_at(&self, place: u32) -> Option<Found> {
        Some(self.ordered(self.names().members.at(place)?.found))
    }

    // What was found, with the number of its class in the class order.
    fn ordered(&self, found: Found) -> Found {
        match found {
            Found::Member(id) => Found::Member(self.ordered_id(id)),
            Found::EnumValue(id, place) => Found::EnumValue(self.ordered_id(id), place),
            Found::Class(class) => Found::Class(self.numbered(class)),
            other => other,
        }
    }

    fn ordered_id(&self, id: MemberId) -> MemberId {
        MemberId {
            class: self.numbered(id.class),
            index: id.index,
        }
    }

    // The place in the listing of a class of the class order.
    fn place_of(&self, class: u32) -> Option<u32> {
        if class == 0 {
            return None;
        }
        self.index.order.classes.get(class as usize - 1).copied()
    }

    fn listed(&self, class: u32) -> Option<&Class> {
        self.names().class(self.place_of(class)?)
    }

    // The number in the class order of a class of the listing.
    fn numbered(&self, class: u32) -> u32 {
        number_at(&self.index.order.numbers, class)
    }
}

// The inner class that is this member.
fn inner_class(tree: &ClassDecl, place: u32) -> Option<&ClassDecl> {
    match &tree.members.get(place as usize)?.kind {
        DeclKind::Class(inner) => Some(inner),
        _ => None,
    }
}

impl Bases for Table {
    ghost bases = { λ table class. line_of table.bases class };

    fn is_base(&self, class: u32, base: u32) -> bool {
        is_on_line(&self.index.order.bases, class, base)
    }
}

// Whether the class or one of its bases, which have lower numbers, is `base`.
fn is_on_line(bases: &[u32], class: u32, base: u32) -> bool
    requires { IsFalling bases.now }
    ensures { result ≡ is_among (line_of bases.now class) base }
{
    let mut at = class;
    'walk: while at > base {
        at = next(bases, at);
    }
    at == base
}

// The base of a class, or RefCounted.
fn next(bases: &[u32], class: u32) -> u32
    ensures { result ≡ spec.next bases.now class }
{
    match bases.get(class as usize) {
        Some(base) => *base,
        None => 0,
    }
}
