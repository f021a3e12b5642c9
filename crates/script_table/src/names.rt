//! What names in the classes of a project stand for.
use crate::builtins::is_ref_counted;
use crate::listing::Class;
use crate::members::{Members, Sort};
use gd_members::Found;
use gd_syntax::{BaseName, Expr, ExprKind, Text};
use indexmap::IndexMap;
use no_memory::NoMemory;
use std::alloc::{Allocator, Global};

/// The classes with their names, and what is known of their bases and of the classes that constants hold. Classes go
/// by their place in the listing, from 1; 0 is RefCounted.
#[derive(Drop)]
pub struct Names {
    pub classes: Vec<Class>,
    pub members: Members,
    /// The class with a name in the whole project, by the number of the name.
    pub class_names: IndexMap<u32, u32>,
    /// The class of the file that a path names, by the file in which it stands and the number of its text.
    pub paths: IndexMap<(u32, u32), u32>,
    pub known: Known,
}

/// What is known of the bases of classes, and of the classes that constants hold.
#[derive(Drop)]
pub struct Known {
    /// The base that each class names.
    pub bases: Vec<u32>,
    /// The same, but RefCounted for each class from which no walk of bases ends.
    pub lines: Vec<u32>,
    /// For each declaration the class that it holds, where it is a constant that holds one.
    pub holds: Vec<Option<u32>>,
}

// What can be named from an inner class: it needs no instance.
fn needs_no_instance(sort: Sort) -> bool {
    match sort {
        Sort::Variable(is_static) | Sort::Function(is_static) => is_static,
        Sort::Signal => false,
        Sort::Constant | Sort::EnumName | Sort::EnumValue | Sort::ClassName => true,
    }
}

impl Known {
    /// Each base is RefCounted and no constant holds a class.
    pub fn new(alloc: Global, classes: usize, declared: usize) -> Result<Known, NoMemory> {
        let bases = vec![in alloc; 0u32; classes]?;
        let lines = vec![in alloc; 0u32; classes]?;
        let holds = vec![in alloc; None; declared]?;
        Ok(Known {
            bases,
            lines,
            holds,
        })
    }
}

impl Names {
    /// The class with this number.
    pub fn class(&self, class: u32) -> Option<&Class> {
        class_numbered(&self.classes, class)
    }

    /// The class around a class, and 0 where there is none.
    pub fn outer(&self, class: u32) -> u32 {
        match self.class(class) {
            Some(c) => c.outer,
            None => 0,
        }
    }

    /// The base that every rule but those about bases goes by.
    pub fn base(&self, class: u32) -> u32 {
        number_at(&self.known.lines, class)
    }

    /// Whether the walk of bases does not end.
    pub fn is_cyclic(&self, class: u32) -> bool {
        self.base(class) != number_at(&self.known.bases, class)
    }

    /// The place of the declaration of a name in a class or in the nearest of its bases.
    pub fn member(&self, class: u32, name: u32) -> Option<u32> {
        let mut at = class;
        for _ in 0..self.classes.len() {
            if at == 0 {
                return None;
            }
            if let Some(place) = self.members.first(at, name) {
                return Some(place);
            }
            at = self.base(at);
        }
        None
    }

    // The same of what needs no instance.
    fn shared(&self, class: u32, name: u32) -> Option<u32> {
        let mut at = class;
        for _ in 0..self.classes.len() {
            if at == 0 {
                return None;
            }
            if let Some(place) = self.own_shared(at, name) {
                return Some(place);
            }
            at = self.base(at);
        }
        None
    }

    fn own_shared(&self, class: u32, name: u32) -> Option<u32> {
        let place = self.members.first(class, name)?;
        if needs_no_instance(self.members.at(place)?.sort) {
            Some(place)
        } else {
            None
        }
    }

    // The same in the classes around a class, from the inside out, each with its bases.
    fn shared_around(&self, class: u32, name: u32) -> Option<u32> {
        let mut at = self.outer(class);
        for _ in 0..self.classes.len() {
            if at == 0 {
                return None;
            }
            if let Some(place) = self.shared(at, name) {
                return Some(place);
            }
            at = self.outer(at);
        }
        None
    }

    /// The place of the declaration that a bare name in a class stands for, where no local has the name.
    pub fn declaration(&self, class: u32, name: &Text) -> Option<u32> {
        let name = self.members.number_of(name)?;
        match self.member(class, name) {
            Some(place) => Some(place),
            None => self.shared_around(class, name),
        }
    }

    /// The class that has this name in the whole project: RefCounted, or that of the first file with the name.
    pub fn class_named(&self, name: &Text) -> Option<u32> {
        if is_ref_counted(name.chars()) {
            return Some(0);
        }
        self.class_names
            .get(&self.members.number_of(name)?)
            .copied()
    }

    // The class that a declaration stands for: an inner class, or the one that a constant holds.
    fn class_for(&self, place: u32) -> Option<u32> {
        match self.members.at(place)?.found {
            Found::Class(number) => Some(number),
            _ => self.held(place),
        }
    }

    /// The class that a declaration holds, where it is a constant that holds one.
    pub fn held(&self, place: u32) -> Option<u32> {
        *self.known.holds.get(place as usize)?
    }

    // The class that a bare name in a class stands for.
    fn class_by_name(&self, class: u32, name: &Text) -> Option<u32> {
        match self.declaration(class, name) {
            Some(place) => self.class_for(place),
            None => self.class_named(name),
        }
    }

    /// The class of the file that a path names which stands in a class.
    pub fn class_at_path(&self, class: u32, path: &Text) -> Option<u32> {
        let file = self.class(class)?.file;
        let path = self.members.number_of(path)?;
        self.paths.get(&(file, path)).copied()
    }

    /// The class that an expression in a class stands for: a name or a `preload`, with names behind dots.
    pub fn class_held(&self, x: &Expr, class: u32) -> Option<u32> {
        match &x.kind {
            ExprKind::Name(name) => self.class_by_name(class, name),
            ExprKind::Preload(path) => self.class_at_path(class, path),
            ExprKind::Attr(inner, name) => {
                let at = self.class_held(inner.get(), class)?;
                let name = self.members.number_of(name)?;
                self.class_for(self.member(at, name)?)
            }
            _ => None,
        }
    }

    // An inner class or class constant of the class itself.
    fn own_class(&self, class: u32, name: u32) -> Option<u32> {
        self.class_for(self.members.first(class, name)?)
    }

    // The same of the classes around a class, from the inside out.
    fn own_class_around(&self, class: u32, name: u32) -> Option<u32> {
        let mut at = self.outer(class);
        for _ in 0..self.classes.len() {
            if at == 0 {
                return None;
            }
            if let Some(found) = self.own_class(at, name) {
                return Some(found);
            }
            at = self.outer(at);
        }
        None
    }

    // Names behind dots, each among the inner classes and class constants of the class before it.
    fn further(&self, class: u32, names: &[Text]) -> Option<u32> {
        let mut at = class;
        for name in names {
            at = self.own_class(at, self.members.number_of(name)?)?;
        }
        Some(at)
    }

    /// The class that a class extends; none where what it names is not found.
    pub fn extended(&self, class: u32, base: &Option<BaseName>) -> Option<u32> {
        match base {
            Some(base) => self.extended_by(class, base),
            None => Some(0),
        }
    }

    /// The class that stands after `extends` in a class; none where it is not found.
    pub fn extended_by(&self, class: u32, base: &BaseName) -> Option<u32> {
        if let Some(path) = &base.path {
            return self.further(self.class_at_path(class, path)?, base.names.items());
        }
        let (first, rest) = base.names.items().split_first()?;
        self.further(self.first_class(class, first)?, rest)
    }

    // The class that the first name of an `extends` stands for.
    fn first_class(&self, class: u32, name: &Text) -> Option<u32> {
        match self.class_around(class, name) {
            Some(found) => Some(found),
            None => self.class_named(name),
        }
    }

    fn class_around(&self, class: u32, name: &Text) -> Option<u32> {
        self.own_class_around(class, self.members.number_of(name)?)
    }
}

/// The class with this number in a listing.
pub fn class_numbered(classes: &[Class], class: u32) -> Option<&Class> {
    if class == 0 {
        return None;
    }
    classes.get(class as usize - 1)
}

/// The number at a class in a list by class, and 0 at RefCounted.
pub fn number_at(list: &[u32], class: u32) -> u32 {
    if class == 0 {
        return 0;
    }
    match list.get(class as usize - 1) {
        Some(number) => *number,
        None => 0,
    }
}
