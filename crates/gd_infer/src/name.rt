//! What a name resolves to.

use crate::inference::Inference;
use crate::seen::Seen;
use crate::site::Site;
use cycle_resolver::Item;
use gd_members::Found;
use gd_model::Ty;
use gd_syntax::Text;
use gd_typing::{Declared, Known, Member, Name, Typing, bare_name};
use no_memory::NoMemory;
use std::alloc::Global;

impl Inference {
    /// What a bare name is: the local that is in force, else what its class finds.
    pub fn name(&mut self, alloc: Global, site: &Site<'_>, name: &Text) -> Result<Seen, NoMemory> {
        if let Some(number) = self.scope.find(name) {
            return self.local_seen(alloc, number);
        }
        let name = bare_name(
            alloc,
            site.table,
            site.declared,
            &self.known,
            site.class,
            site.is_static,
            name,
        )?;
        self.used(site, name)
    }

    /// A local, by its number.
    pub fn local_seen(&self, alloc: Global, number: usize) -> Result<Seen, NoMemory> {
        let ty = match self.locals.get(number) {
            Some(local) => local.ty.copy(alloc)?,
            None => Ty::Bad,
        };
        Ok(Seen {
            ty,
            found: None,
            local: Some(number),
        })
    }

    /// What a name or an attribute is, the item noted that it resolves to. One whose type is not known yet is Bad for now.
    pub fn used(&mut self, site: &Site<'_>, name: Name) -> Result<Seen, NoMemory> {
        match name {
            Name::Unknown(item) => {
                self.meets(item)?;
                self.waits.insert(item)?;
                Ok(Seen::of(Ty::Bad))
            }
            Name::Known(used) => {
                self.meets_found(site, used.found)?;
                let mut seen = Seen::named(used);
                if self.is_bad_enum(site, seen.found) {
                    seen.ty = Ty::Bad;
                }
                Ok(seen)
            }
        }
    }

    // An enum's name stands for all its values, so it is Bad where one of them is.
    fn is_bad_enum(&self, site: &Site<'_>, found: Option<Found>) -> bool {
        match found {
            Some(Found::Member(member)) if site.declared.enumeration(member).is_some() => {
                matches!(self.known.item(Item { member, value: 0 }), Some(Ty::Bad))
            }
            _ => false,
        }
    }

    /// Notes the item that a name or an attribute resolves to, if it is one.
    pub fn meets_found(&mut self, site: &Site<'_>, found: Option<Found>) -> Result<(), NoMemory> {
        match item_of(site.declared, found) {
            Some(item) => self.meets(item),
            None => Ok(()),
        }
    }

    fn meets(&mut self, item: Item) -> Result<(), NoMemory> {
        if self.notes_items {
            self.met.insert(item)?;
        }
        Ok(())
    }
}

/// The item that is found: a variable declared by `:=`, a constant, a value of an enum, or an enum as a whole.
pub fn item_of(declared: &Declared, found: Option<Found>) -> Option<Item> {
    match found? {
        Found::EnumValue(member, place) => Some(Item {
            member,
            value: place.saturating_add(1),
        }),
        Found::Member(member) => match declared.member(member) {
            Some(Member::Variable(_, Typing::Inferred) | Member::Constant(_) | Member::Enum(_)) => {
                Some(Item { member, value: 0 })
            }
            _ => None,
        },
        _ => None,
    }
}
