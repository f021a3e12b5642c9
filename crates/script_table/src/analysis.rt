//! What the trees of a project tell, before its classes are ordered.
use crate::faults::all_faults;
use crate::listing::{Class, Constant, Listing, Reference, Sources, list_project};
use crate::members::Members;
use crate::names::{Known, Names, class_numbered};
use crate::number::number;
use crate::paths::{Files, file_named};
use crate::rounds::settle;
use gd_members::{Found, MemberId};
use gd_outside::Path;
use gd_rules::Diag;
use gd_syntax::{ClassDecl, Script, Text};
use indexmap::IndexMap;
use no_memory::NoMemory;
use std::alloc::Global;

/// What the trees of a project tell.
#[derive(Drop)]
pub struct Analysis {
    /// The class of each file, by its place in the listing.
    pub file_classes: Vec<u32>,
    pub names: Names,
    /// For each member that is a constant the place of its declaration.
    pub constants: IndexMap<MemberId, u32>,
    pub faults: Vec<Diag>,
}

/// Looks up all names of the trees that rules speak of.
pub fn analyse(
    alloc: Global,
    scripts: &[(Path, Script)],
    files: &Files,
) -> Result<Analysis, NoMemory> {
    let listing = list_project(alloc, scripts)?;
    let file_classes = classes_of_files(alloc, &listing.classes)?;
    let Listing {
        alloc: _,
        classes,
        members,
        sources,
    } = listing;
    let places = Places {
        scripts,
        files,
        file_classes: &file_classes,
    };
    let names = names_of(alloc, classes, members, &sources, &places)?;
    analysis_of(alloc, file_classes, names, &sources)
}

// The names where nothing is known yet of bases and constants.
fn names_of(
    alloc: Global,
    classes: Vec<Class>,
    mut members: Members,
    sources: &Sources<'_>,
    places: &Places<'_>,
) -> Result<Names, NoMemory> {
    let class_names = names_of_files(alloc, &classes, &sources.trees, &mut members)?;
    let paths = resolve_all(alloc, &classes, &mut members, places, &sources.references)?;
    let known = Known::new(alloc, classes.len(), members.declared().len())?;
    Ok(Names {
        classes,
        members,
        class_names,
        paths,
        known,
    })
}

fn analysis_of(
    alloc: Global,
    file_classes: Vec<u32>,
    mut names: Names,
    sources: &Sources<'_>,
) -> Result<Analysis, NoMemory> {
    settle(alloc, &mut names, &sources.trees, &sources.constants)?;
    let faults = all_faults(alloc, &names, &sources.trees, &sources.references)?;
    let constants = constants_of(alloc, &names.members, &sources.constants)?;
    Ok(Analysis {
        file_classes,
        names,
        constants,
        faults,
    })
}

// The classes of the files, by their places in the listing.
fn classes_of_files(alloc: Global, classes: &[Class]) -> Result<Vec<u32>, NoMemory> {
    let mut found = Vec::new(alloc);
    for (place, class) in classes.iter().enumerate() {
        if class.outer == 0 {
            found.push(number(place)?.saturating_add(1))?;
        }
    }
    Ok(found)
}

// The class of the first file with each name, by the number of the name.
fn names_of_files(
    alloc: Global,
    classes: &[Class],
    trees: &[&ClassDecl],
    members: &mut Members,
) -> Result<IndexMap<u32, u32>, NoMemory> {
    let mut found = IndexMap::new(alloc);
    for (place, class) in classes.iter().enumerate() {
        if class.outer == 0 && place < trees.len() {
            if let Some(name) = &trees[place].name {
                let name = members.intern(name)?;
                if !found.contains_key(&name) {
                    found.insert(name, number(place)?.saturating_add(1))?;
                }
            }
        }
    }
    Ok(found)
}

// The files, by which the classes that paths name are found.
#[derive(Clone, Copy)]
struct Places<'a> {
    scripts: &'a [(Path, Script)],
    files: &'a Files,
    file_classes: &'a [u32],
}

// The classes of the files that paths name, by the file in which a path stands and the number of its text.
fn resolve_all(
    alloc: Global,
    classes: &[Class],
    members: &mut Members,
    places: &Places<'_>,
    references: &[Reference<'_>],
) -> Result<IndexMap<(u32, u32), u32>, NoMemory> {
    let mut paths = IndexMap::new(alloc);
    for reference in references {
        if let Some(class) = class_numbered(classes, reference.class) {
            let key = (class.file, members.intern(reference.path)?);
            resolve(alloc, places, key, reference.path, &mut paths)?;
        }
    }
    Ok(paths)
}

// Notes the class of the file that a path names, where it was not noted before.
fn resolve(
    alloc: Global,
    places: &Places<'_>,
    key: (u32, u32),
    path: &Text,
    paths: &mut IndexMap<(u32, u32), u32>,
) -> Result<(), NoMemory> {
    if paths.contains_key(&key) {
        return Ok(());
    }
    if let Some(class) = class_at(alloc, places, key.0, path)? {
        paths.insert(key, class)?;
    }
    Ok(())
}

// The class of the file that a path names which stands in a file.
fn class_at(
    alloc: Global,
    places: &Places<'_>,
    file: u32,
    path: &Text,
) -> Result<Option<u32>, NoMemory> {
    let Some(script) = places.scripts.get(file as usize) else {
        return Ok(None);
    };
    match file_named(alloc, places.files, script.0.bytes(), path)? {
        Some(place) => Ok(places.file_classes.get(place as usize).copied()),
        None => Ok(None),
    }
}

// The places of the declarations of constants that may hold a class, by their members.
fn constants_of(
    alloc: Global,
    members: &Members,
    constants: &[Constant<'_>],
) -> Result<IndexMap<MemberId, u32>, NoMemory> {
    let mut places = IndexMap::new(alloc);
    for constant in constants {
        if let Some(declared) = members.at(constant.place) {
            if let Found::Member(id) = declared.found {
                places.insert(id, constant.place)?;
            }
        }
    }
    Ok(places)
}
