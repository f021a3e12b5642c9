//! Finds what each class extends and which class each constant holds, in rounds.
use crate::listing::Constant;
use crate::names::{Known, Names};
use gd_syntax::ClassDecl;
use no_memory::NoMemory;
use std::alloc::{Allocator, Global};

/// Looks up bases and constants anew by what the round before found, until a round changes nothing; at most as often
/// as there are classes and declarations, and once more.
pub fn settle(
    alloc: Global,
    names: &mut Names,
    trees: &[&ClassDecl],
    constants: &[Constant<'_>],
) -> Result<(), NoMemory> {
    let most = names
        .classes
        .len()
        .saturating_add(names.members.declared().len());
    for _ in 0..=most {
        match advanced(alloc, names, trees, constants)? {
            Some(known) => names.known = known,
            None => break,
        }
    }
    Ok(())
}

// What is found where all is looked up once more; none where that changes nothing.
fn advanced(
    alloc: Global,
    names: &Names,
    trees: &[&ClassDecl],
    constants: &[Constant<'_>],
) -> Result<Option<Known>, NoMemory> {
    let bases = next_bases(alloc, names, trees)?;
    let holds = next_holds(names, constants)?;
    if bases == names.known.bases && holds == names.known.holds {
        return Ok(None);
    }
    let lines = cut(alloc, &bases)?;
    Ok(Some(Known {
        bases,
        lines,
        holds,
    }))
}

// The base of each class by what is known.
fn next_bases(alloc: Global, names: &Names, trees: &[&ClassDecl]) -> Result<Vec<u32>, NoMemory> {
    let mut bases = Vec::new(alloc);
    let mut class = 0u32;
    for tree in trees {
        class = class.saturating_add(1);
        bases.push(names.extended(class, &tree.base).unwrap_or(0))?;
    }
    Ok(bases)
}

// The class that each constant holds by what is known.
fn next_holds(names: &Names, constants: &[Constant<'_>]) -> Result<Vec<Option<u32>>, NoMemory> {
    let mut holds = names.known.holds.clone()?;
    for constant in constants {
        let held = names.class_held(constant.value, constant.class);
        if let Some(place) = holds.get_mut(constant.place as usize) {
            *place = held;
        }
    }
    Ok(holds)
}

// What is known of a class while the walks of bases are followed.
#[derive(Clone, Copy, PartialEq, Eq)]
enum Walk {
    New,
    // on the way that is followed
    Open,
    Ends,
    Cyclic,
}

/// The bases, but RefCounted for each class from which no walk of bases ends. Each class is followed once.
pub fn cut(alloc: Global, bases: &[u32]) -> Result<Vec<u32>, NoMemory> {
    let mut walks = vec![in alloc; Walk::New; bases.len()]?;
    let mut way: Vec<usize> = Vec::new(alloc);
    for start in 0..bases.len() {
        let end = follow(bases, &mut walks, &mut way, start)?;
        for at in way.iter() {
            if let Some(walk) = walks.get_mut(*at) {
                *walk = end;
            }
        }
        way.clear();
    }
    let mut lines = Vec::new(alloc);
    for (base, walk) in bases.iter().zip(walks.iter()) {
        lines.push(if *walk == Walk::Ends { *base } else { 0 })?;
    }
    Ok(lines)
}

// Follows the bases of a class up to one that was followed before, and notes those on the way. Answers whether the walk
// ends.
fn follow(
    bases: &[u32],
    walks: &mut [Walk],
    way: &mut Vec<usize>,
    start: usize,
) -> Result<Walk, NoMemory> {
    let mut at = start;
    for _ in 0..=bases.len() {
        match walks.get_mut(at) {
            Some(walk) if *walk == Walk::New => *walk = Walk::Open,
            Some(Walk::Ends) => return Ok(Walk::Ends),
            _ => return Ok(Walk::Cyclic),
        }
        way.push(at)?;
        let base = match bases.get(at) {
            Some(base) => *base as usize,
            None => 0,
        };
        if base == 0 {
            return Ok(Walk::Ends);
        }
        at = base - 1;
    }
    Ok(Walk::Cyclic)
}
