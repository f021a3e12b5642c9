//! Where a pattern goes on that fails.
//!
//! The tests of kinds, sizes and keys that stand first in a pattern are its leading ones. Where the pattern behind it
//! begins with the same tests, what they gave is known there: if the one that failed is among them, that pattern fails
//! too, and else they are passed over. From the first expression or binding on nothing is known, since an expression
//! may change what was tested.

use crate::alternatives::{Alternative, Test};
use crate::number::number;
use no_memory::NoMemory;
use std::alloc::Global;

/// Where a test leads that fails.
#[derive(Clone, Copy)]
pub enum Onward {
    /// To a test, by its place among all tests.
    Test(u32),
    /// To where the tests of an alternative are all passed.
    Passed(u32),
    /// No alternative is left.
    Nothing,
}

/// For each test where it leads when it fails.
pub fn failures(
    alloc: Global,
    alternatives: &[Alternative],
    tests: &[Test],
) -> Result<Vec<Onward>, NoMemory> {
    let mut found = Vec::new(alloc);
    for _ in tests {
        found.push(Onward::Nothing)?;
    }
    let mut next = None;
    for (place, alternative) in alternatives.iter().enumerate().rev() {
        if let Some(next) = next {
            fill(&mut found, tests, *alternative, next);
        }
        next = Some(Placed {
            place: number(place)?,
            alternative: *alternative,
        });
    }
    Ok(found)
}

/// Where an alternative begins.
pub fn beginning(place: u32, alternative: Alternative) -> Onward {
    entry(Placed { place, alternative }, 0)
}

// An alternative and its place among all.
#[derive(Clone, Copy)]
struct Placed {
    place: u32,
    alternative: Alternative,
}

// Finds where the tests of an alternative lead that fail, of which those of the next one are known.
fn fill(found: &mut [Onward], tests: &[Test], alternative: Alternative, next: Placed) {
    let shared = shared_tests(tests, alternative, next.alternative);
    let mut leads = true;
    let mut passed = 0u32;
    for place in alternative.first..alternative.end {
        leads = leads && is_leading(tests.get(place as usize));
        let onward = if !leads {
            entry(next, 0)
        } else if passed < shared {
            known(found, next.alternative.first.saturating_add(passed))
        } else {
            entry(next, shared)
        };
        if let Some(place) = found.get_mut(place as usize) {
            *place = onward;
        }
        passed = passed.saturating_add(1);
    }
}

fn known(found: &[Onward], place: u32) -> Onward {
    match found.get(place as usize) {
        Some(onward) => *onward,
        None => Onward::Nothing,
    }
}

// An alternative behind so many of its tests.
fn entry(next: Placed, passed: u32) -> Onward {
    let place = next.alternative.first.saturating_add(passed);
    if place < next.alternative.end {
        Onward::Test(place)
    } else {
        Onward::Passed(next.place)
    }
}

// How many leading tests two alternatives begin with that are the same.
fn shared_tests(tests: &[Test], one: Alternative, other: Alternative) -> u32 {
    let mut shared = 0u32;
    for (place, at) in (one.first..one.end).zip(other.first..other.end) {
        let test = tests.get(place as usize);
        if !is_leading(test) || test != tests.get(at as usize) {
            return shared;
        }
        shared = shared.saturating_add(1);
    }
    shared
}

fn is_leading(test: Option<&Test>) -> bool {
    matches!(
        test,
        Some(Test::Kind(_, _) | Test::Size(_, _, _) | Test::HasKey(_, _))
    )
}
