//! The tests of a `match` in one list.

use crate::alternatives::{Alternative, Alternatives, Test, alternatives_of};
use crate::number::number;
use crate::sharing::{Onward, beginning, failures};
use crate::tree::{Subject, TestNode, TestTree};
use gd_syntax::{Branch, Seq};
use no_memory::NoMemory;
use std::alloc::Global;

/// The tests of the branches of a `match`. The branches are those of a tree of a file; `..` stands only last in its
/// pattern, and a branch with several patterns has no binding.
pub fn tests(alloc: Global, branches: &[Branch]) -> Result<TestTree, NoMemory> {
    let found = alternatives_of(alloc, branches)?;
    let failures = failures(alloc, &found.alternatives, &found.tests)?;
    let places = places_of(alloc, branches, &found.alternatives)?;
    let nodes = nodes_of(alloc, branches, &found, &failures, &places)?;
    Ok(TestTree {
        subjects: subjects_of(alloc, &found)?,
        nodes: Seq::of(nodes),
    })
}

fn subjects_of(alloc: Global, found: &Alternatives) -> Result<Seq<Subject>, NoMemory> {
    let mut subjects = Vec::new(alloc);
    for subject in found.subjects.as_slice() {
        subjects.push(*subject)?;
    }
    Ok(Seq::of(subjects))
}

// Where the nodes stand: the tests of a branch's patterns in order, then its guard if it has one, and then its end.
#[derive(Drop)]
struct Places {
    // by the places of tests among all tests
    tests: Vec<u32>,
    // for each branch the node behind its tests
    passed: Vec<u32>,
    // for each branch its first alternative, by the place among all
    beginnings: Vec<u32>,
    fail: u32,
}

fn places_of(
    alloc: Global,
    branches: &[Branch],
    alternatives: &[Alternative],
) -> Result<Places, NoMemory> {
    let mut places = Places {
        tests: Vec::new(alloc),
        passed: Vec::new(alloc),
        beginnings: Vec::new(alloc),
        fail: 0,
    };
    let mut at = 0u32;
    let mut left = alternatives;
    let mut place = 0u32;
    for branch in branches {
        places.beginnings.push(place)?;
        for _ in branch.patterns.items() {
            if let Some((alternative, rest)) = left.split_first() {
                for _ in alternative.first..alternative.end {
                    places.tests.push(at)?;
                    at = at.saturating_add(1);
                }
                left = rest;
                place = place.saturating_add(1);
            }
        }
        places.passed.push(at)?;
        at = at.saturating_add(if branch.guard.is_some() { 2 } else { 1 });
    }
    places.fail = at;
    Ok(places)
}

impl Places {
    // The node of a test, by its place among all.
    fn test(&self, place: u32) -> u32 {
        match self.tests.get(place as usize) {
            Some(node) => *node,
            None => self.fail,
        }
    }

    // The node behind the tests of a branch.
    fn behind(&self, branch: u32) -> u32 {
        match self.passed.get(branch as usize) {
            Some(node) => *node,
            None => self.fail,
        }
    }

    fn node(&self, alternatives: &[Alternative], onward: Onward) -> u32 {
        match onward {
            Onward::Test(place) => self.test(place),
            Onward::Passed(place) => match alternatives.get(place as usize) {
                Some(alternative) => self.behind(alternative.branch),
                None => self.fail,
            },
            Onward::Nothing => self.fail,
        }
    }

    // Where a branch begins.
    fn branch(&self, alternatives: &[Alternative], branch: u32) -> u32 {
        let Some(place) = self.beginnings.get(branch as usize) else {
            return self.fail;
        };
        match alternatives.get(*place as usize) {
            Some(alternative) => self.node(alternatives, beginning(*place, *alternative)),
            None => self.fail,
        }
    }
}

fn nodes_of(
    alloc: Global,
    branches: &[Branch],
    found: &Alternatives,
    failures: &[Onward],
    places: &Places,
) -> Result<Vec<TestNode>, NoMemory> {
    let mut nodes = Vec::new(alloc);
    let mut left = found.alternatives.as_slice();
    for (branch, tree) in branches.iter().enumerate() {
        let branch = number(branch)?;
        for _ in tree.patterns.items() {
            if let Some((alternative, rest)) = left.split_first() {
                add_tests(&mut nodes, found, failures, places, *alternative)?;
                left = rest;
            }
        }
        if tree.guard.is_some() {
            let yes = places.behind(branch).saturating_add(1);
            let no = places.branch(&found.alternatives, branch.saturating_add(1));
            nodes.push(TestNode::Guard(branch, yes, no))?;
        }
        nodes.push(TestNode::Take(branch))?;
    }
    nodes.push(TestNode::Fail)?;
    Ok(nodes)
}

// The nodes of an alternative.
fn add_tests(
    nodes: &mut Vec<TestNode>,
    found: &Alternatives,
    failures: &[Onward],
    places: &Places,
    alternative: Alternative,
) -> Result<(), NoMemory> {
    for place in alternative.first..alternative.end {
        let next = place.saturating_add(1);
        let yes = if next < alternative.end {
            places.test(next)
        } else {
            places.behind(alternative.branch)
        };
        let no = match failures.get(place as usize) {
            Some(onward) => places.node(&found.alternatives, *onward),
            None => places.fail,
        };
        if let Some(test) = found.tests.get(place as usize) {
            nodes.push(node_of(*test, yes, no))?;
        }
    }
    Ok(())
}

fn node_of(test: Test, yes: u32, no: u32) -> TestNode {
    match test {
        Test::Kind(subject, kind) => TestNode::Kind(subject, kind, yes, no),
        Test::Size(subject, size, more) => TestNode::Size(subject, size, more, yes, no),
        Test::HasKey(subject, key) => TestNode::HasKey(subject, key, yes, no),
        Test::Equals(subject, expression) => TestNode::Equals(subject, expression, yes, no),
        Test::Bind(subject, binding) => TestNode::Bind(subject, binding, yes),
    }
}
