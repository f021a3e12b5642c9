//! The tests of each pattern by itself, in order.

use crate::number::number;
use crate::tree::{ARRAY, DICTIONARY, Subject};
use gd_syntax::{Branch, Expr, ExprKind, Pattern, PatternKind, Text};
use indexmap::{IndexMap, IndexSet};
use no_memory::NoMemory;
use std::alloc::Global;

/// A test of one pattern, with its subject first.
#[derive(Clone, Copy, PartialEq, Eq)]
pub enum Test {
    Kind(u32, u8),
    Size(u32, u32, bool),
    HasKey(u32, u32),
    Equals(u32, u32),
    Bind(u32, u32),
}

/// A pattern of a branch: its tests are those from one place to another among all tests.
#[derive(Clone, Copy)]
pub struct Alternative {
    pub branch: u32,
    pub first: u32,
    pub end: u32,
}

/// A key that is a literal.
#[derive(Drop, PartialEq, Eq, Hash)]
enum LiteralKey {
    Null,
    Bool(bool),
    Int(i64),
    Str(Text),
}

/// All patterns of a `match` with their tests.
#[derive(Drop)]
pub struct Alternatives {
    pub alternatives: Vec<Alternative>,
    pub tests: Vec<Test>,
    pub subjects: IndexSet<Subject>,
    // The numbers of the first keys that are these literals.
    literals: IndexMap<LiteralKey, u32>,
    keys: u32,
    expressions: u32,
    bindings: u32,
}

/// The patterns of these branches with their tests.
pub fn alternatives_of(alloc: Global, branches: &[Branch]) -> Result<Alternatives, NoMemory> {
    let mut found = Alternatives {
        alternatives: Vec::new(alloc),
        tests: Vec::new(alloc),
        subjects: IndexSet::new(alloc),
        literals: IndexMap::new(alloc),
        keys: 0,
        expressions: 0,
        bindings: 0,
    };
    let whole = found.subject(Subject::Whole)?;
    for (branch, tree) in branches.iter().enumerate() {
        let branch = number(branch)?;
        let mut is_taken = false;
        for pattern in tree.patterns.items() {
            is_taken = found.alternative(branch, whole, pattern, is_taken)?;
        }
    }
    Ok(found)
}

impl Alternatives {
    // The tests of a pattern of a branch. Behind one that tests nothing the branch is taken, and no later one of it is
    // tried; the keys and expressions of those have their numbers all the same. Answers whether the branch is taken so.
    fn alternative(
        &mut self,
        branch: u32,
        whole: u32,
        pattern: &Pattern,
        is_taken: bool,
    ) -> Result<bool, NoMemory> {
        let first = number(self.tests.len())?;
        self.pattern(whole, pattern)?;
        if is_taken {
            self.tests.truncate(first as usize);
        }
        let end = number(self.tests.len())?;
        self.alternatives.push(Alternative { branch, first, end })?;
        Ok(first == end)
    }

    // The tests of a pattern that looks at this subject. Kind and size come first, and then the parts in order: for a pair
    // its key and then the value there.
    #[cycle(pattern)]
    fn pattern(&mut self, subject: u32, pattern: &Pattern) -> Result<(), NoMemory> {
        match &pattern.kind {
            PatternKind::Value(_) => {
                let expression = self.expressions;
                self.expressions = expression.saturating_add(1);
                self.test(Test::Equals(subject, expression))
            }
            PatternKind::Bind(_) => {
                let binding = self.bindings;
                self.bindings = binding.saturating_add(1);
                self.test(Test::Bind(subject, binding))
            }
            PatternKind::Items(items) => self.items(subject, items.as_slice()),
            PatternKind::Pairs(pairs, rests) => {
                self.whole_pairs(subject, pairs.len(), rests.items().is_empty())?;
                for pair in pairs.as_slice() {
                    let key = self.key(&pair.0)?;
                    self.test(Test::HasKey(subject, key))?;
                    if let Some(value) = &pair.1
                        && looks(value)
                    {
                        let part = self.subject(Subject::ValueAt(subject, key))?;
                        self.pattern(part, value)?;
                    }
                }
                Ok(())
            }
            PatternKind::Any | PatternKind::Rest => Ok(()),
        }
    }

    // The tests of an array pattern. Any array has at least no element.
    #[cycle(pattern)]
    fn items(&mut self, subject: u32, items: &[Pattern]) -> Result<(), NoMemory> {
        let (count, more) = extent(items)?;
        self.test(Test::Kind(subject, ARRAY))?;
        if !more || count > 0 {
            self.test(Test::Size(subject, count, more))?;
        }
        for (place, item) in items.iter().enumerate() {
            if looks(item) {
                let element = self.subject(Subject::Element(subject, number(place)?))?;
                self.pattern(element, item)?;
            }
        }
        Ok(())
    }

    // The tests of a dictionary pattern as a whole: of its size only where no `..` stands last.
    fn whole_pairs(&mut self, subject: u32, pairs: usize, is_sized: bool) -> Result<(), NoMemory> {
        self.test(Test::Kind(subject, DICTIONARY))?;
        if is_sized {
            self.test(Test::Size(subject, number(pairs)?, false))?;
        }
        Ok(())
    }

    fn test(&mut self, test: Test) -> Result<(), NoMemory> {
        self.tests.push(test)?;
        Ok(())
    }

    // The number of a subject, the same one for the same part.
    fn subject(&mut self, subject: Subject) -> Result<u32, NoMemory> {
        let (place, _) = self.subjects.insert_full(subject)?;
        number(place)
    }

    // The number of the next key, or of the first key that is the same literal.
    fn key(&mut self, key: &Expr) -> Result<u32, NoMemory> {
        let next = self.keys;
        self.keys = next.saturating_add(1);
        let Some(literal) = literal_of(key)? else {
            return Ok(next);
        };
        if let Some(first) = self.literals.get(&literal) {
            return Ok(*first);
        }
        self.literals.insert(literal, next)?;
        Ok(next)
    }
}

// Whether a pattern looks at its subject.
fn looks(pattern: &Pattern) -> bool {
    !matches!(&pattern.kind, PatternKind::Any | PatternKind::Rest)
}

// How many elements an array pattern has, and whether more may follow.
fn extent(items: &[Pattern]) -> Result<(u32, bool), NoMemory> {
    match items.split_last() {
        Some((last, before)) if matches!(&last.kind, PatternKind::Rest) => {
            Ok((number(before.len())?, true))
        }
        _ => Ok((number(items.len())?, false)),
    }
}

fn literal_of(key: &Expr) -> Result<Option<LiteralKey>, NoMemory> {
    Ok(match &key.kind {
        ExprKind::Null => Some(LiteralKey::Null),
        ExprKind::Bool(b) => Some(LiteralKey::Bool(*b)),
        ExprKind::Int(n) => Some(LiteralKey::Int(*n)),
        ExprKind::Str(text) => Some(LiteralKey::Str(text.share()?)),
        _ => None,
    })
}
