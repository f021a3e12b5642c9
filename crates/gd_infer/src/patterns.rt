//! The types in patterns, and the bindings that they declare.

use crate::inference::Inference;
use crate::site::Site;
use gd_model::Ty;
use gd_syntax::{Pattern, PatternKind};
use no_memory::NoMemory;
use std::alloc::Global;

impl Inference {
    /// Patterns in order. A binding is in force from its place on.
    #[cycle(pattern)]
    pub fn patterns(
        &mut self,
        alloc: Global,
        site: &Site<'_>,
        patterns: &[Pattern],
    ) -> Result<(), NoMemory> {
        for pattern in patterns {
            self.pattern(alloc, site, pattern)?;
        }
        Ok(())
    }

    #[cycle(pattern)]
    fn pattern(
        &mut self,
        alloc: Global,
        site: &Site<'_>,
        pattern: &Pattern,
    ) -> Result<(), NoMemory> {
        match &pattern.kind {
            PatternKind::Value(e) => {
                self.value(alloc, site, e, None)?;
                Ok(())
            }
            PatternKind::Bind(name) => self.declare(name, pattern.pos, Ty::Variant),
            PatternKind::Items(items) => self.patterns(alloc, site, items.as_slice()),
            PatternKind::Pairs(pairs, _) => {
                for pair in pairs.as_slice() {
                    self.value(alloc, site, &pair.0, None)?;
                    if let Some(inner) = &pair.1 {
                        self.pattern(alloc, site, inner)?;
                    }
                }
                Ok(())
            }
            PatternKind::Any | PatternKind::Rest => Ok(()),
        }
    }
}
