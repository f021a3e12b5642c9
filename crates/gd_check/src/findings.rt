//! What a walk over a project finds.
use crate::ignored::{Ignored, ignore, without_ignored};
use gd_rules::{Diag, Mark, Rule};
use gd_syntax::{Note, Pos};
use gd_typing::Finding;
use no_memory::NoMemory;
use std::alloc::Global;

/// The places at which rules hold and marks stand, in no order, some perhaps twice.
#[derive(Drop)]
pub struct Findings {
    errors: Vec<Diag>,
    warnings: Vec<Diag>,
    marks: Vec<Pos>,
    ignored: Vec<Ignored>,
}

impl Findings {
    pub fn new(alloc: Global) -> Findings {
        Findings {
            errors: Vec::new(alloc),
            warnings: Vec::new(alloc),
            marks: Vec::new(alloc),
            ignored: Vec::new(alloc),
        }
    }

    /// An error rule holds here.
    pub fn error(&mut self, rule: Rule, pos: Pos) -> Result<(), NoMemory> {
        self.errors.push(Diag { pos, rule })?;
        Ok(())
    }

    /// What holds at an operation with this place.
    pub fn add(&mut self, finding: Finding, pos: Pos) -> Result<(), NoMemory> {
        if let Some(rule) = finding.rule {
            self.error(rule, pos)?;
        }
        if let Some(warning) = finding.warning {
            self.warnings.push(Diag { pos, rule: warning })?;
        }
        if finding.is_marked {
            self.mark(pos)?;
        }
        Ok(())
    }

    /// The errors, to be added to.
    pub fn errors(&mut self) -> &mut Vec<Diag> {
        &mut self.errors
    }

    /// Error rules hold at these places.
    pub fn add_errors(&mut self, errors: &[Diag]) -> Result<(), NoMemory> {
        for error in errors {
            self.errors.push(*error)?;
        }
        Ok(())
    }

    /// An error rule holds here, if `broken`.
    pub fn error_if(&mut self, broken: bool, rule: Rule, pos: Pos) -> Result<(), NoMemory> {
        if broken {
            self.error(rule, pos)?;
        }
        Ok(())
    }

    /// A mark stands here.
    pub fn mark(&mut self, pos: Pos) -> Result<(), NoMemory> {
        self.marks.push(pos)?;
        Ok(())
    }

    /// What these annotations ignore is ignored from this first to this last token.
    pub fn ignore(&mut self, notes: &[Note], first: Pos, last: Pos) -> Result<(), NoMemory> {
        ignore(notes, first, last, &mut self.ignored)
    }

    /// The errors, and the warnings that are not ignored where `warn` is true: in order, each once.
    pub fn into_diags(self, alloc: Global, warn: bool) -> Result<Vec<Diag>, NoMemory> {
        let Findings {
            mut errors,
            warnings,
            ignored,
            ..
        } = self;
        if warn {
            for warning in without_ignored(alloc, warnings, ignored)? {
                errors.push(warning)?;
            }
        }
        errors.sort_unstable_by_key(|diag| (diag.pos, diag.rule));
        errors.dedup();
        Ok(errors)
    }

    /// The marks in order, each once.
    pub fn into_marks(self, alloc: Global) -> Result<Vec<Mark>, NoMemory> {
        let Findings { mut marks, .. } = self;
        marks.sort_unstable();
        marks.dedup();
        let mut found = Vec::new(alloc);
        for pos in marks {
            found.push(Mark { pos })?;
        }
        Ok(found)
    }
}
