//! What the rules read where code stands.
use crate::facts::Facts;
use crate::findings::Findings;
use crate::setting::Setting;
use gd_model::Ty;
use gd_syntax::{TypeName, VarDecl};
use gd_typing::written_type;
use no_memory::NoMemory;
use std::alloc::Global;

/// Where code stands, and what inference knows of its project.
#[derive(Clone, Copy)]
pub struct Scene<'a> {
    pub alloc: Global,
    pub facts: Facts<'a>,
    pub setting: Setting<'a>,
}

impl<'a> Scene<'a> {
    /// The same with another place of the code.
    pub fn at(&self, setting: Setting<'a>) -> Scene<'a> {
        Scene {
            alloc: self.alloc,
            facts: self.facts,
            setting,
        }
    }

    /// A written type. What is wrong with it is told where it stands.
    pub fn written(&self, written: &TypeName) -> Result<Ty, NoMemory> {
        let mut faults = Vec::new(self.alloc);
        written_type(
            self.alloc,
            self.facts.table(),
            self.setting.class,
            written,
            &mut faults,
        )
    }

    /// A written type. A07, A08 and A45 of it are told.
    pub fn examined_type(&self, written: &TypeName, found: &mut Findings) -> Result<Ty, NoMemory> {
        written_type(
            self.alloc,
            self.facts.table(),
            self.setting.class,
            written,
            found.errors(),
        )
    }

    /// A07, A08 and A45 of a type, if one is written.
    pub fn examine_written(
        &self,
        written: Option<&TypeName>,
        found: &mut Findings,
    ) -> Result<(), NoMemory> {
        if let Some(written) = written {
            let _ty = self.examined_type(written, found)?;
        }
        Ok(())
    }

    /// The type of a variable, constant or parameter: the written one, by `:=` that of its value, else Variant.
    pub fn variable_type(&self, variable: &VarDecl) -> Result<Ty, NoMemory> {
        match (&variable.typed, &variable.value) {
            (Some(written), _) => self.written(written),
            (None, Some(value)) if variable.inferred => self.facts.ty(value).copy(self.alloc),
            _ => Ok(Ty::Variant),
        }
    }
}
