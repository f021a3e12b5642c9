//! The rules of accessors.
use crate::bodies::examine_body;
use crate::findings::Findings;
use crate::returns::block_returns;
use crate::scene::Scene;
use crate::setting::{Code, Setting};
use gd_rules::Rule;
use gd_syntax::{Accessor, VarDecl};
use gd_typing::{fits_getter, fits_setter};
use no_memory::NoMemory;

/// Looks at the accessors of a variable.
pub fn examine_accessors<'a>(
    scene: &Scene<'a>,
    variable: &'a VarDecl,
    found: &mut Findings,
) -> Result<(), NoMemory> {
    let has_accessors = variable.setter.is_some() || variable.getter.is_some();
    let is_bad = variable.is_static && has_accessors;
    found.error_if(is_bad, Rule::BadAccessor, variable.pos)?;
    if let Some(setter) = &variable.setter {
        examine_setter(scene, variable, setter.get(), found)?;
    }
    if let Some(getter) = &variable.getter {
        examine_getter(scene, variable, getter.get(), found)?;
    }
    Ok(())
}

/// A37 of a named setter, or the rules of a body.
fn examine_setter<'a>(
    scene: &Scene<'a>,
    variable: &'a VarDecl,
    setter: &'a Accessor,
    found: &mut Findings,
) -> Result<(), NoMemory> {
    match setter {
        Accessor::Named(name, pos) => {
            let ty = scene.variable_type(variable)?;
            let facts = &scene.facts;
            let (table, declared) = (facts.table(), facts.declared());
            let class = scene.setting.class;
            let fits = fits_setter(table, declared, facts.typed, class, name, &ty);
            found.error_if(!fits, Rule::BadAccessor, *pos)
        }
        Accessor::Body(_, body, _, _) => {
            let scene = at_accessor(scene, variable, Code::Setter(variable));
            examine_body(&scene, body.as_slice(), found)
        }
    }
}

/// A37 of a named getter, or A17 and the rules of a body.
fn examine_getter<'a>(
    scene: &Scene<'a>,
    variable: &'a VarDecl,
    getter: &'a Accessor,
    found: &mut Findings,
) -> Result<(), NoMemory> {
    match getter {
        Accessor::Named(name, pos) => {
            let ty = scene.variable_type(variable)?;
            let facts = &scene.facts;
            let (table, declared) = (facts.table(), facts.declared());
            let fits = fits_getter(table, declared, scene.setting.class, name, &ty);
            found.error_if(!fits, Rule::BadAccessor, *pos)
        }
        Accessor::Body(_, body, word, _) => {
            let misses = !block_returns(body.as_slice());
            found.error_if(misses, Rule::MissingReturn, *word)?;
            let scene = at_accessor(scene, variable, Code::Getter(variable));
            examine_body(&scene, body.as_slice(), found)
        }
    }
}

/// The body of an accessor of a variable.
fn at_accessor<'a>(scene: &Scene<'a>, variable: &VarDecl, code: Code<'a>) -> Scene<'a> {
    scene.at(Setting {
        class: scene.setting.class,
        is_static: variable.is_static,
        code,
    })
}
