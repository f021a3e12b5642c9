//! The functions of a program.

use crate::classes::{class_name, file_of, variable_type};
use crate::draft::Draft;
use crate::function_key::FunctionKey;
use crate::functions::{accessor, function, initial_values};
use crate::known::known;
use crate::link::Linker;
use crate::number::number;
use crate::scene::{NamedAccessor, Scene};
use crate::tables::Tables;
use crate::type_code::{TypeCode, VARIANT};
use gd_bytecode::Function;
use gd_members::MemberId;
use gd_syntax::{Accessor, ClassDecl, DeclKind, FuncDecl, Pos, Stmt, Text, VarDecl};
use gd_typing::Signature;
use no_memory::NoMemory;
use sqlite_items::Boxed;
use std::collections::HashSet;

// What a function is beside its code.
#[derive(Drop)]
struct Header {
    name: Text,
    class: u32,
    is_static: bool,
    params: u32,
    required: u32,
    returns: TypeCode,
}

/// A function of a program.
pub fn function_code<'a>(
    linker: &Linker<'a>,
    accessors: &'a HashSet<NamedAccessor>,
    tables: &mut Tables,
    key: FunctionKey,
) -> Result<Function, NoMemory> {
    let scene = scene_of(linker, accessors, key);
    let draft = draft_of(linker, &scene, key)?;
    let header = header_of(linker, key)?;
    let path = file_of(scene.table(), header.class)?;
    Ok(Function {
        name: tables.text(&header.name)?,
        path,
        class: header.class.saturating_sub(1),
        is_static: header.is_static,
        params: header.params,
        required: header.required,
        returns: tables.ty(header.returns)?,
        types: linker.types(tables, &draft)?,
        code: linker.code(tables, &draft)?,
    })
}

fn scene_of<'a>(
    linker: &Linker<'a>,
    accessors: &'a HashSet<NamedAccessor>,
    key: FunctionKey,
) -> Scene<'a> {
    Scene {
        alloc: linker.alloc,
        typed: linker.typed,
        accessors,
        class: class_of(key),
        code: key,
    }
}

fn class_of(key: FunctionKey) -> u32 {
    match key {
        FunctionKey::Declared(id) | FunctionKey::Setter(id) | FunctionKey::Getter(id) => id.class,
        FunctionKey::Initial(class) | FunctionKey::StaticInitial(class) => class,
    }
}

// ---- what the numbering found, which is there

fn declared<'a>(linker: &Linker<'a>, id: MemberId) -> Result<&'a FuncDecl, NoMemory> {
    known(match &known(linker.typed.table().declaration(id))?.kind {
        DeclKind::Func(function) => Some(function),
        _ => None,
    })
}

fn variable<'a>(linker: &Linker<'a>, id: MemberId) -> Result<&'a VarDecl, NoMemory> {
    known(match &known(linker.typed.table().declaration(id))?.kind {
        DeclKind::Var(variable) => Some(variable),
        _ => None,
    })
}

fn class_tree<'a>(linker: &Linker<'a>, class: u32) -> Result<&'a ClassDecl, NoMemory> {
    known(linker.typed.table().class(class))
}

fn signature<'a>(linker: &Linker<'a>, id: MemberId) -> Result<&'a Signature, NoMemory> {
    known(linker.typed.declared().function(id))
}

// The body of an accessor, and the place of its word.
#[derive(Clone, Copy)]
struct Written<'a> {
    body: &'a [Stmt],
    pos: Pos,
}

fn written_body(accessor: Option<&Boxed<Accessor>>) -> Result<Written<'_>, NoMemory> {
    known(match known(accessor)?.get() {
        Accessor::Body(_, body, pos, _) => Some(Written {
            body: body.as_slice(),
            pos: *pos,
        }),
        Accessor::Named(_, _) => None,
    })
}

// ---- the code

fn draft_of<'a>(
    linker: &Linker<'a>,
    scene: &Scene<'a>,
    key: FunctionKey,
) -> Result<Draft<'a>, NoMemory> {
    match key {
        FunctionKey::Declared(id) => {
            let tree = declared(linker, id)?;
            function(scene, tree.params.items(), tree.body.items(), tree.pos)
        }
        FunctionKey::Setter(id) => {
            let ty = variable_type(linker, id)?;
            let written = written_body(variable(linker, id)?.setter.as_ref())?;
            accessor(scene, Some(ty), written.body, written.pos)
        }
        FunctionKey::Getter(id) => {
            let written = written_body(variable(linker, id)?.getter.as_ref())?;
            accessor(scene, None, written.body, written.pos)
        }
        FunctionKey::Initial(class) => initial_values(scene, class_tree(linker, class)?, false),
        FunctionKey::StaticInitial(class) => {
            initial_values(scene, class_tree(linker, class)?, true)
        }
    }
}

// ---- the header

// A function has its own name, an accessor that of its variable, and initial values that of their class.
fn header_of(linker: &Linker<'_>, key: FunctionKey) -> Result<Header, NoMemory> {
    match key {
        FunctionKey::Declared(id) => {
            let signature = signature(linker, id)?;
            Ok(Header {
                name: declared(linker, id)?.name.share()?,
                class: id.class,
                is_static: signature.is_static,
                params: number(signature.parameters.len())?,
                required: signature.required,
                returns: match &signature.result {
                    Some(ty) => TypeCode::of(ty)?,
                    None => VARIANT,
                },
            })
        }
        FunctionKey::Setter(id) => accessor_header(linker, id, 1, VARIANT),
        FunctionKey::Getter(id) => {
            let returns = variable_type(linker, id)?;
            accessor_header(linker, id, 0, returns)
        }
        FunctionKey::Initial(class) => values_header(linker, class, false),
        FunctionKey::StaticInitial(class) => values_header(linker, class, true),
    }
}

fn accessor_header(
    linker: &Linker<'_>,
    id: MemberId,
    params: u32,
    returns: TypeCode,
) -> Result<Header, NoMemory> {
    Ok(Header {
        name: variable(linker, id)?.name.share()?,
        class: id.class,
        is_static: false,
        params,
        required: params,
        returns,
    })
}

fn values_header(linker: &Linker<'_>, class: u32, is_static: bool) -> Result<Header, NoMemory> {
    Ok(Header {
        name: class_name(linker.alloc, linker.typed.table(), class)?,
        class,
        is_static,
        params: 0,
        required: 0,
        returns: VARIANT,
    })
}
