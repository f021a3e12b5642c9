//! The classes of a program.

use crate::function_key::FunctionKey;
use crate::known::known;
use crate::link::Linker;
use crate::number::number;
use crate::numbering::own_function;
use crate::tables::Tables;
use crate::type_code::TypeCode;
use gd_bytecode::{ClassCode, Method, VarCode};
use gd_members::MemberId;
use gd_model::impossible;
use gd_outside::Path;
use gd_syntax::{Accessor, ClassDecl, DeclKind, Seq, Text, VarDecl};
use no_memory::NoMemory;
use script_table::{ClassName, Table};
use sqlite_items::Boxed;
use std::alloc::Global;

// What a class declares.
#[derive(Drop)]
struct MemberLists {
    variables: Vec<VarCode>,
    methods: Vec<Method>,
    signals: Vec<u32>,
    static_init: Option<u32>,
}

/// A class, by its number.
pub fn class_code(
    linker: &Linker<'_>,
    tables: &mut Tables,
    class: u32,
    tree: &ClassDecl,
) -> Result<ClassCode, NoMemory> {
    let table = linker.typed.table();
    let name = class_name(linker.alloc, table, class)?;
    let MemberLists {
        variables,
        methods,
        signals,
        static_init,
    } = members(linker, tables, class, tree)?;
    Ok(ClassCode {
        name: tables.text(&name)?,
        path: file_of(table, class)?,
        base: base_of(table, class),
        variables: Seq::of(variables),
        methods: Seq::of(methods),
        signals: Seq::of(signals),
        initial: numbered(linker, FunctionKey::Initial(class))?,
        static_initial: numbered(linker, FunctionKey::StaticInitial(class))?,
        static_init,
    })
}

// The number of a function that a class may have.
fn numbered(linker: &Linker<'_>, key: FunctionKey) -> Result<Option<u32>, NoMemory> {
    match linker.functions.get_index_of(&key) {
        Some(place) => Ok(Some(number(place)?)),
        None => Ok(None),
    }
}

fn members(
    linker: &Linker<'_>,
    tables: &mut Tables,
    class: u32,
    tree: &ClassDecl,
) -> Result<MemberLists, NoMemory> {
    let mut found = MemberLists {
        variables: Vec::new(linker.alloc),
        methods: Vec::new(linker.alloc),
        signals: Vec::new(linker.alloc),
        static_init: None,
    };
    let mut index = 0u32;
    for member in tree.members.as_slice() {
        let id = MemberId { class, index };
        match &member.kind {
            DeclKind::Var(variable) => {
                found
                    .variables
                    .push(variable_code(linker, tables, id, variable)?)?;
            }
            DeclKind::Func(function) => {
                let code = method(linker, tables, id, &function.name)?;
                if is_static_init(&function.name) {
                    found.static_init = Some(code.function);
                }
                found.methods.push(code)?;
            }
            DeclKind::Signal(name, _, _) => found.signals.push(tables.text(name)?)?,
            _ => {}
        }
        index = index.saturating_add(1);
    }
    Ok(found)
}

fn method(
    linker: &Linker<'_>,
    tables: &mut Tables,
    id: MemberId,
    name: &Text,
) -> Result<Method, NoMemory> {
    Ok(Method {
        name: tables.text(name)?,
        function: linker.function(FunctionKey::Declared(id))?,
    })
}

fn is_static_init(name: &Text) -> bool {
    matches!(
        name.chars(),
        ['_', 's', 't', 'a', 't', 'i', 'c', '_', 'i', 'n', 'i', 't']
    )
}

fn variable_code(
    linker: &Linker<'_>,
    tables: &mut Tables,
    id: MemberId,
    variable: &VarDecl,
) -> Result<VarCode, NoMemory> {
    let setter = variable.setter.as_ref();
    let getter = variable.getter.as_ref();
    Ok(VarCode {
        name: tables.text(&variable.name)?,
        is_static: variable.is_static,
        typed: tables.ty(variable_type(linker, id)?)?,
        setter: accessor(linker, id, setter, FunctionKey::Setter(id))?,
        getter: accessor(linker, id, getter, FunctionKey::Getter(id))?,
    })
}

/// The type of a variable of a class.
pub fn variable_type(linker: &Linker<'_>, id: MemberId) -> Result<TypeCode, NoMemory> {
    TypeCode::of(known(linker.typed.member_type(id))?)
}

// The function of an accessor.
fn accessor(
    linker: &Linker<'_>,
    id: MemberId,
    accessor: Option<&Boxed<Accessor>>,
    key: FunctionKey,
) -> Result<Option<u32>, NoMemory> {
    let Some(accessor) = accessor else {
        return Ok(None);
    };
    match accessor.get() {
        Accessor::Body(_, _, _, _) => Ok(Some(linker.function(key)?)),
        Accessor::Named(name, _) => match own_function(linker.typed.table(), id.class, name) {
            Some(member) => Ok(Some(linker.function(FunctionKey::Declared(member))?)),
            None => Ok(None),
        },
    }
}

// The class that a class extends, from 0; none where it is RefCounted.
fn base_of(table: &Table, class: u32) -> Option<u32> {
    match table.base(class) {
        Some(0) | None => None,
        Some(base) => Some(base.saturating_sub(1)),
    }
}

/// The file of a class of the project.
pub fn file_of(table: &Table, class: u32) -> Result<u32, NoMemory> {
    known(table.file_of(class))
}

/// What a class of the project is called in prints.
pub fn class_name(alloc: Global, table: &Table, class: u32) -> Result<Text, NoMemory> {
    match known(table.class_name(class))? {
        ClassName::Name(name) => name.share(),
        ClassName::File(path) => path_text(alloc, path),
        ClassName::RefCounted => Err(impossible().into()),
    }
}

/// The text of a path, which is UTF-8 and short.
pub fn path_text(alloc: Global, path: &Path) -> Result<Text, NoMemory> {
    match Text::from_utf8(alloc, path.bytes()) {
        Ok(text) => Ok(text),
        Err(_) => Err(impossible().into()),
    }
}
