//! From an accepted project to a program.
ghost use Rattle.std.specs.Prelude.{IfOk, OnOk};
ghost use Rattle.gd_bytecode.specs.Verified.{Accepts};

use crate::classes::{class_code, path_text};
use crate::code_fault::CodeFault;
use crate::constants::constant_things;
use crate::function_code::function_code;
use crate::lengths::first_too_long;
use crate::link::Linker;
use crate::main_class::main_class;
use crate::numbering::{Numbering, number_functions};
use crate::tables::Tables;
use gd_bytecode::{ClassCode, Function, Program, Unverified, verify};
use gd_check::Accepted;
use gd_infer::Typed;
use gd_model::impossible;
use gd_outside::Path;
use gd_syntax::{Seq, Text};
use no_memory::NoMemory;
use script_table::Table;
use std::alloc::Global;

/// Compiles an accepted project whose main script has this path. `NoMain` exactly where no file has the path, its class
/// has no function `test` that can be called without arguments, or its `_init` needs an argument; else
/// `FunctionTooLong` where a function or the initial values of a class have more than 65,536 tokens, at the name of the
/// first. The program is one that `verify` accepts.
pub fn compile(alloc: Global, accepted: &Accepted, main: &Path) -> Result<Program, CodeFault>
    ensures { IfOk result Accepts }
{
    let typed = accepted.typed();
    let Some(class) = main_class(alloc, typed, main)? else {
        return Err(CodeFault::NoMain);
    };
    if let Some(pos) = first_too_long(typed.table()) {
        return Err(CodeFault::FunctionTooLong(pos));
    }
    let program = program_of(alloc, typed, class.saturating_sub(1))?;
    verified(alloc, &program)?;
    Ok(program)
}

// That a compiled program is verified is not proved yet.
fn verified(alloc: Global, program: &Program) -> Result<(), NoMemory>
    ensures { OnOk result (Accepts program.now) }
{
    match verify(alloc, program) {
        Ok(()) => Ok(()),
        Err(Unverified::NoMemory) => Err(NoMemory),
        Err(_) => Err(impossible().into()),
    }
}

fn program_of(alloc: Global, typed: &Typed, main: u32) -> Result<Program, NoMemory> {
    let numbering = number_functions(alloc, typed.table())?;
    let linker = Linker {
        alloc,
        typed,
        functions: &numbering.functions,
    };
    let mut tables = Tables::new(alloc)?;
    let constants = constant_things(alloc, &mut tables, typed.things())?;
    let classes = classes_of(&linker, &mut tables)?;
    let functions = functions_of(&linker, &numbering, &mut tables)?;
    Ok(Program {
        paths: paths_of(alloc, typed.table())?,
        texts: tables.text_list(alloc)?,
        ints: tables.int_list(alloc)?,
        types: tables.type_list(alloc)?,
        constants,
        classes,
        functions,
        main,
    })
}

fn paths_of(alloc: Global, table: &Table) -> Result<Seq<Text>, NoMemory> {
    let mut paths = Vec::new(alloc);
    for file in 0..table.file_count() {
        if let Some(path) = table.path(file) {
            paths.push(path_text(alloc, path)?)?;
        }
    }
    Ok(Seq::of(paths))
}

fn classes_of(linker: &Linker<'_>, tables: &mut Tables) -> Result<Seq<ClassCode>, NoMemory> {
    let mut classes = Vec::new(linker.alloc);
    let table = linker.typed.table();
    for place in 0..table.class_count() {
        let class = place.saturating_add(1);
        if let Some(tree) = table.class(class) {
            classes.push(class_code(linker, tables, class, tree)?)?;
        }
    }
    Ok(Seq::of(classes))
}

fn functions_of<'a>(
    linker: &Linker<'a>,
    numbering: &'a Numbering,
    tables: &mut Tables,
) -> Result<Seq<Function>, NoMemory> {
    let mut functions = Vec::new(linker.alloc);
    for key in numbering.functions.as_slice() {
        functions.push(function_code(linker, &numbering.accessors, tables, *key)?)?;
    }
    Ok(Seq::of(functions))
}
