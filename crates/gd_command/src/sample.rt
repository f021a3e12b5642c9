//! `sample N`: a project of N classes that is made up, and compiled.
ghost use Rattle.std.specs.Prelude.{◌≡◌, ◌≤◌, All, IfOk, length, suc};
ghost use Rattle.gd_command.specs.Check.{IsShortSource};

use crate::check::MAX_FILES;
use crate::compiled::{Compiled, compile_sources};
use crate::project::MAX_SOURCE;
use gd_bytecode::Program;
use gd_model::impossible;
use gd_outside::{Path, PathFault};
use no_memory::NoMemory;
use std::alloc::{AllocError, Global};

/// A sample, compiled.
#[derive(Drop)]
pub struct Sample {
    /// How many classes it has beside its main script, each in a script of its own.
    pub count: u32,
    /// How many bytes its scripts have together.
    pub bytes: u64,
    pub program: Program,
}

/// The path of its main script.
const MAIN: &str = "main.gd";

/// The sample of so many classes. That its project has no error and can be run is for a later proof to show.
pub fn make_sample(alloc: Global, count: u32) -> Result<Sample, NoMemory>
    requires { count ≤ 1000 }
    ensures { IfOk result (λ sample. sample.count ≡ count) }
{
    let files = files_of(alloc, count)?;
    let mut paths = Vec::with_capacity(alloc, files.len())?;
    let mut sources = Vec::with_capacity(alloc, files.len())?;
    let mut bytes = 0u64;
    for (path, source) in files {
        bytes = bytes.saturating_add(source.len() as u64);
        paths.push(path)?;
        keep(&mut sources, source.into_bytes())?;
    }
    let main = path_of(alloc, MAIN)?;
    match compile_sources(alloc, paths, &sources, &main)? {
        Compiled::Program(program) => Ok(Sample {
            count,
            bytes,
            program,
        }),
        _ => Err(NoMemory::from(impossible())),
    }
}

/// Keeps the bytes of a script. That those of a sample are few and short is for a later proof to show.
fn keep(sources: &mut Vec<Vec<u8>>, source: Vec<u8>) -> Result<(), NoMemory>
    requires few { length sources.old.items ≤ 1024 }
    requires short { All IsShortSource sources.old.items }
    ensures one { IfOk result (λ _. length sources.new.items ≡ suc (length sources.old.items)) }
    ensures few { length sources.new.items ≤ 1024 }
    ensures short { All IsShortSource sources.new.items }
{
    if sources.len() >= MAX_FILES || source.len() > MAX_SOURCE as usize {
        return Err(NoMemory::from(impossible()));
    }
    Ok(sources.push(source)?)
}

/// Its scripts, by rising paths.
fn files_of(alloc: Global, count: u32) -> Result<Vec<(Path, String)>, NoMemory> {
    let mut files = Vec::new(alloc);
    for number in 1..=count {
        let name = format!(in alloc; "f{number}.gd")?;
        files.push((path_of(alloc, name.as_str())?, class_source(alloc, number)?))?;
    }
    files.push((path_of(alloc, MAIN)?, main_source(alloc, count)?))?;
    files.sort_by(|one, other| one.0.cmp(&other.0))?;
    Ok(files)
}

/// The script of the class with this number.
fn class_source(alloc: Global, number: u32) -> Result<String, AllocError> {
    format!(in alloc;
        "class_name F{number}\nvar v: int = {number}\nfunc step(x: int) -> int:\n\treturn (x * 31 + v) % 1000\n"
    )
}

/// The main script: it makes an instance of each of so many classes, and has each of them take a step.
fn main_source(alloc: Global, count: u32) -> Result<String, AllocError> {
    let mut source = String::from_str(
        alloc,
        "func test():\n\tvar x := 0\n\tvar all: Array = []\n",
    )?;
    for number in 1..=count {
        let line = format!(in alloc; "\tall.append(F{number}.new())\n")?;
        source.push_str(line.as_str())?;
    }
    source.push_str("\tfor f in all:\n\t\tx = f.step(x)\n\t\tprint(x)\n")?;
    Ok(source)
}

/// The path with this text, which is one.
fn path_of(alloc: Global, text: &str) -> Result<Path, NoMemory> {
    match Path::new(alloc, text) {
        Ok(path) => Ok(path),
        Err(PathFault::Bad) => Err(NoMemory::from(impossible())),
        Err(PathFault::NoMemory) => Err(NoMemory),
    }
}
