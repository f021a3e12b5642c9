//! What a check finds in the scripts of a project: the first lexical or syntax fault of each script that has one; else, where
//! none has, the rules about names and types, and the marks.
ghost use Rattle.std.specs.Prelude.{◌≡◌, ◌<◌, ◌≤◌, ◌+◌, ◌++◌, ◌∷◌, [], ℕ, List, All, IfOk, OnOk, length, nat_lt, false, true};
ghost use Rattle.std.specs.List.{list_all, list_any};
ghost use Rattle.gd_command.specs.Check.{IsShortSource, bytes_of};
ghost use Rattle.gd_command.specs.Report.{is_error};
ghost use Rattle.gd_command.specs.Judged.{Analysed, CheckFinds, FileFinds, Finds, InFile, IsAtToken, fault_of};

use crate::report::Report;
use crate::severity::{Severity, has_error};
use crate::words::CheckOptions;
use gd_check::diagnose;
use gd_grammar::{SyntaxFault, parse};
use gd_infer::{Typed, infer};
use gd_lexer::{LexFault, lex};
use gd_model::impossible;
use gd_outside::Path;
use gd_rules::{Diag, Mark};
use gd_syntax::{Script, Token};
use no_memory::NoMemory;
use script_table::build;
use std::alloc::Global;

/// What is found in the text of one script.
#[derive(Drop)]
enum Reading {
    /// The tree of a script without a lexical or syntax fault.
    Tree(Script),
    /// The first fault of another one.
    Fault(Diag),
}

/// What is found in the texts of all scripts.
#[derive(Drop)]
pub struct Readings {
    /// The trees of the scripts without a fault, in order.
    pub trees: Vec<Script>,
    /// The first fault of each other script, in order.
    pub faults: Vec<Diag>,
}

/// The report on the scripts with these paths and bytes.
pub fn judge(
    alloc: Global,
    options: CheckOptions,
    paths: Vec<Path>,
    sources: &[Vec<u8>],
) -> Result<Report, NoMemory>
    requires few { length sources.now ≤ 1024 }
    requires short { All IsShortSource sources.now }
    requires count { length sources.now ≡ length paths.items }
    ensures paths { IfOk result (λ report. report.paths ≡ paths.items) }
    ensures finds { IfOk result (λ report. CheckFinds options (bytes_of sources.now) report.diags report.marks) }
{
    let Readings { trees, faults } = read_all(alloc, sources)?;
    if !faults.is_empty() {
        return Ok(Report::new(paths, faults, Vec::new(alloc)));
    }
    analyse(alloc, options, paths, trees)
}

/// The report on the project of these scripts.
fn analyse(
    alloc: Global,
    options: CheckOptions,
    paths: Vec<Path>,
    trees: Vec<Script>,
) -> Result<Report, NoMemory>
    requires few { length paths.items ≤ 1024 }
    requires count { length trees.items ≡ length paths.items }
    ensures paths { IfOk result (λ report. report.paths ≡ paths.items) }
    ensures finds { IfOk result (λ report. Analysed options report.diags report.marks) }
{
    let scripts = with_paths(alloc, &paths, trees)?;
    let typed = infer(alloc, build(alloc, scripts)?)?;
    let diags = diagnose(alloc, &typed, options.warn)?;
    let marks = marks_asked(alloc, options, &typed, &diags)?;
    report_of(options, paths, diags, marks)
}

/// The scripts, each with its path.
pub fn with_paths(
    alloc: Global,
    paths: &[Path],
    trees: Vec<Script>,
) -> Result<Vec<(Path, Script)>, NoMemory> {
    let mut scripts = Vec::with_capacity(alloc, trees.len())?;
    for (path, tree) in paths.iter().zip(trees) {
        scripts.push((path.clone()?, tree))?;
    }
    Ok(scripts)
}

/// The marks, where they are asked for and no error holds.
fn marks_asked(
    alloc: Global,
    options: CheckOptions,
    typed: &Typed,
    diags: &[Diag],
) -> Result<Vec<Mark>, NoMemory>
    ensures asked { IfOk result (λ marks. options.marks ≡ false → marks.items ≡ []) }
    ensures accepted { IfOk result (λ marks. list_any is_error diags.now ≡ true → marks.items ≡ []) }
{
    if !options.marks || has_error(diags) {
        return Ok(Vec::new(alloc));
    }
    gd_check::marks(alloc, typed)
}

/// The report of what the analysis found. That each place is in one of the scripts, and that no warning comes unasked, is
/// for a later proof to show of the analysis.
pub fn report_of(
    options: CheckOptions,
    paths: Vec<Path>,
    diags: Vec<Diag>,
    marks: Vec<Mark>,
) -> Result<Report, NoMemory>
    ensures paths { IfOk result (λ report. report.paths ≡ paths.items) }
    ensures diags { IfOk result (λ report. report.diags ≡ diags.items) }
    ensures marks { IfOk result (λ report. report.marks ≡ marks.items) }
    ensures asked { IfOk result (λ report. options.warn ≡ false → list_all is_error diags.items ≡ true) }
{
    let stands = diags_within(paths.len(), &diags) && marks_within(paths.len(), &marks);
    let asked = options.warn || are_errors(&diags);
    if !stands || !asked {
        return Err(NoMemory::from(impossible()));
    }
    Ok(Report::new(paths, diags, marks))
}

/// Whether each diagnostic stands in one of so many scripts.
fn diags_within(files: usize, diags: &[Diag]) -> bool
    ensures { result ≡ list_all (λ diag. nat_lt diag.pos.file files) diags.now }
{
    diags.iter().all(|diag| (diag.pos.file as usize) < files)
}

/// Whether each mark stands in one of so many scripts.
fn marks_within(files: usize, marks: &[Mark]) -> bool
    ensures { result ≡ list_all (λ mark. nat_lt mark.pos.file files) marks.now }
{
    marks.iter().all(|mark| (mark.pos.file as usize) < files)
}

/// Whether all of them are errors.
fn are_errors(diags: &[Diag]) -> bool
    ensures { result ≡ list_all is_error diags.now }
{
    diags.iter().all(|diag| Severity::of(diag.rule).is_error())
}

/// What is found in each script.
pub fn read_all(alloc: Global, sources: &[Vec<u8>]) -> Result<Readings, NoMemory>
    requires few { length sources.now ≤ 1024 }
    requires short { All IsShortSource sources.now }
    ensures finds { IfOk result (λ found. Finds (bytes_of sources.now) found.faults.items) }
    ensures files { IfOk result (λ found. All (λ diag. diag.pos.file < length sources.now) found.faults.items) }
    ensures trees { IfOk result (λ found. length found.trees.items + length found.faults.items ≡ length sources.now) }
{
    let mut trees = Vec::new(alloc);
    let mut faults = Vec::new(alloc);
    let mut file = 0;
    for source in sources {
        read_into(alloc, file, source, &mut trees, &mut faults)?;
        file += 1;
    }
    Ok(Readings { trees, faults })
}

/// Adds what is found in the script with this number.
fn read_into(
    alloc: Global,
    file: u32,
    source: &[u8],
    trees: &mut Vec<Script>,
    faults: &mut Vec<Diag>,
) -> Result<(), NoMemory>
    requires { length source.now ≤ 1_048_576 }
    ensures finds { OnOk result ((sources : List (List ℕ)) → file ≡ length sources → Finds sources faults.old.items → Finds (sources ++ (source.now ∷ [])) faults.new.items) }
    ensures files { OnOk result (All (λ diag. diag.pos.file < file) faults.old.items → All (λ diag. diag.pos.file < file + 1) faults.new.items) }
    ensures one { OnOk result (length trees.new.items + length faults.new.items ≡ length trees.old.items + length faults.old.items + 1) }
{
    match read_one(alloc, file, source)? {
        Reading::Tree(tree) => trees.push(tree)?,
        Reading::Fault(diag) => faults.push(diag)?,
    }
    Ok(())
}

/// What is found in the script with this number: a lexical fault before one of syntax.
fn read_one(alloc: Global, file: u32, source: &[u8]) -> Result<Reading, NoMemory>
    requires { length source.now ≤ 1_048_576 }
    ensures finds { IfOk result (λ reading. FileFinds file source.now (fault_of reading)) }
    ensures file { IfOk result (InFile file) }
{
    match lex(alloc, file, source) {
        Ok(tokens) => read_tokens(alloc, &tokens),
        Err(LexFault::Fault(pos, rule)) => Ok(Reading::Fault(Diag { pos, rule })),
        Err(LexFault::NoMemory) => Err(NoMemory),
    }
}

/// The tree of these tokens, or a place at which they are no script.
fn read_tokens(alloc: Global, tokens: &[Token]) -> Result<Reading, NoMemory>
    requires { 0 < length tokens.now }
    ensures { IfOk result (IsAtToken tokens.now) }
{
    match parse(alloc, tokens) {
        Ok(tree) => Ok(Reading::Tree(tree)),
        Err(SyntaxFault::Fault(pos, rule)) => Ok(Reading::Fault(Diag { pos, rule })),
        Err(SyntaxFault::NoMemory) => Err(NoMemory),
    }
}
