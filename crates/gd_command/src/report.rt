//! What a check reports.
ghost use Rattle.std.specs.Prelude.{◌≡◌, ◌<◌, All, length};
ghost use Rattle.gd_command.specs.Report.{AreWithin};

use gd_outside::Path;
use gd_rules::{Diag, Mark};
use gd_syntax::Seq;
use std::marker::Model;

/// Where rules hold in the scripts of a project, and where marks stand. Each place has the number of its script, which is
/// that of the script's path.
#[derive(Drop)]
pub struct Report {
    paths: Seq<Path>,
    diags: Seq<Diag>,
    marks: Seq<Mark>,
}

impl Model for Report {
    ghost use Rattle.std.specs.Prelude.{length};
    ghost use Rattle.gd_command.specs.Report.{AreWithin, ReportState};

    ghost Value = { ReportState };

    ghost view = { λ report. record { paths = report.paths; diags = report.diags; marks = report.marks } };

    ghost invariant = { λ report. AreWithin (length report.paths) report.diags report.marks };
}

impl Report {
    /// The report of these rules and marks in the scripts with these paths.
    pub fn new(paths: Vec<Path>, diags: Vec<Diag>, marks: Vec<Mark>) -> Report
        requires { AreWithin (length paths.items) diags.items marks.items }
        ensures paths { result.paths ≡ paths.items }
        ensures diags { result.diags ≡ diags.items }
        ensures marks { result.marks ≡ marks.items }
    {
        Report {
            paths: Seq::of(paths),
            diags: Seq::of(diags),
            marks: Seq::of(marks),
        }
    }

    /// The paths of all scripts, in order.
    pub fn paths(&self) -> &[Path]
        ensures value { result.now ≡ self.now.paths }
    {
        self.paths.items()
    }

    /// The places at which a rule holds, in order.
    pub fn diags(&self) -> &[Diag]
        ensures value { result.now ≡ self.now.diags }
        ensures files { All (λ diag. diag.pos.file < length self.now.paths) self.now.diags }
    {
        self.diags.items()
    }

    /// The places of the marks, in order.
    pub fn marks(&self) -> &[Mark]
        ensures value { result.now ≡ self.now.marks }
        ensures files { All (λ mark. mark.pos.file < length self.now.paths) self.now.marks }
    {
        self.marks.items()
    }
}
