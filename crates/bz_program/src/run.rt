//! A run over the statements of one file.

ghost use Rattle.std.specs.Prelude.{◌≡◌, ℕ, List, IfOk, IfErr, OnErr, IsErrOf};
ghost use Rattle.bz_devices.specs.Device.{Rises};
ghost use Rattle.bz_program.specs.Runs as spec;

use bz_engine::{End, Options, Pass, Report, RunFault, Sink, Source, run};
use bz_rule::{Command, Package, Target};
use std::marker::Model;

/// The most bytes of a statement.
const MAX_STATEMENT: u64 = 16_777_216;

/// The most brackets that stand in one another.
const MAX_DEPTH: u8 = 100;

/// The most reads of an input.
const MAX_READS: u64 = 4_294_967_296;

/// What is to be done to a package: its passes, and whether a failure ends them.
#[derive(Drop)]
pub struct Job {
    pub home: Package,
    pub passes: Vec<Pass<Target, Command>>,
    /// A failure does not end the run.
    pub keep_going: bool,
}

impl Model for Job {
    ghost use Rattle.bz_program.specs.Runs as spec;

    ghost Value = { spec.Job };

    ghost view = { λ a. record { home = a.home; passes = a.passes.items; keep_going = a.keep_going } };
}

impl Job {
    /// Makes the passes over the statements of the source, one pass after another, and writes what they leave.
    pub fn run<S: Source, W: Sink>(self, source: &mut S, sink: &mut W) -> Result<Report, RunFault>
        ensures ran { IfOk result
            (λ report. spec.Ran S.gave W.took self source.old source.new sink.old sink.new report) }
        // Where it answers no report, a front of the text was written.
        ensures front { OnErr result ((read : List (List ℕ)) × (text : List ℕ)
            × S.gave source.old read source.new × W.took sink.old text sink.new × spec.IsFront self read text) }
        // It answers none only for a reason, and the limits are these.
        ensures fault { IfErr result (λ fault. spec.IsFaultOver S.gave S.failures source.old fault source.new) }
        ensures write_failed { IsErrOf result RunFault.WriteFailed → Rises (W.failures sink.old) (W.failures sink.new) }
        ensures devices { (read : List (List ℕ)) × (text : List ℕ)
            × S.gave source.old read source.new × W.took sink.old text sink.new }
    {
        let options = Options {
            keep_going: self.keep_going,
            max_statement: MAX_STATEMENT,
            max_depth: MAX_DEPTH,
            max_reads: MAX_READS,
        };
        let alloc = *self.passes.allocator();
        run(alloc, self.home, self.passes, options, source, sink)
    }
}

/// Whether what a run wrote is to replace the file: all statements were read, something changed, and nothing failed, or
/// failures do not count.
pub fn is_kept(report: &Report, keep_going: bool) -> bool
    ensures { result ≡ spec.is_kept keep_going report.now }
{
    report.end == End::Whole && report.changed && (keep_going || !report.failed)
}
