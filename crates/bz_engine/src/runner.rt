//! A run from a source to a sink.

ghost use Rattle.std.specs.Prelude.{◌≡◌, ◌≢◌, ℕ, ◌≤◌, ◌^◌, List, length, IfOk, IfErr, IsErrOf};
ghost use Rattle.bz_devices.specs.Device.{Rises};
ghost use Rattle.bz_engine.specs.EveryFile.{ForEveryFile};
ghost use Rattle.bz_engine.specs.NeededReads.{AreReads, IsOneNeeded};
ghost use Rattle.bz_engine.specs.Stops.{HasEndedAt, HasStopped};
ghost use Rattle.bz_engine.specs.Outcome.{Told, run_with, IsOutcome, IsFrontOf, told_by};

use crate::options::Options;
use crate::report::Report;
use crate::run_fault::RunFault;
use crate::session::{Session, Step};
use bz_devices::device::{Sink, Source};
use bz_passes::pass::Pass;
use bz_rule::{Command, Package, Target};
use std::alloc::Global;

/// Makes the passes, one after another, over the whole list of the statements of the input, and writes what they leave.
///
/// One statement is held at a time. With `keep_going` every execution takes place; without, the run ends at the first
/// statement on which one fails. A fault of the file ends its statements, and is then the only message.
pub fn run<S: Source, W: Sink>(
    alloc: Global,
    home: Package,
    passes: Vec<Pass<Target, Command>>,
    options: Options,
    source: &mut S,
    sink: &mut W,
) -> Result<Report, RunFault>
    // A read gives at most 8,192 bytes, so the input has at most 2^63, and the number of a line stays below 2^64. The
    // program calls this with at most 2^32 reads (`Job::run`).
    requires { options.max_reads ≤ 2 ^ 50 }
    // For every file that begins with what the source gave (once its end was met, for that file), the bytes that were
    // appended and the report are the outcome of the passes over its statements. Each read was needed, and no chunk
    // counts but those that are done and the one that ended the run.
    ensures outcome { IfOk result (λ report. (pieces : List (List ℕ)) × (text : List ℕ)
        × S.gave source.old pieces source.new × W.took sink.old text sink.new
        × AreReads home passes.items options pieces
        × ForEveryFile pieces
        (λ file. IsOutcome (run_with home passes.items options) file text (told_by report))
        × HasEndedAt (run_with home passes.items options) options.max_statement pieces report.end) }
    // Before a fault a front of the text was written that is written for each such file: that of the chunks that are
    // done, and, where a write failed, a front of what the next one adds. What the fault says is true of the next chunk
    // and of the bytes that were given (`Tells` of `Stops`).
    ensures stopped { IfErr result (λ fault. (pieces : List (List ℕ)) × (text : List ℕ)
        × S.gave source.old pieces source.new × W.took sink.old text sink.new
        × AreReads home passes.items options pieces
        × ForEveryFile pieces (λ file. (whole : List ℕ) (told : Told)
        → IsOutcome (run_with home passes.items options) file whole told → IsFrontOf text whole)
        × HasStopped (run_with home passes.items options) options pieces text fault) }
    // `devices`, `too_long` and `going` follow from `outcome` and `stopped`; they are said apart to be read alone.
    // Whatever is answered, nothing but reads and writes happened to the devices.
    ensures devices { (pieces : List (List ℕ)) × (text : List ℕ)
        × S.gave source.old pieces source.new × W.took sink.old text sink.new }
    ensures steady { (result ≢ Err RunFault.ReadFailed → S.failures source.new ≡ S.failures source.old)
        × (result ≢ Err RunFault.WriteFailed → W.failures sink.new ≡ W.failures sink.old) }
    ensures read_failed { IsErrOf result RunFault.ReadFailed
        → Rises (S.failures source.old) (S.failures source.new) }
    ensures write_failed { IsErrOf result RunFault.WriteFailed
        → Rises (W.failures sink.old) (W.failures sink.new) }
    // That many reads were made, none of them the end, and another was needed after these bytes.
    ensures too_long { IsErrOf result RunFault.InputTooLong → (pieces : List (List ℕ)) × (left : List ℕ)
        × S.gave source.old pieces source.new × (length pieces ≡ options.max_reads)
        × IsOneNeeded (run_with home passes.items options) options.max_statement pieces left }
    ensures going { result ≢ Err RunFault.Stopped }
{
    let mut session = Session::new(alloc, home, passes, options)?;
    loop {
        match session.step(source, sink)? {
            Step::More => {}
            Step::End => return session.finish(),
        }
    }
}
