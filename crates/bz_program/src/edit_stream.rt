//! A run that writes to standard output.

ghost use Rattle.std.specs.Prelude.{◌≡◌, ℕ, List, IfOk, IfErr};
ghost use Rattle.bz_program.specs.Console.{Shows};
ghost use Rattle.bz_program.specs.Streams as spec;

use crate::console::Console;
use crate::run::Job;
use bz_engine::{RunFault, Sink, Source};

/// Edits what a source gives: the text goes to standard output, the printed lines after it, and the messages to
/// standard error, each after the name of the file. Gives the exit status.
pub fn edit_stream<S: Source, O: Sink, E: Sink>(
    job: Job,
    file: &str,
    source: &mut S,
    console: &mut Console<O, E>,
) -> Result<u8, RunFault>
    ensures edited { IfOk result
        (λ status.
        spec.IsStreamed S.gave O.took E.took job file.now source.old source.new console.old console.new status) }
    ensures failed { IfErr result (λ fault.
        spec.IsCutShort S.gave S.failures O.took E.took job source.old source.new console.old console.new fault) }
    ensures devices { (read : List (List ℕ)) × (shown : List ℕ) × (told : List ℕ)
        × S.gave source.old read source.new × Shows O.took E.took console.old shown told console.new }
{
    let report = job.run(source, &mut console.out)?;
    console.put_report(file, &report);
    Ok(report.status())
}
