//! A run that edits a file in place.

ghost use Rattle.std.specs.Prelude.{◌≡◌, ◌≢◌, Ok, IfOk, IfErr, OnErr, true, false, string_bytes};
ghost use Rattle.bz_folder.specs.Sequence.{SafeRun};
ghost use Rattle.bz_program.specs.Files as spec;

use crate::file_run::{Ended, FileRun};
use crate::run::Job;
use bz_engine::{Report, RunFault};
use bz_folder::{Draft, Folder, Opened, Trouble, replace_file};

/// Why a file was not edited.
#[derive(Clone, Copy)]
pub enum FileFault {
    Run(RunFault),
    /// The new file could not be made, written, flushed or put in the old one's place.
    CannotWrite,
}

/// Edits a file: what the run writes replaces it where it is kept. Gives what the run tells, and whether the file was
/// replaced.
///
/// At each moment the file has its old bytes, or the whole text of the run if that is kept: of a run over what was read
/// of the file itself.
pub fn edit_file<D: Folder>(
    job: Job,
    opened: Opened<D::File>,
    draft: &mut Draft<D>,
) -> Result<(Report, bool), FileFault>
    ensures safe { SafeRun D.did (spec.MayBe D.File.gave opened.source job (string_bytes opened.path))
        draft.old.folder draft.new.folder }
    ensures edited { IfOk result (λ edited. spec.IsEdited D.File.gave opened.source job edited.0 edited.1) }
    // The file holds that run's text in the end where it was replaced, and else what it held.
    ensures placed { spec.IsPlaced D.File.gave D.did job opened result draft.old.folder draft.new.folder }
    ensures failed { IfErr result (λ fault. spec.IsFileFault D.File.gave D.File.failures opened.source fault) }
    // Where the file was not replaced, no file was touched, but for a temporary one.
    ensures idle { IfOk result (λ edited. edited.1 ≡ false
        → SafeRun D.did spec.MayHoldNothing draft.old.folder draft.new.folder) }
{
    // The author owns the source, so no other run replaces the file before this one is done with it.
    let mut author = FileRun::new(opened.source, job);
    let replaced = replace_file(draft, &opened.path, opened.mode, &mut author);
    match author.ended() {
        Ended::Told(report) => report_and_kept(report, replaced),
        Ended::Failed(fault) => Err(fault_of_run(fault)),
        Ended::NotYet => Err(fault_of_start(replaced)),
    }
}

/// What a run told, and whether the file was replaced.
fn report_and_kept(
    report: Report,
    replaced: Result<bool, Trouble>,
) -> Result<(Report, bool), FileFault>
    ensures told { IfOk result (λ told. (told.0 ≡ report) × (replaced ≡ Ok told.1)) }
    ensures failed { OnErr result (replaced ≢ Ok true) }
    ensures fault { IfErr result (λ fault. spec.IsOfFolder fault) }
{
    match replaced {
        Ok(kept) => Ok((report, kept)),
        Err(trouble) => Err(fault_of_trouble(trouble)),
    }
}

/// Why a run failed that wrote a file: what it could not write is the file.
fn fault_of_run(fault: RunFault) -> FileFault
    ensures { result ≡ spec.file_fault fault }
{
    match fault {
        RunFault::WriteFailed => FileFault::CannotWrite,
        _ => FileFault::Run(fault),
    }
}

/// Why a run did not begin.
fn fault_of_start(replaced: Result<bool, Trouble>) -> FileFault
    ensures { spec.IsOfFolder result }
{
    match replaced {
        Ok(_) => FileFault::CannotWrite,
        Err(trouble) => fault_of_trouble(trouble),
    }
}

fn fault_of_trouble(trouble: Trouble) -> FileFault
    ensures { spec.IsOfFolder result }
{
    match trouble {
        Trouble::OutOfMemory(why) => FileFault::Run(RunFault::OutOfMemory(why)),
        Trouble::Clean | Trouble::LeftBehind => FileFault::CannotWrite,
    }
}
