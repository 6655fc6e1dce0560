//! What is done for all packages of a script.

ghost use Rattle.std.specs.Prelude.{◌≡◌, [], Ok, IfOk, OnErr, true};
ghost use Rattle.bz_folder.specs.Sequence.{SafeRun};
ghost use Rattle.bz_program.specs.Files.{MayHoldNothing};
ghost use Rattle.bz_program.specs.Handled.{IsStatusOfAll};
ghost use Rattle.bz_program.specs.Program as spec;

use crate::package::{Devices, FAILED, edit_package};
use crate::run::Job;
use bz_engine::{Sink, Source};
use bz_folder::Folder;
use bz_memory::NoMemory;
use bz_script::flags::Flags;
use bz_script::group::Script;
use bz_script::packages::by_package;
use bz_script::status::whole_status;
use std::alloc::Global;

/// Edits each package of the script, in the order of their first mention, and gives the exit status. Without `-k` no
/// package comes after one that failed.
///
/// At each moment each file has the bytes that it had, or, where it is the BUILD file of a package of the script, the
/// whole text of a run for that package, with all its passes, that is kept: of a run over what was read of that very
/// file. An `Err` has touched no package.
pub fn edit_packages<D: Folder, S: Source, O: Sink, E: Sink>(
    alloc: Global,
    flags: &Flags,
    script: Script,
    devices: &mut Devices<D, S, O, E>,
) -> Result<u8, NoMemory>
    ensures safe { SafeRun D.did (spec.MayHold D.leads D.File.gave flags.now.k script.items)
        devices.old.draft.folder devices.new.draft.folder }
    // Each package that comes has its account and its status: what was read, shown, told, and put in a file's place.
    // Without `-k` none comes after one that failed.
    ensures status { IfOk result (IsStatusOfAll D.did D.leads D.absent D.File.gave D.File.failures S.gave S.failures
        O.took E.took flags.now script.items devices.old devices.new) }
    // At status 3 no file was touched, but for a temporary one.
    ensures idle { result ≡ Ok 3
        → SafeRun D.did MayHoldNothing devices.old.draft.folder devices.new.draft.folder }
    // With `-stdout`, and where all commands print, no call was made that changes a folder.
    ensures shown { spec.are_shown flags.now.stdout script.items ≡ true
        → D.did devices.old.draft.folder [] devices.new.draft.folder }
    ensures err { OnErr result (devices.new ≡ devices.old) }
{
    let packages = by_package(alloc, script)?;
    let mut whole = whole_status(&[]);
    for (home, passes) in packages {
        let job = Job {
            home,
            passes,
            keep_going: flags.k,
        };
        let status = edit_package(alloc, flags, job, devices);
        whole = whole_status(&[whole, status]);
        if status == FAILED && !flags.k {
            break;
        }
    }
    Ok(whole)
}
