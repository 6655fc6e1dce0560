//! What is done for all packages of a script, over the files of a disk.

ghost use Rattle.std.specs.Prelude.{IfOk};
ghost use Rattle.bz_folder.specs.Tally.{no_calls};
ghost use Rattle.bz_program.specs.Disk.{AreEdited};

use crate::console::Console;
use crate::package::Devices;
use crate::packages::edit_packages;
use bz_engine::{FromRead, Sink, Source};
use bz_folder::{Draft, Folder, OnDisk};
use bz_memory::NoMemory;
use bz_script::flags::Flags;
use bz_script::group::Script;
use std::alloc::Global;
use std::fs::{File, Files};

/// Edits each package of the script in its file, and gives the exit status: `edit_packages` over the files that `rt`
/// reaches. What is read of the package `-` is the input's.
///
/// An `Err` has touched no package.
pub fn edit_all<R: Files<File = File> + Drop, S: Source + Drop, O: Sink + Drop, E: Sink + Drop>(
    rt: R,
    alloc: Global,
    flags: &Flags,
    script: Script,
    input: S,
    out: O,
    err: E,
) -> Result<u8, NoMemory>
    ensures { IfOk result (AreEdited ⟦<OnDisk<R> as Folder>⟧.did ⟦<OnDisk<R> as Folder>⟧.leads
        ⟦<OnDisk<R> as Folder>⟧.absent ⟦<FromRead<File> as Source>⟧.gave ⟦<FromRead<File> as Source>⟧.failures
        S.gave S.failures O.took E.took flags.now script.items no_calls input out err) }
{
    let mut devices = Devices {
        draft: Draft::new(alloc, OnDisk::new(alloc, rt))?,
        input,
        console: Console::new(alloc, out, err)?,
    };
    edit_packages(alloc, flags, script, &mut devices)
}
