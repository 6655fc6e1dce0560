//! The calls of a replacement, one after another.

ghost use Rattle.std.specs.Prelude.{◌≡◌, ◌≢◌, List, [], Ok, Err};
ghost use Rattle.bz_folder.specs.Files.{Event, HasBytes};
ghost use Rattle.bz_folder.specs.Paths.{temporary_path};
ghost use Rattle.bz_folder.specs.private.Steps.{IsSent, IsPut};
ghost use Rattle.bz_folder.specs.declared.draft.DraftState.TheVariants.{Unmade};

use crate::draft::DraftState;
use crate::folder::Folder;
use bz_devices::device::Failed;

/// Makes an empty file, in place of what lies there.
fn make_empty<D: Folder>(folder: &mut D, path: &str) -> Result<(), Failed>
    ensures { (events : List Event) × D.did folder.old events folder.new × IsSent Unmade path.now [] result events }
{
    match folder.make(path) {
        Ok(()) => Ok(()),
        Err(_) => {
            folder.remove(path)?;
            folder.make(path)
        }
    }
}

/// Makes the temporary file where it is not made.
fn prepare<D: Folder>(folder: &mut D, state: DraftState, path: &str) -> Result<(), Failed>
    ensures { (events : List Event) × D.did folder.old events folder.new × IsSent state path.now [] result events }
{
    match state {
        DraftState::Unmade => make_empty(folder, path),
        DraftState::Made => Ok(()),
        DraftState::Broken => Err(Failed),
    }
}

/// Writes bytes at the end of the temporary file, which is made first if need be.
pub(crate) fn send<D: Folder>(
    folder: &mut D,
    state: DraftState,
    path: &str,
    bytes: &[u8],
) -> Result<(), Failed>
    ensures { (events : List Event) × D.did folder.old events folder.new
        × IsSent state path.now bytes.now result events }
{
    prepare(folder, state, path)?;
    folder.write(path, bytes)
}

/// Puts the temporary file, with these permission bits, in the place of the file.
pub(crate) fn install<D: Folder>(
    folder: &mut D,
    temporary: &str,
    file: &str,
    mode: u32,
) -> Result<(), Failed>
    requires { temporary.now ≡ temporary_path file.now }
    ensures { (events : List Event) × D.did folder.old events folder.new
        × IsPut (HasBytes temporary.now) ⊥ file.now mode result events }
{
    folder.set_mode(temporary, mode)?;
    folder.rename(temporary, file)
}
