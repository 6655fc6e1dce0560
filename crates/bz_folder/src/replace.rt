//! A file is replaced.

ghost use Rattle.std.specs.Prelude.{◌≡◌, ◌⊎◌, ℕ, ◌<◌, List, [], length, Bool, true, false, Ok, Err, Result};
ghost use Rattle.bz_devices.specs.declared.device.Failed.{Failed};
ghost use Rattle.bz_folder.specs.Files.{Event};
ghost use Rattle.bz_folder.specs.Paths.{temporary_path};
ghost use Rattle.bz_folder.specs.DraftValue.{capacity};
ghost use Rattle.bz_folder.specs.Replace.{Replacement};
ghost use Rattle.bz_folder.specs.private.Steps.{IsFinished};

use crate::author::Author;
use crate::draft::Draft;
use crate::folder::Folder;
use crate::trouble::Trouble;
use bz_devices::device::Failed;

/// What comes after the author's writes.
fn finish<D: Folder>(
    draft: &mut Draft<D>,
    file: &str,
    mode: u32,
    answer: Result<bool, Failed>,
) -> Result<bool, Trouble>
    requires { draft.old.temporary ≡ temporary_path file.now }
    ensures { (events : List Event) × D.did draft.old.folder events draft.new.folder
        × IsFinished draft.old file.now mode answer result events }
{
    match answer {
        Ok(true) => match draft.put(file, mode) {
            Ok(()) => Ok(true),
            Err(_) => draft.abandon(Err(Trouble::Clean)),
        },
        Ok(false) => draft.abandon(Ok(false)),
        Err(_) => draft.abandon(Err(Trouble::Clean)),
    }
}

/// Gives a file the text that an author writes, if it is to be kept: `Ok(true)` says that it was.
///
/// At each moment of the call the file has its old bytes and permission bits, or the whole new text
/// with the permission bits `mode` if that was to be kept, and the temporary file is the only other
/// that changes.
pub fn replace_file<D: Folder, A: Author>(
    draft: &mut Draft<D>,
    file: &str,
    mode: u32,
    author: &mut A,
) -> Result<bool, Trouble>
    ensures safe { Replacement D.did A.gives draft.old.folder draft.new.folder author.old author.new
        file.now mode result }
    // The author was asked at most once.
    ensures asked { (author.new ≡ author.old)
        ⊎ ((text : List ℕ) × (answer : Result Bool Failed) × A.gives author.old text answer author.new) }
    // What was put was given to be kept.
    ensures wanted { result ≡ Ok true → (text : List ℕ) × A.gives author.old text (Ok true) author.new }
    // What is not to be kept is not written anywhere while it is short.
    ensures unwanted { result ≡ Ok false → (text : List ℕ) × A.gives author.old text (Ok false) author.new
        × (length text < capacity → D.did draft.old.folder [] draft.new.folder) }
{
    match draft.begin(file) {
        Ok(()) => {
            let answer = author.write_to(draft);
            finish(draft, file, mode, answer)
        }
        Err(why) => Err(Trouble::OutOfMemory(why)),
    }
}
