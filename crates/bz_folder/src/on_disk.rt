//! The folder of a program: the calls of std, and a count of them. `edit_all` of bz_program makes it, and
//! `replace_file` (`replace.rt`) makes the calls, by the trait `Folder`.

ghost use Rattle.std.specs.Prelude.{◌≡◌, ⊤};
ghost use Rattle.bz_devices.specs.Device.{Counts};
ghost use Rattle.bz_folder.specs.Tally.{no_calls, Tallies, tallies_nothing, tallies_more};

use crate::folder::{CannotOpen, Folder, Opened, Purpose, Refusal};
use crate::tally::Tally;
use bz_devices::device::Failed;
use bz_devices::std_device::FromRead;
use bz_memory::{NoMemory, from_str};
use std::alloc::Global;
use std::cell::Cell;
use std::fs::{File, Files, Metadata, OpenOptions, Permissions};
use std::io::{ErrorKind, Write};
use std::marker::Model;
use std::os::unix::fs::{MetadataExt, OpenOptionsExt, PermissionsExt};
use std::{fs, io};

/// The permission bits of a new temporary file: its owner's alone.
const PRIVATE: u32 = 0o600;

/// The permission bits of a file's mode.
const PERMISSION_BITS: u32 = 0o7777;

/// How often a file is opened at most, where each time another run replaced it before it was
/// locked. On a file system whose inode numbers do not last this ends.
const MOST_TRIES: u32 = 10_000;

/// The file that was made last, while it is open.
#[derive(Drop)]
struct Made {
    file: File,
    /// How many bytes were written to it.
    size: u64,
}

impl Made {
    /// Writes all of the bytes at the end.
    fn write_all(&mut self, bytes: &[u8]) -> Result<(), Refusal> {
        self.size = self.size.saturating_add(bytes.len() as u64);
        match self.file.write_all(bytes) {
            Ok(()) => Ok(()),
            Err(error) => Err(refusal_of(&error)),
        }
    }

    fn set_mode(&self, mode: u32) -> Result<(), Refusal> {
        match self.file.set_permissions(Permissions::from_mode(mode)) {
            Ok(()) => Ok(()),
            Err(error) => Err(refusal_of(&error)),
        }
    }
}

/// The files of a system, the file that was made last, and a look at the one that was opened last.
///
/// Contracts see how many calls it made.
#[derive(Drop)]
pub struct OnDisk<R: Files<File = File>> {
    alloc: Global,
    files: R,
    made: Option<Made>,
    /// The file that may be replaced, as it was before it was read.
    seen: Cell<Option<Metadata>>,
    /// Why the call that failed last did.
    refusal: Refusal,
    tally: Tally,
}

impl<R: Files<File = File>> Model for OnDisk<R> {
    ghost use Rattle.bz_folder.specs.declared.tally.Tally.{Tally};

    ghost Value = { Tally };

    ghost view = { λ d. d.tally };
}

impl<R: Files<File = File> + Drop> OnDisk<R> {
    /// The files that a handle of std reaches; no call was made.
    pub fn new(alloc: Global, files: R) -> OnDisk<R>
        ensures { result ≡ no_calls }
    {
        OnDisk {
            alloc,
            files,
            made: None,
            seen: Cell::new(None),
            refusal: Refusal::Unknown,
            tally: Tally {
                makes: 0,
                writes: 0,
                bytes: 0,
                modes: 0,
                renames: 0,
                removes: 0,
                failures: 0,
            },
        }
    }
}

/// A pipe would be waited for, and a device is not to be replaced. A folder can be opened, and is
/// never replaced, since no read of it succeeds.
fn require_file_or_folder(there: &Metadata) -> Result<(), CannotOpen> {
    if there.is_file() || there.is_dir() {
        return Ok(());
    }
    Err(CannotOpen::NotRegular)
}

impl From<io::Error> for CannotOpen {
    fn from(error: io::Error) -> CannotOpen {
        match error.kind() {
            ErrorKind::NotFound | ErrorKind::NotADirectory => CannotOpen::Absent,
            ErrorKind::PermissionDenied => CannotOpen::NoRight,
            _ => CannotOpen::Failed,
        }
    }
}

impl From<NoMemory> for CannotOpen {
    fn from(_: NoMemory) -> CannotOpen {
        CannotOpen::Failed
    }
}

/// Why a call failed that the system answered so.
fn refusal_of(error: &io::Error) -> Refusal {
    match error.kind() {
        ErrorKind::PermissionDenied | ErrorKind::ReadOnlyFilesystem => Refusal::NoRight,
        ErrorKind::StorageFull | ErrorKind::QuotaExceeded => Refusal::NoSpace,
        ErrorKind::IsADirectory => Refusal::Folder,
        _ => Refusal::Unknown,
    }
}

/// Whether two looks were at one file.
fn is_same_file(one: &Metadata, other: &Metadata) -> bool {
    one.dev() == other.dev() && one.ino() == other.ino()
}

/// Whether two looks were at one file, and neither its text nor its permission bits changed between
/// them.
fn is_unchanged(before: &Metadata, now: &Metadata) -> bool {
    is_same_file(before, now)
        && before.len() == now.len()
        && before.ctime() == now.ctime()
        && before.ctime_nsec() == now.ctime_nsec()
}

impl<R: Files<File = File>> OnDisk<R> {
    /// Opens a file that stays.
    fn open_to_read(&self, path: &str) -> Result<Opened<FromRead<File>>, CannotOpen> {
        let there = fs::metadata(&self.files, path)?;
        require_file_or_folder(&there)?;
        Ok(Opened {
            source: FromRead::new(File::open(&self.files, path)?),
            mode: there.permissions().mode() & PERMISSION_BITS,
            path: from_str(self.alloc, path)?,
        })
    }

    /// Opens a file that may be replaced, when no other run holds it.
    fn open_to_replace(&self, path: &str) -> Result<Opened<FromRead<File>>, CannotOpen> {
        for _ in 0..MOST_TRIES {
            let path = self.resolve(path)?;
            let file = self.open_locked(&path)?;
            let own = file.metadata()?;
            // The run that held the lock before may have put another file at the path; so its text
            // is what is to be edited.
            if is_same_file(&own, &fs::symlink_metadata(&self.files, &path)?) {
                let mode = own.permissions().mode() & PERMISSION_BITS;
                self.seen.set(Some(own));
                return Ok(Opened {
                    source: FromRead::new(file),
                    mode,
                    path,
                });
            }
        }
        Err(CannotOpen::Failed)
    }

    /// The path of the file or folder itself, where a link stands at the end of the path.
    fn resolve(&self, path: &str) -> Result<String, CannotOpen> {
        let there = fs::symlink_metadata(&self.files, path)?;
        if there.is_symlink() {
            let file = self.files.canonicalize(self.alloc, path)?.into_string();
            return require_file_or_folder(&fs::symlink_metadata(&self.files, &file)?).and(Ok(file));
        }
        require_file_or_folder(&there)?;
        Ok(from_str(self.alloc, path)?)
    }

    /// The file, open and locked until it is closed. Where the file system has no locks it is open
    /// alone: then only the looks before the rename keep runs apart.
    fn open_locked(&self, path: &str) -> io::Result<File> {
        let file = File::open(&self.files, path)?;
        if file.lock().is_ok() {
            return Ok(file);
        }
        self.open_locked_to_write(path).or(Ok(file))
    }

    /// The file, open to be written too: some network file systems lock no other.
    fn open_locked_to_write(&self, path: &str) -> io::Result<File> {
        let file = OpenOptions::new()
            .read(true)
            .write(true)
            .open(&self.files, path)?;
        file.lock().and(Ok(file))
    }

    /// Closes the file that was made last. Is it at the path, with all that was written? Without
    /// locks another run may have removed it and made its own there; and some file systems tell
    /// only after the close that a write failed.
    fn is_whole_at(&self, made: Option<Made>, path: &str) -> bool {
        let Some(made) = made else {
            return false;
        };
        let Ok(own) = made.file.metadata() else {
            return false;
        };
        drop(made.file);
        match fs::symlink_metadata(&self.files, path) {
            Ok(there) => is_same_file(&own, &there) && there.len() == made.size,
            Err(_) => false,
        }
    }

    /// Is the file at the path the one that was read, unchanged? What another program wrote or put
    /// there meanwhile is not lost.
    fn is_as_seen(&self, path: &str) -> bool {
        match (self.seen.take(), fs::symlink_metadata(&self.files, path)) {
            (Some(seen), Ok(there)) => is_unchanged(&seen, &there),
            _ => false,
        }
    }

    /// Counts a call that failed, and keeps why it did.
    fn fail(&mut self, why: Refusal) -> Failed
        ensures counted { Counts self.old.failures self.new.failures 1 }
        ensures steady { self.new ≡ record self.old { failures = self.new.failures } }
    {
        self.refusal = why;
        self.tally.failures = self.tally.failures.saturating_add(1);
        Failed
    }

    /// Puts the file that was made last in the place of the one that was read, unless one of them is otherwise than it
    /// was left.
    fn rename_draft(&mut self, from: &str, to: &str) -> Result<(), Refusal>
        ensures { self.new ≡ self.old }
    {
        let made = self.made.take();
        if !self.is_whole_at(made, from) {
            return Err(Refusal::Unknown);
        }
        if !self.is_as_seen(to) {
            return Err(Refusal::Changed);
        }
        match fs::rename(&self.files, from, to) {
            Ok(()) => Ok(()),
            Err(error) => Err(refusal_of(&error)),
        }
    }
}

impl<R: Files<File = File>> Folder for OnDisk<R> {
    type File = FromRead<File>;

    ghost did = { λ old events new. Tallies old new events };

    // No clause of std tells where a link leads, nor what is at a path.
    ghost leads = { λ path file source. ⊤ };

    ghost absent = { λ folder path. ⊤ };

    ghost did_nothing = { λ s. tallies_nothing s };

    ghost did_more = { λ a b c es fs p q. tallies_more a b c es fs p q };

    fn open(&self, path: &str, purpose: Purpose) -> Result<Opened<FromRead<File>>, CannotOpen> {
        match purpose {
            Purpose::Read => self.open_to_read(path),
            Purpose::Replace => self.open_to_replace(path),
        }
    }

    fn make(&mut self, path: &str) -> Result<(), Failed> {
        let made = OpenOptions::new()
            .write(true)
            .create_new(true)
            .mode(PRIVATE)
            .open(&self.files, path);
        match made {
            Ok(file) => {
                self.made = Some(Made { file, size: 0 });
                self.tally.makes = self.tally.makes.saturating_add(1);
                Ok(())
            }
            Err(error) => { Err(self.fail(refusal_of(&error))) }
        }
    }

    fn write(&mut self, _path: &str, bytes: &[u8]) -> Result<(), Failed> {
        let written = match &mut self.made {
            Some(made) => made.write_all(bytes),
            None => Err(Refusal::Unknown),
        };
        if let Err(why) = written {
            return Err(self.fail(why));
        }
        self.tally.writes = self.tally.writes.saturating_add(1);
        self.tally.bytes = self.tally.bytes.saturating_add(bytes.len() as u64);
        Ok(())
    }

    fn set_mode(&mut self, _path: &str, mode: u32) -> Result<(), Failed> {
        let set = match &self.made {
            Some(made) => made.set_mode(mode),
            None => Err(Refusal::Unknown),
        };
        if let Err(why) = set {
            return Err(self.fail(why));
        }
        self.tally.modes = self.tally.modes.saturating_add(1);
        Ok(())
    }

    fn rename(&mut self, from: &str, to: &str) -> Result<(), Failed> {
        if let Err(why) = self.rename_draft(from, to) {
            return Err(self.fail(why));
        }
        self.tally.renames = self.tally.renames.saturating_add(1);
        Ok(())
    }

    fn remove(&mut self, path: &str) -> Result<(), Failed> {
        self.made = None;
        if let Err(error) = fs::remove_file(&self.files, path) {
            if error.kind() != ErrorKind::NotFound {
                return Err(self.fail(refusal_of(&error)));
            }
        }
        self.tally.removes = self.tally.removes.saturating_add(1);
        Ok(())
    }

    fn refusal(&self) -> Refusal {
        self.refusal
    }
}
