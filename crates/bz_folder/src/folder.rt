//! The calls that are made of a file system.

ghost use Rattle.std.specs.Prelude.{◌≡◌, ℕ, List, [], ◌∷◌, ◌++◌, is_ok, IfOk, Err, string_bytes};
ghost use Rattle.bz_folder.specs.Files.{Event, Make, Write, SetMode, Rename, Remove};

use bz_devices::device::{Failed, Source};

/// Why a file was not opened.
#[derive(Clone, Copy)]
pub enum CannotOpen {
    /// There is no such file.
    Absent,
    /// It may be there, and there is no right to open it.
    NoRight,
    /// A pipe, a device or a socket is there.
    NotRegular,
    /// It may be there and cannot be opened.
    Failed,
}

/// Why a call that changes files failed. It helps a user, and nothing depends on it.
#[derive(Clone, Copy)]
pub enum Refusal {
    /// There is no right to make the change.
    NoRight,
    /// There is no space for it.
    NoSpace,
    /// A folder is where a file was to be.
    Folder,
    /// Another program changed the file meanwhile, or put another in its place.
    Changed,
    /// No more is known.
    Unknown,
}

/// What a file is opened for.
#[derive(Clone, Copy, PartialEq, Eq)]
pub enum Purpose {
    /// It is read, and stays.
    Read,
    /// It is read, and may be replaced.
    Replace,
}

/// A file that is open to be read, and what its replacement needs to know.
#[derive(Drop)]
pub struct Opened<F> {
    pub source: F,
    /// Its permission bits.
    pub mode: u32,
    /// The path of the file itself, where a link led to it.
    pub path: String,
}

/// The files of a system, and the calls that a replacement makes of them.
///
/// What calls were made is a relation of the states before and after. Over memory it names each
/// call, over a disk their count alone.
pub trait Folder {
    type File: Source + Drop;

    // The first state made these calls, each with whether it succeeded, and became the second.
    ghost did: { Self → List Event → Self → Type 0 };

    // What is opened at the first path may be the file at the second, to which a link leads, and its
    // bytes are read from this source.
    ghost leads: { List ℕ → List ℕ → Self.File → Type 0 };

    // Nothing is at this path.
    ghost absent: { Self → List ℕ → Type 0 };

    /// Opens a regular file to read it. This changes no file.
    ///
    /// A file that may be replaced is opened by one run at a time: no other run replaces it before
    /// its source is dropped, and another that opens it so waits until then.
    fn open(&self, path: &str, purpose: Purpose) -> Result<Opened<Self::File>, CannotOpen>
        ensures leads { IfOk result (λ opened. leads path.now (string_bytes opened.path) opened.source) }
        ensures absent { result ≡ Err CannotOpen.Absent → absent self.now path.now };

    /// Makes an empty file, open to be written, where nothing is: a link at the path is not
    /// followed.
    fn make(&mut self, path: &str) -> Result<(), Failed>
        ensures { did self.old ((Make path.now, is_ok result) ∷ []) self.new };

    /// Writes all of the bytes at the end of the file that was made last, at this path.
    fn write(&mut self, path: &str, bytes: &[u8]) -> Result<(), Failed>
        ensures { did self.old ((Write path.now bytes.now, is_ok result) ∷ []) self.new };

    /// Sets the permission bits of the file that was made last, at this path.
    fn set_mode(&mut self, path: &str, mode: u32) -> Result<(), Failed>
        ensures { did self.old ((SetMode path.now mode, is_ok result) ∷ []) self.new };

    /// Puts the file at the first path in the place of what is at the second, at one moment.
    fn rename(&mut self, from: &str, to: &str) -> Result<(), Failed>
        ensures { did self.old ((Rename from.now to.now, is_ok result) ∷ []) self.new };

    /// Removes what is at the path. At `Ok` nothing is there, as also where nothing was.
    fn remove(&mut self, path: &str) -> Result<(), Failed>
        ensures { did self.old ((Remove path.now, is_ok result) ∷ []) self.new };

    /// Why the call that failed last did.
    fn refusal(&self) -> Refusal;

    ghost did_nothing: { (s : Self) → did s [] s };

    ghost did_more: { (a b c : Self) (es fs : List Event) → did a es b → did b fs c → did a (es ++ fs) c };
}
