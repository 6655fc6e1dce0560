//! Why a file was not replaced.

use bz_memory::NoMemory;

/// Why a file was not replaced. It is as it was.
#[derive(Clone, Copy, Debug, PartialEq, Eq)]
pub enum Trouble {
    /// There was no memory for the path of the temporary file. No call was made.
    OutOfMemory(NoMemory),
    /// A call failed, or the author did. No temporary file is left that was not there before.
    Clean,
    /// A call failed, and the temporary file, or what lay there before, could not be removed.
    LeftBehind,
}
