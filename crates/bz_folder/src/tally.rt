//! How many calls were made of each kind.

/// How many calls of each kind succeeded, how many bytes were written, and how many calls failed.
/// Each count stays at its greatest value.
#[derive(Clone, Copy)]
pub struct Tally {
    pub makes: u64,
    pub writes: u64,
    pub bytes: u64,
    pub modes: u64,
    pub renames: u64,
    pub removes: u64,
    pub failures: u64,
}
