//! What the search for the next chunk keeps to.

/// What the search for the next chunk keeps to.
#[derive(Clone, Copy)]
pub struct Limits {
    /// The most bytes of a chunk.
    pub statement: u64,
    /// The most reads of the source.
    pub reads: u64,
}
