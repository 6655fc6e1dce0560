//! What a run keeps to.

/// What a run keeps to.
#[derive(Clone, Copy, Debug, PartialEq, Eq)]
pub struct Options {
    /// A failure does not end the run.
    pub keep_going: bool,
    /// The most bytes of a chunk.
    pub max_statement: u64,
    /// The most brackets that stand in one another.
    pub max_depth: u8,
    /// The most reads of the source.
    pub max_reads: u64,
}
