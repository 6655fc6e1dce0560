//! What a run reports.

use bz_label::Text;

/// Something that a run reports, with its text.
#[derive(Drop)]
pub enum Entry {
    /// A line that `print` prints.
    Line(Text),
    /// The message of a warning, which is no failure.
    Warning(Text),
    /// The message of a failure.
    Failure(Text),
}

/// What an entry is beside its text.
#[derive(Clone, Copy)]
pub(crate) enum EntryKind {
    Line,
    Warning,
    Failure,
}
