//! What a run tells at its end.

ghost use Rattle.std.specs.Prelude.{◌≡◌};

use bz_passes::texts::Texts;
use bz_tree::ParseFault;

/// Why a file has no further statements.
#[derive(Clone, Copy, Debug, PartialEq, Eq)]
pub enum SyntaxFault {
    /// The first byte that belongs to no UTF-8 stands here: its line from 1, its column in bytes from 1.
    NotUtf8 { line: u64, col: u64 },
    Parse(ParseFault),
}

/// How a run ended.
#[derive(Clone, Copy, Debug, PartialEq, Eq)]
pub enum End {
    /// All statements of the file were read.
    Whole,
    /// A statement could not be read.
    Syntax(SyntaxFault),
    /// A command failed, and failures end the run.
    FirstFailure,
}

/// What a run tells beside the text that it wrote.
#[derive(Drop)]
pub struct Report {
    /// What was printed, in order.
    pub lines: Texts,
    /// What went wrong, in order.
    pub messages: Texts,
    /// Some command left some statement different from what it found.
    pub changed: bool,
    /// Some command failed, a target that had to mark something marked nothing, or a statement could not be read.
    pub failed: bool,
    pub end: End,
}

impl Report {
    ghost use Rattle.bz_engine.specs.Outcome.{status_of};

    /// The exit status: 2 if the run failed, else 0 if it changed something, else 3.
    pub fn status(&self) -> u8
        ensures { result ≡ status_of self.now }
    {
        if self.failed {
            2
        } else if self.changed {
            0
        } else {
            3
        }
    }
}
