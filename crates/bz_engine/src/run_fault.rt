//! Why a run ended before its report.

ghost use Rattle.std.specs.Prelude.{◌≡◌};

use bz_memory::NoMemory;

/// Why a run ended before its report.
#[derive(Clone, Copy, Debug, PartialEq, Eq)]
pub enum RunFault {
    OutOfMemory(NoMemory),
    ReadFailed,
    WriteFailed,
    /// All the reads that may be made were made without the end, and another is needed.
    InputTooLong,
    /// The chunk that starts at this line has more bytes than it may.
    StatementTooLong { line: u64 },
    /// The session was stopped by a fault before, or has not ended yet.
    Stopped,
}

impl From<NoMemory> for RunFault {
    ghost use Rattle.bz_engine.specs.declared.run_fault.RunFault.TheVariants.{OutOfMemory};

    ghost from_gives = { λ why e. e ≡ OutOfMemory why };

    fn from(why: NoMemory) -> RunFault {
        RunFault::OutOfMemory(why)
    }
}
