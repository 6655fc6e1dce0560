//! Why a text has no tokens.

ghost use Rattle.std.specs.Prelude.{◌≡◌};

use bz_memory::NoMemory;

/// Why a text has no tokens: its first fault from left to right, with the line and the column of its first byte, or that
/// allocation failed. The caller gives the number of the text's first line; columns are in bytes, from 1.
#[derive(Clone, Copy, Debug, PartialEq, Eq)]
pub enum LexFault {
    OutOfMemory(NoMemory),
    /// No token begins with the character here.
    BadCharacter { line: u64, col: u64 },
    /// Letters and digits that are no number begin here.
    BadNumber { line: u64, col: u64 },
    /// The string that begins here has no end.
    OpenText { line: u64, col: u64 },
    /// A closing bracket that does not match the innermost open one, or with none open.
    BadBracket { line: u64, col: u64 },
    /// The innermost bracket that is open at the end of the text.
    OpenBracket { line: u64, col: u64 },
    /// An opening bracket beyond the greatest depth.
    TooDeep { line: u64, col: u64 },
    /// A backslash that continues no line.
    BadBackslash { line: u64, col: u64 },
}

impl From<NoMemory> for LexFault {
    ghost use Rattle.bz_token.specs.declared.fault.LexFault.TheVariants.{OutOfMemory};

    ghost from_gives = { λ why e. e ≡ OutOfMemory why };

    fn from(why: NoMemory) -> LexFault {
        LexFault::OutOfMemory(why)
    }
}
