//! Why a chunk has no statement.

ghost use Rattle.std.specs.Prelude.{◌≡◌};

use bz_memory::NoMemory;
use bz_token::LexFault;

/// Says why a chunk has no statement, or that memory was refused. Lines count from the file's first line, 1.
#[derive(Clone, Copy, Debug, PartialEq, Eq)]
pub enum ParseFault {
    /// Memory was refused.
    OutOfMemory(NoMemory),
    /// The first lexical fault of the chunk, which is never that memory was refused.
    Lex(LexFault),
    /// The logical line that begins on this line stands on another column than it should.
    Indented { line: u64 },
    /// The tokens are those of no statement of the grammar. The first of them is on this line.
    NotAStatement { line: u64 },
}

impl From<NoMemory> for ParseFault {
    ghost use Rattle.bz_tree.specs.declared.fault.ParseFault.TheVariants.{OutOfMemory};

    ghost from_gives = { λ why e. e ≡ OutOfMemory why };

    fn from(why: NoMemory) -> ParseFault {
        ParseFault::OutOfMemory(why)
    }
}
