//! Where the chunks of a file end.

pub mod block;
mod marks;
mod scan;

ghost use Rattle.std.specs.Prelude.{◌≡◌, ◌+◌, ◌<◌, ◌^◌, ◌++◌, ◌↔◌, [], List, ℕ, false, length, IsTrue};
ghost use Rattle.bz_token.specs.private.CutSteps.{start, fresh, moved, phase_now, cut_at, cutter_at};
ghost use Rattle.bz_token.specs.CutterState.{IsAfter};
ghost use Rattle.bz_token.specs.Chunks.{chunks};
ghost use Rattle.bz_token.specs.Cuts.{IsChunk, IsPart, IsBlock, IsLonger, IsCut, IsNext, left, left_next, IsLast, is_physical_line, ends_in_newline};

use block::{ChunkPhase, Opener, block_goes_on, opener_at, phase_step};
use scan::{CutState, LineKind, Scan, is_ended, read};

/// What a physical line says of its chunk.
#[derive(Clone, Copy)]
pub enum Cut {
    /// The chunk goes on after the line, or the file ends there.
    More,
    /// The lines since the last chunk's end are a chunk.
    Whole,
    /// The lines since the last chunk's end are a chunk unless the next line goes on with their block.
    Block,
}

/// Whether a block goes on.
#[derive(Clone, Copy, Debug, PartialEq, Eq)]
pub enum Next {
    /// The next line belongs to the block.
    Goes,
    /// The lines since the last chunk's end are a chunk.
    Ends,
    /// Undecided: more bytes are needed, at most 5 in all.
    Short,
}

/// Finds where the chunks of a file end, a physical line at a time. This project's own rule: a chunk is a blank line,
/// or comment lines with the blank line after them, or comment lines, if any, with a statement. A statement that
/// begins with `def`, `for` or `if` in column 1 is a block and takes the indented and empty lines after it.
#[derive(Clone, Copy)]
pub struct Cutter {
    // The logical line that is being read. It has ended only after a line of a block.
    scan: Scan,
    // The chunk, by the logical lines before this one.
    phase: ChunkPhase,
    // The word of a block that this logical line begins with.
    opener: Option<Opener>,
}

impl Cutter {
    /// Makes a cutter for a file, of which nothing is read yet.
    pub fn new() -> Self
        ensures part { IsPart [] }
        ensures after { IsAfter result [] }
    {
        Cutter::fresh()
    }

    /// Reads the next physical line with its newline, and says what it is for its chunk. The last line of a file may have
    /// no newline, and answers `More`. A chunk has less than 2^64 bytes. After `Block` only a line may come that goes on
    /// with the block: the one that is ahead where `goes_on` answered `Goes`.
    pub fn line(&mut self, line: &[u8]) -> Cut
        requires one_line { IsTrue (is_physical_line line.now) }
        requires after { (seen : List ℕ) × IsAfter self.old seen × (length seen + length line.now < 2 ^ 64)
            × (IsBlock seen → IsLonger seen line.now) }
        ensures cut { IsTrue (ends_in_newline line.now) → (seen : List ℕ) → IsAfter self.old seen
            → IsCut result (seen ++ line.now) }
        ensures whole { (seen : List ℕ) → IsAfter self.old seen → (result ≡ Cut.Whole) ↔ IsChunk (seen ++ line.now) }
        ensures block { (seen : List ℕ) → IsAfter self.old seen → (result ≡ Cut.Block) ↔ IsBlock (seen ++ line.now) }
        ensures last { ends_in_newline line.now ≡ false → (seen : List ℕ) → IsAfter self.old seen
            → IsLast result (seen ++ line.now) }
        ensures after { IsTrue (ends_in_newline line.now) → (seen : List ℕ) → IsAfter self.old seen
            → IsAfter self.new (left result (seen ++ line.now)) }
    {
        self.read_line(line);
        if !is_ended(self.scan.inside) {
            return Cut::More;
        }
        let phase = self.phase_now();
        *self = Cutter::at(phase);
        cut_at(phase)
    }

    /// Whether the block goes on, after `line` answered `Block`. `ahead` is what follows, and `at_end` says that nothing
    /// comes after that. After `Short` it is asked again with more bytes.
    pub fn goes_on(&mut self, ahead: &[u8], at_end: bool) -> Next
        requires at_block { (seen : List ℕ) × IsAfter self.old seen × IsBlock seen }
        ensures next { (seen : List ℕ) → IsAfter self.old seen → IsNext result at_end seen ahead.now }
        ensures after { (seen : List ℕ) → IsAfter self.old seen → IsAfter self.new (left_next result seen) }
    {
        let ChunkPhase::InBlock(word) = self.phase else {
            // No chunk is a block here; the condition rules it out.
            return Next::Ends;
        };
        match block_goes_on(word, ahead, at_end) {
            Next::Ends => {
                *self = Cutter::fresh();
                Next::Ends
            }
            next => next,
        }
    }

    // At the beginning of a line in no block.
    fn fresh() -> Cutter
        ensures { result ≡ fresh }
    {
        Cutter {
            scan: Scan::start(),
            phase: ChunkPhase::Comments,
            opener: None,
        }
    }

    // After a logical line that has ended.
    fn at(phase: ChunkPhase) -> Cutter
        ensures { result ≡ cutter_at phase }
    {
        match phase {
            ChunkPhase::Comments | ChunkPhase::Done => Cutter::fresh(),
            ChunkPhase::InBlock(_) => Cutter {
                scan: Scan {
                    inside: CutState::Ended,
                    ..Scan::start()
                },
                phase,
                opener: None,
            },
        }
    }

    // Reads a physical line; the first that is not blank tells whether a block begins.
    fn read_line(&mut self, line: &[u8])
        requires { self.old.scan.depth + length line.now < 2 ^ 64 }
        ensures { self.new ≡ moved self.old line.now }
    {
        if matches!(self.scan.kind, LineKind::Blank) {
            self.opener = opener_at(line);
        }
        self.scan = read(self.scan, line);
    }

    // What the chunk is after the logical line, which has ended.
    fn phase_now(&self) -> ChunkPhase
        ensures { result ≡ phase_now self.now }
    {
        let broken = matches!(self.scan.inside, CutState::BrokenOff);
        phase_step(self.phase, self.scan.kind, self.opener, broken)
    }
}

// What the end of a logical line says of its chunk.
fn cut_at(phase: ChunkPhase) -> Cut
    ensures { result ≡ cut_at phase }
{
    match phase {
        ChunkPhase::Comments => Cut::More,
        ChunkPhase::InBlock(_) => Cut::Block,
        ChunkPhase::Done => Cut::Whole,
    }
}
