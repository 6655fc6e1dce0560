//! The words that begin a block, and the lines that go on with it.

ghost use Rattle.std.specs.Prelude.{◌≡◌, ◌<◌, [], true, false, bytes_eq};
ghost use Rattle.std.specs.List.{list_all};
ghost use Rattle.bz_token.specs.Lexical.{is_word_byte};
ghost use Rattle.bz_token.specs.Blocks.{word_at, opener_of, has_branch, goes_on};
ghost use Rattle.bz_token.specs.private.Phases.{phase_of, phase_step};
ghost use Rattle.bz_token.specs.private.Decided.{DecidesAhead, is_branch_front};
ghost use Rattle.bz_token.specs.Pieces.{is_white};

use super::Next;
use super::scan::LineKind;
use crate::table::is_word_byte;

/// The words that begin a block.
#[derive(Clone, Copy)]
pub enum Opener {
    Def,
    For,
    If,
}

/// What a chunk is, as far as its logical lines were read.
#[derive(Clone, Copy)]
pub enum ChunkPhase {
    /// Comment lines alone.
    Comments,
    /// A block, with the word that begins it.
    InBlock(Opener),
    /// Whole.
    Done,
}

fn is_white(b: u8) -> bool
    ensures { result ≡ is_white true b }
{
    matches!(b, b' ' | b'\t' | b'\r' | b'\n')
}

// Whether this is the first word of the text.
fn begins_with_word(text: &[u8], word: &[u8]) -> bool
    requires { list_all is_word_byte word.now ≡ true }
    ensures { result ≡ bytes_eq (word_at text.now) word.now }
{
    match text.strip_prefix(word) {
        Some([b, ..]) => !is_word_byte(*b),
        Some([]) => true,
        None => false,
    }
}

/// The word that the text begins with, if it begins a block.
pub fn opener_at(text: &[u8]) -> Option<Opener>
    ensures { result ≡ opener_of (word_at text.now) }
{
    if begins_with_word(text, b"def") {
        Some(Opener::Def)
    } else if begins_with_word(text, b"for") {
        Some(Opener::For)
    } else if begins_with_word(text, b"if") {
        Some(Opener::If)
    } else {
        None
    }
}

fn phase_of(word: Option<Opener>, broken: bool) -> ChunkPhase
    ensures { result ≡ phase_of word broken }
{
    match word {
        Some(word) if !broken => ChunkPhase::InBlock(word),
        _ => ChunkPhase::Done,
    }
}

/// What the chunk is after one logical line more: its kind, the word of a block that it begins with, and whether its
/// newline broke off a string.
pub fn phase_step(
    phase: ChunkPhase,
    kind: LineKind,
    word: Option<Opener>,
    broken: bool,
) -> ChunkPhase
    ensures { result ≡ phase_step phase kind word broken }
{
    match phase {
        ChunkPhase::Comments => match kind {
            LineKind::CommentLine => ChunkPhase::Comments,
            LineKind::Blank => ChunkPhase::Done,
            LineKind::Statement => phase_of(word, broken),
        },
        ChunkPhase::InBlock(_) if !broken => phase,
        ChunkPhase::InBlock(_) | ChunkPhase::Done => ChunkPhase::Done,
    }
}

// Whether the first word begins a branch of an `if`.
fn is_branch(text: &[u8]) -> bool
    ensures { result ≡ has_branch Opener.If text.now }
{
    begins_with_word(text, b"elif") || begins_with_word(text, b"else")
}

// Whether such a word begins so.
fn is_branch_front(ahead: &[u8]) -> bool
    ensures { result ≡ is_branch_front ahead.now }
{
    b"elif".starts_with(ahead) || b"else".starts_with(ahead)
}

// Whether a branch of an `if` follows.
fn branch_ahead(ahead: &[u8], at_end: bool) -> Next
    ensures { DecidesAhead (has_branch Opener.If) result at_end ahead.now }
{
    if at_end || ahead.len() > 4 {
        if is_branch(ahead) {
            Next::Goes
        } else {
            Next::Ends
        }
    } else if is_branch_front(ahead) {
        Next::Short
    } else {
        Next::Ends
    }
}

/// Whether the block goes on with what is ahead; `at_end`: nothing comes after it.
pub fn block_goes_on(word: Opener, ahead: &[u8], at_end: bool) -> Next
    ensures { DecidesAhead (goes_on word) result at_end ahead.now }
{
    match ahead {
        [] if at_end => Next::Ends,
        [] => Next::Short,
        [b, ..] if is_white(*b) => Next::Goes,
        _ => match word {
            Opener::Def | Opener::For => Next::Ends,
            Opener::If => branch_ahead(ahead, at_end),
        },
    }
}
