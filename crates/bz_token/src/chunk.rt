//! The chunk that a text begins with, and its tokens, in one walk.

ghost use Rattle.std.specs.Prelude.{◌≡◌, ◌+◌, ◌<◌, ◌^◌, ◌==◌, ℕ, count_by, map, IfOk, IfSome};
ghost use Rattle.std.specs.List.{list_all};
ghost use Rattle.bz_token.specs.Places.{placed};
ghost use Rattle.bz_token.specs.FirstChunk.{IsFirstChunk};
ghost use Rattle.bz_token.specs.private.LineEnds.{is_newline_token, is_comment_token, begins_block, line_end};

use crate::brackets::Brackets;
use crate::cutter::block::opener_at;
use crate::fault::LexFault;
use crate::lexer::{Cursor, Lexer};
use crate::token::{Kind, Token};
use bumpalo::Bump;
use bumpalo::collections::into_bump_slice;
use bz_memory::{NoMemory, with_capacity};

/// The chunk that a text begins with, and its tokens, a list in the caller's arena.
#[derive(Clone, Copy)]
pub struct FirstChunk<'a> {
    pub text: &'a str,
    pub tokens: &'a [Token<'a>],
    /// What follows the chunk.
    pub rest: &'a str,
}

// What a logical line says of its chunk.
#[derive(Clone, Copy)]
enum LineEnd {
    /// The next line joins it.
    Joins,
    /// It ends.
    Ends,
    /// The line may begin a block.
    Block,
}

// Whether nothing but newlines is here.
fn are_newlines(line: &[Token<'_>]) -> bool
    ensures { result ≡ list_all is_newline_token (map placed line.now) }
{
    line.iter().all(|token| token.kind == Kind::Newline)
}

// Whether nothing but comments and newlines is here.
fn are_comments(line: &[Token<'_>]) -> bool
    ensures { result ≡ list_all is_comment_token (map placed line.now) }
{
    line.iter().all(|token| matches!(token.kind, Kind::Newline | Kind::Comment))
}

// Whether the first token is the word of a block.
fn begins_block(line: &[Token<'_>]) -> bool
    ensures { result ≡ begins_block (map placed line.now) }
{
    match line {
        [first, ..] => opener_at(first.text.as_bytes()).is_some(),
        [] => false,
    }
}

// Comments alone join the next line; a blank line and a statement end the chunk, unless a block begins.
fn line_end(line: &[Token<'_>]) -> LineEnd
    ensures { result ≡ line_end (map placed line.now) }
{
    if are_newlines(line) {
        return LineEnd::Ends;
    }
    if are_comments(line) {
        return LineEnd::Joins;
    }
    if begins_block(line) {
        return LineEnd::Block;
    }
    LineEnd::Ends
}

// Room for the tokens of most chunks.
const FIRST_CAPACITY: usize = 128;

/// Finds the chunk that the text begins with, and its tokens, where the chunk ends there whatever follows the text.
/// `first_line` is the number of the text's first line, from 1. More than `max_depth` brackets open at once are a
/// lexical fault. None, which `Cutter` and `tokens` tell apart: the text ends before its chunk does, that has a lexical
/// fault, or it may be a block. `Err`: allocation failed.
pub fn first_chunk<'a>(
    bump: &'a Bump,
    text: &'a str,
    first_line: u64,
    max_depth: u8,
) -> Result<Option<FirstChunk<'a>>, NoMemory>
    requires { first_line + count_by (λ b. b == 10) text.now < 2 ^ 64 }
    ensures { IfOk result (λ found. IfSome found (IsFirstChunk first_line max_depth text.now)) }
{
    let mut lexer = Lexer {
        tokens: with_capacity(bump, FIRST_CAPACITY)?,
        brackets: Brackets::new(),
    };
    let mut cursor = Cursor::start(text, first_line);
    // The first token of the line that is being read.
    let mut line_start = 0;
    while !cursor.rest.is_empty() {
        let (next, ends) = match lexer.read_line(cursor, max_depth, usize::MAX) {
            Ok(passed) => passed,
            Err(LexFault::OutOfMemory(why)) => return Err(why),
            Err(_) => return Ok(None),
        };
        // The list of tokens is never full.
        if !ends {
            return Ok(None);
        }
        cursor = next;
        match line_end(lexer.tokens_from(line_start)) {
            LineEnd::Joins => line_start = lexer.tokens.len(),
            LineEnd::Ends => {
                return Ok(Some(FirstChunk {
                    text: text.split_at(text.len() - cursor.rest.len()).0,
                    tokens: into_bump_slice(lexer.tokens),
                    rest: cursor.rest,
                }));
            }
            LineEnd::Block => return Ok(None),
        }
    }
    Ok(None)
}
