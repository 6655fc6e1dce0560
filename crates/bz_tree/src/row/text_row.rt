//! The row of a text, whose tokens are read and dropped a batch at a time.

ghost use Rattle.std.specs.Prelude.{◌≡◌, ◌+◌, ◌≤◌, ◌<◌, length, ◌^◌, ◌==◌, count_by, IfOk, IfSome, List, None, map, option_map, false, IfNone};
ghost use Rattle.std.specs.Option.{option_or};
ghost use Rattle.bz_token.specs.Places.{Placed, placed};
ghost use Rattle.bz_token.specs.Reading.{AreTokensOf};
ghost use Rattle.bz_tree.specs.Tree.{Statement};
ghost use Rattle.bz_tree.specs.Chunk.{IsStatementIn};
ghost use Rattle.bz_tree.specs.Statement.{first_seen, last_seen};
ghost use Rattle.bz_tree.specs.RowReads.{has_row};
ghost use Rattle.bz_tree.specs.Rows.{IsRowOf};

use crate::row::Row;
use crate::row::rows::{RowWalk, is_upright};
use crate::tree::span::{end_line, first_seen, first_token, last_seen, last_token};
use bumpalo::Bump;
use bz_memory::NoMemory;
use bz_token::{Token, TokenReader};
use std::cmp::max;

// The commas and lines of so many bytes tell how many parts a long text has.
const FRONT: usize = 4096;

// Room beside them for the first commands.
const ROOM: usize = 64;

// Room for the parts of a text: most often two go with a comma, an element and the end of its segment, one with a comment
// line, and a few with what stands around. A long list that grows in an arena leaves much room unused there.
fn first_room(text: &str) -> usize
    ensures { result ≤ length text.now + 64 }
{
    if text.len() < FRONT {
        return text.len() / 4 + 8;
    }
    let commas = text.bytes().take(FRONT).filter(|b| *b == b',').count();
    let lines = text.bytes().take(FRONT).filter(|b| *b == b'\n').count();
    let fronts = text.len() / FRONT + 1;
    max(commas.saturating_mul(2), lines)
        .saturating_add(64)
        .saturating_mul(fronts)
        .min(text.len().saturating_add(ROOM))
}

// The first token but newlines, with these tokens more. Where another than a comment was seen it is not asked for.
#[inline(always)]
fn with_first_seen<'a>(
    top: Option<Token<'a>>,
    first: Option<Token<'a>>,
    tokens: &[Token<'a>],
) -> Option<Token<'a>>
    ensures { first.entry ≡ None → option_map placed result
        ≡ option_or (option_map placed top.entry) (first_seen (map placed tokens.now)) }
{
    if first.is_some() || top.is_some() {
        return top;
    }
    first_seen(tokens)
}

// The last, in the same way.
#[inline(always)]
fn with_last_seen<'a>(
    bottom: Option<Token<'a>>,
    first: Option<Token<'a>>,
    tokens: &[Token<'a>],
) -> Option<Token<'a>>
    ensures { first.entry ≡ None → option_map placed result
        ≡ option_or (last_seen (map placed tokens.now)) (option_map placed bottom.entry) }
{
    if first.is_some() {
        return bottom;
    }
    last_seen(tokens).or(bottom)
}

/// Reads the row that `read_row` gives for the tokens of a chunk, whose list is never there: it would take more memory
/// than the row. The chunk's first line has this number, and at most so many brackets may be open at once. None: the
/// chunk has a fault, or `read_row` has no row of it. `Err`: memory was refused.
pub(crate) fn row_of_text<'a>(
    bump: &'a Bump,
    text: &'a str,
    first_line: u64,
    max_depth: u8,
) -> Result<Option<Row<'a>>, NoMemory>
    requires { first_line + count_by (λ b. b == 10) text.now < 2 ^ 64 }
    ensures row { IfOk result (λ o. IfSome o
        (λ row. (s : Statement) × IsStatementIn first_line max_depth text.now s × IsRowOf s row)) }
    ensures none { IfOk result (λ o. IfNone o ((tokens : List Placed)
        → AreTokensOf first_line max_depth text.now tokens → has_row tokens ≡ false)) }
{
    let mut reader = TokenReader::new(bump, text, first_line, max_depth)?;
    let mut walk = RowWalk::new(bump, first_room(text), text.as_bytes())?;
    let mut first = None;
    let mut last = None;
    // The first and the last comment, as long as there is no other token.
    let mut top = None;
    let mut bottom = None;
    while !reader.is_at_end() {
        if !reader.read()? {
            return Ok(None);
        }
        let tokens = reader.tokens();
        first = first.or(first_token(tokens));
        last = last_token(tokens).or(last);
        top = with_first_seen(top, first, tokens);
        bottom = with_last_seen(bottom, first, tokens);
        if !is_upright(first) || !walk.add_tokens(tokens)? {
            return Ok(None);
        }
    }
    match (first.or(top), last.or(bottom)) {
        (Some(begin), Some(end)) if reader.is_complete() => {
            Ok(walk.finish(begin.line, end_line(&end)))
        }
        _ => Ok(None),
    }
}
