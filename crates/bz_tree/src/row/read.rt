//! The row of a chunk's statement: that of `read_row`, or else the parts of its tree.

ghost use Rattle.std.specs.Prelude.{ℕ, ◌≡◌, ◌+◌, ◌<◌, ◌^◌, ◌==◌, IfOk, IfErr, IfSome, IfNone, count_by, map};
ghost use Rattle.bz_token.specs.Places.{placed};
ghost use Rattle.bz_token.specs.Reading.{AreTokensOf};
ghost use Rattle.bz_tree.specs.Tree.{Statement};
ghost use Rattle.bz_tree.specs.View.{view};
ghost use Rattle.bz_tree.specs.Chunk.{IsStatementIn, IsBlank, IsFaultIn};
ghost use Rattle.bz_tree.specs.RowReads.{IsReadByTokens};
ghost use Rattle.bz_tree.specs.Rows.{IsRowOf};

use crate::fault::ParseFault;
use crate::row::Row;
use crate::row::rows::read_row;
use crate::row::text_row::row_of_text;
use crate::row::tree_parts::push_parts;
use crate::tree::Stmt;
use crate::tree::chunk::{parse, parse_tokens};
use bumpalo::Bump;
use bz_memory::NoMemory;
use bz_token::Token;
use std::alloc::Global;

// The row of a statement that has a tree.
fn row_of_tree<'a>(bump: &'a Bump, stmt: Stmt<'a>) -> Result<Row<'a>, NoMemory>
    ensures { IfOk result (IsRowOf (view stmt.entry)) }
{
    let mut parts = Vec::new(bump);
    push_parts(bump, &stmt, &mut parts)?;
    Ok(Row {
        parts,
        class: stmt.class,
        start: stmt.start,
        end: stmt.end,
    })
}

// Such a statement is most often a comprehension, of which `read_row` has no row.
#[inline(always)]
fn begins_with_list(tokens: &[Token<'_>]) -> bool {
    match tokens {
        [first, ..] => matches!(first.text.as_bytes(), [b'[']),
        _ => false,
    }
}

/// Reads the row of the statement of a chunk from the chunk's tokens. The chunk's first line has this number. None: the
/// chunk is blank. The rules are those of `parse`.
pub fn read_statement<'a>(
    alloc: Global,
    bump: &'a Bump,
    text: &'a str,
    first_line: u64,
    tokens: &[Token<'a>],
) -> Result<Option<Row<'a>>, ParseFault>
    requires lines { first_line + count_by (λ b. b == 10) text.now < 2 ^ 64 }
    requires tokens { (depth : ℕ) × AreTokensOf first_line depth text.now (map placed tokens.now) }
    ensures { IsReadByTokens first_line text.now (map placed tokens.now) result }
{
    if !begins_with_list(tokens)
        && let Some(row) = read_row(bump, tokens)?
    {
        return Ok(Some(row));
    }
    read_tree(alloc, bump, text, first_line, tokens)
}

// The row by the tree. It is a call, since each call of a function clears the room of all that stands in it.
#[inline(never)]
fn read_tree<'a>(
    alloc: Global,
    bump: &'a Bump,
    text: &'a str,
    first_line: u64,
    tokens: &[Token<'a>],
) -> Result<Option<Row<'a>>, ParseFault>
    requires lines { first_line + count_by (λ b. b == 10) text.now < 2 ^ 64 }
    requires tokens { (depth : ℕ) × AreTokensOf first_line depth text.now (map placed tokens.now) }
    ensures { IsReadByTokens first_line text.now (map placed tokens.now) result }
{
    match parse_tokens(alloc, text, first_line, tokens)? {
        None => Ok(None),
        Some(stmt) => Ok(Some(row_of_tree(bump, stmt)?)),
    }
}

/// Reads the row of the statement of a chunk from its text. The chunk's first line has this number, and at most so many
/// brackets may be open at once. None: the chunk is blank. The rules are those of `parse`. The list of a long chunk's
/// tokens takes more memory than its row, so it is made only where `row_of_text` has no row.
pub fn read_text<'a>(
    alloc: Global,
    bump: &'a Bump,
    text: &'a str,
    first_line: u64,
    max_depth: u8,
) -> Result<Option<Row<'a>>, ParseFault>
    requires { first_line + count_by (λ b. b == 10) text.now < 2 ^ 64 }
    ensures statement { IfOk result (λ o. IfSome o (λ row.
        (s : Statement) × IsStatementIn first_line max_depth text.now s × IsRowOf s row)) }
    ensures blank { IfOk result (λ o. IfNone o (IsBlank first_line max_depth text.now)) }
    ensures fault { IfErr result (IsFaultIn first_line max_depth text.now) }
{
    if let Some(row) = row_of_text(bump, text, first_line, max_depth)? {
        return Ok(Some(row));
    }
    match parse(alloc, text, first_line, max_depth)? {
        None => Ok(None),
        Some(stmt) => Ok(Some(row_of_tree(bump, stmt)?)),
    }
}
