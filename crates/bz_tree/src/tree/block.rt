//! Blocks: statements that begin with `def`, `for` or `if`, kept as they were written.

ghost use Rattle.std.specs.Prelude.{◌≡◌, ◌<◌, IfOk, map, reverse};
ghost use Rattle.std.specs.Bool.{then_some};
ghost use Rattle.bz_token.specs.Places.{placed};
ghost use Rattle.bz_tree.specs.View.{texts};
ghost use Rattle.bz_tree.specs.Borrowed.{owned_in};
ghost use Rattle.bz_tree.specs.Kinds.{mark_of};
ghost use Rattle.bz_tree.specs.Blocks.{is_block_word, is_colon, indented, block_indent, has_header_colon, is_block, above};
ghost use Rattle.bz_tree.specs.Statement.{last_token};

use crate::tree::kinds::{Mark, mark_of};
use crate::tree::span::last_token;
use bz_memory::{NoMemory, push};
use bz_token::{Kind, Token};
use std::alloc::Global;
use std::borrow::CowStr;

/// Whether the token begins a block.
pub(crate) fn is_block_word(token: &Token<'_>) -> bool
    ensures { result ≡ is_block_word (placed token.now) }
{
    token.kind == Kind::Keyword && matches!(token.text, "def" | "for" | "if")
}

fn is_colon(token: &Token<'_>) -> bool
    ensures { result ≡ is_colon (placed token.now) }
{
    token.kind == Kind::Operator && token.text == ":"
}

// The columns are those of the lines that are still open. False: a line in this column is indented wrongly.
fn indented(opens: bool, column: u64, columns: &mut Vec<u64>) -> Result<bool, NoMemory>
    ensures { IfOk result (λ some. then_some some (reverse columns.new.items)
        ≡ indented opens column (reverse columns.old.items)) }
{
    if opens {
        if let Some(last) = columns.last() {
            if *last >= column {
                return Ok(false);
            }
        }
        push(columns, column)?;
        return Ok(true);
    }
    while let Some(last) = columns.pop() {
        if last == column {
            columns.push_reserved(last);
            return Ok(true);
        }
    }
    Ok(false)
}

/// The line of the first logical line of a block that is indented wrongly.
#[tactic(auto, using(crate::proofs::Trees::BlockLines::indent_found))]
pub(crate) fn block_indent(alloc: Global, tokens: &[Token<'_>]) -> Result<Option<u64>, NoMemory>
    ensures { IfOk result (λ o. o ≡ block_indent (map placed tokens.now)) }
{
    let mut columns = Vec::new(alloc);
    push(&mut columns, 1)?;
    // The last token is `:`.
    let mut opens = false;
    // A line has begun.
    let mut inside = false;
    for token in tokens {
        match mark_of(token) {
            Mark::Newline => inside = false,
            Mark::Comment => {}
            _ => {
                if !inside && !indented(opens, token.col, &mut columns)? {
                    return Ok(Some(token.line));
                }
                opens = is_colon(token);
                inside = true;
            }
        }
    }
    Ok(None)
}

// Whether `:` stands outside brackets in the header line.
fn has_header_colon(tokens: &[Token<'_>]) -> bool
    ensures { result ≡ has_header_colon (map placed tokens.now) }
{
    let mut depth = 0;
    let mut inside = false;
    for token in tokens {
        match mark_of(token) {
            Mark::Newline if inside => return false,
            Mark::Newline | Mark::Comment => {}
            mark => {
                if depth == 0 && is_colon(token) {
                    return true;
                }
                depth = match mark {
                    Mark::Open(_) => depth + 1,
                    Mark::Close(_) => usize::saturating_sub(depth, 1),
                    _ => depth,
                };
                inside = true;
            }
        }
    }
    false
}

/// Whether the tokens are those of a block, whose last line does not end with `:`.
pub(crate) fn is_block(tokens: &[Token<'_>]) -> bool
    ensures { result ≡ is_block (map placed tokens.now) }
{
    match last_token(tokens) {
        Some(token) if is_colon(&token) => false,
        _ => has_header_colon(tokens),
    }
}

/// The comments above the first token.
pub(crate) fn comments_above<'a>(
    alloc: Global,
    tokens: &[Token<'a>],
) -> Result<Vec<CowStr<'a>>, NoMemory>
    ensures value { IfOk result (λ v. texts v.items ≡ above (map placed tokens.now)) }
    ensures borrowed { IfOk result (λ v. owned_in v.items ≡ 0) }
{
    let mut comments = Vec::new(alloc);
    for token in tokens {
        match mark_of(token) {
            Mark::Comment => push(&mut comments, CowStr::Borrowed(token.text))?,
            Mark::Newline => {}
            _ => return Ok(comments),
        }
    }
    Ok(comments)
}
