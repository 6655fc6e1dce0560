//! Where a statement begins and ends.

ghost use Rattle.std.specs.Prelude.{◌≡◌, ◌+◌, ◌<◌, ◌≤◌, ◌^◌, ◌==◌, map, None, option_map, count_by, IfSome, IfNone};
ghost use Rattle.bz_token.specs.Places.{placed};
ghost use Rattle.bz_tree.specs.Kinds.{mark_of};
ghost use Rattle.bz_tree.specs.Brackets.{end_line, is_line};
ghost use Rattle.bz_tree.specs.Statement.{is_aside, first_token, first_seen, last_token, last_seen, start_of, end_of};

use crate::tree::kinds::{Mark, mark_of};
use bz_token::{Kind, Token};

#[inline(always)]
fn is_aside(kind: Kind) -> bool
    ensures { result ≡ is_aside kind }
{
    matches!(kind, Kind::Comment | Kind::Newline)
}

#[inline(always)]
fn is_line(token: &Token<'_>) -> bool
    ensures { result ≡ is_line (mark_of (placed token.now)) }
{
    matches!(mark_of(token), Mark::Newline)
}

/// The first token that is no comment and no newline.
pub(crate) fn first_token<'a>(tokens: &[Token<'a>]) -> Option<Token<'a>>
    ensures { option_map placed result ≡ first_token (map placed tokens.now) }
{
    for token in tokens {
        if !is_aside(token.kind) {
            return Some(*token);
        }
    }
    None
}

/// The first token that is no newline.
pub(crate) fn first_seen<'a>(tokens: &[Token<'a>]) -> Option<Token<'a>>
    ensures { option_map placed result ≡ first_seen (map placed tokens.now) }
{
    for token in tokens {
        if !is_line(token) {
            return Some(*token);
        }
    }
    None
}

/// The last token that is no comment and no newline.
pub(crate) fn last_token<'a>(tokens: &[Token<'a>]) -> Option<Token<'a>>
    ensures { option_map placed result ≡ last_token (map placed tokens.now) }
{
    tokens
        .iter()
        .rev()
        .find(|token| !is_aside(token.kind))
        .copied()
}

/// The last token that is no newline.
pub(crate) fn last_seen<'a>(tokens: &[Token<'a>]) -> Option<Token<'a>>
    ensures { option_map placed result ≡ last_seen (map placed tokens.now) }
{
    tokens.iter().rev().find(|token| !is_line(token)).copied()
}

/// The line of the first token, comments not counted where something else is there.
pub(crate) fn start_of(tokens: &[Token<'_>]) -> u64
    ensures { result ≡ start_of (map placed tokens.now) }
{
    match first_token(tokens).or(first_seen(tokens)) {
        Some(token) => token.line,
        None => 0,
    }
}

/// The number of newlines in a text.
#[inline(always)]
pub(crate) fn newlines(text: &str) -> u64
    ensures { result ≡ count_by (λ b. b == 10) text.now }
{
    text.as_bytes().iter().filter(|b| **b == b'\n').count() as u64
}

/// The line on which a token ends.
pub(crate) fn end_line(token: &Token<'_>) -> u64
    requires { end_line (placed token.now) < 2 ^ 64 }
    ensures { result ≡ end_line (placed token.now) }
{
    token.line + newlines(token.text)
}

/// The line on which the last token ends, comments not counted where something else is there. None: it cannot be
/// counted.
pub(crate) fn counted_end_of(tokens: &[Token<'_>]) -> Option<u64>
    ensures end { IfSome result (λ end. end ≡ end_of (map placed tokens.now)) }
    ensures none { IfNone result (2 ^ 64 ≤ end_of (map placed tokens.now)) }
{
    match last_token(tokens).or(last_seen(tokens)) {
        Some(token) => token.line.checked_add(newlines(token.text)),
        None => Some(0),
    }
}
