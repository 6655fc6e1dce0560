//! Whether a group would be written on lines, before it is written: a guess, which `otherwise_groups.rt` compares with what it
//! has written.

ghost use Rattle.std.specs.Prelude.{◌+◌, ◌<◌};

use crate::front::{Word, after, after_identifier, after_infix, after_word};
use crate::group::brackets;
use crate::lists::is_on_lines;
use crate::otherwise::Levels;
use crate::otherwise_groups::{Segments, group_end, is_broken, level_inside};
use crate::otherwise_segments::{segment_end, segment_front};
use crate::segments::after_keyword;
use crate::value::{Value, after_leaf, either};
use bz_tree::GroupKind;

/// What is guessed of a group.
#[derive(Clone, Copy)]
struct Guess<'t> {
    rest: &'t [u8],
    /// It is written on lines.
    broken: bool,
    /// It is, or a group in it.
    holds: bool,
}

/// Whether the group here would be written on lines.
#[inline(always)]
pub(crate) fn is_broken_by_guess(kind: GroupKind, text: &[u8], at: Levels) -> bool
    requires { at.stands + at.depth < 255 }
{
    match kind {
        GroupKind::Dict => !matches!(text, [b'{', b'}', ..]),
        _ => guess_group(kind, text, at.stands, at.depth).is_some_and(|guess| guess.broken),
    }
}

#[cycle(guesses)]
fn guess_group(kind: GroupKind, text: &[u8], level: u8, depth: u8) -> Option<Guess<'_>>
    requires { level + depth < 255 }
{
    if depth == 0 {
        return None;
    }
    let inside = after(text, brackets(kind).0)?;
    let lines = is_on_lines(inside);
    let segments = guess_segments(kind, inside, level_inside(lines, level), depth - 1)?;
    let end = group_end(kind, segments.rest, lines, level)?;
    let broken = is_broken(kind, segments, end);
    Some(Guess {
        rest: end.rest,
        broken,
        holds: either(broken, segments.holds),
    })
}

#[cycle(guesses)]
fn guess_segments(kind: GroupKind, inside: &[u8], level: u8, depth: u8) -> Option<Segments<'_>>
    requires { level + depth < 255 }
{
    let lines = is_on_lines(inside);
    let mut rest = inside;
    let mut one = false;
    let mut holds = false;
    let mut noted = false;
    for count in 0..inside.len() {
        let Some(front) = segment_front(rest, lines, one, level) else {
            return Some(Segments {
                rest,
                count,
                holds,
                noted,
            });
        };
        let read = guess_segment(kind, front.inner, level, depth)?;
        let end = segment_end(read.rest, lines)?;
        rest = end.rest;
        one = true;
        holds = either(holds, read.holds);
        let about = either(front.above.some, end.some);
        noted = either(noted, about);
    }
    None
}

#[cycle(guesses)]
fn guess_segment(kind: GroupKind, text: &[u8], level: u8, depth: u8) -> Option<Value<'_>>
    requires { level + depth < 255 }
{
    let value = match kind {
        GroupKind::Dict => after_word(after_leaf(text)?, Word::Colon)?,
        GroupKind::Call => after_keyword(text).unwrap_or(text),
        _ => text,
    };
    guess_nodes(value, level, depth)
}

#[cycle(guesses)]
fn guess_nodes(text: &[u8], level: u8, depth: u8) -> Option<Value<'_>>
    requires { level + depth < 255 }
{
    let mut next = text;
    let mut holds = false;
    for _ in 0..text.len() {
        let read = guess_term(next, level, depth)?;
        holds = either(holds, read.holds);
        let Some(operand) = after_infix(read.rest) else {
            return Some(Value {
                rest: read.rest,
                holds,
            });
        };
        next = operand;
    }
    None
}

#[cycle(guesses)]
fn guess_term(text: &[u8], level: u8, depth: u8) -> Option<Value<'_>>
    requires { level + depth < 255 }
{
    match text {
        [b'[', ..] => guess_value(GroupKind::List, text, level, depth),
        [b'{', ..] => guess_value(GroupKind::Dict, text, level, depth),
        _ => guess_suffixes(after_leaf(text)?, level, depth),
    }
}

#[cycle(guesses)]
fn guess_value(kind: GroupKind, text: &[u8], level: u8, depth: u8) -> Option<Value<'_>>
    requires { level + depth < 255 }
{
    let guess = guess_group(kind, text, level, depth)?;
    Some(Value {
        rest: guess.rest,
        holds: guess.holds,
    })
}

#[cycle(guesses)]
fn guess_suffixes(text: &[u8], level: u8, depth: u8) -> Option<Value<'_>>
    requires { level + depth < 255 }
{
    let mut rest = text;
    let mut holds = false;
    for _ in 0..text.len() {
        match rest {
            [b'(', ..] => {
                let call = guess_group(GroupKind::Call, rest, level, depth)?;
                rest = call.rest;
                holds = either(holds, call.holds);
            }
            [b'.', member @ ..] => rest = after_identifier(member)?,
            _ => return Some(Value { rest, holds }),
        }
    }
    None
}
