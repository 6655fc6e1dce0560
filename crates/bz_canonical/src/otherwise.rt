//! Values that stand otherwise than they would be written, as they would be: each group in them on lines or in place, with
//! the indents of the layout. `otherwise_groups.rt` has the groups.

ghost use Rattle.std.specs.Prelude.{◌≡◌, ◌∷◌, ◌+◌, ◌<◌, ◌++◌, ℕ, List, IfOk, IfSome, OnOk, false};
ghost use Rattle.bz_token.specs.declared.token.Kind.TheVariants.{Identifier};
ghost use Rattle.bz_layout.specs.Pieces.{indent};
ghost use Rattle.bz_canonical.specs.private.Fronts.{IsTokenFront};
ghost use Rattle.bz_canonical.specs.private.Otherwise.{AreNodesWritten, IsPrimaryWritten, IsTermWritten, Writes};

use crate::Known;
use crate::front::{after, after_identifier, after_infix, after_number};
use crate::otherwise_groups::put_group;
use crate::value::{Value, after_word_or_string, either};
use bz_memory::{NoMemory, extend_from_slice, push};
use bz_tree::GroupKind;

/// The levels of the line that a value begins on.
#[derive(Clone, Copy)]
pub(crate) struct Levels {
    /// In the text.
    pub(crate) stands: u8,
    /// As it is written.
    pub(crate) out: u8,
    /// So many brackets may be open in it.
    pub(crate) depth: u8,
    /// So many groups in groups are gone over.
    pub(crate) left: u8,
}

/// Writes what stands before the rest of a text.
#[inline(always)]
pub(crate) fn put_to(text: &[u8], rest: &[u8], written: &mut Vec<u8>) -> Result<(), NoMemory>
    ensures { OnOk result ((front : List ℕ) → text.now ≡ front ++ rest.now
        → written.new.items ≡ written.old.items ++ front) }
{
    let (front, _) = text.split_at(text.len().saturating_sub(rest.len()));
    extend_from_slice(written, front)
}

/// Writes a newline and the indent of this level.
pub(crate) fn put_line(level: u8, written: &mut Vec<u8>) -> Result<(), NoMemory>
    ensures { OnOk result (written.new.items ≡ written.old.items ++ (10 ∷ indent level)) }
{
    push(written, b'\n')?;
    for _ in 0..level {
        extend_from_slice(written, b"    ".as_slice())?;
    }
    Ok(())
}

/// Writes the value here, and passes it.
#[cycle(otherwise)]
pub(crate) fn put_nodes<'t>(text: &'t [u8], at: Levels, written: &mut Vec<u8>) -> Known<Value<'t>>
    requires stands { at.stands + at.depth < 255 }
    requires out { at.out + at.depth < 255 }
    ensures { IfOk result (λ known. IfSome known (λ read. Writes written.old.items written.new.items
        (λ w. AreNodesWritten at.stands at.out at.depth text.now read.rest.now w read.holds))) }
{
    let Some(first) = put_term(text, at, written)? else {
        return Ok(None);
    };
    put_operands(first, at, written)
}

/// Writes the operators and operands that follow the first operand, which is written, and passes them.
#[cycle(otherwise)]
#[inline(always)]
fn put_operands<'t>(first: Value<'t>, at: Levels, written: &mut Vec<u8>) -> Known<Value<'t>>
    requires stands { at.stands + at.depth < 255 }
    requires out { at.out + at.depth < 255 }
    ensures { IfOk result (λ known. IfSome known (λ read. Writes written.old.items written.new.items
        (λ w. (all v : List ℕ) → IsTermWritten at.stands at.out at.depth all first.entry.rest.now v first.entry.holds
        → AreNodesWritten at.stands at.out at.depth all read.rest.now (v ++ w) read.holds))) }
{
    let mut rest = first.rest;
    let mut holds = first.holds;
    for _ in 0..first.rest.len() {
        let Some(operand) = after_infix(rest) else {
            return Ok(Some(Value { rest, holds }));
        };
        put_to(rest, operand, written)?;
        let Some(next) = put_term(operand, at, written)? else {
            return Ok(None);
        };
        rest = next.rest;
        holds = either(holds, next.holds);
    }
    Ok(None)
}

/// Writes the operand or call here, and passes it.
#[cycle(otherwise)]
fn put_term<'t>(text: &'t [u8], at: Levels, written: &mut Vec<u8>) -> Known<Value<'t>>
    requires stands { at.stands + at.depth < 255 }
    requires out { at.out + at.depth < 255 }
    ensures { IfOk result (λ known. IfSome known (λ read. Writes written.old.items written.new.items
        (λ w. IsTermWritten at.stands at.out at.depth text.now read.rest.now w read.holds))) }
{
    match text {
        [b'[', ..] => {
            let Some(Value { rest, holds }) = put_group(GroupKind::List, text, at, written)? else {
                return Ok(None);
            };
            Ok(Some(Value { rest, holds }))
        }
        [b'{', ..] => {
            let Some(Value { rest, holds }) = put_group(GroupKind::Dict, text, at, written)? else {
                return Ok(None);
            };
            Ok(Some(Value { rest, holds }))
        }
        [b'0'..=b'9', ..] => put_number(text, written),
        _ => put_name_or_call(text, at, written),
    }
}

/// Writes the number here, and passes it.
#[inline(always)]
fn put_number<'t>(text: &'t [u8], written: &mut Vec<u8>) -> Known<Value<'t>>
    ensures { IfOk result (λ known. IfSome known (λ read. Writes written.old.items written.new.items
        (λ w. (stands out depth : ℕ) → IsTermWritten stands out depth text.now read.rest.now w read.holds))) }
{
    let Some(rest) = after_number(text) else {
        return Ok(None);
    };
    put_to(text, rest, written)?;
    Ok(Some(Value { rest, holds: false }))
}

/// Writes the string or name here with its members and calls, and passes it.
#[cycle(otherwise)]
#[inline(always)]
fn put_name_or_call<'t>(text: &'t [u8], at: Levels, written: &mut Vec<u8>) -> Known<Value<'t>>
    requires stands { at.stands + at.depth < 255 }
    requires out { at.out + at.depth < 255 }
    ensures { IfOk result (λ known. IfSome known (λ read. Writes written.old.items written.new.items
        (λ w. IsTermWritten at.stands at.out at.depth text.now read.rest.now w read.holds))) }
{
    let Some(end) = after_word_or_string(text) else {
        return Ok(None);
    };
    put_to(text, end, written)?;
    let Some(Value { rest, holds }) = put_suffixes(end, at, written)? else {
        return Ok(None);
    };
    Ok(Some(Value { rest, holds }))
}

/// Writes the members and calls here, which follow a string or name, and passes them.
#[cycle(otherwise)]
fn put_suffixes<'t>(text: &'t [u8], at: Levels, written: &mut Vec<u8>) -> Known<Value<'t>>
    requires stands { at.stands + at.depth < 255 }
    requires out { at.out + at.depth < 255 }
    ensures { IfOk result (λ known. IfSome known (λ read. Writes written.old.items written.new.items
        (λ w. (all v : List ℕ) → IsPrimaryWritten at.stands at.out at.depth all text.now v false
        → IsPrimaryWritten at.stands at.out at.depth all read.rest.now (v ++ w) read.holds))) }
{
    let mut rest = text;
    let mut holds = false;
    for _ in 0..text.len() {
        if let [b'.', ..] = rest {
            let Some(end) = after_member(rest) else {
                return Ok(None);
            };
            put_to(rest, end, written)?;
            rest = end;
            continue;
        }
        let [b'(', ..] = rest else {
            return Ok(Some(Value { rest, holds }));
        };
        let Some(call) = put_group(GroupKind::Call, rest, at, written)? else {
            return Ok(None);
        };
        rest = call.rest;
        holds = either(holds, call.holds);
    }
    Ok(None)
}

/// What follows the dot here and the name after it.
#[inline(always)]
fn after_member(text: &[u8]) -> Option<&[u8]>
    ensures { IfSome result (λ rest. (member : List ℕ) × (text.now ≡ 46 ∷ member)
        × IsTokenFront Identifier member rest.now) }
{
    let member = after(text, b'.')?;
    after_identifier(member)
}
