//! Segments of groups that stand otherwise than they would be written, as they would be, with what stands before them and
//! after them.

ghost use Rattle.std.specs.Prelude.{◌≡◌, ◌+◌, ◌<◌, ◌++◌, not, ℕ, List, IfOk, IfSome, IsTrue, false};
ghost use Rattle.bz_tree.specs.declared.tree.GroupKind.TheVariants.{Call, Dict};
ghost use Rattle.bz_layout.specs.Pieces.{bytes_of, comments};
ghost use Rattle.bz_canonical.specs.private.Elements.{separator};
ghost use Rattle.bz_canonical.specs.private.Otherwise.{IsSegmentBegun, IsSegmentEnded, IsSegmentPassed, IsSegmentWritten, Writes, back_written, form_of, front_written, note_ended, notes_begun};
ghost use Rattle.bz_canonical.specs.private.Segments.{AreNotesFront};

use crate::Known;
use crate::comments::{AfterComments, after_comments};
use crate::front::{Word, after_line, after_word};
use crate::lists::after_comma;
use crate::otherwise::{Levels, put_line, put_nodes, put_to};
use crate::otherwise_groups::GroupForm;
use crate::segments::after_keyword;
use crate::value::{Value, after_leaf, either};
use bz_memory::{NoMemory, extend_from_slice, push};
use bz_tree::GroupKind;

/// What stands before a segment.
#[derive(Clone, Copy)]
pub(crate) struct SegmentFront<'t> {
    from: &'t [u8],
    /// What follows the comments above it.
    pub(crate) above: AfterComments<'t>,
    /// Other segments stand before it.
    one: bool,
    /// The text that begins with it.
    pub(crate) inner: &'t [u8],
}

/// What stands before the segment here, on lines or in place. `None`: there is no other.
#[inline(always)]
pub(crate) fn segment_front(
    text: &[u8],
    lines: bool,
    one: bool,
    level: u8,
) -> Option<SegmentFront<'_>>
    ensures { IfSome result (λ front. (front.from.now ≡ text.now) × (front.one ≡ one)
        × IsSegmentBegun lines level front) }
{
    if !lines {
        let inner = after_others(text, one)?;
        return Some(SegmentFront {
            from: text,
            above: AfterComments {
                rest: text,
                some: false,
            },
            one,
            inner,
        });
    }
    let above = after_comments(text, level);
    let inner = after_line(above.rest, level)?;
    Some(SegmentFront {
        from: text,
        above,
        one,
        inner,
    })
}

/// What follows the comma before a segment in place, where there are others. `None`: the group ends here.
#[inline(always)]
fn after_others(text: &[u8], one: bool) -> Option<&[u8]>
    ensures { IfSome result (λ rest. text.now ≡ separator one ++ rest.now) }
{
    if one {
        return after_word(text, Word::Comma);
    }
    match text {
        [b']' | b')' | b'}', ..] => None,
        _ => Some(text),
    }
}

/// What follows a segment: on lines its comma, and the comment beside it.
#[inline(always)]
pub(crate) fn segment_end(text: &[u8], lines: bool) -> Option<AfterComments<'_>>
    ensures { IfSome result (λ end. IsSegmentEnded lines text.now end.rest.now end.some) }
{
    if lines {
        return after_comma(text);
    }
    Some(AfterComments {
        rest: text,
        some: false,
    })
}

/// A segment that was passed.
#[derive(Clone, Copy)]
pub(crate) struct PassedSegment<'t> {
    pub(crate) rest: &'t [u8],
    /// It holds a group that is written on lines.
    pub(crate) holds: bool,
    /// A comment stands above it or beside it.
    pub(crate) noted: bool,
}

/// Writes a segment with what stands before it and after it, and passes it.
#[cycle(otherwise)]
#[inline(always)]
pub(crate) fn put_framed<'t>(
    form: GroupForm,
    front: SegmentFront<'t>,
    at: Levels,
    written: &mut Vec<u8>,
) -> Known<PassedSegment<'t>>
    requires begun { IsSegmentBegun form.lines at.stands front }
    requires stands { at.stands + at.depth < 255 }
    requires out { at.out + at.depth < 255 }
    ensures { IfOk result (λ known. IfSome known (λ next. (form.lines ≡ false → next.noted ≡ false)
        × Writes written.old.items written.new.items (IsSegmentPassed form.kind (form_of form.lines form.broken)
        (not front.entry.one) at.stands at.out at.depth front.entry.from.now next.rest.now next.holds next.noted))) }
{
    if !put_front(form, front, at, written)? {
        return Ok(None);
    }
    let Some(read) = put_segment(form.kind, front.inner, at, written)? else {
        return Ok(None);
    };
    let Some(end) = segment_end(read.rest, form.lines) else {
        return Ok(None);
    };
    if !put_back(form, read.rest, end, written)? {
        return Ok(None);
    }
    Ok(Some(PassedSegment {
        rest: end.rest,
        holds: read.holds,
        noted: either(front.above.some, end.some),
    }))
}

/// Writes what stands before a segment. False: it is a comment, which is written at another level.
#[inline(always)]
fn put_front(
    form: GroupForm,
    front: SegmentFront<'_>,
    at: Levels,
    written: &mut Vec<u8>,
) -> Result<bool, NoMemory>
    ensures { IfOk result (λ put. IsTrue put → (form.broken ≡ false → front.entry.above.some ≡ false)
        × ((begun : IsSegmentBegun form.lines at.stands front.entry) → written.new.items ≡ written.old.items
        ++ front_written form.broken front.entry.one at.out (notes_begun form.lines at.stands front.entry begun))) }
{
    if !form.broken {
        if front.one {
            extend_from_slice(written, b", ".as_slice())?;
        }
        return Ok(!front.above.some);
    }
    if !put_notes(front.from, front.above, at, written)? {
        return Ok(false);
    }
    put_line(at.out, written)?;
    Ok(true)
}

/// Writes the comments here. False: they are written at another level.
#[inline(always)]
pub(crate) fn put_notes(
    text: &[u8],
    above: AfterComments<'_>,
    at: Levels,
    written: &mut Vec<u8>,
) -> Result<bool, NoMemory>
    ensures { IfOk result (λ put. IsTrue put → (notes : AreNotesFront at.stands text.now above.entry.rest.now above.entry.some)
        → written.new.items ≡ written.old.items ++ bytes_of (comments at.out notes.notes)) }
{
    if !above.some {
        return Ok(true);
    }
    if at.stands != at.out {
        return Ok(false);
    }
    put_to(text, above.rest, written)?;
    Ok(true)
}

/// Writes what stands after a segment, which ends here. False: it is a comment that can't stand there.
#[inline(always)]
fn put_back(
    form: GroupForm,
    text: &[u8],
    end: AfterComments<'_>,
    written: &mut Vec<u8>,
) -> Result<bool, NoMemory>
    ensures { IfOk result (λ put. IsTrue put → (form.broken ≡ false → end.entry.some ≡ false)
        × ((ended : IsSegmentEnded form.lines text.now end.entry.rest.now end.entry.some) → written.new.items
        ≡ written.old.items ++ back_written form.broken
        (note_ended form.lines text.now end.entry.rest.now end.entry.some ended))) }
{
    if !form.broken {
        return Ok(!end.some);
    }
    if form.lines {
        put_to(text, end.rest, written)?;
        return Ok(true);
    }
    push(written, b',')?;
    Ok(true)
}

/// Writes the segment here, of a group of this kind, and passes it.
#[cycle(otherwise)]
#[inline(always)]
fn put_segment<'t>(
    kind: GroupKind,
    text: &'t [u8],
    at: Levels,
    written: &mut Vec<u8>,
) -> Known<Value<'t>>
    requires stands { at.stands + at.depth < 255 }
    requires out { at.out + at.depth < 255 }
    ensures { IfOk result (λ known. IfSome known (λ read. Writes written.old.items written.new.items
        (λ w. IsSegmentWritten kind at.stands at.out at.depth text.now read.rest.now w read.holds))) }
{
    match kind {
        GroupKind::List => {
            let Some(Value { rest, holds }) = put_nodes(text, at, written)? else {
                return Ok(None);
            };
            Ok(Some(Value { rest, holds }))
        }
        GroupKind::Dict => {
            let Some(Value { rest, holds }) = put_entry(text, at, written)? else {
                return Ok(None);
            };
            Ok(Some(Value { rest, holds }))
        }
        GroupKind::Call => {
            let Some(Value { rest, holds }) = put_argument(text, at, written)? else {
                return Ok(None);
            };
            Ok(Some(Value { rest, holds }))
        }
        _ => Ok(None),
    }
}

/// Writes the entry of a dict here, and passes it.
#[cycle(otherwise)]
#[inline(always)]
fn put_entry<'t>(text: &'t [u8], at: Levels, written: &mut Vec<u8>) -> Known<Value<'t>>
    requires stands { at.stands + at.depth < 255 }
    requires out { at.out + at.depth < 255 }
    ensures { IfOk result (λ known. IfSome known (λ read. Writes written.old.items written.new.items
        (λ w. IsSegmentWritten Dict at.stands at.out at.depth text.now read.rest.now w read.holds))) }
{
    let Some(colon) = after_leaf(text) else {
        return Ok(None);
    };
    let Some(value) = after_word(colon, Word::Colon) else {
        return Ok(None);
    };
    put_to(text, value, written)?;
    let Some(Value { rest, holds }) = put_nodes(value, at, written)? else {
        return Ok(None);
    };
    Ok(Some(Value { rest, holds }))
}

/// Writes the argument of a call here, and passes it.
#[cycle(otherwise)]
#[inline(always)]
fn put_argument<'t>(text: &'t [u8], at: Levels, written: &mut Vec<u8>) -> Known<Value<'t>>
    requires stands { at.stands + at.depth < 255 }
    requires out { at.out + at.depth < 255 }
    ensures { IfOk result (λ known. IfSome known (λ read. Writes written.old.items written.new.items
        (λ w. IsSegmentWritten Call at.stands at.out at.depth text.now read.rest.now w read.holds))) }
{
    let Some(value) = after_keyword(text) else {
        let Some(Value { rest, holds }) = put_nodes(text, at, written)? else {
            return Ok(None);
        };
        return Ok(Some(Value { rest, holds }));
    };
    put_to(text, value, written)?;
    let Some(Value { rest, holds }) = put_nodes(value, at, written)? else {
        return Ok(None);
    };
    Ok(Some(Value { rest, holds }))
}
