//! Groups that stand otherwise than they would be written, as they would be.

ghost use Rattle.std.specs.Prelude.{◌≡◌, ◌∷◌, [], ◌+◌, ◌-◌, ◌<◌, ◌++◌, ◌||◌, ◌&&◌, nat_le, ℕ, List, IfOk, IfSome, true, false};
ghost use Rattle.bz_layout.specs.Broken.{breaks_by_count};
ghost use Rattle.bz_layout.specs.Layout.{has_commas};
ghost use Rattle.bz_layout.specs.Walked.{closing, opening};
ghost use Rattle.bz_canonical.specs.private.Otherwise.{AreSegmentsWritten, IsGroupEnded, IsGroupWritten, Writes, deeper, form_of};

use crate::Known;
use crate::comments::{AfterComments, after_comments};
use crate::front::{after, after_line};
use crate::group::{brackets, breaks};
use crate::guess::is_broken_by_guess;
use crate::lists::is_on_lines;
use crate::otherwise::{Levels, put_line};
use crate::otherwise_segments::{put_framed, put_notes, segment_front};
use crate::value::{Value, either};
use bz_memory::push;
use bz_tree::GroupKind;

/// How the segments of a group stand in the text, and how they are written.
#[derive(Clone, Copy)]
pub(crate) struct GroupForm {
    pub(crate) kind: GroupKind,
    /// They stand on lines in the text, or in place.
    pub(crate) lines: bool,
    /// They are written on lines, or in place.
    pub(crate) broken: bool,
}

/// Writes the group of this kind here, and passes it. Whether it is written on lines depends on all that is in it: that is
/// guessed first. `None` too: the guess was wrong.
#[cycle(otherwise)]
pub(crate) fn put_group<'t>(
    kind: GroupKind,
    text: &'t [u8],
    at: Levels,
    written: &mut Vec<u8>,
) -> Known<Value<'t>>
    requires commas { (n : ℕ) → has_commas kind false n ≡ true }
    requires stands { at.stands + at.depth < 255 }
    requires out { at.out + at.depth < 255 }
    ensures { IfOk result (λ known. IfSome known (λ read. Writes written.old.items written.new.items
        (λ w. IsGroupWritten kind at.stands at.out at.depth text.now read.rest.now w read.holds))) }
{
    if at.depth == 0 || at.left == 0 {
        return Ok(None);
    }
    let Some(inside) = after(text, brackets(kind).0) else {
        return Ok(None);
    };
    let form = GroupForm {
        kind,
        lines: is_on_lines(inside),
        broken: is_broken_by_guess(kind, text, at),
    };
    push(written, brackets(kind).0)?;
    let Some(read) = put_segments(form, inside, levels_inside(form, at), written)? else {
        return Ok(None);
    };
    let Some(Value { rest, holds }) = put_end(form, read, at, written)? else {
        return Ok(None);
    };
    Ok(Some(Value { rest, holds }))
}

/// The level of what stands in a group, on lines or in place.
#[inline(always)]
pub(crate) fn level_inside(lines: bool, level: u8) -> u8
    requires { level < 255 }
    ensures { result ≡ deeper lines level }
{
    if lines {
        return level + 1;
    }
    level
}

/// The levels of what stands in a group.
#[inline(always)]
fn levels_inside(form: GroupForm, at: Levels) -> Levels
    requires deep { 0 < at.depth }
    requires stands { at.stands < 255 }
    requires out { at.out < 255 }
    ensures stands { result.stands ≡ deeper form.lines at.stands }
    ensures out { result.out ≡ deeper form.broken at.out }
    ensures depth { result.depth + 1 ≡ at.depth }
{
    Levels {
        stands: level_inside(form.lines, at.stands),
        out: level_inside(form.broken, at.out),
        depth: at.depth - 1,
        left: at.left.saturating_sub(1),
    }
}

/// Segments that were passed.
#[derive(Clone, Copy)]
pub(crate) struct Segments<'t> {
    /// What follows them: comments, and the bracket.
    pub(crate) rest: &'t [u8],
    /// They are so many.
    pub(crate) count: usize,
    /// One of them holds a group that is written on lines.
    pub(crate) holds: bool,
    /// A comment stands above one or beside one.
    pub(crate) noted: bool,
}

/// Writes the segments here, which follow the bracket of a group, and passes them.
#[cycle(otherwise)]
#[inline(always)]
fn put_segments<'t>(
    form: GroupForm,
    inside: &'t [u8],
    at: Levels,
    written: &mut Vec<u8>,
) -> Known<Segments<'t>>
    requires stands { at.stands + at.depth < 255 }
    requires out { at.out + at.depth < 255 }
    ensures { IfOk result (λ known. IfSome known (λ read. (form.lines ≡ false → read.noted ≡ false)
        × Writes written.old.items written.new.items (λ w. AreSegmentsWritten form.kind (form_of form.lines form.broken)
        true at.stands at.out at.depth inside.now read.rest.now w read.count read.holds read.noted))) }
{
    let mut rest = inside;
    let mut one = false;
    let mut holds = false;
    let mut noted = false;
    for count in 0..inside.len() {
        let Some(front) = segment_front(rest, form.lines, one, at.stands) else {
            return Ok(Some(Segments {
                rest,
                count,
                holds,
                noted,
            }));
        };
        let Some(next) = put_framed(form, front, at, written)? else {
            return Ok(None);
        };
        rest = next.rest;
        one = true;
        holds = either(holds, next.holds);
        noted = either(noted, next.noted);
    }
    Ok(None)
}

/// The end of a group.
#[derive(Clone, Copy)]
pub(crate) struct GroupEnd<'t> {
    /// What follows the comments at its end.
    above: AfterComments<'t>,
    /// What follows its bracket.
    pub(crate) rest: &'t [u8],
}

/// The end of a group of this kind, whose segments stand on lines or in place.
#[inline(always)]
pub(crate) fn group_end(
    kind: GroupKind,
    text: &[u8],
    lines: bool,
    level: u8,
) -> Option<GroupEnd<'_>>
    requires { level < 255 }
    ensures { IfSome result (λ end. (z : ℕ) → closing kind ≡ z ∷ [] → IsGroupEnded lines z level text.now end) }
{
    if !lines {
        let rest = after(text, brackets(kind).1)?;
        return Some(GroupEnd {
            above: AfterComments {
                rest: text,
                some: false,
            },
            rest,
        });
    }
    let above = after_comments(text, level + 1);
    let line = after_line(above.rest, level)?;
    let rest = after(line, brackets(kind).1)?;
    Some(GroupEnd { above, rest })
}

/// Whether a group of these segments is written on lines.
#[inline(always)]
pub(crate) fn is_broken(kind: GroupKind, segments: Segments<'_>, end: GroupEnd<'_>) -> bool
    ensures { result ≡ (end.entry.above.some || (segments.entry.noted
        || (breaks_by_count kind segments.entry.count || (nat_le 2 segments.entry.count && segments.entry.holds)))) }
{
    let many = breaks(
        kind,
        segments.count >= 1,
        segments.count >= 2,
        segments.holds,
    );
    let noted = either(segments.noted, many);
    either(end.above.some, noted)
}

/// Writes the end of a group, and passes it. `None` too: it is written in another form than its segments were.
fn put_end<'t>(
    form: GroupForm,
    segments: Segments<'t>,
    at: Levels,
    written: &mut Vec<u8>,
) -> Known<Value<'t>>
    requires commas { (n : ℕ) → has_commas form.kind false n ≡ true }
    requires deep { 0 < at.depth }
    requires stands { at.stands < 255 }
    requires out { at.out < 255 }
    requires bare { form.lines ≡ false → segments.noted ≡ false }
    ensures { IfOk result (λ known. IfSome known (λ read. Writes written.old.items written.new.items
        (λ v. (inside w : List ℕ) → AreSegmentsWritten form.kind (form_of form.lines form.broken) true
        (deeper form.lines at.stands) (deeper form.broken at.out) (at.depth - 1) inside segments.entry.rest.now w
        segments.entry.count segments.entry.holds segments.entry.noted
        → IsGroupWritten form.kind at.stands at.out at.depth (opening form.kind ++ inside) read.rest.now
        (opening form.kind ++ (w ++ v)) read.holds))) }
{
    let Some(end) = group_end(form.kind, segments.rest, form.lines, at.stands) else {
        return Ok(None);
    };
    if is_broken(form.kind, segments, end) != form.broken {
        return Ok(None);
    }
    if form.broken {
        if !put_notes(segments.rest, end.above, levels_inside(form, at), written)? {
            return Ok(None);
        }
        put_line(at.out, written)?;
    }
    push(written, brackets(form.kind).1)?;
    Ok(Some(Value {
        rest: end.rest,
        holds: either(form.broken, segments.holds),
    }))
}
