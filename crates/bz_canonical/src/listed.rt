//! Arguments whose values are lists of strings, as parts, by their lines: most that commands look into are. `asked.rt`
//! reads all others, by their tokens.

ghost use Rattle.std.specs.Prelude.{◌≡◌, ◌∷◌, ◌++◌, [], ℕ, List, length, drop, map, true, IfOk, IfSome, IsTrue};
ghost use Rattle.std.specs.List.{concat};
ghost use Rattle.bz_tree.specs.Rows.{above as above_part, part_view, segs_parts};
ghost use Rattle.bz_tree.specs.Tree.{Segment, segs_of};
ghost use Rattle.bz_canonical.specs.Canonical.{AreReadAlone};
ghost use Rattle.bz_canonical.specs.SealedRules.{between, shown};
ghost use Rattle.bz_canonical.specs.Spans.{AreSpans, is_asked, kept};
ghost use Rattle.bz_layout.specs.Pieces.{bytes_of, comments, indent};
ghost use Rattle.bz_layout_laws.specs.Legible.{AreComments};
ghost use Rattle.bz_canonical.specs.private.Elements.{Element};
ghost use Rattle.bz_canonical.specs.private.Listed.{AreReadEach, IsElementPlace, IsListHead, IsListPut, IsPlaceOf, element_parts, gap_text};

use crate::found_value::BRACKETS;
use crate::front::{Word, after, after_identifier, after_line, after_word};
use crate::lists::{ReadElement, after_elements, is_on_lines, read_element};
use crate::sealed::{between, put_beside, put_comments};
use crate::spans::ArgumentSpan;
use crate::value::either;
use bz_memory::{NoMemory, push};
use bz_token::Kind;
use bz_tree::{GroupKind, Part, Parts};

/// Reads the arguments that have these spans, one after another: those that are asked for, or `all`. False: the value of
/// one is no list of strings, or a comment stands above it, beside it or at its end. Then what was put is of no use.
pub(crate) fn put_lists<'a>(
    chunk: &'a str,
    spans: &[ArgumentSpan],
    all: bool,
    max_depth: u8,
    parts: &mut Parts<'a>,
) -> Result<bool, NoMemory>
    ensures { IfOk result (λ put. IsTrue put → (names : List (List ℕ)) (from start : ℕ) (args : List Segment)
        (stands : List (List ℕ)) (after : List ℕ) → AreSpans names from start args stands spans.now
        → drop from chunk.now ≡ concat stands ++ after → AreReadEach max_depth stands args
        → map part_view parts.new.items ≡ map part_view parts.old.items
        ++ segs_parts (segs_of (kept (shown all spans.now) args))) }
{
    for span in spans {
        let here = either(all, span.is_asked());
        if here && !put_list_at(chunk, *span, max_depth, parts)? {
            return Ok(false);
        }
    }
    Ok(true)
}

/// Reads the argument of this span.
fn put_list_at<'a>(
    chunk: &'a str,
    span: ArgumentSpan,
    max_depth: u8,
    parts: &mut Parts<'a>,
) -> Result<bool, NoMemory>
    ensures { IfOk result (λ put. IsTrue put → (args : List Segment)
        → AreReadAlone max_depth (between span.from span.to chunk.now) args
        → map part_view parts.new.items ≡ map part_view parts.old.items ++ segs_parts (segs_of args)) }
{
    let Some(lines) = between(chunk, span.from, span.to) else {
        return Ok(false);
    };
    put_list_argument(lines, max_depth, parts)
}

/// Reads the argument that has these lines.
fn put_list_argument<'a>(
    lines: &'a str,
    max_depth: u8,
    parts: &mut Parts<'a>,
) -> Result<bool, NoMemory>
    ensures { IfOk result (λ put. IsTrue put → (args : List Segment) → AreReadAlone max_depth lines.now args
        → map part_view parts.new.items ≡ map part_view parts.old.items ++ segs_parts (segs_of args)) }
{
    if max_depth < BRACKETS {
        return Ok(false);
    }
    let Some(head) = list_head(lines) else {
        return Ok(false);
    };
    push(parts, Part::Token(Kind::Identifier, head.name))?;
    push(parts, Part::Token(Kind::Operator, "="))?;
    push(parts, Part::Open(GroupKind::List))?;
    if !put_elements(head.inside, parts)? {
        return Ok(false);
    }
    push(parts, Part::Close(false))?;
    push(parts, Part::End)?;
    Ok(true)
}

/// The name of an argument, and what follows the bracket of the list that is its value.
#[derive(Clone, Copy)]
pub(crate) struct ListHead<'t> {
    name: &'t str,
    inside: &'t str,
}

/// The head of the argument here, where no comment stands above it.
fn list_head(lines: &str) -> Option<ListHead<'_>>
    ensures { IfSome result (λ head. IsListHead lines.now head.name.now head.inside.now) }
{
    let inner = after_line(lines.as_bytes(), 1)?;
    let equals = after_identifier(inner)?;
    let value = after_word(equals, Word::Equals)?;
    let list = after(value, b'[')?;
    let end = lines.len().checked_sub(equals.len())?;
    let name = between(lines, 5, end)?;
    let from = lines.len().checked_sub(list.len())?;
    let (_, inside) = lines.split_at_checked(from)?;
    Some(ListHead { name, inside })
}

/// Reads the elements here, which follow the bracket of a list. False: one is no string, or more than a comma follows the
/// list.
fn put_elements<'a>(inside: &'a str, parts: &mut Parts<'a>) -> Result<bool, NoMemory>
    ensures { IfOk result (λ put. IsTrue put
        → IsListPut inside.now (map part_view parts.old.items) (map part_view parts.new.items)) }
{
    let on_lines = is_on_lines(inside.as_bytes());
    let mut rest = inside;
    let mut one = false;
    for _ in 0..inside.len() {
        if let Some(end) = after_elements(rest.as_bytes(), on_lines) {
            return Ok(is_comma(end));
        }
        let Some(next) = read_element(rest.as_bytes(), on_lines, one) else {
            return Ok(false);
        };
        let Some(place) = place_of(rest, next, on_lines, one) else {
            return Ok(false);
        };
        if !put_place(place, parts)? {
            return Ok(false);
        }
        rest = place.rest;
        one = true;
    }
    Ok(false)
}

/// An element, as it stands in a text.
#[derive(Clone, Copy)]
pub(crate) struct ElementPlace<'t> {
    /// The comments above it, with newlines and indents. In place: what stands between it and the one before it.
    above: &'t str,
    token: &'t str,
    /// Its comma and the comment beside it. In place: nothing.
    side: &'t str,
    rest: &'t str,
    noted: bool,
}

/// Where the element stands in the text that begins with it.
#[inline(always)]
fn place_of<'a>(
    text: &'a str,
    read: ReadElement<'_>,
    on_lines: bool,
    one: bool,
) -> Option<ElementPlace<'a>>
    ensures { IfSome result (IsPlaceOf on_lines one text.now read.entry) }
{
    let len = text.len().checked_sub(read.rest.len())?;
    let (element, rest) = text.split_at_checked(len)?;
    let (above, others) = element.split_at_checked(gap_len(read, on_lines, one))?;
    let (token, side) = others.split_at_checked(read.string.token.len())?;
    Some(ElementPlace {
        above,
        token,
        side,
        rest,
        noted: read.noted,
    })
}

/// Reads the element that stands there.
#[inline(always)]
fn put_place<'a>(place: ElementPlace<'a>, parts: &mut Parts<'a>) -> Result<bool, NoMemory>
    ensures { IfOk result (λ put. IsTrue put → (e : Element) → IsElementPlace e place.entry
        → map part_view parts.new.items ≡ map part_view parts.old.items ++ element_parts e) }
{
    if !place.noted {
        push(parts, Part::Token(Kind::String, place.token))?;
        push(parts, Part::End)?;
        return Ok(true);
    }
    put_noted(place, parts)
}

/// Reads an element that has comments.
#[inline(never)]
fn put_noted<'a>(place: ElementPlace<'a>, parts: &mut Parts<'a>) -> Result<bool, NoMemory>
    requires { place.noted ≡ true }
    ensures { IfOk result (λ put. IsTrue put → (e : Element) → IsElementPlace e place.entry
        → map part_view parts.new.items ≡ map part_view parts.old.items ++ element_parts e) }
{
    if !put_notes(place.above, parts)? {
        return Ok(false);
    }
    push(parts, Part::Token(Kind::String, place.token))?;
    push(parts, Part::End)?;
    put_beside(place.side, parts)
}

/// Reads the comments above an element, before the newline and the indent of its own line.
fn put_notes<'a>(above: &'a str, parts: &mut Parts<'a>) -> Result<bool, NoMemory>
    ensures { IfOk result (λ put. IsTrue put → (notes : List (List ℕ)) → AreComments notes
        → above.now ≡ bytes_of (comments 2 notes) ++ (10 ∷ indent 2)
        → map part_view parts.new.items ≡ map part_view parts.old.items ++ map above_part notes) }
{
    let Some(end) = above.len().checked_sub(8) else {
        return Ok(false);
    };
    let Some(lines) = between(above, 1, end) else {
        return Ok(false);
    };
    if lines.is_empty() {
        return Ok(true);
    }
    let rest = put_comments(lines, b' ', 8, parts)?;
    Ok(rest.is_some())
}

/// A comma is all that is left.
#[inline(always)]
fn is_comma(end: &[u8]) -> bool
    ensures { IsTrue result → end.now ≡ 44 ∷ [] }
{
    matches!(end, [byte] if *byte == b',')
}

/// So many bytes stand before the string of an element.
#[inline(always)]
fn gap_len(read: ReadElement<'_>, on_lines: bool, one: bool) -> usize
    ensures { result ≡ length (gap_text on_lines one read.entry) }
{
    match (on_lines, one) {
        (true, _) => read.front.len(),
        (false, true) => 2,
        (false, false) => 0,
    }
}
