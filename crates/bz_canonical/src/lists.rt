//! Lists of strings as they would be written, where they stand otherwise.

ghost use Rattle.std.specs.Prelude.{◌≡◌, ◌∷◌, ◌++◌, ℕ, Bool, List, IfOk, IfSome, IsTrue, OnOk, true, false};
ghost use Rattle.bz_layout.specs.Pieces.{indent};
ghost use Rattle.bz_canonical.specs.private.Segments.{IsBesideFront};
ghost use Rattle.bz_canonical.specs.private.Elements.{AreElementsRead, IsElementRead, IsLast, IsListRead, separator, closing, element_written};
ghost use Rattle.bz_canonical.specs.private.Pendings.{Grows};
ghost use Rattle.bz_canonical.specs.private.Strings.{IsStringRead, spelling};

use crate::Known;
use crate::comments::{AfterComments, after_comments, after_suffix};
use crate::front::{Word, after, after_line, after_string, after_word, before, read_single_string};
use crate::value::either;
use bz_memory::{NoMemory, extend_from_slice, push};

/// A string and what follows it.
#[derive(Clone, Copy)]
pub(crate) struct ReadString<'t> {
    pub(crate) token: &'t [u8],
    /// In single quotes: what stands between them. Else: all of it.
    pub(crate) body: &'t [u8],
    pub(crate) single: bool,
    pub(crate) rest: &'t [u8],
}

/// The string here.
#[inline(always)]
fn read_string(text: &[u8]) -> Option<ReadString<'_>>
    ensures { IfSome result (IsStringRead text.now) }
{
    match text {
        [b'"', ..] => {
            let rest = after_string(text)?;
            let token = before(text, rest.len())?;
            Some(ReadString {
                token,
                body: token,
                single: false,
                rest,
            })
        }
        _ => {
            let read = read_single_string(text)?;
            let token = before(text, read.rest.len())?;
            Some(ReadString {
                token,
                body: read.inner,
                single: true,
                rest: read.rest,
            })
        }
    }
}

/// Writes a string.
#[inline(always)]
fn put_string(read: ReadString<'_>, written: &mut Vec<u8>) -> Result<(), NoMemory>
    ensures { OnOk result (written.new.items ≡ written.old.items ++ spelling read.entry) }
{
    if read.single {
        push(written, b'"')?;
        extend_from_slice(written, read.body)?;
        return push(written, b'"');
    }
    extend_from_slice(written, read.body)
}

/// What follows the list of strings here, and puts it into the buffer as it would be written.
pub(crate) fn put_list<'t>(text: &'t [u8], written: &mut Vec<u8>) -> Known<&'t [u8]>
    ensures grows { IfOk result (λ known. Grows written.old.items written.new.items) }
    ensures reads { IfOk result (λ known. IfSome known (λ rest. (w : List ℕ)
        × (written.new.items ≡ written.old.items ++ w) × IsListRead text.now rest.now w)) }
{
    let Some(inside) = after(text, b'[') else {
        return Ok(None);
    };
    let lines = is_on_lines(inside);
    let Some(first) = read_element(inside, lines, false) else {
        return Ok(None);
    };
    push(written, b'[')?;
    if let Some(rest) = after_only(first, lines) {
        put_string(first.string, written)?;
        push(written, b']')?;
        return Ok(Some(rest));
    }
    let Some(rest) = put_elements(inside, first, lines, written)? else {
        return Ok(None);
    };
    extend_from_slice(written, b"\n    ]".as_slice())?;
    Ok(Some(rest))
}

/// What follows the list of this element alone, where it has no comments.
#[inline(always)]
fn after_only<'t>(only: ReadElement<'t>, lines: bool) -> Option<&'t [u8]>
    ensures { IfSome result (λ rest. (only.entry.noted ≡ false)
        × (only.entry.rest.now ≡ closing lines ++ rest.now)) }
{
    if only.noted {
        return None;
    }
    after_elements(only.rest, lines)
}

/// What follows the bracket after the elements here, after the first of them. Writes each on lines of its own, but not
/// the bracket: they are two, or one has a comment.
fn put_elements<'t>(
    inside: &[u8],
    first: ReadElement<'t>,
    lines: bool,
    written: &mut Vec<u8>,
) -> Known<&'t [u8]>
    requires { IsElementRead lines false inside.now first }
    ensures grows { IfOk result (λ known. Grows written.old.items written.new.items) }
    ensures reads { IfOk result (λ known. IfSome known (λ rest. (w : List ℕ)
        × (written.new.items ≡ written.old.items ++ w) × AreElementsRead inside.now rest.now w true true)) }
{
    put_element(first, written)?;
    let mut rest = first.rest;
    let mut broken = first.noted;
    for _ in 0..first.rest.len() {
        if let Some(end) = after_elements(rest, lines) {
            return Ok(broken.then_some(end));
        }
        let Some(next) = read_element(rest, lines, true) else {
            return Ok(None);
        };
        put_element(next, written)?;
        rest = next.rest;
        broken = true;
    }
    Ok(None)
}

/// The elements of the list here stand on lines.
#[inline(always)]
pub(crate) fn is_on_lines(inside: &[u8]) -> bool {
    matches!(inside, [b'\n', ..])
}

/// An element of a list.
#[derive(Clone, Copy)]
pub(crate) struct ReadElement<'t> {
    /// What is written before its string: the comments above it, and the indent.
    pub(crate) front: &'t [u8],
    pub(crate) string: ReadString<'t>,
    /// What is written after it: the comma, and the comment beside it.
    back: &'t [u8],
    /// What follows it.
    pub(crate) rest: &'t [u8],
    /// A comment stands above it or beside it.
    pub(crate) noted: bool,
    /// It stands otherwise than it is written on lines.
    pub(crate) otherwise: bool,
}

/// Writes an element on lines of its own.
#[inline(always)]
pub(crate) fn put_element(read: ReadElement<'_>, written: &mut Vec<u8>) -> Result<(), NoMemory>
    ensures { OnOk result (written.new.items ≡ written.old.items ++ element_written read.entry) }
{
    extend_from_slice(written, read.front)?;
    put_string(read.string, written)?;
    extend_from_slice(written, read.back)
}

/// Writes a string in the place of an element's, on lines of its own, with the comments of the element.
#[inline(always)]
pub(crate) fn put_element_as(
    read: ReadElement<'_>,
    literal: &[u8],
    written: &mut Vec<u8>,
) -> Result<(), NoMemory>
    ensures { OnOk result (written.new.items ≡ written.old.items
        ++ (read.entry.front.now ++ (literal.now ++ read.entry.back.now))) }
{
    extend_from_slice(written, read.front)?;
    extend_from_slice(written, literal)?;
    extend_from_slice(written, read.back)
}

/// The element here, on lines or in place. `one`: there are others before it.
#[inline(always)]
pub(crate) fn read_element(text: &[u8], lines: bool, one: bool) -> Option<ReadElement<'_>>
    ensures { IfSome result (IsElementRead lines one text.now) }
{
    if lines {
        return read_element_on_lines(text);
    }
    read_element_in_place(text, one)
}

/// The element on lines here, with its comments.
#[inline(always)]
fn read_element_on_lines(text: &[u8]) -> Option<ReadElement<'_>>
    ensures { IfSome result (λ read. (one : Bool) → IsElementRead true one text.now read) }
{
    let above = after_comments(text, 2);
    let inner = after_line(above.rest, 2)?;
    let front = before(text, inner.len())?;
    let string = read_string(inner)?;
    let side = after_comma(string.rest)?;
    let back = before(string.rest, side.rest.len())?;
    Some(ReadElement {
        front,
        string,
        back,
        rest: side.rest,
        noted: either(above.some, side.some),
        otherwise: string.single,
    })
}

/// The string in place here.
#[tactic(auto, using(crate::proofs::ElementLists::place_read))]
#[inline(always)]
fn read_element_in_place(text: &[u8], one: bool) -> Option<ReadElement<'_>>
    ensures { IfSome result (IsElementRead false one text.now) }
{
    let inner = after_others(text, one)?;
    let string = read_string(inner)?;
    Some(ReadElement {
        front: b"\n        ".as_slice(),
        string,
        back: b",".as_slice(),
        rest: string.rest,
        noted: false,
        otherwise: true,
    })
}

/// What follows the comma between elements in place, where there are others.
#[inline(always)]
fn after_others(text: &[u8], one: bool) -> Option<&[u8]>
    ensures { IfSome result (λ rest. text.now ≡ separator one ++ rest.now) }
{
    if one {
        return after_word(text, Word::Comma);
    }
    Some(text)
}

/// What follows the bracket that closes a list, whose elements stand on lines or in place.
#[inline(always)]
pub(crate) fn after_elements(text: &[u8], lines: bool) -> Option<&[u8]>
    ensures { IfSome result (λ rest. text.now ≡ closing lines ++ rest.now) }
{
    if lines {
        return after_last(text, b']');
    }
    after(text, b']')
}

/// What follows the bracket that closes a value on lines.
#[inline(always)]
pub(crate) fn after_last(text: &[u8], bracket: u8) -> Option<&[u8]>
    ensures { IfSome result (λ rest. text.now ≡ 10 ∷ (indent 1 ++ bracket ∷ rest.now)) }
{
    let end = after_line(text, 1)?;
    let rest = after(end, bracket)?;
    Some(rest)
}

/// What follows a comma and the comment beside it.
#[inline(always)]
pub(crate) fn after_comma(text: &[u8]) -> Option<AfterComments<'_>>
    ensures { IfSome result (λ side. (comma : List ℕ) × (text.now ≡ 44 ∷ comma)
        × IsBesideFront comma side.rest.now side.some) }
{
    let comma = after(text, b',')?;
    let side = after_suffix(comma)?;
    Some(side)
}

/// Nothing follows a comma here and the comment beside it.
pub(crate) fn is_last(text: &[u8]) -> bool
    ensures { IsTrue result → IsLast text.now }
{
    match after_comma(text) {
        Some(side) => side.rest.is_empty(),
        None => false,
    }
}
