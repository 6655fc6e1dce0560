//! Which arguments may have a value that is sought in all attributes. A label may be spelled in several ways, but what is after
//! its last colon or slash stands in each of them, before the quote that closes the literal.

ghost use Rattle.std.specs.Prelude.{◌≡◌, IfOk, IfSome};
ghost use Rattle.std.specs.List.{list_any};
ghost use Rattle.bz_label.specs.Endings.{is_in, is_odd, is_unsure};
ghost use Rattle.bz_canonical.specs.Sought as spec;

use crate::sealed::between;
use crate::spans::ArgumentSpan;
use bumpalo::Bump;
use bumpalo::collections::into_bump_slice;
use bz_label::Text;
use bz_memory::{NoMemory, push, with_room_for};
use memchr::memmem::Finder;
use memchr::{memchr2, memchr3};

/// Searches for these parts.
fn finders_of<'e, 'a>(
    bump: &'a Bump,
    parts: &'e [Text],
) -> Result<Vec<Finder<'e>, &'a Bump>, NoMemory>
    ensures { IfOk result (λ finders. finders.items ≡ parts.now) }
{
    let mut finders = with_room_for(bump, parts, 0)?;
    for part in parts {
        push(&mut finders, Finder::new(part.as_str().as_bytes()))?;
    }
    Ok(finders)
}

/// Whether the part stands in the text.
fn is_in(part: &Finder<'_>, text: &str) -> bool
    ensures { result ≡ is_in part.now text.now }
{
    part.find(text.as_bytes()).is_some()
}

/// Whether a byte of the text may not stand for itself in the value of a literal.
fn has_odd(text: &str) -> bool
    ensures { result ≡ list_any is_odd text.now }
{
    memchr2(b'\\', b'\r', text.as_bytes()).is_some()
}

/// Whether a byte of the text tells nothing of the literal that it is in.
fn has_unsure(text: &str) -> bool
    ensures { result ≡ list_any is_unsure text.now }
{
    memchr3(b'\\', b'\r', b'\'', text.as_bytes()).is_some()
}

/// Whether one of the parts stands in the text.
fn holds_one(parts: &[Finder<'_>], text: &str) -> bool
    ensures { result ≡ list_any (λ part. is_in part text.now) parts.now }
{
    parts.iter().any(|part| is_in(part, text))
}

/// Whether a value with one of the ends may stand in the text.
fn may_hold(endings: &[Finder<'_>], text: &str) -> bool
    ensures { result ≡ spec.may_hold endings.now text.now }
{
    !endings.is_empty() && (has_odd(text) || holds_one(endings, text))
}

/// What is searched for in a chunk, and in the lines of its arguments: ends, or, where no byte is unsure, ends with quotes.
#[derive(Clone, Copy)]
struct Parts<'p> {
    unsure: bool,
    finders: &'p [Finder<'p>],
}

/// One of them may end a value in the text.
fn may_have(parts: Parts<'_>, text: &str) -> bool
    ensures { result ≡ spec.may_have parts.entry.unsure parts.entry.finders.now text.now }
{
    if parts.unsure {
        may_hold(parts.finders, text)
    } else {
        holds_one(parts.finders, text)
    }
}

/// The span, marked if one of them may end a value in its lines. None: it is of no part of the chunk.
fn mark(parts: Parts<'_>, chunk: &str, span: ArgumentSpan) -> Option<ArgumentSpan>
    ensures { IfSome result
        (λ marked. marked ≡ spec.mark parts.entry.unsure parts.entry.finders.now chunk.now span) }
{
    let lines = between(chunk, span.from, span.to)?;
    Some(ArgumentSpan {
        sought: may_have(parts, lines),
        ..span
    })
}

/// What a script looks for in rules, beside names.
#[derive(Clone, Copy)]
pub struct Sought<'v> {
    /// It leaves the name of each rule, so that no other argument is left alone in its call.
    pub alone: bool,
    /// What is after the last colon or slash of each value that is sought in all attributes: texts that are the same label
    /// end so.
    pub endings: &'v [Text],
    /// The same with a double quote, which closes a literal.
    pub closings: &'v [Text],
}

/// The spans of a chunk, of which those are marked that may have a value that is sought. None: one is of no part of the
/// chunk.
pub(crate) fn mark_sought<'a>(
    bump: &'a Bump,
    sought: Sought<'_>,
    chunk: &str,
    spans: &'a [ArgumentSpan],
) -> Result<Option<&'a [ArgumentSpan]>, NoMemory>
    ensures { IfOk result (λ known. IfSome known (λ marked. marked.now
        ≡ spec.marked sought.entry.endings.now sought.entry.closings.now chunk.now spans.now)) }
{
    if sought.endings.is_empty() && sought.closings.is_empty() {
        return Ok(Some(spans));
    }
    if has_unsure(chunk) {
        return mark_by(bump, true, sought.endings, chunk, spans);
    }
    mark_by(bump, false, sought.closings, chunk, spans)
}

/// The same, by one of the two.
fn mark_by<'a>(
    bump: &'a Bump,
    unsure: bool,
    parts: &[Text],
    chunk: &str,
    spans: &'a [ArgumentSpan],
) -> Result<Option<&'a [ArgumentSpan]>, NoMemory>
    ensures { IfOk result (λ known. IfSome known
        (λ marked. marked.now ≡ spec.marked_by unsure parts.now chunk.now spans.now)) }
{
    if parts.is_empty() {
        return Ok(Some(spans));
    }
    let finders = finders_of(bump, parts)?;
    let parts = Parts {
        unsure,
        finders: &finders,
    };
    // Most rules hold none of them.
    if !may_have(parts, chunk) {
        return Ok(Some(spans));
    }
    let mut all = with_room_for(bump, spans, 0)?;
    for span in spans {
        let Some(marked) = mark(parts, chunk, *span) else {
            return Ok(None);
        };
        push(&mut all, marked)?;
    }
    Ok(Some(into_bump_slice(all)))
}
