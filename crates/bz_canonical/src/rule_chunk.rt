//! The rule that a text begins with, as a chunk.

ghost use Rattle.std.specs.Prelude.{◌≡◌, ◌-◌, ◌<◌, ℕ, List, false, length, take, option_map, if◌then◌else◌, IfOk, IfSome, IsTrue};
ghost use Rattle.bz_canonical.specs.Spans.{AreSpansOf};
ghost use Rattle.bz_canonical.specs.private.Rules.{IsNamedChunk, IsNamedRule, IsRuleHead, IsRuleRead};
ghost use Rattle.bz_canonical.specs.private.Statements.{IsChunkOf};

use crate::Known;
use crate::chunk::{CanonicalChunk, without};
use crate::named_rule::{ReadRule, RuleHead, read_rule};
use crate::spans::{ArgumentSpan, NamesSought, note_rule};
use bz_label::Text;
use bz_token::check_utf8;
use bz_tree::Class;

/// A rule whose name is on a line of its own, by the text that begins with it.
#[derive(Clone, Copy)]
pub(crate) struct NamedRule<'t> {
    pub(crate) text: &'t str,
    pub(crate) head: RuleHead<'t>,
    pub(crate) name: &'t str,
}

/// The chunk of this rule, where it stands as it would be written but for arguments whose value is a list of strings.
/// If there are such, what is written goes into the buffer, whose bytes are lost.
#[inline(always)]
pub(crate) fn read_rule_chunk<'t>(
    rule: NamedRule<'t>,
    left: bool,
    max_depth: u8,
    written: &'t mut Vec<u8>,
) -> Known<CanonicalChunk<'t>>
    requires deep { max_depth < 254 }
    requires rule { IsNamedRule rule }
    ensures chunk { IfOk result (λ known. IfSome known (IsChunkOf max_depth rule.entry.text.now)) }
    ensures name { IfOk result (λ known. IfSome known (λ found. IsNamedChunk rule.entry left found)) }
    ensures noted { IfOk result (λ known. IfSome known (λ found. found.noted ≡ false)) }
{
    let Some(depth) = max_depth.checked_sub(1) else {
        return Ok(None);
    };
    let Some(read) = read_rule(rule.text.as_bytes(), rule.head, depth, written)? else {
        return Ok(None);
    };
    chunk_of(rule, left, written.as_slice(), read)
}

/// The chunk of this rule, where it stands as it would be written but for arguments whose value is a list of strings. It
/// is noted how its arguments stand, and which of them have one of these names.
#[inline(never)]
pub(crate) fn read_noted_chunk<'t>(
    rule: NamedRule<'t>,
    names: &[Text],
    max_depth: u8,
    written: &'t mut Vec<u8>,
    spans: &mut Vec<ArgumentSpan>,
) -> Known<CanonicalChunk<'t>>
    requires deep { max_depth < 254 }
    requires rule { IsNamedRule rule }
    ensures chunk { IfOk result (λ known. IfSome known (IsChunkOf max_depth rule.entry.text.now)) }
    ensures name { IfOk result (λ known. IfSome known (λ found. IsNamedChunk rule.entry false found)) }
    ensures spans { IfOk result (λ known. IfSome known (λ found. IsTrue found.noted → AreSpansOf max_depth
        names.entry.now found.chunk.now found.written.now spans.new.items)) }
{
    let Some(depth) = max_depth.checked_sub(1) else {
        return Ok(None);
    };
    let text = rule.text.as_bytes();
    let notes = NamesSought {
        names,
        depth,
        len: text.len(),
    };
    let Some(read) = note_rule(text, rule.head, notes, written, spans)? else {
        return Ok(None);
    };
    let Some(chunk) = chunk_of(rule, false, written.as_slice(), read.rule)? else {
        return Ok(None);
    };
    Ok(Some(CanonicalChunk {
        noted: read.known,
        ..chunk
    }))
}

/// The name as text, by its place.
#[inline(always)]
pub(crate) fn name_in<'t>(text: &'t str, head: RuleHead<'_>) -> Option<&'t str>
    requires { IsRuleHead text.now head.name.now head.inside.now head.rest.now }
    ensures { IfSome result (λ name. name.now ≡ head.entry.name.now) }
{
    // A quote and a comma follow it.
    let end = head.rest.len().checked_add(2)?;
    let front = without(text, end)?;
    let start = front.len().checked_sub(head.name.len())?;
    let (_, name) = front.split_at_checked(start)?;
    Some(name)
}

/// The chunk of this rule, which is in the buffer if it stands otherwise than it is written.
#[inline(always)]
fn chunk_of<'t>(
    rule: NamedRule<'t>,
    left: bool,
    buffer: &'t [u8],
    read: ReadRule<'t>,
) -> Known<CanonicalChunk<'t>>
    ensures chunk { IfOk result (λ known. IfSome known (λ found. (depth : ℕ)
        → IsRuleRead depth rule.entry.name.now rule.entry.text.now read.entry.rest.now (if read.entry.as_is
        then take (length rule.entry.text.now - length read.entry.rest.now) rule.entry.text.now
        else buffer.now)
        → IsChunkOf depth rule.entry.text.now found)) }
    ensures name { IfOk result (λ known. IfSome known (λ found. IsNamedChunk rule.entry left found)) }
    ensures noted { IfOk result (λ known. IfSome known (λ found. found.noted ≡ false)) }
    ensures text { IfOk result (λ known. IfSome known (λ found. found.chunk.now
        ≡ take (length rule.entry.text.now - length read.entry.rest.now) rule.entry.text.now)) }
    ensures written { IfOk result (λ known. IfSome known (λ found. found.written.now
        ≡ (if read.entry.as_is then found.chunk.now else buffer.now))) }
{
    let text = rule.text;
    let Some(chunk) = without(text, read.rest.len()) else {
        return Ok(None);
    };
    let Some(written) = written_of(chunk, buffer, read.as_is) else {
        return Ok(None);
    };
    Ok(Some(CanonicalChunk {
        chunk,
        written,
        class: Class::Rule,
        name: Some(rule.name),
        kind: None,
        left,
        noted: false,
    }))
}

/// What is written of a rule: its chunk, or what is in the buffer.
#[inline(always)]
fn written_of<'t>(chunk: &'t str, buffer: &'t [u8], as_is: bool) -> Option<&'t str>
    ensures { IfSome result (λ written. written.now ≡ (if as_is then chunk.now else buffer.now)) }
{
    if as_is {
        return Some(chunk);
    }
    let written = check_utf8(buffer).ok()?;
    Some(written)
}
