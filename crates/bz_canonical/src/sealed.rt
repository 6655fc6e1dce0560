//! The parts of a rule of which it is known where its arguments stand, where those that are not asked for are sealed.

ghost use Rattle.std.specs.Prelude.{◌≡◌, ◌==◌, ◌≤◌, ◌+◌, [], ◌∷◌, ◌++◌, ℕ, List, Option, if◌then◌else◌, not, false, true, drop, map, IfOk, IfSome, IsTrue, OnOk, length};
ghost use Rattle.std.specs.List.{prefix_len};
ghost use Rattle.bz_token.specs.Lexical.{is_text};
ghost use Rattle.bz_token.specs.declared.token.Kind.TheVariants.{Identifier, Kept};
ghost use Rattle.bz_tree.specs.Rows.{IsRowOf, a_token, above, beside_part, part_view, parts_of, segment_end, segs_parts};
ghost use Rattle.bz_tree.specs.Tree.{Segment, segs_of};
ghost use Rattle.bz_layout.specs.Pieces.{bytes_of, indent, suffix_piece};
ghost use Rattle.bz_layout_laws.specs.Legible.{AreComments};
ghost use Rattle.bz_canonical.specs.Canonical.{argument_lines};
ghost use Rattle.bz_canonical.specs.SealedRules.{IsLevel, are_asked, as_comment, back_parts, between, comment_rows, ends_run, front_parts, last_end, name_line, sealed_after, sealed_args, sealed_rule, shown};
ghost use Rattle.bz_canonical.specs.Spans.{AreSpans, IsSpan, IsSpanned, NamedRule, back_text, front_text, is_asked, kept, name_argument, statement_of};
ghost use Rattle.bz_token.specs.Common.{begins};

use crate::found::FoundRule;
use crate::spans::ArgumentSpan;
use bumpalo::Bump;
use bz_attribute::first_argument;
use bz_memory::{NoMemory, extend_from_slice, push, with_room_for};
use bz_token::Kind;
use bz_tree::{Class, GroupKind, Part, Parts, Row};

// Room for the parts that most rules have beside those that are asked for.
const ROOM: usize = 40;

/// A rule, by what is written of it and where its arguments stand there.
#[derive(Clone, Copy)]
pub struct SpannedRule<'a> {
    pub written: &'a str,
    pub spans: &'a [ArgumentSpan],
}

/// The text between two places.
pub(crate) fn between(text: &str, from: usize, to: usize) -> Option<&str>
    ensures { IfSome result (λ part. part.now ≡ between from to text.now) }
{
    let len = to.checked_sub(from)?;
    let (_, rest) = text.split_at_checked(from)?;
    let (part, _) = rest.split_at_checked(len)?;
    Some(part)
}

/// How many bytes stand before the first newline.
fn line_len(bytes: &[u8]) -> usize
    ensures { result ≡ prefix_len (λ b. not (b == 10)) bytes.now }
{
    bytes.iter().take_while(|b| **b != b'\n').count()
}

/// Reads the comment on the line here, which begins with the indent, and answers what follows the line.
fn put_comment<'a>(
    line: &'a str,
    indent: usize,
    parts: &mut Parts<'a>,
) -> Result<Option<&'a str>, NoMemory>
    ensures rest { IfOk result (λ known. IfSome known (λ rest.
        rest.now ≡ drop (prefix_len (λ b. not (b == 10)) line.now + 1) line.now)) }
    ensures part { IfOk result (λ known. IfSome known
        (λ rest. map part_view parts.new.items ≡ map part_view parts.old.items
        ++ above (between indent (prefix_len (λ b. not (b == 10)) line.now) line.now) ∷ [])) }
{
    let len = line_len(line.as_bytes());
    let Some((_, end)) = line.split_at_checked(len) else {
        return Ok(None);
    };
    let Some((_, rest)) = end.split_at_checked(1) else {
        return Ok(None);
    };
    let Some(comment) = between(line, indent, len) else {
        return Ok(None);
    };
    push(parts, Part::Above(comment))?;
    Ok(Some(rest))
}

/// Reads what a sealed argument becomes, by its lines and the place of its comma in them.
fn put_sealed<'a>(lines: &'a str, comma: usize, parts: &mut Parts<'a>) -> Result<bool, NoMemory>
    ensures { IfOk result (λ put. IsTrue put → (inner : List ℕ) (suffix : Option (List ℕ))
        → lines.now ≡ 10 ∷ (indent 1 ++ (inner ++ (44 ∷ bytes_of (suffix_piece suffix))))
        → comma ≡ length (10 ∷ (indent 1 ++ inner)) → map part_view parts.new.items
        ≡ map part_view parts.old.items ++ (a_token Kept inner ∷ segment_end ∷ beside_part suffix)) }
{
    let Some(inner) = between(lines, 5, comma) else {
        return Ok(false);
    };
    let Some((_, side)) = lines.split_at_checked(comma) else {
        return Ok(false);
    };
    push(parts, Part::Token(Kind::Kept, inner))?;
    push(parts, Part::End)?;
    put_beside(side, parts)
}

/// Reads the comment that follows a byte and two spaces, if anything does.
pub(crate) fn put_beside<'a>(side: &'a str, parts: &mut Parts<'a>) -> Result<bool, NoMemory>
    ensures { IfOk result (λ put. IsTrue put → (byte : ℕ) (suffix : Option (List ℕ))
        → side.now ≡ byte ∷ bytes_of (suffix_piece suffix)
        → map part_view parts.new.items ≡ map part_view parts.old.items ++ beside_part suffix) }
{
    if side.len() <= 1 {
        return Ok(true);
    }
    let Some(comment) = between(side, 3, side.len()) else {
        return Ok(false);
    };
    push(parts, Part::Beside(comment))?;
    Ok(true)
}

pub(crate) fn begins_with(bytes: &[u8], first: u8) -> bool
    ensures { result ≡ begins (λ b. b == first) bytes.now }
{
    match bytes {
        [byte, ..] => *byte == first,
        [] => false,
    }
}

/// Reads the comments on the lines here, each of which begins with this byte and the indent, and answers what follows.
pub(crate) fn put_comments<'a>(
    lines: &'a str,
    first: u8,
    indent: usize,
    parts: &mut Parts<'a>,
) -> Result<Option<&'a str>, NoMemory>
    ensures { IfOk result (λ known. IfSome known (λ rest. (level : ℕ) (notes : List (List ℕ)) (after : List ℕ)
        → IsLevel level first indent → AreComments notes → begins (λ b. b == first) after ≡ false
        → lines.entry.now ≡ comment_rows level notes ++ after → (rest.now ≡ after)
        × (map part_view parts.new.items ≡ map part_view parts.old.items ++ map above notes))) }
{
    let mut rest = lines;
    for _ in 0..lines.len() {
        if !begins_with(rest.as_bytes(), first) {
            return Ok(Some(rest));
        }
        let Some(next) = put_comment(rest, indent, parts)? else {
            return Ok(None);
        };
        rest = next;
    }
    Ok(None)
}

/// Reads the parts before the arguments of a rule.
fn put_front<'a>(front: &'a str, parts: &mut Parts<'a>) -> Result<bool, NoMemory>
    ensures { IfOk result (λ put. IsTrue put → (notes : List (List ℕ)) (kind : List ℕ) → AreComments notes
        → is_text Identifier kind ≡ true → front.now ≡ front_text notes kind
        → map part_view parts.new.items ≡ map part_view parts.old.items ++ front_parts notes kind) }
{
    let Some(rest) = put_comments(front, b'#', 0, parts)? else {
        return Ok(false);
    };
    let Some(len) = rest.len().checked_sub(1) else {
        return Ok(false);
    };
    let Some((kind, _)) = rest.split_at_checked(len) else {
        return Ok(false);
    };
    push(parts, Part::Token(Kind::Identifier, kind))?;
    push(parts, Part::Open(GroupKind::RuleCall))?;
    Ok(true)
}

/// Reads the argument `name` of these lines.
fn put_name<'a>(line: &'a str, parts: &mut Parts<'a>) -> Result<bool, NoMemory>
    ensures { IfOk result (λ put. IsTrue put → (name : List ℕ) → line.now ≡ name_line name
        → map part_view parts.new.items
        ≡ map part_view parts.old.items ++ segs_parts (segs_of (name_argument name ∷ []))) }
{
    let Some(len) = line.len().checked_sub(1) else {
        return Ok(false);
    };
    let Some(literal) = between(line, 12, len) else {
        return Ok(false);
    };
    push(parts, Part::Token(Kind::Identifier, "name"))?;
    push(parts, Part::Token(Kind::Operator, "="))?;
    push(parts, Part::Token(Kind::String, literal))?;
    push(parts, Part::End)?;
    Ok(true)
}

/// Reads the comments after the arguments of a rule, its bracket, and the comment beside it.
fn put_back<'a>(back: &'a str, parts: &mut Parts<'a>) -> Result<bool, NoMemory>
    ensures { IfOk result (λ put. IsTrue put → (end : List (List ℕ)) (suffix : Option (List ℕ))
        → AreComments end
        → back.now ≡ back_text end suffix
        → map part_view parts.new.items ≡ map part_view parts.old.items ++ back_parts end suffix) }
{
    let Some((_, lines)) = back.split_at_checked(1) else {
        return Ok(false);
    };
    let Some(rest) = put_comments(lines, b' ', 4, parts)? else {
        return Ok(false);
    };
    let Some(len) = rest.len().checked_sub(1) else {
        return Ok(false);
    };
    let Some((side, _)) = rest.split_at_checked(len) else {
        return Ok(false);
    };
    push(parts, Part::Close(false))?;
    put_beside(side, parts)
}

/// Whether an argument is asked for, or is the last that is sealed as one.
fn ends_run(span: ArgumentSpan, others: &[ArgumentSpan]) -> bool
    ensures { result ≡ ends_run (is_asked span) (are_asked others.now) }
{
    match others {
        [next, ..] => span.is_asked() || next.is_asked(),
        [] => true,
    }
}

/// Reads the arguments that have these spans, whose lines begin here: those that are asked for have these parts, one
/// after another, and each run of the others is sealed as one.
fn put_arguments<'a>(
    rule: SpannedRule<'a>,
    first: usize,
    asked: &[Part<'a>],
    parts: &mut Parts<'a>,
) -> Result<bool, NoMemory>
    ensures { IfOk result (λ put. IsTrue put → (names : List (List ℕ)) (from : ℕ) (args : List Segment)
        (stands : List (List ℕ)) (after : List ℕ) → AreSpans names from first args stands rule.entry.spans.now
        → drop first rule.entry.written.now ≡ argument_lines args ++ after
        → map part_view asked.now ≡ segs_parts (segs_of (kept (are_asked rule.entry.spans.now) args))
        → map part_view parts.new.items ≡ map part_view parts.old.items
        ++ segs_parts (segs_of (sealed_args (are_asked rule.entry.spans.now) args))) }
{
    let mut start = first;
    let mut at = 0;
    let mut rest = rule.spans;
    while let [span, others @ ..] = rest {
        if ends_run(*span, others) {
            let Some(len) = put_argument(rule.written, start, *span, &asked[at..], parts)? else {
                return Ok(false);
            };
            at += len;
            start = span.end;
        }
        rest = others;
    }
    Ok(true)
}

/// Reads the argument of this span: the first that has these parts, or one that is sealed with those whose lines begin
/// here. Answers how many of the parts it has.
fn put_argument<'a>(
    written: &'a str,
    start: usize,
    span: ArgumentSpan,
    asked: &[Part<'a>],
    parts: &mut Parts<'a>,
) -> Result<Option<usize>, NoMemory>
    ensures within { IfOk result (λ known. IfSome known (λ len. len ≤ length asked.now)) }
    ensures part { IfOk result (λ known. IfSome known
        (λ len. (names : List (List ℕ)) (from : ℕ) (run : List Segment)
        (a : Segment) (stands after : List ℕ) (others : List Segment)
        → IsSpan names from (start + length (argument_lines run)) a stands span
        → drop start written.now ≡ argument_lines (run ++ a ∷ []) ++ after
        → map part_view asked.now ≡ segs_parts (segs_of (kept (is_asked span ∷ []) (a ∷ []) ++ others))
        → (map part_view (drop len asked.now) ≡ segs_parts (segs_of others))
        × (map part_view parts.new.items ≡ map part_view parts.old.items
        ++ segs_parts (segs_of ((if is_asked span then a else sealed_after run a) ∷ []))))) }
{
    if span.is_asked() {
        return put_asked(asked, parts);
    }
    if !put_span(written, start, span, parts)? {
        return Ok(None);
    }
    Ok(Some(0))
}

/// Reads the first of the arguments that have these parts, and answers how many of them it has.
fn put_asked<'a>(asked: &[Part<'a>], parts: &mut Parts<'a>) -> Result<Option<usize>, NoMemory>
    ensures within { IfOk result (λ known. IfSome known (λ len. len ≤ length asked.now)) }
    ensures part { IfOk result (λ known. IfSome known (λ len. (a : Segment) (others : List Segment)
        → map part_view asked.now ≡ segs_parts (segs_of (a ∷ others))
        → (map part_view (drop len asked.now) ≡ segs_parts (segs_of others))
        × (map part_view parts.new.items ≡ map part_view parts.old.items ++ segs_parts (segs_of (a ∷ []))))) }
{
    if asked.is_empty() {
        return Ok(None);
    }
    let argument = first_argument(asked);
    extend_from_slice(parts, &asked[..argument.to])?;
    Ok(Some(argument.to))
}

/// Reads the argument of this span, which is sealed with those whose lines begin here.
fn put_span<'a>(
    written: &'a str,
    start: usize,
    span: ArgumentSpan,
    parts: &mut Parts<'a>,
) -> Result<bool, NoMemory>
    ensures { IfOk result (λ put. IsTrue put
        → (names : List (List ℕ)) (from : ℕ) (run : List Segment) (a : Segment)
        (stands after : List ℕ) → IsSpan names from (start + length (argument_lines run)) a stands span
        → drop start written.now ≡ argument_lines (run ++ a ∷ []) ++ after → map part_view parts.new.items
        ≡ map part_view parts.old.items ++ segs_parts (segs_of (sealed_after run a ∷ []))) }
{
    let Some(above) = between(written, start, span.start) else {
        return Ok(false);
    };
    let Some(lines) = between(written, span.start, span.end) else {
        return Ok(false);
    };
    let Some(comma) = span.comma.checked_sub(span.start) else {
        return Ok(false);
    };
    if !put_above(above, parts)? {
        return Ok(false);
    }
    put_sealed(lines, comma, parts)
}

/// Reads the lines of some arguments as a comment, if there are any.
fn put_above<'a>(lines: &'a str, parts: &mut Parts<'a>) -> Result<bool, NoMemory>
    ensures { IfOk result (λ put. IsTrue put → map part_view parts.new.items
        ≡ map part_view parts.old.items ++ map above (as_comment lines.now)) }
{
    if lines.is_empty() {
        return Ok(true);
    }
    let Some((_, comment)) = lines.split_at_checked(5) else {
        return Ok(false);
    };
    push(parts, Part::Above(comment))?;
    Ok(true)
}

/// Where the last of these spans ends; where there is none, the place before them.
fn end_of(from: usize, spans: &[ArgumentSpan]) -> usize
    ensures { result ≡ last_end from spans.now }
{
    let mut end = from;
    for span in spans {
        end = span.end;
    }
    end
}

/// Reads the parts of a rule, of which the arguments after the name are sealed that are not asked for, or none if `all`
/// stay. Those that stay have these parts, one after another. False: it is no such rule.
pub(crate) fn put_rule<'a>(
    rule: SpannedRule<'a>,
    all: bool,
    asked: &[Part<'a>],
    parts: &mut Parts<'a>,
) -> Result<bool, NoMemory>
    ensures { IfOk result (λ put. IsTrue put
        → (names : List (List ℕ)) (r : NamedRule) (stands : List (List ℕ))
        → IsSpanned names r stands rule.entry.written.now rule.entry.spans.now
        → map part_view asked.now
        ≡ segs_parts (segs_of (kept (shown all (drop 1 rule.entry.spans.now)) r.args))
        → map part_view parts.new.items ≡ map part_view parts.old.items
        ++ parts_of (statement_of (sealed_rule (shown all (drop 1 rule.entry.spans.now)) r))) }
{
    let written = rule.written;
    let [name, spans @ ..] = rule.spans else {
        return Ok(false);
    };
    if !put_head(written, *name, parts)? {
        return Ok(false);
    }
    if all {
        extend_from_slice(parts, asked)?;
    } else if !put_arguments(SpannedRule { written, spans }, name.end, asked, parts)? {
        return Ok(false);
    }
    let Some((_, back)) = written.split_at_checked(end_of(name.end, spans)) else {
        return Ok(false);
    };
    put_back(back, parts)
}

/// Reads the parts of a rule up to its name, which has this span.
fn put_head<'a>(
    written: &'a str,
    span: ArgumentSpan,
    parts: &mut Parts<'a>,
) -> Result<bool, NoMemory>
    ensures { IfOk result (λ put. IsTrue put → (notes : List (List ℕ)) (kind name after : List ℕ)
        → AreComments notes
        → is_text Identifier kind ≡ true → written.now ≡ front_text notes kind ++ (name_line name ++ after)
        → span.start ≡ length (front_text notes kind) → span.end ≡ span.start + length (name_line name)
        → map part_view parts.new.items ≡ map part_view parts.old.items
        ++ (front_parts notes kind ++ segs_parts (segs_of (name_argument name ∷ [])))) }
{
    let Some((front, _)) = written.split_at_checked(span.start) else {
        return Ok(false);
    };
    let Some(line) = between(written, span.start, span.end) else {
        return Ok(false);
    };
    if !put_front(front, parts)? {
        return Ok(false);
    }
    put_name(line, parts)
}

/// The row of such a rule. None: it is no such rule.
pub(crate) fn sealed_row<'a>(
    bump: &'a Bump,
    found: FoundRule<'a>,
    all: bool,
    asked: &[Part<'a>],
) -> Result<Option<Row<'a>>, NoMemory>
    ensures { IfOk result (λ known. IfSome known
        (λ row. (names : List (List ℕ)) (r : NamedRule) (stands : List (List ℕ))
        → IsSpanned names r stands found.entry.rule.written.now found.entry.rule.spans.now
        → map part_view asked.now
        ≡ segs_parts (segs_of (kept (shown all (drop 1 found.entry.rule.spans.now)) r.args))
        → r.first_line ≡ found.entry.start → r.last_line ≡ found.entry.end
        → IsRowOf (statement_of (sealed_rule (shown all (drop 1 found.entry.rule.spans.now)) r)) row)) }
{
    let mut parts = with_room_for(bump, asked, ROOM)?;
    if !put_rule(found.rule, all, asked, &mut parts)? {
        return Ok(None);
    }
    Ok(Some(Row {
        parts,
        class: Class::Rule,
        start: found.start,
        end: found.end,
    }))
}
