//! The small rule that has those arguments of a rule alone that are asked for.

ghost use Rattle.std.specs.Prelude.{◌≡◌, [], ◌∷◌, ◌++◌, ℕ, List, drop, map, string_bytes, IfOk, IfSome, IsTrue};
ghost use Rattle.std.specs.List.{concat};
ghost use Rattle.bz_tree.specs.Rows.{part_view, segs_parts};
ghost use Rattle.bz_tree.specs.Tree.{Segment, segs_of};
ghost use Rattle.bz_canonical.specs.Canonical.{AreReadAlone, small_text};
ghost use Rattle.bz_canonical.specs.SealedRules.{are_asked, between, count_sealed, small_parts};
ghost use Rattle.bz_canonical.specs.Spans.{AreSpans, is_asked, kept};

use crate::sealed::between;
use crate::spans::ArgumentSpan;
use bumpalo::Bump;
use bz_memory::{NoMemory, push_str};
use bz_tree::{ParseFault, Part, Row, read_text};
use std::alloc::Global;

// The small rule before its arguments and after them: the comment keeps it on lines.
const BEFORE: &str = "k(";

const AFTER: &str = "\n    #\n)\n";

/// Reads the rule of the arguments that are asked for, as their lines stand in the chunk, in place of the text. False:
/// the spans are of another chunk.
pub(crate) fn put_asked_rule(
    chunk: &str,
    spans: &[ArgumentSpan],
    text: &mut String,
) -> Result<bool, NoMemory>
    ensures { IfOk result (λ put. IsTrue put → (names : List (List ℕ)) (from start : ℕ) (args : List Segment)
        (stands : List (List ℕ)) (after : List ℕ) → AreSpans names from start args stands spans.now
        → drop from chunk.now ≡ concat stands ++ after
        → string_bytes text.new ≡ small_text (concat (kept (are_asked spans.now) stands))) }
{
    text.clear();
    push_str(text, BEFORE)?;
    for span in spans {
        if !put_lines(chunk, *span, text)? {
            return Ok(false);
        }
    }
    push_str(text, AFTER)?;
    Ok(true)
}

/// Reads the lines of the argument of this span, if it is asked for.
fn put_lines(chunk: &str, span: ArgumentSpan, text: &mut String) -> Result<bool, NoMemory>
    ensures { IfOk result (λ put. IsTrue put → (lines : List ℕ) → between span.from span.to chunk.now ≡ lines
        → string_bytes text.new ≡ string_bytes text.old ++ concat (kept (is_asked span ∷ []) (lines ∷ []))) }
{
    if !span.is_asked() {
        return Ok(true);
    }
    let Some(lines) = between(chunk, span.from, span.to) else {
        return Ok(false);
    };
    push_str(text, lines)?;
    Ok(true)
}

// A longer text is not worth a copy: the whole rule is read then.
const LONGEST: usize = 1 << 17;

/// Reads such a rule. None: it is very long, or has more brackets open at once.
pub(crate) fn read_asked_rule<'a>(
    alloc: Global,
    bump: &'a Bump,
    text: &'a str,
    max_depth: u8,
) -> Result<Option<Row<'a>>, NoMemory>
    ensures { IfOk result (λ known. IfSome known (λ row. (lines : List ℕ) (args : List Segment)
        → text.now ≡ small_text lines → AreReadAlone max_depth lines args
        → map part_view row.parts.items ≡ small_parts args)) }
{
    if text.len() > LONGEST {
        return Ok(None);
    }
    match read_text(alloc, bump, text, 1, max_depth) {
        Ok(found) => Ok(found),
        Err(ParseFault::OutOfMemory(why)) => Err(why),
        Err(_) => Ok(None),
    }
}

/// The parts of the arguments of such a rule, one after another.
pub(crate) fn asked_parts<'r, 'a>(rule: &'r [Part<'a>]) -> Option<&'r [Part<'a>]>
    ensures { IfSome result (λ asked. (args : List Segment) → map part_view rule.entry.now ≡ small_parts args
        → map part_view asked.now ≡ segs_parts (segs_of args)) }
{
    if rule.len() < 4 {
        return None;
    }
    Some(&rule[2..rule.len() - 2])
}

/// How many of the arguments that have these spans are not asked for.
pub(crate) fn sealed_count(spans: &[ArgumentSpan]) -> usize
    ensures { result ≡ count_sealed (are_asked spans.now) }
{
    let mut count = 0;
    for span in spans {
        if !span.is_asked() {
            count += 1;
        }
    }
    count
}
