//! Where the lines of an argument stand in a rule, by the spans of all.

ghost use Rattle.std.specs.Prelude.{◌≡◌, ◌==◌, ℕ, List, Some, false, bytes_eq, count_by, IfSome, IsTrue};
ghost use Rattle.std.specs.List.{position};
ghost use Rattle.bz_token.specs.Common.{map_or};
ghost use Rattle.bz_tree.specs.Tree.{Statement};
ghost use Rattle.bz_canonical.specs.Canonical.{HasOnce, HasPlace, between};
ghost use Rattle.bz_canonical.specs.Spans.{HasSpans};
ghost use Rattle.bz_canonical.specs.private.Places.{no_lines, span_named};

use crate::sealed::{SpannedRule, between};
use crate::spans::ArgumentSpan;

/// The lines of the first argument of a name in the text of a rule. There are none where it has no such argument: then
/// this is the place after all others.
#[derive(Clone, Copy)]
pub struct ArgumentPlace<'t> {
    pub before: &'t str,
    pub lines: &'t str,
    pub after: &'t str,
    /// Where the argument goes, the others keep the rule on lines: they are two at least.
    pub may_go: bool,
}

/// The place of the first argument that has the name at this position among those that are asked for. Where there is
/// none, it is after the last. None: the rule has one argument at most, or it is not in the chunk.
pub fn argument_place<'t>(
    chunk: &'t str,
    rule: SpannedRule<'t>,
    name: usize,
) -> Option<ArgumentPlace<'t>>
    ensures { IfSome result (λ place. (first depth : ℕ) (names : List (List ℕ)) (attr : List ℕ)
        (s : Statement)
        → HasSpans first depth names s chunk.now rule.entry.written.now rule.entry.spans.now
        → position (λ asked. bytes_eq asked attr) names ≡ Some name → HasPlace depth attr s (between place)) }
{
    // One argument alone may stand beside the brackets.
    if rule.spans.len() < 2 {
        return None;
    }
    let span = span_named(rule.spans, name);
    let lines = between(chunk, span.from, span.to)?;
    let (before, _) = rule.written.split_at_checked(span.start)?;
    let (_, after) = rule.written.split_at_checked(span.end)?;
    Some(ArgumentPlace {
        before,
        lines,
        after,
        may_go: rule.spans.len() > 2,
    })
}

/// At most one argument has the name at this position among those that are asked for.
pub fn has_once(spans: &[ArgumentSpan], name: usize) -> bool
    ensures { IsTrue result → (first depth : ℕ) (names : List (List ℕ)) (attr : List ℕ) (s : Statement)
        (chunk written : List ℕ) → HasSpans first depth names s chunk written spans.now
        → position (λ asked. bytes_eq asked attr) names ≡ Some name → HasOnce attr s }
{
    count_named(spans, name) <= 1
}

/// How many arguments have this name.
fn count_named(spans: &[ArgumentSpan], name: usize) -> usize
    ensures { result ≡ count_by (λ span. map_or false (λ index. index == name) span.named) spans.now }
{
    spans.iter().filter(|span| has_name(**span, name)).count()
}

/// The span of the first argument that has this name. Where there is none: one without lines, after the last.
fn span_named(spans: &[ArgumentSpan], name: usize) -> ArgumentSpan
    ensures { result ≡ span_named name (no_lines 0 0) spans.now }
{
    let mut after = no_lines(0, 0);
    for span in spans {
        if has_name(*span, name) {
            return *span;
        }
        after = no_lines(span.to, span.end);
    }
    after
}

fn has_name(span: ArgumentSpan, name: usize) -> bool
    ensures { result ≡ map_or false (λ index. index == name) span.named }
{
    match span.named {
        Some(index) => index == name,
        None => false,
    }
}

/// The span of no argument, at these places in the chunk and in what is written.
fn no_lines(at: usize, start: usize) -> ArgumentSpan
    ensures { result ≡ no_lines at start }
{
    ArgumentSpan {
        from: at,
        to: at,
        start,
        comma: start,
        end: start,
        named: None,
        sought: false,
    }
}
