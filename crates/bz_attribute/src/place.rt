//! Where the kind of a rule, the argument of a name and all arguments stand among its parts, and where a new one goes.

ghost use Rattle.std.specs.Prelude.{◌≡◌, ◌≤◌, ℕ, List, false, map, length};
ghost use Rattle.bz_tree.specs.Rows.{part_view};
ghost use Rattle.bz_attribute.specs.Effects.{has};
ghost use Rattle.bz_attribute.specs.RowPlaces.{ForRule, IsKindPlace, IsPlaceOf, IsPlaceOfAll, arguments_begin};
ghost use Rattle.bz_attribute.specs.private.Parts as spec;

use crate::finder::find_argument;
use bz_tree::Part;

/// A range of the parts of a rule.
#[derive(Clone, Copy)]
pub struct Place {
    pub from: usize,
    /// After the last of them.
    pub to: usize,
}

// How many parts stand before the bracket that closes, or where `at_end` before the end of the first segment.
pub(crate) fn parts_len(parts: &[Part<'_>], at_end: bool) -> usize
    ensures len { result ≡ spec.parts_len at_end 0 (map part_view parts.now) }
    ensures within { result ≤ length parts.now }
{
    let mut depth: usize = 0;
    let mut count = 0;
    while count < parts.len() {
        match parts[count] {
            Part::End if at_end && depth == 0 => return count,
            Part::Close(_) if depth == 0 => return count,
            Part::Open(_) => depth += 1,
            Part::Close(_) => depth -= 1,
            _ => {}
        }
        count += 1;
    }
    count
}

// The end of a segment, and the comment beside it.
fn end_len(parts: &[Part<'_>]) -> usize
    ensures len { result ≡ spec.end_len (map part_view parts.now) }
    ensures within { result ≤ length parts.now }
{
    match parts {
        [] => 0,
        [Part::End, Part::Beside(_), ..] => 2,
        _ => 1,
    }
}

// How many comments the parts begin with.
#[inline(always)]
pub(crate) fn comments_len(parts: &[Part<'_>]) -> usize
    ensures len { result ≡ spec.above_len (map part_view parts.now) }
    ensures within { result ≤ length parts.now }
{
    let mut count = 0;
    while count < parts.len() && is_above(parts[count]) {
        count += 1;
    }
    count
}

// How many parts the segment has that they begin with.
#[inline(always)]
pub(crate) fn segment_len(parts: &[Part<'_>]) -> usize
    ensures len { result ≡ spec.segment_len (map part_view parts.now) }
    ensures within { result ≤ length parts.now }
{
    match parts {
        // Most elements are one token.
        [Part::Token(_, _), Part::End, after @ ..] => 2 + besides(after),
        // Many arguments are a name, an equals sign and one token.
        [
            Part::Token(_, _),
            Part::Token(_, _),
            Part::Token(_, _),
            Part::End,
            after @ ..,
        ] => 4 + besides(after),
        _ => long_segment_len(parts),
    }
}

#[inline(never)]
#[tactic(auto, using(crate::proofs::Slices::rest_seen))]
fn long_segment_len(parts: &[Part<'_>]) -> usize
    ensures len { result ≡ spec.segment_len (map part_view parts.now) }
    ensures within { result ≤ length parts.now }
{
    let nodes = parts_len(parts, true);
    nodes + end_len(&parts[nodes..])
}

fn is_above(part: Part<'_>) -> bool
    ensures { result ≡ spec.is_above (part_view part.entry) }
{
    matches!(part, Part::Above(_))
}

// How many parts stand before the comments with which they end.
#[tactic(auto, using(crate::proofs::EndsBack::last_plain_at, crate::proofs::EndsBack::all_comments))]
pub(crate) fn comments_begin(parts: &[Part<'_>]) -> usize
    ensures begin { result ≡ spec.plain_len (map part_view parts.now) }
    ensures within { result ≤ length parts.now }
{
    let mut at = parts.len();
    while at > 0 && is_above(parts[at - 1]) {
        at -= 1;
    }
    at
}

// A segment ends, or a bracket opens.
#[inline(always)]
fn is_stop(part: Part<'_>) -> bool
    ensures { result ≡ spec.is_stop (part_view part.entry) }
{
    matches!(part, Part::End | Part::Open(_))
}

// How many comments stand beside the segment that ends before these parts.
#[inline(always)]
fn besides(parts: &[Part<'_>]) -> usize
    ensures { result ≡ spec.besides (map part_view parts.now) }
{
    match parts {
        [Part::Beside(_), ..] => 1,
        _ => 0,
    }
}

// How many parts of a rule there are up to the end of its last argument, with the comment beside that.
#[tactic(auto, using(crate::proofs::EndsBack::no_stop))]
fn arguments_end(parts: &[Part<'_>]) -> usize
    ensures end { result ≡ spec.arguments_end (map part_view parts.now) }
    ensures within { result ≤ length parts.now }
{
    let mut at = parts.len();
    while at > 0 {
        if is_stop(parts[at - 1]) {
            return at + besides(&parts[at..]);
        }
        at -= 1;
    }
    0
}

/// Where an argument goes whose name no argument of the rule has: after the last one.
pub fn new_place(parts: &[Part<'_>]) -> Place
    ensures within { (result.from ≤ result.to) × (result.to ≤ length parts.now) }
    ensures place { (name : List ℕ) → ForRule (map part_view parts.now)
        (λ s r ps. has name r.args ≡ false → IsPlaceOf name s r ps result.from result.to) }
{
    let end = arguments_end(parts);
    Place { from: end, to: end }
}

/// Where the first argument of a name stands among the parts of a rule: from the comments above it up to the one beside
/// it. Where none has the name, it is an empty place after the last argument.
pub fn argument_place(parts: &[Part<'_>], name: &str) -> Place
    ensures within { (result.from ≤ result.to) × (result.to ≤ length parts.now) }
    ensures place { ForRule (map part_view parts.now)
        (λ s r ps. IsPlaceOf name.now s r ps result.from result.to) }
{
    match find_argument(parts, name) {
        Some(at) => Place {
            from: comments_begin(&parts[..at]),
            to: at + segment_len(&parts[at..]),
        },
        None => new_place(parts),
    }
}

// How many parts there are up to the first bracket that opens, with it.
pub(crate) fn arguments_begin(parts: &[Part<'_>]) -> usize
    ensures begin { result ≡ arguments_begin (map part_view parts.now) }
    ensures within { result ≤ length parts.now }
{
    for i in 0..parts.len() {
        if let Part::Open(_) = parts[i] {
            return i + 1;
        }
    }
    parts.len()
}

/// Where all arguments of a rule stand among its parts.
pub fn all_arguments(parts: &[Part<'_>]) -> Place
    ensures within { (result.from ≤ result.to) × (result.to ≤ length parts.now) }
    ensures place { ForRule (map part_view parts.now) (λ s r ps. IsPlaceOfAll s r ps result.from result.to) }
{
    let from = arguments_begin(parts);
    let to = from.max(arguments_end(parts));
    Place { from, to }
}

// How many tokens they begin with.
pub(crate) fn tokens_len(parts: &[Part<'_>]) -> usize
    ensures len { result ≡ spec.tokens_len (map part_view parts.now) }
    ensures within { result ≤ length parts.now }
{
    let mut rest = parts;
    while let [Part::Token(_, _), after @ ..] = rest {
        rest = after;
    }
    parts.len() - rest.len()
}

/// Where the tokens of the kind stand among the parts of a rule: after the comments above it.
pub fn kind_place(parts: &[Part<'_>]) -> Place
    ensures within { (result.from ≤ result.to) × (result.to ≤ length parts.now) }
    ensures place { ForRule (map part_view parts.now) (λ s r ps. IsKindPlace s r ps result.from result.to) }
{
    let from = comments_len(parts);
    Place {
        from,
        to: from + tokens_len(&parts[from..]),
    }
}
