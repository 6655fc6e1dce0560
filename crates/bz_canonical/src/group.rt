//! Groups that stand as they would be written.

ghost use Rattle.std.specs.Prelude.{◌≡◌, ◌+◌, ◌<◌, ◌∷◌, ◌++◌, ◌||◌, ◌&&◌, ℕ, [], IfSome, nat_le, true, false};
ghost use Rattle.bz_layout.specs.Broken.{breaks_by_count};
ghost use Rattle.bz_layout.specs.Layout.{has_commas};
ghost use Rattle.bz_layout.specs.Walked.{closing, opening};
ghost use Rattle.bz_canonical.specs.private.Segments.{IsGroupFront};

use crate::front::{after, after_line};
use crate::segments::{after_flat_segments, after_segments};
use crate::value::{Value, either};
use bz_tree::GroupKind;

/// The brackets that open and close a group of this kind.
#[inline(always)]
pub(crate) fn brackets(kind: GroupKind) -> (u8, u8)
    ensures { (opening kind ≡ result.0 ∷ []) × (closing kind ≡ result.1 ∷ []) }
{
    match kind {
        GroupKind::Call | GroupKind::RuleCall | GroupKind::Load | GroupKind::Paren => (b'(', b')'),
        GroupKind::List | GroupKind::Index | GroupKind::ListComp => (b'[', b']'),
        GroupKind::Dict | GroupKind::DictComp => (b'{', b'}'),
    }
}

/// Whether a group without comments stands on lines, by whether it has one segment, has two, and one of them holds a
/// group on lines.
pub(crate) fn breaks(kind: GroupKind, one: bool, two: bool, holds: bool) -> bool
    ensures { (n : ℕ) → one ≡ nat_le 1 n → two ≡ nat_le 2 n
        → result ≡ (breaks_by_count kind n || (nat_le 2 n && holds)) }
{
    match kind {
        GroupKind::List | GroupKind::RuleCall => two,
        GroupKind::Dict => one,
        _ => two && holds,
    }
}

/// What follows the group of this kind here. Its segments are one bracket deeper.
#[cycle(values)]
#[inline(always)]
pub(crate) fn after_group(kind: GroupKind, text: &[u8], level: u8, depth: u8) -> Option<Value<'_>>
    requires commas { (n : ℕ) → has_commas kind false n ≡ true }
    requires deep { level + depth < 255 }
    ensures { IfSome result (λ v. IsGroupFront kind level depth text.now v.rest.now v.holds) }
{
    if depth == 0 {
        return None;
    }
    let inside = after(text, brackets(kind).0)?;
    match inside {
        [b'\n', ..] => after_broken_group(kind, inside, level, depth - 1),
        _ => after_flat_group(kind, inside, level, depth - 1),
    }
}

/// What follows the group on lines here, its first bracket left out.
#[cycle(values)]
#[inline(never)]
pub(crate) fn after_broken_group(
    kind: GroupKind,
    inside: &[u8],
    level: u8,
    depth: u8,
) -> Option<Value<'_>>
    requires commas { (n : ℕ) → has_commas kind false n ≡ true }
    requires deep { level + depth + 1 < 255 }
    ensures { IfSome result (λ v. IsGroupFront kind level (depth + 1)
        (opening kind ++ inside.now) v.rest.now v.holds) }
{
    let read = after_segments(kind, inside, level + 1, depth)?;
    let many = breaks(kind, read.count >= 1, read.count >= 2, read.holds);
    let noted = either(read.noted, many);
    let broken = either(read.ended, noted);
    if !broken {
        return None;
    }
    let end = after_line(read.rest, level)?;
    let rest = after(end, brackets(kind).1)?;
    Some(Value { rest, holds: true })
}

/// What follows the group in place here, its first bracket left out.
#[cycle(values)]
#[inline(always)]
fn after_flat_group(kind: GroupKind, inside: &[u8], level: u8, depth: u8) -> Option<Value<'_>>
    requires { level + depth < 255 }
    ensures { IfSome result (λ v. IsGroupFront kind level (depth + 1)
        (opening kind ++ inside.now) v.rest.now v.holds) }
{
    let read = after_flat_segments(kind, inside, level, depth)?;
    let broken = breaks(kind, read.one, read.two, read.holds);
    if broken {
        return None;
    }
    let rest = after(read.rest, brackets(kind).1)?;
    Some(Value {
        rest,
        holds: read.holds,
    })
}
