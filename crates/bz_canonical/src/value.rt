//! Values that stand as they would be written: operands, their members and calls, and operators between them.

ghost use Rattle.std.specs.Prelude.{◌≡◌, ◌+◌, ◌<◌, ◌++◌, ◌||◌, ℕ, Bool, List, IfSome, false};
ghost use Rattle.bz_token.specs.declared.token.Kind.TheVariants.{String};
ghost use Rattle.bz_canonical.specs.private.Chains.{Chains, IsPrimaryFront, IsTermFront};
ghost use Rattle.bz_canonical.specs.private.Fronts.{IsTokenFront};
ghost use Rattle.bz_canonical.specs.private.Otherwise.{IsPrimaryWritten, IsValueWritten};
ghost use Rattle.bz_canonical.specs.private.Values.{AreNodesFront, IsValueFront};

use crate::front::{
    after, after_identifier, after_infix, after_number, after_simple_string, after_string,
};
use crate::group::after_group;
use bz_tree::GroupKind;

/// What follows a value. It is taken apart where it is passed on: a copy would have the bytes after `holds` in it, and
/// the processor waits for these.
#[derive(Clone, Copy)]
pub(crate) struct Value<'t> {
    pub(crate) rest: &'t [u8],
    /// It is a group on lines of its own, or holds one.
    pub(crate) holds: bool,
}

/// Whether one of two things holds that are known already. `||` in the middle of a function would be two ways through all
/// that follows, for the processor and for the proof.
pub(crate) fn either(a: bool, b: bool) -> bool
    ensures { result ≡ (a || b) }
{
    a || b
}

/// What follows the string, number or name here.
#[inline(always)]
pub(crate) fn after_leaf(text: &[u8]) -> Option<&[u8]>
    ensures front { IfSome result (λ rest. (level depth : ℕ) → IsValueFront level depth text.now rest.now false) }
    ensures written { IfSome result (λ rest. (w : List ℕ) × (text.now ≡ w ++ rest.now)
        × ((stands out depth : ℕ) → IsValueWritten stands out depth text.now rest.now w false)) }
{
    match text {
        [b'"', ..] => after_string(text),
        [b'0'..=b'9', ..] => after_number(text),
        _ => after_identifier(text),
    }
}

/// What follows the operand or call here. After a name or string there may be members and calls.
#[cycle(values)]
#[inline(always)]
fn after_term(text: &[u8], level: u8, depth: u8) -> Option<Value<'_>>
    requires { level + depth < 255 }
    ensures { IfSome result (λ v. IsTermFront level depth text.now v.rest.now v.holds) }
{
    match text {
        [b'[', ..] => {
            let Value { rest, holds } = after_group(GroupKind::List, text, level, depth)?;
            Some(Value { rest, holds })
        }
        [b'{', ..] => {
            let Value { rest, holds } = after_group(GroupKind::Dict, text, level, depth)?;
            Some(Value { rest, holds })
        }
        [b'0'..=b'9', ..] => {
            let rest = after_number(text)?;
            Some(Value { rest, holds: false })
        }
        _ => after_name_or_call(text, level, depth),
    }
}

/// What follows the string or name here, and its members and calls.
#[cycle(values)]
#[inline(always)]
fn after_name_or_call(text: &[u8], level: u8, depth: u8) -> Option<Value<'_>>
    requires { level + depth < 255 }
    ensures { IfSome result (λ v. IsTermFront level depth text.now v.rest.now v.holds) }
{
    let end = after_word_or_string(text)?;
    match end {
        [b'(', ..] => {
            let Value { rest, holds } = after_group(GroupKind::Call, end, level, depth)?;
            Some(Value { rest, holds })
        }
        [b'.', ..] => {
            let Value { rest, holds } = after_suffixes(end, level, depth)?;
            Some(Value { rest, holds })
        }
        _ => Some(Value {
            rest: end,
            holds: false,
        }),
    }
}

/// What follows the string or name here.
#[inline(always)]
pub(crate) fn after_word_or_string(text: &[u8]) -> Option<&[u8]>
    ensures front { IfSome result (λ rest. (level depth : ℕ) → IsPrimaryFront level depth text.now rest.now false) }
    ensures written { IfSome result (λ rest. (w : List ℕ) × (text.now ≡ w ++ rest.now)
        × ((stands out depth : ℕ) → IsPrimaryWritten stands out depth text.now rest.now w false)) }
{
    match text {
        [b'"', ..] => after_string(text),
        _ => after_identifier(text),
    }
}

/// What follows the members and calls here, after a string or name.
#[cycle(values)]
#[inline(never)]
fn after_suffixes(text: &[u8], level: u8, depth: u8) -> Option<Value<'_>>
    requires { level + depth < 255 }
    ensures { IfSome result (λ v. (all : List ℕ) → IsPrimaryFront level depth all text.now false
        → IsPrimaryFront level depth all v.rest.now v.holds) }
{
    let mut rest = text;
    let mut holds = false;
    for _ in 0..text.len() {
        if let Some(member) = after(rest, b'.') {
            rest = after_identifier(member)?;
            continue;
        }
        let [b'(', ..] = rest else {
            return Some(Value { rest, holds });
        };
        let call = after_group(GroupKind::Call, rest, level, depth)?;
        rest = call.rest;
        holds = either(holds, call.holds);
    }
    None
}

/// What follows the value here.
#[cycle(values)]
#[inline(always)]
pub(crate) fn after_nodes(text: &[u8], level: u8, depth: u8) -> Option<Value<'_>>
    requires { level + depth < 255 }
    ensures { IfSome result (λ v. AreNodesFront level depth text.now v.rest.now v.holds) }
{
    // Most values begin with a string alone, or a list of one.
    match after_short(text, depth) {
        Some(rest) => {
            let first = Value { rest, holds: false };
            let Value { rest, holds } = after_first(first, level, depth)?;
            Some(Value { rest, holds })
        }
        None => {
            let Value { rest, holds } = after_sum(text, level, depth)?;
            Some(Value { rest, holds })
        }
    }
}

/// What follows the string here, where no member of it follows, or the list in place of one string or none.
#[inline(always)]
fn after_short(text: &[u8], depth: u8) -> Option<&[u8]>
    ensures { IfSome result (λ rest. (level : ℕ) → IsTermFront level depth text.now rest.now false) }
{
    match text {
        [b'[', ..] => after_short_list(text, depth),
        _ => after_lone_string(text),
    }
}

/// What follows the string here, where no member of it follows.
#[inline(always)]
fn after_lone_string(text: &[u8]) -> Option<&[u8]>
    ensures { IfSome result (λ rest. IsTokenFront String text.now rest.now) }
{
    let rest = after_string(text)?;
    match rest {
        [b'.', ..] => None,
        _ => Some(rest),
    }
}

/// What follows the list here, in place, of one string or of none.
#[inline(always)]
fn after_short_list(text: &[u8], depth: u8) -> Option<&[u8]>
    ensures { IfSome result (λ rest. (level : ℕ) → IsTermFront level depth text.now rest.now false) }
{
    if depth == 0 {
        return None;
    }
    let inside = after(text, b'[')?;
    match after(inside, b']') {
        Some(rest) => Some(rest),
        None => {
            let string = after_simple_string(inside)?;
            let rest = after(string, b']')?;
            Some(rest)
        }
    }
}

/// What follows the operands here, with operators between them.
#[cycle(values)]
#[inline(never)]
fn after_sum(text: &[u8], level: u8, depth: u8) -> Option<Value<'_>>
    requires { level + depth < 255 }
    ensures { IfSome result (λ v. AreNodesFront level depth text.now v.rest.now v.holds) }
{
    let first = after_term(text, level, depth)?;
    let Value { rest, holds } = after_first(first, level, depth)?;
    Some(Value { rest, holds })
}

/// What follows the operands of which the first ends here.
#[cycle(values)]
#[inline(always)]
pub(crate) fn after_first(first: Value<'_>, level: u8, depth: u8) -> Option<Value<'_>>
    requires { level + depth < 255 }
    ensures { IfSome result (λ v. (all : List ℕ)
        → IsTermFront level depth all first.entry.rest.now first.entry.holds
        → AreNodesFront level depth all v.rest.now v.holds) }
{
    match after_infix(first.rest) {
        // Most are one operand.
        None => Some(Value {
            rest: first.rest,
            holds: first.holds,
        }),
        Some(operand) => {
            let Value { rest, holds } = after_operands(operand, first.holds, level, depth)?;
            Some(Value { rest, holds })
        }
    }
}

/// What follows the operands here, which follow others. `before`: one of those is a group on lines, or holds one.
#[cycle(values)]
#[inline(never)]
fn after_operands(text: &[u8], before: bool, level: u8, depth: u8) -> Option<Value<'_>>
    requires { level + depth < 255 }
    ensures { IfSome result (λ v. (all : List ℕ)
        → ((rest : List ℕ) (k : Bool) → IsTermFront level depth text.now rest k
        → Chains level depth all rest (before || k))
        → AreNodesFront level depth all v.rest.now v.holds) }
{
    let mut next = text;
    let mut holds = before;
    for _ in 0..text.len() {
        let read = after_term(next, level, depth)?;
        holds = either(holds, read.holds);
        let Some(operand) = after_infix(read.rest) else {
            return Some(Value {
                rest: read.rest,
                holds,
            });
        };
        next = operand;
    }
    None
}
