//! Values that are looked for in an argument whose value is one list of strings, by the lines of the argument.

ghost use Rattle.std.specs.Prelude.{◌≡◌, ◌<◌, ◌∷◌, IfSome, IsTrue, false, true};
ghost use Rattle.bz_canonical.specs.Added.{AreInLines};
ghost use Rattle.bz_canonical.specs.Canonical.{read_alone};
ghost use Rattle.bz_canonical.specs.private.Added.{is_value, is_word};
ghost use Rattle.bz_canonical.specs.private.Arguments.{IsHeadRead};

use crate::arguments::read_argument_name;
use crate::front::{after, are_same};
use crate::lists::{after_elements, is_last, is_on_lines, read_element};
use crate::value::either;
use bz_attribute::equals::text_equals;
use bz_attribute::literal_apart;
use bz_label::{Package, Text};
use bz_rule::forms::AttributeValues;
use bz_token::check_utf8;

// The argument is in two brackets, its own and the rule's.
pub(crate) const BRACKETS: u8 = 2;

/// The value of the argument that has these lines is one list of strings, none of which equals one of the values
/// (`execute_on_list` of bz_engine asks, for `remove` and `replace`). False: it may be so or not.
pub fn lacks(home: &Package, lines: &str, sought: AttributeValues<'_>, max_depth: u8) -> bool
    ensures { IsTrue result → AreInLines (read_alone max_depth home.now lines.now) sought.entry false }
{
    are_in(home, lines, sought, max_depth, false) == Some(false)
}

/// Whether the value of the argument that has these lines is one list of strings, one of which equals one of the values.
/// None: it is not known, or one does, where the list is not read `to_end`.
pub(crate) fn are_in(
    home: &Package,
    lines: &str,
    sought: AttributeValues<'_>,
    max_depth: u8,
    to_end: bool,
) -> Option<bool>
    ensures { IfSome result (AreInLines (read_alone max_depth home.now lines.now) sought.entry) }
{
    let inside = list_of(lines.as_bytes(), sought.attr.as_bytes(), max_depth)?;
    let on_lines = is_on_lines(inside);
    let mut rest = inside;
    let mut one = false;
    let mut there = false;
    for _ in 0..inside.len() {
        if let Some(end) = after_elements(rest, on_lines) {
            if !is_last(end) {
                return None;
            }
            return Some(there);
        }
        let next = read_element(rest, on_lines, one)?;
        let equal = is_word(home, next.string.token, sought.values)?;
        if !either(to_end, !equal) {
            return None;
        }
        let both = either(there, equal);
        there = both;
        rest = next.rest;
        one = true;
    }
    None
}

/// What follows the bracket of the list that is the value of the argument here.
pub(crate) fn list_of<'t>(text: &'t [u8], attr: &[u8], max_depth: u8) -> Option<&'t [u8]>
    ensures deep { IfSome result (λ inside. 1 < max_depth) }
    ensures head { IfSome result (λ inside. IsHeadRead attr.now text.now (91 ∷ inside.now) true) }
{
    if max_depth < BRACKETS {
        return None;
    }
    let read = read_argument_name(text)?;
    if !are_same(attr, read.name) {
        return None;
    }
    let inside = after(read.value, b'[')?;
    Some(inside)
}

/// The string equals one of the words. None: it is not known.
#[inline(always)]
pub(crate) fn is_word(home: &Package, token: &[u8], words: &[Text]) -> Option<bool>
    ensures { IfSome result (λ equal. equal ≡ is_word home.now words.now token.now) }
{
    for word in words {
        if is_value(home, token, word.as_str())? {
            return Some(true);
        }
    }
    Some(false)
}

/// The string equals the value. None: it is not known.
#[inline(always)]
fn is_value(home: &Package, token: &[u8], value: &str) -> Option<bool>
    ensures { IfSome result (λ equal. equal ≡ is_value home.now value.now token.now) }
{
    if literal_apart(token, value.as_bytes()) {
        return Some(false);
    }
    let Ok(literal) = check_utf8(token) else {
        return None;
    };
    Some(text_equals(home, literal, value))
}
