//! The first element of a value that equals a word.

ghost use Rattle.std.specs.Prelude.{◌≡◌, ◌≤◌, false, map, length, option_map, IfNone, IfSome, option_and_then};
ghost use Rattle.std.specs.List.{list_any};
ghost use Rattle.bz_tree.specs.Rows.{part_view};
ghost use Rattle.bz_attribute.specs.Elements.{ForRest, IsFirstEqual, elements_left};
ghost use Rattle.bz_attribute.specs.Lists.{equals};
ghost use Rattle.bz_label.specs.Same.{same};
ghost use Rattle.bz_attribute.specs.private.Parts.{HasSought};
ghost use Rattle.bz_label.specs.Labels as labels;
ghost use Rattle.bz_label.specs.Values.{value_of};
ghost use Rattle.bz_token.specs.Common.{map_or};

use crate::apart::literal_apart;
use crate::elements::{bare_string, next_of_value};
use crate::equals::text_equals;
use bz_label::Package;
use bz_tree::Part;

// Passes elements of a list part that are one string token each, without comments, as long as each is told apart from
// the word at once.
fn pass_apart(word: &str, parts: &[Part<'_>], from: usize) -> usize
    requires { from ≤ length parts.now }
    ensures sought { (home : labels.Package) → HasSought home word.now (map part_view parts.now) from result }
    ensures within { (from ≤ result) × (result ≤ length parts.now) }
{
    let mut at = from;
    while let Some(text) = bare_string(&parts[at..]) {
        if !literal_apart(text.as_bytes(), word.as_bytes()) {
            return at;
        }
        at += 2;
    }
    at
}

/// Where the nodes of the first element of a value begin that equals a word, from a place in a list part of it on.
pub fn first_equal(home: &Package, word: &str, parts: &[Part<'_>], from: usize) -> Option<usize>
    requires { from ≤ length parts.now }
    ensures some { IfSome result (λ at. ForRest (map part_view parts.now) from
        (λ rest after ps. IsFirstEqual home.now word.now rest after ps from at)) }
    ensures none { IfNone result (ForRest (map part_view parts.now) from
        (λ rest after ps. list_any (equals home.now word.now) (elements_left rest) ≡ false)) }
    ensures within { IfSome result (λ at. at ≤ length parts.now) }
{
    // Most elements are passed at once.
    let mut at = pass_apart(word, parts, from);
    while let Some(element) = next_of_value(parts, at) {
        if is_word(home, word, element.string) {
            return Some(element.token);
        }
        at = pass_apart(word, parts, element.to);
    }
    None
}

fn is_word(home: &Package, word: &str, string: Option<&str>) -> bool
    ensures { result ≡ map_or false (λ value. same home.now value word.now)
        (option_and_then value_of (option_map (λ text. text.now) string.entry)) }
{
    matches!(string, Some(text) if text_equals(home, text, word))
}
