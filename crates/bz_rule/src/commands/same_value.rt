//! Whether an attribute has the value already that it is set to.

ghost use Rattle.std.specs.Prelude.{◌≡◌, ◌≤◌, List, IfSome, drop, map, length, option_map, option_and_then};
ghost use Rattle.bz_tree.specs.Tree.{Item};
ghost use Rattle.bz_tree.specs.Rows.{RowPart, part_view};
ghost use Rattle.bz_attribute.specs.Elements.{ListRest, OnlyList, rest_parts, value_parts};
ghost use Rattle.bz_attribute.specs.Rules.{is_text};
ghost use Rattle.bz_rule.specs.private.SetViews.{new_view};
ghost use Rattle.bz_rule.specs.private.Steps as steps;
ghost use Rattle.bz_rule.specs.Set as spec;
ghost use Rattle.bz_rule.specs.private.ValueParts as parts;
ghost use Rattle.bz_label.specs.Values.{value_of};

use crate::commands::set::New;
use bz_attribute::next_element;
use bz_label::{Text, has_value};
use bz_token::Kind;
use bz_tree::Part;

/// The value is the new one already: strings are compared by their values, comments not at all. Its elements begin at
/// `list`, where it is one list.
pub fn is_value(new: New<'_>, parts: &[Part<'_>], value: usize, list: Option<usize>) -> bool
    requires value { value ≤ length parts.now }
    requires list { IfSome list (λ from. from ≤ length parts.now) }
    ensures { (nodes : List Item) (after : List RowPart)
        → drop value (map part_view parts.now) ≡ value_parts nodes after
        → OnlyList nodes after (map part_view parts.now) list
        → result ≡ spec.is_value (new_view new.entry) nodes }
{
    match (new, list) {
        (New::Strings(words), Some(from)) => are_strings(words, parts, from),
        (New::Strings(_), None) => false,
        _ => is_token(new, &parts[value..]),
    }
}

// The value is one token, which is the new one.
fn is_token(new: New<'_>, value: &[Part<'_>]) -> bool
    ensures { result ≡ spec.is_value (new_view new.entry) (parts.one_token (map part_view value.now)) }
{
    let [Part::Token(kind, text), Part::End, ..] = value else {
        return false;
    };
    match (new, kind) {
        (New::String(word), Kind::String) => has_value(text.as_bytes(), word.as_bytes()),
        (New::Number(word), Kind::Integer) | (New::Constant(word), Kind::Identifier) => *text
            == word,
        _ => false,
    }
}

// The elements from a place on are strings with these values, one for each word.
fn are_strings(words: &[Text], parts: &[Part<'_>], from: usize) -> bool
    requires { from ≤ length parts.now }
    ensures { (list : ListRest) (after : List RowPart)
        → drop from (map part_view parts.now) ≡ rest_parts list after
        → result ≡ steps.are_strings words.now list.elements }
{
    let mut at = from;
    for word in words {
        let Some(element) = next_element(parts, at) else {
            return false;
        };
        match element.string {
            Some(text) if has_value(text.as_bytes(), word.as_str().as_bytes()) => at = element.to,
            _ => return false,
        }
    }
    next_element(parts, at).is_none()
}
