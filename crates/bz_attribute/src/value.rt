//! The value of an argument as a whole, by its parts: where it ends, and whether it is one string or one list.

ghost use Rattle.std.specs.Prelude.{◌≡◌, ◌<◌, ◌≤◌, ◌∷◌, option_map, IfSome, is_some, true, drop, map, length};
ghost use Rattle.bz_tree.specs.Rows.{part_view, segment_end};
ghost use Rattle.bz_attribute.specs.Elements.{ForValue, OnlyList};
ghost use Rattle.bz_attribute.specs.Lists.{only_list};
ghost use Rattle.bz_attribute.specs.Rules.{only_text};
ghost use Rattle.bz_attribute.specs.private.Parts as spec;

use crate::elements::{item_end, string_in};
use crate::place::parts_len;
use bz_tree::{GroupKind, Part};

/// Where a value ends.
#[tactic(auto, using(crate::proofs::OnlyLists::value_ended, crate::proofs::Slices::rest_seen))]
pub fn value_end(parts: &[Part<'_>], value: usize) -> usize
    requires { value ≤ length parts.now }
    ensures end { ForValue (map part_view parts.now) value
        (λ nodes after ps. drop result ps ≡ segment_end ∷ after) }
    ensures within { (value ≤ result) × (result ≤ length parts.now) }
{
    value + parts_len(&parts[value..], true)
}

fn begins_list(parts: &[Part<'_>]) -> bool
    ensures { result ≡ spec.begins_list (map part_view parts.now) }
{
    matches!(parts, [Part::Open(GroupKind::List), ..])
}

fn ends_value(parts: &[Part<'_>]) -> bool
    ensures { result ≡ spec.ends_value (map part_view parts.now) }
{
    matches!(parts, [Part::End, ..])
}

// The value that they begin with is one list.
pub(crate) fn is_one_list(parts: &[Part<'_>]) -> bool
    ensures told { ForValue (map part_view parts.now) 0
        (λ nodes after ps. result ≡ is_some (only_list nodes)) }
    ensures some { result ≡ true → 0 < length parts.now }
{
    begins_list(parts) && ends_value(&parts[item_end(parts, 0)..])
}

/// Where the elements of a value begin, where it is one list.
#[tactic(auto, using(crate::proofs::OnlyLists::only_there, crate::proofs::Slices::rest_seen))]
pub fn only_list(parts: &[Part<'_>], value: usize) -> Option<usize>
    requires { value ≤ length parts.now }
    ensures list { ForValue (map part_view parts.now) value
        (λ nodes after ps. OnlyList nodes after ps result) }
    ensures within { IfSome result (λ list. list ≤ length parts.now) }
{
    if !is_one_list(&parts[value..]) {
        return None;
    }
    Some(value + 1)
}

/// The text of a value, where it is one string token.
#[tactic(auto, using(crate::proofs::ListElements::text_told, crate::proofs::Slices::rest_seen))]
pub fn only_string<'a>(parts: &[Part<'a>], value: usize) -> Option<&'a str>
    requires { value ≤ length parts.now }
    ensures { ForValue (map part_view parts.now) value
        (λ nodes after ps. option_map (λ text. text.now) result ≡ only_text nodes) }
{
    string_in(&parts[value..])
}
