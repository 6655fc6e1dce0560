//! The list parts of a value and the elements of each, walked over among the parts of a rule: no tree and no memory.

ghost use Rattle.std.specs.Prelude.{◌≡◌, ◌≤◌, ◌<◌, ◌+◌, [], ◌&&◌, ◌||◌, true, false, map, length, option_map, IfNone, IfSome};
ghost use Rattle.std.specs.List.{list_all};
ghost use Rattle.bz_tree.specs.Rows.{part_view};
ghost use Rattle.bz_attribute.specs.Elements.{AreElementsTo, ForRest, ForValue, HasNoList, IsElementOf, IsListIn, IsNextElement, IsValueAt, elements_left};
ghost use Rattle.bz_attribute.specs.Effects.{has};
ghost use Rattle.bz_attribute.specs.RowPlaces.{ForRule};
ghost use Rattle.bz_attribute.specs.private.Parts as spec;
ghost use Rattle.bz_attribute.specs.Lists as lists;

use crate::finder::{find_argument, value_at};
use crate::place::{comments_begin, comments_len, parts_len, segment_len};
use crate::value::is_one_list;
use bz_token::Kind;
use bz_tree::{GroupKind, Part};

/// An element of a list part, among the parts of a rule.
#[derive(Clone, Copy)]
pub struct Element<'a> {
    /// Where it begins, with the comments above it.
    pub from: usize,
    /// Where its nodes begin, after the comments above it.
    pub token: usize,
    /// After its last part.
    pub to: usize,
    /// Its text, where it is one string token.
    pub string: Option<&'a str>,
}

/// Where the value of the first argument of a name begins.
pub fn value_place(parts: &[Part<'_>], name: &str) -> Option<usize>
    ensures some { IfSome result (λ at. ForRule (map part_view parts.now)
        (λ s r ps. IsValueAt name.now s r ps at)) }
    ensures none { IfNone result (ForRule (map part_view parts.now) (λ s r ps. has name.now r.args ≡ false)) }
    ensures within { IfSome result (λ at. at ≤ length parts.now) }
{
    let at = find_argument(parts, name)?;
    Some(parts.len().min(value_at(at)))
}

fn opens(part: &Part<'_>) -> bool
    ensures { result ≡ spec.is_open (part_view part.now) }
{
    matches!(part, Part::Open(_))
}

// Where the item ends that begins at a place: a token, or brackets with what stands in them.
#[tactic(auto, using(crate::proofs::ItemParts::token_ended, crate::proofs::ItemParts::group_ended, crate::proofs::Slices::rest_seen))]
pub(crate) fn item_end(parts: &[Part<'_>], at: usize) -> usize
    requires { at < length parts.now }
    ensures end { spec.ItemEnds (map part_view parts.now) at result }
    ensures within { (at < result) × (result ≤ length parts.now) }
{
    if !opens(&parts[at]) {
        return at + 1;
    }
    let close = at + 1 + parts_len(&parts[at + 1..], false);
    parts.len().min(close + 1)
}

// An item that begins with this part may stand in a value that has list parts.
fn may_be_in_sum(part: &Part<'_>) -> bool
    ensures { result ≡ spec.may_be_in_sum (part_view part.now) }
{
    match part {
        Part::Token(Kind::Keyword, _) => false,
        Part::Token(Kind::Operator, text) => matches!(*text, "+" | "."),
        _ => true,
    }
}

fn is_plus(part: &Part<'_>) -> bool
    ensures { result ≡ spec.is_plus (part_view part.now) }
{
    match part {
        Part::Token(Kind::Operator, text) => *text == "+",
        _ => false,
    }
}

fn opens_list(part: &Part<'_>) -> bool
    ensures { result ≡ spec.opens_list (part_view part.now) }
{
    matches!(part, Part::Open(GroupKind::List))
}

#[inline(always)]
fn is_end(part: &Part<'_>) -> bool
    ensures { result ≡ spec.is_end (part_view part.now) }
{
    matches!(part, Part::End)
}

// A piece of a value ends there.
fn ends_piece(parts: &[Part<'_>]) -> bool
    ensures { result ≡ spec.ends_piece (map part_view parts.now) }
{
    match parts {
        [] => true,
        [part, ..] => is_end(part) || is_plus(part),
    }
}

// All that stands in a value at depth 0 may stand in one that has list parts.
#[tactic(auto, using(crate::proofs::ListWalk::all_joints, crate::proofs::ListWalk::joints_pass, crate::proofs::ListWalk::no_joint))]
fn are_joints(parts: &[Part<'_>], from: usize) -> bool
    requires { from ≤ length parts.now }
    ensures { ForValue (map part_view parts.now) from
        (λ nodes after ps. result ≡ list_all lists.may_be_in_sum nodes) }
{
    let mut at = from;
    while at < parts.len() && !is_end(&parts[at]) {
        if !may_be_in_sum(&parts[at]) {
            return false;
        }
        at = item_end(parts, at);
    }
    true
}

// Where the elements of the next list part begin: `whole` says whether these are all nodes of a value, or those after
// a list part of it.
fn list_from(parts: &[Part<'_>], from: usize, whole: bool) -> Option<usize>
    requires { from ≤ length parts.now }
    ensures some { IfSome result (λ to. ForValue (map part_view parts.now) from (λ nodes after ps.
        (whole ≡ true → list_all lists.may_be_in_sum nodes ≡ true) → IsListIn whole nodes after ps from to)) }
    ensures none { IfNone result (ForValue (map part_view parts.now) from (λ nodes after ps.
        (whole ≡ true → list_all lists.may_be_in_sum nodes ≡ true) → HasNoList whole nodes)) }
    ensures within { IfSome result (λ to. (from < to) × (to ≤ length parts.now)) }
{
    let mut at = from;
    let mut starts = whole;
    while at < parts.len() && !is_end(&parts[at]) {
        let end = item_end(parts, at);
        if starts && opens_list(&parts[at]) && ends_piece(&parts[end..]) {
            return Some(at + 1);
        }
        starts = is_plus(&parts[at]);
        at = end;
    }
    None
}

/// Where the elements of the first list part of a value begin.
#[tactic(auto, using(crate::proofs::ListWalk::only_here, crate::proofs::Slices::rest_seen))]
pub fn first_list(parts: &[Part<'_>], value: usize) -> Option<usize>
    requires { value ≤ length parts.now }
    ensures some { IfSome result (λ to. ForValue (map part_view parts.now) value
        (λ nodes after ps. IsListIn true nodes after ps value to)) }
    ensures none { IfNone result (ForValue (map part_view parts.now) value
        (λ nodes after ps. HasNoList true nodes)) }
    ensures within { IfSome result (λ to. (value < to) × (to ≤ length parts.now)) }
{
    // Most values are one list.
    if is_one_list(&parts[value..]) {
        return Some(value + 1);
    }
    if !are_joints(parts, value) {
        return None;
    }
    list_from(parts, value, true)
}

/// Where the elements of the next list part begin, after one whose elements end at a place.
pub fn next_list(parts: &[Part<'_>], at: usize) -> Option<usize>
    requires { at ≤ length parts.now }
    ensures some { IfSome result (λ to. ForRest (map part_view parts.now) at (λ rest after ps.
        rest.elements ≡ [] → IsListIn false rest.items after ps (at + length rest.end + 1) to)) }
    ensures none { IfNone result (ForRest (map part_view parts.now) at
        (λ rest after ps. rest.elements ≡ [] → HasNoList false rest.items)) }
    ensures within { IfSome result (λ to. (at < to) × (to ≤ length parts.now)) }
{
    let close = at + comments_len(&parts[at..]);
    if close == parts.len() {
        return None;
    }
    list_from(parts, close + 1, false)
}

// The elements of a list end there.
#[inline(always)]
pub(crate) fn ends_list(parts: &[Part<'_>]) -> bool
    ensures { result ≡ spec.ends_list (map part_view parts.now) }
{
    matches!(parts, [] | [Part::Close(_), ..])
}

// The text of the segment that they begin with, where it is one string token.
#[inline(always)]
pub(crate) fn string_in<'a>(parts: &[Part<'a>]) -> Option<&'a str>
    ensures { option_map (λ text. text.now) result ≡ spec.string_in (map part_view parts.now) }
{
    match parts {
        [Part::Token(Kind::String, text), Part::End, ..] => Some(*text),
        _ => None,
    }
}

/// The element that begins at a place in a list part. None: its elements end there.
#[tactic(auto, using(crate::proofs::ListElements::none_left, crate::proofs::ListElements::element_there, crate::proofs::Slices::rest_seen))]
pub fn next_element<'a>(parts: &[Part<'a>], at: usize) -> Option<Element<'a>>
    requires { at ≤ length parts.now }
    ensures some { IfSome result (λ e. ForRest (map part_view parts.now) at (λ rest after ps.
        IsElementOf rest after ps at e.token e.to (option_map (λ text. text.now) e.string))) }
    ensures none { IfNone result (ForRest (map part_view parts.now) at
        (λ rest after ps. rest.elements ≡ [])) }
    ensures from { IfSome result (λ e. e.from ≡ at) }
    ensures within { IfSome result (λ e. (at ≤ e.token) × ((e.token < e.to) × (e.to ≤ length parts.now))) }
{
    let token = at + comments_len(&parts[at..]);
    let rest = &parts[token..];
    if ends_list(rest) {
        return None;
    }
    Some(Element {
        from: at,
        token,
        to: token + segment_len(rest),
        string: string_in(rest),
    })
}

/// The text of the element that they begin with, where it is one string token without comments: its parts are two.
#[inline(always)]
pub(crate) fn bare_string<'a>(parts: &[Part<'a>]) -> Option<&'a str>
    ensures text { option_map (λ text. text.now) result ≡ spec.bare_string (map part_view parts.now) }
    ensures within { IfSome result (λ text. 2 ≤ length parts.now) }
{
    match parts {
        [Part::Token(Kind::String, text), Part::End, next, ..] => match next {
            Part::Beside(_) => None,
            _ => Some(*text),
        },
        _ => None,
    }
}

/// Where the elements of a list part end, which begin at a place.
pub fn elements_end(parts: &[Part<'_>], from: usize) -> usize
    requires { from ≤ length parts.now }
    ensures elements { ForRest (map part_view parts.now) from
        (λ rest after ps. AreElementsTo rest ps from result) }
    ensures within { (from ≤ result) × (result ≤ length parts.now) }
{
    let rest = &parts[from..];
    let close = parts_len(rest, false);
    from + comments_begin(&rest[..close])
}

/// The next element of a value, from a place in a list part of it on. None: no element is left in any.
#[tactic(auto, using(crate::proofs::ValueElements::next_here))]
pub fn next_of_value<'a>(parts: &[Part<'a>], at: usize) -> Option<Element<'a>>
    requires { at ≤ length parts.now }
    ensures some { IfSome result (λ e. ForRest (map part_view parts.now) at (λ rest after ps.
        IsNextElement rest after ps at e.from e.token e.to (option_map (λ text. text.now) e.string))) }
    ensures none { IfNone result (ForRest (map part_view parts.now) at
        (λ rest after ps. elements_left rest ≡ [])) }
    ensures within { IfSome result
        (λ e. (at ≤ e.from) × ((e.from ≤ e.token) × ((e.token < e.to) × (e.to ≤ length parts.now)))) }
{
    let element = next_element(parts, at);
    if element.is_some() {
        return element;
    }
    let mut end = at;
    while let Some(from) = next_list(parts, end) {
        let element = next_element(parts, from);
        if element.is_some() {
            return element;
        }
        end = from;
    }
    None
}
