//! Elements of a value that go or become another, and whether all go.

ghost use Rattle.std.specs.Prelude.{◌≡◌, ◌≤◌, ◌<◌, ◌++◌, List, is_some, map, length, drop, IfOk, OnOk};
ghost use Rattle.bz_tree.specs.Tree.{Item};
ghost use Rattle.bz_tree.specs.Rows.{RowPart, part_view};
ghost use Rattle.bz_attribute.specs.Effects.{loses_all};
ghost use Rattle.bz_attribute.specs.Elements.{value_parts};
ghost use Rattle.bz_rule.specs.private.StringEdits.{IsUpTo, become_all, literal_of, literal_parts, means, place_in, written_to};
ghost use Rattle.bz_rule.specs.private.ArgumentEdits as spec;

use crate::commands::rewriting::make_way;
use crate::commands::string_edit::StringEdit;
use bz_attribute::{
    Element, Parts, Place, first_list, next_element, next_of_value, only_list, push_string,
};
use bz_memory::NoMemory;
use bz_tree::Part;

// What makes way: an element that goes, or its string, which becomes another.
fn place_in(edit: StringEdit<'_, '_, '_>, element: Element<'_>) -> Place
    requires { element.token < element.to }
    ensures { result ≡ place_in (literal_of edit.entry)
        element.entry.from element.entry.token element.entry.to }
{
    match edit.new() {
        None => Place {
            from: element.from,
            to: element.to,
        },
        Some(_) => Place {
            from: element.token,
            to: element.token + 1,
        },
    }
}

// Writes the string that an element becomes, if it stays.
fn push_literal(edit: StringEdit<'_, '_, '_>, out: &mut Parts<'_>) -> Result<(), NoMemory>
    ensures { OnOk result (map part_view out.new.items ≡ map part_view out.old.items
        ++ literal_parts (literal_of edit.entry)) }
{
    match edit.new() {
        None => Ok(()),
        Some(value) => push_string(edit.env.alloc, value, out),
    }
}

/// Edits the elements of a value. Tells how far the value was read.
#[tactic(auto, using(crate::proofs::ElementEdits::no_list_there))]
pub fn edit_value<'a>(
    edit: StringEdit<'_, '_, '_>,
    parts: &[Part<'a>],
    value: usize,
    written: &mut Option<Place>,
    out: &mut Parts<'a>,
) -> Result<usize, NoMemory>
    requires { (value ≤ length parts.now) × IsUpTo written.now value }
    ensures within { IfOk result (λ at. at ≤ length parts.now) }
    ensures up_to { IfOk result (λ at. IsUpTo written.new at) }
    ensures edited { IfOk result (λ at. (nodes : List Item) (after : List RowPart)
        → drop value (map part_view parts.now) ≡ value_parts nodes after
        → spec.HasEditedValue (means edit.entry) (literal_of edit.entry) nodes after
        (drop at (map part_view parts.now))
        (is_some written.old) (is_some written.new)
        (written_to written.old (map part_view out.old.items) (map part_view parts.now) value)
        (written_to written.new (map part_view out.new.items) (map part_view parts.now) at)) }
{
    let Some(list) = first_list(parts, value) else {
        return Ok(value);
    };
    let mut at = list;
    while let Some(element) = next_of_value(parts, at) {
        if edit.means(element.string) {
            make_way(parts, place_in(edit, element), written, out)?;
            push_literal(edit, out)?;
        }
        at = element.to;
    }
    Ok(at)
}

/// The value of an argument is one list, and no element of it is left, where it has some.
#[tactic(auto, using(crate::proofs::EmptiedLists::no_list))]
pub fn loses_all(edit: StringEdit<'_, '_, '_>, parts: &[Part<'_>], value: usize) -> bool
    requires { value ≤ length parts.now }
    ensures { (nodes : List Item) (after : List RowPart)
        → drop value (map part_view parts.now) ≡ value_parts nodes after
        → result ≡ loses_all (become_all (means edit.entry) (literal_of edit.entry)) nodes }
{
    let None = edit.new() else {
        return false;
    };
    let Some(first) = only_list(parts, value) else {
        return false;
    };
    let mut at = first;
    while let Some(element) = next_element(parts, at) {
        if !edit.means(element.string) {
            return false;
        }
        at = element.to;
    }
    first < at
}
