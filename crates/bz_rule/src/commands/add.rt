//! `add`: values that are missing go to the end of a list.

ghost use Rattle.std.specs.Prelude.{◌≡◌, ◌≤◌, List, map, length, IfOk, IfSome, OnOk};
ghost use Rattle.std.specs.List.{list_any};
ghost use Rattle.bz_tree.specs.Rows.{part_view};
ghost use Rattle.bz_tree.specs.Tree.{Segment};
ghost use Rattle.bz_attribute.specs.Elements.{AreLists};
ghost use Rattle.bz_attribute.specs.Lists.{equals};
ghost use Rattle.bz_attribute.specs.RowEdits.{IsRowEdit};
ghost use Rattle.bz_attribute.specs.Rules.{first_named};
ghost use Rattle.bz_rule.specs.private.ListPlaces.{HaveWritten};
ghost use Rattle.bz_rule.specs.Add as spec;
ghost use Rattle.bz_rule.specs.AddByValue as by_value;
ghost use Rattle.bz_rule.specs.Reports.{adds};
ghost use Rattle.bz_attribute.specs.Effects as effects;
ghost use Rattle.bz_attribute.specs.Reports.{done};

use crate::commands::list_place::{ListPlace, list_place};
use crate::commands::new_attribute::{close_attribute, open_attribute};
use bz_attribute::{
    Done, Edit, Env, FEW, Parts, Place, WordSet, elements_end, first_equal, is_one_of, labels_of,
    new_place, push_element,
};
use bz_label::{Bytes, Package, Text};
use bz_memory::NoMemory;
use bz_tree::Part;

/// Adds the values that are missing to the first argument of a name of the rule that has these parts, or a new one. The
/// new parts go into `written`.
pub fn add<'a>(
    env: Env<'_>,
    attr: &str,
    values: &[Text],
    parts: &[Part<'a>],
    written: &mut Parts<'a>,
) -> Result<Edit, NoMemory>
    ensures { IfOk result (IsRowEdit (spec.add env.entry.home.now attr.now values.now)
        (λ args. done (effects.no_list_note attr.now (first_named attr.now args))
        (adds env.entry.home.now values.now (first_named attr.now args)))
        (map part_view parts.now) (map part_view written.new.items)) }
{
    written.clear();
    match list_place(parts, attr) {
        ListPlace::Absent => {
            open_attribute(attr, written)?;
            write_missing(env, values, &[], None, written)?;
            close_attribute(written)?;
            Ok(Edit::at(new_place(parts)))
        }
        ListPlace::NoList => Ok(Edit::none(Done::not_a_list(env.alloc, attr)?)),
        ListPlace::At(list) => {
            write_missing(env, values, parts, Some(list), written)?;
            if written.is_empty() {
                return Ok(Edit::none(Done::quiet(false)));
            }
            let end = elements_end(parts, list);
            Ok(Edit::at(Place { from: end, to: end }))
        }
    }
}

// The elements for the values that are missing in some list parts. Of many values, each is looked up in a set of the
// values before it and of the elements that are among the values: no other element needs to be in it.
fn write_missing<'s>(
    env: Env<'s>,
    values: &'s [Text],
    parts: &[Part<'s>],
    list: Option<usize>,
    written: &mut Parts<'_>,
) -> Result<(), NoMemory>
    requires { IfSome list (λ from. from ≤ length parts.now) }
    ensures { OnOk result (HaveWritten env.entry.home.now values.now (map part_view parts.now) list
        (map part_view written.old.items) (map part_view written.new.items)) }
{
    if values.len() <= FEW {
        return write_few_missing(env, values, parts, list, written);
    }
    let words = WordSet::new(env.alloc, env.home, values)?;
    let mut labels = labels_of(env.alloc, env.home, Some(&words), parts, list)?;
    for word in values {
        if labels.insert(Bytes::Plain(word.as_str().as_bytes()))? {
            push_element(env.alloc, word.as_str(), written)?;
        }
    }
    Ok(())
}

// The elements for few values: each is compared with each element and with the values before it, without a set.
fn write_few_missing(
    env: Env<'_>,
    values: &[Text],
    parts: &[Part<'_>],
    list: Option<usize>,
    written: &mut Parts<'_>,
) -> Result<(), NoMemory>
    requires { IfSome list (λ from. from ≤ length parts.now) }
    ensures { OnOk result (HaveWritten env.entry.home.now values.now (map part_view parts.now) list
        (map part_view written.old.items) (map part_view written.new.items)) }
{
    for (index, value) in values.iter().enumerate() {
        let word = value.as_str();
        if is_fresh(env.home, word, &values[..index], parts, list) {
            push_element(env.alloc, word, written)?;
        }
    }
    Ok(())
}

// The word is missing in the list parts, and is none of the values before it.
fn is_fresh(
    home: &Package,
    word: &str,
    earlier: &[Text],
    parts: &[Part<'_>],
    list: Option<usize>,
) -> bool
    requires { IfSome list (λ from. from ≤ length parts.now) }
    ensures { (lists : List (List Segment)) → AreLists (map part_view parts.now) list lists
        → result ≡ by_value.is_fresh home.now lists earlier.now word.now }
{
    if is_there(home, word, parts, list) {
        return false;
    }
    !is_one_of(home, Bytes::Plain(word.as_bytes()), earlier)
}

// An element of the list parts equals the word.
fn is_there(home: &Package, word: &str, parts: &[Part<'_>], list: Option<usize>) -> bool
    requires { IfSome list (λ from. from ≤ length parts.now) }
    ensures { (lists : List (List Segment)) → AreLists (map part_view parts.now) list lists
        → result ≡ list_any (list_any (equals home.now word.now)) lists }
{
    match list {
        Some(from) => first_equal(home, word, parts, from).is_some(),
        None => false,
    }
}
