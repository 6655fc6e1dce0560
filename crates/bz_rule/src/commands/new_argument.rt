//! The parts of a new argument, and of the value that it is set to.

ghost use Rattle.std.specs.Prelude.{◌≡◌, ◌++◌, ◌∷◌, [], None, OnOk, map};
ghost use Rattle.bz_tree.specs.Tree.{items_of, segs_of};
ghost use Rattle.bz_tree.specs.Rows.{items_parts, part_view, segs_parts};
ghost use Rattle.bz_attribute.specs.Effects.{argument, list_item, string};
ghost use Rattle.bz_rule.specs.private.SetViews.{new_view};
ghost use Rattle.bz_rule.specs.Set as spec;

use crate::commands::set::{New, new_of};
use bz_attribute::{Parts, begin_argument, push_element, push_string, push_token};
use bz_label::Text;
use bz_memory::{NoMemory, push};
use bz_token::Kind;
use bz_tree::{GroupKind, Part};
use std::alloc::Global;

/// Writes the parts of an argument that is new and is set to some words, in place of what the list holds.
pub fn write_argument<'a>(
    alloc: Global,
    attr: &str,
    words: &[Text],
    new: &mut Parts<'a>,
) -> Result<(), NoMemory>
    ensures { OnOk result (map part_view new.new.items
        ≡ segs_parts (segs_of (argument attr.now
        (spec.new_value (spec.new_of attr.now words.now None)) ∷ []))) }
{
    new.clear();
    begin_argument(attr, new)?;
    push_value(alloc, new_of(attr, words, false), new)?;
    push(new, Part::End)
}

/// Appends the parts of a value.
pub(crate) fn push_value<'a>(
    alloc: Global,
    value: New<'_>,
    new: &mut Parts<'a>,
) -> Result<(), NoMemory>
    ensures { OnOk result (map part_view new.new.items
        ≡ map part_view new.old.items ++ items_parts (items_of (spec.new_value (new_view value.entry)))) }
{
    match value {
        New::String(word) => push_string(alloc, word, new),
        New::Number(digits) => push_token(Kind::Integer, digits, new),
        New::Constant(name) => push_token(Kind::Identifier, name, new),
        New::Strings(words) => push_list(alloc, words, new),
    }
}

// Appends the parts of a list of strings.
fn push_list<'a>(alloc: Global, words: &[Text], new: &mut Parts<'a>) -> Result<(), NoMemory>
    ensures { OnOk result (map part_view new.new.items
        ≡ map part_view new.old.items ++ items_parts (items_of (list_item (map string words.now) ∷ []))) }
{
    push(new, Part::Open(GroupKind::List))?;
    for word in words {
        push_element(alloc, word.as_str(), new)?;
    }
    push(new, Part::Close(false))
}
