//! `set` and `set_if_absent`: an attribute gets a value.

ghost use Rattle.std.specs.Prelude.{◌≡◌, None, false, is_some, not, map, IfOk};
ghost use Rattle.bz_token.specs.Common.{map_or};
ghost use Rattle.bz_tree.specs.Rows.{part_view};
ghost use Rattle.bz_attribute.specs.Effects.{has};
ghost use Rattle.bz_attribute.specs.Reports.{done};
ghost use Rattle.bz_attribute.specs.RowEdits.{IsRowEdit};
ghost use Rattle.bz_attribute.specs.Lists as lists;
ghost use Rattle.bz_attribute.specs.Rules as rules;
ghost use Rattle.bz_rule.specs.Set as spec;
ghost use Rattle.bz_rule.specs.Reports.{sets};
ghost use Rattle.bz_rule.specs.private.SetViews.{new_view};

use crate::commands::new_argument::{push_value, write_argument};
use crate::commands::same_value::is_value;
use bz_attribute::{
    Done, Edit, Parts, Place, find_argument, new_place, only_list, value_end, value_place,
};
use bz_label::Text;
use bz_memory::NoMemory;
use bz_tree::Part;
use std::alloc::Global;

/// What an attribute is set to.
#[derive(Clone, Copy)]
pub enum New<'w> {
    String(&'w str),
    /// An integer's digits.
    Number(&'w str),
    /// `True`, `False` or `None`.
    Constant(&'w str),
    /// A list of strings.
    Strings(&'w [Text]),
}

/// Sets the first argument of a name of the rule that has these parts, or adds one: what is new goes into `written`.
/// Where the value is there already nothing changes.
pub fn set<'a>(
    alloc: Global,
    attr: &str,
    words: &[Text],
    parts: &[Part<'a>],
    written: &mut Parts<'a>,
) -> Result<Edit, NoMemory>
    ensures { IfOk result (IsRowEdit (spec.set attr.now words.now)
        (λ args. done None (sets attr.now words.now (rules.first_named attr.now args)))
        (map part_view parts.now) (map part_view written.new.items)) }
{
    let Some(value) = value_place(parts, attr) else {
        write_argument(alloc, attr, words, written)?;
        return Ok(Edit::at(new_place(parts)));
    };
    let list = only_list(parts, value);
    let new = new_of(attr, words, list.is_some());
    if is_value(new, parts, value, list) {
        return Ok(Edit::none(Done::quiet(false)));
    }
    written.clear();
    push_value(alloc, new, written)?;
    Ok(Edit::at(Place {
        from: value,
        to: value_end(parts, value),
    }))
}

/// Adds an argument where the rule that has these parts has none of the name. It goes into `written`.
pub fn set_if_absent<'a>(
    alloc: Global,
    attr: &str,
    words: &[Text],
    parts: &[Part<'a>],
    written: &mut Parts<'a>,
) -> Result<Edit, NoMemory>
    ensures { IfOk result (IsRowEdit (spec.set_if_absent attr.now words.now)
        (λ args. done None (not (has attr.now args))) (map part_view parts.now)
        (map part_view written.new.items)) }
{
    if find_argument(parts, attr).is_some() {
        return Ok(Edit::none(Done::quiet(false)));
    }
    write_argument(alloc, attr, words, written)?;
    Ok(Edit::at(new_place(parts)))
}

// What the words stand for, where the attribute is one list or not.
pub(crate) fn new_of<'w>(attr: &str, words: &'w [Text], is_list: bool) -> New<'w>
    ensures { (arg : _) → map_or false (λ a. is_some (lists.only_list (rules.value a))) arg ≡ is_list
        → new_view result ≡ spec.new_of attr.now words.now arg }
{
    match words {
        [word] if attr == "name" => New::String(word.as_str()),
        [word] if !is_list && !is_list_attribute(attr) => new_word(word.as_str()),
        _ => New::Strings(words),
    }
}

// Whether the attribute is a list in all rules.
fn is_list_attribute(attr: &str) -> bool
    ensures { result ≡ spec.is_list_attribute attr.now }
{
    matches!(
        attr,
        "srcs"
            | "hdrs"
            | "textual_hdrs"
            | "deps"
            | "runtime_deps"
            | "exports"
            | "data"
            | "tools"
            | "outs"
            | "visibility"
            | "default_visibility"
            | "tags"
            | "copts"
            | "defines"
            | "includes"
            | "linkopts"
            | "features"
    )
}

fn new_word(word: &str) -> New<'_>
    ensures { new_view result ≡ spec.new_word word.now }
{
    match word {
        "True" | "False" | "None" => New::Constant(word),
        _ if is_number(word.as_bytes()) => New::Number(word),
        _ => New::String(word),
    }
}

// `0`, or digits that do not begin with 0.
fn is_number(word: &[u8]) -> bool
    ensures { result ≡ spec.is_number word.now }
{
    match word {
        [] => false,
        [b'0'] => true,
        [first, ..] => *first != b'0' && word.iter().all(u8::is_ascii_digit),
    }
}
