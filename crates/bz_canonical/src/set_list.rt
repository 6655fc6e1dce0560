//! Values that an argument is set to whose value is one list of strings, by the lines of the argument.

ghost use Rattle.std.specs.Prelude.{◌≡◌, ◌++◌, map, option_map, IfOk, IfSome, IsTrue, OnOk};
ghost use Rattle.bz_token.specs.declared.token.Kind.TheVariants.{String};
ghost use Rattle.bz_layout.specs.Respell.{respell};
ghost use Rattle.bz_canonical.specs.SetList.{SetsInLines};
ghost use Rattle.bz_canonical.specs.private.Elements.{element_lines};
ghost use Rattle.bz_canonical.specs.private.NewValues.{new_element};
ghost use Rattle.bz_canonical.specs.private.SetList.{IsListCompared, PutsValues, left_after, none_left};

use crate::added::put_line;
use crate::arguments::Pending;
use crate::edited::{EditedList, Passed, PassedList, end_list};
use crate::found_value::list_of;
use crate::front::before;
use crate::lists::{after_elements, is_last, is_on_lines, read_element};
use bz_label::{Text, has_value, quote};
use bz_memory::{NoMemory, extend_from_slice};
use bz_rule::forms::AttributeValues;
use std::alloc::Global;

/// What `set` makes of the argument that has these lines, where its value is one list of strings (`execute_on_list` of
/// bz_engine asks). `Unchanged`: the strings have these values, one by one. `Written`: they do not, and the lines are in
/// the buffer, after its bytes, with a list of the values, which has no comments. None: it may be no such list, or it
/// becomes none. Without `Written` nothing is said of the buffer's bytes. Err: memory is wanting.
pub fn put_set_list(
    alloc: Global,
    lines: &str,
    new: AttributeValues<'_>,
    max_depth: u8,
    written: &mut Vec<u8>,
) -> Result<Option<EditedList>, NoMemory>
    ensures { IfOk result (λ known. IfSome known
        (SetsInLines max_depth lines.now new.entry written.old.items written.new.items)) }
{
    // A name is a string, whatever is there.
    if new.attr == "name" {
        return Ok(None);
    }
    let Some(list) = compare_list(lines, new, max_depth) else {
        return Ok(None);
    };
    if list.same {
        return Ok(Some(EditedList::Unchanged));
    }
    let Some(head) = before(lines.as_bytes(), list.inside.len()) else {
        return Ok(None);
    };
    extend_from_slice(written, head)?;
    if !put_values(alloc, new.values, list.end, written)? {
        return Ok(None);
    }
    Ok(Some(EditedList::Written))
}

/// A list whose elements were compared with values.
#[derive(Clone, Copy)]
pub(crate) struct ComparedList<'t> {
    /// What follows its first bracket.
    inside: &'t [u8],
    /// What follows its last.
    end: &'t [u8],
    /// The elements have the values, one by one.
    same: bool,
}

/// Compares the elements of the list that is the value of the argument here. None: it may be no list of strings.
fn compare_list<'t>(
    lines: &'t str,
    new: AttributeValues<'_>,
    max_depth: u8,
) -> Option<ComparedList<'t>>
    ensures { IfSome result (IsListCompared max_depth new.entry lines.now) }
{
    let inside = list_of(lines.as_bytes(), new.attr.as_bytes(), max_depth)?;
    let on_lines = is_on_lines(inside);
    let mut rest = inside;
    let mut one = false;
    let mut left = Some(new.values);
    for _ in 0..inside.len() {
        if let Some(end) = after_elements(rest, on_lines) {
            if !is_last(end) {
                return None;
            }
            let same = none_left(left);
            return Some(ComparedList { inside, end, same });
        }
        let next = read_element(rest, on_lines, one)?;
        left = left_after(left, next.string.token);
        rest = next.rest;
        one = true;
    }
    None
}

/// The values that are left after that of a string, where it has the first of them. None: one has not its value.
#[inline(always)]
fn left_after<'c>(left: Option<&'c [Text]>, token: &[u8]) -> Option<&'c [Text]>
    ensures { option_map (λ values. values.now) result
        ≡ left_after (option_map (λ values. values.now) left.entry) token.now }
{
    match left {
        Some([value, others @ ..]) if has_value(token, value.as_str().as_bytes()) => Some(others),
        _ => None,
    }
}

/// No value is left, and each string has had its own.
#[inline(always)]
fn none_left(left: Option<&[Text]>) -> bool
    ensures { result ≡ none_left (option_map (λ values. values.now) left.entry) }
{
    matches!(left, Some([]))
}

/// Writes a list of strings with these values, but for its first bracket, which the buffer ends with, and then what
/// follows it. False: there is no value.
fn put_values(
    alloc: Global,
    values: &[Text],
    end: &[u8],
    written: &mut Vec<u8>,
) -> Result<bool, NoMemory>
    ensures { IfOk result (λ put. IsTrue put
        → PutsValues values.now end.now written.old.items written.new.items) }
{
    if values.is_empty() {
        return Ok(false);
    }
    let start = written.len();
    put_lines(alloc, values, written)?;
    let at = Pending {
        from: end,
        rest: end,
    };
    let passed = Passed {
        broken: values.len() > 1,
        ..Passed::none(at)
    };
    end_list(PassedList { passed, end, start }, written)
}

/// Writes strings with these values as new elements, each on a line of its own.
fn put_lines(alloc: Global, values: &[Text], written: &mut Vec<u8>) -> Result<(), NoMemory>
    ensures { OnOk result (written.new.items ≡ written.old.items
        ++ element_lines (respell String) (map new_element values.now)) }
{
    for value in values {
        let literal = quote(alloc, value.as_str())?;
        put_line(literal.as_bytes(), written)?;
    }
    Ok(())
}
