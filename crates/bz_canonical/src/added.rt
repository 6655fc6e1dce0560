//! Values that are added to an argument whose value is one list of strings, by the lines of the argument, or in a new
//! argument.

ghost use Rattle.std.specs.Prelude.{◌≡◌, ◌++◌, ◌∷◌, [], List, IfOk, IfSome, IsTrue, OnOk};
ghost use Rattle.bz_tree.specs.Tree.{Segment};
ghost use Rattle.bz_label.specs.Values.{quoted};
ghost use Rattle.bz_layout.specs.Pieces.{indent};
ghost use Rattle.bz_rule.specs.Add.{add};
ghost use Rattle.bz_rule.specs.AddByValue.{is_fresh};
ghost use Rattle.bz_canonical.specs.Added.{AddsToLines};
ghost use Rattle.bz_canonical.specs.Canonical.{argument_lines, read_alone};
ghost use Rattle.bz_canonical.specs.private.NewValues.{ArePut, AreSearched, PutsAfter, stands};

use crate::Known;
use crate::arguments::Pending;
use crate::edited::{
    Becomes, EditedList, ListEdit, Passed, PassedList, end_list, put_list_edited, put_pending,
};
use crate::found_value::{are_in, is_word};
use crate::value::either;
use bz_attribute::Env;
use bz_label::{Text, quote};
use bz_memory::{NoMemory, extend_from_slice, push};
use bz_rule::forms::AttributeValues;
use std::slice::from_ref;

/// What `add` makes of the argument that has these lines, where its value is one list of strings (`execute_on_list` of
/// bz_engine asks). `Unchanged`: of each value an element equals it. `Written`: the other values are elements more, and
/// the lines are in the buffer, after its bytes. None: it may be no such list. Without `Written` nothing is said of the
/// buffer's bytes. Err: memory is wanting.
pub fn put_added(
    env: Env<'_>,
    lines: &str,
    new: AttributeValues<'_>,
    max_depth: u8,
    written: &mut Vec<u8>,
) -> Result<Option<EditedList>, NoMemory>
    ensures { IfOk result (λ known. IfSome known (AddsToLines (read_alone max_depth env.entry.home.now lines.now)
        new.entry written.old.items written.new.items)) }
{
    let edit = ListEdit {
        attr: new.attr,
        words: new.values,
        becomes: Becomes::Kept,
    };
    let Some(list) = put_list_edited(env.home, lines, edit, max_depth, written)? else {
        return Ok(None);
    };
    let absent = NewValues {
        env,
        added: new,
        among: None,
    };
    if !list.passed.meant {
        return absent.put_after(list, written);
    }
    if let [_] = new.values {
        return Ok(Some(EditedList::Unchanged));
    }
    let among = Some(ListLines { lines, max_depth });
    NewValues { among, ..absent }.put_after(list, written)
}

/// Writes the argument that `add` puts into a rule that has none of its name, after the buffer's bytes. False: there are
/// no values. Without true nothing is said of the buffer's bytes.
pub fn put_new_list(
    env: Env<'_>,
    new: AttributeValues<'_>,
    written: &mut Vec<u8>,
) -> Result<bool, NoMemory>
    ensures { IfOk result (λ put. IsTrue put → written.new.items ≡ written.old.items
        ++ argument_lines (add env.entry.home.now new.entry.attr.now new.entry.values.now [])) }
{
    extend_from_slice(written, b"\n    ")?;
    extend_from_slice(written, new.attr.as_bytes())?;
    extend_from_slice(written, b" = [")?;
    let start = written.len();
    let end = b",".as_slice();
    let at = Pending {
        from: end,
        rest: end,
    };
    let list = PassedList {
        passed: Passed::none(at),
        end,
        start,
    };
    let absent = NewValues {
        env,
        added: new,
        among: None,
    };
    let Some(passed) = absent.put_missing(list.passed, written)? else {
        return Ok(false);
    };
    if !passed.meant {
        return Ok(false);
    }
    let ended = end_list(PassedList { passed, ..list }, written)?;
    Ok(ended)
}

/// The lines of an argument whose value is one list of strings.
#[derive(Clone, Copy)]
pub(crate) struct ListLines<'t> {
    lines: &'t str,
    max_depth: u8,
}

/// Values that are put after the elements of a list.
#[derive(Clone, Copy)]
struct NewValues<'h, 'c, 't> {
    env: Env<'h>,
    added: AttributeValues<'c>,
    /// The argument, where an element may equal a value. Without it none does.
    among: Option<ListLines<'t>>,
}

impl NewValues<'_, '_, '_> {
    /// Writes the values that are missing, after the elements of the list, and what follows these.
    #[inline(always)]
    fn put_after(self, list: PassedList<'_>, written: &mut Vec<u8>) -> Known<EditedList>
        ensures { IfOk result (λ known. IfSome known
            (PutsAfter self.entry list.entry written.old.items written.new.items)) }
    {
        if !put_pending(list.passed.at, written)? {
            return Ok(None);
        }
        let Some(passed) = self.put_missing(list.passed, written)? else {
            return Ok(None);
        };
        if !passed.meant {
            return Ok(Some(EditedList::Unchanged));
        }
        if !end_list(PassedList { passed, ..list }, written)? {
            return Ok(None);
        }
        Ok(Some(EditedList::Written))
    }

    /// Writes the values that are missing, each on a line of its own.
    #[inline(always)]
    fn put_missing<'t>(self, from: Passed<'t>, written: &mut Vec<u8>) -> Known<Passed<'t>>
        ensures { IfOk result (λ known. IfSome known
            (ArePut self.entry self.entry.added.values.now from.entry written.old.items written.new.items)) }
    {
        let values = self.added.values;
        let mut passed = Passed {
            meant: false,
            ..from
        };
        for i in 0..values.len() {
            let value = &values[i];
            let literal = quote(self.env.alloc, value.as_str())?;
            let Some(missing) = self.is_missing(value, literal.as_str(), &values[..i]) else {
                return Ok(None);
            };
            if missing {
                put_line(literal.as_bytes(), written)?;
                passed = passed.with_one(passed.at, true, false);
            }
        }
        Ok(Some(passed))
    }

    /// No element equals the value that has this literal, and none of the values before it does. None: it is not known.
    #[inline(always)]
    fn is_missing(self, value: &Text, literal: &str, earlier: &[Text]) -> Option<bool>
        ensures { IfSome result (λ missing. literal.now ≡ quoted value.now
            → (lists : List (List Segment)) → AreSearched self.entry.added.attr.now self.entry.among lists
            → missing ≡ is_fresh self.entry.env.home.now lists earlier.now value.now) }
    {
        let same = is_word(self.env.home, literal.as_bytes(), earlier)?;
        let there = self.is_there(value)?;
        Some(!either(there, same))
    }

    /// An element equals the value. None: it is not known.
    #[inline(always)]
    fn is_there(self, value: &Text) -> Option<bool>
        ensures { IfSome result (λ there. (lists : List (List Segment))
            → AreSearched self.entry.added.attr.now self.entry.among lists
            → there ≡ stands self.entry.env.home.now lists value.now) }
    {
        let Some(among) = self.among else {
            return Some(false);
        };
        let sought = AttributeValues {
            attr: self.added.attr,
            values: from_ref(value),
        };
        let lines = among.lines;
        let there = are_in(self.env.home, lines, sought, among.max_depth, true)?;
        Some(there)
    }
}

/// Writes a new element on a line of its own.
#[inline(always)]
pub(crate) fn put_line(literal: &[u8], written: &mut Vec<u8>) -> Result<(), NoMemory>
    ensures { OnOk result (written.new.items ≡ written.old.items ++ (10 ∷ (indent 2 ++ (literal.now ++ 44 ∷ [])))) }
{
    extend_from_slice(written, b"\n        ".as_slice())?;
    extend_from_slice(written, literal)?;
    push(written, b',')
}
