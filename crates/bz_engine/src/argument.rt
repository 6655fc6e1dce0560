//! What a command makes of the lines of an argument, which is not read. `marked_rule.rt` calls `execute_on_lines` for a
//! rule of which it edits one argument.

ghost use Rattle.std.specs.Prelude.{◌≡◌, IfOk, IfSome, IsTrue, false, true};
ghost use Rattle.bz_canonical.specs.Added.{AreInLines};
ghost use Rattle.bz_canonical.specs.Canonical.{between, read_alone};
ghost use Rattle.bz_label.specs.declared.arguments.Attributes.TheVariants.{Named};
ghost use Rattle.bz_label.specs.declared.arguments.Commented.TheVariants.{Attribute};
ghost use Rattle.bz_label.specs.declared.arguments.Setting.TheVariants.{ToValues};
ghost use Rattle.bz_rule.specs.declared.command.Action.TheVariants.{Add, Comment, Remove, Replace, Set};
ghost use Rattle.bz_engine.specs.private.ArgumentEdits.{AddsArgument, EditsLines, EditsList, EditsPlace};
ghost use Rattle.bz_token.specs.Common.{is_empty};
ghost use Rattle.bz_label.specs.Labels.{Package};

use crate::edit::ScriptRun;
use bz_attribute::Env;
use bz_canonical::{
    ArgumentPlace, EditedList, lacks, put_added, put_new_list, put_removed, put_replaced,
    put_set_list,
};
use bz_memory::{NoMemory, extend_from_slice};
use bz_rule::commands::argument::put_argument;
use bz_rule::forms::{
    AttributeValues, ReplacedValue, added_by, removed_by, replaced_by, set_by, values_set_by,
};
use bz_rule::{Command, Text};
use std::alloc::Global;
use std::slice::from_ref;

/// What a command makes of an argument.
#[derive(Clone, Copy)]
pub(crate) enum EditedArgument<'s> {
    Unchanged,
    /// These are its lines, or those of what stands in its place. It goes where they are none.
    Lines(&'s [u8]),
}

// More bytes are not worth a copy.
const LONGEST: usize = 1 << 16;

// More values are not compared with each element.
const MOST: usize = 8;

/// Whether the argument of this place has many lines, which are not worth a copy.
pub(crate) fn is_long(place: Option<ArgumentPlace<'_>>) -> bool {
    match place {
        Some(place) => place.lines.len() > LONGEST,
        None => false,
    }
}

/// What a command makes of the argument of this place, where it is not read: `Written`, it stands in the buffer, with
/// what is before it and after it. Without that nothing is said of the buffer's bytes.
pub(crate) fn execute_in_place(
    script: ScriptRun<'_>,
    command: &Command,
    place: ArgumentPlace<'_>,
    written: &mut Vec<u8>,
) -> Result<Option<EditedList>, NoMemory>
    ensures { IfOk result (λ known. IfSome known (EditsPlace script.entry.max_depth command.now script.entry.home.now
        (between place.entry) written.old.items written.new.items)) }
{
    extend_from_slice(written, place.before.as_bytes())?;
    let begun = written.len();
    match execute_on_list(script, command, place.lines, written)? {
        Some(EditedList::Unchanged) => Ok(Some(EditedList::Unchanged)),
        Some(EditedList::Written) if may_stand(place, begun < written.len()) => {
            extend_from_slice(written, place.after.as_bytes())?;
            Ok(Some(EditedList::Written))
        }
        _ => Ok(None),
    }
}

/// Lines may stand in this place: some, or none where the argument may go.
pub(crate) fn may_stand(place: ArgumentPlace<'_>, some: bool) -> bool
    ensures { IsTrue result → some ≡ false → place.entry.may_go ≡ true }
{
    place.may_go || some
}

/// What a command makes of the argument of this place, or, where it has no lines, adds to a rule that has no argument of
/// the name. None: the rule is to be seen.
pub(crate) fn execute_on_lines<'s>(
    script: ScriptRun<'_>,
    command: &Command,
    place: ArgumentPlace<'_>,
    laid: &'s mut Vec<u8>,
) -> Result<Option<EditedArgument<'s>>, NoMemory>
    ensures { IfOk result (λ known. IfSome known
        (EditsLines script.entry.max_depth command.now script.entry.home.now (between place.entry))) }
{
    laid.clear();
    match execute_on_list(script, command, place.lines, laid)? {
        Some(EditedList::Unchanged) => return Ok(Some(EditedArgument::Unchanged)),
        Some(EditedList::Written) if may_stand(place, !laid.is_empty()) => {
            return Ok(Some(EditedArgument::Lines(laid.as_slice())));
        }
        _ => {}
    }
    if place.lines.is_empty() && put_new(script, command, laid)? {
        return Ok(Some(EditedArgument::Lines(laid.as_slice())));
    }
    Ok(None)
}

/// What the command makes of the argument that has these lines, where it adds values to a list of strings, removes some,
/// replaces one, or sets all. None: it may be another command, or another argument. Without `Written` nothing is said of the
/// buffer's bytes.
fn execute_on_list(
    script: ScriptRun<'_>,
    command: &Command,
    lines: &str,
    written: &mut Vec<u8>,
) -> Result<Option<EditedList>, NoMemory>
    ensures { IfOk result (λ known. IfSome known (EditsList command.now
        (read_alone script.entry.max_depth script.entry.home.now lines.now) written.old.items written.new.items)) }
{
    if let Some(new) = added_by(command) {
        return execute_add(script, new, lines, written);
    }
    if let Some(old) = removed_by(command) {
        return execute_remove(script, old, lines, written);
    }
    if let Some(new) = values_set_by(command) {
        return execute_set(script, new, lines, written);
    }
    match replaced_by(command) {
        Some(replaced) => execute_replace(script, replaced, lines, written),
        None => Ok(None),
    }
}

/// What `add` makes of the argument that has these lines. None: it is no list of strings that can be edited on its
/// lines, or that is too much to do. Without `Written` nothing is said of the buffer's bytes.
fn execute_add(
    script: ScriptRun<'_>,
    new: AttributeValues<'_>,
    lines: &str,
    written: &mut Vec<u8>,
) -> Result<Option<EditedList>, NoMemory>
    ensures { IfOk result (λ known. IfSome known (EditsList (Add new.entry.attr.now new.entry.values.now)
        (read_alone script.entry.max_depth script.entry.home.now lines.now) written.old.items written.new.items)) }
{
    if are_many(new.values, lines) {
        return Ok(None);
    }
    let env = Env {
        alloc: script.alloc,
        home: script.home,
    };
    put_added(env, lines, new, script.max_depth, written)
}

/// What `remove` of values makes of the argument that has these lines. None: it is no list of strings that can be edited
/// on its lines, or that is too much to do. Without `Written` nothing is said of the buffer's bytes.
fn execute_remove(
    script: ScriptRun<'_>,
    old: AttributeValues<'_>,
    lines: &str,
    written: &mut Vec<u8>,
) -> Result<Option<EditedList>, NoMemory>
    requires { is_empty old.values.now ≡ false }
    ensures { IfOk result (λ known. IfSome known (EditsList (Remove (Named old.entry.attr.now) old.entry.values.now)
        (read_alone script.entry.max_depth script.entry.home.now lines.now) written.old.items written.new.items)) }
{
    if are_many(old.values, lines) {
        return Ok(None);
    }
    if lacks_in_few_lines(script, old, lines) {
        return Ok(Some(EditedList::Unchanged));
    }
    put_removed(script.home, lines, old, script.max_depth, written)
}

/// What `replace` of one value makes of the argument that has these lines. None: it is no list of strings that can be
/// edited on its lines. Without `Written` nothing is said of the buffer's bytes.
fn execute_replace(
    script: ScriptRun<'_>,
    replaced: ReplacedValue<'_>,
    lines: &str,
    written: &mut Vec<u8>,
) -> Result<Option<EditedList>, NoMemory>
    ensures { IfOk result (λ known. IfSome known (EditsList
        (Replace (Named replaced.entry.attr.now) replaced.entry.old.now replaced.entry.new.now)
        (read_alone script.entry.max_depth script.entry.home.now lines.now) written.old.items written.new.items)) }
{
    let old = AttributeValues {
        attr: replaced.attr,
        values: from_ref(replaced.old),
    };
    if lacks_in_few_lines(script, old, lines) {
        return Ok(Some(EditedList::Unchanged));
    }
    let env = Env {
        alloc: script.alloc,
        home: script.home,
    };
    put_replaced(env, lines, replaced, script.max_depth, written)
}

/// What `set` makes of the argument that has these lines. None: it is no list of strings that can be edited on its
/// lines, or that is too much to do. Without `Written` nothing is said of the buffer's bytes.
fn execute_set(
    script: ScriptRun<'_>,
    new: AttributeValues<'_>,
    lines: &str,
    written: &mut Vec<u8>,
) -> Result<Option<EditedList>, NoMemory>
    ensures { IfOk result (λ known. IfSome known (EditsList (Set (ToValues new.entry.attr.now new.entry.values.now))
        (read_alone script.entry.max_depth script.entry.home.now lines.now) written.old.items written.new.items)) }
{
    if are_many(new.values, lines) {
        return Ok(None);
    }
    put_set_list(script.alloc, lines, new, script.max_depth, written)
}

/// There are several values, and too many to compare each with each element of these lines.
fn are_many(values: &[Text], lines: &str) -> bool {
    let count = values.len();
    count > 1 && (count > MOST || lines.len() > LONGEST / count)
}

/// These lines are few, and have a list that lacks the values. Most lists lack them, and of these nothing has to be
/// written; a long one is gone over once.
fn lacks_in_few_lines(script: ScriptRun<'_>, sought: AttributeValues<'_>, lines: &str) -> bool
    ensures { IsTrue result
        → AreInLines (read_alone script.entry.max_depth script.entry.home.now lines.now) sought.entry false }
{
    lines.len() <= LONGEST && lacks(script.home, lines, sought, script.max_depth)
}

/// The lines of the argument that the command adds where none has its name. False: they are not easily written.
fn put_new(script: ScriptRun<'_>, command: &Command, lines: &mut Vec<u8>) -> Result<bool, NoMemory>
    ensures { IfOk result (λ put. IsTrue put → AddsArgument command.now script.entry.home.now lines.new.items) }
{
    let Some(new) = added_by(command) else {
        return put_set(script.alloc, command, lines);
    };
    if are_many(new.values, "") {
        return Ok(false);
    }
    lines.clear();
    let env = Env {
        alloc: script.alloc,
        home: script.home,
    };
    put_new_list(env, new, lines)
}

/// The lines of the argument that `set` or `set_if_absent` adds where none has its name. False: the command is another,
/// or they are not easily written.
fn put_set(alloc: Global, command: &Command, lines: &mut Vec<u8>) -> Result<bool, NoMemory>
    ensures { IfOk result (λ put. IsTrue put → (home : Package) → AddsArgument command.now home lines.new.items) }
{
    let Some(new) = set_by(command) else {
        return Ok(false);
    };
    lines.clear();
    put_argument(alloc, new.attr, new.values, lines)
}
