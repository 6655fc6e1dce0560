//! Rules that are not read, which one pass alone marks: what its one command makes of them, and tells, by their text.
//! `canonical.rt` asks.

ghost use Rattle.std.specs.Prelude.{IfOk, OnOk, true};
ghost use Rattle.bz_passes.specs.Exchange.{Fits};
ghost use Rattle.bz_engine.specs.private.Edits.{run_of};
ghost use Rattle.bz_engine.specs.private.Found.{HasItsSpans, IsForOne, IsFoundOn, IsPlaced, LeavesRule, TellsRule, unplaced};
ghost use Rattle.bz_engine.specs.private.NextChunks.{EditsFound};

use crate::answer::{Unchanged, asked_attribute, is_left_by_text, place_of, printed_by_text};
use crate::canonical::Found;
use crate::edit::ScriptRun;
use crate::failure::{Message, failure_by_text, missing_by_text};
use crate::marked_rule::{MarkedRule, edit_marked};
use crate::progress::Progress;
use crate::written::put_canonical;
use bz_attribute::Env;
use bz_memory::NoMemory;
use bz_rule::Command;
use bz_rule::forms::printed_by;

/// Runs the script on the rule by its text. False, with nothing done: the rule is to be seen.
#[inline(always)]
pub(crate) fn copy_answered(
    script: ScriptRun<'_>,
    marked: MarkedRule<'_>,
    progress: &mut Progress,
    text: &mut Vec<u8>,
) -> Result<bool, NoMemory>
    requires only { IsForOne script.home.now script.passes.now marked.only
        (IsFoundOn script.max_depth progress.old.line (unplaced marked.found.now)) }
    requires fits { Fits progress.old.kept script.passes.now }
    requires spans { HasItsSpans script.max_depth script.passes.now marked.found.now }
    ensures { IfOk result (EditsFound (run_of script.entry) marked.entry.found.now progress.old progress.new
        text.old.items text.new.items) }
{
    match printed_by(marked.only.command) {
        Some(_) => copy_printed(script, marked, progress, text),
        None => copy_edited(script, marked, progress, text),
    }
}

/// Runs the script on a rule that its one command prints, by its name, or by that it has none. False, with nothing done:
/// the rule is to be seen.
#[inline(never)]
fn copy_printed(
    script: ScriptRun<'_>,
    marked: MarkedRule<'_>,
    progress: &mut Progress,
    text: &mut Vec<u8>,
) -> Result<bool, NoMemory>
    requires only { IsForOne script.home.now script.passes.now marked.only
        (IsFoundOn script.max_depth progress.old.line (unplaced marked.found.now)) }
    requires fits { Fits progress.old.kept script.passes.now }
    ensures { IfOk result (EditsFound (run_of script.entry) marked.entry.found.now progress.old progress.new
        text.old.items text.new.items) }
{
    let MarkedRule { only, found } = marked;
    let env = Env {
        alloc: script.alloc,
        home: script.home,
    };
    let mut buffer = String::new(script.alloc);
    if let Some(unchanged) = printed_by_text(env, only.command, found, &mut buffer)? {
        put_unchanged(script, marked, unchanged, progress, text)?;
        return Ok(true);
    }
    match missing_by_text(script, only.command, found)? {
        Some(message) => {
            put_message(script, marked, message, progress, text)?;
            Ok(true)
        }
        None => Ok(false),
    }
}

/// Runs the script on a rule by its text, where the one command does not print. False, with nothing done: the rule is to
/// be seen.
#[inline(never)]
fn copy_edited(
    script: ScriptRun<'_>,
    marked: MarkedRule<'_>,
    progress: &mut Progress,
    text: &mut Vec<u8>,
) -> Result<bool, NoMemory>
    requires only { IsForOne script.home.now script.passes.now marked.only
        (IsFoundOn script.max_depth progress.old.line (unplaced marked.found.now)) }
    requires fits { Fits progress.old.kept script.passes.now }
    requires spans { HasItsSpans script.max_depth script.passes.now marked.found.now }
    ensures { IfOk result (EditsFound (run_of script.entry) marked.entry.found.now progress.old progress.new
        text.old.items text.new.items) }
{
    let MarkedRule { only, found } = marked;
    let placed = with_place(script, found, only.command);
    let marked = MarkedRule {
        only,
        found: &placed,
    };
    copy_placed(script, marked, progress, text)
}

/// The chunk with the place of the argument that the command looks at.
fn with_place<'a>(script: ScriptRun<'_>, found: &Found<'a>, command: &'a Command) -> Found<'a>
    ensures { IsPlaced script.entry.passes.now found.now result }
{
    let attr = asked_attribute(command);
    Found {
        attr,
        place: place_of(script, found, attr),
        ..*found
    }
}

/// Runs the script on the rule by the first of these: the one command leaves it as it is, tells a message of it, or edits
/// one argument.
fn copy_placed(
    script: ScriptRun<'_>,
    marked: MarkedRule<'_>,
    progress: &mut Progress,
    text: &mut Vec<u8>,
) -> Result<bool, NoMemory>
    requires only { IsForOne script.home.now script.passes.now marked.only
        (IsFoundOn script.max_depth progress.old.line marked.found.now) }
    requires fits { Fits progress.old.kept script.passes.now }
    requires spans { HasItsSpans script.max_depth script.passes.now marked.found.now }
    ensures { IfOk result (EditsFound (run_of script.entry) marked.entry.found.now progress.old progress.new
        text.old.items text.new.items) }
{
    let MarkedRule { only, found } = marked;
    if is_left_by_text(script.home, only.command, found) {
        let unchanged = Unchanged { line: None };
        put_unchanged(script, marked, unchanged, progress, text)?;
        return Ok(true);
    }
    if let Some(message) = failure_by_text(script, only.command, found)? {
        put_message(script, marked, message, progress, text)?;
        return Ok(true);
    }
    edit_marked(script, marked, progress, text)
}

/// Writes the rule, which the command leaves as it is.
fn put_unchanged(
    script: ScriptRun<'_>,
    marked: MarkedRule<'_>,
    unchanged: Unchanged<'_>,
    progress: &mut Progress,
    text: &mut Vec<u8>,
) -> Result<(), NoMemory>
    requires only { IsForOne script.home.now script.passes.now marked.only
        (IsFoundOn script.max_depth progress.old.line marked.found.now) }
    requires fits { Fits progress.old.kept script.passes.now }
    requires leaves { LeavesRule marked.only.command.now script.home.now marked.found.now unchanged }
    ensures { OnOk result (EditsFound (run_of script.entry) marked.entry.found.now progress.old progress.new
        text.old.items text.new.items true) }
{
    let MarkedRule { only, found } = marked;
    progress.keep_line(only.at, unchanged.line)?;
    put_canonical(script, found.chunk, progress, text)
}

/// Writes the rule, of which the command tells this message.
fn put_message(
    script: ScriptRun<'_>,
    marked: MarkedRule<'_>,
    message: Message,
    progress: &mut Progress,
    text: &mut Vec<u8>,
) -> Result<(), NoMemory>
    requires only { IsForOne script.home.now script.passes.now marked.only
        (IsFoundOn script.max_depth progress.old.line marked.found.now) }
    requires fits { Fits progress.old.kept script.passes.now }
    requires tells { TellsRule script.keep_going marked.only.command.now script.home.now marked.found.now message }
    ensures { OnOk result (EditsFound (run_of script.entry) marked.entry.found.now progress.old progress.new
        text.old.items text.new.items true) }
{
    let MarkedRule { only, found } = marked;
    progress.keep_message(only.at, message)?;
    put_canonical(script, found.chunk, progress, text)
}
