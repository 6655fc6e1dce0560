//! A whole script on one chunk.

ghost use Rattle.std.specs.Prelude.{◌≡◌, ◌+◌, ◌<◌, ◌≤◌, ◌^◌, None, Some, if◌then◌else◌, length, IfOk, IfSome, OnOk, option_map, option_to_list, take};
ghost use Rattle.std.specs.List.{flat_map};
ghost use Rattle.bz_tree.specs.Tree.{Statement};
ghost use Rattle.bz_layout.specs.Layout.{layout_text};
ghost use Rattle.bz_passes.specs.Entries.{failure_text};
ghost use Rattle.bz_passes.specs.Exchange.{Fits, log_alone};
ghost use Rattle.bz_engine.specs.private.ChunkRead.{IsReadAs};
ghost use Rattle.bz_engine.specs.private.Edits.{EditsChunk, IsEditedOf, IsFailedBy, IsScripted, run_of};
ghost use Rattle.bz_engine.specs.private.Rows.{IsOfRow};

use crate::progress::Progress;
use crate::report::SyntaxFault;
use crate::row::is_passed_by;
use crate::rule_passes::RulePasses;
use crate::rules::Rules;
use crate::written::{put_passed, put_slot};
use bumpalo::Bump;
use bz_attribute::Head;
use bz_memory::NoMemory;
use bz_passes::kept::Kept;
use bz_passes::language::Facts;
use bz_passes::script::run_script;
use bz_rule::{Package, StatementRow, Text};
use bz_tree::{ParseFault, Row};
use std::alloc::Global;

/// What a run is to do with each chunk.
#[derive(Clone, Copy)]
pub(crate) struct ScriptRun<'a> {
    pub(crate) alloc: Global,
    /// Where the lists stand that are made of a chunk.
    pub(crate) bump: &'a Bump,
    pub(crate) home: &'a Package,
    pub(crate) passes: &'a RulePasses,
    /// More bytes the first chunk of the text ahead may not have.
    pub(crate) max_statement: u64,
    /// A failure does not end the run.
    pub(crate) keep_going: bool,
    pub(crate) max_depth: u8,
}

/// What the script made of a chunk.
#[derive(Drop)]
pub(crate) enum Edited {
    /// It is done.
    Done,
    /// It could not be read.
    Faulty(SyntaxFault),
    /// An execution failed, and failures end the run: the message of the first.
    Failed(Option<Text>),
}

/// What the script made of a statement: a small value, since one is made of each.
#[derive(Clone, Copy)]
pub(crate) enum Scripted {
    Done,
    /// An execution failed, and failures end the run: what is kept has the message of the first.
    Failed,
}

/// What the script made of the chunk of a statement, the last that is done.
#[inline(always)]
pub(crate) fn edited_of(
    alloc: Global,
    scripted: Scripted,
    progress: &Progress,
) -> Result<Edited, NoMemory>
    ensures { IfOk result (IsEditedOf progress.now.kept scripted) }
{
    match scripted {
        Scripted::Done => Ok(Edited::Done),
        Scripted::Failed => first_failed(alloc, progress.kept.as_slice()),
    }
}

/// The first failure that was told: it ends the run, so this is rare.
#[inline(never)]
fn first_failed(alloc: Global, kept: &[Kept]) -> Result<Edited, NoMemory>
    ensures { IfOk result (IsFailedBy kept.now) }
{
    let message = first_failure(alloc, kept)?;
    Ok(Edited::Failed(message))
}

/// Runs the script on the next chunk, which is read as this: what it leaves goes after the text, and what is kept is
/// then that of the chunks with this one. After a refusal neither the text nor what is kept is of use.
#[inline(always)]
pub(crate) fn edit_chunk<'a>(
    script: ScriptRun<'a>,
    chunk: &str,
    read: Result<Option<Row<'a>>, ParseFault>,
    progress: &mut Progress,
    text: &mut Vec<u8>,
) -> Result<Edited, NoMemory>
    requires fits { Fits progress.old.kept script.passes.now }
    requires lines { progress.old.line + length chunk.now < 2 ^ 64 }
    requires read { IsReadAs script.max_depth progress.old.line chunk.now read }
    ensures fits { OnOk result (Fits progress.new.kept script.entry.passes.now) }
    ensures lines { OnOk result (progress.new.line ≤ progress.old.line + length chunk.now) }
    ensures edited { IfOk result (EditsChunk (run_of script.entry) chunk.now progress.old progress.new
        text.old.items text.new.items) }
{
    let found = match read {
        Ok(found) => found,
        Err(ParseFault::OutOfMemory(why)) => return Err(why),
        Err(fault) => return Ok(Edited::Faulty(SyntaxFault::Parse(fault))),
    };
    let Some(row) = found else {
        progress.pass_lines(chunk.as_bytes());
        return Ok(Edited::Done);
    };
    let scripted = edit_row(script, row, progress, text)?;
    progress.pass_lines(chunk.as_bytes());
    let edited = edited_of(script.alloc, scripted, progress)?;
    Ok(edited)
}

/// Runs the script on the statement of a row.
fn edit_row<'a>(
    script: ScriptRun<'a>,
    row: Row<'a>,
    progress: &mut Progress,
    text: &mut Vec<u8>,
) -> Result<Scripted, NoMemory>
    requires fits { Fits progress.old.kept script.passes.now }
    requires row { (s : Statement) × IsOfRow s row }
    ensures fits { OnOk result (Fits progress.new.kept script.entry.passes.now) }
    ensures scripted { IfOk result (λ scripted. (s : Statement) → IsOfRow s row.entry
        → IsScripted (run_of script.entry) s progress.old progress.new
        text.old.items text.new.items scripted) }
{
    let head = Head::of_row(script.alloc, script.bump, &row)?;
    if is_passed_by(script, head) {
        put_passed(script, &row, progress, text)?;
        return Ok(Scripted::Done);
    }
    let mut slot = Some(StatementRow::new(script.bump, row, head));
    edit_slot(script, &mut slot, None, progress, text)
}

/// What is written of a statement that nothing changed, if it is known.
fn unchanged<'t>(written: Option<&'t str>, changed: bool) -> Option<&'t str>
    ensures { result ≡ (if changed then None else written.entry) }
{
    if changed { None } else { written }
}

/// Runs the script on what is in a slot. If it is known what is written of that (`written`), it is laid out only where
/// it was changed.
pub(crate) fn edit_slot<'a>(
    script: ScriptRun<'a>,
    slot: &mut Option<StatementRow<'a>>,
    written: Option<&str>,
    progress: &mut Progress,
    text: &mut Vec<u8>,
) -> Result<Scripted, NoMemory>
    requires fits { Fits progress.old.kept script.passes.now }
    requires written { IfSome written
        (λ known. (s : Statement) → slot.old ≡ Some s → layout_text s ≡ known.now) }
    ensures fits { OnOk result (Fits progress.new.kept script.entry.passes.now) }
    ensures scripted { IfOk result (λ scripted. (s : Statement) → slot.old ≡ Some s
        → IsScripted (run_of script.entry) s progress.old progress.new
        text.old.items text.new.items scripted) }
{
    let rules = Rules {
        alloc: script.alloc,
        home: script.home,
    };
    // A copy, since a failure that ends the run tells only of the statements before. Of changes it knows those of this
    // statement alone.
    let mut facts = Facts {
        changed: false,
        failed: progress.failed,
    };
    let kept = progress.kept.as_mut_slice();
    let passes = script.passes.indexed();
    run_script(&rules, passes, slot, &mut *kept, &mut facts)?;
    if facts.failed && !script.keep_going {
        return Ok(Scripted::Failed);
    }
    progress.changed |= facts.changed;
    progress.failed = facts.failed;
    let known = unchanged(written, facts.changed);
    put_slot(script, slot, known, progress, text)?;
    Ok(Scripted::Done)
}

/// The message of the first failure that was told, by pass and command.
fn first_failure(alloc: Global, kept: &[Kept]) -> Result<Option<Text>, NoMemory>
    ensures { IfOk result (λ message. option_to_list message
        ≡ take 1 (flat_map failure_text (log_alone kept.now))) }
{
    for pass in kept {
        if let Some(message) = first_in_pass(pass) {
            let message = Text::from_str(alloc, message)?;
            return Ok(Some(message));
        }
    }
    Ok(None)
}

fn first_in_pass(pass: &Kept) -> Option<&str>
    ensures { option_to_list (option_map (λ text. text.now) result)
        ≡ take 1 (flat_map failure_text (flat_map (λ log. log) pass.now.logs)) }
{
    for log in &pass.logs {
        if let Some(message) = log.first_failure() {
            return Some(message);
        }
    }
    None
}
