//! Rules of which the script does not see some arguments: those are sealed. The script runs on the rule with the others,
//! and what is written of a sealed argument is its lines. A rule that nothing changes is copied.

ghost use Rattle.std.specs.Prelude.{◌≡◌, ◌+◌, ◌<◌, ◌^◌, ◌==◌, ℕ, Some, count_by, IfNone, IfOk, IfSome, IsTrue, OnOk, length, true};
ghost use Rattle.bz_token.specs.Common.{is_filled};
ghost use Rattle.bz_tree.specs.Tree.{Statement};
ghost use Rattle.bz_layout.specs.Layout.{layout_text};
ghost use Rattle.bz_passes.specs.Exchange.{Fits};
ghost use Rattle.bz_engine.specs.private.Edits.{DoesNothing, IsScripted, run_of};
ghost use Rattle.bz_engine.specs.private.Found.{HasItsSpans, IsFoundOn, IsRuleFound};
ghost use Rattle.bz_engine.specs.private.NextChunks.{ScriptsFound};
ghost use Rattle.bz_engine.specs.private.Sealed.{IsSealedRule, asked_names, is_asked_in, leave_names};

use crate::canonical::Found;
use crate::chunk::newlines;
use crate::edit::{ScriptRun, Scripted, edit_slot};
use crate::progress::Progress;
use crate::row::is_passed_by;
use crate::written::put_canonical;
use bz_attribute::Head;
use bz_canonical::{FoundRule, Room, SpannedRule, kind_of, seal};
use bz_memory::NoMemory;
use bz_rule::StatementRow;

/// Runs the script on the rule of a chunk that was found, whose arguments stand in known places, and which has so many
/// lines. None, with nothing done: the rule is to be read.
#[inline(never)]
pub(crate) fn edit_sealed(
    script: ScriptRun<'_>,
    found: &Found<'_>,
    lines: u64,
    progress: &mut Progress,
    text: &mut Vec<u8>,
) -> Result<Option<Scripted>, NoMemory>
    requires fits { Fits progress.old.kept script.passes.now }
    requires fitting { progress.old.line + length found.now.chunk.chunk.now < 2 ^ 64 }
    requires lines { lines ≡ count_by (λ b. b == 10) found.now.chunk.chunk.now }
    requires spans { HasItsSpans script.max_depth script.passes.now found.now }
    requires noted { IsTrue found.now.chunk.noted }
    ensures { IfOk result (ScriptsFound (run_of script.entry) found.now progress.old progress.new
        text.old.items text.new.items) }
{
    if script.passes.names().is_empty() {
        return Ok(None);
    }
    let Some(noted) = noted_rule(found, progress.line, lines) else {
        return Ok(None);
    };
    if is_passed_by(script, Some(noted.head)) {
        put_canonical(script, found.chunk, progress, text)?;
        return Ok(Some(Scripted::Done));
    }
    edit_noted(script, found, noted, progress, text)
}

/// Runs the script on a rule that was noted, which some pass may mark. None, with nothing done: the rule is to be read.
#[inline(always)]
fn edit_noted(
    script: ScriptRun<'_>,
    found: &Found<'_>,
    noted: HeadedRule<'_>,
    progress: &mut Progress,
    text: &mut Vec<u8>,
) -> Result<Option<Scripted>, NoMemory>
    requires fits { Fits progress.old.kept script.passes.now }
    requires spans { HasItsSpans script.max_depth script.passes.now found.now }
    requires noted { IsTrue found.now.chunk.noted }
    requires rule { IsRuleFound progress.old.line found.now noted }
    requires names { is_filled (asked_names script.passes.now) ≡ true }
    ensures { IfOk result (ScriptsFound (run_of script.entry) found.now progress.old progress.new
        text.old.items text.new.items) }
{
    progress.begin_lists();
    let mut spare = progress.take_spare(script.alloc);
    let made = sealed_rule(script, found, noted, &mut spare.small)?;
    let scripted = edit_if_made(script, made, found.chunk.written, progress, text)?;
    progress.give_back(spare);
    Ok(scripted)
}

/// Runs the script on the rule that was made, if one was, of which this is written. None, with nothing done: else.
fn edit_if_made<'a>(
    script: ScriptRun<'a>,
    made: Option<StatementRow<'a>>,
    written: &str,
    progress: &mut Progress,
    text: &mut Vec<u8>,
) -> Result<Option<Scripted>, NoMemory>
    requires fits { Fits progress.old.kept script.passes.now }
    requires written { IfSome made (λ stmt. layout_text stmt ≡ written.now) }
    ensures fits { OnOk result (Fits progress.new.kept script.entry.passes.now) }
    ensures some { IfOk result (λ answer. IfSome answer (λ scripted. (t : Statement) × (made.entry ≡ Some t)
        × IsScripted (run_of script.entry) t progress.old progress.new
        text.old.items text.new.items scripted)) }
    ensures none { IfOk result (λ answer. IfNone answer
        (DoesNothing progress.old progress.new text.old.items text.new.items)) }
{
    let Some(stmt) = made else {
        return Ok(None);
    };
    let mut slot = Some(stmt);
    let scripted = edit_slot(script, &mut slot, Some(written), progress, text)?;
    Ok(Some(scripted))
}

/// The rule of a chunk whose arguments stand in known places.
#[derive(Clone, Copy)]
pub(crate) struct HeadedRule<'f> {
    pub(crate) rule: FoundRule<'f>,
    pub(crate) head: Head<'f>,
}

/// The rule of a chunk that begins on this line and has so many.
fn noted_rule<'f>(found: &Found<'f>, line: u64, lines: u64) -> Option<HeadedRule<'f>>
    requires fits { line + length found.now.chunk.chunk.now < 2 ^ 64 }
    requires lines { lines ≡ count_by (λ b. b == 10) found.now.chunk.chunk.now }
    ensures { IfSome result (IsRuleFound line found.now) }
{
    let chunk = found.chunk.chunk;
    let [name, ..] = found.spans else {
        return None;
    };
    let (front, _) = chunk.split_at_checked(name.from)?;
    let start = line + newlines(front.as_bytes());
    let below = line + lines;
    let end = below.checked_sub(1)?;
    let rule = FoundRule {
        chunk,
        rule: SpannedRule {
            written: found.chunk.written,
            spans: found.spans,
        },
        start,
        end,
    };
    let head = Head {
        kind: kind_of(chunk, found.spans)?,
        name: found.chunk.name,
        start,
        end,
    };
    Some(HeadedRule { rule, head })
}

/// The rule, where the arguments that the script does not see are sealed. Its lists stand in the arena, its texts in the
/// chunk, in what is written of it and in the buffer. None: it is to be read.
fn sealed_rule<'t, 's: 't, 'f: 't>(
    script: ScriptRun<'s>,
    found: &Found<'f>,
    noted: HeadedRule<'f>,
    buffer: &'t mut String,
) -> Result<Option<StatementRow<'t>>, NoMemory>
    requires spans { HasItsSpans script.max_depth script.passes.now found.now }
    requires noted { IsTrue found.now.chunk.noted }
    requires rule { (line : ℕ) × IsRuleFound line found.now noted }
    ensures { IfOk result (λ made. IfSome made (λ stmt. (line : ℕ) (s : Statement)
        → IsRuleFound line found.now noted.entry → IsFoundOn script.entry.max_depth line found.now s
        → IsSealedRule (is_asked_in (run_of script.entry)) (leave_names script.entry.passes.now) s stmt)) }
{
    let room = Room {
        alloc: script.alloc,
        bump: script.bump,
        max_depth: script.max_depth,
    };
    let Some(row) = seal(room, noted.rule, script.passes.sought(), buffer)? else {
        return Ok(None);
    };
    Ok(Some(StatementRow::new(script.bump, row, Some(noted.head))))
}
