//! What is written of a statement, after those before it.

ghost use Rattle.std.specs.Prelude.{◌≡◌, ◌++◌, not, if◌then◌else◌, [], ◌∷◌, Some, IfOk, IfSome, OnOk};
ghost use Rattle.bz_tree.specs.Rows.{IsRowOf};
ghost use Rattle.bz_tree.specs.Tree.{Statement};
ghost use Rattle.bz_layout.specs.Gaps.{lines_before, gap_text};
ghost use Rattle.bz_layout.specs.Layout.{layout_text};
ghost use Rattle.bz_engine.specs.Outcome.{is_query};
ghost use Rattle.bz_engine.specs.Progress.{last_class, text_following};

use crate::edit::ScriptRun;
use crate::progress::Progress;
use bz_canonical::CanonicalChunk;
use bz_layout::{put_gap, put_row};
use bz_memory::{NoMemory, extend_from_slice};
use bz_rule::StatementRow;
use bz_tree::{Class, Row};

/// Begins a statement of this class, which is the last one then. True: the gap before it is written, and its text is to
/// follow. False: the script only prints.
#[inline(always)]
pub(crate) fn begin_statement(
    script: ScriptRun<'_>,
    class: Class,
    progress: &mut Progress,
    text: &mut Vec<u8>,
) -> Result<bool, NoMemory>
    ensures last { OnOk result (progress.new ≡ record progress.old { last = Some class }) }
    ensures query { IfOk result (λ writes. is_query script.entry.passes.now ≡ not writes) }
    ensures gap { IfOk result (λ writes. text.new.items ≡ text.old.items
        ++ (if writes then gap_text (lines_before progress.old.last class) else [])) }
{
    let before = progress.last;
    progress.last = Some(class);
    if script.passes.is_query() {
        return Ok(false);
    }
    put_gap(before, class, text)?;
    Ok(true)
}

/// Writes the chunk of a statement that the script leaves as it is.
#[inline(always)]
pub(crate) fn put_canonical(
    script: ScriptRun<'_>,
    found: CanonicalChunk<'_>,
    progress: &mut Progress,
    text: &mut Vec<u8>,
) -> Result<(), NoMemory>
    ensures last { OnOk result (progress.new ≡ record progress.old { last = Some found.entry.class }) }
    ensures text { OnOk result ((s : Statement) → s.class ≡ found.entry.class
        → layout_text s ≡ found.entry.written.now
        → text.new.items ≡ text.old.items
        ++ (if is_query script.entry.passes.now then []
        else text_following progress.old.last (Some s ∷ []))) }
{
    if begin_statement(script, found.class, progress, text)? {
        extend_from_slice(text, found.written.as_bytes())?;
    }
    Ok(())
}

/// Lays out the statement of a row that the script passes by.
pub(crate) fn put_passed(
    script: ScriptRun<'_>,
    row: &Row<'_>,
    progress: &mut Progress,
    text: &mut Vec<u8>,
) -> Result<(), NoMemory>
    ensures last { OnOk result (progress.new ≡ record progress.old { last = Some row.now.class }) }
    ensures text { OnOk result ((s : Statement) → IsRowOf s row.now → text.new.items ≡ text.old.items
        ++ (if is_query script.entry.passes.now then []
        else text_following progress.old.last (Some s ∷ []))) }
{
    if begin_statement(script, row.class, progress, text)? {
        put_row(row, text)?;
    }
    Ok(())
}

/// Writes a statement, whose text may be known.
#[inline(always)]
fn put_statement(
    stmt: &StatementRow<'_>,
    known: Option<&str>,
    text: &mut Vec<u8>,
) -> Result<(), NoMemory>
    requires { IfSome known (λ known. layout_text stmt.now ≡ known.now) }
    ensures { OnOk result (text.new.items ≡ text.old.items ++ layout_text stmt.now) }
{
    match known {
        Some(known) => extend_from_slice(text, known.as_bytes()),
        None => stmt.put(text),
    }
}

/// Writes what the script left in a slot. Its text may be known: otherwise it is laid out.
pub(crate) fn put_slot(
    script: ScriptRun<'_>,
    slot: &Option<StatementRow<'_>>,
    known: Option<&str>,
    progress: &mut Progress,
    text: &mut Vec<u8>,
) -> Result<(), NoMemory>
    requires { IfSome known (λ known. (s : Statement) → slot.now ≡ Some s → layout_text s ≡ known.now) }
    ensures last { OnOk result
        (progress.new ≡ record progress.old { last = last_class progress.old.last (slot.now ∷ []) }) }
    ensures text { OnOk result (text.new.items ≡ text.old.items
        ++ (if is_query script.entry.passes.now then []
        else text_following progress.old.last (slot.now ∷ []))) }
{
    let Some(stmt) = slot else {
        return Ok(());
    };
    if begin_statement(script, stmt.class(), progress, text)? {
        put_statement(stmt, known, text)?;
    }
    Ok(())
}
