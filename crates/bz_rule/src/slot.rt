//! A command applied to what a slot holds, where statements are trees.

ghost use Rattle.std.specs.Prelude.{◌≡◌, ◌↔◌, IfOk, IsOk, OnErr, OnOk, false, is_some, true};
ghost use Rattle.bz_tree.specs.View.{slot_view};
ghost use Rattle.bz_attribute.specs.Effects as spec;
ghost use Rattle.bz_rule.specs.Commands as commands;

use crate::command::Command;
use crate::statement_row::{StatementRow, execute};
use bumpalo::Bump;
use bz_attribute::{Done, Env, is_rule};
use bz_label::Package;
use bz_memory::NoMemory;
use bz_tree::Stmt;
use std::alloc::Global;

/// Applies a command to what a slot holds, in the package of its file. A statement that is changed owns its texts, and
/// its leaves may have any place.
pub fn apply<'a>(
    alloc: Global,
    command: &Command,
    home: &Package,
    slot: &mut Option<Stmt<'a>>,
) -> Result<Done, NoMemory>
    ensures slot { OnOk result (slot_view slot.new
        ≡ commands.after command.now home.now (slot_view slot.old)) }
    ensures done { IfOk result (λ done. done ≡ commands.done_of command.now home.now (slot_view slot.old)) }
    ensures changed { IfOk result (λ done. (done.changed ≡ true)
        ↔ (slot_view slot.new ≡ slot_view slot.old → ⊥)) }
    ensures noted { IfOk result (λ done. is_some done.note ≡ true → slot_view slot.new ≡ slot_view slot.old) }
    ensures no_rule { spec.holds_rule (slot_view slot.old) ≡ false → IsOk result }
    ensures err { OnErr result (slot_view slot.new ≡ slot_view slot.old) }
{
    // The clause `changed` holds of commands that can be read, as this one is.
    let _action = &command.action;
    let Some(stmt) = slot else {
        return Ok(Done::quiet(false));
    };
    if !is_rule(&stmt.nodes) {
        return Ok(Done::quiet(false));
    }
    let bump = Bump::new(alloc);
    let mut row = Some(StatementRow::of_stmt(alloc, &bump, stmt)?);
    let done = execute(Env { alloc, home }, command, &mut row)?;
    if !done.changed {
        return Ok(done);
    }
    *slot = tree_of(alloc, row)?;
    Ok(done)
}

// The tree of a row, if there is one.
fn tree_of<'a>(alloc: Global, row: Option<StatementRow<'_>>) -> Result<Option<Stmt<'a>>, NoMemory>
    ensures { IfOk result (λ slot. slot_view slot ≡ row.entry) }
{
    match row {
        None => Ok(None),
        Some(row) => Ok(Some(row.into_tree(alloc)?)),
    }
}
