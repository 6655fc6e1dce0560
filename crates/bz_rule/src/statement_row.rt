//! A statement as its row, with the head of the rule that it is: commands put other parts in places of it. bz_engine
//! makes one of each chunk that it reads, and calls `execute` for each command. `apply` (`slot.rt`) does so for a tree.

ghost use Rattle.std.specs.Result.{result_and};
ghost use Rattle.std.specs.Prelude.{◌≡◌, ◌++◌, ℕ, List, IfOk, IsOk, OnOk, OnErr, Some, false, true, map, option_map, is_some, string_bytes};
ghost use Rattle.bz_tree.specs.Tree.{Statement};
ghost use Rattle.bz_tree.specs.Statement.{class_of};
ghost use Rattle.bz_tree.specs.View.{view};
ghost use Rattle.bz_tree.specs.Rows.{IsRowOf, part_view, parts_of};
ghost use Rattle.bz_label.specs.Labels.{Name};
ghost use Rattle.bz_attribute.specs.Effects as effects;
ghost use Rattle.bz_attribute.specs.Heads.{HasHead};
ghost use Rattle.bz_attribute.specs.Marks as marks;
ghost use Rattle.bz_attribute.specs.Rules.{is_text, rule_of};
ghost use Rattle.bz_attribute.specs.Texts.{shown_text};
ghost use Rattle.bz_rule.specs.Reports.{prints};
ghost use Rattle.bz_layout.specs.Layout.{layout_text};
ghost use Rattle.bz_rule.specs.Commands as commands;
ghost use Rattle.bz_attribute.specs.RowEdits.{IsWithin, replaced_at};
ghost use Rattle.bz_rule.specs.Set.{with_kind};
ghost use Rattle.bz_rule.specs.private.RowEdits.{is_edit, rule_after};

use crate::command::{Action, Command};
use crate::commands::field::Field;
use crate::commands::print::print;
use crate::row_edit::{edit_rule, kept_head};
use crate::row_parts::put_in;
use bumpalo::Bump;
use bz_attribute::{Done, Env, Executed, Head, Parts, Place, is_rule};
use bz_label::{Package, Setting, Target};
use bz_layout::put_row;
use bz_memory::{NoMemory, alloc_str, extend_from_slice, with_room_for_both};
use bz_tree::{Class, Part, Row, Stmt, push_parts, stmt_of_parts};
use std::alloc::Global;
use std::marker::Model;
use std::mem;

// For the next edits, which mostly add.
const ROOM: usize = 16;

/// A statement.
#[derive(Drop)]
pub struct StatementRow<'a> {
    pub(crate) row: Row<'a>,
    // Where commands write new parts: what it holds does not count.
    pub(crate) spare: Parts<'a>,
    // None: it is no rule.
    pub(crate) head: Option<Head<'a>>,
    // Its parts begin with so many comments at least: those that commands have added.
    pub(crate) comments: usize,
    // Where its lists stand, and texts that commands make.
    pub(crate) bump: &'a Bump,
}

impl<'a> Model for StatementRow<'a> {
    ghost use Rattle.std.specs.Coded.{codes, code_by};
    ghost use Rattle.bz_tree.specs.Tree.{Statement};
    ghost use Rattle.bz_rule.specs.RowViews.{RowValue, row_of, row_statement, row_value, statement_back};
    ghost use Rattle.bz_rule.specs.private.RowEdits.{HasItsHead};

    ghost Value = { Statement };

    ghost coded = { code_by RowValue (Prim.hlevel codes) row_of row_statement statement_back };

    ghost view = { λ l. row_statement (row_value l.row.parts.items l.row.class l.row.start l.row.end) };

    ghost invariant = { λ l. HasItsHead
        (row_value l.row.parts.items l.row.class l.row.start l.row.end) l.head l.comments };
}

impl<'a> StatementRow<'a> {
    /// The statement of a row. What commands make of it stands in the arena.
    pub fn of_row(alloc: Global, bump: &'a Bump, row: Row<'a>) -> Result<StatementRow<'a>, NoMemory>
        requires { (s : Statement) × ((s.class ≡ class_of s.nodes) × IsRowOf s row) }
        ensures { IfOk result (λ stmt. (s : Statement) → IsRowOf s row.entry → stmt ≡ s) }
    {
        let head = Head::of_row(alloc, bump, &row)?;
        Ok(StatementRow::new(bump, row, head))
    }

    /// The statement of a row whose head is known.
    pub fn new(bump: &'a Bump, row: Row<'a>, head: Option<Head<'a>>) -> StatementRow<'a>
        requires { (s : Statement) × (IsRowOf s row × HasHead head s) }
        ensures { (s : Statement) → IsRowOf s row.entry → result ≡ s }
    {
        StatementRow {
            row,
            spare: Vec::new(bump),
            head,
            comments: 0,
            bump,
        }
    }

    /// The statement of a tree. What the tree owns of its texts is copied into the arena.
    pub fn of_stmt<'t: 'a>(
        alloc: Global,
        bump: &'a Bump,
        stmt: &Stmt<'t>,
    ) -> Result<StatementRow<'a>, NoMemory>
        ensures { IfOk result (λ row. row ≡ view stmt.now) }
    {
        let mut parts = Vec::new(bump);
        push_parts(bump, stmt, &mut parts)?;
        let head = if is_rule(&stmt.nodes) {
            Head::of_parts(alloc, bump, &parts, stmt.start, stmt.end)?
        } else {
            None
        };
        let row = Row {
            parts,
            class: stmt.class,
            start: stmt.start,
            end: stmt.end,
        };
        Ok(StatementRow::new(bump, row, head))
    }

    pub fn class(&self) -> Class
        ensures { result ≡ self.now.class }
    {
        self.row.class
    }

    fn is_rule(&self) -> bool
        ensures { result ≡ is_some (rule_of self.now.nodes) }
    {
        self.head.is_some()
    }

    /// Whether the target marks the statement.
    pub fn is_marked_by(&self, target: &Target) -> bool
        ensures { result ≡ marks.marks target.now self.now }
    {
        matches!(&self.head, Some(head) if head.is_marked_by(target))
    }

    /// The name of the rule that it is, if it has one.
    pub fn name(&self) -> Option<&str>
        ensures { (name : List ℕ) → marks.marks (Name name) self.now
            ≡ is_text name (option_map (λ text. text.now) result) }
    {
        self.head?.name
    }

    /// The rule that it is, by its name or by `%` and its kind; empty for a statement that is no rule.
    pub fn shown(&self, alloc: Global, home: &Package) -> Result<String, NoMemory>
        ensures { IfOk result (λ text. string_bytes text ≡ shown_text home.now self.now) }
    {
        match &self.head {
            None => Ok(String::new(alloc)),
            Some(head) => head.shown(alloc, home),
        }
    }

    /// Appends the canonical text of the statement, with its last newline. An `Err` leaves `out` as it was.
    pub fn put(&self, out: &mut Vec<u8>) -> Result<(), NoMemory>
        ensures appended { OnOk result (out.new.items ≡ out.old.items ++ layout_text self.now) }
        ensures unchanged { OnErr result (out.new.items ≡ out.old.items) }
    {
        put_row(&self.row, out)
    }

    /// Its tree, which owns its texts. `Err`: memory was refused.
    pub(crate) fn into_tree<'b>(self, alloc: Global) -> Result<Stmt<'b>, NoMemory>
        ensures { IfOk result (λ stmt. view stmt ≡ self.entry) }
    {
        let row = self.row;
        let stmt = stmt_of_parts(alloc, row.parts.as_slice(), row.class, row.start, row.end)?;
        stmt.copy(alloc)
    }

    // What is printed of it. Of what is no rule nothing is.
    fn print(&self, env: Env<'_>, fields: &[Field]) -> Executed
        ensures { IfOk result (λ done. done ≡ prints env.entry.home.now fields.now (Some self.now)) }
    {
        match self.head {
            None => Ok(Done::quiet(false)),
            Some(head) => print(env, fields, head, self.row.parts.as_slice()),
        }
    }

    // Puts what a command has written in its place. `Err`: memory was refused, and all is as it was.
    fn change(
        &mut self,
        env: Env<'_>,
        command: &Command,
        place: Place,
        new: &[Part<'a>],
    ) -> Result<(), NoMemory>
        requires rule { is_some (rule_of self.old.nodes) ≡ true }
        requires within { IsWithin place (parts_of self.old) }
        requires next { replaced_at place (map part_view new.now) (parts_of self.old)
            ≡ parts_of (rule_after command.now env.home.now self.old) }
        ensures changed { OnOk result (self.new ≡ rule_after command.now env.entry.home.now self.old) }
        ensures err { OnErr result (self.new ≡ self.old) }
    {
        if let Some(more) = kept_head(command) {
            put_in(&mut self.row.parts, place, new)?;
            self.comments = self.comments.saturating_add(more);
            return Ok(());
        }
        if let Action::Set(Setting::ToKind(kind)) = &command.action {
            let kind = alloc_str(self.bump, kind.as_str())?;
            put_in(&mut self.row.parts, place, new)?;
            self.head = of_kind(self.head, kind);
            return Ok(());
        }
        let mut list = with_room_for_both(self.bump, &self.row.parts, new, ROOM)?;
        extend_from_slice(&mut list, &self.row.parts)?;
        put_in(&mut list, place, new)?;
        let head = Head::of_parts(env.alloc, self.bump, &list, self.row.start, self.row.end)?;
        self.row.parts = list;
        self.head = head;
        Ok(())
    }

    // Applies a command that changes a rule.
    fn edit(&mut self, env: Env<'_>, command: &Command) -> Executed
        requires rule { is_some (rule_of self.old.nodes) ≡ true }
        requires edits { is_edit command.now ≡ true }
        ensures slot { OnOk result (Some self.new
            ≡ commands.after command.now env.entry.home.now (Some self.old)) }
        ensures done { IfOk result (λ done. done
            ≡ commands.done_of command.now env.entry.home.now (Some self.old)) }
        ensures err { OnErr result (self.new ≡ self.old) }
    {
        let mut new = mem::replace(&mut self.spare, Vec::new(self.bump));
        let edit = edit_rule(env, command, self, &mut new)?;
        let changed = if edit.done.changed {
            self.change(env, command, edit.place, &new)
        } else {
            Ok(())
        };
        self.spare = new;
        done_unless(changed, Ok(edit.done))
    }
}

// The head of the statement once it has this kind, if it is a rule: nothing else of it is another.
fn of_kind<'a>(head: Option<Head<'a>>, kind: &'a str) -> Option<Head<'a>>
    ensures { (s : Statement) → HasHead head.entry s → HasHead result (with_kind kind.now s) }
{
    match head {
        None => None,
        Some(head) => Some(Head { kind, ..head }),
    }
}

// `put.and(done)`: only here is it proved how what was done is dropped.
fn done_unless(put: Result<(), NoMemory>, done: Executed) -> Executed
    ensures { result ≡ result_and put done }
{
    put?;
    done
}

/// Applies a command to what a slot holds, as `apply` does. An `Err` leaves the slot as it was.
#[tactic(auto, using(crate::proofs::Lawfulness::no_rule_stays, crate::proofs::RowEdited::told_of_none))]
pub fn execute(env: Env<'_>, command: &Command, slot: &mut Option<StatementRow<'_>>) -> Executed
    ensures slot { OnOk result (slot.new ≡ commands.after command.now env.entry.home.now slot.old) }
    ensures done { IfOk result (λ done. done ≡ commands.done_of command.now env.entry.home.now slot.old) }
    ensures no_rule { effects.holds_rule slot.old ≡ false → IsOk result }
    ensures err { OnErr result (slot.new ≡ slot.old) }
{
    let Some(stmt) = slot else {
        return Ok(Done::quiet(false));
    };
    if !stmt.is_rule() {
        return Ok(Done::quiet(false));
    }
    match &command.action {
        Action::Delete => {
            *slot = None;
            Ok(Done::quiet(true))
        }
        Action::Print(fields) => stmt.print(env, fields.as_slice()),
        _ => stmt.edit(env, command),
    }
}
