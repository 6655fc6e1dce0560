//! A command on a rule, by its parts: it tells which of them give way to which new ones.

ghost use Rattle.std.specs.Prelude.{◌≡◌, IfOk, IfSome, IsTrue, Some, bytes_eq, codes, false, is_some, map, true};
ghost use Rattle.bz_tree.specs.Tree.{Statement};
ghost use Rattle.bz_tree.specs.Rows.{part_view, parts_of};
ghost use Rattle.bz_attribute.specs.RowEdits.{IsWithin};
ghost use Rattle.bz_attribute.specs.Rules.{Rule, rule_of};
ghost use Rattle.bz_label.specs.Labels as labels;
ghost use Rattle.bz_rule.specs.private.RowEdits.{IsEditFor, KeepsHead, is_edit, rule_after};

use crate::command::{Action, Command, edit_arguments, one_attribute};
use crate::commands::line::comment_rule;
use crate::commands::set_kind::set_kind;
use crate::statement_row::StatementRow;
use bz_attribute::{Edit, Env, Parts, Place};
use bz_label::{Attributes, Commented, Setting, Text};
use bz_memory::NoMemory;

/// What a command makes of a rule. The new parts go into a list. `Err`: memory was refused, and the list is of no use.
pub(crate) fn edit_rule<'a>(
    env: Env<'_>,
    command: &Command,
    stmt: &StatementRow<'a>,
    new: &mut Parts<'a>,
) -> Result<Edit, NoMemory>
    requires edits { is_edit command.now ≡ true }
    requires rule { is_some (rule_of stmt.now.nodes) ≡ true }
    ensures within { IfOk result (λ e. IsWithin e.place (parts_of stmt.now)) }
    ensures edit { IfOk result (IsEditFor command.now env.entry.home.now stmt.now
        (map part_view new.new.items)) }
{
    // The comments that commands have added are many, if anything is: nobody has to go over them.
    let comments = stmt.comments;
    let parts = &stmt.row.parts[comments..];
    let kind = match &stmt.head {
        None => "",
        Some(head) => head.kind,
    };
    let mut edit = match &command.action {
        Action::Set(Setting::ToKind(new_kind)) => set_kind(new_kind.as_str(), kind, parts, new),
        Action::Comment(Commented::Rule, text) => {
            comment_rule(env.alloc, text.as_str(), parts, new)
        }
        _ => edit_arguments(env, &command.action, parts, new),
    }?;
    edit.place = Place {
        from: comments + edit.place.from,
        to: comments + edit.place.to,
    };
    Ok(edit)
}

/// How many comments more the rule has above it after the command, at least, where it keeps its head.
#[tactic(auto, using(crate::proofs::HeadKept::above_stays))]
pub(crate) fn kept_head(command: &Command) -> Option<usize>
    ensures { IfSome result (λ more. (home : labels.Package) (s : Statement) (r : Rule)
        → rule_of s.nodes ≡ Some r
        → KeepsHead more s (rule_after command.now home s)) }
{
    match &command.action {
        Action::Comment(Commented::Rule, _) => Some(1),
        Action::Rename(old, new) if is_other(old) && is_other(new) => Some(0),
        Action::Move(old, new, _) if is_other(old) && is_other(new) => Some(0),
        Action::Remove(Attributes::Named(attr), _) if is_other(attr) => Some(0),
        _ => match one_attribute(command) {
            Some(attr) if attr != "name" => Some(0),
            _ => None,
        },
    }
}

/// It is another attribute than the name.
fn is_other(attr: &Text) -> bool
    ensures { IsTrue result → bytes_eq attr.now (codes "name") ≡ false }
{
    attr.as_str() != "name"
}
