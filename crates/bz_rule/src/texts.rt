//! How a rule is shown, where it is a tree.

ghost use Rattle.std.specs.Prelude.{◌≡◌, IfOk, string_bytes};
ghost use Rattle.bz_tree.specs.View.{view};
ghost use Rattle.bz_attribute.specs.Texts.{shown_text};

use crate::statement_row::StatementRow;
use bumpalo::Bump;
use bz_label::Package;
use bz_memory::NoMemory;
use bz_tree::Stmt;
use std::alloc::Global;

/// The rule that a statement is, by its name or by `%` and its kind; empty for a statement that is no rule.
pub fn shown(alloc: Global, home: &Package, stmt: &Stmt<'_>) -> Result<String, NoMemory>
    ensures { IfOk result (λ text. string_bytes text ≡ shown_text home.now (view stmt.now)) }
{
    let bump = Bump::new(alloc);
    StatementRow::of_stmt(alloc, &bump, stmt)?.shown(alloc, home)
}
