//! Laws on a script that runs again: it finds nothing to do.

ghost use Rattle.std.specs.Prelude.{◌≡◌, ◌≢◌, ◌≤◌, ℕ, Bool, List, false, true};
ghost use Rattle.std.specs.List.{AllByRecursion};
ghost use Rattle.bz_tree.specs.Tree.{Statement};
ghost use Rattle.bz_label.specs.Labels.{Package};
ghost use Rattle.bz_engine.specs.Scripts.{AreCommands};
ghost use Rattle.bz_engine.specs.Outcome.{Run, Script, IsOutcome, is_query, some_failure, status_of, told_by};
ghost use Rattle.bz_engine.specs.declared.report.Report.{Report};
ghost use Rattle.bz_laws.specs.Repeatable.{FindsNothing, HasNamesOnce, is_repeatable};
ghost use Rattle.bz_laws.specs.Written.{HaveUtf8Words, left_by};

use crate::again::a_second_time_finds_nothing;

/// Where a repeatable script did not fail on rules that have no attribute twice, it finds nothing to do in what it
/// left.
pub fn the_same_script_finds_nothing()
    ensures { (home : Package) (passes : Script) (ss : List Statement) → AreCommands passes
        → is_repeatable passes ≡ true → AllByRecursion HasNamesOnce ss → some_failure home passes ss ≡ false
        → FindsNothing home passes (left_by home passes ss) ss }
{
    a_second_time_finds_nothing();
}

/// A second run of a repeatable script, over the text that the first wrote with status 0 or 3, writes the same bytes
/// and has status 3; whether the one or the other keeps going.
pub fn the_same_script_twice()
    ensures { (run : Run) (going : Bool) (file text second : List ℕ) (report again : Report) → AreCommands run.passes
        → HaveUtf8Words run.passes → is_query run.passes ≡ false → 2 ≤ run.max_depth
        → is_repeatable run.passes ≡ true
        → (outcome : IsOutcome run file text (told_by report)) → status_of report ≢ 2
        → AllByRecursion HasNamesOnce outcome.edited
        → IsOutcome (record run { keep_going = going }) text second (told_by again)
        → (status_of again ≡ 3) × (second ≡ text) }
{
    a_second_time_finds_nothing();
}
