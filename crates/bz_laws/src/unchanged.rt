//! Law on a second run: over a text that was written, a script that changes nothing writes the same bytes.

ghost use Rattle.std.specs.Prelude.{◌≡◌, ℕ, List, Bool, None, false};
ghost use Rattle.std.specs.List.{AllByRecursion};
ghost use Rattle.bz_tree.specs.Tree.{Statement};
ghost use Rattle.bz_label.specs.Labels.{Package};
ghost use Rattle.bz_engine.specs.declared.report.End.TheVariants.{Whole};
ghost use Rattle.bz_engine.specs.Outcome.{Run, Script, Told, IsOutcome, is_query, slots_of, text_of};
ghost use Rattle.bz_laws.specs.Sound.{IsSound};

/// A run over the text of sound statements, whose script is no query and changes nothing, writes the same bytes. It
/// keeps going, or does not end at a failure.
pub fn a_run_that_changes_nothing_writes_the_same()
    ensures { (run : Run) (ss : List Statement) (text : List ℕ) (told : Told)
        → AllByRecursion (IsSound run.max_depth) ss → is_query run.passes ≡ false
        → IsOutcome run (text_of ss) text told
        → (run.keep_going ≡ false → told.end ≡ Whole) → told.changed ≡ false → text ≡ text_of ss }
{}
