//! Law on runs: what a run writes is read as what its script left.

ghost use Rattle.std.specs.Prelude.{◌≡◌, ◌≤◌, ℕ, List, Bool, false};
ghost use Rattle.bz_label.specs.Labels.{Package};
ghost use Rattle.bz_engine.specs.declared.report.End.TheVariants.{Whole};
ghost use Rattle.bz_engine.specs.Scripts.{AreCommands};
ghost use Rattle.bz_engine.specs.Outcome.{Run, Script, Told, IsOutcome, is_query};
ghost use Rattle.bz_laws.specs.Written.{HaveUtf8Words, left_by, IsTextOf};

/// Whatever a run writes, if its script is no query: the text has no fault, and it is read as the statements that the
/// script left of those that the run edited, with their strings as they are spelled and on whatever lines. A second run
/// over it that changes nothing writes the same bytes, with whatever script that is no query, if it keeps going or does
/// not end at a failure.
///
/// What is asked of commands and their words, each script has:
/// [`scripts_are_of_commands`](crate::script::scripts_are_of_commands).
pub fn what_is_written_reads_back()
    ensures read { (run : Run) (file text : List ℕ) (told : Told)
        → AreCommands run.passes → HaveUtf8Words run.passes → is_query run.passes ≡ false → 2 ≤ run.max_depth
        → (outcome : IsOutcome run file text told)
        → IsTextOf run.max_depth (left_by run.home run.passes outcome.edited) text }
    ensures again { (run : Run) (file text : List ℕ) (told : Told) → AreCommands run.passes
        → HaveUtf8Words run.passes → is_query run.passes ≡ false → 2 ≤ run.max_depth
        → IsOutcome run file text told
        → (there : Package) (others : Script) (going : Bool) (second : List ℕ) (told2 : Told)
        → is_query others ≡ false
        → IsOutcome (record run { home = there; passes = others; keep_going = going }) text second told2
        → (going ≡ false → told2.end ≡ Whole) → told2.changed ≡ false → second ≡ text }
{}
