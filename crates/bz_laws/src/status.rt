//! Law on the status of a run: what 0, 3 and 2 say of the file.

ghost use Rattle.std.specs.Prelude.{◌≡◌, ◌≢◌, ◌⊎◌, ℕ, List, Bool, if◌then◌else◌, [], false, true};
ghost use Rattle.bz_tree.specs.Tree.{Statement};
ghost use Rattle.bz_label.specs.Labels.{Package};
ghost use Rattle.bz_engine.specs.Outcome.{Run, Script, IsOutcome, is_query, status_of, text_of, told_by};
ghost use Rattle.bz_engine.specs.declared.report.Report.{Report};
ghost use Rattle.bz_engine.specs.declared.report.End.TheVariants.{Whole};
ghost use Rattle.bz_laws.specs.Status.{IsDoneWhole, SomeChange};

/// Status 0 or 3: the file has no fault, all its statements were edited, and nothing failed. Status 0: some command
/// left some statement different from what it found. Status 3: none did, and what is written is the layout of the file
/// as it is. Status 2 is told of nothing else.
pub fn the_status_tells()
    ensures whole { (run : Run) (file text : List ℕ) (report : Report) → IsOutcome run file text (told_by report)
        → status_of report ≢ 2 → (report.end ≡ Whole)
        × (statements : List Statement) × IsDoneWhole run file text statements }
    ensures changed { (run : Run) (file text : List ℕ) (report : Report) → IsOutcome run file text (told_by report)
        → status_of report ≡ 0
        → (statements : List Statement) × IsDoneWhole run file text statements
        × SomeChange run.home run.passes statements }
    ensures unchanged { (run : Run) (file text : List ℕ) (report : Report) → IsOutcome run file text (told_by report)
        → status_of report ≡ 3
        → (statements : List Statement) × IsDoneWhole run file text statements
        × (SomeChange run.home run.passes statements → ⊥)
        × (text ≡ (if is_query run.passes then [] else text_of statements)) }
    ensures done { (run : Run) (file text : List ℕ) (report : Report) (statements : List Statement)
        → IsOutcome run file text (told_by report)
        → IsDoneWhole run file text statements → status_of report ≢ 2 }
{}
