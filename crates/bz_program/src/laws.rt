//! Laws of the program: theorems over its definitions.

ghost use Rattle.std.specs.Prelude.{◌≡◌, ℕ, List};
ghost use Rattle.bz_engine.specs.declared.report.Report.{Report};
ghost use Rattle.bz_engine.specs.Outcome.{told_by};
ghost use Rattle.bz_program.specs.Runs.{Job, IsReadOf, IsRun};

/// What `-stdout` shows of a file is what the run without it puts into the file, however its bytes were read: two runs
/// of one job over one file write the same text and tell the same.
pub fn the_preview_is_the_edit()
    ensures { (job : Job) (file : List ℕ) (read other_read : List (List ℕ)) (text other_text : List ℕ)
        (report other_report : Report) → IsReadOf file read → IsReadOf file other_read
        → IsRun job read text report → IsRun job other_read other_text other_report
        → (text ≡ other_text) × (told_by report ≡ told_by other_report) }
{}
