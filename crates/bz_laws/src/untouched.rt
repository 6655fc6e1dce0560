//! Law on what a script does not mark: it stays as it was written.

ghost use Rattle.std.specs.Prelude.{◌≡◌, ◌++◌, ◌∷◌, ℕ, List, Bool, None, true, false};
ghost use Rattle.bz_tree.specs.Tree.{Statement};
ghost use Rattle.bz_layout.specs.Layout.{layout_text};
ghost use Rattle.bz_label.specs.Labels.{Package};
ghost use Rattle.bz_engine.specs.declared.report.End.TheVariants.{Whole};
ghost use Rattle.bz_engine.specs.File.{IsFile};
ghost use Rattle.bz_engine.specs.Outcome.{Run, Script, Told, IsOutcome, is_query, text_of};
ghost use Rattle.bz_laws.specs.Untouched.{is_unmarked, StandsIn};
ghost use Rattle.bz_laws.specs.Written.{left_by};

/// A statement that no pass marks stays, at its place among the others. What a run writes is the text of it and of what
/// the script left before it and after it. In a file that is laid out, its bytes are written as they stand in the file.
pub fn what_no_pass_marks_stays()
    ensures statement { (home : Package) (passes : Script) (front back : List Statement) (s : Statement)
        → is_unmarked passes s ≡ true
        → left_by home passes (front ++ s ∷ back) ≡ left_by home passes front ++ s ∷ left_by home passes back }
    ensures text { (run : Run) (file text : List ℕ) (told : Told) (outcome : IsOutcome run file text told)
        (front back : List Statement) (s : Statement)
        → is_query run.passes ≡ false → outcome.edited ≡ front ++ s ∷ back → is_unmarked run.passes s ≡ true
        → (text ≡ text_of (left_by run.home run.passes front ++ s ∷ left_by run.home run.passes back))
        × StandsIn (layout_text s) text }
    ensures bytes { (run : Run) (file text : List ℕ) (told : Told)
        (front back : List Statement) (s : Statement) → IsFile run.max_depth file (front ++ s ∷ back) None
        → file ≡ text_of (front ++ s ∷ back) → IsOutcome run file text told
        → (run.keep_going ≡ false → told.end ≡ Whole) → is_query run.passes ≡ false → is_unmarked run.passes s ≡ true
        → StandsIn (layout_text s) file × StandsIn (layout_text s) text
        × (text ≡ text_of (left_by run.home run.passes front ++ s ∷ left_by run.home run.passes back)) }
{}
