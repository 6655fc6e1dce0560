//! Laws on lines: commands and scripts leave a statement those on which it was read.

ghost use Rattle.std.specs.Prelude.{◌≡◌, ◌++◌, ◌∷◌, ℕ, List, [], Option, Some};
ghost use Rattle.bz_tree.specs.Tree.{Statement};
ghost use Rattle.bz_label.specs.Labels.{Package, Line};
ghost use Rattle.bz_attribute.specs.Marks.{marks};
ghost use Rattle.bz_rule.specs.Commands.{Command, after};
ghost use Rattle.bz_engine.specs.Outcome.{Script, left_in};
ghost use Rattle.bz_laws.specs.Lines.{KeepsLines};
ghost use Rattle.bz_laws.specs.Written.{left_by};

/// A command leaves a statement the lines on which it was read. So a target that is a line marks it afterwards exactly
/// if it did before.
pub fn lines_stay()
    ensures start { (c : Command) (home : Package) (s t : Statement) → after c home (Some s) ≡ Some t
        → t.start ≡ s.start }
    ensures end { (c : Command) (home : Package) (s t : Statement) → after c home (Some s) ≡ Some t
        → t.end ≡ s.end }
    ensures marks { (c : Command) (home : Package) (s t : Statement) (line : ℕ)
        → after c home (Some s) ≡ Some t
        → marks (Line line) t ≡ marks (Line line) s }
{}

/// What a script leaves of a statement, at its place among the others, is on the lines on which the statement was read.
/// So a pass after the script whose target is a line marks it exactly if it would have before.
pub fn lines_are_those_that_were_read()
    ensures { (home : Package) (passes : Script) (front back : List Statement) (s : Statement)
        → (left : Option Statement) × KeepsLines s left × (left_by home passes (front ++ s ∷ back)
        ≡ left_by home passes front ++ (left_in (left ∷ []) ++ left_by home passes back)) }
{}
