//! Law on passes on rules of other names: their order does not count.

ghost use Rattle.std.specs.Prelude.{◌≡◌, ◌++◌, ◌∷◌, ℕ, List, bytes_eq, false, true};
ghost use Rattle.bz_tree.specs.Tree.{Statement};
ghost use Rattle.bz_label.specs.Labels.{Package};
ghost use Rattle.bz_engine.specs.Outcome.{Script};
ghost use Rattle.bz_rule.specs.Commands.{Command};
ghost use Rattle.bz_laws.specs.OtherNames.{leave_names, pass_on};
ghost use Rattle.bz_laws.specs.Written.{left_by};

/// Two passes in a row, on rules of two names, leave the same statements in either order, if no command of theirs may
/// change the name of a rule. (What they tell stands in their order.)
pub fn passes_on_other_names_commute()
    ensures { (home : Package) (front back : Script) (ss : List Statement)
        (a b : List ℕ) (cs ds : List Command) → bytes_eq a b ≡ false → leave_names cs ≡ true → leave_names ds ≡ true
        → left_by home (front ++ pass_on a cs ∷ pass_on b ds ∷ back) ss
        ≡ left_by home (front ++ pass_on b ds ∷ pass_on a cs ∷ back) ss }
{}
