//! Laws of rules with sealed arguments: no command and no target tells one from the rule.

ghost use Rattle.std.specs.Prelude.{◌≡◌, ℕ, Bool, List, Some, codes, true};
ghost use Rattle.bz_attribute.specs.Rules.{is_named};
ghost use Rattle.bz_label.specs.Labels.{Package};
ghost use Rattle.bz_tree.specs.Tree.{Segment, Statement};
ghost use Rattle.bz_rule.specs.Commands.{Command};
ghost use Rattle.bz_rule.specs.Sealed.{AreShownAlike, Covers, IsSealed, NotSeen, looks_at};

/// A command that looks at no arguments but some that are asked for sees nothing of those that are sealed, which are not,
/// be it one by one or runs of neighbours as one: it tells the same as of the rule, does the same, and leaves as many of
/// them. That holds however what is sealed is like what it stands for, so each is left to stand for the same arguments.
pub fn sealed_arguments_are_not_seen()
    ensures { (like : List Segment → Segment → Bool) (asks looks : Segment → Bool) (c : Command)
        (home : Package) → looks_at c home ≡ Some looks → Covers asks looks
        → NotSeen (λ run t. like run t ≡ true) asks c home }
{}

/// Where the argument `name` is asked for, a target marks a rule with sealed arguments as the rule, and it is shown as that.
pub fn sealed_rules_are_shown_alike()
    ensures { (like : List Segment → Segment → Bool) (asks : Segment → Bool)
        → Covers asks (is_named (codes "name"))
        → (count : ℕ) (s t : Statement) → IsSealed (λ run t. like run t ≡ true) asks count s t
        → AreShownAlike s t }
{}
