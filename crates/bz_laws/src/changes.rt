//! Law of the mark of change.

ghost use Rattle.std.specs.Prelude.{◌≡◌, ◌↔◌, Option, true};
ghost use Rattle.bz_tree.specs.Tree.{Statement};
ghost use Rattle.bz_rule.specs.Commands.{after, done_of, is_command, Command};
ghost use Rattle.bz_label.specs.Labels.{Package};

/// A command as [`read_command`](bz_rule::read_command) makes it tells that it changed something exactly where what
/// stands in the slot is another than before.
#[tactic(auto, using(bz_rule::proofs::Lawfulness::changed_tells))]
pub fn changed_tells_a_difference()
    ensures { (c : Command) (home : Package) (slot : Option Statement) → is_command c ≡ true
        → ((done_of c home slot).changed ≡ true) ↔ (after c home slot ≡ slot → ⊥) }
{}
