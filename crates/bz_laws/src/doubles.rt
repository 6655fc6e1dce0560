//! Law of `add`: it makes no double.

ghost use Rattle.std.specs.Prelude.{◌≡◌, ℕ, List, true};
ghost use Rattle.bz_tree.specs.Tree.{Segment};
ghost use Rattle.bz_label.specs.Labels.{Package};
ghost use Rattle.bz_attribute.specs.Rules.{first_named};
ghost use Rattle.bz_rule.specs.Add as add;
ghost use Rattle.bz_rule.specs.Move.{elements_of};
ghost use Rattle.bz_laws.specs.Doubles.{has_no_double};

/// Where no two elements of the lists of an attribute are the same label in the package, none are after `add`. So it is
/// of an attribute that was absent.
#[tactic(auto, using(crate::proofs::NoDoubles::added_apart))]
pub fn add_makes_no_double()
    ensures { (home : Package) (attr : List ℕ) (values : List (List ℕ)) (args : List Segment)
        → has_no_double home (elements_of (first_named attr args)) ≡ true
        → has_no_double home (elements_of (first_named attr (add.add home attr values args))) ≡ true }
{}
