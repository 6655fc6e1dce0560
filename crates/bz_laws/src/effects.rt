//! Laws of what commands add, set and remove.

ghost use Rattle.std.specs.Prelude.{◌≡◌, ◌≤◌, ◌++◌, ◌∷◌, ℕ, List, [], None, Option, filter, length, false, true, ◌&&◌};
ghost use Rattle.std.specs.List.{list_all, list_any};
ghost use Rattle.bz_tree.specs.Tree.{Segment, Statement};
ghost use Rattle.bz_rule.specs.Commands.{after, done_of};
ghost use Rattle.bz_label.specs.declared.arguments.Attributes.TheVariants.{Every, Named};
ghost use Rattle.bz_label.specs.declared.arguments.Setting.TheVariants.{ToKind, ToValues};
ghost use Rattle.bz_label.specs.declared.arguments.Chosen.TheVariants.{Values};
ghost use Rattle.bz_rule.specs.declared.command.Action.TheVariants.{Add, Set};
ghost use Rattle.bz_label.specs.Labels.{Package};
ghost use Rattle.bz_attribute.specs.Lists.{is_attribute};
ghost use Rattle.bz_attribute.specs.Rules.{first_named, is_named};
ghost use Rattle.bz_token.specs.Common.{map_or};
ghost use Rattle.bz_rule.specs.Add as add;
ghost use Rattle.bz_attribute.specs.Effects as effects;
ghost use Rattle.bz_attribute.specs.Reports.{chooses};
ghost use Rattle.bz_rule.specs.Remove as remove;

/// Where `add` does not fail, an element equals each of its values afterwards, so `remove` finds them.
#[tactic(auto, using(crate::proofs::Found::add_found))]
pub fn added_values_are_found()
    ensures { (home : Package) (attr : List ℕ) (values : List (List ℕ)) (args : List Segment)
        → effects.no_list_note attr (first_named attr args) ≡ None
        → list_all
        (λ v. map_or false (chooses home (Values (v ∷ [])))
        (first_named attr (add.add home attr values args))) values
        ≡ true }
{}

/// A second `add` of the same values does nothing.
pub fn add_twice_is_add_once()
    ensures { (home : Package) (attr : List ℕ) (values : List (List ℕ)) (slot : Option Statement)
        → after (Add attr values) home (after (Add attr values) home slot) ≡ after (Add attr values) home slot }
{}

/// A second `set` of the same changes nothing.
pub fn set_twice_changes_nothing()
    ensures values { (home : Package) (attr : List ℕ) (values : List (List ℕ)) (slot : Option Statement)
        → (done_of (Set (ToValues attr values)) home (after (Set (ToValues attr values)) home slot)).changed ≡ false }
    ensures kind { (home : Package) (kind : List ℕ) (slot : Option Statement)
        → (done_of (Set (ToKind kind)) home (after (Set (ToKind kind)) home slot)).changed ≡ false }
{}

/// What `remove` removes is not there afterwards: attributes; the values, where there is one argument of the name at
/// most; the values in all attributes. Where there are more of the name, the first is edited and all else stays.
#[tactic(auto, using(crate::proofs::Gone::removed_named, crate::proofs::Gone::removed_everywhere))]
pub fn removed_is_gone()
    ensures attribute { (home : Package) (attr : List ℕ) (args : List Segment)
        → effects.has attr (remove.remove home (Named attr) [] args) ≡ false }
    ensures all { (home : Package) (args : List Segment)
        → list_any remove.goes_with_all (remove.remove home Every [] args) ≡ false }
    ensures values { (home : Package) (attr : List ℕ) (values : List (List ℕ)) (args : List Segment)
        → length (filter (is_named attr) args) ≤ 1
        → map_or false (chooses home (Values values))
        (first_named attr (remove.remove home (Named attr) values args))
        ≡ false }
    ensures everywhere { (home : Package) (values : List (List ℕ)) (args : List Segment)
        → list_any (λ a. is_attribute a && chooses home (Values values) a)
        (remove.remove home Every values args) ≡ false }
    ensures edited { (home : Package) (values : List (List ℕ)) (a : Segment) → is_attribute a ≡ true
        → list_any (chooses home (Values values)) (effects.filtered (effects.unchosen home (Values values)) a)
        ≡ false }
    ensures rest { (home : Package) (attr : List ℕ) (values : List (List ℕ)) (front rest : List Segment) (a : Segment)
        → effects.has attr front ≡ false → is_named attr a ≡ true
        → effects.edit_first (is_named attr) (effects.filtered (effects.unchosen home (Values values)))
        (front ++ a ∷ rest)
        ≡ front ++ (effects.filtered (effects.unchosen home (Values values)) a ++ rest) }
{}
