//! Laws of targets.

ghost use Rattle.std.specs.Prelude.{◌≡◌, ◌↔◌, ℕ, List, Some, is_some, true};
ghost use Rattle.bz_tree.specs.Tree.{Statement};
ghost use Rattle.bz_label.specs.Labels as spec;
ghost use Rattle.bz_attribute.specs.Marks.{marks};
ghost use Rattle.bz_attribute.specs.Rules.{Rule, rule_of, name_in, kind_text};

/// Only a rule is marked: by its name, by its kind, or as every rule is.
pub fn marks_are_of_rules()
    ensures rules { (target : spec.Target) (s : Statement) → marks target s ≡ true → is_some (rule_of s.nodes) ≡ true }
    ensures name { (name : List ℕ) (s : Statement) (r : Rule) → rule_of s.nodes ≡ Some r
        → (marks (spec.Name name) s ≡ true) ↔ (name_in r.args ≡ Some name) }
    ensures kind { (kind : List ℕ) (s : Statement) (r : Rule) → rule_of s.nodes ≡ Some r
        → (marks (spec.Kind kind) s ≡ true) ↔ (kind_text r.kind ≡ kind) }
    ensures all { (s : Statement) → is_some (rule_of s.nodes) ≡ true → marks spec.All s ≡ true }
{}
