//! Law of `set` and `print`: what was set is printed.

ghost use Rattle.std.specs.Prelude.{◌≡◌, ℕ, List, Some, is_some, map, true};
ghost use Rattle.bz_tree.specs.Tree.{Statement};
ghost use Rattle.bz_layout_laws.specs.Spelled.{spelled};
ghost use Rattle.bz_label.specs.Labels.{Package};
ghost use Rattle.bz_label.specs.declared.arguments.Setting.TheVariants.{ToValues};
ghost use Rattle.bz_attribute.specs.Rules.{first_named, rule_of};
ghost use Rattle.bz_rule.specs.Set.{new_of};
ghost use Rattle.bz_rule.specs.declared.command.Action.TheVariants.{Set};
ghost use Rattle.bz_rule.specs.Commands.{after};
ghost use Rattle.bz_laws.specs.Printed.{printed_of, words_printed};
ghost use Rattle.bz_laws.specs.Unmentioned.{arguments_of};

/// What an attribute of a rule was set to is what `print` prints of it. `read_back`: also where the statement was
/// written and read again, so that its strings are spelled otherwise.
pub fn what_is_set_is_printed()
    ensures now { (home : Package) (attr : List ℕ) (words : List (List ℕ)) (s t : Statement)
        → is_some (rule_of s.nodes) ≡ true → after (Set (ToValues attr words)) home (Some s) ≡ Some t
        → printed_of home attr t
        ≡ Some (words_printed (new_of attr words (first_named attr (arguments_of s)))) }
    ensures read_back { (home : Package) (attr : List ℕ) (words : List (List ℕ)) (s t u : Statement)
        → is_some (rule_of s.nodes) ≡ true → after (Set (ToValues attr words)) home (Some s) ≡ Some t
        → u.nodes ≡ map spelled t.nodes
        → printed_of home attr u
        ≡ Some (words_printed (new_of attr words (first_named attr (arguments_of s)))) }
{}
