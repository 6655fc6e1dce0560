//! A rule with sealed arguments is one of those that no command tells from the rule.

ghost use Rattle.std.specs.Prelude.{◌≡◌, ℕ, Bool, List, drop, map, true};
ghost use Rattle.bz_label.specs.Endings.{ending, literal_end};
ghost use Rattle.bz_label.specs.Labels.{Package};
ghost use Rattle.bz_rule.specs.Sealed.{IsSealed, is_asked_for};
ghost use Rattle.bz_canonical.specs.SealedRules.{are_alike, are_shown, count_sealed, sealed_rule};
ghost use Rattle.bz_canonical.specs.Sought.{marked};
ghost use Rattle.bz_canonical.specs.Spans.{IsSpannedIn, NamedRule, statement_of};
ghost use Rattle.bz_canonical.specs.declared.spans.ArgumentSpan.{ArgumentSpan};

/// Of the rule of which `seal` makes the row as many arguments are sealed as do not stay, and it is else the rule. What is
/// sealed has none of the names, and none of the values of which `seal` got the ends.
pub fn rules_are_sealed()
    ensures { (names values : List (List ℕ)) (home : Package) (depth : ℕ) (r : NamedRule)
        (stands : List (List ℕ)) (chunk written : List ℕ) (spans : List ArgumentSpan)
        → IsSpannedIn depth names r stands chunk written spans
        → (alone : Bool) (shown : List Bool)
        → shown ≡ are_shown alone (drop 1 (marked (map ending values) (map literal_end values) chunk spans))
        → IsSealed (λ run t. are_alike run t ≡ true) (is_asked_for names values home) (count_sealed shown)
        (statement_of r) (statement_of (sealed_rule shown r)) }
{}
