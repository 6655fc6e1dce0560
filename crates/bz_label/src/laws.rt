//! Laws of the definitions that the contracts cite. Each function does nothing: its contract is the law.

ghost use Rattle.std.specs.Prelude.{◌≡◌, ℕ, List, Some};
ghost use Rattle.bz_label.specs.Labels.{Package};
ghost use Rattle.bz_label.specs.Same.{same};
ghost use Rattle.std.specs.Cmp.{IsEquivalence};
ghost use Rattle.bz_label.specs.Values.{value_of, quoted};

/// The literal that is written for a value has this value.
pub fn quoted_reads_back()
    ensures { (value : List ℕ) → value_of (quoted value) ≡ Some value }
{}

/// In each package, to be the same label is an equivalence.
pub fn sameness_is_an_equivalence()
    ensures { (home : Package) → IsEquivalence (same home) }
{}
