//! Law of packages: one call for many packages is one call for each.

ghost use Rattle.std.specs.Prelude.{◌≡◌, ◌∷◌, Contains, List, [], flat_map, map};
ghost use Rattle.bz_label.specs.Labels.{Package};
ghost use Rattle.bz_script.specs.EachPackage.{packages_of, steps_for};
ghost use Rattle.bz_script.specs.Packages.{by_package};

/// A script asks of its packages, in the order of their first mention, what a script for each of them alone asks. That
/// one has the steps for the package in their order, and asks nothing of another.
pub fn one_call_is_one_for_each_package<T>()
    ensures each { (script : List (Package × T))
        → by_package script ≡ flat_map (λ home. by_package (steps_for home script)) (packages_of script) }
    ensures alone { (script : List (Package × T)) (home : Package) → Contains (packages_of script) home
        → by_package (steps_for home script) ≡ (home, map (λ step. step.1) (steps_for home script)) ∷ [] }
{}
