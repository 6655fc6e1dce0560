//! Where the first list part of an attribute is, among the parts of its rule.

ghost use Rattle.std.specs.Prelude.{◌≡◌, map, length};
ghost use Rattle.bz_tree.specs.Tree.{Statement};
ghost use Rattle.bz_tree.specs.Rows.{part_view};
ghost use Rattle.bz_attribute.specs.RowPlaces.{IsRuleRow};
ghost use Rattle.bz_attribute.specs.Rules.{Rule};
ghost use Rattle.bz_rule.specs.private.ListPlaces as spec;

use bz_attribute::{first_list, value_place};
use bz_tree::Part;

/// Where the first list part of the first argument of a name is.
#[derive(Clone, Copy)]
pub enum ListPlace {
    /// No argument has the name.
    Absent,
    /// The argument has no list part.
    NoList,
    /// The elements begin there.
    At(usize),
}

/// Looks for it in the parts of a rule.
pub fn list_place(parts: &[Part<'_>], name: &str) -> ListPlace
    ensures within { spec.IsInside result (length parts.now) }
    ensures place { (s : Statement) (r : Rule) → IsRuleRow s r (map part_view parts.now)
        → spec.IsListPlace name.now s r (map part_view parts.now) result }
{
    let Some(value) = value_place(parts, name) else {
        return ListPlace::Absent;
    };
    match first_list(parts, value) {
        None => ListPlace::NoList,
        Some(list) => ListPlace::At(list),
    }
}
