//! Which groups are broken over lines.

ghost use Rattle.std.specs.Prelude.{◌≡◌};
ghost use Rattle.bz_layout.specs.Broken.{breaks_by_count};

use bz_tree::GroupKind;

/// Whether groups may be broken over lines. Definitions alone name it.
#[derive(Clone, Copy)]
pub enum Style {
    /// No group is broken, and comments are left out.
    Flat,
    /// Groups are broken where `is_broken` says so.
    Broken,
}

#[inline(always)]
pub(crate) fn breaks_by_count(kind: GroupKind, n: usize) -> bool
    ensures { result ≡ breaks_by_count kind n }
{
    match kind {
        GroupKind::List | GroupKind::RuleCall => n >= 2,
        GroupKind::Dict => n >= 1,
        _ => false,
    }
}
