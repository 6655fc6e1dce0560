//! The parts of a new argument that is a list.

ghost use Rattle.std.specs.Prelude.{◌≡◌, ◌++◌, ◌∷◌, [], false, codes, map, OnOk};
ghost use Rattle.bz_token.specs.declared.token.Kind.TheVariants.{Identifier, Operator};
ghost use Rattle.bz_tree.specs.declared.tree.GroupKind.TheVariants.{List as ListKind};
ghost use Rattle.bz_tree.specs.Rows.{a_token, closing, opening, part_view, segment_end};

use bz_attribute::{Parts, begin_argument};
use bz_memory::{NoMemory, push};
use bz_tree::{GroupKind, Part};

/// Begins an argument of a name whose value is a list.
pub(crate) fn open_attribute(attr: &str, written: &mut Parts<'_>) -> Result<(), NoMemory>
    ensures { OnOk result (map part_view written.new.items ≡ map part_view written.old.items
        ++ (a_token Identifier attr.now ∷ a_token Operator (codes "=") ∷ opening ListKind ∷ [])) }
{
    begin_argument(attr, written)?;
    push(written, Part::Open(GroupKind::List))
}

/// Ends the argument after the elements of its list.
pub(crate) fn close_attribute(written: &mut Parts<'_>) -> Result<(), NoMemory>
    ensures { OnOk result (map part_view written.new.items
        ≡ map part_view written.old.items ++ (closing false ∷ segment_end ∷ [])) }
{
    push(written, Part::Close(false))?;
    push(written, Part::End)
}
