//! Values that go from an argument whose value is one list of strings, by the lines of the argument.

ghost use Rattle.std.specs.Prelude.{IfOk, IfSome};
ghost use Rattle.bz_canonical.specs.Canonical.{read_alone};
ghost use Rattle.bz_canonical.specs.Removed.{RemovesFromLines};

use crate::edited::{Becomes, EditedList, ListEdit, put_edited};
use bz_label::Package;
use bz_memory::NoMemory;
use bz_rule::forms::AttributeValues;

/// What `remove` makes of the argument that has these lines, where its value is one list of strings (`execute_on_list`
/// of bz_engine asks). `Unchanged`: no element equals a value. `Written`: those that do are gone, and the lines are in
/// the buffer, after its bytes, or none where the argument goes with them. None: it may be no such list. Without
/// `Written` nothing is said of the buffer's bytes. Err: memory is wanting.
pub fn put_removed(
    home: &Package,
    lines: &str,
    old: AttributeValues<'_>,
    max_depth: u8,
    written: &mut Vec<u8>,
) -> Result<Option<EditedList>, NoMemory>
    ensures { IfOk result (λ known. IfSome known (RemovesFromLines (read_alone max_depth home.now lines.now) old.entry
        written.old.items written.new.items)) }
{
    if old.values.is_empty() {
        return Ok(None);
    }
    let edit = ListEdit {
        attr: old.attr,
        words: old.values,
        becomes: Becomes::Gone,
    };
    put_edited(home, lines, edit, max_depth, written)
}
