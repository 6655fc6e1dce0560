//! A value that becomes another in an argument whose value is one list of strings, by the lines of the argument.

ghost use Rattle.std.specs.Prelude.{IfOk, IfSome};
ghost use Rattle.bz_canonical.specs.Canonical.{read_alone};
ghost use Rattle.bz_canonical.specs.Replaced.{ReplacesInLines};

use crate::edited::{Becomes, EditedList, ListEdit, NewString, put_edited};
use bz_attribute::Env;
use bz_memory::NoMemory;
use bz_rule::forms::ReplacedValue;
use std::slice::from_ref;

/// What `replace` makes of the argument that has these lines, where its value is one list of strings
/// (`execute_on_list` of bz_engine asks). `Unchanged`: no element equals the old value, but those that are exactly the
/// new one. `Written`: those that do are the new value, and the lines are in the buffer, after its bytes. None: it may
/// be no such list. Without `Written` nothing is said of the buffer's bytes. Err: memory is wanting.
pub fn put_replaced(
    env: Env<'_>,
    lines: &str,
    replaced: ReplacedValue<'_>,
    max_depth: u8,
    written: &mut Vec<u8>,
) -> Result<Option<EditedList>, NoMemory>
    ensures { IfOk result (λ known. IfSome known (ReplacesInLines (read_alone max_depth env.entry.home.now lines.now)
        replaced.entry written.old.items written.new.items)) }
{
    let new = NewString {
        value: replaced.new,
        alloc: env.alloc,
    };
    let edit = ListEdit {
        attr: replaced.attr,
        words: from_ref(replaced.old),
        becomes: Becomes::Other(new),
    };
    put_edited(env.home, lines, edit, max_depth, written)
}
