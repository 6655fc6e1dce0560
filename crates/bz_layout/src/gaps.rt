//! Empty lines between statements.

ghost use Rattle.std.specs.Prelude.{◌≡◌, ◌==◌, ◌++◌, is_ok, if◌then◌else◌};
ghost use Rattle.bz_layout.specs.Gaps.{lines_before, gap_text};

use bz_memory::{NoMemory, extend_from_slice};
use bz_tree::Class;

/// Whether an empty line stands before a statement of class `after`: none stands between two loads, between two
/// assignments, and before the first statement, where `before` is `None`; else one (this project's own rule).
pub fn blank_between(before: Option<Class>, after: Class) -> bool
    ensures { result ≡ (lines_before before after == 1) }
{
    !matches!(
        (before, after),
        (None, _) | (Some(Class::Load), Class::Load) | (Some(Class::Assign), Class::Assign)
    )
}

/// Writes what stands before a statement of class `after`: an empty line, or nothing.
pub fn put_gap(before: Option<Class>, after: Class, text: &mut Vec<u8>) -> Result<(), NoMemory>
    ensures gap { text.new.items
        ≡ (if is_ok result then text.old.items ++ gap_text (lines_before before after) else text.old.items) }
{
    let gap = if blank_between(before, after) {
        "\n"
    } else {
        ""
    };
    extend_from_slice(text, gap.as_bytes())
}
