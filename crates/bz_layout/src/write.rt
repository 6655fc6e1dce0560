//! Gaps and brackets, appended to a text.

ghost use Rattle.std.specs.Prelude.{◌≡◌, ◌++◌};
ghost use Rattle.bz_layout.specs.Pieces.{indent, gap_bytes};
ghost use Rattle.bz_layout.specs.declared.spacing.Gap.TheVariants.{Line};
ghost use Rattle.bz_layout.specs.Layout.{has_commas};
ghost use Rattle.bz_layout.specs.Walked.{opening, closing};
ghost use Rattle.bz_layout.specs.private.RowLayout.{Puts};

use crate::append::Append;
use crate::spacing::Gap;
use bz_memory::NoMemory;
use bz_tree::GroupKind;

// What a bracket opens with, and what it closes with.
#[inline(always)]
pub(crate) fn brackets(kind: GroupKind) -> (&'static str, &'static str)
    ensures opening { result.0.now ≡ opening kind }
    ensures closing { result.1.now ≡ closing kind }
{
    match kind {
        GroupKind::Call | GroupKind::RuleCall | GroupKind::Load | GroupKind::Paren => ("(", ")"),
        GroupKind::List | GroupKind::Index | GroupKind::ListComp => ("[", "]"),
        GroupKind::Dict | GroupKind::DictComp => ("{", "}"),
    }
}

// Whether a broken group of `n` segments has a comma after each.
pub(crate) fn has_commas(kind: GroupKind, one_comma: bool, n: usize) -> bool
    ensures { result ≡ has_commas kind one_comma n }
{
    match kind {
        GroupKind::ListComp | GroupKind::DictComp | GroupKind::Index => false,
        GroupKind::Paren => one_comma || n >= 2,
        _ => true,
    }
}

fn put_indent<T: Append>(level: usize, out: &mut T) -> Result<(), NoMemory>
    ensures { Puts result (T.bytes out.old) (T.bytes out.new) (indent level) }
{
    for _ in 0..level {
        out.put("    ")?;
    }
    Ok(())
}

// Few lines are so deep that they begin here (`append.rt`).
#[inline(never)]
pub(crate) fn put_new_line<T: Append>(level: usize, out: &mut T) -> Result<(), NoMemory>
    ensures { Puts result (T.bytes out.old) (T.bytes out.new) (gap_bytes (Line level)) }
{
    out.put("\n")?;
    put_indent(level, out)
}

// Few parts are comments.
#[inline(never)]
pub(crate) fn put<T: Append>(gap: Gap, text: &str, out: &mut T) -> Result<(), NoMemory>
    ensures { Puts result (T.bytes out.old) (T.bytes out.new) (gap_bytes gap ++ text.now) }
{
    match gap {
        Gap::Closed => {}
        Gap::Space => out.put(" ")?,
        Gap::Apart => out.put("  ")?,
        Gap::Line(level) => put_new_line(level, out)?,
    }
    out.put(text)
}
