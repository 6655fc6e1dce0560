//! The canonical text of a statement, by its parts.

ghost use Rattle.std.specs.Prelude.{◌≡◌, ◌++◌, OnOk, OnErr, map};
ghost use Rattle.bz_tree.specs.Tree.{Statement};
ghost use Rattle.bz_tree.specs.View.{view};
ghost use Rattle.bz_tree.specs.Rows.{IsRowOf, part_view, parts_of};
ghost use Rattle.bz_layout.specs.Pieces.{bytes_of, comment_lines};
ghost use Rattle.bz_layout.specs.Layout.{is_comment, layout_text};
ghost use Rattle.bz_layout.specs.private.RowLayout.{IsBegunBy, Puts, leading, lines_text};

use crate::append::Append;
use crate::marks::marks_of;
use crate::walk::RowWriter;
use bumpalo::Bump;
use bz_memory::NoMemory;
use bz_tree::{Class, Part, Row, Stmt, push_parts};
use std::alloc::Global;

// The comments above the statement, each with its newline.
#[inline(always)]
fn put_leading(parts: &[Part<'_>], out: &mut Vec<u8>) -> Result<(), NoMemory>
    ensures { Puts result out.old.items out.new.items (bytes_of (comment_lines (leading (map part_view parts.now)))) }
{
    for part in parts {
        let Part::Above(comment) = part else {
            return Ok(());
        };
        out.put(comment)?;
        out.put("\n")?;
    }
    Ok(())
}

// The comments above the statement, and its line. After a refusal some of it may stand in `out`. The lists of the walks
// stand in the arena.
fn put_lines(bump: &Bump, parts: &[Part<'_>], out: &mut Vec<u8>) -> Result<(), NoMemory>
    ensures text { OnOk result (out.new.items ≡ lines_text out.old.items (map part_view parts.now)) }
    ensures begun { IsBegunBy out.old.items out.new.items }
{
    put_leading(parts, out)?;
    let marks = marks_of(bump, parts)?;
    let mut walk = RowWriter::new(bump, marks, None)?;
    walk.run(parts, out)?;
    out.put("\n")
}

// After a refusal nothing of the text stands there.
fn put_parts(
    bump: &Bump,
    parts: &[Part<'_>],
    class: Class,
    out: &mut Vec<u8>,
) -> Result<(), NoMemory>
    ensures appended { OnOk result
        ((s : Statement) → map part_view parts.now ≡ parts_of s → class ≡ s.class
        → out.new.items ≡ out.old.items ++ layout_text s) }
    ensures unchanged { OnErr result (out.new.items ≡ out.old.items) }
{
    let len = out.len();
    let put = match class {
        Class::Comment => put_leading(parts, out),
        _ => put_lines(bump, parts, out),
    };
    if put.is_err() {
        out.truncate(len);
    }
    put
}

/// Appends the canonical text of a statement, with its last newline (the layout is this project's own). `Err`: memory
/// was refused, and `out` is as it was.
pub fn put_stmt(alloc: Global, stmt: &Stmt<'_>, out: &mut Vec<u8>) -> Result<(), NoMemory>
    ensures appended { OnOk result (out.new.items ≡ out.old.items ++ layout_text (view stmt.now)) }
    ensures unchanged { OnErr result (out.new.items ≡ out.old.items) }
{
    let bump = Bump::new(alloc);
    let mut parts = Vec::new(alloc);
    push_parts(&bump, stmt, &mut parts)?;
    put_parts(&bump, &parts, stmt.class, out)
}

/// Appends the text of a row's statement, as `put_stmt` does. What it needs for itself stands in the arena of the row.
/// `Err`: memory was refused, and `out` is as it was.
pub fn put_row(row: &Row<'_>, out: &mut Vec<u8>) -> Result<(), NoMemory>
    ensures appended { OnOk result
        ((s : Statement) → IsRowOf s row.now → out.new.items ≡ out.old.items ++ layout_text s) }
    ensures unchanged { OnErr result (out.new.items ≡ out.old.items) }
{
    put_parts(row.parts.allocator(), &row.parts, row.class, out)
}
