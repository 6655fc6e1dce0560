//! Nodes on one line.

ghost use Rattle.std.specs.Prelude.{◌≡◌, IfOk, List, map, string_bytes};
ghost use Rattle.bz_tree.specs.Rows.{items_parts, part_view};
ghost use Rattle.bz_tree.specs.Tree.{Item, items_of};
ghost use Rattle.bz_tree.specs.View.{nodes_view};
ghost use Rattle.bz_layout.specs.Layout.{flat_text};

use crate::walk::RowWriter;
use bumpalo::Bump;
use bz_memory::NoMemory;
use bz_tree::{GroupKind, Node, Part, push_nodes};
use std::alloc::Global;

/// Writes nodes on one line, without comments, and strings as in a statement. `in_group` is the group that the nodes
/// stand in, and decides what a colon and a star are. `Err`: memory was refused.
pub fn flat(
    alloc: Global,
    nodes: &[Node<'_>],
    in_group: Option<GroupKind>,
) -> Result<String, NoMemory>
    ensures text { IfOk result (λ s. string_bytes s ≡ flat_text in_group (nodes_view nodes.now)) }
{
    let bump = Bump::new(alloc);
    let mut parts = Vec::new(alloc);
    push_nodes(&bump, nodes, &mut parts)?;
    let text = flat_parts(alloc, &parts, in_group)?;
    Ok(text)
}

/// Writes the nodes that have these parts as `flat` does. `Err`: memory was refused.
pub fn flat_parts(
    alloc: Global,
    parts: &[Part<'_>],
    in_group: Option<GroupKind>,
) -> Result<String, NoMemory>
    ensures text { IfOk result (λ s. (nodes : List Item) → map part_view parts.now ≡ items_parts (items_of nodes)
        → string_bytes s ≡ flat_text in_group nodes) }
{
    let mut text = String::new(alloc);
    let bump = Bump::new(alloc);
    let mut walk = RowWriter::new(&bump, Vec::new(&bump), in_group)?;
    walk.run(parts, &mut text)?;
    Ok(text)
}
