//! The parts of a statement that has a tree, in the order in which they are written.

ghost use Rattle.std.specs.Prelude.{◌≡◌, [], ◌∷◌, ◌++◌, IfOk, OnOk, map, option_map};
ghost use Rattle.bz_tree.specs.Tree.{items_of, segs_of};
ghost use Rattle.bz_tree.specs.View.{text_of, texts, view, nodes_view, group_view, segs_view};
ghost use Rattle.bz_tree.specs.Rows.{above, beside_part, item_parts, items_parts, segs_parts, parts_of, part_view};

use crate::row::Part;
use crate::tree::{Group, Node, Seg, Stmt};
use bumpalo::Bump;
use bz_memory::{NoMemory, alloc_str, push};
use std::alloc::Allocator;
use std::borrow::CowStr;

// A text that lasts as long as the arena: the slice where it is borrowed, a copy in the arena where it is owned.
fn text_in<'a, 't: 'a>(bump: &'a Bump, text: &CowStr<'t>) -> Result<&'a str, NoMemory>
    ensures { IfOk result (λ slice. slice.now ≡ text_of text.now) }
{
    match text {
        CowStr::Borrowed(slice) => Ok(*slice),
        CowStr::Owned(string) => alloc_str(bump, string.as_str()),
    }
}

/// Appends the parts of a statement; texts that it owns are copied into the arena. `Err`: memory was refused, and some
/// of the parts may have been appended.
pub fn push_parts<'a, 't: 'a, A: Allocator>(
    bump: &'a Bump,
    stmt: &Stmt<'t>,
    parts: &mut Vec<Part<'a>, A>,
) -> Result<(), NoMemory>
    ensures { OnOk result (map part_view parts.new.items ≡ map part_view parts.old.items ++ parts_of (view stmt.now)) }
{
    push_above(bump, &stmt.before, parts)?;
    push_nodes(bump, &stmt.nodes, parts)?;
    push_beside(bump, &stmt.suffix, parts)
}

fn push_above<'a, 't: 'a, A: Allocator>(
    bump: &'a Bump,
    comments: &[CowStr<'t>],
    parts: &mut Vec<Part<'a>, A>,
) -> Result<(), NoMemory>
    ensures { OnOk result (map part_view parts.new.items
        ≡ map part_view parts.old.items ++ map above (texts comments.now)) }
{
    for comment in comments {
        push(parts, Part::Above(text_in(bump, comment)?))?;
    }
    Ok(())
}

fn push_beside<'a, 't: 'a, A: Allocator>(
    bump: &'a Bump,
    comment: &Option<CowStr<'t>>,
    parts: &mut Vec<Part<'a>, A>,
) -> Result<(), NoMemory>
    ensures { OnOk result
        (map part_view parts.new.items ≡ map part_view parts.old.items ++ beside_part (option_map text_of comment.now)) }
{
    match comment {
        None => Ok(()),
        Some(text) => push(parts, Part::Beside(text_in(bump, text)?)),
    }
}

#[cycle(parts)]
fn push_segment<'a, 't: 'a, A: Allocator>(
    bump: &'a Bump,
    seg: &Seg<'t>,
    parts: &mut Vec<Part<'a>, A>,
) -> Result<(), NoMemory>
    ensures { OnOk result (map part_view parts.new.items
        ≡ map part_view parts.old.items ++ segs_parts (segs_of (segs_view (seg.now ∷ [])))) }
{
    push_above(bump, &seg.before, parts)?;
    push_nodes(bump, &seg.nodes, parts)?;
    push(parts, Part::End)?;
    push_beside(bump, &seg.suffix, parts)
}

#[cycle(parts)]
fn push_group<'a, 't: 'a, A: Allocator>(
    bump: &'a Bump,
    group: &Group<'t>,
    parts: &mut Vec<Part<'a>, A>,
) -> Result<(), NoMemory>
    ensures { OnOk result
        (map part_view parts.new.items ≡ map part_view parts.old.items ++ item_parts (group_view group.now)) }
{
    push(parts, Part::Open(group.kind))?;
    for seg in &group.segs {
        push_segment(bump, seg, parts)?;
    }
    push_above(bump, &group.end, parts)?;
    push(parts, Part::Close(group.one_comma))
}

/// Appends the parts of these nodes; texts that they own are copied into the arena. `Err`: memory was refused, and some
/// of the parts may have been appended.
#[cycle(parts)]
pub fn push_nodes<'a, 't: 'a, A: Allocator>(
    bump: &'a Bump,
    nodes: &[Node<'t>],
    parts: &mut Vec<Part<'a>, A>,
) -> Result<(), NoMemory>
    ensures { OnOk result
        (map part_view parts.new.items
        ≡ map part_view parts.old.items ++ items_parts (items_of (nodes_view nodes.now))) }
{
    for node in nodes {
        match node {
            Node::Token(leaf) => push(parts, Part::Token(leaf.kind, text_in(bump, &leaf.text)?))?,
            Node::Group(group) => push_group(bump, group, parts)?,
        }
    }
    Ok(())
}
