//! Copies of statements.

ghost use Rattle.std.specs.Prelude.{◌≡◌, IfOk, map, option_map};
ghost use Rattle.bz_tree.specs.View.{text_of, texts, view, node_view, group_view, seg_view};
ghost use Rattle.bz_tree.specs.Places.{spelling, node_spelling, group_spelling, seg_spelling};

use crate::tree::{Group, Leaf, Node, Seg, Stmt};
use bz_memory::{NoMemory, from_str, push, with_room_for};
use std::alloc::Global;
use std::borrow::CowStr;

impl<'a> Stmt<'a> {
    ghost use Rattle.bz_tree.specs.View.{view};
    ghost use Rattle.bz_tree.specs.Places.{spelling};

    /// An equal statement, line numbers and the places of its leaves included. It owns its texts, so it outlives this
    /// one and the chunk. `Err`: memory was refused.
    pub fn copy<'b>(&self, alloc: Global) -> Result<Stmt<'b>, NoMemory>
        ensures equal { IfOk result (λ s. view s ≡ view self.now) }
        ensures places { IfOk result (λ s. spelling s ≡ spelling self.now) }
    {
        Ok(Stmt {
            before: copy_texts(alloc, &self.before)?,
            nodes: copy_nodes(alloc, &self.nodes)?,
            suffix: copy_suffix(alloc, &self.suffix)?,
            class: self.class,
            start: self.start,
            end: self.end,
        })
    }
}

fn copy_text<'b>(alloc: Global, text: &CowStr<'_>) -> Result<CowStr<'b>, NoMemory>
    ensures value { IfOk result (λ t. text_of t ≡ text_of text.now) }
{
    Ok(CowStr::Owned(from_str(alloc, text.as_str())?))
}

fn copy_texts<'b>(alloc: Global, comments: &[CowStr<'_>]) -> Result<Vec<CowStr<'b>>, NoMemory>
    ensures value { IfOk result (λ v. texts v.items ≡ texts comments.now) }
{
    let mut copies = with_room_for(alloc, comments, 0)?;
    for text in comments {
        push(&mut copies, copy_text(alloc, text)?)?;
    }
    Ok(copies)
}

fn copy_suffix<'b>(
    alloc: Global,
    suffix: &Option<CowStr<'_>>,
) -> Result<Option<CowStr<'b>>, NoMemory>
    ensures value { IfOk result (λ o. option_map text_of o ≡ option_map text_of suffix.now) }
{
    match suffix {
        None => Ok(None),
        Some(text) => Ok(Some(copy_text(alloc, text)?)),
    }
}

fn copy_leaf<'b>(alloc: Global, leaf: &Leaf<'_>) -> Result<Leaf<'b>, NoMemory>
    ensures kind { IfOk result (λ l. l.kind ≡ leaf.now.kind) }
    ensures text { IfOk result (λ l. text_of l.text ≡ text_of leaf.now.text) }
    ensures line { IfOk result (λ l. l.line ≡ leaf.now.line) }
    ensures col { IfOk result (λ l. l.col ≡ leaf.now.col) }
    ensures fresh { IfOk result (λ l. l.fresh ≡ leaf.now.fresh) }
{
    Ok(Leaf {
        kind: leaf.kind,
        text: copy_text(alloc, &leaf.text)?,
        line: leaf.line,
        col: leaf.col,
        fresh: leaf.fresh,
    })
}

#[cycle(copy)]
fn copy_group<'b>(alloc: Global, group: &Group<'_>) -> Result<Group<'b>, NoMemory>
    ensures value { IfOk result (λ g. group_view g ≡ group_view group.now) }
    ensures places { IfOk result (λ g. group_spelling g ≡ group_spelling group.now) }
{
    let mut segs = with_room_for(alloc, &group.segs, 0)?;
    for seg in &group.segs {
        push(&mut segs, copy_segment(alloc, seg)?)?;
    }
    Ok(Group {
        kind: group.kind,
        segs,
        one_comma: group.one_comma,
        end: copy_texts(alloc, &group.end)?,
    })
}

#[cycle(copy)]
fn copy_segment<'b>(alloc: Global, seg: &Seg<'_>) -> Result<Seg<'b>, NoMemory>
    ensures value { IfOk result (λ s. seg_view s ≡ seg_view seg.now) }
    ensures places { IfOk result (λ s. seg_spelling s ≡ seg_spelling seg.now) }
{
    Ok(Seg {
        before: copy_texts(alloc, &seg.before)?,
        nodes: copy_nodes(alloc, &seg.nodes)?,
        suffix: copy_suffix(alloc, &seg.suffix)?,
    })
}

#[cycle(copy)]
fn copy_nodes<'b>(alloc: Global, nodes: &[Node<'_>]) -> Result<Vec<Node<'b>>, NoMemory>
    ensures value { IfOk result (λ v. map node_view v.items ≡ map node_view nodes.now) }
    ensures places { IfOk result (λ v. map node_spelling v.items ≡ map node_spelling nodes.now) }
{
    let mut copies = with_room_for(alloc, nodes, 0)?;
    for node in nodes {
        let copy = match node {
            Node::Token(leaf) => Node::Token(copy_leaf(alloc, leaf)?),
            Node::Group(group) => Node::Group(copy_group(alloc, group)?),
        };
        push(&mut copies, copy)?;
    }
    Ok(copies)
}
