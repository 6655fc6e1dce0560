//! The nodes that parts are of: one walk over the parts, with a stack of open brackets. bz_rule (`statement_row.rt`)
//! makes a tree of a row by it, and bz_rule (`print.rt`) the nodes of a value.

ghost use Rattle.std.specs.Prelude.{◌≡◌, map, IfOk, OnOk, option_map};
ghost use Rattle.bz_tree.specs.Tree.{Statement, leaf};
ghost use Rattle.bz_tree.specs.View.{node_view, nodes_view, text_of, view};
ghost use Rattle.bz_tree.specs.Rows.{part_view, parts_of};
ghost use Rattle.bz_tree.specs.FromParts.{nothing, with_node, with_segment, with_beside, opened, closed, step, nodes_of_parts};
ghost use Rattle.bz_tree.specs.private.PartSteps.{beside_text, content, content_of, last_beside, outers, nest};

use crate::row::Part;
use crate::tree::{Class, Group, GroupKind, Leaf, Node, Seg, Stmt};
use bz_memory::{NoMemory, push};
use bz_token::Kind;
use std::alloc::Global;
use std::borrow::CowStr;
use std::mem;

// What stands in a bracket, or at the top, so far.
#[derive(Drop)]
pub(crate) struct Content<'a> {
    // The segments that have ended.
    pub(crate) segs: Vec<Seg<'a>>,
    // The comments after those.
    pub(crate) comments: Vec<CowStr<'a>>,
    // The nodes of the segment here.
    pub(crate) nodes: Vec<Node<'a>>,
}

#[derive(Drop)]
pub(crate) struct Nesting<'a> {
    pub(crate) here: Content<'a>,
    // Of each open bracket, the innermost last, its kind and what stands before it in the one around it.
    pub(crate) outer: Vec<(GroupKind, Content<'a>)>,
}

// A part has no place.
#[inline(always)]
fn leaf_of<'a>(kind: Kind, text: &'a str) -> Node<'a>
    ensures { node_view result ≡ leaf kind text.now }
{
    Node::Token(Leaf {
        kind,
        text: CowStr::Borrowed(text),
        line: 0,
        col: 0,
        fresh: false,
    })
}

impl<'a> Content<'a> {
    #[inline(always)]
    fn new(alloc: Global) -> Content<'a>
        ensures { content result ≡ nothing }
    {
        Content {
            segs: Vec::new(alloc),
            comments: Vec::new(alloc),
            nodes: Vec::new(alloc),
        }
    }

    #[inline(always)]
    fn add_node(&mut self, node: Node<'a>) -> Result<(), NoMemory>
        ensures { OnOk result (content self.new ≡ with_node (node_view node.entry) (content self.old)) }
    {
        push(&mut self.nodes, node)
    }

    fn end_segment(&mut self, alloc: Global) -> Result<(), NoMemory>
        ensures { OnOk result (content self.new ≡ with_segment (content self.old)) }
    {
        push(
            &mut self.segs,
            Seg {
                before: mem::replace(&mut self.comments, Vec::new(alloc)),
                nodes: mem::replace(&mut self.nodes, Vec::new(alloc)),
                suffix: None,
            },
        )
    }

    fn put_beside(&mut self, text: &'a str)
        ensures { content self.new ≡ with_beside text.now (content self.old) }
    {
        if let Some(seg) = self.segs.last_mut() {
            seg.suffix = Some(CowStr::Borrowed(text));
        }
    }
}

impl<'a> Nesting<'a> {
    fn open(&mut self, alloc: Global, kind: GroupKind) -> Result<(), NoMemory>
        ensures { OnOk result (nest self.new ≡ opened kind (nest self.old)) }
    {
        let around = mem::replace(&mut self.here, Content::new(alloc));
        push(&mut self.outer, (kind, around))
    }

    fn close(&mut self, one_comma: bool) -> Result<(), NoMemory>
        ensures { OnOk result (nest self.new
            ≡ closed one_comma (content self.old.here) (outers self.old.outer.items)) }
    {
        let Some((kind, around)) = self.outer.pop() else {
            return Ok(());
        };
        let Content { segs, comments, .. } = mem::replace(&mut self.here, around);
        let group = Group {
            kind,
            segs,
            one_comma,
            end: comments,
        };
        self.here.add_node(Node::Group(group))
    }

    #[inline(always)]
    fn step(&mut self, alloc: Global, part: Part<'a>) -> Result<(), NoMemory>
        ensures { OnOk result (nest self.new ≡ step (part_view part.entry) (nest self.old)) }
    {
        match part {
            Part::Token(kind, text) => self.here.add_node(leaf_of(kind, text)),
            Part::Open(kind) => self.open(alloc, kind),
            Part::Close(one_comma) => self.close(one_comma),
            Part::End => self.here.end_segment(alloc),
            Part::Above(text) => push(&mut self.here.comments, CowStr::Borrowed(text)),
            Part::Beside(text) => {
                self.here.put_beside(text);
                Ok(())
            }
        }
    }
}

// What the parts come to.
fn read_parts<'a>(alloc: Global, parts: &[Part<'a>]) -> Result<Content<'a>, NoMemory>
    ensures { IfOk result (λ c. content c ≡ content_of (map part_view parts.now)) }
{
    let mut nesting = Nesting {
        here: Content::new(alloc),
        outer: Vec::new(alloc),
    };
    for i in 0..parts.len() {
        nesting.step(alloc, parts[i])?;
    }
    Ok(nesting.here)
}

/// Builds the nodes whose parts these are. Each text is borrowed from its part. `Err`: memory was refused.
pub fn nodes_of_parts<'a>(alloc: Global, parts: &[Part<'a>]) -> Result<Vec<Node<'a>>, NoMemory>
    ensures { IfOk result (λ nodes. nodes_view nodes.items ≡ nodes_of_parts (map part_view parts.now)) }
{
    Ok(read_parts(alloc, parts)?.nodes)
}

fn beside_text<'a>(part: &Part<'a>) -> Option<CowStr<'a>>
    ensures { option_map text_of result ≡ beside_text (part_view part.now) }
{
    match part {
        Part::Beside(text) => Some(CowStr::Borrowed(*text)),
        _ => None,
    }
}

// The comment with which the parts end, beside what stands before it.
fn last_beside<'a>(parts: &[Part<'a>]) -> Option<CowStr<'a>>
    ensures { option_map text_of result ≡ last_beside (map part_view parts.now) }
{
    let [.., last] = parts else {
        return None;
    };
    beside_text(last)
}

/// Builds the statement whose parts these are, of this class and on these lines. Each text is borrowed from its part,
/// and its leaves may have any place. `Err`: memory was refused.
pub fn stmt_of_parts<'a>(
    alloc: Global,
    parts: &[Part<'a>],
    class: Class,
    start: u64,
    end: u64,
) -> Result<Stmt<'a>, NoMemory>
    ensures { IfOk result (λ stmt. (s : Statement) → map part_view parts.now ≡ parts_of s
        → view stmt ≡ record s { class = class; start = start; end = end }) }
{
    let content = read_parts(alloc, parts)?;
    Ok(Stmt {
        before: content.comments,
        nodes: content.nodes,
        suffix: last_beside(parts),
        class,
        start,
        end,
    })
}
