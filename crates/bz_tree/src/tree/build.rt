//! The walk over the tokens of a statement, with a stack of open brackets. `chunk.rt` runs it to make a tree.

ghost use Rattle.std.specs.Prelude.{◌≡◌, ◌≤◌, ◌+◌, ◌++◌, length, true, false, map, IfOk, IfSome, IsTrue, OnOk, Some, None, [], ◌∷◌, option_map};
ghost use Rattle.std.specs.Bool.{then_some};
ghost use Rattle.bz_token.specs.Places.{placed};
ghost use Rattle.bz_tree.specs.View.{node_view, group_view, seg_view};
ghost use Rattle.bz_tree.specs.Kinds as spec;
ghost use Rattle.bz_tree.specs.Owners.{node};
ghost use Rattle.bz_tree.specs.Brackets.{leaf_of};
ghost use Rattle.bz_tree.specs.Elements.{own_of};
ghost use Rattle.bz_tree.specs.declared.tree.kinds.Mark.TheVariants.{Close, Comma, Comment, Plain};
ghost use Rattle.bz_tree.specs.Elements.{one_segment, segment_with};
ghost use Rattle.bz_tree.specs.Borrowed.{node_owned, group_owned, seg_owned};
ghost use Rattle.bz_tree.specs.Places.{AreSpelled, a_leaf, opens, closes, spelled, node_spelling, group_spelling, seg_spelling};
ghost use Rattle.bz_tree.specs.private.BorrowedSteps.{frame_owned, state_owned, inside_owned, walk_owned};
ghost use Rattle.bz_tree.specs.private.PlacedSteps.{AreFlat, AreSpelledFrom, IsFlatAt, frame_spelling, state_spelling, inside_spelling, nodes_spelling, walk_spelling};
ghost use Rattle.bz_tree.specs.private.Steps.{done, has_one, inside_view, level, levels, with_own, new_level, next, next_at, run, so_far, state};

use crate::tree::classes::with_rule_call;
use crate::tree::kinds::{
    Mark, Preceding, Shape, as_comprehension, group_kind, is_for_at, is_one, kind_after, mark_of,
    same_shape, shape_of,
};
use crate::tree::owners::{Inside, Walk, empty_segment};
use crate::tree::{Group, GroupKind, Leaf, Node, Seg};
use bz_memory::{NoMemory, append, push};
use bz_token::Token;
use std::alloc::Global;
use std::borrow::CowStr;
use std::mem;

// A bracket that is still open, or the top.
#[derive(Drop)]
pub(crate) struct Frame<'a> {
    // What the bracket is, by what stands in it so far; none at the top.
    pub(crate) kind: Option<GroupKind>,
    pub(crate) walk: Walk<'a>,
    pub(crate) at: Preceding,
}

#[derive(Drop)]
pub(crate) struct State<'a> {
    pub(crate) outer: Vec<Frame<'a>>,
    pub(crate) top: Frame<'a>,
}

#[inline(always)]
fn leaf_of<'a>(token: &Token<'a>) -> Node<'a>
    ensures value { node_view result ≡ leaf_of (placed token.now) }
    ensures borrowed { node_owned result ≡ 0 }
    ensures places { node_spelling result ≡ a_leaf (placed token.now) ∷ [] }
{
    Node::Token(Leaf {
        kind: token.kind,
        text: CowStr::Borrowed(token.text),
        line: token.line,
        col: token.col,
        fresh: token.fresh,
    })
}

impl<'a> Frame<'a> {
    #[inline(always)]
    fn new(alloc: Global, kind: Option<GroupKind>) -> Frame<'a>
        ensures value { level result ≡ new_level kind }
        ensures borrowed { frame_owned result ≡ 0 }
        ensures places { frame_spelling result ≡ [] }
    {
        Frame {
            kind,
            walk: Walk::new(alloc),
            at: Preceding::Other,
        }
    }

    #[inline(always)]
    fn add_leaf(&mut self, token: &Token<'a>) -> Result<(), NoMemory>
        ensures value { OnOk result (level self.new ≡ with_own (level self.old) (own_of Plain (placed token.now))) }
        ensures borrowed { OnOk result (frame_owned self.new ≤ frame_owned self.old) }
        ensures places { OnOk result
            (frame_spelling self.new ≡ frame_spelling self.old ++ a_leaf (placed token.now) ∷ []) }
    {
        if is_for_at(token.kind, token.text) && self.walk.is_in_first() {
            self.kind = as_comprehension(self.kind);
        }
        self.at = kind_after(token.kind, token.text);
        self.walk.add_node(leaf_of(token), token.line, token.text)
    }

    #[inline(always)]
    fn add_comma(&mut self, alloc: Global, token: &Token<'a>) -> Result<(), NoMemory>
        ensures value { OnOk result (level self.new ≡ with_own (level self.old) (own_of Comma (placed token.now))) }
        ensures borrowed { OnOk result (frame_owned self.new ≤ frame_owned self.old) }
        ensures places { OnOk result (frame_spelling self.new
            ≡ frame_spelling self.old ++ spelled Comma (has_one self.old.kind) (placed token.now)) }
    {
        self.at = Preceding::Other;
        match self.kind {
            Some(kind) if !is_one(kind) => self.walk.add_comma(alloc, token.line),
            // It is a node.
            _ => self.walk.add_node(leaf_of(token), token.line, ""),
        }
    }

    #[inline(always)]
    fn add_group(&mut self, group: Group<'a>, line: u64) -> Result<(), NoMemory>
        ensures value { OnOk result (level self.new ≡ with_own (level self.old) (node line (group_view group.entry))) }
        ensures borrowed { OnOk result (frame_owned self.new ≤ frame_owned self.old + group_owned group.entry) }
        ensures places { OnOk result
            (frame_spelling self.new ≡ frame_spelling self.old ++ group_spelling group.entry) }
    {
        self.at = Preceding::Operand;
        self.walk.add_node(Node::Group(group), line, "")
    }
}

impl<'a> State<'a> {
    #[inline(always)]
    fn open(&mut self, alloc: Global, shape: Shape) -> Result<(), NoMemory>
        ensures value { OnOk result (state self.new ≡ (
          new_level (Some (spec.group_kind shape self.old.top.at false)),
          level self.old.top ∷ levels self.old.outer.items,
        )) }
        ensures borrowed { OnOk result (state_owned self.new ≤ state_owned self.old) }
        ensures places { OnOk result (state_spelling self.new ≡ state_spelling self.old ++ opens ∷ []) }
    {
        let frame = Frame::new(alloc, Some(group_kind(shape, self.top.at)));
        push(&mut self.outer, mem::replace(&mut self.top, frame))
    }

    // False: no bracket of this shape is open, or a segment is empty.
    fn close(&mut self, shape: Shape, token: &Token<'a>) -> Result<bool, NoMemory>
        ensures value { IfOk result (λ some. then_some some (state self.new)
            ≡ next_at (Close shape) (placed token.now) (level self.old.top) (levels self.old.outer.items)) }
        ensures borrowed { OnOk result (state_owned self.new ≤ state_owned self.old) }
        ensures places { IfOk result (λ some. IsTrue some
            → state_spelling self.new ≡ state_spelling self.old ++ closes ∷ []) }
    {
        let Some(kind) = self.top.kind else {
            return Ok(false);
        };
        if !same_shape(shape_of(kind), shape) {
            return Ok(false);
        }
        let Some(below) = self.outer.pop() else {
            return Ok(false);
        };
        let Frame { walk, .. } = mem::replace(&mut self.top, below);
        let Some(inside) = walk.finish()? else {
            return Ok(false);
        };
        let one_comma = kind == GroupKind::Paren && inside.segs.len() == 1 && inside.trailing;
        let group = Group {
            kind,
            segs: inside.segs,
            one_comma,
            end: inside.end,
        };
        self.top.add_group(group, token.line)?;
        Ok(true)
    }

    // False: there is no tree.
    #[inline(always)]
    fn step(&mut self, alloc: Global, token: &Token<'a>) -> Result<bool, NoMemory>
        ensures value { IfOk result (λ some. then_some some (state self.new)
            ≡ next (placed token.now) (state self.old)) }
        ensures borrowed { OnOk result (state_owned self.new ≤ state_owned self.old) }
        ensures places { IfOk result (λ some. IsTrue some → state_spelling self.new ≡ state_spelling self.old
            ++ spelled (spec.mark_of (placed token.now)) (has_one self.old.top.kind) (placed token.now)) }
    {
        let added = match mark_of(token) {
            Mark::Newline => Ok(()),
            Mark::Plain => self.top.add_leaf(token),
            Mark::Comma => self.top.add_comma(alloc, token),
            Mark::Comment => self.top.walk.add_comment(token.line, token.text),
            Mark::Open(shape) => self.open(alloc, shape),
            Mark::Close(shape) => return self.close(shape, token),
        };
        added?;
        Ok(true)
    }

    // Reads all tokens of a statement. False: there is no tree, or a bracket is still open.
    fn read(&mut self, alloc: Global, tokens: &[Token<'a>]) -> Result<bool, NoMemory>
        ensures some { IfOk result (λ some. IsTrue some
            → option_map segment_with (option_map done (so_far self.new.top.walk))
            ≡ run (state self.old).0 (state self.old).1 (map placed tokens.now)) }
        ensures none { IfOk result (λ some. some ≡ false
            → run (state self.old).0 (state self.old).1 (map placed tokens.now) ≡ None) }
        ensures borrowed { OnOk result (state_owned self.new ≤ state_owned self.old) }
        ensures places { IfOk result (λ some. IsTrue some
            → AreSpelledFrom (state_spelling self.old) (map placed tokens.now) (walk_spelling self.new.top.walk)) }
        ensures flat { IfOk result (λ some. IsTrue some → AreFlat ((state self.old).0 ∷ (state self.old).1)
            → IsFlatAt None (so_far self.new.top.walk)) }
    {
        for token in tokens {
            if !self.step(alloc, token)? {
                return Ok(false);
            }
        }
        Ok(self.top.kind.is_none() && self.outer.is_empty())
    }
}

// At depth 0 a statement is one segment, and all comments but its suffix stand before it.
fn one_segment<'a>(alloc: Global, inside: Inside<'a>) -> Result<Seg<'a>, NoMemory>
    ensures value { IfOk result
        (λ s. seg_view s ≡ one_segment (inside_view inside.entry).segs (inside_view inside.entry).end) }
    ensures borrowed { IfOk result (λ s. seg_owned s ≤ inside_owned inside.entry) }
    ensures places { IfOk result
        (λ s. length inside.entry.segs.items ≤ 1 → seg_spelling s ≡ inside_spelling inside.entry) }
{
    let mut inside = inside;
    let mut seg = if inside.segs.is_empty() {
        empty_segment(alloc)
    } else {
        inside.segs.remove(0)
    };
    append(&mut seg.before, &mut inside.end)?;
    Ok(seg)
}

// The segment of a statement whose tokens were walked over. None: a segment is empty.
fn whole_segment<'a>(alloc: Global, walk: Walk<'a>) -> Result<Option<Seg<'a>>, NoMemory>
    ensures value { IfOk result (λ o. option_map seg_view o
        ≡ option_map segment_with (option_map done (so_far walk.entry))) }
    ensures borrowed { IfOk result (λ o. IfSome o (λ s. seg_owned s ≤ walk_owned walk.entry)) }
    ensures places { IfOk result (λ o. IfSome o (λ s. IsFlatAt None (so_far walk.entry)
        → seg_spelling s ≡ walk_spelling walk.entry)) }
{
    let Some(inside) = walk.finish()? else {
        return Ok(None);
    };
    let seg = one_segment(alloc, inside)?;
    Ok(Some(with_rule_call(seg)))
}

/// The statement's segment. None: there is no tree: brackets do not match, or a segment is empty.
pub(crate) fn run<'a>(alloc: Global, tokens: &[Token<'a>]) -> Result<Option<Seg<'a>>, NoMemory>
    ensures value { IfOk result (λ o. option_map seg_view o ≡ run (new_level None) [] (map placed tokens.now)) }
    ensures borrowed { IfOk result (λ o. IfSome o (λ s. seg_owned s ≡ 0)) }
    ensures places { IfOk result (λ o. IfSome o (λ s. AreSpelled (map placed tokens.now) (nodes_spelling s.nodes.items))) }
{
    let outer = Vec::new(alloc);
    let top = Frame::new(alloc, None);
    let mut state = State { outer, top };
    if !state.read(alloc, tokens)? {
        return Ok(None);
    }
    whole_segment(alloc, state.top.walk)
}
