//! The segments of one bracket, and the owners of the comments that stand in it.

ghost use Rattle.std.specs.Prelude.{◌≡◌, ◌≤◌, ◌+◌, ◌++◌, ◌==◌, true, false, map, count_by, IfOk, IfSome, OnOk, Some, None, [], option_map, option_and_then};
ghost use Rattle.bz_tree.specs.Comments.{beside};
ghost use Rattle.bz_tree.specs.Borrowed.{owned_in, owned_of, node_owned, seg_owned};
ghost use Rattle.bz_tree.specs.private.BorrowedSteps.{segs_owned, walk_owned, inside_owned};
ghost use Rattle.bz_tree.specs.Places.{node_spelling, seg_spelling};
ghost use Rattle.bz_tree.specs.private.PlacedSteps.{segs_spelling, walk_spelling, inside_spelling};
ghost use Rattle.bz_tree.specs.View.{text_of, texts, node_view, seg_view};
ghost use Rattle.bz_tree.specs.private.Steps.{walked, so_far, is_in_first, add_beside, inside_view, at_start, after_node, after_comma, after_comment, done, to_last};

use crate::tree::span::newlines;
use crate::tree::{Node, Seg};
use bz_memory::{NoMemory, append, push};
use std::alloc::Global;
use std::borrow::CowStr;
use std::mem;

// What stands directly before a comment. A node has the line on which it begins, and its text if it is a token: it ends
// as many lines later as that has newlines.
#[derive(Clone, Copy)]
pub(crate) enum Before<'a> {
    Nothing,
    Node(u64, &'a str),
    Comma(u64),
}

// The walk over one bracket: the finished segments, then the segment here, its comments before the last of its nodes
// and its suffix so far, and the comments after that.
#[derive(Drop)]
pub(crate) struct Walk<'a> {
    pub(crate) segs: Vec<Seg<'a>>,
    pub(crate) here: Seg<'a>,
    pub(crate) after: Vec<CowStr<'a>>,
    pub(crate) last: Before<'a>,
    pub(crate) trailing: bool,
    // No segment is empty.
    pub(crate) whole: bool,
}

#[derive(Drop)]
pub(crate) struct Inside<'a> {
    pub(crate) segs: Vec<Seg<'a>>,
    pub(crate) trailing: bool,
    pub(crate) end: Vec<CowStr<'a>>,
}

// One more comment after a segment's comma.
fn add_beside<'a>(seg: &mut Seg<'a>, text: &'a str) -> Result<(), NoMemory>
    ensures value { OnOk result (seg_view seg.new ≡ add_beside text.now (seg_view seg.old)) }
    ensures borrowed { OnOk result (seg_owned seg.new ≤ seg_owned seg.old) }
    ensures places { OnOk result (seg_spelling seg.new ≡ seg_spelling seg.old) }
{
    if seg.suffix.is_some() {
        push(&mut seg.before, CowStr::Borrowed(text))?;
    } else {
        seg.suffix = Some(CowStr::Borrowed(text));
    }
    Ok(())
}

fn add_to_last<'a>(segs: &mut Vec<Seg<'a>>, text: &'a str) -> Result<(), NoMemory>
    ensures value { OnOk result (map seg_view segs.new.items
        ≡ to_last (text.now) (map seg_view segs.old.items)) }
    ensures borrowed { OnOk result (segs_owned segs.new.items ≤ segs_owned segs.old.items) }
    ensures places { OnOk result (segs_spelling segs.new.items ≡ segs_spelling segs.old.items) }
{
    if let Some(mut seg) = segs.pop() {
        add_beside(&mut seg, text)?;
        segs.push_reserved(seg);
    }
    Ok(())
}

// A suffix so far is none once a node stands after it.
#[inline(always)]
fn put_before(seg: &mut Seg<'_>) -> Result<(), NoMemory>
    ensures nodes { seg.new.nodes ≡ seg.old.nodes }
    ensures taken { seg.new.suffix ≡ None }
    ensures value { OnOk result (texts seg.new.before.items
        ≡ texts seg.old.before.items ++ beside (option_map text_of seg.old.suffix)) }
    ensures borrowed { OnOk result
        (owned_in seg.new.before.items ≡ owned_in seg.old.before.items + owned_of seg.old.suffix) }
{
    if let Some(text) = seg.suffix.take() {
        push(&mut seg.before, text)?;
    }
    Ok(())
}

// Whether what begins on a line and ends some lines later ends on that other line.
#[inline(always)]
pub(crate) fn ends_on(line: u64, newlines: u64, at: u64) -> bool
    ensures { result ≡ (line + newlines == at) }
{
    line <= at && at - line == newlines
}

#[inline(always)]
pub(crate) fn empty_segment<'a>(alloc: Global) -> Seg<'a>
    ensures before { result.before.items ≡ [] }
    ensures nodes { result.nodes.items ≡ [] }
    ensures suffix { result.suffix ≡ None }
{
    Seg {
        before: Vec::new(alloc),
        nodes: Vec::new(alloc),
        suffix: None,
    }
}

impl<'a> Walk<'a> {
    #[inline(always)]
    pub(crate) fn new(alloc: Global) -> Walk<'a>
        ensures value { so_far result ≡ Some at_start }
        ensures borrowed { walk_owned result ≡ 0 }
        ensures places { walk_spelling result ≡ [] }
    {
        Walk {
            segs: Vec::new(alloc),
            here: empty_segment(alloc),
            after: Vec::new(alloc),
            last: Before::Nothing,
            trailing: false,
            whole: true,
        }
    }

    // No comma was met.
    #[inline(always)]
    pub(crate) fn is_in_first(&self) -> bool
        ensures { result ≡ is_in_first (so_far self.now) }
    {
        self.whole && self.segs.is_empty()
    }

    // The comments after the last node stand above it once another node, or the comma, comes.
    #[inline(always)]
    pub(crate) fn add_node(
        &mut self,
        node: Node<'a>,
        line: u64,
        text: &'a str,
    ) -> Result<(), NoMemory>
        ensures value { OnOk result (walked self.new
            ≡ after_node (line + count_by (λ b. b == 10) text.now) (node_view node.entry) (walked self.old)) }
        ensures whole { self.new.whole ≡ self.old.whole }
        ensures borrowed { OnOk result (walk_owned self.new ≤ walk_owned self.old + node_owned node.entry) }
        ensures places { OnOk result (walk_spelling self.new ≡ walk_spelling self.old ++ node_spelling node.entry) }
    {
        self.last = Before::Node(line, text);
        self.trailing = false;
        push(&mut self.here.nodes, node)?;
        put_before(&mut self.here)?;
        append(&mut self.here.before, &mut self.after)
    }

    pub(crate) fn add_comma(&mut self, alloc: Global, line: u64) -> Result<(), NoMemory>
        ensures value { OnOk result (so_far self.new ≡ option_and_then (after_comma line) (so_far self.old)) }
        ensures borrowed { OnOk result (walk_owned self.new ≤ walk_owned self.old) }
        ensures places { OnOk result (walk_spelling self.new ≡ walk_spelling self.old) }
    {
        if self.here.nodes.is_empty() {
            self.whole = false;
            return Ok(());
        }
        append(&mut self.here.before, &mut self.after)?;
        let seg = mem::replace(&mut self.here, empty_segment(alloc));
        push(&mut self.segs, seg)?;
        self.last = Before::Comma(line);
        self.trailing = true;
        Ok(())
    }

    pub(crate) fn add_comment(&mut self, line: u64, text: &'a str) -> Result<(), NoMemory>
        ensures value { OnOk result (walked self.new ≡ after_comment line (text.now) (walked self.old)) }
        ensures whole { self.new.whole ≡ self.old.whole }
        ensures borrowed { OnOk result (walk_owned self.new ≤ walk_owned self.old) }
        ensures places { OnOk result (walk_spelling self.new ≡ walk_spelling self.old) }
    {
        match mem::replace(&mut self.last, Before::Nothing) {
            Before::Node(begin, token) if ends_on(begin, newlines(token), line) => {
                self.here.suffix = Some(CowStr::Borrowed(text));
                Ok(())
            }
            Before::Comma(end) if end == line => add_to_last(&mut self.segs, text),
            _ => push(&mut self.after, CowStr::Borrowed(text)),
        }
    }

    // None: a segment is empty.
    #[inline(always)]
    pub(crate) fn finish(self) -> Result<Option<Inside<'a>>, NoMemory>
        ensures value { IfOk result (λ o. option_map inside_view o ≡ option_map done (so_far self.entry)) }
        ensures borrowed { IfOk result (λ o. IfSome o (λ i. inside_owned i ≤ walk_owned self.entry)) }
        ensures places { IfOk result (λ o. IfSome o (λ i. inside_spelling i ≡ walk_spelling self.entry)) }
    {
        if !self.whole {
            return Ok(None);
        }
        let here = self.here;
        let mut segs = self.segs;
        if !here.nodes.is_empty() {
            push(&mut segs, here)?;
        }
        Ok(Some(Inside {
            segs,
            trailing: self.trailing,
            end: self.after,
        }))
    }
}
