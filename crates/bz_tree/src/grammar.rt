//! The recognizer of the grammar: it goes over the nodes once, down into the brackets.

pub mod role;
pub mod stage;

ghost use Rattle.std.specs.Prelude.{◌≡◌};
ghost use Rattle.bz_tree.specs.Tree.{items_of, segs_of};
ghost use Rattle.bz_tree.specs.View.{node_view, nodes_view, segs_view};
ghost use Rattle.bz_tree.specs.private.Machine.{accepts, role_of, each, is_whole};

use crate::grammar::role::{Role, token_role};
use crate::grammar::stage::{Stage, begin, group_role, later, may_end, next};
use crate::tree::kinds::is_one;
use crate::tree::{GroupKind, Node, Seg};

/// Whether the nodes lead from the stage to an end.
#[cycle(grammar)]
pub(crate) fn accepts(stage: Stage, nodes: &[Node<'_>]) -> bool
    ensures { result ≡ accepts stage (items_of (nodes_view nodes.now)) }
{
    let mut stage = stage;
    for node in nodes {
        stage = next(stage, role_of(node));
    }
    may_end(stage)
}

#[cycle(grammar)]
#[inline(always)]
fn role_of(node: &Node<'_>) -> Role
    ensures { result ≡ role_of (node_view node.now) }
{
    match node {
        Node::Token(leaf) => token_role(leaf.kind, leaf.text.as_str()),
        Node::Group(group)
            if is_whole(group.kind, &group.segs) && each(begin(group.kind), &group.segs) => {
            group_role(group.kind)
        }
        Node::Group(_) => Role::Stray,
    }
}

#[cycle(grammar)]
fn each(stage: Stage, segs: &[Seg<'_>]) -> bool
    ensures { result ≡ each stage (segs_of (segs_view segs.now)) }
{
    let mut stage = stage;
    for seg in segs {
        if !accepts(stage, &seg.nodes) {
            return false;
        }
        stage = later(stage);
    }
    true
}

// A group of this kind may have so many segments.
fn is_whole(kind: GroupKind, segs: &[Seg<'_>]) -> bool
    ensures { result ≡ is_whole kind (segs_of (segs_view segs.now)) }
{
    match kind {
        GroupKind::Load => !segs.is_empty(),
        _ => !is_one(kind) || segs.len() == 1,
    }
}
