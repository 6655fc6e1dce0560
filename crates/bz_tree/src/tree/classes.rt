//! What a statement is to the layout and to the commands.

ghost use Rattle.std.specs.Prelude.{◌≡◌, ◌≤◌};
ghost use Rattle.bz_tree.specs.Borrowed.{seg_owned};
ghost use Rattle.bz_tree.specs.private.BorrowedSteps.{nodes_owned};
ghost use Rattle.bz_tree.specs.Places.{seg_spelling};
ghost use Rattle.bz_tree.specs.private.PlacedSteps.{nodes_spelling};
ghost use Rattle.bz_tree.specs.View.{node_view, nodes_view, seg_view};
ghost use Rattle.bz_tree.specs.Statement.{is_assign, class_of};
ghost use Rattle.bz_tree.specs.Elements.{rule_call, with_rule_call};
ghost use Rattle.bz_tree.specs.Tree.{is_rule, is_call};
ghost use Rattle.std.specs.List.{list_any};
ghost use Rattle.bz_tree.specs.private.RowSteps.{named, called};

use crate::grammar::role::{is_assignment, token_role};
use crate::tree::{Class, Group, GroupKind, Node, Seg};
use bz_token::Kind;

/// What the nodes of a statement are so far: the beginning of a rule, a rule, or none.
#[derive(Clone, Copy)]
pub(crate) enum Naming {
    // An identifier comes next.
    Name,
    // `.` or the call comes next.
    Join,
    // It is a rule.
    End,
    // It is none.
    Never,
    // More stands after what would be a rule.
    Lost,
}

// After a token. Not called in a bracket, where it is Never.
#[inline(never)]
pub(crate) fn named(naming: Naming, kind: Kind, text: &str) -> Naming
    ensures { result ≡ named naming kind text.now }
{
    match naming {
        Naming::Name if kind == Kind::Identifier => Naming::Join,
        Naming::Join if kind == Kind::Operator && text == "." => Naming::Name,
        Naming::End | Naming::Lost => Naming::Lost,
        _ => Naming::Never,
    }
}

#[inline(never)]
pub(crate) fn called(naming: Naming, kind: GroupKind) -> Naming
    ensures { result ≡ called naming kind }
{
    match naming {
        Naming::Join if is_call(kind) => Naming::End,
        Naming::End | Naming::Lost => Naming::Lost,
        _ => Naming::Never,
    }
}

fn is_rule(nodes: &[Node<'_>]) -> bool
    ensures { result ≡ is_rule (nodes_view nodes.now) }
{
    let mut naming = Naming::Name;
    for node in nodes {
        naming = match node {
            Node::Token(leaf) => named(naming, leaf.kind, leaf.text.as_str()),
            Node::Group(group) => called(naming, group.kind),
        };
    }
    matches!(naming, Naming::End)
}

pub(crate) fn is_call(kind: GroupKind) -> bool
    ensures { result ≡ is_call kind }
{
    matches!(kind, GroupKind::Call | GroupKind::RuleCall)
}

// If the last of them is a bracket, it is the call of a rule.
fn rule_call(nodes: Vec<Node<'_>>) -> Vec<Node<'_>>
    ensures value { nodes_view result.items ≡ rule_call (nodes_view nodes.entry.items) }
    ensures borrowed { nodes_owned result.items ≤ nodes_owned nodes.entry.items }
    ensures places { nodes_spelling result.items ≡ nodes_spelling nodes.entry.items }
{
    let mut nodes = nodes;
    match nodes.pop() {
        Some(Node::Group(group)) => nodes.push_reserved(Node::Group(Group {
            kind: GroupKind::RuleCall,
            segs: group.segs,
            one_comma: group.one_comma,
            end: group.end,
        })),
        Some(node) => nodes.push_reserved(node),
        None => {}
    }
    nodes
}

/// The segment, its call marked where it is a rule.
pub(crate) fn with_rule_call(seg: Seg<'_>) -> Seg<'_>
    ensures value { seg_view result ≡ with_rule_call (seg_view seg.entry) }
    ensures borrowed { seg_owned result ≤ seg_owned seg.entry }
    ensures places { seg_spelling result ≡ seg_spelling seg.entry }
{
    if !is_rule(&seg.nodes) {
        return seg;
    }
    Seg {
        before: seg.before,
        nodes: rule_call(seg.nodes),
        suffix: seg.suffix,
    }
}

fn is_assign(node: &Node<'_>) -> bool
    ensures { result ≡ is_assign (node_view node.now) }
{
    match node {
        Node::Token(leaf) => is_assignment(token_role(leaf.kind, leaf.text.as_str())),
        Node::Group(_) => false,
    }
}

fn has_assign(nodes: &[Node<'_>]) -> bool
    ensures { result ≡ list_any is_assign (nodes_view nodes.now) }
{
    for node in nodes {
        if is_assign(node) {
            return true;
        }
    }
    false
}

/// The class of a statement with these nodes.
pub(crate) fn class_of(nodes: &[Node<'_>]) -> Class
    ensures { result ≡ class_of (nodes_view nodes.now) }
{
    match nodes.first() {
        None => Class::Comment,
        Some(Node::Token(leaf)) if leaf.kind == Kind::Kept => Class::Block,
        Some(Node::Token(leaf)) if leaf.kind == Kind::Keyword && leaf.text.as_str() == "load" =>
            Class::Load,
        Some(_) if has_assign(nodes) => Class::Assign,
        Some(_) if is_rule(nodes) => Class::Rule,
        Some(_) => Class::Other,
    }
}
