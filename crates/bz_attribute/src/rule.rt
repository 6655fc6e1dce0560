//! The view of a statement as a rule: reading only, no memory.

ghost use Rattle.std.specs.Prelude.{◌≡◌, is_some, option_map, true};
ghost use Rattle.bz_tree.specs.View.{node_view, nodes_view};
ghost use Rattle.bz_attribute.specs.private.RuleViews.{rule_view};
ghost use Rattle.bz_tree.specs.Tree.{is_operator_item};
ghost use Rattle.bz_attribute.specs.private.RuleSteps.{dotted};
ghost use Rattle.bz_attribute.specs.Rules as spec;

use bz_token::Kind;
use bz_tree::{Group, GroupKind, Node};

/// What stands before the call of a rule, and the call.
#[derive(Clone, Copy)]
pub(crate) struct Rule<'n, 'a> {
    pub(crate) kind: &'n [Node<'a>],
    pub(crate) call: &'n Group<'a>,
}

/// The rule that nodes are.
pub(crate) fn rule_of<'n, 'a>(nodes: &'n [Node<'a>]) -> Option<Rule<'n, 'a>>
    ensures { option_map rule_view result ≡ spec.rule_of (nodes_view nodes.now) }
{
    let [kind @ .., last] = nodes else {
        return None;
    };
    match last {
        Node::Group(call) if call.kind == GroupKind::RuleCall && are_dotted(kind) => {
            Some(Rule { kind, call })
        }
        _ => None,
    }
}

/// Whether nodes are those of a rule.
pub fn is_rule(nodes: &[Node<'_>]) -> bool
    ensures { result ≡ is_some (spec.rule_of (nodes_view nodes.now)) }
{
    rule_of(nodes).is_some()
}

// Identifiers joined by dots.
fn are_dotted(kind: &[Node<'_>]) -> bool
    ensures { result ≡ dotted true (nodes_view kind.now) }
{
    let mut left = kind;
    while let [name, dot, rest @ ..] = left {
        if !is_identifier_item(name) || !is_operator_item(dot, ".") {
            return false;
        }
        left = rest;
    }
    matches!(left, [name] if is_identifier_item(name))
}

pub(crate) fn is_operator_item(node: &Node<'_>, operator: &str) -> bool
    ensures { result ≡ is_operator_item operator.now (node_view node.now) }
{
    matches!(node, Node::Token(leaf) if matches!(leaf.kind, Kind::Operator) && leaf.text.as_str() == operator)
}

fn is_identifier_item(node: &Node<'_>) -> bool
    ensures { result ≡ is_some (spec.ident_of (node_view node.now)) }
{
    matches!(node, Node::Token(leaf) if matches!(leaf.kind, Kind::Identifier))
}

// The text of what is one string token.
pub(crate) fn only_text<'n>(nodes: &'n [Node<'_>]) -> Option<&'n str>
    ensures { option_map (λ text. text.now) result ≡ spec.only_text (nodes_view nodes.now) }
{
    match nodes {
        [node] => match node {
            Node::Token(leaf) if matches!(leaf.kind, Kind::String) => Some(leaf.text.as_str()),
            _ => None,
        },
        _ => None,
    }
}
