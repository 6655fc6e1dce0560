//! Which statements a target marks, where they are trees. Nothing is allocated. `Head::is_marked_by` says it of rows.

ghost use Rattle.std.specs.Prelude.{◌≡◌, bytes_eq, option_and_then, option_map};
ghost use Rattle.bz_tree.specs.View.{node_view, nodes_view, seg_view, segs_view, text_of, view};
ghost use Rattle.bz_label.specs.Values.{value_of};
ghost use Rattle.bz_attribute.specs.Marks as spec;
ghost use Rattle.bz_attribute.specs.Rules as rules;

use crate::rule::{is_operator_item, only_text, rule_of};
use bz_label::{Marked, Target, has_value};
use bz_token::Kind;
use bz_tree::{Leaf, Node, Seg, Stmt};

/// Whether the target marks the statement: it is a rule that has the name, the kind or the first line that is meant.
pub fn matches(target: &Target, stmt: &Stmt<'_>) -> bool
    ensures { result ≡ spec.marks target.now (view stmt.now) }
{
    let Some(rule) = rule_of(&stmt.nodes) else {
        return false;
    };
    match target.marked() {
        Marked::Name(name) => has_name(&rule.call.segs, name),
        Marked::Pkg => is_kind(rule.kind, "package"),
        Marked::All => true,
        Marked::Kind(kind) => is_kind(rule.kind, kind),
        Marked::Line(line) => stmt.start == line,
    }
}

fn has_name(args: &[Seg<'_>], name: &str) -> bool
    ensures { result ≡ rules.is_text name.now (rules.name_in (segs_view args.now)) }
{
    name_text(args).is_some_and(|text| has_value(text.as_bytes(), name.as_bytes()))
}

// The string that the first argument `name` is, where it is one.
fn name_text<'n>(args: &'n [Seg<'_>]) -> Option<&'n str>
    ensures { option_and_then value_of (option_map (λ text. text.now) result)
        ≡ rules.name_in (segs_view args.now) }
{
    let arg = args.iter().find(|arg| is_named(arg, "name"))?;
    only_text(value_nodes(arg))
}

fn is_named(arg: &Seg<'_>, name: &str) -> bool
    ensures { result ≡ rules.is_named name.now (seg_view arg.now) }
{
    match arg.nodes.as_slice() {
        [first, equals, ..] => is_operator_item(equals, "=") && is_identifier_of(first, name),
        _ => false,
    }
}

// The nodes of the value of a named argument.
fn value_nodes<'n, 'a>(arg: &'n Seg<'a>) -> &'n [Node<'a>]
    ensures { nodes_view result.now ≡ rules.value (seg_view arg.now) }
{
    match arg.nodes.as_slice() {
        [_, _, value @ ..] => value,
        _ => &[],
    }
}

fn is_identifier_of(node: &Node<'_>, name: &str) -> bool
    ensures { result ≡ rules.is_text name.now (rules.ident_of (node_view node.now)) }
{
    matches!(node, Node::Token(leaf) if matches!(leaf.kind, Kind::Identifier) && text_of(leaf) == name)
}

// The nodes before the call have this text.
fn is_kind(kind: &[Node<'_>], text: &str) -> bool
    ensures { result ≡ bytes_eq (rules.kind_text (nodes_view kind.now)) text.now }
{
    let mut left = text.as_bytes();
    for node in kind {
        if let Node::Token(leaf) = node {
            let Some(rest) = left.strip_prefix(text_of(leaf).as_bytes()) else {
                return false;
            };
            left = rest;
        }
    }
    left.is_empty()
}

fn text_of<'n>(leaf: &'n Leaf<'_>) -> &'n str
    ensures { result.now ≡ text_of leaf.now.text }
{
    leaf.text.as_str()
}
