//! Where a space stands between two neighbouring nodes.

ghost use Rattle.std.specs.Prelude.{◌≡◌, ◌≢◌, ◌∷◌, [], ◌||◌, MatchBool};
ghost use Rattle.bz_tree.specs.Tree.{leaf};
ghost use Rattle.bz_layout.specs.Spacing.{is_group_without_space};
ghost use Rattle.bz_layout.specs.Walked.{no_space_before, is_prefix, begins_argument, is_index_colon, operator_edge, edge_after};

use bz_token::Kind;
use bz_tree::GroupKind;

/// What the nodes so far leave to the next one.
#[derive(Clone, Copy)]
pub enum Edge {
    /// No node stands before it.
    Start,
    /// A prefix, an argument's star or an index's colon, which holds on to what is next.
    Joined,
    /// A `.`.
    Dotted,
    /// Any other operator, or a keyword.
    Operator,
    /// A name, a literal or a group.
    Operand,
}

/// What stands before a token or comment.
#[derive(Clone, Copy)]
pub enum Gap {
    Closed,
    Space,
    /// Two spaces, before a comment on the same line.
    Apart,
    /// A new line at this level, four spaces each.
    Line(usize),
}

#[inline(always)]
pub(crate) fn is_group_without_space(kind: GroupKind) -> bool
    ensures { result ≡ is_group_without_space kind }
{
    matches!(
        kind,
        GroupKind::Call | GroupKind::RuleCall | GroupKind::Load | GroupKind::Index
    )
}

// A text of one byte is told by its length and that byte.
#[inline(always)]
pub(crate) fn is_byte(text: &str, byte: u8) -> bool
    ensures { MatchBool result (text.now ≡ byte ∷ []) (text.now ≢ byte ∷ []) }
{
    matches!(text.as_bytes(), [one] if *one == byte)
}

#[inline(always)]
pub(crate) fn token_closes_up(kind: Kind, text: &str) -> bool
    ensures { result ≡ no_space_before (leaf kind text.now) }
{
    matches!(kind, Kind::Operator)
        && (is_byte(text, b'.') || is_byte(text, b',') || is_byte(text, b':'))
}

// An operator is a prefix, the star that begins an argument, or the colon of an index.
#[inline(always)]
fn joins(within: Option<GroupKind>, left: Edge, text: &str) -> bool
    ensures { result ≡ (is_prefix left text.now || begins_argument within left text.now || is_index_colon within text.now) }
{
    match (within, left) {
        (Some(GroupKind::Index), _) if is_byte(text, b':') => true,
        (Some(GroupKind::Call | GroupKind::RuleCall), Edge::Start)
            if is_byte(text, b'*') || text == "**" => true,
        (_, Edge::Dotted | Edge::Operand) => false,
        _ => is_byte(text, b'+') || is_byte(text, b'-') || is_byte(text, b'~'),
    }
}

#[inline(always)]
pub(crate) fn token_edge(within: Option<GroupKind>, left: Edge, kind: Kind, text: &str) -> Edge
    ensures { result ≡ edge_after within left (leaf kind text.now) }
{
    match kind {
        Kind::Operator if is_byte(text, b'.') => Edge::Dotted,
        Kind::Operator if joins(within, left, text) => Edge::Joined,
        Kind::Operator | Kind::Keyword => Edge::Operator,
        _ => Edge::Operand,
    }
}
