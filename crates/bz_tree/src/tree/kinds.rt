//! What a token is to the brackets, and what kind of group a bracket is.

ghost use Rattle.std.specs.Prelude.{◌≡◌, false, Some};
ghost use Rattle.bz_token.specs.Places.{placed};
ghost use Rattle.bz_tree.specs.Kinds.{mark_of, operator_mark, group_kind, is_one};
ghost use Rattle.bz_tree.specs.private.KindSteps.{kind_after, is_for_at, same_shape};
ghost use Rattle.bz_tree.specs.private.Steps.{shape_of, as_comprehension};

use crate::tree::GroupKind;
use bz_token::{Kind, Token};

/// The shape of a bracket.
#[derive(Clone, Copy)]
pub enum Shape {
    Round,
    Square,
    Curly,
}

/// What a token is to the brackets.
#[derive(Clone, Copy)]
pub enum Mark {
    Open(Shape),
    Close(Shape),
    Comma,
    Comment,
    Newline,
    Plain,
}

/// What stands directly before a bracket: an operand (then it is a call or an index), the keyword `load`, anything
/// else.
#[derive(Clone, Copy)]
pub enum Preceding {
    Operand,
    LoadWord,
    Other,
}

#[inline(always)]
pub(crate) fn mark_of(token: &Token<'_>) -> Mark
    ensures { result ≡ mark_of (placed token.now) }
{
    match token.kind {
        Kind::Comment => Mark::Comment,
        Kind::Newline => Mark::Newline,
        Kind::Operator => operator_mark(token.text),
        _ => Mark::Plain,
    }
}

/// What an operator, bracket or comma of this text is to the brackets.
#[inline(always)]
pub(crate) fn operator_mark(text: &str) -> Mark
    ensures { result ≡ operator_mark text.now }
{
    match text.as_bytes() {
        [b'('] => Mark::Open(Shape::Round),
        [b'['] => Mark::Open(Shape::Square),
        [b'{'] => Mark::Open(Shape::Curly),
        [b')'] => Mark::Close(Shape::Round),
        [b']'] => Mark::Close(Shape::Square),
        [b'}'] => Mark::Close(Shape::Curly),
        [b','] => Mark::Comma,
        _ => Mark::Plain,
    }
}

#[inline(always)]
pub(crate) fn same_shape(opened: Shape, shape: Shape) -> bool
    ensures { result ≡ same_shape (Some opened) shape }
{
    opened == shape
}

/// The shape of a group's bracket.
pub(crate) fn shape_of(kind: GroupKind) -> Shape
    ensures { result ≡ shape_of kind }
{
    match kind {
        GroupKind::Call | GroupKind::RuleCall | GroupKind::Load | GroupKind::Paren => Shape::Round,
        GroupKind::List | GroupKind::Index | GroupKind::ListComp => Shape::Square,
        GroupKind::Dict | GroupKind::DictComp => Shape::Curly,
    }
}

/// What a bracket is once `for` stands in its first segment.
pub(crate) fn as_comprehension(kind: Option<GroupKind>) -> Option<GroupKind>
    ensures { result ≡ as_comprehension kind }
{
    match kind {
        Some(GroupKind::List) => Some(GroupKind::ListComp),
        Some(GroupKind::Dict) => Some(GroupKind::DictComp),
        _ => kind,
    }
}

/// What stands before a bracket after a token of this kind and text.
#[inline(always)]
pub(crate) fn kind_after(kind: Kind, text: &str) -> Preceding
    ensures { result ≡ kind_after kind text.now }
{
    match kind {
        Kind::Identifier | Kind::Integer | Kind::String => Preceding::Operand,
        Kind::Keyword if text == "load" => Preceding::LoadWord,
        _ => Preceding::Other,
    }
}

/// The keyword `for`.
#[inline(always)]
pub(crate) fn is_for_at(kind: Kind, text: &str) -> bool
    ensures { result ≡ is_for_at kind text.now }
{
    kind == Kind::Keyword && text == "for"
}

/// What a bracket is as long as no `for` stands in it.
pub(crate) fn group_kind(shape: Shape, at: Preceding) -> GroupKind
    ensures { result ≡ group_kind shape at false }
{
    match (shape, at) {
        (Shape::Round, Preceding::Operand) => GroupKind::Call,
        (Shape::Round, Preceding::LoadWord) => GroupKind::Load,
        (Shape::Round, Preceding::Other) => GroupKind::Paren,
        (Shape::Square, Preceding::Operand) => GroupKind::Index,
        (Shape::Square, _) => GroupKind::List,
        (Shape::Curly, _) => GroupKind::Dict,
    }
}

/// Whether groups of this kind have one segment, whose commas are nodes.
pub(crate) fn is_one(kind: GroupKind) -> bool
    ensures { result ≡ is_one kind }
{
    matches!(
        kind,
        GroupKind::Index | GroupKind::ListComp | GroupKind::DictComp
    )
}
