//! Statements as trees, and how chunks are read as them. Every text is a slice of the chunk that it was read from, or
//! owned where a command or a copy made it.

pub mod block;
mod build;
pub mod chunk;
pub mod classes;
mod copy;
mod kept;
pub mod kinds;
pub mod owners;
pub mod span;

use bz_token::Kind;
use std::borrow::CowStr;

/// The kind of a bracket group.
#[derive(Clone, Copy, PartialEq, Eq)]
pub enum GroupKind {
    /// The arguments of a call.
    Call,
    /// The arguments of the call that a rule is.
    RuleCall,
    /// The arguments of a `load` statement.
    Load,
    /// Parentheses around an expression, or a tuple.
    Paren,
    List,
    /// An index or a slice.
    Index,
    Dict,
    /// A list comprehension.
    ListComp,
    /// A dict comprehension.
    DictComp,
}

/// A token of a statement, with its line and column in the input. In a statement that a command has changed they may be
/// any.
#[derive(Drop)]
pub struct Leaf<'a> {
    pub kind: Kind,
    pub text: CowStr<'a>,
    /// The line of its first byte.
    pub line: u64,
    /// The column of its first byte, in bytes from 1.
    pub col: u64,
    /// Whether it is the first token on its line.
    pub fresh: bool,
}

/// A node of a statement: a token, or a bracket with what stands in it.
#[cycle(tree)]
#[derive(Drop)]
pub enum Node<'a> {
    Token(Leaf<'a>),
    Group(Group<'a>),
}

/// A bracket with what stands in it: segments, with commas between them.
#[cycle(tree)]
#[derive(Drop)]
pub struct Group<'a> {
    pub kind: GroupKind,
    pub segs: Vec<Seg<'a>>,
    /// It is a tuple of one element, `(x,)`.
    pub one_comma: bool,
    /// The comments after the last segment, each on a line of its own.
    pub end: Vec<CowStr<'a>>,
}

/// A segment: what stands between two commas of a bracket.
#[cycle(tree)]
#[derive(Drop)]
pub struct Seg<'a> {
    /// The comments above it.
    pub before: Vec<CowStr<'a>>,
    pub nodes: Vec<Node<'a>>,
    /// The comment after it, on its last line.
    pub suffix: Option<CowStr<'a>>,
}

/// The class of a statement: the layout and the commands treat each class in its own way.
#[derive(Clone, Copy, Debug, PartialEq, Eq)]
pub enum Class {
    Load,
    /// An assignment.
    Assign,
    /// A rule: identifiers joined by `.`, and one call.
    Rule,
    /// Any other expression.
    Other,
    /// Comment lines alone.
    Comment,
    /// A `def`, `for` or `if` block, kept as it was written.
    Block,
}

/// A statement: its nodes, and the comments that belong to it.
#[derive(Drop)]
pub struct Stmt<'a> {
    /// The comments above it.
    pub before: Vec<CowStr<'a>>,
    pub nodes: Vec<Node<'a>>,
    /// The comment after it, on its last line.
    pub suffix: Option<CowStr<'a>>,
    pub class: Class,
    /// The line of its first token, comments not counted unless the class is Comment.
    pub start: u64,
    /// The line on which its last token ends, comments not counted unless the class is Comment or Block.
    pub end: u64,
}
