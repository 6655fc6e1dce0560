//! Statements as rows, and how chunks are read as them. A row has the parts of its statement in one list, in the order
//! in which they are written.

pub mod from_parts;
pub mod read;
pub mod rows;
mod spot;
mod text_row;
pub mod tree_parts;

use crate::tree::{Class, GroupKind};
use bumpalo::Bump;
use bz_token::Kind;

/// A part of a statement: a token, an end of a bracket or of a segment, or a comment.
#[derive(Clone, Copy)]
pub enum Part<'a> {
    /// A token of this kind and text.
    Token(Kind, &'a str),
    /// A bracket of this kind opens.
    Open(GroupKind),
    /// The innermost open bracket closes. True: it is a tuple of one element, `(x,)`.
    Close(bool),
    /// A segment of a bracket ends.
    End,
    /// A comment on a line of its own, above what follows or at the end of a bracket.
    Above(&'a str),
    /// A comment beside what stands before it.
    Beside(&'a str),
}

/// A list of parts in an arena.
pub type Parts<'a> = Vec<Part<'a>, &'a Bump>;

/// A statement as the list of its parts. Each text is a slice of the chunk that it was read from, or of an arena.
#[derive(Drop)]
pub struct Row<'a> {
    pub parts: Parts<'a>,
    pub class: Class,
    /// The line of its first token, comments not counted unless the class is Comment.
    pub start: u64,
    /// The line on which its last token ends, comments not counted unless the class is Comment or Block.
    pub end: u64,
}
