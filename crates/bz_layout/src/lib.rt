//! The canonical text of statements: one text for each, so that a diff shows the edit and nothing else.
//!
//! # That what is written reads back
//!
//! bz_layout_laws proves it, over the pieces of `specs/Layout.antt`. It rests on this:
//!
//! Tokens: a text is read as gaps and longest tokens in turn, so it is enough that each piece has a text of its kind and
//! that the byte after it ends this text. A space, a newline, a bracket, a comma and a colon end every token but a
//! comment, a newline ends that too, and no byte lengthens a bracket. After `.`, a prefix, an argument's star and the
//! colon of an index stands no token that begins with one of the bytes `/ * < > =`, and only these lengthen an operator.
//!
//! Tree: the pieces without comments are the tokens of the tree, except for the comma after the last segment of a broken
//! group, which the grammar allows where it is written. A gap with a new line stands only inside a bracket, a newline
//! token only outside.
//!
//! Comments: a suffix stands on the line of its segment's comma or last token, all others on lines of their own; the
//! lines are those of `specs/Lines.antt`, and the newlines in a long string's text.
#![tactic(auto)]

mod append;
mod broken;
mod flat_text;
mod gaps;
pub mod laws;
mod marks;
mod respell;
mod row;
mod spacing;
mod walk;
mod write;

pub use flat_text::{flat, flat_parts};
pub use gaps::{blank_between, put_gap};
pub use row::{put_row, put_stmt};
