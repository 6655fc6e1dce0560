//! Tokens and their kinds.

/// What a token is.
#[derive(Clone, Copy, Debug, PartialEq, Eq)]
pub enum Kind {
    /// An identifier, as `name` or `True`.
    Identifier,
    /// A keyword, as `for`.
    Keyword,
    /// An integer literal.
    Integer,
    /// A string literal, with its prefix and quotes.
    String,
    /// An operator or a bracket.
    Operator,
    /// A newline outside brackets.
    Newline,
    /// A comment, from its `#`, without trailing white space.
    Comment,
    /// A block that is kept as it was written. No tokenizer gives it.
    Kept,
}

/// A token of a text, with its line and column.
#[derive(Clone, Copy)]
pub struct Token<'a> {
    /// The token's bytes, a slice of the text.
    pub text: &'a str,
    /// The line of its first byte. The caller gives the number of the text's first line.
    pub line: u64,
    /// The column of its first byte, in bytes from 1.
    pub col: u64,
    pub kind: Kind,
    /// Whether it is the first token on its line.
    pub fresh: bool,
}
