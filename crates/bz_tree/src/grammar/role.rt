//! What a token is to the grammar.

ghost use Rattle.std.specs.Prelude.{◌≡◌, ◌<◌, ◌∷◌, [], length};
ghost use Rattle.bz_token.specs.declared.token.Kind.TheVariants.{Keyword};
ghost use Rattle.bz_tree.specs.private.Productions.{operator_role, is_assignment};
ghost use Rattle.bz_tree.specs.private.Machine.{kind_role};

use bz_token::Kind;

/// The role of a node in the grammar.
#[derive(Clone, Copy)]
pub enum Role {
    /// An identifier.
    Name,
    Number,
    /// A string.
    Value,
    /// A bracket that is an operand.
    Bracket,
    /// A call or an index.
    Suffix,
    Dot,
    Comma,
    Colon,
    Equals,
    /// An augmented assignment.
    Augmented,
    If,
    Else,
    For,
    In,
    Not,
    Tilde,
    /// `+` or `-`.
    Sum,
    /// `*`.
    Star,
    /// `**`.
    Stars,
    /// Any other binary operator.
    Operator,
    /// The keyword `load`.
    LoadWord,
    /// The bracket of a load.
    LoadGroup,
    /// What stands nowhere in an expression.
    Stray,
}

fn word_role(text: &str) -> Role
    ensures { result ≡ kind_role Keyword text.now }
{
    match text {
        "load" => Role::LoadWord,
        "if" => Role::If,
        "else" => Role::Else,
        "for" => Role::For,
        "in" => Role::In,
        "not" => Role::Not,
        "and" | "or" => Role::Operator,
        _ => Role::Stray,
    }
}

// What an operator of more bytes is.
fn longer_role(text: &str) -> Role
    requires { 1 < length text.now }
    ensures { result ≡ operator_role text.now }
{
    match text {
        "**" => Role::Stars,
        "+=" | "-=" | "*=" | "/=" | "//=" | "%=" | "&=" | "|=" | "^=" | "<<=" | ">>=" => {
            Role::Augmented
        }
        "==" | "!=" | "<=" | ">=" | "<<" | ">>" | "//" => Role::Operator,
        _ => Role::Stray,
    }
}

/// What an operator is.
#[inline(always)]
pub(crate) fn operator_role(text: &str) -> Role
    ensures { result ≡ operator_role text.now }
{
    match text.as_bytes() {
        [b'.'] => Role::Dot,
        [b','] => Role::Comma,
        [b':'] => Role::Colon,
        [b'='] => Role::Equals,
        [b'~'] => Role::Tilde,
        [b'*'] => Role::Star,
        [b'+' | b'-'] => Role::Sum,
        [b'<' | b'>' | b'|' | b'^' | b'&' | b'/' | b'%'] => Role::Operator,
        [] | [_] => Role::Stray,
        _ => longer_role(text),
    }
}

/// `=` and the augmented assignments.
#[inline(always)]
pub(crate) fn is_assignment(role: Role) -> bool
    ensures { result ≡ is_assignment role }
{
    matches!(role, Role::Equals | Role::Augmented)
}

/// What a token of this kind and text is.
#[inline(always)]
pub(crate) fn token_role(kind: Kind, text: &str) -> Role
    ensures { result ≡ kind_role kind text.now }
{
    match kind {
        Kind::Identifier => Role::Name,
        Kind::Integer => Role::Number,
        Kind::String => Role::Value,
        Kind::Keyword => word_role(text),
        Kind::Operator => operator_role(text),
        _ => Role::Stray,
    }
}
