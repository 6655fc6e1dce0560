//! What a byte begins, in tables.

ghost use Rattle.std.specs.Prelude.{◌≡◌};
ghost use Rattle.bz_token.specs.Lexical.{is_word_byte};
ghost use Rattle.bz_token.specs.private.Tables.{class_of};

/// What begins with a byte.
#[derive(Clone, Copy)]
pub enum ByteClass {
    Unknown,
    /// White space within a line.
    Space,
    Newline,
    /// An underscore, or a letter that no string begins with.
    Letter,
    /// A letter that a string may begin with.
    Prefix,
    Digit,
    Quote,
    Hash,
    Backslash,
    Open,
    Close,
    /// Another operator that is whole, whatever follows it.
    Point,
    /// Any other operator.
    Operator,
}

#[rattlefmt::skip]
static CLASS: [ByteClass; 256] = [
    ByteClass::Unknown, ByteClass::Unknown, ByteClass::Unknown, ByteClass::Unknown,
    ByteClass::Unknown, ByteClass::Unknown, ByteClass::Unknown, ByteClass::Unknown,
    ByteClass::Unknown, ByteClass::Space, ByteClass::Newline, ByteClass::Unknown,
    ByteClass::Unknown, ByteClass::Space, ByteClass::Unknown, ByteClass::Unknown,
    ByteClass::Unknown, ByteClass::Unknown, ByteClass::Unknown, ByteClass::Unknown,
    ByteClass::Unknown, ByteClass::Unknown, ByteClass::Unknown, ByteClass::Unknown,
    ByteClass::Unknown, ByteClass::Unknown, ByteClass::Unknown, ByteClass::Unknown,
    ByteClass::Unknown, ByteClass::Unknown, ByteClass::Unknown, ByteClass::Unknown,
    ByteClass::Space, ByteClass::Operator, ByteClass::Quote, ByteClass::Hash,
    ByteClass::Unknown, ByteClass::Operator, ByteClass::Operator, ByteClass::Quote,
    ByteClass::Open, ByteClass::Close, ByteClass::Operator, ByteClass::Operator,
    ByteClass::Point, ByteClass::Operator, ByteClass::Point, ByteClass::Operator,
    ByteClass::Digit, ByteClass::Digit, ByteClass::Digit, ByteClass::Digit,
    ByteClass::Digit, ByteClass::Digit, ByteClass::Digit, ByteClass::Digit,
    ByteClass::Digit, ByteClass::Digit, ByteClass::Point, ByteClass::Point,
    ByteClass::Operator, ByteClass::Operator, ByteClass::Operator, ByteClass::Unknown,
    ByteClass::Unknown, ByteClass::Letter, ByteClass::Letter, ByteClass::Letter,
    ByteClass::Letter, ByteClass::Letter, ByteClass::Letter, ByteClass::Letter,
    ByteClass::Letter, ByteClass::Letter, ByteClass::Letter, ByteClass::Letter,
    ByteClass::Letter, ByteClass::Letter, ByteClass::Letter, ByteClass::Letter,
    ByteClass::Letter, ByteClass::Letter, ByteClass::Letter, ByteClass::Letter,
    ByteClass::Letter, ByteClass::Letter, ByteClass::Letter, ByteClass::Letter,
    ByteClass::Letter, ByteClass::Letter, ByteClass::Letter, ByteClass::Open,
    ByteClass::Backslash, ByteClass::Close, ByteClass::Operator, ByteClass::Letter,
    ByteClass::Unknown, ByteClass::Letter, ByteClass::Prefix, ByteClass::Letter,
    ByteClass::Letter, ByteClass::Letter, ByteClass::Letter, ByteClass::Letter,
    ByteClass::Letter, ByteClass::Letter, ByteClass::Letter, ByteClass::Letter,
    ByteClass::Letter, ByteClass::Letter, ByteClass::Letter, ByteClass::Letter,
    ByteClass::Letter, ByteClass::Letter, ByteClass::Prefix, ByteClass::Letter,
    ByteClass::Letter, ByteClass::Letter, ByteClass::Letter, ByteClass::Letter,
    ByteClass::Letter, ByteClass::Letter, ByteClass::Letter, ByteClass::Open,
    ByteClass::Operator, ByteClass::Close, ByteClass::Point, ByteClass::Unknown,
    ByteClass::Unknown, ByteClass::Unknown, ByteClass::Unknown, ByteClass::Unknown,
    ByteClass::Unknown, ByteClass::Unknown, ByteClass::Unknown, ByteClass::Unknown,
    ByteClass::Unknown, ByteClass::Unknown, ByteClass::Unknown, ByteClass::Unknown,
    ByteClass::Unknown, ByteClass::Unknown, ByteClass::Unknown, ByteClass::Unknown,
    ByteClass::Unknown, ByteClass::Unknown, ByteClass::Unknown, ByteClass::Unknown,
    ByteClass::Unknown, ByteClass::Unknown, ByteClass::Unknown, ByteClass::Unknown,
    ByteClass::Unknown, ByteClass::Unknown, ByteClass::Unknown, ByteClass::Unknown,
    ByteClass::Unknown, ByteClass::Unknown, ByteClass::Unknown, ByteClass::Unknown,
    ByteClass::Unknown, ByteClass::Unknown, ByteClass::Unknown, ByteClass::Unknown,
    ByteClass::Unknown, ByteClass::Unknown, ByteClass::Unknown, ByteClass::Unknown,
    ByteClass::Unknown, ByteClass::Unknown, ByteClass::Unknown, ByteClass::Unknown,
    ByteClass::Unknown, ByteClass::Unknown, ByteClass::Unknown, ByteClass::Unknown,
    ByteClass::Unknown, ByteClass::Unknown, ByteClass::Unknown, ByteClass::Unknown,
    ByteClass::Unknown, ByteClass::Unknown, ByteClass::Unknown, ByteClass::Unknown,
    ByteClass::Unknown, ByteClass::Unknown, ByteClass::Unknown, ByteClass::Unknown,
    ByteClass::Unknown, ByteClass::Unknown, ByteClass::Unknown, ByteClass::Unknown,
    ByteClass::Unknown, ByteClass::Unknown, ByteClass::Unknown, ByteClass::Unknown,
    ByteClass::Unknown, ByteClass::Unknown, ByteClass::Unknown, ByteClass::Unknown,
    ByteClass::Unknown, ByteClass::Unknown, ByteClass::Unknown, ByteClass::Unknown,
    ByteClass::Unknown, ByteClass::Unknown, ByteClass::Unknown, ByteClass::Unknown,
    ByteClass::Unknown, ByteClass::Unknown, ByteClass::Unknown, ByteClass::Unknown,
    ByteClass::Unknown, ByteClass::Unknown, ByteClass::Unknown, ByteClass::Unknown,
    ByteClass::Unknown, ByteClass::Unknown, ByteClass::Unknown, ByteClass::Unknown,
    ByteClass::Unknown, ByteClass::Unknown, ByteClass::Unknown, ByteClass::Unknown,
    ByteClass::Unknown, ByteClass::Unknown, ByteClass::Unknown, ByteClass::Unknown,
    ByteClass::Unknown, ByteClass::Unknown, ByteClass::Unknown, ByteClass::Unknown,
    ByteClass::Unknown, ByteClass::Unknown, ByteClass::Unknown, ByteClass::Unknown,
    ByteClass::Unknown, ByteClass::Unknown, ByteClass::Unknown, ByteClass::Unknown,
    ByteClass::Unknown, ByteClass::Unknown, ByteClass::Unknown, ByteClass::Unknown,
    ByteClass::Unknown, ByteClass::Unknown, ByteClass::Unknown, ByteClass::Unknown,
    ByteClass::Unknown, ByteClass::Unknown, ByteClass::Unknown, ByteClass::Unknown,
    ByteClass::Unknown, ByteClass::Unknown, ByteClass::Unknown, ByteClass::Unknown,
];

#[inline(always)]
pub fn class_at(b: u8) -> ByteClass
    ensures { result ≡ class_of b }
{
    CLASS[usize::from(b)]
}

#[rattlefmt::skip]
static WORD: [bool; 256] = [
    false, false, false, false, false, false, false, false, false, false, false, false, false, false, false, false,
    false, false, false, false, false, false, false, false, false, false, false, false, false, false, false, false,
    false, false, false, false, false, false, false, false, false, false, false, false, false, false, false, false,
    true, true, true, true, true, true, true, true, true, true, false, false, false, false, false, false,
    false, true, true, true, true, true, true, true, true, true, true, true, true, true, true, true,
    true, true, true, true, true, true, true, true, true, true, true, false, false, false, false, true,
    false, true, true, true, true, true, true, true, true, true, true, true, true, true, true, true,
    true, true, true, true, true, true, true, true, true, true, true, false, false, false, false, false,
    false, false, false, false, false, false, false, false, false, false, false, false, false, false, false, false,
    false, false, false, false, false, false, false, false, false, false, false, false, false, false, false, false,
    false, false, false, false, false, false, false, false, false, false, false, false, false, false, false, false,
    false, false, false, false, false, false, false, false, false, false, false, false, false, false, false, false,
    false, false, false, false, false, false, false, false, false, false, false, false, false, false, false, false,
    false, false, false, false, false, false, false, false, false, false, false, false, false, false, false, false,
    false, false, false, false, false, false, false, false, false, false, false, false, false, false, false, false,
    false, false, false, false, false, false, false, false, false, false, false, false, false, false, false, false,
];

/// Whether names are made of this byte.
#[inline(always)]
pub fn is_word_byte(b: u8) -> bool
    ensures { result ≡ is_word_byte b }
{
    WORD[usize::from(b)]
}
