//! What stands at the front of a text: a byte, a word, a token, the beginning of a line.

ghost use Rattle.std.specs.Prelude.{◌≡◌, ◌∷◌, ◌++◌, ◌≤◌, ◌<◌, ◌-◌, ℕ, List, bytes_eq, length, drop, take, IfSome};
ghost use Rattle.std.specs.List.{prefix_len};
ghost use Rattle.bz_token.specs.declared.token.Kind.TheVariants.{Comment, Identifier, Integer, String};
ghost use Rattle.bz_token.specs.Lengths.{IsTokenOf};
ghost use Rattle.bz_layout.specs.Pieces.{indent};
ghost use Rattle.bz_canonical.specs.private.Fronts.{IsInfixFront, IsQuotedFront, IsTokenFront, is_infix, word_bytes};
ghost use Rattle.bz_canonical.specs.private.Strings.{IsSingleFront, is_plain_inside};

use crate::simple::after_simple;
use bz_token::{comment_len, identifier_len, integer_len, string_len};

/// What follows this byte.
#[inline(always)]
pub(crate) fn after(text: &[u8], byte: u8) -> Option<&[u8]>
    ensures { IfSome result (λ rest. text.now ≡ byte ∷ rest.now) }
{
    match text {
        [first, rest @ ..] if *first == byte => Some(rest),
        _ => None,
    }
}

/// Bytes that stand so in each text. They are an enum, and no slices: each is compared in one step, and in no loop.
#[derive(Clone, Copy)]
pub(crate) enum Word {
    Equals,
    Comma,
    Colon,
    Spaces,
    Load,
    Name,
}

/// What follows this word.
#[inline(always)]
pub(crate) fn after_word(text: &[u8], word: Word) -> Option<&[u8]>
    ensures { IfSome result (λ rest. text.now ≡ word_bytes word ++ rest.now) }
{
    match (word, text) {
        (Word::Equals, [b' ', b'=', b' ', rest @ ..])
        | (Word::Comma, [b',', b' ', rest @ ..])
        | (Word::Colon, [b':', b' ', rest @ ..])
        | (Word::Spaces, [b' ', b' ', rest @ ..])
        | (Word::Load, [b'l', b'o', b'a', b'd', b'(', rest @ ..])
        | (Word::Name, [b'n', b'a', b'm', b'e', b' ', b'=', b' ', rest @ ..]) => Some(rest),
        _ => None,
    }
}

#[inline(always)]
fn is_infix(b: u8) -> bool
    ensures { result ≡ is_infix b }
{
    matches!(b, b'%' | b'*' | b'+' | b'-' | b'/' | b'<' | b'>' | b'|')
}

/// What follows the operator here, between two spaces.
#[inline(always)]
pub(crate) fn after_infix(text: &[u8]) -> Option<&[u8]>
    ensures { IfSome result (λ rest. IsInfixFront text.now rest.now) }
{
    match text {
        [b' ', operator, b' ', rest @ ..] if is_infix(*operator) => Some(rest),
        _ => None,
    }
}

/// The bytes without so many of the last.
pub(crate) fn before(text: &[u8], left: usize) -> Option<&[u8]>
    ensures { IfSome result (λ front. front.now ≡ take (length text.now - left) text.now) }
{
    let len = text.len().checked_sub(left)?;
    let (front, _) = text.split_at_checked(len)?;
    Some(front)
}

/// What follows the first bytes, so many of them. None: there are fewer, or 0 are asked for.
#[inline(always)]
fn after_some(text: &[u8], len: usize) -> Option<&[u8]>
    ensures some { IfSome result (λ rest. 0 < len) }
    ensures rest { IfSome result (λ rest. rest.now ≡ drop len text.now) }
{
    if len == 0 {
        return None;
    }
    let (_, rest) = text.split_at_checked(len)?;
    Some(rest)
}

/// What follows the string here that begins with a double quote.
#[tactic(auto, using(crate::proofs::Tokens::quoted_token))]
#[inline(always)]
pub(crate) fn after_string(text: &[u8]) -> Option<&[u8]>
    ensures { IfSome result (λ rest. IsTokenFront String text.now rest.now) }
{
    // Most stand as they are, in one quote.
    match after_simple_string(text) {
        Some([b'"', ..]) | None => after_any_string(text),
        simple => simple,
    }
}

/// What follows the string here that begins with a double quote, whatever stands in it and however many quotes it has.
#[inline(always)]
fn after_any_string(text: &[u8]) -> Option<&[u8]>
    ensures { IfSome result (λ rest. IsTokenFront String text.now rest.now) }
{
    let _inside = after(text, b'"')?;
    let rest = after_some(text, any_string_len(text))?;
    Some(rest)
}

// Few strings come here: the others are passed without this code in their way.
#[inline(never)]
fn any_string_len(text: &[u8]) -> usize
    ensures { 0 < result → IsTokenOf String text.now result }
{
    string_len(text)
}

/// What follows the identifier here.
#[tactic(auto, using(crate::proofs::Tokens::word_front))]
#[inline(always)]
pub(crate) fn after_identifier(text: &[u8]) -> Option<&[u8]>
    ensures { IfSome result (λ rest. IsTokenFront Identifier text.now rest.now) }
{
    let rest = after_some(text, identifier_len(text))?;
    Some(rest)
}

/// What follows the integer here.
#[tactic(auto, using(crate::proofs::Tokens::word_front))]
pub(crate) fn after_number(text: &[u8]) -> Option<&[u8]>
    ensures { IfSome result (λ rest. IsTokenFront Integer text.now rest.now) }
{
    let rest = after_some(text, integer_len(text))?;
    Some(rest)
}

/// What follows the comment here.
#[inline(always)]
pub(crate) fn after_comment(text: &[u8]) -> Option<&[u8]>
    ensures { IfSome result (λ rest. IsTokenFront Comment text.now rest.now) }
{
    let rest = after_some(text, any_comment_len(text))?;
    Some(rest)
}

// Few lines have a comment: the others are passed without this code in their way.
#[inline(never)]
fn any_comment_len(text: &[u8]) -> usize
    ensures { 0 < result → IsTokenOf Comment text.now result }
{
    comment_len(text)
}

/// A string and what follows it.
#[derive(Clone, Copy)]
pub(crate) struct SimpleString<'t> {
    pub(crate) inner: &'t [u8],
    pub(crate) rest: &'t [u8],
}

/// What follows the string in double quotes here, whose value stands as it is.
#[inline(always)]
pub(crate) fn after_simple_string(text: &[u8]) -> Option<&[u8]>
    ensures { IfSome result (λ rest. (inner : List ℕ) × IsQuotedFront text.now inner rest.now) }
{
    let inside = after(text, b'"')?;
    let rest = after(after_simple(inside), b'"')?;
    Some(rest)
}

/// The string in double quotes here, whose value stands as it is.
#[inline(always)]
pub(crate) fn read_simple_string(text: &[u8]) -> Option<SimpleString<'_>>
    ensures { IfSome result (λ q. IsQuotedFront text.now q.inner.now q.rest.now) }
{
    let rest = after_simple_string(text)?;
    let inside = after(text, b'"')?;
    let closed = before(inside, rest.len())?;
    let inner = before(closed, 1)?;
    Some(SimpleString { inner, rest })
}

fn is_plain(b: u8) -> bool
    ensures { result ≡ is_plain_inside b }
{
    b != b'"' && b != b'\'' && b != b'\\' && b != b'\n'
}

fn plain_len(bytes: &[u8]) -> usize
    ensures len { result ≡ prefix_len is_plain_inside bytes.now }
    ensures within { result ≤ length bytes.now }
{
    bytes.iter().take_while(|b| is_plain(**b)).count()
}

/// The string in single quotes here, which double quotes would leave as it is.
pub(crate) fn read_single_string(text: &[u8]) -> Option<SimpleString<'_>>
    ensures { IfSome result (λ q. IsSingleFront text.now q.inner.now q.rest.now) }
{
    let inside = after(text, b'\'')?;
    let (inner, end) = inside.split_at(plain_len(inside));
    let rest = after(end, b'\'')?;
    Some(SimpleString { inner, rest })
}

// Four spaces, looked at as one word.
const FOUR_SPACES: u32 = 0x2020_2020;

#[inline(always)]
fn after_spaces(text: &[u8]) -> Option<&[u8]>
    ensures { IfSome result (λ rest. text.now ≡ 32 ∷ 32 ∷ 32 ∷ 32 ∷ rest.now) }
{
    match text {
        [a, b, c, d, rest @ ..] => {
            if u32::from_le_bytes([*a, *b, *c, *d]) != FOUR_SPACES {
                return None;
            }
            Some(rest)
        }
        _ => None,
    }
}

/// What follows the indent of a line at this level.
#[inline(always)]
fn after_indent(text: &[u8], level: u8) -> Option<&[u8]>
    ensures { IfSome result (λ rest. text.now ≡ indent level ++ rest.now) }
{
    let mut rest = text;
    for i in 0..level {
        rest = after_spaces(rest)?;
    }
    Some(rest)
}

// Eight spaces, looked at as one word.
const EIGHT_SPACES: u64 = 0x2020_2020_2020_2020;

/// What follows a newline and the indent of an element of a list that is the value of an argument.
#[inline(always)]
pub(crate) fn after_element_line(text: &[u8]) -> Option<&[u8]>
    ensures { IfSome result (λ rest. text.now ≡ 10 ∷ (indent 2 ++ rest.now)) }
{
    match text {
        [b'\n', a, b, c, d, e, f, g, h, rest @ ..] => {
            if u64::from_le_bytes([*a, *b, *c, *d, *e, *f, *g, *h]) != EIGHT_SPACES {
                return None;
            }
            Some(rest)
        }
        _ => None,
    }
}

/// What follows a newline and the indent at this level.
#[inline(always)]
pub(crate) fn after_line(text: &[u8], level: u8) -> Option<&[u8]>
    ensures { IfSome result (λ rest. text.now ≡ 10 ∷ (indent level ++ rest.now)) }
{
    let rest = after(text, b'\n')?;
    let inner = after_indent(rest, level)?;
    Some(inner)
}

/// Whether these are the same bytes: seldom they are as many.
#[inline(always)]
pub(crate) fn are_same(a: &[u8], b: &[u8]) -> bool
    ensures { result ≡ bytes_eq a.now b.now }
{
    a.len() == b.len() && are_equal(a, b)
}

// A comparison of bytes keeps both slices in memory: here that is in nobody's way.
#[inline(never)]
pub(crate) fn are_equal(a: &[u8], b: &[u8]) -> bool
    ensures { result ≡ bytes_eq a.now b.now }
{
    a == b
}
