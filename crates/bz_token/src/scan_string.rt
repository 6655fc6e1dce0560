//! Where a string literal opens and closes.

ghost use Rattle.std.specs.Prelude.{◌≡◌, ◌≤◌, ◌<◌, ◌-◌, ℕ, Some, true, false, length, take, slice_index, IfSome, IfNone};
ghost use Rattle.std.specs.List.{list_any};
ghost use Rattle.bz_token.specs.Strings.{is_quote, quote_count, are_two, opening};
ghost use Rattle.bz_token.specs.Common.{is_newline};
ghost use Rattle.bz_token.specs.private.Closing.{is_escaped, escape_after, closes, prefix_letters};
ghost use Rattle.bz_token.specs.declared.scan_string.Escape.TheVariants.{Unescaped};

use crate::plain::plain_len;

/// What stands before a byte of a string: nothing that escapes it, a backslash, or a backslash and a carriage return.
#[derive(Clone, Copy)]
pub enum Escape {
    Unescaped,
    AfterBackslash,
    AfterReturn,
}

/// The quotes of a string.
#[derive(Clone, Copy)]
pub struct Quotes {
    pub byte: u8,
    /// Three of them.
    pub long: bool,
}

/// What opens a string: so many prefix letters, and quotes.
#[derive(Clone, Copy)]
pub struct Opening {
    pub prefix: usize,
    pub quotes: Quotes,
}

/// What stands after a string's opening quotes, up to its closing ones.
#[derive(Clone, Copy)]
pub struct StringBody {
    pub len: usize,
    pub has_newline: bool,
}

#[inline(always)]
pub fn is_quote(b: u8) -> bool
    ensures { result ≡ is_quote b }
{
    b == b'"' || b == b'\''
}

#[inline(always)]
fn is_escaped(escape: Escape, b: u8) -> bool
    ensures { result ≡ is_escaped escape b }
{
    match escape {
        Escape::Unescaped => false,
        Escape::AfterBackslash => true,
        Escape::AfterReturn => b == b'\n',
    }
}

#[inline(always)]
fn escape_after(escape: Escape, b: u8) -> Escape
    ensures { result ≡ escape_after escape b }
{
    match (escape, b) {
        (Escape::AfterBackslash, b'\r') => Escape::AfterReturn,
        (Escape::AfterBackslash, _) => Escape::Unescaped,
        (_, b'\\') => Escape::AfterBackslash,
        _ => Escape::Unescaped,
    }
}

#[inline(always)]
pub fn quote_count(long: bool) -> usize
    ensures { result ≡ quote_count long }
{
    if long { 3 } else { 1 }
}

#[inline(always)]
fn prefix_letters(bytes: &[u8]) -> usize
    ensures value { result ≡ prefix_letters bytes.now }
    ensures in_range { result ≤ length bytes.now }
{
    match bytes {
        [b'r', b'b', ..] | [b'b', b'r', ..] => 2,
        [b'r' | b'b', ..] => 1,
        _ => 0,
    }
}

#[inline(always)]
fn are_two(quote: u8, bytes: &[u8]) -> bool
    ensures { result ≡ are_two quote bytes.now }
{
    match bytes {
        [a, b, ..] => *a == quote && *b == quote,
        _ => false,
    }
}

/// What opens the string that begins here, if one does.
#[inline(always)]
pub fn opening_at(bytes: &[u8]) -> Option<Opening>
    ensures { result ≡ opening bytes.now }
{
    let prefix = prefix_letters(bytes);
    let (byte, after) = bytes[prefix..].split_first()?;
    if !is_quote(*byte) {
        return None;
    }
    let quotes = Quotes {
        byte: *byte,
        long: are_two(*byte, after),
    };
    Some(Opening { prefix, quotes })
}

/// What opens the string that begins with this quote.
#[inline(always)]
pub fn quoted_at(bytes: &[u8]) -> Opening
    requires some { 0 < length bytes.now }
    requires quote { is_quote (slice_index bytes.now 0) ≡ true }
    ensures { opening bytes.now ≡ Some result }
{
    let byte = bytes[0];
    let quotes = Quotes {
        byte,
        long: are_two(byte, &bytes[1..]),
    };
    Opening { prefix: 0, quotes }
}

/// What stands after these opening quotes, up to the closing ones, if there are any.
#[inline(always)]
pub fn inside_at(quotes: Quotes, bytes: &[u8]) -> Option<StringBody>
    requires { is_quote quotes.byte ≡ true }
    ensures in_range { IfSome result (λ r. (0 < r.len) × (r.len ≤ length bytes.now)) }
    ensures closed { IfSome result (λ r. closes quotes 0 Unescaped (take r.len bytes.now) ≡ true) }
    ensures one_line { IfSome result (λ r. r.has_newline ≡ false → list_any is_newline (take r.len bytes.now) ≡ false) }
    ensures none { IfNone result ((n : ℕ) → closes quotes 0 Unescaped (take n bytes.now) ≡ false) }
{
    // Most strings are short and have no backslash.
    if !quotes.long {
        let len = plain_len(quotes.byte, bytes);
        if len < bytes.len() && bytes[len] == quotes.byte {
            return Some(StringBody {
                len: len + 1,
                has_newline: false,
            });
        }
    }
    inside_by_bytes(quotes, bytes)
}

// What stands after these opening quotes, byte by byte.
fn inside_by_bytes(quotes: Quotes, bytes: &[u8]) -> Option<StringBody>
    requires { is_quote quotes.byte ≡ true }
    ensures in_range { IfSome result (λ r. (0 < r.len) × (r.len ≤ length bytes.now)) }
    ensures closed { IfSome result (λ r. closes quotes 0 Unescaped (take r.len bytes.now) ≡ true) }
    ensures one_line { IfSome result (λ r. r.has_newline ≡ false → list_any is_newline (take r.len bytes.now) ≡ false) }
    ensures none { IfNone result ((n : ℕ) → closes quotes 0 Unescaped (take n bytes.now) ≡ false) }
{
    let mut escape = Escape::Unescaped;
    let mut row = 0;
    let mut has_newline = false;
    for (i, b) in bytes.iter().enumerate() {
        if is_escaped(escape, *b) {
            row = 0;
        } else if *b == quotes.byte {
            row += 1;
            if row == quote_count(quotes.long) {
                return Some(StringBody {
                    len: i + 1,
                    has_newline,
                });
            }
        } else if *b == b'\n' && !quotes.long {
            return None;
        } else {
            row = 0;
        }
        has_newline = has_newline || *b == b'\n';
        escape = escape_after(escape, *b);
    }
    None
}
