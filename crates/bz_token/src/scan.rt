//! How long the token at the front of some bytes is.

ghost use Rattle.std.specs.Prelude.{◌≡◌, ◌≤◌, ◌<◌, ◌+◌, ◌-◌, ◌==◌, ◌∷◌, [], ℕ, true, false, not, length, take, drop, slice_index, bytes_eq};
ghost use Rattle.std.specs.Char.{is_ascii_digit, is_ascii_hexdigit};
ghost use Rattle.std.specs.List.{list_all, prefix_len};
ghost use Rattle.bz_token.specs.declared.token.Kind.TheVariants.{Operator};
ghost use Rattle.bz_token.specs.Ends.{stops_at};
ghost use Rattle.bz_token.specs.private.Keywords.{keyword_len};
ghost use Rattle.bz_token.specs.Lexical.{operators, keywords, is_octal_digit, are_based, is_number, is_keyword, is_operator_text, is_comment};
ghost use Rattle.bz_token.specs.Common.{begins, is_newline};
ghost use Rattle.bz_token.specs.Pieces.{is_blank};

use memchr::memchr;

#[inline(always)]
pub fn is_blank(b: u8) -> bool
    ensures { result ≡ is_blank b }
{
    matches!(b, b' ' | b'\t' | b'\r')
}

fn is_octal_digit(b: u8) -> bool
    ensures { result ≡ is_octal_digit b }
{
    b'0' <= b && b <= b'7'
}

fn are_decimal(bytes: &[u8]) -> bool
    ensures { result ≡ list_all is_ascii_digit bytes.now }
{
    bytes.iter().all(u8::is_ascii_digit)
}

fn are_hexadecimal(bytes: &[u8]) -> bool
    ensures { result ≡ list_all is_ascii_hexdigit bytes.now }
{
    bytes.iter().all(u8::is_ascii_hexdigit)
}

fn are_octal(bytes: &[u8]) -> bool
    ensures { result ≡ list_all is_octal_digit bytes.now }
{
    bytes.iter().all(|b| is_octal_digit(*b))
}

/// Whether these are digits after the letter of a base.
fn are_based(bytes: &[u8]) -> bool
    ensures { result ≡ are_based bytes.now }
{
    match bytes {
        [b'x' | b'X', digits @ ..] => !digits.is_empty() && are_hexadecimal(digits),
        [b'o' | b'O', digits @ ..] => !digits.is_empty() && are_octal(digits),
        _ => false,
    }
}

/// Whether the bytes are a number's text.
pub fn is_number(bytes: &[u8]) -> bool
    ensures { result ≡ is_number bytes.now }
{
    match bytes.split_first() {
        None => false,
        Some((b, after)) => are_decimal(bytes) || *b == b'0' && are_based(after),
    }
}

#[inline(always)]
fn are(bytes: &[u8], word: &[u8]) -> bool
    ensures { result ≡ bytes_eq bytes.now word.now }
{
    bytes.len() == word.len() && are_equal(bytes, word)
}

// A comparison of bytes keeps both slices in memory: here that is in nobody's way.
#[inline(never)]
fn are_equal(bytes: &[u8], word: &[u8]) -> bool
    ensures { result ≡ bytes_eq bytes.now word.now }
{
    bytes == word
}

// The length of the keywords that begin so, but for `lambda`, or 0.
#[inline(always)]
fn keyword_len(first: u8) -> usize
    ensures { result ≡ keyword_len first }
{
    match first {
        b'i' | b'o' => 2,
        b'a' | b'd' | b'f' | b'n' => 3,
        b'e' | b'l' | b'p' => 4,
        b'b' => 5,
        b'r' => 6,
        b'c' => 8,
        _ => 0,
    }
}

/// Whether the bytes are a keyword.
#[tactic(auto, unfolding(crate::specs::Lexical::keywords))]
#[inline(always)]
pub fn is_keyword(bytes: &[u8]) -> bool
    ensures { result ≡ is_keyword bytes.now }
{
    // Most names are told at a glance.
    if bytes.len() != keyword_len(byte_at(bytes, 0)) {
        return are(bytes, b"lambda");
    }
    match bytes.len() {
        2 => are(bytes, b"if") || are(bytes, b"in") || are(bytes, b"or"),
        3 => are(bytes, b"and") || are(bytes, b"def") || are(bytes, b"for") || are(bytes, b"not"),
        4 => are(bytes, b"elif")
            || are(bytes, b"else")
            || are(bytes, b"load")
            || are(bytes, b"pass"),
        5 => are(bytes, b"break"),
        6 => are(bytes, b"lambda") || are(bytes, b"return"),
        8 => are(bytes, b"continue"),
        _ => false,
    }
}

/// The length of the operator that begins with the first of these bytes, or 0.
#[tactic(auto, unfolding(crate::specs::Lexical::operators))]
#[inline(always)]
fn operator_of(a: u8, b: u8, c: u8) -> usize
    ensures at_most { result ≤ 3 }
    ensures operator { 0 < result → is_operator_text (take result (a ∷ b ∷ c ∷ [])) ≡ true }
    ensures longer_1 { result < 1 → is_operator_text (a ∷ []) ≡ false }
    ensures longer_2 { result < 2 → is_operator_text (a ∷ b ∷ []) ≡ false }
    ensures longer_3 { result < 3 → is_operator_text (a ∷ b ∷ c ∷ []) ≡ false }
{
    match a {
        b'~' | b'.' | b',' | b';' | b':' | b'(' | b')' | b'[' | b']' | b'{' | b'}' => 1,
        b'+' | b'-' | b'%' | b'&' | b'|' | b'^' | b'=' => { if b == b'=' { 2 } else { 1 } }
        b'*' => { if b == b'=' || b == b'*' { 2 } else { 1 } }
        b'/' | b'<' | b'>' => {
            if b == b'=' {
                2
            } else if b != a {
                1
            } else if c == b'=' {
                3
            } else {
                2
            }
        }
        b'!' => { if b == b'=' { 2 } else { 0 } }
        _ => 0,
    }
}

/// The number of bytes before the first newline.
#[inline(always)]
pub fn line_len(bytes: &[u8]) -> usize
    ensures { result ≡ prefix_len (λ b. not (is_newline b)) bytes.now }
{
    match memchr(b'\n', bytes) {
        Some(len) => len,
        None => bytes.len(),
    }
}

/// The length without trailing white space, at least 1.
#[inline(always)]
fn trimmed_len(line: &[u8]) -> usize
    requires { 0 < length line.now }
    ensures in_range { (0 < result) × (result ≤ length line.now) }
    ensures trimmed { 1 < result → is_blank (slice_index line.now (result - 1)) ≡ false }
    ensures blank { list_all is_blank (drop result line.now) ≡ true }
{
    let mut len = line.len();
    while len > 1 && is_blank(line[len - 1]) {
        len -= 1;
    }
    len
}

/// The length of the comment here: the line's, without trailing white space.
#[inline(always)]
pub fn line_comment_len(bytes: &[u8]) -> usize
    requires { begins (λ b. b == 35) bytes.now ≡ true }
    ensures in_range { (0 < result) × (result ≤ length bytes.now) }
    ensures in_line { result ≤ prefix_len (λ b. not (is_newline b)) bytes.now }
    ensures comment { is_comment (take result bytes.now) ≡ true }
    ensures longest { list_all is_blank (drop result (take (prefix_len (λ b. not (is_newline b)) bytes.now) bytes.now))
        ≡ true }
{
    trimmed_len(&bytes[..line_len(bytes)])
}

#[inline(always)]
fn byte_at(bytes: &[u8], at: usize) -> u8
    ensures { result ≡ slice_index bytes.now at }
{
    bytes.get(at).copied().unwrap_or(0)
}

// The length of the operator here, which begins with this byte, or 0.
#[inline(always)]
fn operator_after(first: u8, bytes: &[u8]) -> usize
    requires { first ≡ slice_index bytes.now 0 }
    ensures in_range { result ≤ length bytes.now }
    ensures operator { 0 < result → is_operator_text (take result bytes.now) ≡ true }
    ensures stops { 0 < result → stops_at Operator (take result bytes.now) (drop result bytes.now) ≡ true }
    ensures none { result ≡ 0 → (n : ℕ) → is_operator_text (take n bytes.now) ≡ false }
{
    operator_of(first, byte_at(bytes, 1), byte_at(bytes, 2))
}

/// The length of the operator here, or 0.
#[inline(always)]
pub fn operator_len(bytes: &[u8]) -> usize
    ensures in_range { result ≤ length bytes.now }
    ensures operator { 0 < result → is_operator_text (take result bytes.now) ≡ true }
    ensures stops { 0 < result → stops_at Operator (take result bytes.now) (drop result bytes.now) ≡ true }
    ensures none { result ≡ 0 → (n : ℕ) → is_operator_text (take n bytes.now) ≡ false }
{
    // Most are this one, of which one byte more tells the length.
    match bytes {
        [b'=', ..] => operator_after(b'=', bytes),
        _ => operator_after(byte_at(bytes, 0), bytes),
    }
}
