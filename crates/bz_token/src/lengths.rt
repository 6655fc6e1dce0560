//! The lengths of the identifier, integer, string and comment that a text begins with.

ghost use Rattle.std.specs.Prelude.{◌≡◌, ◌<◌, ℕ};
ghost use Rattle.bz_token.specs.declared.token.Kind.TheVariants.{Identifier, Integer, String, Comment};
ghost use Rattle.bz_token.specs.Lengths.{word_length, IsTokenOf};

use crate::identifier::begins_name;
use crate::scan::{is_keyword, is_number};
use crate::scan_string::opening_at;
use crate::scan_token::{scan_comment, string_at};
use crate::word::{short_word_len, word_len};

/// The number of bytes of the identifier that the text begins with. 0: it begins with none. The letters, digits and
/// underscores alone decide it: `r"x"` begins with the identifier `r`.
#[inline(always)]
pub fn identifier_len(bytes: &[u8]) -> usize
    ensures { result ≡ word_length Identifier bytes.now }
{
    let len = word_len(bytes);
    let word = &bytes[..len];
    if begins_name(word) && !is_keyword(word) {
        len
    } else {
        0
    }
}

/// The number of bytes of the integer literal that the text begins with. 0: it begins with none. The letters, digits
/// and underscores alone decide it: `12a` begins with no integer.
#[inline(always)]
pub fn integer_len(bytes: &[u8]) -> usize
    ensures { result ≡ word_length Integer bytes.now }
{
    let len = short_word_len(bytes);
    if is_number(&bytes[..len]) { len } else { 0 }
}

/// The number of bytes of the string literal that the text begins with, with its prefix and quotes. 0: it begins with
/// none, or with one that nothing closes.
#[tactic(auto, using(crate::proofs::TokenLengths::unopened, crate::proofs::TokenLengths::unclosed))]
#[inline(always)]
pub fn string_len(bytes: &[u8]) -> usize
    ensures string { 0 < result → IsTokenOf String bytes.now result }
    ensures none { result ≡ 0 → (n : ℕ) → IsTokenOf String bytes.now n → ⊥ }
{
    let Some(opened) = opening_at(bytes) else {
        return 0;
    };
    match string_at(opened, bytes) {
        Some(string) => string.len,
        None => 0,
    }
}

/// The number of bytes of the comment that the text begins with: up to the end of its line, without trailing white
/// space. 0: it begins with none.
#[tactic(auto, using(crate::proofs::TokenLengths::no_comment))]
#[inline(always)]
pub fn comment_len(bytes: &[u8]) -> usize
    ensures comment { 0 < result → IsTokenOf Comment bytes.now result }
    ensures none { result ≡ 0 → (n : ℕ) → IsTokenOf Comment bytes.now n → ⊥ }
{
    match bytes {
        [b'#', ..] => scan_comment(bytes).len,
        _ => 0,
    }
}
