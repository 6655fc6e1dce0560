//! Identifiers.

ghost use Rattle.std.specs.Prelude.{◌≡◌, ◌&&◌, not};
ghost use Rattle.std.specs.Char.{is_ascii_digit};
ghost use Rattle.std.specs.List.{list_all};
ghost use Rattle.bz_token.specs.declared.token.Kind.TheVariants.{Identifier};
ghost use Rattle.bz_token.specs.Lexical as spec;
ghost use Rattle.bz_token.specs.Common.{begins, is_empty};

use crate::scan::is_keyword;
use crate::table::is_word_byte;

/// Whether the whole text is an identifier: ASCII letters, digits and underscores, the first no digit, and no keyword
/// (Starlark specification, "Lexical elements").
pub fn is_identifier(text: &str) -> bool
    ensures { result ≡ spec.is_text Identifier text.now }
{
    is_name(text.as_bytes()) && !is_keyword(text.as_bytes())
}

fn is_name(bytes: &[u8]) -> bool
    ensures { result ≡ spec.is_name bytes.now }
{
    begins_name(bytes) && are_word_bytes(bytes)
}

/// Whether letters, digits and underscores are a name: there are some, and the first is no digit.
#[inline(always)]
pub fn begins_name(word: &[u8]) -> bool
    ensures { result ≡ (not (is_empty word.now) && not (begins is_ascii_digit word.now)) }
{
    match word.split_first() {
        None => false,
        Some((first, _)) => !first.is_ascii_digit(),
    }
}

fn are_word_bytes(bytes: &[u8]) -> bool
    ensures { result ≡ list_all spec.is_word_byte bytes.now }
{
    bytes.iter().all(|b| is_word_byte(*b))
}
