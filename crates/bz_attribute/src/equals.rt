//! Whether an element equals a word.

ghost use Rattle.std.specs.Prelude.{◌≡◌, false};
ghost use Rattle.bz_label.specs.Same.{same};
ghost use Rattle.bz_label.specs.Values as values;
ghost use Rattle.bz_token.specs.Common.{map_or};

use crate::apart::literal_apart;
use bz_label::{Bytes, Package, same_label, value_of};

/// A string token of this text has a value that is the same label as the word.
pub fn text_equals(home: &Package, text: &str, word: &str) -> bool
    ensures { result ≡ map_or false (λ value. same home.now value word.now) (values.value_of text.now) }
{
    // Most are told apart at once.
    if literal_apart(text.as_bytes(), word.as_bytes()) {
        return false;
    }
    match value_of(text) {
        Some(value) => same_label(home, value, Bytes::Plain(word.as_bytes())),
        None => false,
    }
}
