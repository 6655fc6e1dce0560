//! String tokens that are no label of a word, told by their last bytes.

ghost use Rattle.std.specs.Prelude.{◌≡◌, true, false, IsTrue, ◌&&◌, not};
ghost use Rattle.bz_label.specs.Labels.{Package, is_slash};
ghost use Rattle.bz_label.specs.Values.{value_of};
ghost use Rattle.bz_label.specs.Literals.{is_plain};
ghost use Rattle.bz_token.specs.Common.{map_or};
ghost use Rattle.bz_label.specs.Same.{same};
ghost use Rattle.bz_attribute.specs.private.Apart.{EndApart};

/// A string token of this text has no value that is the same label as the word, whatever the package is. False: it may
/// have. A label in full ends as its text does after the last slash, and the value of a literal as that does after the
/// last escape: two that end otherwise are not the same.
#[inline(always)]
pub fn literal_apart(text: &[u8], word: &[u8]) -> bool
    ensures { result ≡ true → (home : Package)
        → map_or false (λ value. same home value word.now) (value_of text.now) ≡ false }
{
    match text {
        [quote @ (b'"' | b'\''), inner @ .., _] => end_apart(*quote, inner, word),
        _ => false,
    }
}

// What stands between two quotes and the word end in the same bytes, if any, without slashes and escapes, and the bytes
// before these differ. Most texts differ in the last byte.
#[inline(always)]
fn end_apart(quote: u8, mut inner: &[u8], mut word: &[u8]) -> bool
    ensures { IsTrue result → EndApart quote inner.entry.now word.entry.now }
{
    while let ([front @ .., byte], [rest @ .., other]) = (inner, word) {
        let [.., before] = front else {
            return false;
        };
        if *before == b'\\' || *other == b'/' || !stays_last(quote, *byte) {
            return false;
        }
        if *byte != *other {
            return true;
        }
        inner = front;
        word = rest;
    }
    false
}

// A byte that stands for itself, and is no slash.
fn stays_last(quote: u8, byte: u8) -> bool
    ensures { result ≡ (is_plain quote byte && not (is_slash byte)) }
{
    quote != byte && !matches!(byte, b'\\' | b'\r' | b'\n' | b'/')
}
