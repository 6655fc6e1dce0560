//! A string literal, opened and read byte by byte: the one reader of its escapes.

ghost use Rattle.std.specs.Prelude.{◌≡◌, ◌<◌, ◌++◌, ◌∷◌, ℕ, List, MatchOption, IfSome, IfNone, Some, length, take, option_map, true};
ghost use Rattle.std.specs.List.{fold};
ghost use Rattle.bz_label.specs.Values as spec;
ghost use Rattle.bz_label.specs.Literals.{is_plain, IsQuoted, IsPlain};
ghost use Rattle.bz_label.specs.private.ValueSteps.{opened_value, plain_too, taken};
ghost use Rattle.bz_label.specs.private.ByteSteps.{inner_of, opened, ended, is_closed, StandsIn, taken_of, IsPlainLeft, IsOpened};

/// What is left to read of a literal after its opening quotes.
#[derive(Clone, Copy)]
pub struct Literal<'a> {
    raw: bool,
    quotes: &'a [u8],
    pub(crate) rest: &'a [u8],
}

/// The text as a literal, if it begins as one. What stands after the closing quotes is not looked at yet.
pub(crate) fn open(text: &[u8]) -> Option<Literal<'_>>
    ensures value { opened result ≡ spec.value_of text.now }
    ensures place { IfSome result (λ literal. StandsIn text.now literal) }
    ensures plain { (value : List ℕ) → IsPlain text.now value → IsOpened value result }
{
    match text.strip_prefix(b"r") {
        Some(literal) => open_quotes(true, literal),
        None => open_quotes(false, text),
    }
}

// The literal without its prefix.
fn open_quotes(raw: bool, literal: &[u8]) -> Option<Literal<'_>>
    ensures value { opened result ≡ opened_value raw literal.now }
    ensures place { IfSome result (λ opened. StandsIn literal.now opened) }
    ensures plain { (value : List ℕ) → IsQuoted literal.now value → IsOpened value result }
{
    let [quote @ (b'"' | b'\''), rest @ ..] = literal else {
        return None;
    };
    let n = if rest.starts_with(&[*quote; 2]) { 3 } else { 1 };
    Some(Literal {
        raw,
        quotes: &literal[..n],
        rest: &literal[n..],
    })
}

/// The next byte of the value and what is left after it; `None` at the closing quotes, or where there is no value.
pub(crate) fn next_in<'a>(literal: Literal<'a>) -> Option<(u8, Literal<'a>)>
    ensures next { MatchOption result (inner_of literal.entry ≡ ended literal.entry)
        (λ p. inner_of literal.entry ≡ option_map (λ bs. p.0 ∷ bs) (inner_of p.1)) }
    ensures unit { IfSome result (λ p. taken_of literal.entry ≡ Some (p.0, p.1.rest.now)) }
    ensures quotes { IfSome result (λ p. p.1.quotes ≡ literal.entry.quotes) }
    ensures shorter { IfSome result (λ p. length p.1.rest.now < length literal.entry.rest.now) }
{
    let Literal { raw, quotes, rest } = literal;
    if rest.starts_with(quotes) {
        return None;
    }
    let (byte, rest) = take_unit(raw, quotes.len() == 1, rest)?;
    Some((byte, Literal { raw, quotes, rest }))
}

/// The value where each byte of it stands for itself, in a string of one quote: a slice of the text.
pub(crate) fn plain_value(literal: Literal<'_>) -> Option<&[u8]>
    ensures value { IfSome result (λ value. inner_of literal.entry ≡ Some value.now) }
    ensures front { IfSome result (λ value. value.now ≡ take (length value.now) literal.entry.rest.now) }
    ensures back { IfSome result (λ value. literal.entry.rest.now ≡ value.now ++ literal.entry.quotes.now) }
    ensures none { IfNone result ((value : List ℕ) → IsPlainLeft value literal.entry → ⊥) }
{
    let [quote] = literal.quotes else {
        return None;
    };
    let [value @ .., last] = literal.rest else {
        return None;
    };
    if *last != *quote || !are_plain(*quote, value) {
        return None;
    }
    Some(value)
}

// All are looked at, in place of up to the first that is not plain: so many are told at once.
fn are_plain(quote: u8, bytes: &[u8]) -> bool
    ensures { result ≡ fold (plain_too quote) true bytes.now }
{
    bytes
        .iter()
        .fold(true, |plain, b| plain & is_plain(quote, *b))
}

fn is_plain(quote: u8, b: u8) -> bool
    ensures { result ≡ is_plain quote b }
{
    (quote != b) & (b != b'\\') & (b != b'\r') & (b != b'\n')
}

/// The closing quotes are left, and nothing else.
pub(crate) fn is_at_end(literal: Literal<'_>) -> bool
    ensures { result ≡ is_closed literal.entry }
{
    literal.rest.len() > 0 && literal.rest == literal.quotes
}

// The value of the first unit (an escape, a carriage return and a newline, or a byte), and what stands after it.
fn take_unit(raw: bool, short: bool, bytes: &[u8]) -> Option<(u8, &[u8])>
    ensures value { option_map (λ p. (p.0, p.1.now)) result ≡ taken raw short bytes.now }
    ensures shorter { IfSome result (λ p. length p.1.now < length bytes.now) }
{
    match bytes {
        [b'\\', b, rest @ ..] if !raw => Some((escape_value(*b)?, rest)),
        [b'\\', ..] => None,
        [b'\n', ..] | [b'\r', b'\n', ..] if short => None,
        [b'\r', b'\n', rest @ ..] => Some((b'\n', rest)),
        [b, rest @ ..] => Some((*b, rest)),
        [] => None,
    }
}

fn escape_value(b: u8) -> Option<u8>
    ensures { result ≡ spec.escape_value b }
{
    match b {
        b'a' => Some(7),
        b'b' => Some(8),
        b'f' => Some(12),
        b'n' => Some(10),
        b'r' => Some(13),
        b't' => Some(9),
        b'v' => Some(11),
        b'\\' | b'\'' | b'"' => Some(b),
        _ => None,
    }
}
