//! The bytes of a text, or of a string literal's value, read one by one: values with escapes take no memory.

ghost use Rattle.std.specs.Prelude.{◌≡◌, IsTrue, IfNone, IfSome, MatchOption, Some, None, [], ◌∷◌, is_some};
ghost use Rattle.bz_label.specs.Values as spec;
ghost use Rattle.bz_label.specs.private.ByteSteps.{left, is_good, inner_of};

use crate::literal::{Literal, is_at_end, next_in, open, plain_value};

/// Bytes that are still to be read: of a text as it is, or of the value of a string literal.
#[derive(Clone, Copy)]
pub enum Bytes<'a> {
    Plain(&'a [u8]),
    Inner(Literal<'a>),
}

/// The value of a text that is a string literal. None: it is none, or has no value.
pub fn value_of(text: &str) -> Option<Bytes<'_>>
    ensures none { IfNone result (spec.value_of text.now ≡ None) }
    ensures some { IfSome result (λ bytes. spec.value_of text.now ≡ Some (left bytes)) }
    ensures good { IfSome result (λ bytes. IsTrue (is_good bytes)) }
{
    let literal = open(text.as_bytes())?;
    match plain_value(literal) {
        Some(value) => Some(Bytes::Plain(value)),
        None => has_end(literal).then_some(Bytes::Inner(literal)),
    }
}

// What is left is closed, and each unit of it has a value.
fn has_end(mut literal: Literal<'_>) -> bool
    ensures { result ≡ is_some (inner_of literal.entry) }
{
    while let Some((_, after)) = next_in(literal) {
        literal = after;
    }
    is_at_end(literal)
}

/// The next byte, and what is left after it.
pub(crate) fn next<'a>(bytes: Bytes<'a>) -> Option<(u8, Bytes<'a>)>
    requires { IsTrue (is_good bytes) }
    ensures next { MatchOption result (left bytes.entry ≡ []) (λ p. left bytes.entry ≡ p.0 ∷ left p.1) }
    ensures good { IfSome result (λ p. IsTrue (is_good p.1)) }
{
    match bytes {
        Bytes::Plain(slice) => {
            let [b, rest @ ..] = slice else {
                return None;
            };
            Some((*b, Bytes::Plain(rest)))
        }
        Bytes::Inner(literal) => {
            let (b, after) = next_in(literal)?;
            Some((b, Bytes::Inner(after)))
        }
    }
}
