//! How a string is written.

ghost use Rattle.std.specs.Prelude.{◌≡◌, ◌++◌, ◌∷◌, [], List, ℕ, true, false, IfSome, IfNone, IsTrue};
ghost use Rattle.std.specs.List.{list_all};
ghost use Rattle.bz_token.specs.declared.token.Kind.TheVariants.{String};
ghost use Rattle.bz_layout.specs.Respell.{is_plain, respell};
ghost use Rattle.bz_layout.specs.private.RowLayout.{Puts};

use crate::append::Append;
use bz_memory::NoMemory;
use bz_token::Kind;

#[inline(always)]
fn are_plain(bytes: &[u8]) -> bool
    ensures { result ≡ list_all is_plain bytes.now }
{
    bytes
        .iter()
        .all(|b| *b != b'"' && *b != b'\'' && *b != b'\\')
}

// The content of a string without prefix in single quotes that holds neither a quote nor a backslash.
fn stripped(text: &str) -> Option<&str>
    ensures some { IfSome result
        (λ inner. (text.now ≡ 39 ∷ (inner.now ++ 39 ∷ [])) × (list_all is_plain inner.now ≡ true)) }
    ensures none { IfNone result
        ((inner : List ℕ) → text.now ≡ 39 ∷ (inner ++ 39 ∷ []) → list_all is_plain inner ≡ false) }
{
    let inner = text.strip_prefix('\'')?.strip_suffix('\'')?;
    if are_plain(inner.as_bytes()) {
        Some(inner)
    } else {
        None
    }
}

// Appends the written form of a string that begins with a single quote.
#[inline(never)]
fn put_single<T: Append>(text: &str, out: &mut T) -> Result<(), NoMemory>
    ensures { Puts result (T.bytes out.old) (T.bytes out.new) (respell String text.now) }
{
    match stripped(text) {
        Some(inner) => {
            out.put("\"")?;
            out.put(inner)?;
            out.put("\"")
        }
        None => out.put(text),
    }
}

// Whether a token is written as it stands; not told of each that is.
#[inline(always)]
pub(crate) fn stays(kind: Kind, text: &str) -> bool
    ensures { IsTrue result → respell kind text.now ≡ text.now }
{
    !matches!((kind, text.as_bytes()), (Kind::String, [b'\'', ..]))
}

// Appends the written form of a token.
#[inline(always)]
pub(crate) fn put_written<T: Append>(kind: Kind, text: &str, out: &mut T) -> Result<(), NoMemory>
    ensures { Puts result (T.bytes out.old) (T.bytes out.new) (respell kind text.now) }
{
    match (kind, text.as_bytes()) {
        (Kind::String, [b'\'', ..]) => put_single(text, out),
        (Kind::Operator | Kind::Integer, _) => out.put_short(text),
        _ => out.put(text),
    }
}
