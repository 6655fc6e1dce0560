//! Kinds.

ghost use Rattle.std.specs.Prelude.{◌≡◌};
ghost use Rattle.bz_label.specs.Names as spec;

use bz_token::is_identifier;

/// Whether the text may be a rule's kind: identifiers joined by `.`.
pub fn is_kind(text: &str) -> bool
    ensures { result ≡ spec.is_kind text.now }
{
    text.split('.').all(|part| is_identifier(part))
}
