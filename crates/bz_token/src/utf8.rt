//! Whether bytes are text.

ghost use Rattle.std.specs.Prelude.{◌≡◌, IsUtf8, MatchResult};
ghost use Rattle.std.specs.Str.{IsValidUpTo};

/// The bytes as text. `Err`: they are not UTF-8, but so many at the front are, and no more.
pub fn check_utf8(bytes: &[u8]) -> Result<&str, usize>
    ensures { MatchResult result (λ s. (s.now ≡ bytes.now) × IsUtf8 bytes.now)
        (λ n. (IsUtf8 bytes.now → ⊥) × IsValidUpTo bytes.now n) }
{
    simdutf8::compat::from_utf8(bytes).map_err(|fault| fault.valid_up_to())
}
