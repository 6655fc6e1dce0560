//! The parts of a text between the places where a character stands.

ghost use Rattle.std.specs.Prelude.{◌≡◌, ◌==◌, ◌<◌, length, MatchOption, IfSome, [], ◌∷◌};
ghost use Rattle.std.specs.List.{slice_split};
ghost use Rattle.std.specs.Str.{IsUtf8};
ghost use Rattle.bz_label.specs.Endings as spec;
ghost use Rattle.bz_label.specs.Labels.{last_part};

/// Cuts a text at the first such character: what is before it, and what is after it. None: the character is not in it.
pub fn cut(text: &str, at: char) -> Option<(&str, &str)>
    requires { at < 128 }
    ensures parts { MatchOption result (slice_split (λ b. b == at) text.now ≡ text.now ∷ [])
        (λ x. slice_split (λ b. b == at) text.now ≡ x.0.now ∷ slice_split (λ b. b == at) x.1.now) }
    ensures shorter { IfSome result (λ x. length x.1.now < length text.now) }
    ensures front { IfSome result (λ x. IsUtf8 x.0.now) }
    ensures back { IfSome result (λ x. IsUtf8 x.1.now) }
{
    let (part, rest) = text.split_once(at)?;
    Some((part, rest))
}

/// What is after the last such character of a text; all of it, if the character is not in it.
fn after_last(text: &str, at: char) -> &str
    requires { at < 128 }
    ensures { result.now ≡ last_part (slice_split (λ b. b == at) text.now) }
{
    let mut end = text;
    while let Some((_, rest)) = cut(end, at) {
        end = rest;
    }
    end
}

/// What is after the last colon or slash of a text. Texts that are the same label end alike.
pub fn ending(text: &str) -> &str
    ensures { result.now ≡ spec.ending text.now }
{
    after_last(after_last(text, ':'), '/')
}
