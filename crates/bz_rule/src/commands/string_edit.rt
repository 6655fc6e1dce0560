//! What becomes of the elements that a command means.

ghost use Rattle.std.specs.Prelude.{◌≡◌, option_map};
ghost use Rattle.bz_rule.specs.private.StringEdits as spec;
ghost use Rattle.bz_label.specs.Values.{quoted};

use bz_attribute::equals::text_equals;
use bz_attribute::{Env, WordSet};
use bz_label::has_value;

/// Which elements a command means.
#[derive(Clone, Copy)]
pub enum Meant<'c, 'w> {
    Any,
    /// Strings that equal a word.
    Word(&'c str),
    /// Strings that equal one of some words.
    Words(&'c WordSet<'w>),
    /// Strings that equal a word and are not exactly another, which they become.
    Unlike { old: &'c str, new: &'c str },
}

/// The elements that a command means go, or become another.
#[derive(Clone, Copy)]
pub struct StringEdit<'h, 'c, 'w> {
    pub env: Env<'h>,
    pub meant: Meant<'c, 'w>,
}

impl<'h, 'c, 'w> StringEdit<'h, 'c, 'w> {
    /// The new value of the elements that are meant. None: they go.
    pub fn new(self) -> Option<&'c str>
        ensures { option_map (λ value. quoted value.now) result ≡ spec.literal_of self.entry }
    {
        match self.meant {
            Meant::Unlike { old: _, new } => Some(new),
            Meant::Any | Meant::Word(_) | Meant::Words(_) => None,
        }
    }

    /// An element is meant, by its text where it is one string token.
    pub fn means(self, string: Option<&str>) -> bool
        ensures { result ≡ spec.means self.entry (option_map (λ text. text.now) string.entry) }
    {
        let home = self.env.home;
        match (self.meant, string) {
            (Meant::Any, _) => true,
            (_, None) => false,
            (Meant::Word(word), Some(text)) => text_equals(home, text, word),
            (Meant::Words(words), Some(text)) => words.has_text(home, text),
            (Meant::Unlike { old, new }, Some(text)) => {
                text_equals(home, text, old) && !has_value(text.as_bytes(), new.as_bytes())
            }
        }
    }
}
