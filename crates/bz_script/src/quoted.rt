//! A text as messages show it: in quotes, cut, and with no character that a terminal would act on.

ghost use Rattle.std.specs.Prelude.{◌≡◌, IfOk};

use bz_label::Text;
use bz_memory::NoMemory;
use std::alloc::Global;
use std::fmt;
use std::marker::Model;

/// The most characters that are shown.
const MAX_SHOWN: usize = 60;

/// A text that is shown in quotes: its first 60 characters, of which those that are not seen are written as escapes.
/// Contracts see the whole text as its bytes.
#[derive(Drop)]
pub struct Quoted {
    text: Text,
}

impl Model for Quoted {
    ghost use Rattle.std.specs.Prelude.{ℕ, List};

    ghost Value = { List ℕ };

    ghost view = { λ q. q.text };
}

impl Quoted {
    pub fn from_str(alloc: Global, text: &str) -> Result<Quoted, NoMemory>
        ensures { IfOk result (λ quoted. quoted ≡ text.now) }
    {
        let text = Text::from_str(alloc, text)?;
        Ok(Quoted { text })
    }

    pub fn as_str(&self) -> &str
        ensures { result.now ≡ self.now }
    {
        self.text.as_str()
    }
}

impl fmt::Display for Quoted {
    fn fmt<W: fmt::Write>(&self, f: &mut fmt::Formatter<W>) -> fmt::Result {
        f.write_char('\'')?;
        for (index, c) in self.text.as_str().chars().enumerate() {
            if index == MAX_SHOWN {
                f.write_str("..")?;
                break;
            }
            show(c, f)?;
        }
        f.write_char('\'')
    }
}

impl fmt::Debug for Quoted {
    fn fmt<W: fmt::Write>(&self, f: &mut fmt::Formatter<W>) -> fmt::Result {
        write!(f, "{self}")
    }
}

/// Quotes and backslashes are words of commands, and stand as they are.
fn show<W: fmt::Write>(c: char, f: &mut fmt::Formatter<W>) -> fmt::Result {
    match c {
        '\'' | '"' | '\\' => f.write_char(c),
        _ => write!(f, "{}", c.escape_debug()),
    }
}
