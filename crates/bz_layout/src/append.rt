//! What a text is appended to.

ghost use Rattle.std.specs.Prelude.{◌≡◌, ◌≤◌, ◌∷◌, ◌++◌, ℕ, List, codes, string_bytes};
ghost use Rattle.bz_layout.specs.Pieces.{gap_bytes};
ghost use Rattle.bz_layout.specs.declared.spacing.Gap.TheVariants.{Line};
ghost use Rattle.bz_layout.specs.private.RowLayout.{Puts};

use crate::write::put_new_line;
use bz_memory::{NoMemory, extend_from_slice, push, push_str};

// A newline with the indent of the last level that is cut from one text.
const NEW_LINE: &str = "\n                ";

const LAST_CUT: usize = 4;

// A newline with the longest indent that is cut, and room for two bytes.
const ITEM: &str = "\n                  ";

/// Bytes or a string, at whose end texts are put.
pub(crate) trait Append {
    ghost bytes: { Self → List ℕ };

    /// Appends a text. `Err`: memory was refused.
    fn put(&mut self, text: &str) -> Result<(), NoMemory>
        ensures { Puts result (bytes self.old) (bytes self.new) text.now };

    /// Appends a text that is mostly one byte. `Err`: memory was refused.
    fn put_short(&mut self, text: &str) -> Result<(), NoMemory>
        ensures { Puts result (bytes self.old) (bytes self.new) text.now }
    {
        self.put(text)
    }
}

/// Where lines are begun.
pub(crate) trait NewLine: Append {
    /// Appends a newline and the indent of a level. `Err`: memory was refused.
    fn new_line(&mut self, level: usize) -> Result<(), NoMemory>
        ensures { Puts result (Self.bytes self.old) (Self.bytes self.new) (gap_bytes (Line level)) }
    {
        put_new_line(level, self)
    }

    /// Appends a line of its own for a text and the comma after it, up to its newline. `Err`: memory was refused.
    fn put_item(&mut self, level: usize, text: &str) -> Result<(), NoMemory>
        ensures { Puts result (Self.bytes self.old) (Self.bytes self.new) (gap_bytes (Line level) ++ (text.now ++ codes ",")) }
    {
        self.new_line(level)?;
        self.put(text)?;
        self.put_short(",")
    }
}

// An item of one byte: a newline, the longest indent, and room for two bytes are copied, and cut.
#[inline(always)]
fn put_byte_item(level: usize, byte: u8, out: &mut Vec<u8>) -> Result<(), NoMemory>
    requires { level ≤ 4 }
    ensures { Puts result out.old.items out.new.items (gap_bytes (Line level) ++ (byte ∷ codes ",")) }
{
    let at = out.len() + 1 + 4 * level;
    extend_from_slice(out, ITEM.as_bytes())?;
    out[at] = byte;
    out[at + 1] = b',';
    out.truncate(at + 2);
    Ok(())
}

impl Append for Vec<u8> {
    ghost bytes = { λ v. v.items };

    #[inline(always)]
    fn put(&mut self, text: &str) -> Result<(), NoMemory> {
        extend_from_slice(self, text.as_bytes())
    }

    #[inline(always)]
    fn put_short(&mut self, text: &str) -> Result<(), NoMemory> {
        match text.as_bytes() {
            [byte] => push(self, *byte),
            bytes => extend_from_slice(self, bytes),
        }
    }
}

impl NewLine for Vec<u8> {
    // One copy of a known length and a cut cost less than a copy of any length.
    #[inline(always)]
    fn new_line(&mut self, level: usize) -> Result<(), NoMemory> {
        if level > LAST_CUT {
            return put_new_line(level, self);
        }
        let len = self.len();
        extend_from_slice(self, NEW_LINE.as_bytes())?;
        self.truncate(len + 1 + 4 * level);
        Ok(())
    }

    // Most numbers have one digit.
    #[inline(always)]
    fn put_item(&mut self, level: usize, text: &str) -> Result<(), NoMemory> {
        if level <= LAST_CUT {
            if let [byte] = text.as_bytes() {
                return put_byte_item(level, *byte, self);
            }
        }
        self.new_line(level)?;
        self.put(text)?;
        self.put_short(",")
    }
}

impl Append for String {
    ghost bytes = { string_bytes };

    #[inline(always)]
    fn put(&mut self, text: &str) -> Result<(), NoMemory> {
        push_str(self, text)
    }
}

impl NewLine for String {}
