//! The text of an argument that `set` adds.

ghost use Rattle.std.specs.Prelude.{◌≡◌, ◌++◌, codes, IfOk, IsFalse, IsTrue, OnOk};
ghost use Rattle.bz_rule.specs.Argument.{argument_lines, new_argument};

use crate::commands::set::{New, new_of};
use bz_label::{Text, quote};
use bz_memory::{NoMemory, extend_from_slice};
use std::alloc::Global;

/// Writes the argument that `set` adds, on a line of its own, where its value is one token or a list of one string.
/// False, with nothing written: it is another.
pub fn put_argument(
    alloc: Global,
    attr: &str,
    words: &[Text],
    out: &mut Vec<u8>,
) -> Result<bool, NoMemory>
    ensures put { IfOk result (λ put. IsTrue put
        → out.new.items ≡ out.old.items ++ argument_lines (new_argument attr.now words.now)) }
    ensures nothing { IfOk result (λ put. IsFalse put → out.new.items ≡ out.old.items) }
{
    match new_of(attr, words, false) {
        New::Number(word) | New::Constant(word) => put_line(attr, " = ", word, ",", out),
        New::String(word) => put_line(attr, " = ", quote(alloc, word)?.as_str(), ",", out),
        New::Strings([word]) => {
            let word = quote(alloc, word.as_str())?;
            put_line(attr, " = [", word.as_str(), "],", out)
        }
        New::Strings(_) => return Ok(false),
    }?;
    Ok(true)
}

// Writes an argument on a line of its own: its name, and then these texts one after another.
fn put_line(
    attr: &str,
    left: &str,
    value: &str,
    right: &str,
    out: &mut Vec<u8>,
) -> Result<(), NoMemory>
    ensures { OnOk result (out.new.items ≡ out.old.items ++ (codes "\n    "
        ++ (attr.now ++ (left.now ++ (value.now ++ right.now))))) }
{
    extend_from_slice(out, b"\n    ")?;
    extend_from_slice(out, attr.as_bytes())?;
    extend_from_slice(out, left.as_bytes())?;
    extend_from_slice(out, value.as_bytes())?;
    extend_from_slice(out, right.as_bytes())
}
