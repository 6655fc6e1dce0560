//! Strings that grow.

ghost use Rattle.std.specs.Prelude.{◌≡◌, ◌<◌, ◌+◌, [], ◌∷◌, ◌++◌, is_ok, if◌then◌else◌, IfOk, OnOk, string_bytes, encode_utf8};
ghost use Rattle.std.specs.Fmt.{decimal};

use crate::no_memory::{NoMemory, refused};
use std::alloc::Global;
use std::fmt::Write;

/// A string of this text.
#[inline(always)]
pub fn from_str(alloc: Global, text: &str) -> Result<String, NoMemory>
    ensures ok { IfOk result (λ s. string_bytes s ≡ text.now) }
{
    String::from_str(alloc, text).map_err(refused)
}

/// An empty string with room for as many bytes as a text has.
#[inline(always)]
pub fn with_length_of(alloc: Global, text: &str) -> Result<String, NoMemory>
    ensures bytes { IfOk result (λ s. string_bytes s ≡ []) }
{
    String::with_capacity(alloc, text.len()).map_err(refused)
}

/// Puts a text at the end of a string.
#[inline(always)]
pub fn push_str(string: &mut String, text: &str) -> Result<(), NoMemory>
    ensures bytes { string_bytes string.new
        ≡ (if is_ok result then string_bytes string.old ++ text.now else string_bytes string.old) }
{
    string.push_str(text).map_err(refused)
}

/// Puts a character at the end of a string.
#[inline(always)]
pub fn push_char(string: &mut String, character: char) -> Result<(), NoMemory>
    ensures bytes { string_bytes string.new
        ≡ (if is_ok result then string_bytes string.old ++ encode_utf8 character else string_bytes string.old) }
    ensures ascii { character < 128 → encode_utf8 character ≡ character ∷ [] }
{
    string.push(character).map_err(refused)
}

/// Puts a number in decimal digits at the end of a string.
pub fn push_number(string: &mut String, number: u64) -> Result<(), NoMemory>
    ensures { OnOk result (string_bytes string.new ≡ string_bytes string.old ++ decimal number) }
{
    write!(string, "{number}").map_err(refused)
}
