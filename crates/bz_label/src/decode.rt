//! The value of a string literal as a text of its own.

ghost use Rattle.std.specs.Prelude.{◌≡◌, IfOk, option_map, string_bytes};
ghost use Rattle.bz_label.specs.Values as spec;

use crate::literal::{is_at_end, next_in, open};
use crate::value::plain_text;
use bz_memory::{NoMemory, from_str, push_char, push_str};
use std::alloc::Global;

/// The value of a text that is a string literal with a value. None: it is none, or has no value. Bytes that stand for
/// themselves are copied in runs.
pub fn read_value(alloc: Global, text: &str) -> Result<Option<String>, NoMemory>
    ensures { IfOk result (λ value. option_map (λ text. string_bytes text) value ≡ spec.value_of text.now) }
{
    if let Some(value) = plain_text(text) {
        return Ok(Some(from_str(alloc, value)?));
    }
    let Some(literal) = open(text.as_bytes()) else {
        return Ok(None);
    };
    let mut value = String::new(alloc);
    let mut run = &text[text.len() - literal.rest.len()..];
    let mut left = literal;
    while let Some((byte, after)) = next_in(left) {
        if left.rest.len() - after.rest.len() > 1 {
            push_str(&mut value, &run[..run.len() - left.rest.len()])?;
            push_char(&mut value, char::from(byte))?;
            run = &run[run.len() - after.rest.len()..];
        }
        left = after;
    }
    if !is_at_end(left) {
        return Ok(None);
    }
    push_str(&mut value, &run[..run.len() - left.rest.len()]).and(Ok(Some(value)))
}
