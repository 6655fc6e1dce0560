//! The line of a comment.

ghost use Rattle.std.specs.Prelude.{◌≡◌, string_bytes, IfOk};
ghost use Rattle.bz_rule.specs.private.CommentTexts as text;
ghost use Rattle.bz_rule.specs.Comment as spec;

use bz_memory::{NoMemory, push_str, with_length_of};
use std::alloc::Global;

// Most lines are no longer, and are made without making room for more.
const LONG_LINE: &str = "# A comment that says in a line why an argument of a rule is what it is.";

/// The comment line of a text: without the spaces and tabs at its end.
pub fn comment_line(alloc: Global, text: &str) -> Result<String, NoMemory>
    ensures { IfOk result (λ line. string_bytes line ≡ spec.comment_line text.now) }
{
    let mut line = with_length_of(alloc, LONG_LINE)?;
    push_str(&mut line, "# ")?;
    push_str(&mut line, text)?;
    while ends_blank(line.as_bytes()) {
        let _ = line.pop();
    }
    Ok(line)
}

fn ends_blank(bytes: &[u8]) -> bool
    ensures { result ≡ text.ends_blank bytes.now }
{
    matches!(bytes, [.., b' ' | b'\t'])
}
