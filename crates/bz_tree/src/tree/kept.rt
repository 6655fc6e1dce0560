//! The text of a block.

ghost use Rattle.std.specs.Prelude.{◌≡◌, ◌+◌, ◌<◌, ◌^◌, ◌==◌, count_by};
ghost use Rattle.bz_token.specs.Places.{placed};
ghost use Rattle.bz_tree.specs.Blocks.{IsKeptText};
ghost use Rattle.bz_tree.specs.private.BlockSteps.{offset_run, AreIn};

use bz_token::Token;

// How many bytes stand before this line and column. The first line of the bytes has the number `first_line`.
fn offset_of(bytes: &[u8], first_line: u64, line: u64, col: u64) -> usize
    requires { first_line + count_by (λ b. b == 10) bytes.now < 2 ^ 64 }
    ensures { result ≡ offset_run line col first_line 1 bytes.now }
{
    let mut index = 0;
    let mut at_line = first_line;
    let mut at_col: u64 = 1;
    for byte in bytes {
        if at_line == line && at_col == col {
            return index;
        }
        if *byte == b'\n' {
            at_line += 1;
            at_col = 1;
        } else {
            at_col += 1;
        }
        index += 1;
    }
    index
}

/// The text from the place of a token to the end of a later one.
pub(crate) fn kept_text<'a>(
    text: &'a str,
    first_line: u64,
    header: &Token<'a>,
    last: &Token<'a>,
) -> &'a str
    requires lines { first_line + count_by (λ b. b == 10) text.now < 2 ^ 64 }
    requires tokens { AreIn first_line text.now (placed header.now) (placed last.now) }
    ensures { IsKeptText first_line text.now (placed header.now) (placed last.now) result.now }
{
    let begin = offset_of(text.as_bytes(), first_line, header.line, header.col);
    let end = offset_of(text.as_bytes(), first_line, last.line, last.col) + last.text.len();
    &text[begin..end]
}
