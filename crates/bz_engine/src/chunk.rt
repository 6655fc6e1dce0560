//! Lines and columns of a chunk's bytes.

ghost use Rattle.std.specs.Prelude.{◌≡◌, ◌+◌, ◌<◌, ◌≤◌, ◌^◌, ◌==◌, count_by, length};
ghost use Rattle.bz_token.specs.Places.{line_at, column_at};

use crate::report::SyntaxFault;

/// The fault after the bytes of a chunk that are UTF-8.
pub(crate) fn not_utf8(first_line: u64, valid: &[u8]) -> SyntaxFault
    requires { first_line + length valid.now < 2 ^ 64 }
    ensures { result ≡ SyntaxFault.NotUtf8 (line_at first_line valid.now) (column_at valid.now) }
{
    let line = first_line + newlines(valid);
    let mut col = 1u64;
    for byte in valid {
        col = if *byte == b'\n' { 1 } else { col + 1 };
    }
    SyntaxFault::NotUtf8 { line, col }
}

/// How many newlines are in the bytes.
pub(crate) fn newlines(bytes: &[u8]) -> u64
    ensures { result ≡ count_by (λ b. b == 10) bytes.now }
{
    let mut count = 0;
    let mut rest = bytes;
    while rest.len() > MOST_AT_ONCE {
        count += u64::from(few_newlines(&rest[..MOST_AT_ONCE]));
        rest = &rest[MOST_AT_ONCE..];
    }
    count + u64::from(few_newlines(rest))
}

// A byte counts as many, and they are a multiple of what is counted at once.
const MOST_AT_ONCE: usize = 224;

// Counted in a byte, so that the compiler counts several bytes at once.
fn few_newlines(bytes: &[u8]) -> u8
    requires { length bytes.now ≤ 255 }
    ensures { result ≡ count_by (λ b. b == 10) bytes.now }
{
    let mut count: u8 = 0;
    for b in bytes {
        if *b == b'\n' {
            count += 1;
        }
    }
    count
}
