//! Where the next byte of a line stands that may change what the line is in: sixteen bytes are looked at at once.

ghost use Rattle.std.specs.Prelude.{◌≡◌, ◌+◌, ◌≤◌, length, take, drop, map};
ghost use Rattle.std.specs.List.{prefix_len};
ghost use Rattle.std.specs.Simd.Lanes.{mask_l};
ghost use Rattle.bz_token.specs.private.Marks.{is_mark, passes};

use std::simd::prelude::*;

// So many bytes are a block.
const BLOCK: usize = 16;

// Fewer bytes than so many are looked at one by one.
const SOME: usize = 4;

/// Where most bytes change nothing.
#[derive(Clone, Copy)]
pub enum Stretch {
    /// A statement outside strings and comments.
    Statement,
    /// A short string in double quotes.
    Text,
}

// Whether the byte may change something there. In a statement these are newlines, quotes, brackets, backslashes and what
// is beside these: `#`, and `$`, `%`, `&` and `|`, which change nothing.
#[inline(always)]
fn is_mark(stretch: Stretch, b: u8) -> bool
    ensures { result ≡ is_mark stretch b }
{
    match stretch {
        Stretch::Statement => { matches!(b, b'\n' | b'"'..=b')' | b'['..=b']' | b'{'..=b'}') }
        Stretch::Text => b == b'"' || b == b'\n' || b == b'\\',
    }
}

// Which of the 16 bytes at the front may.
#[inline(always)]
fn marks_in_block(stretch: Stretch, bytes: &[u8]) -> u64
    requires { 16 ≤ length bytes.now }
    ensures { result ≡ mask_l (map (is_mark stretch) (take 16 bytes.now)) }
{
    let block = u8x16::from_slice(bytes);
    let newlines = block.simd_eq(u8x16::splat(b'\n'));
    match stretch {
        Stretch::Statement => {
            let marks = block.simd_ge(u8x16::splat(b'"')) & block.simd_le(u8x16::splat(b')'));
            let set = block | u8x16::splat(32);
            let brackets = set.simd_ge(u8x16::splat(b'{')) & set.simd_le(u8x16::splat(b'}'));
            (newlines | marks | brackets).to_bitmask()
        }
        Stretch::Text => {
            let quotes = block.simd_eq(u8x16::splat(b'"'));
            let escapes = block.simd_eq(u8x16::splat(b'\\'));
            (quotes | newlines | escapes).to_bitmask()
        }
    }
}

#[inline(always)]
fn few_passed(stretch: Stretch, bytes: &[u8]) -> usize
    ensures { result ≡ prefix_len (passes stretch) bytes.now }
{
    bytes.iter().take_while(|b| !is_mark(stretch, **b)).count()
}

/// Where the first such byte from there on stands, or the end.
#[inline(always)]
pub fn mark_from(stretch: Stretch, bytes: &[u8], start: usize) -> usize
    requires { start ≤ length bytes.now }
    ensures { result ≡ start + prefix_len (passes stretch) (drop start bytes.now) }
{
    let len = bytes.len();
    let mut at = start;
    while len - at >= BLOCK {
        let marks = marks_in_block(stretch, &bytes[at..]);
        if marks != 0 {
            return at + marks.trailing_zeros() as usize;
        }
        at += BLOCK;
    }
    if len < BLOCK || len - at < SOME {
        return at + few_passed(stretch, &bytes[at..]);
    }
    // The last block, without its bytes that were looked at.
    let last = marks_in_block(stretch, &bytes[len - BLOCK..]) >> (at + BLOCK - len);
    if last == 0 {
        return len;
    }
    at + last.trailing_zeros() as usize
}
