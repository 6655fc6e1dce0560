//! How many letters, digits and underscores stand here: sixteen bytes are looked at at once.

ghost use Rattle.std.specs.Prelude.{◌≡◌, ◌≤◌, length, take};
ghost use Rattle.std.specs.List.{prefix_len};
ghost use Rattle.bz_token.specs.Lexical.{is_word_byte};

use crate::table::is_word_byte;
use std::simd::prelude::*;

// So many bytes are a block.
const BLOCK: usize = 16;

// How many of the 16 bytes at the front are such.
#[inline(always)]
fn word_in_block(bytes: &[u8]) -> usize
    requires { 16 ≤ length bytes.now }
    ensures { result ≡ prefix_len is_word_byte (take 16 bytes.now) }
{
    let block = u8x16::from_slice(bytes);
    let no_capital = block.simd_lt(u8x16::splat(b'A')) | block.simd_gt(u8x16::splat(b'Z'));
    let no_small = block.simd_lt(u8x16::splat(b'a')) | block.simd_gt(u8x16::splat(b'z'));
    let no_digit = block.simd_lt(u8x16::splat(b'0')) | block.simd_gt(u8x16::splat(b'9'));
    let no_score = block.simd_ne(u8x16::splat(b'_'));
    let others = (no_capital & no_small & no_digit & no_score).to_bitmask();
    if others == 0 {
        return BLOCK;
    }
    others.trailing_zeros() as usize
}

/// The number of letters, digits and underscores here, of which there are most often few, as in a number.
#[inline(always)]
pub fn short_word_len(bytes: &[u8]) -> usize
    ensures { result ≡ prefix_len is_word_byte bytes.now }
{
    bytes.iter().take_while(|b| is_word_byte(**b)).count()
}

/// The number of letters, digits and underscores here.
#[inline(always)]
pub fn word_len(bytes: &[u8]) -> usize
    ensures { result ≡ prefix_len is_word_byte bytes.now }
{
    let mut len = 0;
    while bytes.len() - len >= BLOCK {
        let passed = word_in_block(&bytes[len..]);
        len += passed;
        if passed < BLOCK {
            return len;
        }
    }
    len + short_word_len(&bytes[len..])
}
