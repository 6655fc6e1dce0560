//! What follows the bytes of a string that stand for themselves: sixteen are looked at at once.

ghost use Rattle.std.specs.Prelude.{◌≡◌, ◌≤◌, drop, length};
ghost use Rattle.std.specs.List.{prefix_len};
ghost use Rattle.bz_canonical.specs.private.Fronts.{IsCounted, is_simple};

use std::simd::prelude::*;

// So many bytes are a block.
const BLOCK: usize = 16;

// At each low half of a byte the one byte that is not simple and has it. Where there is none, a byte with another.
const NOT_SIMPLE: [u8; BLOCK] = [
    1, 0, b'"', 0, 0, 0, 0, 0, 0, b'\t', b'\n', 0, b'\\', b'\r', 0, 0,
];

#[inline(always)]
fn is_simple(b: u8) -> bool
    ensures { result ≡ is_simple b }
{
    b != b'"' && b != b'\\' && b != b'\n' && b != b'\r' && b != b'\t'
}

// How many of the 16 bytes at the front are such. None: all.
#[inline(always)]
fn simple_in_block(bytes: &[u8]) -> Option<usize>
    requires { 16 ≤ length bytes.now }
    ensures { IsCounted bytes.now result }
{
    let block = u8x16::from_slice(bytes);
    let low_halves = block & u8x16::splat(15);
    let not_simple = u8x16::from_array(NOT_SIMPLE).swizzle_dyn_within::<BLOCK>(low_halves);
    let marks = not_simple.simd_eq(block).to_bitmask();
    if marks == 0 {
        return None;
    }
    Some(marks.trailing_zeros() as usize)
}

#[inline(always)]
fn few_simple(bytes: &[u8]) -> usize
    ensures len { result ≡ prefix_len is_simple bytes.now }
    ensures within { result ≤ length bytes.now }
{
    bytes.iter().take_while(|b| is_simple(**b)).count()
}

/// What follows the bytes here that stand for themselves in a string.
#[inline(always)]
pub(crate) fn after_simple(bytes: &[u8]) -> &[u8]
    ensures { result.now ≡ drop (prefix_len is_simple bytes.now) bytes.now }
{
    let mut rest = bytes;
    while rest.len() >= BLOCK {
        match simple_in_block(rest) {
            Some(passed) => return &rest[passed..],
            None => rest = &rest[BLOCK..],
        }
    }
    &rest[few_simple(rest)..]
}
