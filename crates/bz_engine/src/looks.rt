//! Guesses of the next chunk. When to see whether it is known what would be written of it: seldom, where of one after
//! another it was not. And whether it seems to end after the bytes ahead. No contract hangs on a guess.

ghost use Rattle.std.specs.Prelude.{◌≤◌, length};

use std::simd::prelude::*;

// After eight looks in vain one after another, chunks are passed over before the next: 7 of them, and then more after
// each further look in vain, up to 63.
const MANY: u8 = 8;

const SHORTEST_PAUSE: u8 = 7;

const LONGEST_PAUSE: u8 = 63;

// So many bytes are looked at at once.
const BLOCK: usize = 32;

/// The looks that were had of chunks, and of the bytes ahead.
#[derive(Clone, Copy)]
pub(crate) struct Looks {
    /// How many were in vain one after another, up to eight.
    in_vain: u8,
    /// So many chunks are passed over after one more.
    pause: u8,
    /// So many chunks come before the next look.
    before_next: u8,
    /// It was asked already whether to look at the next chunk, and it was not copied.
    asked: bool,
    /// How many bytes were ahead of the last chunk.
    ahead: usize,
    /// Where fewer bytes than these are ahead, they seem to end before their chunk.
    open: usize,
}

impl Looks {
    /// Before the first chunk: no look was made.
    pub(crate) fn new() -> Looks {
        Looks {
            in_vain: 0,
            pause: SHORTEST_PAUSE,
            before_next: 0,
            asked: false,
            ahead: 0,
            open: 1,
        }
    }

    /// Whether to look at the next chunk. It is looked at once.
    pub(crate) fn is_due(&mut self) -> bool {
        if self.asked {
            return false;
        }
        self.asked = true;
        if self.before_next == 0 {
            return true;
        }
        self.before_next -= 1;
        false
    }

    /// A look was in vain.
    pub(crate) fn fail(&mut self) {
        if self.in_vain < MANY {
            self.in_vain += 1;
        }
        if self.in_vain == MANY {
            self.before_next = self.pause;
            self.pause = longer(self.pause);
        }
    }

    /// A look found such a chunk.
    pub(crate) fn succeed(&mut self) {
        self.in_vain = 0;
        self.pause = SHORTEST_PAUSE;
    }

    /// A chunk begins, at which there was no look yet. Whether the bytes ahead seem to end before it does.
    pub(crate) fn begins_short(&mut self, bytes: &[u8]) -> bool {
        self.asked = false;
        self.is_likely_short(bytes)
    }

    /// Whether the bytes ahead seem to end before their first chunk. Where their end is seen, it is seen anew only once
    /// more were read.
    pub(crate) fn is_likely_short(&mut self, bytes: &[u8]) -> bool {
        if bytes.len() > self.ahead {
            self.open = open_len(bytes);
        }
        self.ahead = bytes.len();
        bytes.len() < self.open
    }

    /// A chunk ended in the bytes ahead that seemed not to: their end is seen no more.
    pub(crate) fn end_ahead(&mut self) {
        self.open = 0;
    }
}

/// How many bytes follow the last newline that an empty line or a closing bracket follows: where fewer are left, all
/// chunks that are sure to end are taken. Where none is seen, no number of these bytes is enough.
fn open_len(bytes: &[u8]) -> usize {
    let mut len = bytes.len();
    while len > BLOCK {
        len -= BLOCK;
        let ends = ends_in_block(&bytes[len - 1..]);
        if ends != 0 {
            let passed = len + 63 - ends.leading_zeros() as usize;
            return bytes.len().saturating_sub(passed);
        }
    }
    bytes.len() + 1
}

/// Which of the 32 bytes at the front are newlines that an empty line or a closing bracket follows, a bit each.
#[inline(always)]
fn ends_in_block(bytes: &[u8]) -> u64
    requires { 33 ≤ length bytes.now }
{
    let newlines = u8x32::splat(b'\n');
    let here = u8x32::from_slice(bytes).simd_eq(newlines);
    let next = u8x32::from_slice(&bytes[1..]);
    let ends = next.simd_eq(newlines) | next.simd_eq(u8x32::splat(b')'));
    (here & ends).to_bitmask()
}

/// Twice as long, and one.
fn longer(pause: u8) -> u8 {
    if pause < LONGEST_PAUSE {
        return pause * 2 + 1;
    }
    LONGEST_PAUSE
}
