//! Places in a text, and what stands between its tokens.

ghost use Rattle.std.specs.Prelude.{◌≡◌, ◌<◌, ◌≤◌, ◌+◌, ◌^◌, ◌==◌, slice_index, Bool, true, false, length, drop, count_by, if◌then◌else◌, IfSome, IfNone};
ghost use Rattle.std.specs.List.{prefix_len};
ghost use Rattle.bz_token.specs.Places.{column_from};
ghost use Rattle.bz_token.specs.Pieces.{is_blank};
ghost use Rattle.bz_token.specs.Reading.{begins_gap};
ghost use Rattle.bz_token.specs.private.Steps.{IsGapHere};
ghost use Rattle.bz_token.specs.Common.{begins};

use crate::scan::is_blank;
use std::simd::prelude::*;

/// A place in a text: its line, and its column in bytes from 1.
#[derive(Clone, Copy)]
pub struct Position {
    pub line: u64,
    pub col: u64,
}

impl Position {
    /// The beginning of a line.
    #[inline(always)]
    pub fn start(line: u64) -> Position
        ensures line { result.line ≡ line }
        ensures col { result.col ≡ 1 }
    {
        Position { line, col: 1 }
    }
}

/// The place after some bytes.
#[inline(always)]
pub fn advance(place: Position, bytes: &[u8]) -> Position
    requires line_fits { place.line + count_by (λ b. b == 10) bytes.now < 2 ^ 64 }
    requires col_fits { place.col + length bytes.now < 2 ^ 64 }
    requires col_counts { 0 < place.col }
    ensures line { result.line ≡ place.line + count_by (λ b. b == 10) bytes.now }
    ensures col { result.col ≡ column_from place.col bytes.now }
{
    let mut line = place.line;
    let mut col = place.col;
    for b in bytes {
        if *b == b'\n' {
            line += 1;
            col = 1;
        } else {
            col += 1;
        }
    }
    Position { line, col }
}

/// White space or a continued line, with at most one newline.
#[derive(Clone, Copy)]
pub struct TokenGap {
    pub len: usize,
    /// The bytes after the newline, or all where there is none.
    pub on_line: usize,
    pub has_newline: bool,
}

/// The place after a gap.
#[inline(always)]
pub fn after_gap(place: Position, gap: TokenGap) -> Position
    requires line_fits { place.line + (if gap.has_newline then 1 else 0) < 2 ^ 64 }
    requires col_fits { place.col + gap.on_line < 2 ^ 64 }
    requires col_counts { 0 < place.col }
    ensures line { result.line ≡ place.line + (if gap.has_newline then 1 else 0) }
    ensures col { result.col ≡ (if gap.has_newline then 1 else place.col) + gap.on_line }
{
    if gap.has_newline {
        Position {
            line: place.line + 1,
            col: 1 + gap.on_line as u64,
        }
    } else {
        Position {
            line: place.line,
            col: place.col + gap.on_line as u64,
        }
    }
}

#[inline(always)]
fn blank_len(bytes: &[u8]) -> usize
    ensures { result ≡ prefix_len is_blank bytes.now }
{
    bytes.iter().take_while(|b| is_blank(**b)).count()
}

// Some of the spaces here: all of them, up to 16, where so many bytes are left.
#[inline(always)]
fn some_spaces(bytes: &[u8]) -> usize
    ensures within { result ≤ length bytes.now }
    ensures blank { prefix_len is_blank bytes.now ≡ result + prefix_len is_blank (drop result bytes.now) }
{
    if bytes.len() < 16 {
        return 0;
    }
    let others = u8x16::from_slice(bytes)
        .simd_ne(u8x16::splat(b' '))
        .to_bitmask();
    if others == 0 {
        return 16;
    }
    others.trailing_zeros() as usize
}

// The number of blanks here, most of them spaces.
#[inline(always)]
fn indent_len(bytes: &[u8]) -> usize
    ensures { result ≡ prefix_len is_blank bytes.now }
{
    let spaces = some_spaces(bytes);
    match &bytes[spaces..] {
        [b, ..] if !is_blank(*b) => spaces,
        others => spaces + blank_len(others),
    }
}

/// The blanks here.
#[inline(always)]
pub fn blanks(bytes: &[u8]) -> TokenGap
    requires { begins is_blank bytes.now ≡ true }
    ensures { (inside : Bool) → IsGapHere inside bytes.now result }
{
    let len = match bytes {
        [b' ', b, ..] if !is_blank(*b) => 1,
        _ => blank_len(bytes),
    };
    TokenGap {
        len,
        on_line: len,
        has_newline: false,
    }
}

/// The newline here and the blanks after it, inside brackets.
#[inline(always)]
pub fn newline(bytes: &[u8]) -> TokenGap
    requires some { 0 < length bytes.now }
    requires newline { slice_index bytes.now 0 ≡ 10 }
    ensures { IsGapHere true bytes.now result }
{
    let on_line = indent_len(&bytes[1..]);
    TokenGap {
        len: 1 + on_line,
        on_line,
        has_newline: true,
    }
}

/// The continued line that begins with the backslash here, if one does.
#[inline(always)]
pub fn continued(bytes: &[u8]) -> Option<TokenGap>
    requires some { 0 < length bytes.now }
    requires backslash { slice_index bytes.now 0 ≡ 92 }
    ensures some { IfSome result (λ gap. (inside : Bool) → IsGapHere inside bytes.now gap) }
    ensures none { IfNone result ((inside : Bool) → begins_gap inside bytes.now ≡ false) }
{
    match bytes {
        [_, b'\n', ..] => Some(TokenGap {
            len: 2,
            on_line: 0,
            has_newline: true,
        }),
        [_, b'\r', b'\n', ..] => Some(TokenGap {
            len: 3,
            on_line: 0,
            has_newline: true,
        }),
        _ => None,
    }
}
