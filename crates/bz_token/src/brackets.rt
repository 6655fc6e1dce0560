//! The brackets that are open where a token stands.

ghost use Rattle.std.specs.Prelude.{◌≡◌, ◌≤◌, ◌<◌, ◌+◌, ◌-◌, ◌||◌, true, false, length, map, IfSome, IfNone, OnOk, IfErr, [], ◌∷◌, Err, List};
ghost use Rattle.bz_token.specs.Places.{Placed, placed};
ghost use Rattle.bz_token.specs.declared.brackets.Bracket.TheVariants.{Opening, Closing, Neither};
ghost use Rattle.bz_token.specs.Brackets.{is_opening_bracket, is_closing_bracket, is_pair, is_inside, bracket_fits, closes_innermost, open_tokens, open_after_token};
ghost use Rattle.bz_token.specs.Pieces.{is_one};

use crate::gap::Position;
use crate::table::{ByteClass, class_at};
use crate::token::Token;

/// The open brackets, the innermost first, at the end of an array.
#[derive(Clone, Copy)]
pub struct Brackets {
    bytes: [u8; 255],
    top: usize,
    ghost in_range: { top ≤ 255 },
    ghost whole: { length bytes ≡ 255 },
}

/// Why a bracket does not fit.
#[derive(Clone, Copy)]
pub enum Misfit {
    TooDeep,
    NoMatch,
}

#[inline(always)]
pub fn is_opening_bracket(b: u8) -> bool
    ensures { result ≡ is_opening_bracket b }
{
    matches!(class_at(b), ByteClass::Open)
}

#[inline(always)]
pub fn is_closing_bracket(b: u8) -> bool
    ensures { result ≡ is_closing_bracket b }
{
    matches!(class_at(b), ByteClass::Close)
}

#[inline(always)]
pub fn is_bracket_byte(b: u8) -> bool
    ensures { result ≡ (is_opening_bracket b || is_closing_bracket b) }
{
    is_opening_bracket(b) || is_closing_bracket(b)
}

#[inline(always)]
fn is_pair(a: u8, b: u8) -> bool
    ensures { result ≡ is_pair a b }
{
    matches!((a, b), (b'(', b')') | (b'[', b']') | (b'{', b'}'))
}

impl Brackets {
    ghost use Rattle.bz_token.specs.private.Scans.{opened, IsMisfit};

    #[inline(always)]
    pub fn new() -> Brackets
        ensures { opened result ≡ [] }
    {
        Brackets {
            bytes: [0; 255],
            top: 255,
        }
    }

    #[inline(always)]
    pub fn is_inside(&self) -> bool
        ensures { result ≡ is_inside (opened self.now) }
    {
        self.top < 255
    }

    #[inline(always)]
    fn closes_innermost(&self, b: u8) -> bool
        ensures { result ≡ closes_innermost (opened self.now) b }
    {
        self.top < 255 && is_pair(self.bytes[self.top], b)
    }

    /// Takes the first byte of a token, a bracket or not.
    #[inline(always)]
    pub fn take(&mut self, b: u8, max_depth: u8) -> Result<(), Misfit>
        ensures fits { OnOk result (bracket_fits max_depth (opened self.old) b ≡ true) }
        ensures opened { OnOk result (opened self.new ≡ open_after_token (opened self.old) (b ∷ [])) }
        ensures misfit { IfErr result (IsMisfit max_depth (opened self.old) b) }
    {
        if is_opening_bracket(b) {
            if 255 - self.top >= usize::from(max_depth) {
                return Err(Misfit::TooDeep);
            }
            self.top -= 1;
            self.bytes[self.top] = b;
        } else if is_closing_bracket(b) {
            if !self.closes_innermost(b) {
                return Err(Misfit::NoMatch);
            }
            self.top += 1;
        }
        Ok(())
    }
}

/// What a token's text is among brackets.
#[derive(Clone, Copy)]
enum Bracket {
    Opening,
    Closing,
    Neither,
}

fn bracket_of(text: &[u8]) -> Bracket
    ensures opening { result ≡ Opening → is_one is_opening_bracket text.now ≡ true }
    ensures closing { result ≡ Closing → (is_one is_opening_bracket text.now ≡ false)
        × (is_one is_closing_bracket text.now ≡ true) }
    ensures neither { result ≡ Neither → (is_one is_opening_bracket text.now ≡ false)
        × (is_one is_closing_bracket text.now ≡ false) }
{
    match text {
        [b'(' | b'[' | b'{'] => Bracket::Opening,
        [b')' | b']' | b'}'] => Bracket::Closing,
        _ => Bracket::Neither,
    }
}

/// The place of the innermost bracket that is open after some tokens, if one is.
pub fn innermost(tokens: &[Token<'_>]) -> Option<Position>
    ensures found { IfSome result
        (λ p. (t : Placed) × (outer : List Placed) × (open_tokens [] (map placed tokens.now) ≡ t ∷ outer)
        × (p.line ≡ t.line) × (p.col ≡ t.col)) }
    ensures none { IfNone result (open_tokens [] (map placed tokens.now) ≡ []) }
{
    let mut closed = 0_usize;
    let mut i = tokens.len();
    while i > 0 {
        i -= 1;
        let token = tokens[i];
        match bracket_of(token.text.as_bytes()) {
            Bracket::Closing => closed += 1,
            Bracket::Opening if closed > 0 => closed -= 1,
            Bracket::Opening => {
                return Some(Position {
                    line: token.line,
                    col: token.col,
                });
            }
            Bracket::Neither => {}
        }
    }
    None
}
