//! The tokens of a text. `parse` of bz_tree calls `tokens_in` for a whole text; `first_chunk` (`chunk.rt`) and
//! `TokenReader` (`reader.rt`) have a `Lexer` read line by line.

ghost use Rattle.std.specs.Prelude.{◌≡◌, ◌≤◌, ◌<◌, ◌+◌, ◌^◌, ◌==◌, ◌⊎◌, ◌↔◌, [], List, ℕ, max, true, false, not, length, take, drop, count_by, map, IfOk, IfErr, IsTrue, Some, None, nat_eq};
ghost use Rattle.std.specs.Option.{option_eq};
ghost use Rattle.std.specs.List.{list_any};
ghost use Rattle.bz_token.specs.Faults.{IsFault};
ghost use Rattle.bz_token.specs.Brackets.{open_tokens, is_inside};
ghost use Rattle.bz_token.specs.declared.token.Kind.TheVariants.{Operator};
ghost use Rattle.bz_token.specs.Places.{Placed, placed, column_from};
ghost use Rattle.bz_token.specs.Reading.{AreTokensOf};
ghost use Rattle.bz_token.specs.private.Scans.{opened, bad_fault, misfit_fault, IsLeftOpen};
ghost use Rattle.bz_token.specs.private.Steps.{IsGapHere, IsTaken, IsTakenAs, IsRefused};
ghost use Rattle.bz_token.specs.private.LinesRead.{EndsLine, IsFaultFrom};
ghost use Rattle.bz_token.specs.private.Progress.{HasRead, HasReadIn, IsTokenHere, Grows, ReadsOn, IsReadTo, IsReadAt, PassesWhite};
ghost use Rattle.bz_token.specs.Common.{begins, is_newline};

use crate::brackets::{Brackets, Misfit, innermost, is_bracket_byte};
use crate::fault::LexFault;
use crate::gap::{Position, TokenGap, advance, after_gap, blanks, newline};
use crate::scan_token::{Bad, GapOrToken, Scanned, scan_bracket, scan_comma, step_at};
use crate::token::{Kind, Token};
use bumpalo::Bump;
use bumpalo::collections::into_bump_slice;
use bz_memory::{NoMemory, push, with_capacity};

/// The place after a token.
#[inline(always)]
fn pass(place: Position, text: &[u8], has_newline: bool) -> Position
    requires line_fits { place.line + count_by (λ b. b == 10) text.now < 2 ^ 64 }
    requires col_fits { place.col + length text.now < 2 ^ 64 }
    requires col_counts { 0 < place.col }
    requires one_line { has_newline ≡ false → list_any is_newline text.now ≡ false }
    ensures line { result.line ≡ place.line + count_by (λ b. b == 10) text.now }
    ensures col { result.col ≡ column_from place.col text.now }
{
    if has_newline {
        return advance(place, text);
    }
    Position {
        line: place.line,
        col: place.col + text.len() as u64,
    }
}

// Whether the last token begins on no such line.
#[inline(always)]
fn is_fresh(last_line: Option<u64>, line: u64) -> bool
    ensures { result ≡ not (option_eq nat_eq last_line (Some line)) }
{
    last_line != Some(line)
}

// The fault of a place where no token stands.
fn bad_fault(bad: Bad, place: Position) -> LexFault
    ensures { result ≡ bad_fault bad place.line place.col }
{
    let Position { line, col } = place;
    match bad {
        Bad::Character => LexFault::BadCharacter { line, col },
        Bad::Number => LexFault::BadNumber { line, col },
        Bad::OpenText => LexFault::OpenText { line, col },
        Bad::Backslash => LexFault::BadBackslash { line, col },
    }
}

// The fault of a bracket that does not fit.
fn misfit_fault(misfit: Misfit, place: Position) -> LexFault
    ensures { result ≡ misfit_fault misfit place.line place.col }
{
    match (misfit, place) {
        (Misfit::TooDeep, Position { line, col }) => LexFault::TooDeep { line, col },
        (Misfit::NoMatch, Position { line, col }) => LexFault::BadBracket { line, col },
    }
}

#[inline(always)]
fn is_comma_here(bytes: &[u8]) -> bool
    ensures { result ≡ begins (λ b. b == 44) bytes.now }
{
    matches!(bytes, [b',', ..])
}

// What stands here; a bracket is taken among the open ones.
#[inline(always)]
fn read_step(
    brackets: &mut Brackets,
    bytes: &[u8],
    max_depth: u8,
    place: Position,
) -> Result<GapOrToken, LexFault>
    requires { 0 < length bytes.now }
    ensures step { IfOk result (IsTaken max_depth (opened brackets.old) (opened brackets.new) bytes.now) }
    ensures fault { IfErr result (IsRefused max_depth (opened brackets.old) bytes.now place.line place.col) }
{
    if !is_bracket_byte(bytes[0]) {
        return match step_at(brackets.is_inside(), bytes) {
            Ok(step) => Ok(step),
            Err(bad) => Err(bad_fault(bad, place)),
        };
    }
    match brackets.take(bytes[0], max_depth) {
        Ok(()) => Ok(GapOrToken::Token(scan_bracket(bytes))),
        Err(misfit) => Err(misfit_fault(misfit, place)),
    }
}

/// Where reading stands in a text.
#[derive(Clone, Copy)]
pub struct Cursor<'a> {
    /// What is still to be read.
    pub rest: &'a str,
    place: Position,
    // The line on which the last token begins.
    last_line: Option<u64>,
}

impl<'a> Cursor<'a> {
    /// The beginning of a text.
    #[inline(always)]
    pub fn start(text: &'a str, first_line: u64) -> Cursor<'a>
        ensures rest { result.rest.now ≡ text.now }
        ensures line { result.place.line ≡ first_line }
        ensures col { result.place.col ≡ 1 }
        ensures none { result.last_line ≡ None }
    {
        Cursor {
            rest: text,
            place: Position::start(first_line),
            last_line: None,
        }
    }
}

/// The tokens that were read, and the brackets that are open after them. It is made where it stays, without a function
/// that would give it back: that would copy the room for all brackets.
#[derive(Drop)]
pub struct Lexer<'b, 'a> {
    pub tokens: Vec<Token<'a>, &'b Bump>,
    pub brackets: Brackets,
}

impl<'b, 'a> Lexer<'b, 'a> {
    /// The tokens from this one on.
    #[inline(always)]
    pub fn tokens_from(&self, start: usize) -> &[Token<'a>]
        requires { start ≤ length self.now.tokens.items }
        ensures { result.now ≡ drop start self.now.tokens.items }
    {
        &self.tokens[start..]
    }

    // The cursor after this gap.
    #[inline(always)]
    fn pass_gap(&self, cursor: Cursor<'a>, gap: TokenGap) -> Cursor<'a>
        requires gap { IsGapHere (is_inside (opened self.now.brackets)) cursor.rest.now gap }
        requires read { IsReadTo self.now cursor }
        ensures read { PassesWhite self.now cursor.entry result }
        ensures shorter { length result.rest.now < length cursor.entry.rest.now }
    {
        Cursor {
            rest: cursor.rest.split_at(gap.len).1,
            place: after_gap(cursor.place, gap),
            last_line: cursor.last_line,
        }
    }

    // The cursor after what most often stands between two tokens, if it is here.
    #[inline(always)]
    fn pass_white(&self, cursor: Cursor<'a>) -> Cursor<'a>
        requires { IsReadTo self.now cursor }
        ensures read { PassesWhite self.now cursor.entry result }
        ensures not_longer { length result.rest.now ≤ length cursor.entry.rest.now }
    {
        let bytes = cursor.rest.as_bytes();
        match bytes {
            [b' ', ..] => self.pass_gap(cursor, blanks(bytes)),
            [b'\n', ..] if self.brackets.is_inside() => self.pass_gap(cursor, newline(bytes)),
            _ => cursor,
        }
    }

    // The cursor after this token, one more in the list. If it is a bracket, it is taken already; `outer` were open.
    #[inline(always)]
    fn add_token(&mut self, cursor: Cursor<'a>, scanned: Scanned) -> Result<Cursor<'a>, NoMemory>
        requires { (outer : List ℕ) × IsTokenHere outer self.old cursor scanned }
        ensures read { (first : ℕ) (depth : ℕ) (bytes : List ℕ) (given : List Placed) (outer : List ℕ)
            (before : HasReadIn outer first depth bytes given self.old cursor.entry)
            → IsTakenAs scanned depth outer (opened self.old.brackets) cursor.entry.rest.now
            → IfOk result (λ next. (after : HasRead first depth bytes given self.new next)
            × Grows (Some scanned.kind) before.pieces after.pieces after.gap) }
        ensures shorter { IfOk result (λ next. length next.rest.now < length cursor.entry.rest.now) }
        ensures one_more { IfOk result (λ next. length self.new.tokens.items ≤ length self.old.tokens.items + 1) }
    {
        let Position { line, col } = cursor.place;
        let (token, following) = cursor.rest.split_at(scanned.len);
        push(
            &mut self.tokens,
            Token {
                kind: scanned.kind,
                text: token,
                line,
                col,
                fresh: is_fresh(cursor.last_line, line),
            },
        )?;
        Ok(Cursor {
            rest: following,
            place: pass(cursor.place, token.as_bytes(), scanned.has_newline),
            last_line: Some(line),
        })
    }

    // The cursor after the comma here.
    #[inline(always)]
    fn add_comma(&mut self, cursor: Cursor<'a>) -> Result<Cursor<'a>, NoMemory>
        requires comma { begins (λ b. b == 44) cursor.rest.now ≡ true }
        requires read { IsReadTo self.old cursor }
        ensures read { (first : ℕ) (depth : ℕ) (bytes : List ℕ) (given : List Placed)
            (before : HasRead first depth bytes given self.old cursor.entry)
            → IfOk result (λ next. (after : HasRead first depth bytes given self.new next)
            × Grows (Some Operator) before.pieces after.pieces after.gap) }
        ensures shorter { IfOk result (λ next. length next.rest.now < length cursor.entry.rest.now) }
        ensures one_more { IfOk result (λ next. length self.new.tokens.items ≤ length self.old.tokens.items + 1) }
    {
        let scanned = scan_comma(cursor.rest.as_bytes());
        self.add_token(cursor, scanned)
    }

    #[inline(always)]
    fn is_full(&self, most: usize) -> bool
        ensures { IsTrue result ↔ (most ≤ length self.now.tokens.items) }
    {
        self.tokens.len() >= most
    }

    /// Reads what stands here, a gap or a token: the cursor after it, and the token's kind.
    #[inline(always)]
    fn step(
        &mut self,
        cursor: Cursor<'a>,
        max_depth: u8,
    ) -> Result<(Cursor<'a>, Option<Kind>), LexFault>
        requires some { 0 < length cursor.rest.now }
        requires places { IsReadAt max_depth self.old cursor }
        ensures read { (first : ℕ) (bytes : List ℕ) (given : List Placed)
            (before : HasRead first max_depth bytes given self.old cursor.entry)
            → IfOk result (λ passed. (after : HasRead first max_depth bytes given self.new passed.0)
            × Grows passed.1 before.pieces after.pieces after.gap) }
        ensures shorter { IfOk result (λ passed. length passed.0.rest.now < length cursor.entry.rest.now) }
        ensures one_more { IfOk result (λ passed. length self.new.tokens.items ≤ length self.old.tokens.items + 1) }
        ensures fault { (first : ℕ) (bytes : List ℕ) (given : List Placed)
            → HasRead first max_depth bytes given self.old cursor.entry → IfErr result (IsFault first max_depth bytes) }
    {
        let bytes = cursor.rest.as_bytes();
        match read_step(&mut self.brackets, bytes, max_depth, cursor.place) {
            Err(fault) => Err(fault),
            Ok(GapOrToken::Gap(gap)) => Ok((self.pass_gap(cursor, gap), None)),
            Ok(GapOrToken::Token(scanned)) => {
                let next = self.add_token(cursor, scanned)?;
                Ok((next, Some(scanned.kind)))
            }
        }
    }

    /// Reads to the end of the logical line here, or of the text where no newline token ends it, or until the list has
    /// so many tokens: the cursor there, and whether a newline token ends the line. The list may be of what was read
    /// after tokens that were given away.
    pub fn read_line(
        &mut self,
        cursor: Cursor<'a>,
        max_depth: u8,
        most: usize,
    ) -> Result<(Cursor<'a>, bool), LexFault>
        requires some { 0 < length cursor.rest.now }
        requires places { IsReadAt max_depth self.old cursor }
        ensures read { IfOk result (λ passed. ReadsOn max_depth self.old cursor.entry self.new passed.0) }
        ensures line { IfOk result (λ passed.
            IsTrue passed.1 → EndsLine max_depth self.old cursor.entry self.new passed.0) }
        ensures shorter { IfOk result (λ passed. length passed.0.rest.now < length cursor.entry.rest.now) }
        ensures few { IfOk result (λ passed. length self.new.tokens.items ≤ max most (length self.old.tokens.items + 1)) }
        ensures fault { IfErr result (IsFaultFrom max_depth self.old cursor.entry) }
    {
        let mut cursor = cursor;
        while !cursor.rest.is_empty() {
            let (next, kind) = self.step(cursor, max_depth)?;
            if kind == Some(Kind::Newline) {
                return Ok((next, true));
            }
            if self.is_full(most) {
                return Ok((next, false));
            }
            cursor = next;
            // After most tokens a comma is next.
            if is_comma_here(cursor.rest.as_bytes()) {
                cursor = self.add_comma(cursor)?;
                if self.is_full(most) {
                    return Ok((cursor, false));
                }
            }
            cursor = self.pass_white(cursor);
        }
        Ok((cursor, false))
    }
}

// Room for the tokens of a statement of so many bytes; the list of a long text grows.
#[inline(always)]
fn first_capacity(len: usize) -> usize
    ensures { result ≤ 682 }
{
    len.min(4096) / 6
}

// What is told at the end of a text: the innermost bracket that is open, if one is.
fn closed<'b, 'a>(tokens: &'b [Token<'a>]) -> Result<&'b [Token<'a>], LexFault>
    ensures tokens { IfOk result (λ v. (v.now ≡ tokens.now) × (open_tokens [] (map placed tokens.now) ≡ [])) }
    ensures fault { IfErr result (IsLeftOpen (map placed tokens.now)) }
{
    match innermost(tokens) {
        None => Ok(tokens),
        Some(Position { line, col }) => Err(LexFault::OpenBracket { line, col }),
    }
}

/// As [`tokens`](crate::tokens), for callers that read many texts: the list of tokens is in the arena.
pub fn tokens_in<'b, 'a>(
    bump: &'b Bump,
    text: &'a str,
    first_line: u64,
    max_depth: u8,
) -> Result<&'b [Token<'a>], LexFault>
    requires { first_line + count_by (λ b. b == 10) text.now < 2 ^ 64 }
    ensures tokens { IfOk result (λ v. AreTokensOf first_line max_depth text.now (map placed v.now)) }
    ensures fault { IfErr result (IsFault first_line max_depth text.now) }
{
    let mut lexer = Lexer {
        tokens: with_capacity(bump, first_capacity(text.len()))?,
        brackets: Brackets::new(),
    };
    let mut cursor = Cursor::start(text, first_line);
    while !cursor.rest.is_empty() {
        cursor = lexer.read_line(cursor, max_depth, usize::MAX)?.0;
    }
    let is_inside = lexer.brackets.is_inside();
    let tokens = into_bump_slice(lexer.tokens);
    if is_inside {
        return closed(tokens);
    }
    Ok(tokens)
}
