//! The token at a place.

ghost use Rattle.std.specs.Prelude.{◌≡◌, ◌<◌, ◌==◌, ◌||◌, ℕ, List, Bool, Some, None, true, false, length, slice_index, IfOk, IfErr, IfSome, IfNone};
ghost use Rattle.bz_token.specs.declared.token.Kind.TheVariants.{Comment, Integer, Operator, String};
ghost use Rattle.std.specs.Char.{is_ascii_digit};
ghost use Rattle.bz_token.specs.Lexical.{is_word_byte};
ghost use Rattle.bz_token.specs.Brackets.{is_opening_bracket, is_closing_bracket};
ghost use Rattle.bz_token.specs.private.BadPlaces.{IsOpenText};
ghost use Rattle.bz_token.specs.Lengths.{word_length};
ghost use Rattle.bz_token.specs.Reading.{begins_gap};
ghost use Rattle.bz_token.specs.private.Scans.{IsScanned, IsBadPlace};
ghost use Rattle.bz_token.specs.private.Steps.{IsStep, IsTakenAs, IsTokenStep, IsBadStep};
ghost use Rattle.bz_token.specs.private.Tables.{is_single, IsMark};
ghost use Rattle.bz_token.specs.Common.{begins};
ghost use Rattle.bz_token.specs.Strings.{opening};

use crate::gap::{TokenGap, blanks, continued, newline};
use crate::lengths::integer_len;
use crate::scan::{is_keyword, line_comment_len, operator_len};
use crate::scan_string::{Opening, inside_at, opening_at, quote_count, quoted_at};
use crate::table::{ByteClass, class_at, is_word_byte};
use crate::token::Kind;
use crate::word::word_len;

/// A token's kind and length.
#[derive(Clone, Copy)]
pub struct Scanned {
    pub kind: Kind,
    pub len: usize,
    /// False only if no newline is in it.
    pub has_newline: bool,
}

/// Why no token stands at a place.
#[derive(Clone, Copy)]
pub enum Bad {
    Character,
    Number,
    OpenText,
    Backslash,
}

/// What stands at a place.
#[derive(Clone, Copy)]
pub enum GapOrToken {
    Gap(TokenGap),
    Token(Scanned),
}

#[inline(always)]
fn on_one_line(kind: Kind, len: usize) -> Scanned
    ensures kind { result.kind ≡ kind }
    ensures len { result.len ≡ len }
    ensures newline { result.has_newline ≡ false }
{
    Scanned {
        kind,
        len,
        has_newline: false,
    }
}

/// The string literal here, which these quotes open. None: nothing closes it.
#[inline(always)]
pub fn string_at(opened: Opening, bytes: &[u8]) -> Option<Scanned>
    requires { opening bytes.now ≡ Some opened }
    ensures string { IfSome result (λ string. IsScanned bytes.now string × (string.kind ≡ String)) }
    ensures none { IfNone result (IsOpenText bytes.now) }
{
    let start = opened.prefix + quote_count(opened.quotes.long);
    let Some(body) = inside_at(opened.quotes, &bytes[start..]) else {
        return None;
    };
    Some(Scanned {
        kind: Kind::String,
        len: start + body.len,
        has_newline: body.has_newline,
    })
}

#[inline(always)]
fn scan_string(opened: Opening, bytes: &[u8]) -> Result<GapOrToken, Bad>
    requires { opening bytes.now ≡ Some opened }
    ensures token { IfOk result (λ step. IsTokenStep bytes.now step) }
    ensures bad { IfErr result (λ bad. IsBadPlace bytes.now bad) }
{
    match string_at(opened, bytes) {
        Some(string) => Ok(GapOrToken::Token(string)),
        None => Err(Bad::OpenText),
    }
}

// This is a call, so that the loop over the tokens stays small.
#[inline(never)]
fn long_number_len(bytes: &[u8]) -> usize
    ensures { result ≡ word_length Integer bytes.now }
{
    integer_len(bytes)
}

// Most numbers have one digit.
#[inline(always)]
fn number_len(bytes: &[u8]) -> usize
    requires { begins is_ascii_digit bytes.now ≡ true }
    ensures { result ≡ word_length Integer bytes.now }
{
    match bytes {
        [_, b, ..] if !is_word_byte(*b) => 1,
        _ => long_number_len(bytes),
    }
}

#[inline(always)]
fn scan_number(bytes: &[u8]) -> Result<GapOrToken, Bad>
    requires digit { begins is_ascii_digit bytes.now ≡ true }
    ensures token { IfOk result (λ step. IsTokenStep bytes.now step) }
    ensures bad { IfErr result (λ bad. IsBadPlace bytes.now bad) }
{
    match number_len(bytes) {
        0 => Err(Bad::Number),
        len => Ok(GapOrToken::Token(on_one_line(Kind::Integer, len))),
    }
}

#[inline(always)]
fn scan_name(bytes: &[u8]) -> Scanned
    requires unquoted { opening bytes.now ≡ None }
    requires word { begins is_word_byte bytes.now ≡ true }
    requires no_digit { begins is_ascii_digit bytes.now ≡ false }
    ensures { IsScanned bytes.now result }
{
    let len = word_len(bytes);
    if is_keyword(&bytes[..len]) {
        on_one_line(Kind::Keyword, len)
    } else {
        on_one_line(Kind::Identifier, len)
    }
}

// A word, or a string that its prefix begins.
#[inline(always)]
fn scan_prefixed(bytes: &[u8]) -> Result<GapOrToken, Bad>
    requires word { begins is_word_byte bytes.now ≡ true }
    requires no_digit { begins is_ascii_digit bytes.now ≡ false }
    ensures token { IfOk result (λ step. IsTokenStep bytes.now step) }
    ensures bad { IfErr result (λ bad. IsBadPlace bytes.now bad) }
{
    match opening_at(bytes) {
        Some(opened) => scan_string(opened, bytes),
        None => Ok(GapOrToken::Token(scan_name(bytes))),
    }
}

/// The comment here.
#[inline(always)]
pub fn scan_comment(bytes: &[u8]) -> Scanned
    requires { begins (λ b. b == 35) bytes.now ≡ true }
    ensures comment { IsScanned bytes.now result }
    ensures kind { result.kind ≡ Comment }
{
    on_one_line(Kind::Comment, line_comment_len(bytes))
}

#[inline(always)]
fn scan_operator(bytes: &[u8]) -> Result<GapOrToken, Bad>
    requires some { 0 < length bytes.now }
    requires mark { IsMark (slice_index bytes.now 0) }
    ensures token { IfOk result (λ step. IsTokenStep bytes.now step) }
    ensures bad { IfErr result (λ bad. IsBadPlace bytes.now bad) }
{
    match operator_len(bytes) {
        0 => Err(Bad::Character),
        len => Ok(GapOrToken::Token(on_one_line(Kind::Operator, len))),
    }
}

#[inline(always)]
fn scan_single(bytes: &[u8]) -> Scanned
    requires some { 0 < length bytes.now }
    requires single { is_single (slice_index bytes.now 0) ≡ true }
    ensures kind { result.kind ≡ Operator }
    ensures token { IsScanned bytes.now result }
{
    on_one_line(Kind::Operator, 1)
}

/// The comma here.
#[inline(always)]
pub fn scan_comma(bytes: &[u8]) -> Scanned
    requires { begins (λ b. b == 44) bytes.now ≡ true }
    ensures kind { result.kind ≡ Operator }
    ensures taken { (depth : ℕ) (opened : List ℕ) → IsTakenAs result depth opened opened bytes.now }
{
    scan_single(bytes)
}

/// The bracket here.
#[inline(always)]
pub fn scan_bracket(bytes: &[u8]) -> Scanned
    requires some { 0 < length bytes.now }
    requires bracket { (is_opening_bracket (slice_index bytes.now 0) || is_closing_bracket (slice_index bytes.now 0)) ≡ true }
    ensures token { IsScanned bytes.now result }
    ensures solid { (inside : Bool) → begins_gap inside bytes.now ≡ false }
{
    scan_single(bytes)
}

// The newline here: a token, or white space inside brackets.
#[inline(always)]
fn line_end(inside: bool, bytes: &[u8]) -> GapOrToken
    requires some { 0 < length bytes.now }
    requires newline { slice_index bytes.now 0 ≡ 10 }
    ensures { IsStep inside bytes.now result }
{
    if inside {
        return GapOrToken::Gap(newline(bytes));
    }
    GapOrToken::Token(Scanned {
        kind: Kind::Newline,
        len: 1,
        has_newline: true,
    })
}

// The continued line here, if one begins with this backslash.
#[inline(always)]
fn line_goes_on(bytes: &[u8]) -> Result<GapOrToken, Bad>
    requires some { 0 < length bytes.now }
    requires backslash { slice_index bytes.now 0 ≡ 92 }
    ensures step { IfOk result (λ step. (inside : Bool) → IsStep inside bytes.now step) }
    ensures bad { IfErr result (λ bad. (inside : Bool) → IsBadStep inside bytes.now bad) }
{
    match continued(bytes) {
        Some(gap) => Ok(GapOrToken::Gap(gap)),
        None => Err(Bad::Backslash),
    }
}

/// What stands here, where brackets are open or not.
#[inline(always)]
pub fn step_at(inside: bool, bytes: &[u8]) -> Result<GapOrToken, Bad>
    requires { 0 < length bytes.now }
    ensures step { IfOk result (λ step. IsStep inside bytes.now step) }
    ensures bad { IfErr result (λ bad. IsBadStep inside bytes.now bad) }
{
    match class_at(bytes[0]) {
        ByteClass::Space => Ok(GapOrToken::Gap(blanks(bytes))),
        ByteClass::Newline => Ok(line_end(inside, bytes)),
        ByteClass::Backslash => line_goes_on(bytes),
        ByteClass::Letter => Ok(GapOrToken::Token(scan_name(bytes))),
        ByteClass::Prefix => scan_prefixed(bytes),
        ByteClass::Digit => scan_number(bytes),
        ByteClass::Quote => scan_string(quoted_at(bytes), bytes),
        ByteClass::Hash => Ok(GapOrToken::Token(scan_comment(bytes))),
        ByteClass::Open | ByteClass::Close | ByteClass::Point => Ok(GapOrToken::Token(scan_single(
            bytes,
        ))),
        ByteClass::Operator | ByteClass::Unknown => scan_operator(bytes),
    }
}
