//! The walk over the bytes of a file that finds where its logical lines end. The `Cutter` (`cutter.rt`) walks by it.

ghost use Rattle.std.specs.Prelude.{◌≡◌, ◌+◌, ◌-◌, ◌≤◌, ◌<◌, ◌^◌, ◌==◌, ℕ, not, length, IfSome};
ghost use Rattle.bz_token.specs.declared.cutter.scan.CutState.TheVariants.{Plain};
ghost use Rattle.bz_token.specs.declared.cutter.scan.LineKind.TheVariants.{Statement};
ghost use Rattle.bz_token.specs.private.CutSteps.{is_ended, byte_of, with_comment, at, outside, in_short, in_long, next, start, run, IsSame};

use super::marks::{Stretch, mark_from};
use crate::plain::plain_len;
use crate::scan::line_len;

/// What a logical line holds.
#[derive(Clone, Copy)]
pub enum LineKind {
    /// White space and continued lines.
    Blank,
    /// A comment beside these.
    CommentLine,
    /// Anything else.
    Statement,
}

/// The quote that a string began with.
#[derive(Clone, Copy)]
pub enum Quote {
    Single,
    Double,
}

/// What the next byte stands in.
#[derive(Clone, Copy)]
pub enum CutState {
    /// No string and no comment.
    Plain,
    /// Nothing: the newline that ends the line was read.
    Ended,
    /// Nothing: the newline that was read breaks off a string, and so ends the line.
    BrokenOff,
    /// A continued line, if a newline follows, or a carriage return and a newline.
    Backslash,
    /// A continued line, if a newline follows.
    BackslashReturn,
    Comment,
    /// A string, after its first quote.
    Opened(Quote),
    /// A long string, if a third quote follows; else an empty string has ended.
    OpenedTwice(Quote),
    Short(Quote),
    /// A short string, after a backslash.
    ShortEscape(Quote),
    /// A short string, after a backslash and a carriage return.
    ShortEscapeReturn(Quote),
    Long(Quote),
    /// A long string, after one quote.
    LongQuote(Quote),
    /// A long string, after two quotes.
    LongTwoQuotes(Quote),
    /// A long string, after a backslash.
    LongEscape(Quote),
}

/// A logical line, as far as it was read.
#[derive(Clone, Copy)]
pub struct Scan {
    pub inside: CutState,
    /// The brackets that are open. A closing one closes any.
    pub depth: u64,
    pub kind: LineKind,
}

impl Scan {
    /// The beginning of a logical line.
    pub fn start() -> Scan
        ensures { result ≡ start }
    {
        Scan {
            inside: CutState::Plain,
            depth: 0,
            kind: LineKind::Blank,
        }
    }

    #[inline(always)]
    fn within(self, inside: CutState) -> Scan
        ensures { result ≡ at inside self.depth self.kind }
    {
        Scan { inside, ..self }
    }

    #[inline(always)]
    fn at_depth(self, depth: u64) -> Scan
        ensures { result ≡ at self.inside depth self.kind }
    {
        Scan { depth, ..self }
    }

    #[inline(always)]
    fn of_kind(self, kind: LineKind) -> Scan
        ensures { result ≡ at self.inside self.depth kind }
    {
        Scan { kind, ..self }
    }
}

#[inline(always)]
fn byte_of(quote: Quote) -> u8
    ensures { result ≡ byte_of quote }
{
    match quote {
        Quote::Single => b'\'',
        Quote::Double => b'"',
    }
}

#[inline(always)]
fn with_comment(kind: LineKind) -> LineKind
    ensures { result ≡ with_comment kind }
{
    match kind {
        LineKind::Blank | LineKind::CommentLine => LineKind::CommentLine,
        LineKind::Statement => LineKind::Statement,
    }
}

// A byte outside strings and comments.
#[inline(always)]
fn outside(scan: Scan, b: u8) -> Scan
    requires { scan.depth + 1 < 2 ^ 64 }
    ensures { result ≡ outside scan.depth scan.kind b }
{
    let plain = scan.within(CutState::Plain);
    let statement = plain.of_kind(LineKind::Statement);
    match b {
        b'\n' if scan.depth == 0 => plain.within(CutState::Ended),
        b'\n' | b' ' | b'\t' | b'\r' => plain,
        b'#' => plain
            .of_kind(with_comment(scan.kind))
            .within(CutState::Comment),
        b'\\' => plain.within(CutState::Backslash),
        b'"' => statement.within(CutState::Opened(Quote::Double)),
        b'\'' => statement.within(CutState::Opened(Quote::Single)),
        b'(' | b'[' | b'{' => statement.at_depth(scan.depth + 1),
        b')' | b']' | b'}' => statement.at_depth(scan.depth.saturating_sub(1)),
        _ => statement,
    }
}

// A byte in a short string that no backslash stands before.
#[inline(always)]
fn in_short(scan: Scan, quote: Quote, b: u8) -> Scan
    ensures { result ≡ in_short quote scan.depth scan.kind b }
{
    if b == byte_of(quote) {
        scan.within(CutState::Plain)
    } else if b == b'\n' {
        scan.within(CutState::BrokenOff)
    } else if b == b'\\' {
        scan.within(CutState::ShortEscape(quote))
    } else {
        scan.within(CutState::Short(quote))
    }
}

// A byte in a long string that no backslash stands before; a quote leads to `quoted`.
#[inline(always)]
fn in_long(scan: Scan, quote: Quote, quoted: CutState, b: u8) -> Scan
    ensures { result ≡ in_long quoted quote scan.depth scan.kind b }
{
    if b == byte_of(quote) {
        scan.within(quoted)
    } else if b == b'\\' {
        scan.within(CutState::LongEscape(quote))
    } else {
        scan.within(CutState::Long(quote))
    }
}

#[inline(always)]
fn advance(scan: Scan, b: u8) -> Scan
    requires { scan.depth + 1 < 2 ^ 64 }
    ensures { result ≡ next scan b }
{
    match scan.inside {
        CutState::Plain => outside(scan, b),
        CutState::Ended | CutState::BrokenOff => outside(Scan::start(), b),
        CutState::Backslash if b == b'\r' => scan.within(CutState::BackslashReturn),
        CutState::Backslash | CutState::BackslashReturn => match b {
            b'\n' => scan.within(CutState::Plain),
            _ => outside(scan.of_kind(LineKind::Statement), b),
        },
        CutState::Comment if b == b'\n' => outside(scan, b),
        CutState::Comment => scan,
        CutState::Opened(quote) if b == byte_of(quote) => {
            scan.within(CutState::OpenedTwice(quote))
        }
        CutState::OpenedTwice(quote) if b == byte_of(quote) => scan.within(CutState::Long(quote)),
        CutState::OpenedTwice(_) => outside(scan, b),
        CutState::ShortEscape(quote) if b == b'\r' => {
            scan.within(CutState::ShortEscapeReturn(quote))
        }
        CutState::ShortEscape(quote) => scan.within(CutState::Short(quote)),
        CutState::ShortEscapeReturn(quote) if b == b'\n' => scan.within(CutState::Short(quote)),
        CutState::Opened(quote) | CutState::Short(quote) | CutState::ShortEscapeReturn(quote) => {
            in_short(scan, quote, b)
        }
        CutState::Long(quote) => in_long(scan, quote, CutState::LongQuote(quote), b),
        CutState::LongQuote(quote) => in_long(scan, quote, CutState::LongTwoQuotes(quote), b),
        CutState::LongTwoQuotes(quote) => in_long(scan, quote, CutState::Plain, b),
        CutState::LongEscape(quote) => scan.within(CutState::Long(quote)),
    }
}

// Where the string here ends, if it is a short one in double quotes, not empty and without a backslash: it changes
// nothing in a statement.
#[inline(always)]
fn string_end(bytes: &[u8], start: usize) -> Option<usize>
    requires { start ≤ length bytes.now }
    ensures in_range { IfSome result (λ end. (start < end) × (end ≤ length bytes.now)) }
    ensures same { IfSome result (λ end. (depth : ℕ) → IsSame (at Plain depth Statement) bytes.now start end) }
{
    if start >= bytes.len() || bytes[start] != b'"' {
        return None;
    }
    let end = mark_from(Stretch::Text, bytes, start + 1);
    if end == start + 1 || end >= bytes.len() || bytes[end] != b'"' {
        return None;
    }
    Some(end + 1)
}

// Where the next byte stands that may change something in a statement: strings pass, what is between them, and a newline
// in brackets.
#[inline(always)]
fn statement_end(depth: u64, bytes: &[u8], start: usize) -> usize
    requires { start ≤ length bytes.now }
    ensures in_range { (start ≤ result) × (result ≤ length bytes.now) }
    ensures same { IsSame (at Plain depth Statement) bytes.now start result }
{
    let mut end = mark_from(Stretch::Statement, bytes, start);
    while let Some(after) = string_end(bytes, end) {
        if depth > 0 && matches!(&bytes[after..], [b',', b'\n']) {
            return bytes.len();
        }
        end = mark_from(Stretch::Statement, bytes, after);
    }
    if depth > 0 && end < bytes.len() && bytes[end] == b'\n' {
        return end + 1;
    }
    end
}

// Where the next byte stands that may change something. Most do not, and these are passed at once.
#[inline(always)]
fn same_end(scan: Scan, bytes: &[u8], start: usize) -> usize
    requires { start ≤ length bytes.now }
    ensures in_range { (start ≤ result) × (result ≤ length bytes.now) }
    ensures same { IsSame scan bytes.now start result }
{
    match scan.inside {
        CutState::Plain => match scan.kind {
            LineKind::Statement => statement_end(scan.depth, bytes, start),
            _ => start,
        },
        CutState::Short(quote) | CutState::Long(quote) => {
            start + plain_len(byte_of(quote), &bytes[start..])
        }
        CutState::Comment => start + line_len(&bytes[start..]),
        _ => start,
    }
}

/// The line after some more bytes.
#[inline(always)]
pub fn read(scan: Scan, bytes: &[u8]) -> Scan
    requires { scan.depth + length bytes.now < 2 ^ 64 }
    ensures { result ≡ run scan bytes.now }
{
    let mut scan = scan;
    let mut at = same_end(scan, bytes, 0);
    while at < bytes.len() {
        scan = advance(scan, bytes[at]);
        at = same_end(scan, bytes, at + 1);
    }
    scan
}

/// Whether the logical line has ended.
#[inline(always)]
pub fn is_ended(inside: CutState) -> bool
    ensures { result ≡ is_ended inside }
{
    matches!(inside, CutState::Ended | CutState::BrokenOff)
}
