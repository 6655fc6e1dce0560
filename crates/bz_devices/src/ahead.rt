//! The input's next chunk: where it ends, reading no further than is needed to know it. A session of bz_engine
//! (`session.rt`) has an `Ahead`. It calls `read_where_open` where the text seems to end before its first chunk, and
//! `next_chunk` where the chunk has to be found line by line.

ghost use Rattle.std.specs.Prelude.{◌≡◌, ◌≢◌, ℕ, ◌+◌, ◌<◌, ◌≤◌, true, false, List, [], length, take, drop, IfOk, OnOk, OnErr, IfSome, IfNone, IsErrOf, IsTrue, IsUtf8};
ghost use Rattle.std.specs.Str.{IsCharBoundary, IsValidUpTo};
ghost use Rattle.bz_devices.specs.Device.{Rises};
ghost use Rattle.bz_token.specs.Cuts.{IsBlock};
ghost use Rattle.bz_token.specs.CutterState.{IsAfter};
ghost use Rattle.bz_devices.specs.Ahead.{IsReadOn, IsNextChunk, IsFewAfter};
ghost use Rattle.bz_devices.specs.Search.{Searches};
ghost use Rattle.bz_devices.specs.private.AheadSteps.{IsOpen, IsLine, IsLineAt, IsBegun, GoesOn, EndsAt, IsEnd};
ghost use Rattle.std.specs.List.{concat};

use crate::device::Source;
use crate::input::{PIECE, ReadFault, read_at_most};
use crate::limits::Limits;
use bz_memory::NoMemory;
use bz_token::{Cut, Cutter, Next, check_utf8};
use memchr::memchr;
use std::alloc::Global;
use std::marker::Model;
use std::str::from_utf8_unchecked;

/// What was read of an input and not yet taken.
#[derive(Drop)]
pub struct Ahead {
    buffer: Vec<u8>,
    /// Where in the buffer the bytes begin that were not taken.
    start: usize,
    /// Where they end. What stands after them is of no use: a read goes over it.
    end: usize,
    /// How many of these are known to be text: no byte is checked twice.
    text_len: usize,
    /// How many reads were made.
    reads: u64,
    /// A read met the end of the input.
    ended: bool,
}

// Half of what one read gives: so hardly more is held of an input than what one read gave of it, and few bytes are
// moved.
const MANY_TAKEN: usize = PIECE / 2;

impl Model for Ahead {
    ghost use Rattle.std.specs.Prelude.{◌≤◌, ◌+◌, length, take, drop, IsUtf8};
    ghost use Rattle.bz_devices.specs.Ahead as spec;

    ghost Value = { spec.Ahead };

    ghost view = { λ a. record { bytes = drop a.start (take a.end a.buffer.items); reads = a.reads; ended = a.ended } };

    ghost invariant = { λ a. (a.start + a.text_len ≤ length (take a.end a.buffer.items))
        × IsUtf8 (take a.text_len (drop a.start (take a.end a.buffer.items))) × (a.end ≤ length a.buffer.items) };
}

/// Why there is no next chunk.
#[derive(Clone, Copy, Debug, PartialEq, Eq)]
pub enum ChunkFault {
    OutOfMemory(NoMemory),
    ReadFailed,
    /// All the reads that may be made were made without the end, and another is needed.
    InputTooLong,
    /// It has more bytes than it may.
    StatementTooLong,
}

impl From<ReadFault> for ChunkFault {
    ghost use Rattle.bz_devices.specs.Search.{Searches};
    ghost use Rattle.bz_devices.specs.private.AheadSteps.{chunk_fault};

    ghost from_gives = { λ fault e. e ≡ chunk_fault fault };

    fn from(fault: ReadFault) -> ChunkFault {
        match fault {
            ReadFault::OutOfMemory(why) => ChunkFault::OutOfMemory(why),
            ReadFault::ReadFailed => ChunkFault::ReadFailed,
            ReadFault::InputTooLong => ChunkFault::InputTooLong,
        }
    }
}

impl Ahead {
    /// Nothing was read.
    pub fn new(alloc: Global) -> Ahead
        ensures { result ≡ record { bytes = []; reads = 0; ended = false } }
    {
        Ahead {
            buffer: Vec::new(alloc),
            start: 0,
            end: 0,
            text_len: 0,
            reads: 0,
            ended: false,
        }
    }

    /// The bytes that were read and not taken.
    pub fn bytes(&self) -> &[u8]
        ensures { result.now ≡ self.now.bytes }
    {
        &self.buffer[self.start..self.end]
    }

    /// The front of the bytes that is known to be text. After a read it ends where a byte belongs to no character, or
    /// at most 3 bytes before the end, where a character is not whole.
    pub fn text(&self) -> &str
        ensures front { (n : ℕ) × (n ≤ length self.now.bytes) × (result.now ≡ take n self.now.bytes) }
        ensures utf8 { IsUtf8 result.now }
    {
        // The invariant says that this is UTF-8.
        unsafe { from_utf8_unchecked(&self.bytes()[..self.text_len]) }
    }

    /// How many bytes of the input are held, those that were taken too. Each field is named, so that none that is new
    /// goes uncounted.
    pub fn held(&self) -> usize
        ensures { length self.now.bytes ≤ result }
    {
        let Ahead {
            buffer,
            start: _,
            end: _,
            text_len: _,
            reads: _,
            ended: _,
        } = self;
        buffer.len()
    }

    /// A read met the end of the input.
    fn is_ended(&self) -> bool
        ensures { result ≡ self.now.ended }
    {
        self.ended
    }

    /// The first `n` bytes are taken.
    pub fn take(&mut self, n: usize)
        requires { n ≤ length self.old.bytes }
        ensures { self.new ≡ record self.old { bytes = drop n self.old.bytes } }
    {
        self.text_len = text_left(self.text(), n);
        self.start += n;
    }

    /// Reads once, at most `most` bytes.
    fn read<S: Source>(
        &mut self,
        source: &mut S,
        most: usize,
        max_reads: u64,
    ) -> Result<(), ChunkFault>
        requires some { 0 < most }
        requires few { most ≤ 8192 }
        requires open { self.old.ended ≡ false }
        requires made { self.old.reads ≤ max_reads }
        ensures read { (pieces : List (List ℕ)) × S.gave source.old pieces source.new
            × IsReadOn max_reads self.old self.new pieces × (length (concat pieces) ≤ most) }
        ensures one { OnOk result (self.new.reads ≡ self.old.reads + 1) }
        ensures err { OnErr result (self.new ≡ self.old) }
        ensures fitting { result ≢ Err ChunkFault.StatementTooLong }
        ensures too_long { IsErrOf result ChunkFault.InputTooLong → self.old.reads ≡ max_reads }
        ensures failed { IsErrOf result ChunkFault.ReadFailed → Rises (S.failures source.old) (S.failures source.new) }
        ensures steady { result ≢ Err ChunkFault.ReadFailed → S.failures source.new ≡ S.failures source.old }
    {
        self.drop_taken();
        let left = max_reads - self.reads;
        let n = read_at_most(source, &mut self.buffer, self.end, most, left)?;
        self.end += n;
        self.reads += 1;
        self.ended = n == 0;
        self.check();
        Ok(())
    }

    /// Checks the bytes after those that are known to be text.
    fn check(&mut self)
        ensures { self.new ≡ self.old }
    {
        self.text_len += text_front(&self.bytes()[self.text_len..]);
    }

    /// Makes room of the bytes that were taken, once they are many: what follows them is moved.
    fn drop_taken(&mut self)
        ensures { self.new ≡ self.old }
    {
        if self.start >= MANY_TAKEN {
            self.buffer.copy_within(self.start..self.end, 0);
            self.end -= self.start;
            self.start = 0;
        }
    }
}

/// How many bytes of the text are left after its first `n`: none where it may not be cut there.
fn text_left(text: &str, n: usize) -> usize
    ensures left { IsCharBoundary text.now n → n + result ≡ length text.now }
    ensures within { 0 < result → n + result ≤ length text.now }
    ensures utf8 { IsUtf8 (take result (drop n text.now)) }
{
    if text.is_char_boundary(n) {
        text.len() - n
    } else {
        0
    }
}

/// The length of the longest front that is text.
fn text_front(bytes: &[u8]) -> usize
    ensures all { IsUtf8 bytes.now → result ≡ length bytes.now }
    ensures longest { (IsUtf8 bytes.now → ⊥) → IsValidUpTo bytes.now result }
    ensures within { result ≤ length bytes.now }
    ensures utf8 { IsUtf8 (take result bytes.now) }
{
    match check_utf8(bytes) {
        Ok(text) => text.len(),
        Err(valid) => valid,
    }
}

/// Reads once, where no chunk ends in the bytes ahead whatever follows them; answers whether it did. It does not after
/// the end of the input, nor where the chunk is sure to be too long.
pub fn read_where_open<S: Source>(
    ahead: &mut Ahead,
    source: &mut S,
    limits: Limits,
) -> Result<bool, ChunkFault>
    requires made { ahead.old.reads ≤ limits.reads }
    requires few { IsFewAfter ahead.old }
    requires bound { length ahead.old.bytes ≤ limits.statement + 8192 }
    ensures searches { Searches S.gave S.failures limits source.old source.new ahead.old ahead.new result }
    ensures fitting { result ≢ Err ChunkFault.StatementTooLong }
    ensures one { result ≡ Ok true → ahead.new.reads ≡ ahead.old.reads + 1 }
    ensures idle { result ≡ Ok false → ahead.new ≡ ahead.old }
{
    if ahead.is_ended() || ahead.bytes().len() as u64 > limits.statement {
        return Ok(false);
    }
    let Some(_line) = open_line(ahead) else {
        return Ok(false);
    };
    ahead.read(source, PIECE, limits.reads)?;
    Ok(true)
}

/// Where the line begins that no newline ends, where all lines before it are a part of the next chunk.
fn open_line(ahead: &Ahead) -> Option<usize>
    ensures within { IfSome result (λ n. n ≤ length ahead.now.bytes) }
    ensures begun { IfSome result (IsBegun ahead.now) }
    ensures open { IfSome result (λ n. IsOpen (drop n ahead.now.bytes)) }
{
    let mut cutter = Cutter::new();
    let mut end = 0;
    while let Some(n) = line_end(&ahead.bytes()[end..]) {
        let next = end + n;
        match cutter.line(&ahead.bytes()[end..next]) {
            Cut::More => end = next,
            Cut::Whole | Cut::Block => return None,
        }
    }
    Some(end)
}

/// Where the first line ends, after its newline.
fn line_end(bytes: &[u8]) -> Option<usize>
    ensures within { IfSome result (λ n. (0 < n) × (n ≤ length bytes.now)) }
    ensures line { IfSome result (λ n. IsLine (take n bytes.now)) }
    ensures none { IfNone result (IsOpen bytes.now) }
{
    match memchr(b'\n', bytes) {
        Some(at) => Some(at + 1),
        None => None,
    }
}

/// Reads on until the line that begins after the first `from` bytes has its newline, or the input has ended. Answers
/// where the line ends. The bytes before `from` are lines of the next chunk, which goes on after them (`begun`): so
/// before each read all bytes ahead belong to that chunk. `few` and `bound` say that no more was read than was needed.
fn read_line<S: Source>(
    ahead: &mut Ahead,
    source: &mut S,
    from: usize,
    limits: Limits,
) -> Result<usize, ChunkFault>
    requires made { ahead.old.reads ≤ limits.reads }
    requires within { from ≤ length ahead.old.bytes }
    requires few { IsFewAfter ahead.old }
    requires begun { IsBegun ahead.old from }
    requires bound { length ahead.old.bytes ≤ limits.statement + 8192 }
    ensures searches { Searches S.gave S.failures limits source.old source.new ahead.old ahead.new result }
    ensures line { IfOk result (IsLineAt ahead.new from) }
{
    let mut searched = from;
    loop {
        if let Some(n) = line_end(&ahead.bytes()[searched..]) {
            return Ok(searched + n);
        }
        searched = ahead.bytes().len();
        if ahead.is_ended() {
            return Ok(searched);
        }
        if searched as u64 > limits.statement {
            return Err(ChunkFault::StatementTooLong);
        }
        ahead.read(source, PIECE, limits.reads)?;
    }
}

/// Whether the chunk ends with its block, after the first `end` bytes. `ends_chunk` asks where the cutter, which read
/// these bytes (`after`), said that they are a block (`block`), so that what follows decides. `made`, `few` and `bound`
/// are what `chunk_end` keeps of the bytes ahead.
fn ends_block<S: Source>(
    cutter: &mut Cutter,
    ahead: &mut Ahead,
    source: &mut S,
    end: usize,
    limits: Limits,
) -> Result<bool, ChunkFault>
    requires after { IsAfter cutter.old (take end ahead.old.bytes) }
    requires block { IsBlock (take end ahead.old.bytes) }
    requires made { ahead.old.reads ≤ limits.reads }
    requires within { end ≤ length ahead.old.bytes }
    requires few { IsFewAfter ahead.old }
    requires bound { length ahead.old.bytes ≤ limits.statement + 8192 }
    ensures searches { Searches S.gave S.failures limits source.old source.new ahead.old ahead.new result }
    ensures ends { IfOk result (λ is_end. IsTrue is_end → EndsAt ahead.new end) }
    ensures goes { IfOk result (λ is_end. is_end ≡ false → GoesOn cutter.new ahead.new end) }
{
    loop {
        match cutter.goes_on(&ahead.bytes()[end..], ahead.is_ended()) {
            Next::Ends => return Ok(true),
            Next::Goes => return Ok(false),
            Next::Short => {
                if end as u64 > limits.statement {
                    return Err(ChunkFault::StatementTooLong);
                }
                // After a chunk no more than a piece may be ahead: what stands after the block is counted.
                let most = PIECE - (ahead.bytes().len() - end);
                ahead.read(source, most, limits.reads)?;
            }
        }
    }
}

/// A line, by where it stands in the bytes ahead.
#[derive(Clone, Copy)]
struct Line {
    from: usize,
    end: usize,
}

/// Whether the chunk ends with this line. The cutter has read the lines before it (`goes_on`).
fn ends_chunk<S: Source>(
    cutter: &mut Cutter,
    ahead: &mut Ahead,
    source: &mut S,
    line: Line,
    limits: Limits,
) -> Result<bool, ChunkFault>
    requires goes_on { GoesOn cutter.old ahead.old line.from }
    requires line { IsLineAt ahead.old line.from line.end }
    requires some { line.from < line.end }
    requires made { ahead.old.reads ≤ limits.reads }
    requires few { IsFewAfter ahead.old }
    requires bound { length ahead.old.bytes ≤ limits.statement + 8192 }
    ensures searches { Searches S.gave S.failures limits source.old source.new ahead.old ahead.new result }
    ensures ends { IfOk result (λ is_end. IsTrue is_end → EndsAt ahead.new line.end) }
    ensures goes { IfOk result (λ is_end. is_end ≡ false → GoesOn cutter.new ahead.new line.end) }
{
    match cutter.line(&ahead.bytes()[line.from..line.end]) {
        Cut::Whole => Ok(true),
        Cut::More => Ok(false),
        Cut::Block => ends_block(cutter, ahead, source, line.end, limits),
    }
}

/// Where the next chunk ends. At 0 nothing is left of the input.
fn chunk_end<S: Source>(
    ahead: &mut Ahead,
    source: &mut S,
    limits: Limits,
) -> Result<usize, ChunkFault>
    requires made { ahead.old.reads ≤ limits.reads }
    requires few { IsFewAfter ahead.old }
    requires bound { length ahead.old.bytes ≤ limits.statement + 8192 }
    ensures searches { Searches S.gave S.failures limits source.old source.new ahead.old ahead.new result }
    ensures end { IfOk result (IsEnd ahead.new) }
{
    let mut cutter = Cutter::new();
    let mut end = 0;
    loop {
        let next = read_line(ahead, source, end, limits)?;
        if next == end {
            return Ok(end);
        }
        let line = Line {
            from: end,
            end: next,
        };
        let is_end = ends_chunk(&mut cutter, ahead, source, line, limits)?;
        if is_end {
            return Ok(next);
        }
        end = next;
    }
}

/// How many bytes the next chunk of the input has; none where nothing is left of the input.
///
/// It reads only where the bytes ahead leave the next chunk open: no front of them is a chunk whatever
/// follows, and the chunk is not sure to be too long.
pub fn next_chunk<S: Source>(
    ahead: &mut Ahead,
    source: &mut S,
    limits: Limits,
) -> Result<Option<usize>, ChunkFault>
    requires made { ahead.old.reads ≤ limits.reads }
    requires few { IsFewAfter ahead.old }
    requires bound { length ahead.old.bytes ≤ limits.statement + 8192 }
    ensures searches { Searches S.gave S.failures limits source.old source.new ahead.old ahead.new result }
    ensures chunk { IfOk result (λ found. IfSome found (IsNextChunk limits.statement ahead.new)) }
    ensures none { IfOk result (λ found. IfNone found ((ahead.new.bytes ≡ []) × IsTrue ahead.new.ended)) }
{
    let end = chunk_end(ahead, source, limits)?;
    if end == 0 {
        return Ok(None);
    }
    if end as u64 > limits.statement {
        return Err(ChunkFault::StatementTooLong);
    }
    Ok(Some(end))
}
