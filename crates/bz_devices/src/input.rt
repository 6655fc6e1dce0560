//! Reading from a source, a piece at a time.

ghost use Rattle.std.specs.Prelude.{◌≡◌, ◌≢◌, ℕ, ◌+◌, ◌<◌, ◌≤◌, List, [], ◌∷◌, ◌++◌, length, take, IfOk, OnOk, OnErr, IsErrOf, IsTrue};
ghost use Rattle.bz_devices.specs.Device.{ends, NoneEnds, Rises};
ghost use Rattle.bz_devices.specs.declared.input.ReadFault.TheVariants.{OutOfMemory};

use crate::device::{Failed, Source};
use bz_memory::{NoMemory, lengthen, reserve};
use std::alloc::Global;

/// The greatest number of bytes that one read asks for, as many as readers of std ask for. Contracts write it as 8192:
/// a read is made only where the next chunk is open, so that after a chunk no more bytes than these are ahead.
pub const PIECE: usize = 8192;

/// Why bytes could not be read.
#[derive(Clone, Copy)]
pub enum ReadFault {
    /// A growth of memory was refused.
    OutOfMemory(NoMemory),
    /// The source failed.
    ReadFailed,
    /// All the reads that may be made were made without the end, and another is needed.
    InputTooLong,
}

impl From<NoMemory> for ReadFault {
    ghost from_gives = { λ why e. e ≡ OutOfMemory why };

    fn from(why: NoMemory) -> ReadFault {
        ReadFault::OutOfMemory(why)
    }
}

/// Reads once, at most `most` bytes, and puts them after the first `end` of the bytes that are there: over what stands
/// after these, so that room for them is made once. Answers how many came; 0 is the end of the input.
///
/// `reads_left` is how many reads may still be made: without one, none is made.
pub fn read_at_most<S: Source>(
    source: &mut S,
    bytes: &mut Vec<u8>,
    end: usize,
    most: usize,
    reads_left: u64,
) -> Result<usize, ReadFault>
    requires some { 0 < most }
    requires few { most ≤ 8192 }
    requires within { end ≤ length bytes.old.items }
    ensures read { IfOk result (λ n. (piece : List ℕ) × S.gave source.old (piece ∷ []) source.new
        × (take (end + n) bytes.new.items ≡ take end bytes.old.items ++ piece) × (n ≡ length piece) × (n ≤ most)) }
    ensures within { IfOk result (λ n. end + n ≤ length bytes.new.items) }
    ensures err { OnErr result (S.gave source.old [] source.new
        × (take end bytes.new.items ≡ take end bytes.old.items) × (end ≤ length bytes.new.items)) }
    ensures allowed { OnOk result (0 < reads_left) }
    ensures too_long { IsErrOf result ReadFault.InputTooLong → reads_left ≡ 0 }
    ensures none_left { reads_left ≡ 0 → result ≡ Err ReadFault.InputTooLong }
    ensures failed { IsErrOf result ReadFault.ReadFailed → Rises (S.failures source.old) (S.failures source.new) }
    ensures steady { result ≢ Err ReadFault.ReadFailed → S.failures source.new ≡ S.failures source.old }
{
    if reads_left == 0 {
        return Err(ReadFault::InputTooLong);
    }
    make_room(bytes, end, most)?;
    match source.read(&mut bytes[end..end + most]) {
        Ok(n) => Ok(n),
        Err(Failed) => Err(ReadFault::ReadFailed),
    }
}

/// Has at least `most` bytes, of any value, stand after the first `end`. Memory is asked for two pieces at once: so the
/// read that meets the end of a small file, whose bytes may all be ahead, moves none of them.
fn make_room(bytes: &mut Vec<u8>, end: usize, most: usize) -> Result<(), NoMemory>
    requires few { most ≤ 8192 }
    requires within { end ≤ length bytes.old.items }
    ensures front { take end bytes.new.items ≡ take end bytes.old.items }
    ensures within { end ≤ length bytes.new.items }
    ensures room { OnOk result (end + most ≤ length bytes.new.items) }
{
    if bytes.is_empty() {
        reserve(bytes, 2 * PIECE)?;
    }
    let room = bytes.len() - end;
    if room < most {
        return lengthen(bytes, most - room);
    }
    Ok(())
}
