//! Bytes that wait to be written.

ghost use Rattle.std.specs.Prelude.{◌≡◌, ◌+◌, ◌-◌, ◌<◌, ◌≤◌, [], ◌++◌, length, take, min, true, false, IfOk};
ghost use Rattle.bz_folder.specs.DraftValue.{capacity};

use bz_memory::{NoMemory, with_capacity};
use std::alloc::Global;
use std::marker::Model;

/// How many bytes wait at most.
pub(crate) const CAPACITY: usize = 65_536;

/// At most `CAPACITY` bytes, whose memory is taken once.
#[derive(Drop)]
pub(crate) struct Waiting {
    bytes: Vec<u8>,
}

impl Model for Waiting {
    ghost use Rattle.std.specs.Prelude.{ℕ, ◌≤◌, List, length};
    ghost use Rattle.std.specs.Vec.{vec_capacity};
    ghost use Rattle.bz_folder.specs.DraftValue.{capacity};

    ghost Value = { List ℕ };

    ghost view = { λ w. w.bytes.items };

    ghost invariant = { λ w. (length w.bytes.items ≤ capacity) × (capacity ≤ vec_capacity w.bytes) };
}

impl Waiting {
    pub(crate) fn new(alloc: Global) -> Result<Waiting, NoMemory>
        ensures { IfOk result (λ waiting. waiting ≡ []) }
    {
        let bytes = with_capacity(alloc, CAPACITY)?;
        Ok(Waiting { bytes })
    }

    pub(crate) fn bytes(&self) -> &[u8]
        ensures { result.now ≡ self.now }
    {
        &self.bytes
    }

    pub(crate) fn is_full(&self) -> bool
        ensures full { result ≡ true → length self.now ≡ capacity }
        ensures room { result ≡ false → length self.now < capacity }
    {
        self.bytes.len() == CAPACITY
    }

    pub(crate) fn clear(&mut self)
        ensures { self.new ≡ [] }
    {
        self.bytes.clear();
    }

    /// Takes as many of the bytes as there is room for, and answers how many.
    pub(crate) fn push(&mut self, bytes: &[u8]) -> usize
        ensures count { result ≡ min (length bytes.now) (capacity - length self.old) }
        ensures taken { self.new ≡ self.old ++ take result bytes.now }
        ensures within { length self.old ≤ capacity }
    {
        let n = bytes.len().min(CAPACITY - self.bytes.len());
        // There is room, so this takes no memory and cannot fail.
        let _room = self.bytes.extend_from_slice(&bytes[..n]);
        n
    }
}
