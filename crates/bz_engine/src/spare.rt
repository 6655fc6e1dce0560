//! Buffers that are used again.

use bz_canonical::ArgumentSpan;
use std::alloc::Global;
use std::mem::size_of;

/// Buffers for the text of one argument at a time. What they hold does not count.
#[derive(Drop)]
pub(crate) struct Spare {
    /// The small rule that is read.
    pub(crate) small: String,
    /// What is laid out.
    pub(crate) laid: Vec<u8>,
}

impl Spare {
    pub(crate) fn new(alloc: Global) -> Spare {
        Spare {
            small: String::new(alloc),
            laid: Vec::new(alloc),
        }
    }

    /// How many bytes there is room for.
    pub(crate) fn held(&self) -> usize {
        let Spare { small, laid } = self;
        small.capacity().saturating_add(laid.capacity())
    }
}

/// Buffers for a chunk of which it is known what would be written: for that, and for where its arguments stand. What
/// they hold does not count.
#[derive(Drop)]
pub(crate) struct ChunkBuffers {
    pub(crate) written: Vec<u8>,
    pub(crate) spans: Vec<ArgumentSpan>,
}

impl ChunkBuffers {
    pub(crate) fn new(alloc: Global) -> ChunkBuffers {
        ChunkBuffers {
            written: Vec::new(alloc),
            spans: Vec::new(alloc),
        }
    }

    /// How many bytes there is room for.
    pub(crate) fn held(&self) -> usize {
        let ChunkBuffers { written, spans } = self;
        let spans = spans.capacity().saturating_mul(size_of::<ArgumentSpan>());
        written.capacity().saturating_add(spans)
    }
}
