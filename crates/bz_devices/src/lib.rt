//! Where the bytes of a run come from and go to, a buffer before a sink, and the input's next chunk.
//!
//! A `Source` gives bytes in pieces and a `Sink` takes them; both may fail at any call. `FromRead` makes
//! a source of a reader of std, `ToWrite` a sink of a writer, and `Buffered` keeps bytes back before a sink.
//! `next_chunk` reads a source no further than is needed to know where the next chunk ends.
#![tactic(auto)]

pub mod ahead;
pub mod buffered;
pub mod device;
pub mod input;
pub mod limits;
pub mod output;
pub mod std_device;
