//! Readers and writers of std as devices.

mod from_read;
mod tally;
mod to_write;

pub use from_read::FromRead;
pub use to_write::ToWrite;
