//! The evidence that memory was refused.

use std::io;

/// A call of std that asks for memory was refused.
#[derive(Clone, Copy, Debug, PartialEq, Eq)]
pub struct NoMemory {
    seen: (),
}

/// The one place where the evidence is made: where std has refused. It takes what std answered, so that `map_err` can
/// name it: a closure at each call would be proved at each.
pub(crate) fn refused<E: Drop>(_: E) -> NoMemory {
    NoMemory { seen: () }
}

impl From<NoMemory> for io::Error {
    fn from(_: NoMemory) -> io::Error {
        io::Error::from(io::ErrorKind::OutOfMemory)
    }
}
