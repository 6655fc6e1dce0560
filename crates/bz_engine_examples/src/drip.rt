//! A sink that takes little at a time, and fails where it is told to.

ghost use Rattle.std.specs.Prelude.{⊤};

use bz_engine::{Failed, Sink};
use std::alloc::Global;

#[derive(Drop)]
pub struct Drip {
    pub taken: Vec<u8>,
    /// The most bytes that one write takes, at least 1.
    pub most: usize,
    /// The write, counted from 1, that fails.
    pub fails_at: Option<u64>,
    pub writes: u64,
    pub failures: u64,
}

impl Drip {
    pub fn new(alloc: Global, most: usize, fails_at: Option<u64>) -> Drip {
        Drip {
            taken: Vec::new(alloc),
            most,
            fails_at,
            writes: 0,
            failures: 0,
        }
    }
}

// What was taken is left open: tests look at it themselves.
impl Sink for Drip {
    ghost took = { λ old bytes new. ⊤ };

    ghost failures = { λ drip. drip.failures };

    ghost took_nothing = { λ drip. tt };

    ghost took_more = { λ a b c xs ys before after. tt };

    fn write(&mut self, bytes: &[u8]) -> Result<usize, Failed> {
        self.writes = self.writes.saturating_add(1);
        let n = self.most.max(1).min(bytes.len());
        if self.fails_at == Some(self.writes)
            || self.taken.extend_from_slice(&bytes[..n]).is_err()
        {
            self.failures = self.failures.saturating_add(1);
            return Err(Failed);
        }
        Ok(n)
    }

    fn failures(&self) -> u64 {
        self.failures
    }
}
