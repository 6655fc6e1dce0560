//! A writer of std as a `Sink`.
//!
//! That it takes no more than it was handed is in the contract of `Write`.

ghost use Rattle.std.specs.Prelude.{◌≡◌, length};
ghost use Rattle.std.specs.Io.KnownBytes.{Appends};
ghost use Rattle.bz_devices.specs.Device.{Counts};
ghost use Rattle.bz_devices.specs.DeviceLaws.{appends_nothing, appends_more, counts_nothing, counts_bytes};

use super::tally::Tally;
use crate::device::{Failed, Sink};
use std::io::Write;
use std::marker::Model;

/// A `Sink` over a writer. Each error of the writer is a failure, and so is a write of 0 bytes.
#[derive(Drop)]
pub struct ToWrite<W> {
    writer: W,
    tally: Tally,
}

impl<W> Model for ToWrite<W> {
    ghost use Rattle.bz_devices.specs.Device.{Counted};

    ghost Value = { Counted W };

    ghost view = { λ s. record { device = s.writer; bytes = s.tally.bytes; failures = s.tally.failures } };
}

impl<W> ToWrite<W> {
    /// The writer as a sink: no byte and no failure so far.
    pub fn new(writer: W) -> ToWrite<W>
        ensures { result ≡ record { device = writer; bytes = 0; failures = 0 } }
    {
        ToWrite {
            writer,
            tally: Tally::new(),
        }
    }
}

impl<W: Write> Sink for ToWrite<W> {
    // By the bytes that were written, where they are known, and by their count.
    ghost took = { λ old bytes new. Appends (W.contents old.device) (W.contents new.device) bytes
        × Counts old.bytes new.bytes (length bytes) };

    ghost failures = { λ s. s.failures };

    ghost took_nothing = { λ s. (appends_nothing (W.contents s.device), counts_nothing s.bytes) };

    ghost took_more = { λ a b c xs ys p q. (
      appends_more (W.contents a.device) (W.contents b.device) (W.contents c.device) xs ys p.0 q.0,
      counts_bytes a.bytes b.bytes c.bytes xs ys p.1 q.1,
    ) };

    fn write(&mut self, bytes: &[u8]) -> Result<usize, Failed> {
        match self.writer.write(bytes) {
            Ok(n) if n > 0 => {
                self.tally.count(n);
                Ok(n)
            }
            _ => {
                self.tally.fail();
                Err(Failed)
            }
        }
    }

    fn failures(&self) -> u64 {
        self.tally.failures
    }
}
