//! A reader of std as a `Source`.
//!
//! That it gives no more than it was handed is in the contract of `Read`.

ghost use Rattle.std.specs.Prelude.{◌≡◌, length};
ghost use Rattle.bz_devices.specs.Device.{Counts, Gave};
ghost use Rattle.bz_devices.specs.DeviceLaws.{gave_nothing_lem, gave_more_lem, counts_nothing, counts_pieces};
ghost use Rattle.std.specs.List.{concat};

use super::tally::Tally;
use crate::device::{Failed, Source};
use std::io::Read;
use std::marker::Model;

/// A `Source` over a reader. Each error of the reader is a failure, that of a read that was
/// interrupted too: no read is made again.
#[derive(Drop)]
pub struct FromRead<R> {
    reader: R,
    tally: Tally,
}

impl<R> Model for FromRead<R> {
    ghost use Rattle.bz_devices.specs.Device.{Counted};

    ghost Value = { Counted R };

    ghost view = { λ s. record { device = s.reader; bytes = s.tally.bytes; failures = s.tally.failures } };
}

impl<R> FromRead<R> {
    /// The reader as a source: no byte and no failure so far.
    pub fn new(reader: R) -> FromRead<R>
        ensures { result ≡ record { device = reader; bytes = 0; failures = 0 } }
    {
        FromRead {
            reader,
            tally: Tally::new(),
        }
    }
}

impl<R: Read> Source for FromRead<R> {
    // By the bytes that are left, where they are known, and by their count.
    ghost gave = { λ old pieces new. Gave (R.remaining old.device) (R.remaining new.device) pieces
        × Counts old.bytes new.bytes (length (concat pieces)) };

    ghost failures = { λ s. s.failures };

    ghost gave_nothing = { λ s. (gave_nothing_lem (R.remaining s.device), counts_nothing s.bytes) };

    ghost gave_more = { λ a b c xs ys p q. (
      gave_more_lem (R.remaining a.device) (R.remaining b.device) (R.remaining c.device) xs ys p.0 q.0,
      counts_pieces a.bytes b.bytes c.bytes xs ys p.1 q.1,
    ) };

    fn read(&mut self, buf: &mut [u8]) -> Result<usize, Failed> {
        match self.reader.read(buf) {
            Ok(n) => {
                self.tally.count(n);
                Ok(n)
            }
            Err(_error) => {
                self.tally.fail();
                Err(Failed)
            }
        }
    }

    fn failures(&self) -> u64 {
        self.tally.failures
    }
}
