//! A sink with a buffer before it.

ghost use Rattle.std.specs.Prelude.{◌≡◌, ℕ, [], take, false, true, IfOk, OnOk, OnErr};
ghost use Rattle.bz_devices.specs.Device.{Rises};
ghost use Rattle.bz_devices.specs.Buffer.{Took, Stops, took_nothing_lem, took_more_lem};

use crate::device::{Failed, Sink};
use crate::output::write_all;
use bz_memory::{NoMemory, with_capacity};
use std::alloc::Global;
use std::marker::Model;

/// From so many bytes on a buffer is full.
const FULL: usize = 65_536;

/// A sink that keeps bytes back until they are many, or until it is flushed.
///
/// Once the sink fails no more bytes are handed on, and each flush fails (as in Go's `bufio.Writer`).
#[derive(Drop)]
pub struct Buffered<W> {
    sink: W,
    waiting: Vec<u8>,
    failed: bool,
    /// How many writes failed. It stays at its greatest value.
    failures: u64,
}

impl<W> Model for Buffered<W> {
    ghost use Rattle.bz_devices.specs.Buffer.{Buffer};

    ghost Value = { Buffer W };

    ghost view = { λ b. record { sink = b.sink; waiting = b.waiting.items; failed = b.failed; failures = b.failures } };
}

impl<W: Sink> Buffered<W> {
    /// The sink, with nothing kept back.
    pub fn new(alloc: Global, sink: W) -> Result<Buffered<W>, NoMemory>
    where
        W: Drop,
        ensures { IfOk result (λ b. b ≡ record { sink = sink; waiting = []; failed = false; failures = 0 }) }
    {
        let waiting = with_capacity(alloc, 2 * FULL)?;
        Ok(Buffered {
            sink,
            waiting,
            failed: false,
            failures: 0,
        })
    }

    /// Takes all of the bytes, unless the sink fails.
    // Most are few: a call would take longer than to keep them back.
    #[inline(always)]
    pub fn put(&mut self, bytes: &[u8])
        ensures took { Took W.took self.old bytes.now self.new }
        ensures stops { Stops W.took W.failures self.old bytes.now self.new }
        ensures steady { self.new.failures ≡ self.old.failures }
    {
        self.make_room();
        if bytes.len() <= FULL && self.keep_back(bytes) {
            return;
        }
        self.spill();
        self.hand_on(bytes);
    }

    /// Sees that the buffer is not full.
    fn make_room(&mut self)
        ensures took { Took W.took self.old [] self.new }
        ensures stops { Stops W.took W.failures self.old [] self.new }
        ensures steady { self.new.failures ≡ self.old.failures }
    {
        if self.waiting.len() >= FULL {
            self.spill();
        }
    }

    /// Keeps the bytes back, where there is memory for them.
    fn keep_back(&mut self, bytes: &[u8]) -> bool
        ensures took { result ≡ true → Took W.took self.old bytes.now self.new }
        ensures stops { result ≡ true → Stops W.took W.failures self.old bytes.now self.new }
        ensures same { result ≡ false → self.new ≡ self.old }
        ensures steady { self.new.failures ≡ self.old.failures }
    {
        self.waiting.extend_from_slice(bytes).is_ok()
    }

    /// Hands all that is kept back to the sink. An `Err` says that the sink failed, now or earlier.
    pub fn flush(&mut self) -> Result<(), Failed>
        ensures took { Took W.took self.old [] self.new }
        ensures stops { Stops W.took W.failures self.old [] self.new }
        ensures all { OnOk result ((self.new.waiting ≡ []) × (self.new.failed ≡ false)) }
        ensures err { OnErr result (self.new.failed ≡ true) }
        ensures steady { self.new.failures ≡ self.old.failures }
    {
        self.spill();
        if self.failed { Err(Failed) } else { Ok(()) }
    }

    /// Hands all that is kept back to the sink.
    fn spill(&mut self)
        ensures took { Took W.took self.old [] self.new }
        ensures stops { Stops W.took W.failures self.old [] self.new }
        ensures all { self.new.waiting ≡ [] }
        ensures steady { self.new.failures ≡ self.old.failures }
    {
        self.failed = hand_over(&mut self.sink, self.failed, self.waiting.as_slice());
        self.waiting.clear();
    }

    /// Hands the bytes to the sink, where nothing is kept back.
    #[tactic(auto, using(crate::specs::Buffer::took_past))]
    fn hand_on(&mut self, bytes: &[u8])
        requires { self.old.waiting ≡ [] }
        ensures took { Took W.took self.old bytes.now self.new }
        ensures stops { Stops W.took W.failures self.old bytes.now self.new }
        ensures steady { self.new.failures ≡ self.old.failures }
    {
        self.failed = hand_over(&mut self.sink, self.failed, bytes);
    }
}

/// Hands the bytes to a sink, unless it failed earlier, and answers whether it has failed now.
fn hand_over<W: Sink>(sink: &mut W, failed: bool, bytes: &[u8]) -> bool
    ensures all { result ≡ false → (failed ≡ false) × W.took sink.old bytes.now sink.new }
    ensures stays { failed ≡ true → (sink.new ≡ sink.old) × (result ≡ true) }
    ensures cause { failed ≡ false → result ≡ true → Rises (W.failures sink.old) (W.failures sink.new) }
    ensures steady { result ≡ false → W.failures sink.new ≡ W.failures sink.old }
    ensures front { failed ≡ false → result ≡ true → (n : ℕ) × W.took sink.old (take n bytes.now) sink.new }
{
    failed || write_all(sink, bytes).is_err()
}

impl<W: Sink> Sink for Buffered<W> {
    // Unless the sink failed: what it took and what is kept back, together.
    ghost took = { Took W.took };

    ghost failures = { λ s. s.failures };

    ghost took_nothing = { λ s. took_nothing_lem W.took W.took_nothing s };

    ghost took_more = { λ a b c xs ys p q. took_more_lem W.took W.took_more a b c xs ys p q };

    // Not in the way of a run that writes nothing.
    #[inline(never)]
    fn write(&mut self, bytes: &[u8]) -> Result<usize, Failed> {
        self.put(bytes);
        if self.failed {
            self.failures = self.failures.saturating_add(1);
            return Err(Failed);
        }
        Ok(bytes.len())
    }

    fn failures(&self) -> u64 {
        self.failures
    }
}
