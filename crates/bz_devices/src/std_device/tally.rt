//! How many bytes a device gave or took, and how often it failed.

ghost use Rattle.std.specs.Prelude.{◌≡◌};
ghost use Rattle.bz_devices.specs.Device.{Counts, Rises};

/// What a device did so far. Each count stays at its greatest value.
#[derive(Clone, Copy)]
pub(super) struct Tally {
    /// How many bytes the reads gave, or the writes appended.
    pub bytes: u64,
    /// How many calls failed.
    pub failures: u64,
}

impl Tally {
    pub(super) fn new() -> Tally
        ensures { result ≡ record { bytes = 0; failures = 0 } }
    {
        Tally {
            bytes: 0,
            failures: 0,
        }
    }

    /// Counts a call that gave or took `n` bytes.
    pub(super) fn count(&mut self, n: usize)
        ensures bytes { Counts self.old.bytes self.new.bytes n }
        ensures steady { self.new.failures ≡ self.old.failures }
    {
        self.bytes = self.bytes.saturating_add(n as u64);
    }

    /// Counts a call that failed.
    pub(super) fn fail(&mut self)
        ensures failed { Rises self.old.failures self.new.failures }
        ensures steady { self.new.bytes ≡ self.old.bytes }
    {
        self.failures = self.failures.saturating_add(1);
    }
}
