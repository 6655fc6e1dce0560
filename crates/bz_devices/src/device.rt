//! Where a run's bytes come from, and where they go.

ghost use Rattle.std.specs.Prelude.{◌≡◌, ℕ, ◌<◌, ◌≤◌, List, [], ◌∷◌, ◌++◌, length, take, IfOk, OnOk, OnErr};
ghost use Rattle.bz_devices.specs.Device.{Rises};

/// A read or a write that failed.
#[derive(Clone, Copy, Debug, PartialEq, Eq)]
pub struct Failed;

/// Where bytes come from.
///
/// What reads gave is a relation of the states before and after. Over memory it names the bytes,
/// over a file their count alone.
pub trait Source {
    // From the first state, reads gave these pieces, one for each read, and left the second state.
    // An empty piece is the end of the input.
    ghost gave: { Self → List (List ℕ) → Self → Type 0 };

    // How many reads failed.
    ghost failures: { Self → ℕ };

    /// Reads the next bytes into the front of `buf` and answers how many. 0 is the end of the
    /// input. An `Err` gave nothing.
    fn read(&mut self, buf: &mut [u8]) -> Result<usize, Failed>
        requires { 0 < length buf.old }
        ensures within { IfOk result (λ n. n ≤ length buf.new) }
        ensures ok { IfOk result (λ n. gave self.old (take n buf.new ∷ []) self.new) }
        ensures steady { OnOk result (failures self.new ≡ failures self.old) }
        ensures err { OnErr result (gave self.old [] self.new) }
        ensures counted { OnErr result (Rises (failures self.old) (failures self.new)) };

    /// How many reads failed. The count starts at 0 and stays at its greatest value.
    fn failures(&self) -> u64
        ensures { result ≡ failures self.now };

    // A law, which each source proves: without a read nothing was given, and the state is the same.
    ghost gave_nothing: { (s : Self) → gave s [] s };

    // A law too: reads, and then more reads, gave the pieces of both, in order.
    ghost gave_more: { (a b c : Self) (xs ys : List (List ℕ))
        → gave a xs b → gave b ys c → gave a (xs ++ ys) c };
}

/// Where bytes go.
///
/// What writes appended is a relation of the states before and after. Over memory it names the
/// bytes, over a file their count alone.
pub trait Sink {
    // The first state took these bytes and became the second.
    ghost took: { Self → List ℕ → Self → Type 0 };

    // How many writes failed.
    ghost failures: { Self → ℕ };

    /// Appends a front of `bytes` and answers how many, at least 1. An `Err` appended nothing.
    fn write(&mut self, bytes: &[u8]) -> Result<usize, Failed>
        requires { 0 < length bytes.now }
        ensures within { IfOk result (λ n. (0 < n) × (n ≤ length bytes.now)) }
        ensures ok { IfOk result (λ n. took self.old (take n bytes.now) self.new) }
        ensures steady { OnOk result (failures self.new ≡ failures self.old) }
        ensures err { OnErr result (took self.old [] self.new) }
        ensures counted { OnErr result (Rises (failures self.old) (failures self.new)) };

    /// How many writes failed. The count starts at 0 and stays at its greatest value.
    fn failures(&self) -> u64
        ensures { result ≡ failures self.now };

    // A law, which each sink proves: without a write nothing was taken, and the state is the same.
    ghost took_nothing: { (s : Self) → took s [] s };

    // A law too: writes, and then more writes, appended the bytes of both, in order.
    ghost took_more: { (a b c : Self) (xs ys : List ℕ)
        → took a xs b → took b ys c → took a (xs ++ ys) c };
}
