//! Who writes the text of a file.

ghost use Rattle.std.specs.Prelude.{ℕ, List, Bool, Result};

use bz_devices::device::{Failed, Sink};

/// What writes a new text, and knows whether it is to be kept.
pub trait Author {
    ghost use Rattle.bz_devices.specs.declared.device.Failed.{Failed};

    // The first state gave this text and this answer, whether to keep it, and became the second.
    ghost gives: { Self → List ℕ → Result Bool Failed → Self → Type 0 };

    /// Writes the text, or a front of it where it fails, and answers whether to keep it.
    fn write_to<S: Sink>(&mut self, sink: &mut S) -> Result<bool, Failed>
        ensures { (text : List ℕ) × S.took sink.old text sink.new × gives self.old text result self.new };
}
