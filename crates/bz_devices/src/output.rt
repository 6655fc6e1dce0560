//! Writing to a sink that may take less than it is handed.

ghost use Rattle.std.specs.Prelude.{◌≡◌, ℕ, ◌<◌, length, take, OnOk, OnErr};
ghost use Rattle.bz_devices.specs.Device.{Rises};

use crate::device::{Failed, Sink};

/// Writes all the bytes, in as many writes as the sink needs. An `Err` has written a front of
/// them, and not all.
pub fn write_all<W: Sink>(sink: &mut W, bytes: &[u8]) -> Result<(), Failed>
    ensures ok { OnOk result (W.took sink.old bytes.now sink.new) }
    ensures steady { OnOk result (W.failures sink.new ≡ W.failures sink.old) }
    ensures front { OnErr result ((n : ℕ) × (n < length bytes.now) × W.took sink.old (take n bytes.now) sink.new) }
    ensures counted { OnErr result (Rises (W.failures sink.old) (W.failures sink.new)) }
{
    let mut written = 0usize;
    while written < bytes.len() {
        match sink.write(&bytes[written..]) {
            Ok(n) => written += n,
            Err(failed) => return Err(failed),
        }
    }
    Ok(())
}
