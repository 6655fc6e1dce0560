//! The exit status of a run over several packages.

ghost use Rattle.std.specs.Prelude.{◌≡◌};
ghost use Rattle.bz_script.specs.Statuses as spec;

/// A command failed (buildozer README, "Error codes").
const FAILED: u8 = 2;

/// No command failed, and something changed.
const CHANGED: u8 = 0;

/// No command failed, and nothing changed.
const UNCHANGED: u8 = 3;

/// The exit status of a run, from those of its packages: a failure decides first, and then a change.
///
/// Without any package nothing changed.
pub fn whole_status(statuses: &[u8]) -> u8
    ensures { result ≡ spec.whole_status statuses.now }
{
    if statuses.contains(&FAILED) {
        FAILED
    } else if statuses.contains(&CHANGED) {
        CHANGED
    } else {
        UNCHANGED
    }
}
