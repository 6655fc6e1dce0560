//! Standard input can be read once.

ghost use Rattle.std.specs.Prelude.{◌≡◌, Ok, Err, if◌then◌else◌};
ghost use Rattle.bz_script.specs.Inputs as spec;

use crate::flags::Flags;
use crate::usage::UsageFault;
use bz_label::{Package, Text};

/// Whether the command file is standard input.
fn reads_commands(file: &Option<Text>) -> bool
    ensures { result ≡ spec.reads_commands file.now }
{
    file.as_ref().is_some_and(|file| file.as_str() == "-")
}

/// Whether a step is for standard input.
fn edits_standard<T>(script: &[(Package, T)]) -> bool
    ensures { result ≡ spec.edits_standard script.now }
{
    script.iter().any(|step| step.0.path().is_none())
}

/// Refuses a script that would read standard input twice: as the command file, and as the text of a step's package.
///
/// Takes no memory, and [`UsageFault::TwoInputs`] is the one fault.
pub fn check_inputs<T>(flags: &Flags, script: &[(Package, T)]) -> Result<(), UsageFault>
    ensures { result ≡ (if spec.takes_two flags.now.file script.now then Err UsageFault.TwoInputs
        else Ok tt) }
{
    if reads_commands(&flags.file) && edits_standard(script) {
        return Err(UsageFault::TwoInputs);
    }
    Ok(())
}
