//! The fields of `print`: what each is, and how it is named.

ghost use Rattle.std.specs.Prelude.{◌≡◌, if◌then◌else◌, Err, Ok};
ghost use Rattle.bz_rule.specs.Print as spec;
ghost use Rattle.bz_rule.specs.declared.command.CommandFault.TheVariants.{BadAttribute};

use crate::command::CommandFault;
use crate::reader::{attribute, ensure};
use bz_label::Text;

/// What `print` prints.
#[derive(Drop)]
pub enum Field {
    Label,
    Kind,
    StartLine,
    EndLine,
    ValueOf(Text),
}

/// Told of a word for which `is_left_out_field` holds: which words these are, and which fields there are.
pub const NO_SUCH_FIELD: &str =
    "there is no field rule, attrs or path; print attributes, or label, kind, startline and endline";

/// Whether a word names a field that Bazel's buildozer prints and this program does not.
pub fn is_left_out_field(word: &str) -> bool
    ensures { result ≡ spec.is_left_out_field word.now }
{
    matches!(word, "rule" | "attrs" | "path")
}

/// The field that a word names. A fault: the word is no attribute's name, or names a field that is left out.
pub(crate) fn read_field(word: Text) -> Result<Field, CommandFault>
    ensures { result ≡ (if spec.is_field word then Ok (spec.field_of word) else Err BadAttribute) }
{
    let word = attribute(word)?;
    ensure(
        !is_left_out_field(word.as_str()),
        CommandFault::BadAttribute,
    )?;
    Ok(match word.as_str() {
        "label" => Field::Label,
        "kind" => Field::Kind,
        "startline" => Field::StartLine,
        "endline" => Field::EndLine,
        _ => Field::ValueOf(word),
    })
}
