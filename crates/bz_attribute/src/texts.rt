//! How labels are shown.

ghost use Rattle.std.specs.Prelude.{◌≡◌, ◌++◌, IfOk, OnOk, string_bytes};
ghost use Rattle.bz_attribute.specs.Texts as spec;

use bz_label::{Marked, Package, Target};
use bz_memory::{NoMemory, push_number, push_str};
use std::alloc::Global;

/// A label, `//PATH:TARGET`; standard input is `-:TARGET`.
pub fn label(alloc: Global, home: &Package, target: &Target) -> Result<String, NoMemory>
    ensures { IfOk result (λ text. string_bytes text
        ≡ spec.home_text home.now ++ spec.target_text target.now) }
{
    let mut text = String::new(alloc);
    push_home(&mut text, home)?;
    push_target(&mut text, target)?;
    Ok(text)
}

fn push_target(text: &mut String, target: &Target) -> Result<(), NoMemory>
    ensures { OnOk result (string_bytes text.new ≡ string_bytes text.old ++ spec.target_text target.now) }
{
    match target.marked() {
        Marked::Name(name) => push_str(text, name),
        Marked::Pkg => push_str(text, "__pkg__"),
        Marked::All => push_str(text, "*"),
        Marked::Kind(kind) => {
            push_str(text, "%")?;
            push_str(text, kind)
        }
        Marked::Line(line) => {
            push_str(text, "%")?;
            push_number(text, line)
        }
    }
}

/// Writes a package and the colon after it.
pub fn push_home(text: &mut String, home: &Package) -> Result<(), NoMemory>
    ensures { OnOk result (string_bytes text.new ≡ string_bytes text.old ++ spec.home_text home.now) }
{
    match home.path() {
        None => push_str(text, "-:"),
        Some(path) => {
            push_str(text, "//")?;
            push_str(text, path)?;
            push_str(text, ":")
        }
    }
}
