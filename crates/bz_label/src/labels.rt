//! Labels: a package and a target in it.

ghost use Rattle.bz_memory.specs.NoMemory.{no_memory};
ghost use Rattle.std.specs.Prelude.{◌≡◌, ◌&&◌, ◌==◌, not, ◌≢◌, Some, None, Ok, Err, IfOk, OnErr, IsTrue};
ghost use Rattle.std.specs.List.{list_all};
ghost use Rattle.std.specs.Char.{is_ascii_digit};
ghost use Rattle.bz_label.specs.Labels as spec;

use crate::list::Text;
use crate::names::is_kind;
use crate::package::{Package, PackagePlace};
use crate::parts::cut;
use crate::target::{Form, Target};
use bz_memory::NoMemory;
use std::alloc::Global;

/// Why a text is no label.
#[derive(Clone, Copy, Debug, PartialEq, Eq)]
pub enum LabelFault {
    OutOfMemory(NoMemory),
    /// What stands before the colon is no package.
    BadPackage,
    /// What stands after the colon is no target, or there is no colon and the package has no last part.
    BadTarget,
}

/// Reads a label as a package and a target (buildozer README, targets): `//PATH:TARGET`, `PATH:TARGET`, `:TARGET` in
/// the root, `-:TARGET` for standard input, or a path alone, whose last part is then the name. A bad package is
/// reported before a bad target.
pub fn read_label(alloc: Global, text: &str) -> Result<(Package, Target), LabelFault>
    ensures { result ≢ Err (LabelFault.OutOfMemory no_memory) → result ≡ spec.label_of text.now }
{
    match text.split_once(':') {
        Some((path, target)) => read_pair(alloc, path, target),
        None => read_named(alloc, text),
    }
}

// What stands before the colon, and what stands after it.
fn read_pair(alloc: Global, path: &str, target: &str) -> Result<(Package, Target), LabelFault>
    ensures { result ≢ Err (LabelFault.OutOfMemory no_memory)
        → result ≡ spec.pair_of (spec.package_of path.now) (spec.target_of target.now) }
{
    Ok((read_package(alloc, path)?, read_target(alloc, target)?))
}

// A label without a colon.
fn read_named(alloc: Global, text: &str) -> Result<(Package, Target), LabelFault>
    requires { IsTrue (list_all (λ b. not (spec.is_colon b)) text.now) }
    ensures { result ≢ Err (LabelFault.OutOfMemory no_memory) → result ≡ spec.named_of (spec.package_of text.now) }
{
    let package = read_package(alloc, text)?;
    let path = match package.path() {
        None | Some("") => return Err(LabelFault::BadTarget),
        Some(path) => path,
    };
    let form = Form::Name(copied(alloc, last_part(path))?);
    Ok((package, Target { form }))
}

// What stands after the last slash.
fn last_part(mut path: &str) -> &str
    ensures { result.now ≡ spec.last_part (spec.parts_of path.now) }
{
    while let Some((_, rest)) = cut(path, '/') {
        path = rest;
    }
    path
}

fn read_package(alloc: Global, text: &str) -> Result<Package, LabelFault>
    ensures { result ≢ Err (LabelFault.OutOfMemory no_memory) → result ≡ spec.package_of text.now }
{
    if text == "-" {
        let place = PackagePlace::Standard;
        return Ok(Package { place });
    }
    let path = text.strip_prefix("//").unwrap_or(text);
    if !is_path(path) {
        return Err(LabelFault::BadPackage);
    }
    let place = PackagePlace::Path(copied(alloc, path)?);
    Ok(Package { place })
}

fn is_path(path: &str) -> bool
    ensures { result ≡ spec.is_path path.now }
{
    are_plain(path) && !path.starts_with("@") && (path.len() == 0 || are_parts(path))
}

fn is_plain(b: u8) -> bool
    ensures { result ≡ spec.is_plain b }
{
    b > b' ' && b != 127
}

fn are_plain(text: &str) -> bool
    ensures { result ≡ list_all spec.is_plain text.now }
{
    text.as_bytes().iter().all(|b| is_plain(*b))
}

fn are_parts(path: &str) -> bool
    ensures { result ≡ list_all spec.is_part (spec.parts_of path.now) }
{
    path.split('/').all(is_part)
}

fn is_part(part: &str) -> bool
    ensures { result ≡ spec.is_part part.now }
{
    !matches!(part, "" | "." | ".." | "...")
}

fn read_target(alloc: Global, text: &str) -> Result<Target, LabelFault>
    ensures { result ≢ Err (LabelFault.OutOfMemory no_memory) → result ≡ spec.target_of text.now }
{
    if !is_target(text) {
        return Err(LabelFault::BadTarget);
    }
    let form = match (text, text.strip_prefix("%")) {
        ("__pkg__", _) => Form::Pkg,
        ("*", _) => Form::All,
        (_, Some(rest)) => return read_percent(alloc, rest),
        (_, None) => Form::Name(copied(alloc, text)?),
    };
    Ok(Target { form })
}

fn is_target(text: &str) -> bool
    ensures { result ≡ spec.is_target text.now }
{
    text.len() != 0 && text.as_bytes().iter().all(|b| is_plain(*b) && *b != b':')
}

// What stands after a percent sign.
fn read_percent(alloc: Global, text: &str) -> Result<Target, LabelFault>
    ensures { result ≢ Err (LabelFault.OutOfMemory no_memory) → result ≡ spec.percent_of text.now }
{
    let form = if is_number(text) {
        Form::Line(text.parse().map_err(|_| LabelFault::BadTarget)?)
    } else if is_kind(text) {
        Form::Kind(copied(alloc, text)?)
    } else {
        return Err(LabelFault::BadTarget);
    };
    Ok(Target { form })
}

fn is_number(text: &str) -> bool
    ensures { result ≡ spec.is_number text.now }
{
    text.len() != 0 && text.as_bytes().iter().all(u8::is_ascii_digit)
}

// Without memory this is the one fault that the text does not determine.
fn copied(alloc: Global, text: &str) -> Result<Text, LabelFault>
    ensures text { IfOk result (λ copy. copy ≡ text.now) }
    ensures err { OnErr result (result ≡ Err (LabelFault.OutOfMemory no_memory)) }
{
    Text::from_str(alloc, text).map_err(LabelFault::OutOfMemory)
}
