//! The names of a package's files.

ghost use Rattle.std.specs.Prelude.{◌≡◌, string_bytes, codes, IfOk};
ghost use Rattle.bz_script.specs.Names.{in_folder};

use bz_memory::{NoMemory, from_str, push_char, push_str};
use std::alloc::Global;

/// The paths at which a package's BUILD file may stand, in the order in which they are tried.
#[derive(Drop)]
pub struct BuildFiles {
    pub first: String,
    pub second: String,
}

impl BuildFiles {
    /// The paths in a folder, which is empty for the root (buildozer README: `BUILD.bazel` is tried before `BUILD`).
    pub fn of(alloc: Global, folder: &str) -> Result<BuildFiles, NoMemory>
        ensures first { IfOk result (λ files. string_bytes files.first
            ≡ in_folder folder.now (codes "BUILD.bazel")) }
        ensures second { IfOk result (λ files. string_bytes files.second
            ≡ in_folder folder.now (codes "BUILD")) }
    {
        let first = in_folder(alloc, folder, "BUILD.bazel")?;
        let second = in_folder(alloc, folder, "BUILD")?;
        Ok(BuildFiles { first, second })
    }
}

fn in_folder(alloc: Global, folder: &str, name: &str) -> Result<String, NoMemory>
    ensures { IfOk result (λ path. string_bytes path ≡ in_folder folder.now name.now) }
{
    let mut path = from_str(alloc, folder)?;
    if !folder.is_empty() {
        push_char(&mut path, '/')?;
    }
    push_str(&mut path, name)?;
    Ok(path)
}
