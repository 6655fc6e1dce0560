//! The script that the words of the command line ask for.

ghost use Rattle.bz_memory.specs.NoMemory.{no_memory};
ghost use Rattle.std.specs.Prelude.{◌≡◌, ◌≢◌, map, string_bytes, Err, IfOk};
ghost use Rattle.bz_script.specs.Groups as spec;
ghost use Rattle.bz_script.specs.Results.{map_ok};

use crate::flags::COMMAND_LINE;
use crate::group::{Script, read_group};
use crate::usage::UsageFault;
use bz_memory::{NoMemory, push, with_room_for};
use std::alloc::Global;

/// Reads the words of the command line that follow its flags: they are one group, whose line is 0 in faults.
///
/// For each target in order it has one pass with all commands. Faults of words come first, from left to right, then a
/// missing command, then a missing target.
pub fn read_script(alloc: Global, words: &[String]) -> Result<Script, UsageFault>
    ensures { result ≢ Err (UsageFault.OutOfMemory no_memory)
        → map_ok (λ script. script.items) result ≡ spec.group_of 0 (map string_bytes words.now) }
{
    let words = texts(alloc, words)?;
    read_group(alloc, COMMAND_LINE, words.as_slice())
}

/// The words as texts.
fn texts<'a>(alloc: Global, words: &'a [String]) -> Result<Vec<&'a str>, NoMemory>
    ensures { IfOk result (λ texts. map (λ text. text.now) texts.items ≡ map string_bytes words.now) }
{
    let mut texts = with_room_for(alloc, words, 0)?;
    for word in words {
        push(&mut texts, word.as_str())?;
    }
    Ok(texts)
}
