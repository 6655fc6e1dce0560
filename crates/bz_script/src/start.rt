//! What the command line and the command file ask for.

ghost use Rattle.bz_memory.specs.NoMemory.{no_memory};
ghost use Rattle.std.specs.Prelude.{◌≡◌, ◌≢◌, false, Err, IfErr, IfOk, IfSome, OnOk, map, string_bytes};
ghost use Rattle.bz_script.specs.Groups.{group_of};
ghost use Rattle.bz_script.specs.Inputs.{takes_two};
ghost use Rattle.bz_script.specs.Notes.{AreTrue};
ghost use Rattle.bz_script.specs.Requests.{request_of};
ghost use Rattle.bz_script.specs.Results.{map_ok, map_err};

use crate::command_file::read_command_file;
use crate::flags::{Flags, read_flags};
use crate::group::Script;
use crate::inputs::check_inputs;
use crate::notes::{Notes, may_need_notes};
use crate::quoted::Quoted;
use crate::script::read_script;
use crate::usage::{StartFault, UsageFault};
use bz_memory::{BytesFault, bytes_of_file, bytes_of_input};
use std::alloc::Global;

/// The most bytes of a command file.
const MAX_COMMANDS: u64 = 16_777_216;

/// What the words of a call ask for, and what is told of them before it is done.
#[derive(Drop)]
pub struct Request {
    pub flags: Flags,
    pub script: Script,
    pub notes: Notes,
}

/// What the words of the command line ask for.
///
/// Faults of flags come first, then those of the command file or of the words, then standard input that is to be read
/// twice.
pub fn read_request(
    rt: &HostRuntime,
    alloc: Global,
    words: &[String],
) -> Result<Request, StartFault>
    ensures once { IfOk result (λ asked. takes_two asked.flags.file asked.script.items ≡ false) }
    ensures notes { IfOk result (λ asked. AreTrue asked.notes) }
    ensures words { result ≢ Err (StartFault.Usage (UsageFault.OutOfMemory no_memory))
        → IfSome (request_of (map string_bytes words.now))
        (λ asked. map_ok (λ it. (it.flags, it.script.items)) result
        ≡ map_err StartFault.Usage asked) }
{
    let (flags, rest) = read_flags(alloc, words)?;
    let mut notes = notes_of_flags(alloc, words)?;
    let script = match &flags.file {
        Some(file) => read_script_file(rt, alloc, file.as_str(), &mut notes)?,
        None => read_script_words(alloc, rest, &mut notes)?,
    };
    check_inputs(&flags, script.as_slice())?;
    Ok(Request {
        flags,
        script,
        notes,
    })
}

fn notes_of_flags(alloc: Global, words: &[String]) -> Result<Notes, UsageFault>
    ensures notes { IfOk result AreTrue }
    ensures fault { IfErr result (λ why. why ≡ UsageFault.OutOfMemory no_memory) }
{
    let mut notes = Notes::none();
    notes.add_flags(alloc, words)?;
    Ok(notes)
}

fn read_script_words(
    alloc: Global,
    words: &[String],
    notes: &mut Notes,
) -> Result<Script, UsageFault>
    ensures script { result ≢ Err (UsageFault.OutOfMemory no_memory)
        → map_ok (λ script. script.items) result ≡ group_of 0 (map string_bytes words.now) }
    ensures notes { OnOk result (AreTrue notes.old → AreTrue notes.new) }
{
    let script = read_script(alloc, words)?;
    notes.add_words(alloc, words)?;
    Ok(script)
}

fn read_script_file(
    rt: &HostRuntime,
    alloc: Global,
    path: &str,
    notes: &mut Notes,
) -> Result<Script, StartFault>
    ensures { OnOk result (AreTrue notes.old → AreTrue notes.new) }
{
    let bytes = read_command_bytes(rt, alloc, path)?;
    let script = read_command_file(alloc, bytes.as_slice())?;
    if may_need_notes(bytes.as_slice(), script.as_slice()) {
        notes
            .add_file(alloc, bytes.as_slice())
            .map_err(UsageFault::from)?;
    }
    Ok(script)
}

/// The bytes of a command file; `-` is standard input.
fn read_command_bytes(rt: &HostRuntime, alloc: Global, path: &str) -> Result<Vec<u8>, StartFault> {
    let name = Quoted::from_str(alloc, path).map_err(UsageFault::from)?;
    let read = if path == "-" {
        bytes_of_input(rt, alloc, MAX_COMMANDS + 1)
    } else {
        bytes_of_file(rt, alloc, path, MAX_COMMANDS + 1)
    };
    match read {
        Ok(bytes) if bytes.len() as u64 > MAX_COMMANDS => Err(StartFault::LongCommands(name)),
        Ok(bytes) => Ok(bytes),
        Err(BytesFault::OutOfMemory(why)) => Err(StartFault::from(UsageFault::OutOfMemory(why))),
        Err(BytesFault::Failed) => Err(StartFault::UnreadCommands(name)),
    }
}
