//! Command files: a group on each line.

ghost use Rattle.bz_memory.specs.NoMemory.{no_memory};
ghost use Rattle.std.specs.Prelude.{◌≡◌, ◌≢◌, map, Err, IfOk};
ghost use Rattle.std.specs.List.{slice_split};
ghost use Rattle.std.specs.Str.Lines.{strip_carriage_return};
ghost use Rattle.bz_token.specs.Common.{is_newline};
ghost use Rattle.bz_script.specs.CommandFiles as spec;
ghost use Rattle.bz_script.specs.Results.{map_ok};

use crate::group::{Script, read_group};
use crate::usage::UsageFault;
use bz_memory::{NoMemory, append, collect};
use bz_token::check_utf8;
use std::alloc::Global;

/// Reads a command file (buildozer README, "Usage", -f): each line is a group, its fields separated by `|`.
///
/// Spaces round a field and one carriage return at a line's end are dropped. Lines of spaces and tabs alone, and lines
/// whose first other character is `#`, are skipped. Faults tell lines from 1, and the first group with one decides;
/// bytes that are not UTF-8 are told before all else. A file without groups gives an empty script.
pub fn read_command_file(alloc: Global, bytes: &[u8]) -> Result<Script, UsageFault>
    ensures { result ≢ Err (UsageFault.OutOfMemory no_memory)
        → map_ok (λ script. script.items) result ≡ spec.command_file_of bytes.now }
{
    match check_utf8(bytes) {
        Ok(text) => read_lines(alloc, text),
        Err(_) => Err(UsageFault::NotUtf8),
    }
}

fn read_lines(alloc: Global, text: &str) -> Result<Script, UsageFault>
    ensures { result ≢ Err (UsageFault.OutOfMemory no_memory)
        → map_ok (λ script. script.items) result ≡ spec.lines_steps 1 (slice_split is_newline text.now) }
{
    let mut script = Vec::new(alloc);
    for (index, line) in text.split('\n').enumerate() {
        match read_line(alloc, index as u64 + 1, without_return(line)) {
            Ok(mut steps) => append(&mut script, &mut steps)?,
            Err(fault) => return Err(fault),
        }
    }
    Ok(script)
}

/// The line without one carriage return at its end.
pub(crate) fn without_return(line: &str) -> &str
    ensures { result.now ≡ strip_carriage_return line.now }
{
    line.strip_suffix('\r').unwrap_or(line)
}

/// Reads one line. `number` is its own, for faults.
fn read_line(alloc: Global, number: u64, line: &str) -> Result<Script, UsageFault>
    ensures { result ≢ Err (UsageFault.OutOfMemory no_memory)
        → map_ok (λ script. script.items) result ≡ spec.line_steps number line.now }
{
    if is_skipped(line) {
        return Ok(Vec::new(alloc));
    }
    let fields = fields_in(alloc, line)?;
    read_group(alloc, number, fields.as_slice())
}

/// Whether a line is of spaces and tabs alone, or a comment.
pub(crate) fn is_skipped(line: &str) -> bool
    ensures { result ≡ spec.is_skipped line.now }
{
    for byte in line.as_bytes() {
        if *byte != b' ' && *byte != b'\t' {
            return *byte == b'#';
        }
    }
    true
}

/// The fields of a line, which are a group's words.
fn fields_in<'a>(alloc: Global, line: &'a str) -> Result<Vec<&'a str>, NoMemory>
    ensures { IfOk result (λ fields. map (λ field. field.now) fields.items ≡ spec.fields_of line.now) }
{
    collect(alloc, line.split('|').map(trimmed))
}

/// The part without the spaces round it. Tabs stay.
pub(crate) fn trimmed(part: &str) -> &str
    ensures { result.now ≡ spec.trimmed part.now }
{
    part.trim_matches(' ')
}
