//! The script on the chunk that is found next.

ghost use Rattle.std.specs.Prelude.{◌≡◌, ◌+◌, ◌<◌, ◌≤◌, ◌^◌, length, map, IfNone, IfOk, IfSome, OnOk};
ghost use Rattle.bz_token.specs.Places.{placed};
ghost use Rattle.bz_token.specs.Reading.{AreTokensOf};
ghost use Rattle.bz_devices.specs.Ahead.{IsFewAfter};
ghost use Rattle.bz_passes.specs.Exchange.{Fits};
ghost use Rattle.bz_engine.specs.private.Edits.{DoesNothing, EditsChunk, run_of};
ghost use Rattle.bz_engine.specs.private.NextChunks.{IsFirstEdited};

use crate::canonical::copy_whole;
use crate::chunk::not_utf8;
use crate::edit::{Edited, ScriptRun, edit_chunk};
use crate::progress::Progress;
use crate::spare::ChunkBuffers;
use bz_devices::ahead::Ahead;
use bz_memory::NoMemory;
use bz_token::{Token, check_utf8, first_chunk};
use bz_tree::{read_statement, read_text};

/// The next chunk, on which the script was run and which is not yet taken. In this order what is copied at once was
/// stored at once: else the processor waits.
#[derive(Drop)]
pub(crate) struct NextChunk {
    pub(crate) edited: Edited,
    /// How many of the bytes ahead it has.
    pub(crate) len: usize,
}

/// Runs the script on the first chunk of the text ahead, which is read by the tokens that were made to find its end.
/// None, with nothing done: the text does not show where it ends, it has a fault, is a block, or is too long.
pub(crate) fn edit_first(
    ahead: &Ahead,
    script: ScriptRun<'_>,
    progress: &mut Progress,
    text: &mut Vec<u8>,
) -> Result<Option<NextChunk>, NoMemory>
    requires few { IsFewAfter ahead.now }
    requires fits { Fits progress.old.kept script.passes.now }
    requires lines { progress.old.line + length ahead.now.bytes < 2 ^ 64 }
    ensures fits { OnOk result (Fits progress.new.kept script.entry.passes.now) }
    ensures chunk { IfOk result (λ next. IfSome next (IsFirstEdited (run_of script.entry)
        script.entry.max_statement ahead.now progress.old progress.new text.old.items text.new.items)) }
    ensures none { IfOk result (λ next. IfNone next
        (DoesNothing progress.old progress.new text.old.items text.new.items)) }
{
    let text_ahead = ahead.text();
    let Some(chunk) = first_chunk(script.bump, text_ahead, progress.line, script.max_depth)? else {
        return Ok(None);
    };
    let len = chunk.text.len();
    if len as u64 > script.max_statement {
        return Ok(None);
    }
    let edited = edit_tokens(script, chunk.text, chunk.tokens, progress, text)?;
    Ok(Some(NextChunk { len, edited }))
}

/// Runs the script on the chunk that has these tokens.
#[inline(always)]
fn edit_tokens<'a>(
    script: ScriptRun<'a>,
    chunk: &'a str,
    tokens: &[Token<'a>],
    progress: &mut Progress,
    text: &mut Vec<u8>,
) -> Result<Edited, NoMemory>
    requires fits { Fits progress.old.kept script.passes.now }
    requires lines { progress.old.line + length chunk.now < 2 ^ 64 }
    requires tokens { AreTokensOf progress.old.line script.max_depth chunk.now (map placed tokens.now) }
    ensures fits { OnOk result (Fits progress.new.kept script.entry.passes.now) }
    ensures lines { OnOk result (progress.new.line ≤ progress.old.line + length chunk.now) }
    ensures edited { IfOk result (EditsChunk (run_of script.entry) chunk.now progress.old progress.new
        text.old.items text.new.items) }
{
    let read = read_statement(script.alloc, script.bump, chunk, progress.line, tokens);
    edit_chunk(script, chunk, read, progress, text)
}

/// Runs the script on the chunk of these bytes.
pub(crate) fn edit_bytes(
    script: ScriptRun<'_>,
    chunk: &[u8],
    progress: &mut Progress,
    buffers: &mut ChunkBuffers,
    text: &mut Vec<u8>,
) -> Result<Edited, NoMemory>
    requires fits { Fits progress.old.kept script.passes.now }
    requires lines { progress.old.line + length chunk.now < 2 ^ 64 }
    ensures fits { OnOk result (Fits progress.new.kept script.entry.passes.now) }
    ensures lines { OnOk result (progress.new.line ≤ progress.old.line + length chunk.now) }
    ensures edited { IfOk result (EditsChunk (run_of script.entry) chunk.now progress.old progress.new
        text.old.items text.new.items) }
{
    let line = progress.line;
    let whole = match check_utf8(chunk) {
        Ok(whole) => whole,
        Err(valid) => return Ok(Edited::Faulty(not_utf8(line, &chunk[..valid]))),
    };
    if let Some(edited) = copy_whole(script, whole, progress, buffers, text)? {
        return Ok(edited);
    }
    let read = read_text(script.alloc, script.bump, whole, line, script.max_depth);
    edit_chunk(script, whole, read, progress, text)
}
