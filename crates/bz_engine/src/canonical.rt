//! Chunks of which it is known what would be written without reading them, of statements that the script leaves as they
//! are, of which it edits one argument, or does not see some arguments (`sealed.rt`): what it leaves is copied.
//! `next_chunk.rt` asks here first, of the first chunk of the text ahead (`copy_canonical`) and of one that was found
//! line by line (`copy_whole`), and reads what is left.

ghost use Rattle.std.specs.Prelude.{◌≡◌, ◌+◌, ◌<◌, ◌≤◌, ◌^◌, ◌==◌, ℕ, Some, count_by, length, option_map, IfOk, OnOk, IfSome, IfNone, IsTrue};
ghost use Rattle.bz_tree.specs.Tree.{Statement};
ghost use Rattle.bz_canonical.specs.Canonical.{HasName, IsCanonical};
ghost use Rattle.bz_passes.specs.Exchange.{Fits, IsPassedBy};
ghost use Rattle.bz_devices.specs.Ahead.{IsFewAfter};
ghost use Rattle.bz_engine.specs.Language.{meaning};
ghost use Rattle.bz_engine.specs.Failing.{changes, fails_on};
ghost use Rattle.bz_engine.specs.private.Edits.{DoesNothing, EditsWhole, run_of};
ghost use Rattle.bz_engine.specs.private.Found.{HasItsSpans, IsFound};
ghost use Rattle.bz_engine.specs.private.Named.{IsNamePassedBy};
ghost use Rattle.bz_engine.specs.private.NextChunks.{IsFirstEdited, IsKnownEdited, ScriptsFound};
ghost use Rattle.bz_engine.specs.private.Rows.{HasKey};
ghost use Rattle.bz_engine.specs.private.Sealed.{asked_names};

use crate::answered::copy_answered;
use crate::chunk::newlines;
use crate::edit::{Edited, ScriptRun, Scripted, edited_of};
use crate::marked_rule::MarkedRule;
use crate::marking::{Marking, find_marking};
use crate::next_chunk::NextChunk;
use crate::progress::Progress;
use crate::rules::Rules;
use crate::sealed::edit_sealed;
use crate::spare::ChunkBuffers;
use crate::written::put_canonical;
use bz_canonical::{ArgumentPlace, ArgumentSpan, AsksOfRules, CanonicalChunk, read_canonical};
use bz_devices::ahead::Ahead;
use bz_label::Text;
use bz_memory::NoMemory;
use bz_passes::index::Key;
use bz_passes::script::passes_by;
use bz_tree::Class;

/// Runs the script on the first chunk of the text ahead, where what would be written of it is known without its
/// statement, and what the script makes of that too, or its arguments that the script does not see stand in known
/// places. None, with nothing done: it is to be read.
#[inline(always)]
pub(crate) fn copy_canonical(
    ahead: &Ahead,
    script: ScriptRun<'_>,
    progress: &mut Progress,
    buffers: &mut ChunkBuffers,
    text: &mut Vec<u8>,
) -> Result<Option<NextChunk>, NoMemory>
    requires few { IsFewAfter ahead.now }
    requires fits { Fits progress.old.kept script.passes.now }
    requires lines { progress.old.line + length ahead.now.bytes < 2 ^ 64 }
    ensures fits { OnOk result (Fits progress.new.kept script.entry.passes.now) }
    ensures chunk { IfOk result (λ next. IfSome next (IsFirstEdited (run_of script.entry)
        script.entry.max_statement ahead.now progress.old progress.new text.old.items text.new.items)) }
    ensures none { IfOk result (λ next. IfNone next
        (DoesNothing progress.old progress.new text.old.items text.new.items)) }
{
    if !script.passes.may_be_known() || !progress.is_worth_a_look() {
        return Ok(None);
    }
    let ChunkBuffers { written, spans } = buffers;
    match read_canonical(ahead.text(), &script, script.max_depth, written, spans)? {
        Some(chunk) if chunk.chunk.len() as u64 <= script.max_statement => {
            let found = found_with(chunk, spans.as_slice());
            copy_known(script, found, progress, text)
        }
        _ => {
            progress.fail_look();
            Ok(None)
        }
    }
}

/// Runs the script on a chunk that was found line by line, where the same is known of it. None, with nothing done: it
/// is to be read.
pub(crate) fn copy_whole(
    script: ScriptRun<'_>,
    chunk: &str,
    progress: &mut Progress,
    buffers: &mut ChunkBuffers,
    text: &mut Vec<u8>,
) -> Result<Option<Edited>, NoMemory>
    requires fits { Fits progress.old.kept script.passes.now }
    requires lines { progress.old.line + length chunk.now < 2 ^ 64 }
    ensures { IfOk result (EditsWhole (run_of script.entry) chunk.now progress.old progress.new
        text.old.items text.new.items) }
{
    if !script.passes.may_be_known() {
        return Ok(None);
    }
    let ChunkBuffers { written, spans } = buffers;
    match read_canonical(chunk, &script, script.max_depth, written, spans)? {
        Some(known) if known.chunk.len() == chunk.len() => {
            let found = found_with(known, spans.as_slice());
            let next = copy_known(script, found, progress, text)?;
            Ok(edited_in(next))
        }
        _ => Ok(None),
    }
}

fn edited_in(next: Option<NextChunk>) -> Option<Edited>
    ensures { result ≡ option_map (λ next. next.edited) next }
{
    match next {
        None => None,
        Some(next) => Some(next.edited),
    }
}

/// Runs the script on the chunk that was found, for both calls above. `text` is the buffer for what is written of it.
/// None, with nothing done: the chunk is to be read.
#[inline(always)]
fn copy_known(
    script: ScriptRun<'_>,
    found: Found<'_>,
    progress: &mut Progress,
    text: &mut Vec<u8>,
) -> Result<Option<NextChunk>, NoMemory>
    requires fits { Fits progress.old.kept script.passes.now }
    requires lines { progress.old.line + length found.chunk.chunk.now < 2 ^ 64 }
    requires left { IsTrue found.chunk.left → IsNamePassedBy script.home.now script.passes.now
        (option_map (λ name. name.now) found.chunk.name) }
    requires spans { HasItsSpans script.max_depth script.passes.now found }
    ensures fits { OnOk result (Fits progress.new.kept script.entry.passes.now) }
    ensures chunk { IfOk result (λ next. IfSome next (IsKnownEdited (run_of script.entry) found.entry
        progress.old progress.new text.old.items text.new.items)) }
    ensures none { IfOk result (λ next. IfNone next
        (DoesNothing progress.old progress.new text.old.items text.new.items)) }
{
    let lines = newlines(found.chunk.chunk.as_bytes());
    let Some(scripted) = script_known(script, &found, lines, progress, text)? else {
        progress.fail_look();
        return Ok(None);
    };
    progress.succeed_look();
    progress.pass(lines);
    Ok(Some(NextChunk {
        len: found.chunk.chunk.len(),
        edited: edited_of(script.alloc, scripted, progress)?,
    }))
}

/// Runs the script on the statement of a chunk that was found, by the first of these: no pass marks it, one alone does and
/// `copy_answered` knows what that makes of it, or the script does not see some of its arguments. The chunk has so many
/// lines. None, with nothing done: it is to be read.
#[inline(always)]
fn script_known<'a>(
    script: ScriptRun<'a>,
    found: &'a Found<'a>,
    lines: u64,
    progress: &mut Progress,
    text: &mut Vec<u8>,
) -> Result<Option<Scripted>, NoMemory>
    requires fits { Fits progress.old.kept script.passes.now }
    requires fitting { progress.old.line + length found.now.chunk.chunk.now < 2 ^ 64 }
    requires lines { lines ≡ count_by (λ b. b == 10) found.now.chunk.chunk.now }
    requires left { IsTrue found.now.chunk.left → IsNamePassedBy script.home.now script.passes.now
        (option_map (λ name. name.now) found.now.chunk.name) }
    requires spans { HasItsSpans script.max_depth script.passes.now found.now }
    ensures { IfOk result (ScriptsFound (run_of script.entry) found.now progress.old progress.new
        text.old.items text.new.items) }
{
    if is_passed_by(script, found) {
        put_canonical(script, found.chunk, progress, text)?;
        return Ok(Some(Scripted::Done));
    }
    match find_marking(script, found, progress.line, lines) {
        Marking::Unmarked => {
            put_canonical(script, found.chunk, progress, text)?;
            return Ok(Some(Scripted::Done));
        }
        Marking::Alone(only) => {
            if copy_answered(script, MarkedRule { only, found }, progress, text)? {
                return Ok(Some(Scripted::Done));
            }
        }
        Marking::Unknown => {}
    }
    if found.chunk.noted {
        return edit_sealed(script, found, lines, progress, text);
    }
    Ok(None)
}

/// A chunk of which it is known what would be written, and the argument that is looked for in it.
#[derive(Clone, Copy)]
pub(crate) struct Found<'a> {
    pub(crate) chunk: CanonicalChunk<'a>,
    /// The name of the argument. Empty: none is looked for yet.
    pub(crate) attr: &'a str,
    /// Where it stands, or would stand. None: it is not known.
    pub(crate) place: Option<ArgumentPlace<'a>>,
    /// Where all arguments stand, if that was noted.
    pub(crate) spans: &'a [ArgumentSpan],
}

/// A chunk that was found, and where its arguments stand. No argument is looked for yet.
#[inline(always)]
fn found_with<'a>(chunk: CanonicalChunk<'a>, spans: &'a [ArgumentSpan]) -> Found<'a>
    ensures chunk { result.chunk ≡ chunk.entry }
    ensures place { result.place ≡ None }
    ensures spans { result.spans.now ≡ spans.now }
{
    Found {
        chunk,
        attr: "",
        place: None,
        spans,
    }
}

/// No pass of the script may mark the statement.
fn is_passed_by(script: ScriptRun<'_>, found: &Found<'_>) -> bool
    requires { IsTrue found.now.chunk.left → IsNamePassedBy script.home.now script.passes.now
        (option_map (λ name. name.now) found.now.chunk.name) }
    ensures { IsTrue result → (s : Statement) → IsFound script.entry.max_depth found.now s
        → IsPassedBy (meaning script.entry.home.now) (changes script.entry.home.now) (fails_on script.entry.home.now)
        script.entry.passes.now (Some s) }
{
    match found.chunk.class {
        Class::Rule => {
            found.chunk.left
                || (script.passes.ask_for_names() && is_name_passed_by(script, found.chunk.name))
        }
        // Targets mark rules alone.
        _ => true,
    }
}

impl AsksOfRules for ScriptRun<'_> {
    ghost use Rattle.bz_engine.specs.private.Named.{IsNamePassedBy};
    ghost use Rattle.bz_engine.specs.private.Sealed.{asked_names};

    ghost leaves = { λ script name. IsNamePassedBy script.home.now script.passes.now name };

    ghost names = { λ script. asked_names script.passes.now };

    fn asks_of(&self, name: Option<&str>) -> bool {
        !is_name_passed_by(*self, name)
    }

    #[inline(always)]
    fn names(&self) -> &[Text] {
        self.passes.names()
    }
}

/// No pass of the script may mark a statement of this name.
fn is_name_passed_by(script: ScriptRun<'_>, name: Option<&str>) -> bool
    ensures { IsTrue result → IsNamePassedBy script.entry.home.now script.entry.passes.now
        (option_map (λ name. name.now) name.entry) }
{
    let rules = Rules {
        alloc: script.alloc,
        home: script.home,
    };
    passes_by(&rules, script.passes.indexed(), name_key(name))
}

/// The key of a rule of this name, or of what has none.
pub(crate) fn name_key(name: Option<&str>) -> Key<'_>
    ensures { (s : Statement) → HasName (option_map (λ name. name.now) name.entry) s → HasKey s result }
{
    match name {
        Some(name) => Key::Name(name),
        None => Key::NoName,
    }
}
