//! A run, a chunk at a time. `run` (`runner.rt`) makes a session, steps it to its end and finishes it. A step finds the
//! next chunk (`next_chunk.rt`, and bz_devices `ahead` where more is to be read), has the script run on it (`edit.rt`),
//! and writes its text. It sets the state to `Stopped` first, and back to `Going` once the text is written: after a
//! fault the session stays stopped, and is of no use.

ghost use Rattle.bz_memory.specs.NoMemory.{no_memory};
ghost use Rattle.std.specs.Prelude.{◌≡◌, ◌≢◌, ℕ, ◌+◌, ◌<◌, ◌≤◌, ◌^◌, false, List, [], ◌∷◌, length, take, drop, IfOk, OnOk, OnErr, IfSome, IfNone, IsTrue};
ghost use Rattle.bz_devices.specs.Device.{Rises};
ghost use Rattle.bz_passes.specs.Exchange.{Fits};
ghost use Rattle.bz_devices.specs.Ahead.{IsReadOn, IsNextChunk, IsFewAfter};
ghost use Rattle.bz_engine.specs.Outcome.{run_with, told_by};
ghost use Rattle.bz_engine.specs.private.ChunkFaults.{fault_at};
ghost use Rattle.bz_engine.specs.private.Edits.{DoesNothing, EditsChunk, run_of};
ghost use Rattle.bz_engine.specs.private.Finds.{Finds, FindsNext};
ghost use Rattle.bz_engine.specs.private.NextChunks.{IsNext, IsNextEdited, CanTake};
ghost use Rattle.bz_engine.specs.SessionValue.{at_start, run_in, IsSameRun, IsReady, told_at};
ghost use Rattle.bz_engine.specs.SessionSteps.{Steps, reader, writer};
ghost use Rattle.bz_engine.specs.declared.session.SessionState.TheVariants.{Going, Ended, Stopped};

use crate::canonical::copy_canonical;
use crate::edit::{Edited, ScriptRun};
use crate::looks::Looks;
use crate::next_chunk::{NextChunk, edit_bytes, edit_first};
use crate::options::Options;
use crate::progress::Progress;
use crate::report::{End, Report};
use crate::rule_passes::RulePasses;
use crate::rules::Rules;
use crate::run_fault::RunFault;
use crate::spare::{ChunkBuffers, Spare};
use crate::telling::{report_of_all, report_of_fault, report_of_one};
use bumpalo::Bump;
use bz_devices::ahead::{Ahead, ChunkFault, next_chunk, read_where_open};
use bz_devices::device::{Failed, Sink, Source};
use bz_devices::limits::Limits;
use bz_devices::output::write_all;
use bz_memory::NoMemory;
use bz_passes::kept::nothing_kept;
use bz_passes::pass::Pass;
use bz_rule::{Command, Package, Target, Text};
use std::alloc::Global;
use std::marker::Model;
use std::mem;

/// Whether a session goes on.
#[derive(Clone, Copy)]
pub(crate) enum SessionState {
    Going,
    Ended(End),
    /// A fault ended it before its report.
    Stopped,
}

/// What a step did.
#[derive(Clone, Copy, Debug, PartialEq, Eq)]
pub enum Step {
    /// One chunk was taken and is done.
    More,
    /// The input ended, or a syntax fault or, where failures end the run, a failure was met.
    End,
}

/// A run, a chunk at a time. It keeps the bytes that it works on, and what it is to tell at its end.
#[derive(Drop)]
pub struct Session {
    alloc: Global,
    home: Package,
    passes: RulePasses,
    /// The limits of a chunk and of the reads, and whether a failure ends the run.
    options: Options,
    progress: Progress,
    ahead: Ahead,
    state: SessionState,
    /// The message of the failure that ended the run.
    failure: Option<Text>,
    /// The text of one chunk; used again for each.
    text: Vec<u8>,
    /// Where it is noted what is known of one chunk; used again for each.
    buffers: ChunkBuffers,
    /// The lists that are made of one chunk.
    bump: Bump,
}

impl Model for Session {
    ghost use Rattle.bz_engine.specs.SessionValue as spec;

    ghost Value = { spec.SessionValue };

    ghost view = { λ s.
        record {
          home = s.home;
          passes = s.passes;
          options = s.options;
          progress = s.progress;
          ahead = s.ahead;
          state = s.state;
          failure = s.failure;
        } };

    ghost invariant = { λ s. spec.IsSession
        (record {
          home = s.home;
          passes = s.passes;
          options = s.options;
          progress = s.progress;
          ahead = s.ahead;
          state = s.state;
          failure = s.failure;
        }) };
}

impl Session {
    /// A session before its first chunk. By the limit an input has at most 2^63 bytes, 8,192 a read: so the number of a
    /// line never overflows.
    pub fn new(
        alloc: Global,
        home: Package,
        passes: Vec<Pass<Target, Command>>,
        options: Options,
    ) -> Result<Session, NoMemory>
        requires { options.max_reads ≤ 2 ^ 50 }
        ensures { IfOk result (λ session. session ≡ at_start home passes.items options) }
    {
        let kept = nothing_kept(alloc, passes.as_slice())?;
        let passes = RulePasses::new(alloc, passes)?;
        Ok(Session {
            alloc,
            home,
            passes,
            options,
            progress: Progress {
                kept,
                changed: false,
                failed: false,
                last: None,
                line: 1,
                looks: Looks::new(),
                spare: Spare::new(alloc),
                lists: false,
            },
            ahead: Ahead::new(alloc),
            state: SessionState::Going,
            failure: None,
            text: Vec::new(alloc),
            buffers: ChunkBuffers::new(alloc),
            bump: Bump::new(alloc),
        })
    }

    /// How many bytes it holds beside the script and what it is to tell, which contracts see: those of the input, and those
    /// that its buffers have room for. Each field is named, so that a new one does not compile until it is counted here.
    pub fn held(&self) -> usize
        ensures { length self.now.ahead.bytes ≤ result }
    {
        let Session {
            alloc: _,
            home: _,
            passes: _,
            options: _,
            progress,
            ahead,
            state: _,
            failure: _,
            text,
            buffers,
            bump,
        } = self;
        let texts = progress.held().saturating_add(text.capacity());
        ahead
            .held()
            .saturating_add(texts)
            .saturating_add(buffers.held())
            .saturating_add(bump.allocated_bytes())
    }

    /// Takes one chunk of the input, runs the script on it and writes what it leaves.
    pub fn step<S: Source, W: Sink>(
        &mut self,
        source: &mut S,
        sink: &mut W,
    ) -> Result<Step, RunFault>
        ensures same { IsSameRun self.old self.new }
        // Once the session was stopped, nothing is read or written.
        ensures stopped { self.old.state ≡ Stopped
            → (result ≡ Err RunFault.Stopped) × (source.new ≡ source.old) × (sink.new ≡ sink.old) }
        // Nor once it has ended, and it stays as it is.
        ensures ended { (end : _) → self.old.state ≡ Ended end
            → (result ≡ Ok Step.End) × (self.new ≡ self.old) × (source.new ≡ source.old)
            × (sink.new ≡ sink.old) }
        // Else it takes one chunk, comes to the end or answers a fault.
        ensures steps { self.old.state ≡ Going → Steps (reader S.gave S.failures source.old source.new)
            (writer W.took W.failures sink.old sink.new) self.old self.new result }
        ensures stops { OnErr result (self.new.state ≡ Stopped) }
    {
        match self.state {
            SessionState::Stopped => return Err(RunFault::Stopped),
            SessionState::Ended(_) => return Ok(Step::End),
            SessionState::Going => {}
        }
        self.advance(source, sink)
    }

    /// What the run tells, once it has ended.
    pub fn finish(mut self) -> Result<Report, RunFault>
        ensures report { (end : _) → self.state ≡ Ended end
            → IfOk result (λ report. told_by report ≡ told_at self end) }
        // Where it has ended, only a lack of memory keeps the report back; else it is refused.
        ensures memory { (end : _) → self.state ≡ Ended end
            → OnErr result (result ≡ Err (RunFault.OutOfMemory no_memory)) }
        ensures stopped { ((end : _) → self.state ≢ Ended end) → result ≡ Err RunFault.Stopped }
    {
        self.take_report()
    }

    /// What the run tells, once it has ended; then the session is of no use.
    fn take_report(&mut self) -> Result<Report, RunFault>
        ensures report { (end : _) → self.old.state ≡ Ended end
            → IfOk result (λ report. told_by report ≡ told_at self.old end) }
        ensures memory { (end : _) → self.old.state ≡ Ended end
            → OnErr result (result ≡ Err (RunFault.OutOfMemory no_memory)) }
        ensures stopped { ((end : _) → self.old.state ≢ Ended end) → result ≡ Err RunFault.Stopped }
    {
        let SessionState::Ended(end) = self.state else {
            return Err(RunFault::Stopped);
        };
        self.state = SessionState::Stopped;
        self.report_at(end)
    }

    /// The report of a session that ended in this way. `take_report` stops it first: what was kept moves into the
    /// report, and a session that counts as ended has to have it still (`IsSession`).
    ///
    /// What is kept has a place for each pass and each of its commands (`Fits`), and is told with them in turn. So each
    /// step leaves it.
    fn report_at(&mut self, end: End) -> Result<Report, RunFault>
        requires stopped { self.old.state ≡ Stopped }
        requires fits { Fits self.old.progress.kept self.old.passes }
        ensures told { IfOk result (λ report. told_by report ≡ told_at self.old end) }
        ensures memory { OnErr result (result ≡ Err (RunFault.OutOfMemory no_memory)) }
    {
        let report = match end {
            End::Whole => {
                let rules = Rules {
                    alloc: self.alloc,
                    home: &self.home,
                };
                report_of_all(rules, self.passes.as_slice(), &mut self.progress)
            }
            End::Syntax(fault) => report_of_fault(self.alloc, fault, self.progress.changed),
            End::FirstFailure => {
                let failure = self.failure.take();
                report_of_one(self.alloc, failure, self.progress.changed, end)
            }
        }?;
        Ok(report)
    }

    /// Takes the next chunk, runs the script on it and writes what it leaves.
    fn advance<S: Source, W: Sink>(
        &mut self,
        source: &mut S,
        sink: &mut W,
    ) -> Result<Step, RunFault>
        requires going { self.old.state ≡ Going }
        ensures same { IsSameRun self.old self.new }
        ensures steps { Steps (reader S.gave S.failures source.old source.new)
            (writer W.took W.failures sink.old sink.new) self.old self.new result }
        ensures stops { OnErr result (self.new.state ≡ Stopped) }
    {
        if self.is_at_empty_line() {
            self.pass_empty_line();
            return Ok(Step::More);
        }
        // After a fault what is kept is of no use.
        self.state = SessionState::Stopped;
        let mut text = self.take_text();
        let Some(NextChunk { len, edited }) = self.edit_next(source, &mut text)? else {
            return Ok(self.end_at(End::Whole));
        };
        match edited {
            Edited::Done => {
                self.write(len, text.as_slice(), sink)?;
                self.text = text;
                self.state = SessionState::Going;
                Ok(Step::More)
            }
            Edited::Faulty(fault) => Ok(self.end_at(End::Syntax(fault))),
            Edited::Failed(message) => {
                self.failure = message;
                Ok(self.end_at(End::FirstFailure))
            }
        }
    }

    /// Whether the next chunk is an empty line, and not too long: nothing is written of it.
    fn is_at_empty_line(&self) -> bool
        ensures { IsTrue result → (rest : List ℕ) × (self.now.ahead.bytes ≡ 10 ∷ rest)
            × (0 < self.now.options.max_statement) }
    {
        0 < self.options.max_statement && begins_with_newline(self.ahead.bytes())
    }

    /// The empty line ahead is taken.
    fn pass_empty_line(&mut self)
        requires going { self.old.state ≡ Going }
        requires some { 0 < length self.old.ahead.bytes }
        ensures { self.new ≡ record self.old {
          progress = record self.old.progress { line = self.old.progress.line + 1 };
          ahead = record self.old.ahead { bytes = drop 1 self.old.ahead.bytes };
        } }
    {
        self.progress.line += 1;
        self.ahead.take(1);
    }

    /// The session has ended in this way. `advance` calls it with what is kept in place for each pass and command: so
    /// `finish` tells it (`IsSession`).
    fn end_at(&mut self, end: End) -> Step
        requires { Fits self.old.progress.kept self.old.passes }
        ensures ended { self.new ≡ record self.old { state = Ended end } }
        ensures end { result ≡ Step.End }
    {
        self.state = SessionState::Ended(end);
        Step::End
    }

    /// Takes the buffer for the text of a chunk, empty. `advance` gives it back once it is written.
    fn take_text(&mut self) -> Vec<u8>
        ensures same { self.new ≡ self.old }
        ensures empty { result.items ≡ [] }
    {
        let mut text = mem::replace(&mut self.text, Vec::new(self.alloc));
        text.clear();
        text
    }

    /// Runs the script on the first chunk of the text ahead, where that is likely to have its end and the chunk is
    /// copied (`canonical.rt`). None, with nothing done: else.
    #[inline(always)]
    fn copy_ahead(&mut self, text: &mut Vec<u8>) -> Result<Option<NextChunk>, NoMemory>
        requires stopped { self.old.state ≡ Stopped }
        requires ready { CanTake self.old }
        ensures same { self.new ≡ record self.old { progress = self.new.progress } }
        ensures fits { OnOk result (Fits self.new.progress.kept self.new.passes) }
        ensures chunk { IfOk result (λ next. IfSome next (IsNextEdited self.old self.new
            text.old.items text.new.items)) }
        ensures none { IfOk result (λ next. IfNone next
            (DoesNothing self.old.progress self.new.progress text.old.items text.new.items)) }
    {
        if self.progress.begins_short(self.ahead.bytes()) {
            return Ok(None);
        }
        self.clear_lists();
        let options = self.options;
        let script = script_run(self.alloc, &self.bump, &self.home, &self.passes, options);
        copy_canonical(
            &self.ahead,
            script,
            &mut self.progress,
            &mut self.buffers,
            text,
        )
    }

    /// The lists of sealed rules are given up, if there are any.
    fn clear_lists(&mut self)
        ensures { self.new ≡ self.old }
    {
        if self.progress.end_lists() {
            clear(self.alloc, &mut self.bump);
        }
    }

    /// Runs the script on the next chunk for `advance`; none where the input has ended. Most chunks are copied.
    fn edit_next<S: Source>(
        &mut self,
        source: &mut S,
        text: &mut Vec<u8>,
    ) -> Result<Option<NextChunk>, RunFault>
        requires ready { IsReady self.old }
        requires made { self.old.ahead.reads ≤ self.old.options.max_reads }
        requires stopped { self.old.state ≡ Stopped }
        ensures same { self.new ≡ record self.old { ahead = self.new.ahead; progress = self.new.progress } }
        ensures finds { FindsNext S.gave S.failures source.old source.new self.old self.new result }
        ensures fits { OnOk result (Fits self.new.progress.kept self.new.passes) }
        ensures next { IfOk result (IsNext self.old self.new text.old.items text.new.items) }
    {
        if let Some(next) = self.copy_ahead(text)? {
            return Ok(Some(next));
        }
        self.edit_uncopied(source, text)
    }

    /// Runs the script on the next chunk; none where the input has ended. Where the bytes ahead seem to
    /// end before the chunk (`looks.rt` guesses), more is read first: to look at the front of a chunk would be in vain.
    /// Where they still seem to, the chunk is long, and its end is found line by line.
    #[inline(never)]
    fn edit_uncopied<S: Source>(
        &mut self,
        source: &mut S,
        text: &mut Vec<u8>,
    ) -> Result<Option<NextChunk>, RunFault>
        requires ready { IsReady self.old }
        requires made { self.old.ahead.reads ≤ self.old.options.max_reads }
        requires stopped { self.old.state ≡ Stopped }
        ensures same { self.new ≡ record self.old { ahead = self.new.ahead; progress = self.new.progress } }
        ensures finds { FindsNext S.gave S.failures source.old source.new self.old self.new result }
        ensures fits { OnOk result (Fits self.new.progress.kept self.new.passes) }
        ensures next { IfOk result (IsNext self.old self.new text.old.items text.new.items) }
    {
        if read_short(&mut self.progress, &mut self.ahead, source, self.options)? {
            return self.edit_by_lines(source, text);
        }
        self.edit_here_or_by_lines(source, text)
    }

    /// Runs the script on the next chunk. Most chunks end in the text ahead: then nothing is read, and the walk that
    /// finds the end makes the tokens. The end of another is found line by line.
    fn edit_here_or_by_lines<S: Source>(
        &mut self,
        source: &mut S,
        text: &mut Vec<u8>,
    ) -> Result<Option<NextChunk>, RunFault>
        requires ready { CanTake self.old }
        requires made { self.old.ahead.reads ≤ self.old.options.max_reads }
        requires stopped { self.old.state ≡ Stopped }
        requires bound { length self.old.ahead.bytes ≤ self.old.options.max_statement + 8192 }
        ensures same { self.new ≡ record self.old { ahead = self.new.ahead; progress = self.new.progress } }
        ensures finds { FindsNext S.gave S.failures source.old source.new self.old self.new result }
        ensures fits { OnOk result (Fits self.new.progress.kept self.new.passes) }
        ensures next { IfOk result (IsNext self.old self.new text.old.items text.new.items) }
    {
        match self.edit_ahead(text)? {
            Some(next) => Ok(Some(next)),
            None => self.edit_by_lines(source, text),
        }
    }

    /// Runs the script on the next chunk, whose end is found line by line; none where the input has ended.
    /// In the midst of a step more may be ahead than of a session that goes on (`IsReady`): so `advance` has it stopped
    /// until the chunk is taken.
    fn edit_by_lines<S: Source>(
        &mut self,
        source: &mut S,
        text: &mut Vec<u8>,
    ) -> Result<Option<NextChunk>, RunFault>
        requires stopped { self.old.state ≡ Stopped }
        requires ready { CanTake self.old }
        requires bound { length self.old.ahead.bytes ≤ self.old.options.max_statement + 8192 }
        ensures same { self.new ≡ record self.old { ahead = self.new.ahead; progress = self.new.progress } }
        ensures finds { FindsNext S.gave S.failures source.old source.new self.old self.new result }
        ensures fits { OnOk result (Fits self.new.progress.kept self.new.passes) }
        ensures next { IfOk result (IsNext self.old self.new text.old.items text.new.items) }
    {
        let search = Search {
            options: self.options,
            line: self.progress.line,
        };
        let Some(len) = find_chunk(&mut self.ahead, source, search)? else {
            return Ok(None);
        };
        let edited = self.edit(len, text)?;
        Ok(Some(NextChunk { len, edited }))
    }

    /// Runs the script on the first chunk of the text ahead: it is copied (`canonical.rt`), or else read.
    fn edit_ahead(&mut self, text: &mut Vec<u8>) -> Result<Option<NextChunk>, NoMemory>
        requires stopped { self.old.state ≡ Stopped }
        requires ready { CanTake self.old }
        ensures same { self.new ≡ record self.old { progress = self.new.progress } }
        ensures unread { IsReadOn self.old.options.max_reads self.old.ahead self.new.ahead [] }
        ensures fits { OnOk result (Fits self.new.progress.kept self.new.passes) }
        ensures chunk { IfOk result (λ next. IfSome next (IsNextEdited self.old self.new
            text.old.items text.new.items)) }
        ensures none { IfOk result (λ next. IfNone next (DoesNothing self.old.progress self.new.progress
            text.old.items text.new.items)) }
    {
        self.clear_lists();
        let options = self.options;
        let script = script_run(self.alloc, &self.bump, &self.home, &self.passes, options);
        match copy_canonical(
            &self.ahead,
            script,
            &mut self.progress,
            &mut self.buffers,
            text,
        )? {
            Some(next) => Ok(Some(next)),
            None => self.read_and_edit(text),
        }
    }

    /// Reads the first chunk of the text ahead, and runs the script on it (`next_chunk.rt`).
    #[inline(never)]
    fn read_and_edit(&mut self, text: &mut Vec<u8>) -> Result<Option<NextChunk>, NoMemory>
        requires stopped { self.old.state ≡ Stopped }
        requires ready { CanTake self.old }
        ensures same { self.new ≡ record self.old { progress = self.new.progress } }
        ensures unread { IsReadOn self.old.options.max_reads self.old.ahead self.new.ahead [] }
        ensures fits { OnOk result (Fits self.new.progress.kept self.new.passes) }
        ensures chunk { IfOk result (λ next. IfSome next (IsNextEdited self.old self.new
            text.old.items text.new.items)) }
        ensures none { IfOk result (λ next. IfNone next (DoesNothing self.old.progress self.new.progress
            text.old.items text.new.items)) }
    {
        // The lists of the last chunk that was read are given up.
        clear(self.alloc, &mut self.bump);
        let options = self.options;
        let script = script_run(self.alloc, &self.bump, &self.home, &self.passes, options);
        edit_first(&self.ahead, script, &mut self.progress, text)
    }

    /// Runs the script on the chunk of the first bytes ahead.
    fn edit(&mut self, len: usize, text: &mut Vec<u8>) -> Result<Edited, NoMemory>
        requires stopped { self.old.state ≡ Stopped }
        requires within { len ≤ length self.old.ahead.bytes }
        requires fits { Fits self.old.progress.kept self.old.passes }
        requires lines { self.old.progress.line + len < 2 ^ 64 }
        ensures same { self.new ≡ record self.old { progress = self.new.progress } }
        ensures fits { OnOk result (Fits self.new.progress.kept self.new.passes) }
        ensures lines { OnOk result (self.new.progress.line ≤ self.old.progress.line + len) }
        ensures edited { IfOk result (EditsChunk (run_in self.old) (take len self.old.ahead.bytes)
            self.old.progress self.new.progress text.old.items text.new.items) }
    {
        let options = self.options;
        let script = script_run(self.alloc, &self.bump, &self.home, &self.passes, options);
        edit_bytes(
            script,
            &self.ahead.bytes()[..len],
            &mut self.progress,
            &mut self.buffers,
            text,
        )
    }

    /// Writes the text of the chunk, which is then taken.
    fn write<W: Sink>(&mut self, len: usize, text: &[u8], sink: &mut W) -> Result<(), RunFault>
        requires stopped { self.old.state ≡ Stopped }
        requires within { len ≤ length self.old.ahead.bytes }
        ensures taken { OnOk result
            (self.new ≡ record self.old { ahead = record self.old.ahead { bytes = drop len self.old.ahead.bytes } }) }
        ensures same { OnErr result (self.new ≡ self.old) }
        ensures ok { OnOk result (W.took sink.old text.now sink.new) }
        ensures front { OnErr result ((n : ℕ) × (n < length text.now)
            × W.took sink.old (take n text.now) sink.new) }
        ensures devices { (shown : List ℕ) × W.took sink.old shown sink.new }
        ensures steady { OnOk result (W.failures sink.new ≡ W.failures sink.old) }
        ensures fault { OnErr result (result ≡ Err RunFault.WriteFailed) }
        ensures failed { OnErr result (Rises (W.failures sink.old) (W.failures sink.new)) }
    {
        match write_all(sink, text) {
            Ok(()) => {
                self.ahead.take(len);
                Ok(())
            }
            Err(Failed) => Err(RunFault::WriteFailed),
        }
    }
}

fn begins_with_newline(bytes: &[u8]) -> bool
    ensures { IsTrue result → (rest : List ℕ) × (bytes.now ≡ 10 ∷ rest) }
{
    matches!(bytes, [b'\n', ..])
}

/// What a run is to do with each chunk.
fn script_run<'a>(
    alloc: Global,
    bump: &'a Bump,
    home: &'a Package,
    passes: &'a RulePasses,
    options: Options,
) -> ScriptRun<'a>
    ensures run { run_of result ≡ run_with home.now passes.now options }
    ensures size { result.max_statement ≡ options.max_statement }
{
    ScriptRun {
        alloc,
        bump,
        home,
        passes,
        keep_going: options.keep_going,
        max_depth: options.max_depth,
        max_statement: options.max_statement,
    }
}

/// The next chunk that is looked for, which begins on this line.
#[derive(Clone, Copy)]
struct Search {
    options: Options,
    line: u64,
}

impl Search {
    fn limits(self) -> Limits
        ensures { result ≡ record { statement = self.options.max_statement; reads = self.options.max_reads } }
    {
        Limits {
            statement: self.options.max_statement,
            reads: self.options.max_reads,
        }
    }
}

/// The length of the next chunk in bytes; none where the input has ended.
fn find_chunk<S: Source>(
    ahead: &mut Ahead,
    source: &mut S,
    search: Search,
) -> Result<Option<usize>, RunFault>
    requires made { ahead.old.reads ≤ search.options.max_reads }
    requires few { IsFewAfter ahead.old }
    requires bound { length ahead.old.bytes ≤ search.options.max_statement + 8192 }
    ensures finds { Finds S.gave S.failures search.options search.line
        source.old source.new ahead.old ahead.new result }
    ensures chunk { IfOk result (λ found. IfSome found (IsNextChunk search.options.max_statement ahead.new)) }
    ensures none { IfOk result (λ found. IfNone found ((ahead.new.bytes ≡ []) × IsTrue ahead.new.ended)) }
{
    match next_chunk(ahead, source, search.limits()) {
        Ok(found) => Ok(found),
        Err(fault) => Err(fault_at(fault, search.line)),
    }
}

/// Reads once, where the bytes ahead seem to end before their first chunk, and none is sure to end in them. Answers
/// whether they still seem to.
fn read_short<S: Source>(
    progress: &mut Progress,
    ahead: &mut Ahead,
    source: &mut S,
    options: Options,
) -> Result<bool, RunFault>
    requires made { ahead.old.reads ≤ options.max_reads }
    requires few { IsFewAfter ahead.old }
    requires bound { length ahead.old.bytes ≤ options.max_statement + 8192 }
    ensures same { progress.new ≡ progress.old }
    ensures finds { Finds S.gave S.failures options progress.old.line
        source.old source.new ahead.old ahead.new result }
    ensures few { OnOk result (IsFewAfter ahead.new) }
{
    if !progress.is_likely_short(ahead.bytes()) {
        return Ok(false);
    }
    let line = progress.line;
    if !read_more(ahead, source, Search { options, line })? {
        progress.end_ahead();
        return Ok(false);
    }
    Ok(progress.is_likely_short(ahead.bytes()))
}

/// Reads once, where no chunk is sure to end in the bytes ahead; answers whether it did.
fn read_more<S: Source>(ahead: &mut Ahead, source: &mut S, search: Search) -> Result<bool, RunFault>
    requires made { ahead.old.reads ≤ search.options.max_reads }
    requires few { IsFewAfter ahead.old }
    requires bound { length ahead.old.bytes ≤ search.options.max_statement + 8192 }
    ensures finds { Finds S.gave S.failures search.options search.line
        source.old source.new ahead.old ahead.new result }
    ensures few { OnOk result (IsFewAfter ahead.new) }
    ensures fitting { (at : ℕ) → result ≢ Err (RunFault.StatementTooLong at) }
{
    match read_where_open(ahead, source, search.limits()) {
        Ok(read) => Ok(read),
        Err(fault) => Err(fault_at(fault, search.line)),
    }
}

/// What a run answers where it finds no chunk that begins on this line.
fn fault_at(fault: ChunkFault, line: u64) -> RunFault
    ensures { result ≡ fault_at line fault }
{
    match fault {
        ChunkFault::OutOfMemory(why) => RunFault::OutOfMemory(why),
        ChunkFault::ReadFailed => RunFault::ReadFailed,
        ChunkFault::InputTooLong => RunFault::InputTooLong,
        ChunkFault::StatementTooLong => RunFault::StatementTooLong { line },
    }
}

/// Gives up what an arena holds.
fn clear(alloc: Global, bump: &mut Bump) {
    if bump.reset().is_err() {
        // Something in it was forgotten and holds it: so another takes its place.
        *bump = Bump::new(alloc);
    }
}
