//! What a run keeps of the chunks that are done.

ghost use Rattle.std.specs.Prelude.{◌≡◌, ◌+◌, ◌<◌, ◌^◌, ◌++◌, ◌||◌, length, map, option_map, option_to_list, OnOk};
ghost use Rattle.bz_passes.specs.declared.entry.Entry.TheVariants.{Line};
ghost use Rattle.bz_token.specs.Places.{line_at};
ghost use Rattle.bz_passes.specs.Exchange.{pass_and};
ghost use Rattle.bz_passes.specs.OnePass.{and_at};
ghost use Rattle.bz_engine.specs.private.Found.{HasLogAt, log_of, one_log_of, one_told};

use crate::chunk::newlines;
use crate::failure::Message;
use crate::looks::Looks;
use crate::spare::Spare;
use bz_memory::NoMemory;
use bz_passes::kept::Kept;
use bz_passes::log::Log;
use bz_tree::Class;
use std::alloc::Global;
use std::marker::Model;
use std::mem;

/// What a run keeps of the chunks that are done.
#[derive(Drop)]
pub(crate) struct Progress {
    /// For each pass whether it marked something, and for each of its commands what was told.
    pub(crate) kept: Vec<Kept>,
    /// Some execution changed its statement.
    pub(crate) changed: bool,
    /// Some execution failed.
    pub(crate) failed: bool,
    /// The class of the last statement that is left.
    pub(crate) last: Option<Class>,
    /// The line on which the next chunk begins, from 1.
    pub(crate) line: u64,
    /// Guesses of the next chunk. Contracts do not see them.
    pub(crate) looks: Looks,
    /// Contracts do not see this either.
    pub(crate) spare: Spare,
    /// Lists of sealed rules stand in the arena. Contracts do not see it either.
    pub(crate) lists: bool,
}

impl Model for Progress {
    ghost use Rattle.bz_engine.specs.Progress as spec;

    ghost Value = { spec.Progress };

    ghost view = { λ p.
        record {
          kept = p.kept.items;
          changed = p.changed;
          failed = p.failed;
          last = p.last;
          line = p.line;
        } };
}

impl Progress {
    /// How many bytes its buffers have room for. Contracts see what is kept else.
    pub(crate) fn held(&self) -> usize {
        let Progress {
            kept: _,
            changed: _,
            failed: _,
            last: _,
            line: _,
            looks: _,
            spare,
            lists: _,
        } = self;
        spare.held()
    }

    /// The lines of a chunk are passed.
    pub(crate) fn pass_lines(&mut self, chunk: &[u8])
        requires { self.old.line + length chunk.now < 2 ^ 64 }
        ensures { self.new ≡ record self.old { line = line_at self.old.line chunk.now } }
    {
        self.line += newlines(chunk);
    }

    /// So many lines are passed.
    pub(crate) fn pass(&mut self, lines: u64)
        requires { self.old.line + lines < 2 ^ 64 }
        ensures { self.new ≡ record self.old { line = self.old.line + lines } }
    {
        self.line += lines;
    }

    /// The one command of the pass at this position ran on one statement more, and this line was told of it.
    pub(crate) fn keep_line(&mut self, at: usize, line: Option<&str>) -> Result<(), NoMemory>
        requires { HasLogAt self.old.kept at }
        ensures { OnOk result (self.new ≡ record self.old {
          kept = and_at at (one_told (option_map (λ text. text.now) line.entry)) self.old.kept;
        }) }
    {
        keep_line(&mut self.kept[at], line)
    }

    /// It left one statement more as it was, and this was told of it.
    pub(crate) fn keep_message(&mut self, at: usize, message: Message) -> Result<(), NoMemory>
        requires { HasLogAt self.old.kept at }
        ensures { OnOk result (self.new ≡ record self.old {
          kept = and_at at (one_log_of (log_of message)) self.old.kept;
          failed = self.old.failed || message.fails;
        }) }
    {
        self.failed |= message.fails;
        keep_message(&mut self.kept[at], message)
    }

    /// The buffers, until they are given back.
    pub(crate) fn take_spare(&mut self, alloc: Global) -> Spare
        ensures { self.new ≡ self.old }
    {
        mem::replace(&mut self.spare, Spare::new(alloc))
    }

    #[inline(always)]
    pub(crate) fn give_back(&mut self, spare: Spare)
        ensures { self.new ≡ self.old }
    {
        self.spare = spare;
    }

    /// The lists of a sealed rule are to stand in the arena.
    pub(crate) fn begin_lists(&mut self)
        ensures { self.new ≡ self.old }
    {
        self.lists = true;
    }

    /// Whether there are such lists: they are given up then.
    pub(crate) fn end_lists(&mut self) -> bool
        ensures { self.new ≡ self.old }
    {
        mem::replace(&mut self.lists, false)
    }

    /// Whether to see if it is known what would be written of the next chunk.
    pub(crate) fn is_worth_a_look(&mut self) -> bool
        ensures { self.new ≡ self.old }
    {
        self.looks.is_due()
    }

    /// It was not known, or the script was to see its statement.
    pub(crate) fn fail_look(&mut self)
        ensures { self.new ≡ self.old }
    {
        self.looks.fail();
    }

    /// It was known, and the script did without its statement.
    pub(crate) fn succeed_look(&mut self)
        ensures { self.new ≡ self.old }
    {
        self.looks.succeed();
    }

    /// A chunk begins, at which there was no look yet. Whether the bytes ahead seem to end before it does.
    pub(crate) fn begins_short(&mut self, ahead: &[u8]) -> bool
        ensures { self.new ≡ self.old }
    {
        self.looks.begins_short(ahead)
    }

    /// Whether the bytes ahead seem to end before their first chunk.
    pub(crate) fn is_likely_short(&mut self, ahead: &[u8]) -> bool
        ensures { self.new ≡ self.old }
    {
        self.looks.is_likely_short(ahead)
    }

    /// A chunk ended in the bytes ahead that seemed not to.
    pub(crate) fn end_ahead(&mut self)
        ensures { self.new ≡ self.old }
    {
        self.looks.end_ahead();
    }
}

/// The one command of a pass ran on one statement more, which the pass marked, and this line was told of it.
fn keep_line(kept: &mut Kept, line: Option<&str>) -> Result<(), NoMemory>
    requires { length kept.old.logs ≡ 1 }
    ensures { OnOk result (kept.new
        ≡ pass_and kept.old (one_told (option_map (λ text. text.now) line.entry))) }
{
    kept.found = true;
    log_line(line, &mut kept.logs[0])
}

fn log_line(line: Option<&str>, log: &mut Log) -> Result<(), NoMemory>
    ensures { OnOk result (log.new ≡ log.old
        ++ map Line (option_to_list (option_map (λ text. text.now) line.entry))) }
{
    if let Some(line) = line {
        log.push_line(line)?;
    }
    Ok(())
}

/// The one command of a pass ran on one statement more, which the pass marked, and this was told of it.
fn keep_message(kept: &mut Kept, message: Message) -> Result<(), NoMemory>
    requires { length kept.old.logs ≡ 1 }
    ensures { OnOk result (kept.new ≡ pass_and kept.old (one_log_of (log_of message))) }
{
    kept.found = true;
    log_message(message, &mut kept.logs[0])
}

fn log_message(message: Message, log: &mut Log) -> Result<(), NoMemory>
    ensures { OnOk result (log.new ≡ log.old ++ log_of message) }
{
    log_line(message.line, log)?;
    log.push(message.told)
}
