//! Standard output and standard error.

ghost use Rattle.std.specs.Prelude.{◌≡◌, ◌⊎◌, [], true, false, IfOk, OnOk, OnErr};
ghost use Rattle.bz_devices.specs.Buffer.{Took};
ghost use Rattle.bz_program.specs.Console.{Shows};
ghost use Rattle.bz_program.specs.Disk.{unused};
ghost use Rattle.bz_program.specs.Texts.{line_of, message_of, lines_text, messages_text, fixed_text};

use bz_devices::buffered::Buffered;
use bz_engine::{Failed, Report, Sink, Texts};
use bz_memory::NoMemory;
use std::alloc::Global;

/// Standard output and standard error, each with a buffer before it.
///
/// What is put on them takes no memory. Where one of them fails, `flush` tells.
#[derive(Drop)]
pub struct Console<O, E> {
    pub out: Buffered<O>,
    pub err: Buffered<E>,
}

impl<O: Sink, E: Sink> Console<O, E> {
    /// Both, with nothing kept back.
    pub fn new(alloc: Global, out: O, err: E) -> Result<Console<O, E>, NoMemory>
    where
        O: Drop,
        E: Drop,
        ensures { IfOk result (λ console. (console.out ≡ unused out) × (console.err ≡ unused err)) }
    {
        let out = Buffered::new(alloc, out)?;
        let err = Buffered::new(alloc, err)?;
        Ok(Console { out, err })
    }

    /// Puts what a run tells: each printed line on standard output, and each message on standard error, after the name
    /// of the file that it is of.
    pub fn put_report(&mut self, file: &str, report: &Report)
        ensures { Shows O.took E.took self.old (lines_text report.now.lines)
            (messages_text file.now report.now.messages) self.new }
    {
        put_lines(&mut self.out, &report.lines);
        put_messages(&mut self.err, file, &report.messages);
    }

    /// Puts a message on standard error, after the name of the file that it is of.
    pub fn put_message(&mut self, file: &str, message: &str)
        ensures { Shows O.took E.took self.old [] (message_of file.now message.now) self.new }
    {
        put_message(&mut self.err, file, message);
    }

    /// Puts on standard error that a file was replaced.
    pub fn put_fixed(&mut self, file: &str)
        ensures { Shows O.took E.took self.old [] (fixed_text file.now) self.new }
    {
        self.err.put(b"fixed ");
        put_line(&mut self.err, file);
    }

    /// Hands on what is kept back: first standard output, then standard error. An `Err` says that one of them failed,
    /// now or earlier.
    pub fn flush(&mut self) -> Result<(), Failed>
        ensures shows { Shows O.took E.took self.old [] [] self.new }
        ensures out { OnOk result ((self.new.out.waiting ≡ []) × (self.new.out.failed ≡ false)) }
        ensures err { OnOk result ((self.new.err.waiting ≡ []) × (self.new.err.failed ≡ false)) }
        ensures failed { OnErr result ((self.new.out.failed ≡ true) ⊎ (self.new.err.failed ≡ true)) }
    {
        let out = self.out.flush();
        let err = self.err.flush();
        out.and(err)
    }
}

fn put_line<W: Sink>(sink: &mut Buffered<W>, line: &str)
    ensures { Took W.took sink.old (line_of line.now) sink.new }
{
    sink.put(line.as_bytes());
    sink.put(b"\n");
}

fn put_lines<W: Sink>(sink: &mut Buffered<W>, lines: &Texts)
    ensures { Took W.took sink.old (lines_text lines.now) sink.new }
{
    for line in lines {
        put_line(sink, line);
    }
}

fn put_message<W: Sink>(sink: &mut Buffered<W>, file: &str, message: &str)
    ensures { Took W.took sink.old (message_of file.now message.now) sink.new }
{
    sink.put(file.as_bytes());
    sink.put(b": ");
    put_line(sink, message);
}

fn put_messages<W: Sink>(sink: &mut Buffered<W>, file: &str, messages: &Texts)
    ensures { Took W.took sink.old (messages_text file.now messages.now) sink.new }
{
    for message in messages {
        put_message(sink, file, message);
    }
}
