//! Readers and writers of std, and sinks that take little.

use crate::drip::Drip;
use crate::tests::checks::{check, ran};
use bz_engine::{Failed, FromRead, RunFault, Sink, Source, ToWrite, write_all};
use std::alloc::Global;
use std::io::{self, ErrorKind, Read, Write};
use std::process::Abort;
use std::test::Fail;

/// A word is written to this sink: the answer, how many writes it took, how many failed, and what the sink has then.
fn check_written(
    rt: &impl Abort,
    mut drip: Drip,
    answer: Result<(), Failed>,
    writes: (u64, u64),
    taken: &[u8],
) {
    let found = write_all(&mut drip, b"cc_library");
    let counts = (drip.writes, drip.failures());
    let found = (found, counts, drip.taken.as_slice());
    check(rt, "write_all", &found, &(answer, writes, taken));
}

#[test]
fn writes_pieces(rt: HostRuntime) {
    let (alloc, all) = (rt.alloc(), b"cc_library".as_slice());
    for (most, writes) in [(1, 10), (3, 4), (10, 1), (99, 1)] {
        check_written(&rt, Drip::new(alloc, most, None), Ok(()), (writes, 0), all);
    }
    check_written(
        &rt,
        Drip::new(alloc, 1, Some(3)),
        Err(Failed),
        (3, 1),
        b"cc",
    );
}

/// A writer that takes nothing.
#[derive(Drop)]
struct Full;

impl Write for Full {
    fn write(&mut self, _bytes: &[u8]) -> io::Result<usize> {
        Ok(0)
    }

    fn flush(&mut self) -> io::Result<()> {
        Ok(())
    }
}

/// A reader and a writer whose first call fails with this error, and whose others would succeed.
#[derive(Drop)]
struct Stumbling {
    kind: ErrorKind,
    calls: u64,
}

impl Stumbling {
    fn new(kind: ErrorKind) -> Stumbling {
        Stumbling { kind, calls: 0 }
    }

    /// Counts a call, and fails at the first.
    fn call(&mut self) -> io::Result<()> {
        self.calls = self.calls.saturating_add(1);
        if self.calls == 1 {
            return Err(io::Error::from(self.kind));
        }
        Ok(())
    }
}

impl Read for Stumbling {
    fn read(&mut self, _buf: &mut [u8]) -> io::Result<usize> {
        self.call()?;
        Ok(0)
    }
}

impl Write for Stumbling {
    fn write(&mut self, bytes: &[u8]) -> io::Result<usize> {
        self.call()?;
        Ok(bytes.len())
    }

    fn flush(&mut self) -> io::Result<()> {
        Ok(())
    }
}

/// A run writes this text into a list of bytes, and no call of its devices fails.
fn check_run<S: Source>(
    rt: &impl Abort,
    alloc: Global,
    source: &mut S,
    status: u8,
    wanted: &[u8],
) -> Result<(), Fail> {
    let mut text: Vec<u8> = Vec::new(alloc);
    let mut sink = ToWrite::new(&mut text);
    let answer = ran(alloc, source, &mut sink)?;
    let failures = (source.failures(), sink.failures());
    check(rt, "run", &(answer, failures), &(Ok(status), (0, 0)));
    check(rt, "text", &text.as_slice(), &wanted);
    Ok(())
}

#[test]
fn stands_on_std(rt: HostRuntime) -> Result<(), Fail> {
    let mut source = FromRead::new(b"f()\n".as_slice());
    check_run(&rt, rt.alloc(), &mut source, 0, b"f(n = 7)\n")
}

#[test]
fn ends_at_a_full_writer(rt: HostRuntime) -> Result<(), Fail> {
    let mut source = FromRead::new(b"f()\n".as_slice());
    let mut full = ToWrite::new(Full);
    let answer = ran(rt.alloc(), &mut source, &mut full)?;
    let found = (answer, full.failures());
    check(&rt, "run", &found, &(Err(RunFault::WriteFailed), 1));
    Ok(())
}

const KINDS: [ErrorKind; 4] = [
    ErrorKind::Other,
    ErrorKind::IsADirectory,
    ErrorKind::WouldBlock,
    ErrorKind::Interrupted,
];

fn check_failed_read(rt: &impl Abort, alloc: Global, kind: ErrorKind) -> Result<(), Fail> {
    let mut reader = Stumbling::new(kind);
    let mut source = FromRead::new(&mut reader);
    let mut drip = Drip::new(alloc, 99, None);
    let answer = ran(alloc, &mut source, &mut drip)?;
    let found = (answer, source.failures(), drip.writes);
    check(rt, "run", &found, &(Err(RunFault::ReadFailed), 1, 0));
    check(rt, "calls", &reader.calls, &1);
    Ok(())
}

fn check_failed_write(rt: &impl Abort, alloc: Global, kind: ErrorKind) -> Result<(), Fail> {
    let mut writer = Stumbling::new(kind);
    let mut source = FromRead::new(b"f()\n".as_slice());
    let mut sink = ToWrite::new(&mut writer);
    let answer = ran(alloc, &mut source, &mut sink)?;
    let found = (answer, source.failures(), sink.failures());
    check(rt, "run", &found, &(Err(RunFault::WriteFailed), 0, 1));
    check(rt, "calls", &writer.calls, &1);
    Ok(())
}

// A read or a write that failed, one that was interrupted too, is not made again, though it would succeed, but told.
#[test]
fn ends_at_a_failed_read(rt: HostRuntime) -> Result<(), Fail> {
    for kind in KINDS {
        check_failed_read(&rt, rt.alloc(), kind)?;
    }
    Ok(())
}

#[test]
fn ends_at_a_failed_write(rt: HostRuntime) -> Result<(), Fail> {
    for kind in KINDS {
        check_failed_write(&rt, rt.alloc(), kind)?;
    }
    Ok(())
}
