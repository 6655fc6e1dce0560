//! Buffers before devices: how much is asked of a device at once, what a sink is asked once it failed, and what is
//! known to be text.

ghost use Rattle.std.specs.Prelude.{◌<◌, length};

use crate::drip::Drip;
use crate::tests::checks::{check, ran};
use bz_devices::ahead::{Ahead, next_chunk};
use bz_devices::buffered::Buffered;
use bz_devices::limits::Limits;
use bz_engine::{Failed, FromRead, Sink, ToWrite};
use std::alloc::Global;
use std::io::{self, ErrorKind, Read, Write};
use std::process::Abort;
use std::test::Fail;

/// A reader of so many empty lines.
#[derive(Drop)]
struct Spring {
    left: usize,
    reads: u64,
    /// The fewest bytes that a read asked for.
    fewest: usize,
}

impl Read for Spring {
    fn read(&mut self, buf: &mut [u8]) -> io::Result<usize> {
        self.reads = self.reads.saturating_add(1);
        self.fewest = self.fewest.min(buf.len());
        let n = self.left.min(buf.len());
        buf[..n].fill(b'\n');
        self.left -= n;
        Ok(n)
    }
}

/// A writer that takes all, but for one write.
#[derive(Drop)]
struct Basin {
    writes: u64,
    bytes: u64,
    /// The write, counted from 1, that fails; 0 for none.
    fails_at: u64,
}

impl Basin {
    fn new(fails_at: u64) -> Basin {
        Basin {
            writes: 0,
            bytes: 0,
            fails_at,
        }
    }
}

impl Write for Basin {
    fn write(&mut self, bytes: &[u8]) -> io::Result<usize> {
        self.writes = self.writes.saturating_add(1);
        if self.writes == self.fails_at {
            return Err(io::Error::from(ErrorKind::Other));
        }
        self.bytes = self.bytes.saturating_add(bytes.len() as u64);
        Ok(bytes.len())
    }

    fn flush(&mut self) -> io::Result<()> {
        Ok(())
    }
}

#[test]
fn reads_much_at_once(rt: HostRuntime) -> Result<(), Fail> {
    let mut spring = Spring {
        left: 20_000,
        reads: 0,
        fewest: 99_999,
    };
    let mut drip = Drip::new(rt.alloc(), 99, None);
    let answer = ran(rt.alloc(), &mut FromRead::new(&mut spring), &mut drip)?;
    let found = (answer, spring.reads, spring.fewest);
    check(&rt, "reads", &found, &(Ok(3), 4, 8192));
    Ok(())
}

#[test]
fn writes_much_at_once(rt: HostRuntime) -> Result<(), Fail> {
    let mut basin = Basin::new(0);
    let mut source = FromRead::new(b"f()\n".as_slice());
    let answer = ran(rt.alloc(), &mut source, &mut ToWrite::new(&mut basin))?;
    check(
        &rt,
        "writes",
        &(answer, basin.writes, basin.bytes),
        &(Ok(0), 1, 9),
    );
    Ok(())
}

// Bytes are kept back until they are 65,536, and none is lost.
#[test]
fn keeps_bytes_back(rt: HostRuntime) -> Result<(), Fail> {
    let mut basin = Basin::new(0);
    let mut buffered = Buffered::new(rt.alloc(), ToWrite::new(&mut basin))?;
    for _ in 0..200 {
        buffered.put(&[b'x'; 1000]);
    }
    let answer = buffered.flush();
    drop(buffered);
    let found = (answer, basin.writes, basin.bytes);
    check(&rt, "writes", &found, &(Ok(()), 4, 200_000));
    Ok(())
}

/// What writes and flushes before a failing sink answer, and how many failed.
fn failed_writes(
    buffered: &mut Buffered<ToWrite<&mut Basin>>,
    text: &[u8],
) -> ([Result<usize, Failed>; 4], Result<(), Failed>, u64)
    requires { 0 < length text.now }
{
    let writes = [
        buffered.write(text),
        buffered.write(text),
        buffered.write(b"x"),
    ];
    let flush = buffered.flush();
    let [first, second, third] = writes;
    let last = buffered.write(text);
    ([first, second, third, last], flush, buffered.failures())
}

// A sink that failed is asked no more, though it would take all, and each write and flush tells it.
#[test]
fn stops_at_a_failed_write(rt: HostRuntime) -> Result<(), Fail> {
    let text = vec![in rt.alloc(); b'x'; 70_000]?;
    let mut basin = Basin::new(2);
    let mut buffered = Buffered::new(rt.alloc(), ToWrite::new(&mut basin))?;
    let found = failed_writes(&mut buffered, &text);
    drop(buffered);
    let writes = [Ok(70_000), Err(Failed), Err(Failed), Err(Failed)];
    check(&rt, "answers", &found, &(writes, Err(Failed), 3));
    check(&rt, "writes", &(basin.writes, basin.bytes), &(2, 70_000));
    Ok(())
}

/// What is read, how much of it is taken, and what is known to be text before and after that.
type TextRow<'t> = (&'t [u8], usize, &'t str, &'t str);

fn check_text(rt: &impl Abort, alloc: Global, row: TextRow<'_>) {
    let (bytes, taken, text, left) = row;
    let mut ahead = Ahead::new(alloc);
    let limits = Limits {
        statement: 99,
        reads: 99,
    };
    let is_read = next_chunk(&mut ahead, &mut FromRead::new(bytes), limits).is_ok();
    check(rt, text, &(is_read, ahead.text()), &(true, text));
    if taken <= ahead.bytes().len() {
        ahead.take(taken);
    }
    check(rt, text, &ahead.text(), &left);
}

// All that is text is known as text: after a read, and after bytes are taken from its front.
#[test]
fn knows_what_is_text(rt: HostRuntime) {
    let rows: [TextRow<'_>; 4] = [
        (b"f()\nx = 1\n", 4, "f()\nx = 1\n", "x = 1\n"),
        ("f()\n# é\n".as_bytes(), 4, "f()\n# é\n", "# é\n"),
        ("é\nf()\n".as_bytes(), 1, "é\nf()\n", ""),
        (b"f()\nx\xffy\n", 4, "f()\nx", "x"),
    ];
    for row in rows {
        check_text(&rt, rt.alloc(), row);
    }
}
