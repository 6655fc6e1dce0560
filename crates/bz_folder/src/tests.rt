//! The order of calls, and each call failing in turn, over a folder that notes its calls.

use crate::author::Author;
use crate::draft::Draft;
use crate::folder::{CannotOpen, Folder, Opened, Purpose, Refusal};
use crate::replace::replace_file;
use crate::trouble::Trouble;
use bz_devices::device::{Failed, Sink};
use bz_devices::output::write_all;
use bz_devices::std_device::FromRead;
use std::alloc::Global;
use std::io::Empty;
use std::test::Fail;

/// How many calls are noted at most.
const MOST: usize = 8;

/// Notes its calls, by one letter each, and lets one of them fail.
#[derive(Drop)]
struct Notes {
    calls: [u8; MOST],
    made: usize,
    /// Which call fails, counted from 1; 0 for none.
    fails: usize,
}

impl Notes {
    fn new(fails: usize) -> Notes {
        Notes {
            calls: [b' '; MOST],
            made: 0,
            fails,
        }
    }

    fn call(&mut self, letter: u8) -> Result<(), Failed> {
        if self.made < MOST {
            self.calls[self.made] = letter;
            self.made += 1;
        }
        if self.made == self.fails {
            return Err(Failed);
        }
        Ok(())
    }
}

impl Folder for Notes {
    type File = FromRead<Empty>;

    ghost use Rattle.std.specs.Prelude.{⊤};

    ghost did = { λ old events new. ⊤ };

    ghost leads = { λ path file source. ⊤ };

    ghost absent = { λ folder path. ⊤ };

    ghost did_nothing = { λ s. tt };

    ghost did_more = { λ a b c es fs p q. tt };

    fn open(&self, _path: &str, _purpose: Purpose) -> Result<Opened<FromRead<Empty>>, CannotOpen> {
        Err(CannotOpen::Absent)
    }

    fn make(&mut self, _path: &str) -> Result<(), Failed> {
        self.call(b'm')
    }

    fn write(&mut self, _path: &str, _bytes: &[u8]) -> Result<(), Failed> {
        self.call(b'w')
    }

    fn set_mode(&mut self, _path: &str, _mode: u32) -> Result<(), Failed> {
        self.call(b's')
    }

    fn rename(&mut self, _from: &str, _to: &str) -> Result<(), Failed> {
        self.call(b'n')
    }

    fn remove(&mut self, _path: &str) -> Result<(), Failed> {
        self.call(b'r')
    }

    fn refusal(&self) -> Refusal {
        Refusal::Unknown
    }
}

/// Writes a text and answers.
#[derive(Drop)]
struct Fixed {
    text: Vec<u8>,
    answer: Result<bool, Failed>,
}

impl Author for Fixed {
    ghost use Rattle.std.specs.Prelude.{⊤};

    ghost gives = { λ old text result new. ⊤ };

    fn write_to<S: Sink>(&mut self, sink: &mut S) -> Result<bool, Failed> {
        write_all(sink, &self.text)?;
        self.answer
    }
}

/// A short text: less than waits at most.
const SHORT: usize = 48;

/// A text for which the bytes that wait are written twice.
const LONG: usize = 80_000;

/// What is answered, and what calls are made, where the author writes so many bytes and answers so.
fn replace(
    alloc: Global,
    len: usize,
    answer: Result<bool, Failed>,
    fails: usize,
) -> Result<(Result<bool, Trouble>, [u8; MOST]), Fail> {
    let text = vec![in alloc; b'x'; len]?;
    let mut author = Fixed { text, answer };
    let mut draft = Draft::new(alloc, Notes::new(fails))?;
    let answer = replace_file(&mut draft, "a/BUILD", 0o644, &mut author);
    Ok((answer, draft.folder().calls))
}

#[test]
fn each_answer(rt: HostRuntime) -> Result<(), Fail> {
    let cases = [
        (SHORT, Ok(true), Ok(true), *b"mwsn    "),
        (SHORT, Ok(false), Ok(false), *b"        "),
        (SHORT, Err(Failed), Err(Trouble::Clean), *b"        "),
        (LONG, Ok(true), Ok(true), *b"mwwsn   "),
        (LONG, Ok(false), Ok(false), *b"mwr     "),
        (LONG, Err(Failed), Err(Trouble::Clean), *b"mwr     "),
    ];
    for (len, answer, want, calls) in cases {
        assert_eq!(rt; replace(rt.alloc(), len, answer, 0)?, (want, calls));
    }
    Ok(())
}

#[test]
fn each_call_fails(rt: HostRuntime) -> Result<(), Fail> {
    let cases = [
        (2, *b"mwr     "),
        (3, *b"mwwr    "),
        (4, *b"mwwsr   "),
        (5, *b"mwwsnr  "),
    ];
    for (fails, calls) in cases {
        assert_eq!(rt;
            replace(rt.alloc(), LONG, Ok(true), fails)?,
            (Err(Trouble::Clean), calls)
        );
    }
    // What lay there is removed.
    let again = replace(rt.alloc(), LONG, Ok(true), 1)?;
    assert_eq!(rt; again, (Ok(true), *b"mrmwwsn "));
    let left = replace(rt.alloc(), LONG, Ok(false), 3)?;
    assert_eq!(rt; left, (Err(Trouble::LeftBehind), *b"mwr     "));
    Ok(())
}
