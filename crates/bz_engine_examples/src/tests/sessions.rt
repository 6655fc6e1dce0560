//! Runs a chunk at a time.

ghost use Rattle.std.specs.Prelude.{◌≤◌, ◌^◌};

use crate::drip::Drip;
use crate::feed::{Feed, Input, Piece};
use crate::script::{limited, program, read_script};
use crate::tests::checks::check;
use bz_engine::{End, Options, Report, RunFault, Session, Step, SyntaxFault};
use bz_rule_examples::table::{cut_rows, plain};
use bz_token::{LexFault, check_utf8};
use bz_tree::ParseFault;
use std::alloc::Global;
use std::process::Abort;
use std::test::Fail;

const TWO_RULES: &[u8] = b"f(name = \"a\")\ng(name = \"b\")\n";

const SECOND_RULE: &str = "g(name = \"b\")\n";

/// An input with a fault in its third line.
const TO_BRACKET: &[u8] = b"x = 1\nf(name = \"a\")\nx = )\n";

const DELETE: &str = "delete ! add deps x ! //p:a";

const SET_ALL: &str = "set a 1 ! -:*";

/// A session with its devices.
#[derive(Drop)]
struct Bench<'a> {
    session: Session,
    feed: Feed<'a>,
    drip: Drip,
}

impl<'a> Bench<'a> {
    /// Over an input without a byte, and a sink that takes 99 bytes a write.
    fn new(alloc: Global, script: &str, options: Options) -> Result<Bench<'a>, Fail>
        requires { options.max_reads ≤ 2 ^ 50 }
    {
        let (home, passes) = read_script(alloc, script)?;
        Ok(Bench {
            session: Session::new(alloc, home, passes, options)?,
            feed: Feed::new(Input::Bytes(&[]), Piece::Line, None),
            drip: Drip::new(alloc, 99, None),
        })
    }

    fn step(&mut self) -> Result<Step, RunFault> {
        self.session.step(&mut self.feed, &mut self.drip)
    }

    fn text(&self) -> Result<&str, usize> {
        check_utf8(self.drip.taken.as_slice())
    }

    /// A step answers this; after it the source has given so many bytes, in one read each, and the sink holds this
    /// text.
    fn check_step(&mut self, rt: &impl Abort, answer: Step, reads: u64, text: &str) {
        let found = (self.step(), self.feed.reads, self.text());
        check(rt, text, &found, &(Ok(answer), reads, Ok(text)));
    }

    /// So many steps answer `More`.
    fn check_steps(&mut self, rt: &impl Abort, steps: u64) {
        for _ in 0..steps {
            check(rt, "a step", &self.step(), &Ok(Step::More));
        }
    }

    /// The next step ends the run; then it has ended in this way, and the sink holds this text.
    fn check_end(mut self, rt: &impl Abort, end: End, text: &str) -> Result<(), Fail> {
        check(rt, text, &self.step(), &Ok(Step::End));
        let reads = self.feed.reads;
        self.check_step(rt, Step::End, reads, text);
        let report = self.session.finish()?;
        check(rt, text, &report.end, &end);
        Ok(())
    }

    /// What a step answers, and the reads and writes until then.
    fn counted_step(&mut self) -> (Result<Step, RunFault>, u64, u64) {
        (self.step(), self.feed.reads, self.drip.writes)
    }

    /// The fault that the next step meets. From then on the session answers `Stopped`, reads and writes nothing, and
    /// has no report. The devices, as it left them.
    fn check_stop(mut self, rt: &impl Abort, fault: RunFault, text: &str) -> (Feed<'a>, Drip) {
        let (met, reads, writes) = self.counted_step();
        check(rt, text, &met, &Err(fault));
        let again = self.counted_step();
        check(rt, text, &again, &(Err(RunFault::Stopped), reads, writes));
        check(rt, text, &self.text(), &Ok(text));
        check(
            rt,
            text,
            &self.session.finish().err(),
            &Some(RunFault::Stopped),
        );
        (self.feed, self.drip)
    }
}

/// A session that may make so many reads, of a byte each, and has taken two rules, of which it deleted the first. Each
/// step read its chunk and nothing after it.
fn past_two_rules(rt: &impl Abort, alloc: Global, max_reads: u32) -> Result<Bench<'static>, Fail> {
    let mut bench = Bench::new(alloc, DELETE, limited(99, 100, max_reads))?;
    bench.feed = Feed::new(Input::Bytes(TWO_RULES), Piece::AtMost(1), None);
    bench.check_step(rt, Step::More, 14, "");
    bench.check_step(rt, Step::More, 28, SECOND_RULE);
    Ok(bench)
}

/// What a whole run reported: how it ended, its status, and whether it told nothing.
fn reported(report: &Report) -> (End, u8, bool) {
    let is_quiet = report.lines.is_empty() && report.messages.is_empty();
    (report.end, report.status(), is_quiet)
}

#[test]
fn takes_a_chunk_each(rt: HostRuntime) -> Result<(), Fail> {
    let mut bench = past_two_rules(&rt, rt.alloc(), 29)?;
    bench.check_step(&rt, Step::End, 29, SECOND_RULE);
    bench.check_step(&rt, Step::End, 29, SECOND_RULE);
    let report = bench.session.finish()?;
    check(&rt, "report", &reported(&report), &(End::Whole, 0, true));
    Ok(())
}

// A fault ends a session; nothing of its statement is written.
#[test]
fn ends_at_a_fault(rt: HostRuntime) -> Result<(), Fail> {
    let mut bench = Bench::new(rt.alloc(), SET_ALL, program(true))?;
    bench.feed = Feed::new(Input::Bytes(TO_BRACKET), Piece::Line, None);
    bench.check_steps(&rt, 2);
    let bracket = ParseFault::Lex(LexFault::BadBracket { line: 3, col: 5 });
    let end = End::Syntax(SyntaxFault::Parse(bracket));
    let text = "x = 1\n\nf(\n    name = \"a\",\n    a = 1,\n)\n";
    bench.check_end(&rt, end, text)
}

// Without `-k` a failure does so, too.
#[test]
fn ends_at_a_failure(rt: HostRuntime) -> Result<(), Fail> {
    let mut bench = Bench::new(rt.alloc(), "rename n name ! -:*", program(false))?;
    bench.feed = Feed::new(Input::Bytes(TO_BRACKET), Piece::Line, None);
    bench.check_steps(&rt, 1);
    bench.check_end(&rt, End::FirstFailure, "x = 1\n")
}

// A session that has not ended has no report.
#[test]
fn finishes_early(rt: HostRuntime) -> Result<(), Fail> {
    let bench = Bench::new(rt.alloc(), DELETE, program(true))?;
    let fault = bench.session.finish().err();
    check(&rt, "no step", &fault, &Some(RunFault::Stopped));
    Ok(())
}

#[test]
fn finishes_after_a_step(rt: HostRuntime) -> Result<(), Fail> {
    let mut bench = Bench::new(rt.alloc(), DELETE, program(true))?;
    bench.feed = Feed::new(Input::Bytes(TWO_RULES), Piece::AtMost(99), None);
    bench.check_steps(&rt, 1);
    let fault = bench.session.finish().err();
    check(&rt, "a step", &fault, &Some(RunFault::Stopped));
    Ok(())
}

#[test]
fn stops_at_a_failed_write(rt: HostRuntime) -> Result<(), Fail> {
    let input = b"cc_library(name=\"a\",srcs=[\"a.cc\"])\n";
    let mut bench = Bench::new(rt.alloc(), "add deps //b:c ! -:a", program(true))?;
    bench.feed = Feed::new(Input::Bytes(input), Piece::AtMost(99), None);
    bench.drip = Drip::new(rt.alloc(), 1, Some(3));
    let (_, drip) = bench.check_stop(&rt, RunFault::WriteFailed, "cc");
    check(&rt, "writes", &(drip.writes, drip.failures), &(3, 1));
    Ok(())
}

#[test]
fn stops_at_a_failed_read(rt: HostRuntime) -> Result<(), Fail> {
    let mut bench = Bench::new(rt.alloc(), "add deps q ! print kind ! -:a", program(true))?;
    bench.feed = Feed::new(Input::Bytes(TO_BRACKET), Piece::Line, Some(3));
    bench.check_steps(&rt, 2);
    let text = "x = 1\n\nf(\n    name = \"a\",\n    deps = [\"q\"],\n)\n";
    let (feed, _) = bench.check_stop(&rt, RunFault::ReadFailed, text);
    check(&rt, "reads", &(feed.reads, feed.failures), &(3, 1));
    Ok(())
}

// The reads that may be made are made, and the next is refused.
#[test]
fn stops_at_the_last_read(rt: HostRuntime) -> Result<(), Fail> {
    let bench = past_two_rules(&rt, rt.alloc(), 28)?;
    let (feed, _) = bench.check_stop(&rt, RunFault::InputTooLong, SECOND_RULE);
    check(&rt, "reads", &feed.reads, &28);
    Ok(())
}

#[test]
fn stops_in_an_endless_input(rt: HostRuntime) -> Result<(), Fail> {
    let mut bench = Bench::new(rt.alloc(), SET_ALL, limited(99, 100, 3))?;
    bench.feed = Feed::new(Input::Endless(b'\n'), Piece::AtMost(1), None);
    for reads in [1, 2, 3] {
        bench.check_step(&rt, Step::More, reads, "");
    }
    let (feed, _) = bench.check_stop(&rt, RunFault::InputTooLong, "");
    check(&rt, "reads", &feed.reads, &3);
    Ok(())
}

// A statement that is too long is refused where it is reached, with its line.
#[test]
fn stops_at_a_long_statement(rt: HostRuntime) -> Result<(), Fail> {
    let input = b"x = 123\n\ny = 1234\n";
    let mut bench = Bench::new(rt.alloc(), SET_ALL, limited(8, 100, 99))?;
    bench.feed = Feed::new(Input::Bytes(input), Piece::AtMost(99), None);
    bench.check_steps(&rt, 2);
    let fault = RunFault::StatementTooLong { line: 3 };
    let _ = bench.check_stop(&rt, fault, "x = 123\n");
    Ok(())
}

/// An input, and the text of each step that takes a chunk, with a line `|` after it.
const CHUNKS: &str = r#"
---
␄
->
---


->
|
|
---
x = 1
y
->
x = 1
|

y
|
---
x = 1␄
->
x = 1
|
---
# a

x = 1
# b␄
->
# a
|

x = 1
|

# b
|
---
# a
x(
  1,
)
y
->
# a
x(1)
|

y
|
---
def f():
  pass

x
->
def f():
  pass
|

x
|
---
def f():
  pass␄
->
def f():
  pass
|
---
if a:
  b
else:
  c
d
->
if a:
  b
else:
  c
|

d
|
---
if a:
  b
el␄
->
if a:
  b
|

el
|
---
x = """

"""
->
x = """

"""
|
---
# a
x = [
]

->
# a
x = []
|
|
---
# a␍
␍
x = 1␍
->
# a
|

x = 1
|
---
def f():
 x
else:
->
def f():
 x
|
---
y
x = (
#)
->
y
|
---
# a␄
->
# a
|
"#;

/// The texts of the steps, with a line `|` after each.
fn steps(alloc: Global, input: &[u8], piece: Piece) -> Result<Vec<u8>, Fail> {
    let mut bench = Bench::new(alloc, "set a 1 ! -:%none", limited(20, 100, 99))?;
    bench.feed = Feed::new(Input::Bytes(input), piece, None);
    for _ in 0..99 {
        if bench.step()? == Step::End {
            return Ok(bench.drip.taken);
        }
        bench.drip.taken.extend_from_slice(b"|\n")?;
    }
    Err(Fail::from("no end"))
}

/// However the source cuts the input.
fn check_chunks(rt: &impl Abort, alloc: Global, text: &str, wanted: &str) -> Result<(), Fail> {
    let input = plain(alloc, text)?;
    for piece in [
        Piece::AtMost(1),
        Piece::AtMost(3),
        Piece::AtMost(9000),
        Piece::Line,
    ] {
        let found = steps(alloc, input.as_bytes(), piece)?;
        check(rt, text, &check_utf8(found.as_slice()), &Ok(wanted));
    }
    Ok(())
}

#[test]
fn takes_chunks(rt: HostRuntime) -> Result<(), Fail> {
    for (text, wanted) in cut_rows(rt.alloc(), CHUNKS)? {
        check_chunks(&rt, rt.alloc(), text, wanted)?;
    }
    Ok(())
}
