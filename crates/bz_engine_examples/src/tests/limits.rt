//! How much is read, and which limit is met first.

ghost use Rattle.std.specs.Prelude.{◌≤◌, ◌^◌};

use crate::drip::Drip;
use crate::feed::{Feed, Input, Piece};
use crate::script::{limited, read_script};
use crate::tests::checks::check;
use bz_engine::{Options, RunFault, Session, Step, run};
use bz_rule_examples::table::plain;
use bz_token::check_utf8;
use std::alloc::Global;
use std::process::Abort;
use std::test::Fail;

/// An input, the most bytes of a chunk and the most reads; what the first step answers, and after how many reads of a
/// line each.
const BY_LINES: &str = "␄ 5 1 End 1
␄ 5 0 InputTooLong 0
x␊y␊ 2 1 More 1
x(1)␊y␊ 4 1 StatementTooLong 1
x(1) 4 2 More 2
x(1) 4 1 InputTooLong 1
x(1) 3 1 StatementTooLong 1
#a␊#b␊ 2 9 StatementTooLong 1
if␉a:␊␉b␊c␊ 5 9 StatementTooLong 1
if␉a:␊␉b␊c␊ 9 9 More 3
if␉a:␊␉b␊c␊ 9 2 InputTooLong 2
if␉a:␊␉b 9 9 More 3
∞x 10000 9 StatementTooLong 2
∞\\ 99999 3 InputTooLong 3";

/// An input, the most bytes of a chunk and the most reads; what the first step answers, and after how many reads of a
/// byte each.
const BY_BYTES: &str = "x=1234␊ 7 99 More 7
x=12345␊ 7 99 StatementTooLong 8
x=12345␊ 7 7 InputTooLong 7
∞x 8 9 StatementTooLong 9
∞x 8 8 InputTooLong 8
∞␊ 8 1 More 1";

/// What the first step answers, and how many reads it made.
fn first_step(
    alloc: Global,
    input: Input<'_>,
    piece: Piece,
    options: Options,
) -> Result<(Result<Step, RunFault>, u64), Fail>
    requires { options.max_reads ≤ 2 ^ 50 }
{
    let mut feed = Feed::new(input, piece, None);
    let mut drip = Drip::new(alloc, 99, None);
    let (home, passes) = read_script(alloc, "set a 1 ! -:*")?;
    let mut session = Session::new(alloc, home, passes, options)?;
    let step = session.step(&mut feed, &mut drip);
    Ok((step, feed.reads))
}

fn shown_step(alloc: Global, step: Result<Step, RunFault>, reads: u64) -> Result<String, Fail> {
    let shown = match step {
        Ok(step) => format!(in alloc; "{step:?} {reads}"),
        Err(RunFault::StatementTooLong { line: 1 }) => format!(in alloc;
            "StatementTooLong {reads}"
        ),
        Err(fault) => format!(in alloc; "{fault:?} {reads}"),
    }?;
    Ok(shown)
}

/// What the first step over the input of a row answers.
fn first_answer(
    alloc: Global,
    input: &str,
    piece: Piece,
    max_statement: u64,
    max_reads: u32,
) -> Result<String, Fail> {
    let text = plain(alloc, input.trim_start_matches('∞'))?;
    let input = match (input.starts_with('∞'), text.as_bytes().first()) {
        (true, Some(byte)) => Input::Endless(*byte),
        _ => Input::Bytes(text.as_bytes()),
    };
    let options = limited(max_statement, 100, max_reads);
    let (step, reads) = first_step(alloc, input, piece, options)?;
    shown_step(alloc, step, reads)
}

/// A row's input, its limits, and its answer.
fn cut_row(row: &str) -> Result<(&str, u64, u32, &str), Fail> {
    let (input, rest) = row.split_once(' ').ok_or("a row without limits")?;
    let (bytes, rest) = rest.split_once(' ').ok_or("a row without limits")?;
    let (reads, wanted) = rest.split_once(' ').ok_or("a row without an answer")?;
    Ok((input, bytes.parse::<u64>()?, reads.parse::<u32>()?, wanted))
}

fn check_row(rt: &impl Abort, alloc: Global, row: &str, piece: Piece) -> Result<(), Fail> {
    let (input, max_statement, max_reads, wanted) = cut_row(row)?;
    let found = first_answer(alloc, input, piece, max_statement, max_reads)?;
    check(rt, row, &found.as_str(), &wanted);
    Ok(())
}

#[test]
fn reads_lines_that_are_needed(rt: HostRuntime) -> Result<(), Fail> {
    for row in BY_LINES.lines() {
        check_row(&rt, rt.alloc(), row, Piece::Line)?;
    }
    Ok(())
}

#[test]
fn reads_bytes_that_are_needed(rt: HostRuntime) -> Result<(), Fail> {
    for row in BY_BYTES.lines() {
        check_row(&rt, rt.alloc(), row, Piece::AtMost(1))?;
    }
    Ok(())
}

/// So many brackets in one another.
fn nested(alloc: Global, depth: usize) -> Result<String, Fail> {
    let mut text = String::from_str(alloc, "x = ")?;
    for bracket in ['[', ']'] {
        for _ in 0..depth {
            text.push(bracket)?;
        }
    }
    text.push('\n')?;
    Ok(text)
}

/// What a run tells of its first fault, byte by byte, and the text that it writes.
fn told(alloc: Global, input: &[u8], max_depth: u8) -> Result<(String, Vec<u8>), Fail> {
    let mut feed = Feed::new(Input::Bytes(input), Piece::AtMost(1), None);
    let mut drip = Drip::new(alloc, 1, None);
    let (home, passes) = read_script(alloc, "set a 1 ! -:*")?;
    let options = limited(999, max_depth, 999);
    let report = run(alloc, home, passes, options, &mut feed, &mut drip)?;
    let status = report.status();
    let message = report.messages.iter().next().unwrap_or("nothing");
    Ok((format!(in alloc; "{message}, status {status}")?, drip.taken))
}

/// A run over this input tells this, and writes this text.
fn check_told(
    rt: &impl Abort,
    alloc: Global,
    input: &str,
    max_depth: u8,
    (wanted, text): (&str, &str),
) -> Result<(), Fail> {
    let (found, written) = told(alloc, input.as_bytes(), max_depth)?;
    check(rt, input, &found.as_str(), &wanted);
    check(rt, input, &check_utf8(written.as_slice()), &Ok(text));
    Ok(())
}

#[test]
fn keeps_to_the_depth(rt: HostRuntime) -> Result<(), Fail> {
    let most = nested(rt.alloc(), 100)?;
    let same = ("nothing, status 3", most.as_str());
    check_told(&rt, rt.alloc(), most.as_str(), 100, same)?;
    let more = nested(rt.alloc(), 101)?;
    let refused = ("1:105: brackets too deep, status 2", "");
    check_told(&rt, rt.alloc(), more.as_str(), 100, refused)
}

#[test]
fn keeps_to_no_depth(rt: HostRuntime) -> Result<(), Fail> {
    let refused = ("1:2: brackets too deep, status 2", "");
    check_told(&rt, rt.alloc(), "f()\n", 0, refused)
}

/// What a run under limits answers: the status of its report, or its fault; and the text that it wrote.
fn limited_run(
    alloc: Global,
    input: &[u8],
    options: Options,
) -> Result<(Result<u8, RunFault>, Vec<u8>), Fail>
    requires { options.max_reads ≤ 2 ^ 50 }
{
    let mut feed = Feed::new(Input::Bytes(input), Piece::AtMost(9000), None);
    let mut drip = Drip::new(alloc, 99, None);
    let (home, passes) = read_script(alloc, "set a 1 ! -:*")?;
    let answer = run(alloc, home, passes, options, &mut feed, &mut drip);
    Ok((answer.map(|report| report.status()), drip.taken))
}

#[test]
fn runs_keep_to_their_limits(rt: HostRuntime) -> Result<(), Fail> {
    let too_long = Err(RunFault::StatementTooLong { line: 1 });
    for (input, max_reads, wanted, text) in [
        ("x = 123\n", 99, Ok(3), "x = 123\n"),
        ("x = 1234\n", 99, too_long, ""),
        ("", 0, Err(RunFault::InputTooLong), ""),
    ] {
        let options = limited(8, 100, max_reads);
        let (found, written) = limited_run(rt.alloc(), input.as_bytes(), options)?;
        check(&rt, input, &found, &wanted);
        check(&rt, input, &check_utf8(written.as_slice()), &Ok(text));
    }
    Ok(())
}
