//! What a session holds between its steps: neither chunks nor lines.

use crate::script::{program, read_script};
use crate::tests::checks::check;
use bz_engine::{FromRead, Session, Sink, Source, Step, ToWrite};
use std::alloc::{AllocError, Global};
use std::process::Abort;
use std::test::Fail;

const HALF: u64 = 1000;

/// How a rule is written: each element of its list on a line, as the layout has it, or all on one.
#[derive(Clone, Copy)]
enum Form {
    Lines,
    Line,
}

/// A script, the rule of each chunk with the number of its elements, and the most bytes that may be held. What the
/// layout would write is copied. The lists of a rule that is read are in the arena, whose room stays.
const ROWS: [(&str, Form, u64, usize); 4] = [
    ("set n 7 ! -:*", Form::Lines, 2, 16_384),
    ("add srcs b.cc ! -:a", Form::Lines, 16, 16_384),
    ("set n 7 ! -:*", Form::Line, 0, 24_576),
    ("add deps //b:d ! remove srcs ! -:a", Form::Line, 2, 49_152),
];

/// The rule, so many times over.
fn rules(alloc: Global, form: Form, elements: u64, count: u64) -> Result<Vec<u8>, AllocError> {
    let (head, element, end) = match form {
        Form::Lines => (
            "f(\n    name = \"a\",\n    srcs = [\n",
            "        \"a.cc\",\n",
            "    ],\n)\n",
        ),
        Form::Line => ("f(name = \"a\", srcs = [", "\"a.cc\", ", "])\n"),
    };
    let mut input = Vec::new(alloc);
    for _ in 0..count {
        input.extend_from_slice(head.as_bytes())?;
        for _ in 0..elements {
            input.extend_from_slice(element.as_bytes())?;
        }
        input.extend_from_slice(end.as_bytes())?;
    }
    Ok(input)
}

/// The most that the session holds after any of 1,000 steps, each of which takes a chunk.
fn most_held<S: Source, W: Sink>(
    rt: &impl Abort,
    session: &mut Session,
    source: &mut S,
    sink: &mut W,
) -> usize {
    let mut most = 0;
    for _ in 0..HALF {
        check(rt, "a step", &session.step(source, sink), &Ok(Step::More));
        most = session.held().max(most);
    }
    most
}

/// The most that a session holds in its first 1,000 steps, and in the 1,000 after them. It has nothing to tell.
fn held(
    rt: &impl Abort,
    alloc: Global,
    script: &str,
    input: &[u8],
) -> Result<(usize, usize), Fail> {
    let mut source = FromRead::new(input);
    let mut sink = ToWrite::new(Vec::new(alloc));
    let (home, passes) = read_script(alloc, script)?;
    let mut session = Session::new(alloc, home, passes, program(true))?;
    let early = most_held(rt, &mut session, &mut source, &mut sink);
    let late = most_held(rt, &mut session, &mut source, &mut sink);
    let end = session.step(&mut source, &mut sink);
    let report = session.finish()?;
    let is_quiet = report.lines.is_empty() && report.messages.is_empty();
    check(rt, script, &(end, is_quiet), &(Ok(Step::End), true));
    Ok((early, late))
}

// Far more bytes pass through.
#[test]
fn holds_neither_chunks_nor_lines(rt: HostRuntime) -> Result<(), Fail> {
    for (script, form, elements, most) in ROWS {
        let rule = rules(rt.alloc(), form, elements, 1)?;
        let input = rules(rt.alloc(), form, elements, 2 * HALF)?;
        let (early, late) = held(&rt, rt.alloc(), script, &input)?;
        // What is left of a rule before a read may be longer once.
        let no_more = early.saturating_add(rule.len());
        check(&rt, script, &early.min(most), &early);
        check(&rt, script, &late.min(no_more), &late);
    }
    Ok(())
}
