//! Runs whose source gives a byte at a time and whose sink takes one, over each front of an input, and over what was
//! written.

use crate::drip::Drip;
use crate::feed::{Feed, Input, Piece};
use crate::script::{program, read_script};
use crate::tests::checks::check;
use bz_engine::{End, Report, Session, Step, Texts, run};
use bz_rule_examples::table::{BLOCK, cut_rows, plain};
use bz_rule_examples::texts::TEXTS;
use std::alloc::Global;
use std::process::Abort;
use std::test::Fail;

/// A script and an input; the text that is written; and what is told. A run goes on after failures, unless `-k=false`
/// is the first word.
const RUNS: &str = r#"
---
add deps x ! //p:a
␄
->
=>
message: //p:a: no such rule
status 2
---
add deps //b:c ! -:a
cc_library(name="a",srcs=["a.cc"])
->
cc_library(
    name = "a",
    srcs = ["a.cc"],
    deps = ["//b:c"],
)
=>
status 0
---
add deps //b:c ! -:a
cc_library␄
->
cc_library
=>
message: -:a: no such rule
status 2
---
add deps //b:c ! -:a
cc_library(␄
->
=>
message: 1:11: bracket is not closed
status 2
---
add deps //b:c ! -:a
cc_library(name="␄
->
=>
message: 1:17: string is not closed
status 2
---
add name x ! -:a
f(name = "a")
->
f(name = "a")
=>
message: -:a: attribute 'name' has no list
status 2
---
-k=false set n 7 ! -:zz
x=1
->
x = 1
=>
message: -:zz: no such rule
status 2
---
-k=false print ! -:a
f(name = "a")
->
=>
line: a f
status 3
---
add deps //p:x ! //p:a
f(name = "a", deps = [":x"])
->
f(
    name = "a",
    deps = [":x"],
)
=>
status 3
---
remove deps //p:x ! //p:a
f(name = "a", deps = [":x"])
->
f(name = "a")
=>
status 0
---
set name b ! print name ! //p:a ; print kind ! //p:b ; print kind ! //p:a
f(name = "a")
->
f(name = "b")
=>
line: b
line: f
message: //p:a: no such rule
status 2
---
print name ! print kind ! //p:*
f(name = "a")
g(name = "b")
->
=>
line: a
line: b
line: f
line: g
status 3
---
delete ! add deps x ! //p:a
f(name = "a")
g(name = "b")
->
g(name = "b")
=>
status 0
---
print name startline endline ! -:*
# c
f(
    name = "a",
)
g(name = "b")
->
=>
line: a 2 4
line: b 5 5
status 3
---
delete ! -:%5
# c
f(
    name = "a",
)
g(name = "b")
->
# c
f(name = "a")
=>
status 0
---
delete ! -:%1
# c
f(
    name = "a",
)
g(name = "b")
->
# c
f(name = "a")

g(name = "b")
=>
message: -:%1: no such rule
status 2
---
delete ! -:a ; print kind ! -:%5
# c
f(
    name = "a",
)
g(name = "b")
->
g(name = "b")
=>
line: g
status 0
---
add deps w ! -:a
f(
    name = "a",
    deps = [ # c1
        "x", # c2
        "y" # c3
        , "z"
        # c4
    ],
)
->
f(
    name = "a",
    deps = [
        # c1
        "x",  # c2
        "y",  # c3
        "z",
        "w",
        # c4
    ],
)
=>
status 0
---
add deps w ! -:a
f(name = "a", deps = [ # c1
    "x" # c2
    # c3
])
->
f(
    name = "a",
    deps = [
        # c1
        "x",  # c2
        "w",
        # c3
    ],
)
=>
status 0
---
add deps q ! print kind ! -:a
x = 1
f(name = "a")
x = )
->
x = 1

f(
    name = "a",
    deps = ["q"],
)
=>
message: 3:5: bracket does not match
status 2
---
move deps data * ! -:a
f(
    name = "a",
    # d
    deps = [
        # one
        "x",
        "y",  # two
    ],
    data = ["x"],
)
->
f(
    name = "a",
    data = [
        "x",
        "y",  # two
    ],
)
=>
status 0
---
add deps d ! //p:a
f(name = "a", deps = ["a"] + select({"c": ["b"]}))
->
f(
    name = "a",
    deps = [
        "a",
        "d",
    ] + select({
        "c": ["b"],
    }),
)
=>
status 0
---
rename x y ! set z 3 ! //p:b
f(name = "a")
f(name = "b", x = 1, y = 2)
->
f(name = "a")

f(
    name = "b",
    x = 1,
    y = 2,
    z = 3,
)
=>
message: //p:b: attribute 'y' is already there
status 2
---
-k=false rename x y ! set z 3 ! //p:b
f(name = "a")
f(name = "b", x = 1, y = 2)
->
f(name = "a")
=>
message: //p:b: attribute 'y' is already there
status 2
---
set z 1 ! -:*
x = 1
y = """open
->
x = 1
=>
message: 2:5: string is not closed
status 2
---
set a 1 ! -:*
x = 1
  y = 2
->
x = 1
=>
message: 2: indented statement
status 2
---
set a 1 ! -:*
def f():
  x
 y
->
=>
message: 3: indented statement
status 2
---
set a 1 ! -:*
def f():
->
=>
message: 1: not a statement
status 2
---
replace * //q:q :y ! //p:a
f(name = "a", deps = [":x", "//q"])
->
f(
    name = "a",
    deps = [
        ":x",
        ":y",
    ],
)
=>
status 0
---
comment hello\ world ! //p:a
f(name = "a")
->
# hello world
f(name = "a")
=>
status 0
---
comment name note ! //p:a
f(name = "a")
->
f(
    # note
    name = "a",
)
=>
status 0
---
set size small ! set deps x ! set n 7 ! set ok True ! set l a b ! //p:a
f(name = "a")
->
f(
    name = "a",
    size = "small",
    deps = ["x"],
    n = 7,
    ok = True,
    l = [
        "a",
        "b",
    ],
)
=>
status 0
---
set size small ! set deps x ! set n 7 ! set ok True ! set l a b ! //p:a
f(
    name = "a",
    size = "small",
    deps = ["x"],
    n = 7,
    ok = True,
    l = [
        "a",
        "b",
    ],
)
->
f(
    name = "a",
    size = "small",
    deps = ["x"],
    n = 7,
    ok = True,
    l = [
        "a",
        "b",
    ],
)
=>
status 3
---
set a 1 ! -:*
x = [k+v for k,v in d.items()]
->
x = [k + v for k, v in d.items()]
=>
status 3
---
set a 1 ! -:*
x=(1)

y=(1,)
->
x = (1)
y = (1,)
=>
status 3
---
set a 1 ! -:*
# top

# of x
x = 1 # s
# end␄
->
# top

# of x
x = 1  # s

# end
=>
status 3
---
add deps z ! -:*
x = 'a'␍
y = 'b"'␄
->
x = "a"
y = 'b"'
=>
status 3
---
print label deps n q ! //p:a
f(name = "a", deps = ["x y", "z"], n = 1+2)
->
=>
line: //p:a ["x y" z] 1 + 2 (missing)
message: //p:a: no attribute 'q' to print
status 3
---
print name ! //p:*
package(a = 1)

# of x
x(["b"])  # s

f(name = "a")

n.g()

f(name = y)
->
=>
line: (missing)
line: (missing)
line: a
line: (missing)
line: y
message: //p:%package: no attribute 'name' to print
message: //p:%x: no attribute 'name' to print
message: //p:%n.g: no attribute 'name' to print
status 3
"#;

/// Scripts, inputs and outcomes, as above, of rules without a name, which a second run may give one.
const NAMELESS: &str = r#"
---
add deps //b:c ! -:a
f()
$
->
f()
=>
message: 2:1: bad character
status 2
---
add deps y ! -:a
f(x = ["a", "b"], )
->
f(x = [
    "a",
    "b",
])
=>
message: -:a: no such rule
status 2
"#;

/// What a run wrote, and how it ended.
#[derive(Drop)]
struct Outcome {
    text: Vec<u8>,
    report: Report,
}

/// The commands and labels of a script, and whether its run goes on after failures.
fn cut_flag(script: &str) -> (&str, bool) {
    match script.strip_prefix("-k=false ") {
        Some(words) => (words, false),
        None => (script, true),
    }
}

/// A run, so many bytes at a time.
fn run_all(alloc: Global, script: &str, input: &[u8], most: usize) -> Result<Outcome, Fail> {
    let mut feed = Feed::new(Input::Bytes(input), Piece::AtMost(most), None);
    let mut drip = Drip::new(alloc, most, None);
    let (words, keep_going) = cut_flag(script);
    let (home, passes) = read_script(alloc, words)?;
    let report = run(
        alloc,
        home,
        passes,
        program(keep_going),
        &mut feed,
        &mut drip,
    )?;
    Ok(Outcome {
        text: drip.taken,
        report,
    })
}

/// Steps to the end of an input of so many bytes: each step but the last takes a byte at least.
fn step_to_end(
    session: &mut Session,
    feed: &mut Feed<'_>,
    drip: &mut Drip,
    bytes: usize,
) -> Result<(), Fail> {
    for _ in 0..bytes.saturating_add(1) {
        if session.step(feed, drip)? == Step::End {
            return Ok(());
        }
    }
    Err(Fail::from("no end"))
}

/// The run of a script over an input, by the steps of a session.
fn step_all(alloc: Global, script: &str, input: &[u8], most: usize) -> Result<Outcome, Fail> {
    let mut feed = Feed::new(Input::Bytes(input), Piece::AtMost(most), None);
    let mut drip = Drip::new(alloc, most, None);
    let (words, keep_going) = cut_flag(script);
    let (home, passes) = read_script(alloc, words)?;
    let mut session = Session::new(alloc, home, passes, program(keep_going))?;
    step_to_end(&mut session, &mut feed, &mut drip, input.len())?;
    Ok(Outcome {
        text: drip.taken,
        report: session.finish()?,
    })
}

/// Each of these texts on a line of its own, after a word.
fn put_texts(word: &str, texts: &Texts, out: &mut String) -> Result<(), Fail> {
    let mut left = texts.iter();
    while let Some(text) = left.next() {
        out.push_str(word)?;
        out.push_str(text)?;
        out.push('\n')?;
    }
    Ok(())
}

/// What was written, and what is told.
fn shown(alloc: Global, outcome: &Outcome) -> Result<String, Fail> {
    let Outcome { text, report } = outcome;
    let mut out = String::from_str(alloc, str::from_utf8(text)?)?;
    out.push_str("=>\n")?;
    put_texts("line: ", &report.lines, &mut out)?;
    put_texts("message: ", &report.messages, &mut out)?;
    let status = report.status();
    let last = format!(in alloc; "status {status}\n")?;
    out.push_str(last.as_str())?;
    Ok(out)
}

/// A run writes and tells this, by `run` and by steps, and so it does all at once and byte by byte.
fn check_run(
    rt: &impl Abort,
    alloc: Global,
    script: &str,
    input: &[u8],
    answer: &str,
) -> Result<(), Fail> {
    for most in [1, 9000] {
        let found = shown(alloc, &run_all(alloc, script, input, most)?)?;
        check(rt, script, &found.as_str(), &answer);
        let stepped = shown(alloc, &step_all(alloc, script, input, most)?)?;
        check(rt, script, &stepped.as_str(), &answer);
    }
    Ok(())
}

/// A run writes this text and has nothing to tell.
fn check_quiet(
    rt: &impl Abort,
    alloc: Global,
    script: &str,
    input: &str,
    text: &str,
) -> Result<(), Fail> {
    let answer = format!(in alloc; "{text}=>\nstatus 3\n")?;
    check_run(rt, alloc, script, input.as_bytes(), answer.as_str())
}

/// What is written for an input can be read again.
fn is_read_again(alloc: Global, script: &str, input: &[u8]) -> Result<bool, Fail> {
    let first = run_all(alloc, script, input, 9000)?;
    let again = run_all(alloc, script, first.text.as_slice(), 9000)?;
    Ok(!matches!(again.report.end, End::Syntax(_)))
}

/// Each front of an input has an outcome, and what was written for it can be read again.
fn check_fronts(rt: &impl Abort, alloc: Global, script: &str, input: &[u8]) -> Result<(), Fail> {
    for len in 0..input.len() {
        let is_read = is_read_again(alloc, script, &input[..len])?;
        check(rt, script, &(len, is_read), &(len, true));
    }
    Ok(())
}

/// The script and the input of a row.
fn cut_asked<'t>(alloc: Global, asked: &'t str) -> Result<(&'t str, String), Fail> {
    let (script, input) = asked.split_once('\n').ok_or("a row without an input")?;
    Ok((script, plain(alloc, input)?))
}

/// What sets an attribute that no statement of a row has, and what sets none.
const SET: &str = "set a 1 ! -:*";

const SAME: &str = "set_if_absent name z ! -:*";

/// What marks no statement.
const NONE: &str = "set a 1 ! -:%none";

fn check_row(rt: &impl Abort, alloc: Global, asked: &str, answer: &str) -> Result<(), Fail> {
    let (script, input) = cut_asked(alloc, asked)?;
    check_run(rt, alloc, script, input.as_bytes(), answer)
}

fn check_rows(rt: &impl Abort, alloc: Global, table: &str) -> Result<(), Fail> {
    for (asked, answer) in cut_rows(alloc, table)? {
        check_row(rt, alloc, asked, answer)?;
    }
    Ok(())
}

#[test]
fn runs_byte_by_byte(rt: HostRuntime) -> Result<(), Fail> {
    check_rows(&rt, rt.alloc(), RUNS)?;
    check_rows(&rt, rt.alloc(), NAMELESS)
}

// The text of a run is written again as it stands, and nothing is told of it.
#[test]
fn runs_again(rt: HostRuntime) -> Result<(), Fail> {
    for (_, answer) in cut_rows(rt.alloc(), RUNS)? {
        let (text, _) = answer.split_once("=>\n").ok_or("a row without a status")?;
        check_quiet(&rt, rt.alloc(), SAME, text, text)?;
    }
    Ok(())
}

#[test]
fn blocks_byte_by_byte(rt: HostRuntime) -> Result<(), Fail> {
    let alloc = rt.alloc();
    let input = format!(in alloc; "{BLOCK}\n# c\nz=1\n")?;
    let text = format!(in alloc; "{BLOCK}\n# c\nz = 1\n")?;
    check_quiet(&rt, alloc, SET, input.as_str(), text.as_str())?;
    check_quiet(&rt, alloc, SAME, text.as_str(), text.as_str())?;
    check_fronts(&rt, alloc, SET, input.as_bytes())
}

fn check_text(rt: &impl Abort, alloc: Global, input: &str, text: &str) -> Result<(), Fail> {
    let input = plain(alloc, input)?;
    check_quiet(rt, alloc, NONE, input.as_str(), text)
}

// What no pass marks is laid out too, and its text is copied.
#[test]
fn layouts_byte_by_byte(rt: HostRuntime) -> Result<(), Fail> {
    for (input, text) in cut_rows(rt.alloc(), TEXTS)? {
        check_text(&rt, rt.alloc(), input, text)?;
        check_quiet(&rt, rt.alloc(), NONE, text, text)?;
    }
    Ok(())
}

fn check_row_fronts(rt: &impl Abort, alloc: Global, asked: &str) -> Result<(), Fail> {
    let (script, input) = cut_asked(alloc, asked)?;
    check_fronts(rt, alloc, script, input.as_bytes())
}

#[test]
fn fronts_of_inputs(rt: HostRuntime) -> Result<(), Fail> {
    for (asked, _) in cut_rows(rt.alloc(), RUNS)? {
        check_row_fronts(&rt, rt.alloc(), asked)?;
    }
    Ok(())
}

#[test]
fn not_utf8(rt: HostRuntime) -> Result<(), Fail> {
    let bad = b"x = \"\xff\"\n";
    let answer = "=>\nmessage: 1:6: not UTF-8\nstatus 2\n";
    check_run(&rt, rt.alloc(), SET, bad, answer)?;
    check_fronts(&rt, rt.alloc(), SET, bad)
}

/// What a run without passes writes and tells.
fn ran_without(alloc: Global, input: &str) -> Result<String, Fail> {
    let mut feed = Feed::new(Input::Bytes(input.as_bytes()), Piece::Line, None);
    let mut drip = Drip::new(alloc, 9000, None);
    let (home, _) = read_script(alloc, "print name ! -:*")?;
    let report = run(
        alloc,
        home,
        Vec::new(alloc),
        program(true),
        &mut feed,
        &mut drip,
    )?;
    let outcome = Outcome {
        text: drip.taken,
        report,
    };
    shown(alloc, &outcome)
}

// A run without passes asks for nothing: it writes no text, and tells the fault of a file alone.
#[test]
fn without_passes(rt: HostRuntime) -> Result<(), Fail> {
    for (input, wanted) in [
        ("x=1\n", "=>\nstatus 3\n"),
        (
            "x=1\ny=(\n",
            "=>\nmessage: 2:3: bracket is not closed\nstatus 2\n",
        ),
    ] {
        let found = ran_without(rt.alloc(), input)?;
        check(&rt, input, &found.as_str(), &wanted);
    }
    Ok(())
}
