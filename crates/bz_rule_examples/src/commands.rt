//! Each command, once or twice, on a statement of package `p`, by the calls of the library. What commands make of
//! statements, tell and refuse stands in the rows of `tests/commands`, which need no proof.

use crate::checks::{check_table, read};
use crate::labels::package;
use bz_layout::put_stmt;
use bz_rule::forms::Values;
use bz_rule::{Command, Done, Note, Package, apply, read_command, values_sought};
use bz_tree::Stmt;
use std::alloc::Global;
use std::test::Fail;

/// A command and a statement, and the text that is left of it, or the line that is printed.
const EDITS: &str = r##"
---
add deps x w z w
f(name = "a", deps = [":x", 'y'] + ["//p:z"])
->
f(
    name = "a",
    deps = [
        ":x",
        "y",
        "w",
    ] + ["//p:z"],
)
---
add copts -g -g
f(name = "a", copts = [])
->
f(
    name = "a",
    copts = ["-g"],
)
---
add srcs x
f(srcs = glob(["x"]) + ["y"])
->
f(srcs = glob(["x"]) + [
    "y",
    "x",
])
---
remove deps 1 2 3 4 5 6 7 8 //q //p:c
f(deps = ["//q:q"] + ["c", "d"])
->
f(deps = [] + ["d"])
---
remove *
f(name = "a", copts = [])
->
f(name = "a")
---
remove * x
f(name = "a", srcs = ["x"], deps = ["x", "y"])
->
f(
    name = "a",
    deps = ["y"],
)
---
set size small
f(name = "a")
->
f(
    name = "a",
    size = "small",
)
---
set kind a.b
f(name = "a", copts = [])
->
a.b(
    name = "a",
    copts = [],
)
---
set_if_absent tags 7
f(name = "a")
->
f(
    name = "a",
    tags = ["7"],
)
---
rename deps srcs
f(deps = ["x"])
->
f(srcs = ["x"])
---
move deps data *
f(name = "a", deps = ["a", ":b", "//p:b", "c", A, A, "//p:a", "d", "e", "//p:e", "//q:e"], data = [":c", "z"])
->
f(
    name = "a",
    data = [
        ":c",
        "z",
        "a",
        ":b",
        A,
        A,
        "d",
        "e",
        "//q:e",
    ],
)
---
replace * //q:q :y
f(name = "a", deps = [":x", "//q"])
->
f(
    name = "a",
    deps = [
        ":x",
        ":y",
    ],
)
---
comment last
# first
f(name = "a")  # after
->
# first
# last
f(name = "a")  # after
---
comment deps x why
f(name = "a", deps = ["x"])
->
f(
    name = "a",
    deps = [
        # why
        "x",
    ],
)
---
delete
f(name = "a")
->
---
print
f(name = "a", deps = ["x"])
->
a f
---
print q
f(name = "a", deps = ["x"])
->
(missing)
---
print label deps
f(name = "a", deps = ["x y", "z"])
->
//p:a ["x y" z]
"##;

fn text_of(alloc: Global, slot: &Option<Stmt<'_>>) -> Result<String, Fail> {
    let mut text = Vec::new(alloc);
    if let Some(stmt) = slot {
        put_stmt(alloc, stmt, &mut text)?;
    }
    let text = String::from_utf8(text)?;
    Ok(text)
}

/// The line that a command printed, or the text that it left.
fn shown(alloc: Global, done: &Done, slot: &Option<Stmt<'_>>) -> Result<String, Fail> {
    let Some(line) = &done.line else {
        return text_of(alloc, slot);
    };
    let line = format!(in alloc; "{}\n", line.as_str())?;
    Ok(line)
}

fn done_to(alloc: Global, command: &Command, home: &Package, text: &str) -> Result<String, Fail> {
    let mut slot = read(alloc, text)?;
    let done = apply(alloc, command, home, &mut slot)?;
    shown(alloc, &done, &slot)
}

fn edited(alloc: Global, asked: &str) -> Result<String, Fail> {
    let (words, text) = asked.split_once('\n').ok_or("a row without a statement")?;
    let command = read_command(alloc, words)?.ok_or("no command")?;
    let home = package(alloc, "//p:a")?;
    done_to(alloc, &command, &home, text)
}

#[test]
fn commands_on_statements(rt: HostRuntime) -> Result<(), Fail> {
    check_table(&rt, rt.alloc(), EDITS, edited)
}

/// Words, and what they are read as.
const WORDS: &str = r##"
add deps ! WrongCount
set a-b c ! BadAttribute
set kind 1x ! BadKind
comment a␊b ! CommentLine
move a a * ! SameAttribute
//p:a ! no command
print ! prints
delete ! edits"##;

fn word_of(command: &Option<Command>) -> &'static str {
    match command {
        None => "no command",
        Some(command) if command.is_print() => "prints",
        Some(_) => "edits",
    }
}

fn shown_words(alloc: Global, words: &str) -> Result<String, Fail> {
    let shown = match read_command(alloc, words) {
        Ok(command) => String::from_str(alloc, word_of(&command))?,
        Err(fault) => format!(in alloc; "{fault:?}")?,
    };
    Ok(shown)
}

#[test]
fn words_of_commands(rt: HostRuntime) -> Result<(), Fail> {
    check_table(&rt, rt.alloc(), WORDS, shown_words)
}

/// Commands, and the values that they seek in all attributes.
const SOUGHT: &str = r##"
replace * //a:b c ! one //a:b
remove * a b ! a b
remove deps a ! none
replace deps a b ! none"##;

fn shown_sought(alloc: Global, words: &str) -> Result<String, Fail> {
    let command = read_command(alloc, words)?.ok_or("a row without a command")?;
    let shown = match values_sought(&command) {
        Values::Listed([first, second]) => format!(in alloc;
            "{} {}",
            first.as_str(),
            second.as_str()
        )?,
        Values::One(value) => format!(in alloc; "one {value}")?,
        _ => String::from_str(alloc, "none")?,
    };
    Ok(shown)
}

#[test]
fn values_sought_by_commands(rt: HostRuntime) -> Result<(), Fail> {
    check_table(&rt, rt.alloc(), SOUGHT, shown_sought)
}

/// Commands and statements, and why nothing is done to them.
const NOTES: &str = r##"
rename x y␊f(x = 1, y = 2) ! AttributeExists y
rename x y␊f(y = 2) ! NoAttribute x
move x y *␊f(y = ["a"]) ! NoAttribute x
comment x why␊f(y = 2) ! NoAttribute x
add x a␊f(x = 1) ! NotAList x
move x y *␊f(x = ["a"], y = 1) ! NotAList y
comment x a why␊f(x = 1) ! NotAList x
comment x a why␊f(x = ["b"]) ! NoValue x a
print q r␊f(x = 1) ! Missing q
print x␊f(x = 1) ! none
remove y␊f(x = 1) ! none
remove copts x␊f(name = "a", copts = []) ! none
set_if_absent copts x␊f(name = "a", copts = []) ! none
add name x␊f(name = "a", copts = []) ! NotAList name
comment deps y why␊f(name = "a", deps = ["x"]) ! NoValue deps y
rename q r␊f(name = "a", deps = ["x"]) ! NoAttribute q
move name deps *␊f(name = "a", deps = ["x"]) ! NotAList name
replace deps x x␊f(name = "a", deps = ["x"]) ! none
print q␊f(name = "a", deps = ["x"]) ! Missing q
delete␊x = 1 ! none"##;

fn shown_note(alloc: Global, note: &Option<Note>) -> Result<String, Fail> {
    let shown = match note {
        None => String::from_str(alloc, "none")?,
        Some(Note::Missing(attr)) => format!(in alloc; "Missing {}", attr.as_str())?,
        Some(Note::NoAttribute(attr)) => format!(in alloc; "NoAttribute {}", attr.as_str())?,
        Some(Note::AttributeExists(attr)) => format!(in alloc;
            "AttributeExists {}",
            attr.as_str()
        )?,
        Some(Note::NotAList(attr)) => format!(in alloc; "NotAList {}", attr.as_str())?,
        Some(Note::NoValue { attr, value }) => {
            format!(in alloc; "NoValue {} {}", attr.as_str(), value.as_str())?
        }
    };
    Ok(shown)
}

/// What a command that changes nothing notes of a statement.
fn note_of(alloc: Global, command: &Command, home: &Package, text: &str) -> Result<String, Fail> {
    let mut slot = read(alloc, text)?;
    let before = text_of(alloc, &slot)?;
    let done = apply(alloc, command, home, &mut slot)?;
    let after = text_of(alloc, &slot)?;
    if done.changed || after != before {
        return Err(Fail::from("the statement is changed"));
    }
    shown_note(alloc, &done.note)
}

fn noted(alloc: Global, asked: &str) -> Result<String, Fail> {
    let (words, text) = asked.split_once('\n').ok_or("a row without a statement")?;
    let command = read_command(alloc, words)?.ok_or("no command")?;
    let home = package(alloc, "//p:a")?;
    note_of(alloc, &command, &home, text)
}

#[test]
fn notes_of_commands(rt: HostRuntime) -> Result<(), Fail> {
    check_table(&rt, rt.alloc(), NOTES, noted)
}
