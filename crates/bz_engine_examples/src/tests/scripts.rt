//! The words of a call and the lines of a command file, each row read by the public call that it is about.

use crate::tests::checks::check;
use bz_rule::{Package, Target, label};
use bz_rule_examples::table::{cut_rows, plain};
use bz_script::{
    Flags, Script, by_package, check_inputs, read_command_file, read_flags, read_script,
    whole_status,
};
use std::alloc::Global;
use std::process::Abort;
use std::test::Fail;

/// The words of a row, which stand apart by commas.
fn words(alloc: Global, row: &str) -> Result<Vec<String>, Fail> {
    let mut words = Vec::new(alloc);
    for word in row.split(", ") {
        words.push(String::from_str(alloc, word)?)?;
    }
    Ok(words)
}

/// The target of a step, and the number of its commands.
fn push_step(
    alloc: Global,
    text: &mut String,
    step: (&Package, &Target, usize),
) -> Result<(), Fail> {
    let (home, target, count) = step;
    let label = label(alloc, home, target)?;
    text.push_str(format!(in alloc; "{label} by {count}. ")?.as_str())?;
    Ok(())
}

fn shown_script(alloc: Global, script: &Script) -> Result<String, Fail> {
    let mut text = String::new(alloc);
    for (home, pass) in script.iter() {
        push_step(alloc, &mut text, (home, &pass.target, pass.commands.len()))?;
    }
    text.push_str("End")?;
    Ok(text)
}

/// Checks each row of a table: what is shown of the words that it asks for.
fn check_table<F: Fn(Global, &str) -> Result<String, Fail>>(
    rt: &impl Abort,
    alloc: Global,
    table: &str,
    shown: F,
) -> Result<(), Fail>
    requires { F.IsAlwaysCallable shown }
{
    for (row, wanted) in cut_rows(alloc, table)? {
        let found = shown(alloc, row)?;
        check(rt, row, &found.as_str(), &wanted);
    }
    Ok(())
}

/// Words, and the flags and the number of the words after them, or the fault.
const FLAGS: &str = r#"
-x ! UnknownFlag { refused: Refused { line: 0, number: 1, word: '-x' } }
-k=maybe ! BadBoolean { refused: Refused { line: 0, number: 1, word: '-k=maybe' } }
-k, -quiet= ! BadBoolean { refused: Refused { line: 0, number: 2, word: '-quiet=' } }
-f ! NoValue { refused: Refused { line: 0, number: 1, word: '-f' } }
-f, a, b ! WordsWithFile { refused: Refused { line: 0, number: 3, word: 'b' } }
-k, -f=s ! k true, stdout false, quiet false, file Some("s"), 0 words
-f, a, -f=, b ! k false, stdout false, quiet false, file None, 1 words
-k=false, --stdout, --, -:a, print ! k false, stdout true, quiet false, file None, 2 words"#;

fn shown_flags(alloc: Global, row: &str) -> Result<String, Fail> {
    let words = words(alloc, row)?;
    let (flags, rest) = match read_flags(alloc, words.as_slice()) {
        Ok(read) => read,
        Err(fault) => return Ok(format!(in alloc; "{fault:?}")?),
    };
    let Flags {
        k,
        stdout,
        quiet,
        file,
    } = flags;
    let file = file.as_ref().map(|file| file.as_str());
    let count = rest.len();
    Ok(format!(in alloc; "k {k}, stdout {stdout}, quiet {quiet}, file {file:?}, {count} words")?)
}

#[test]
fn flags_of_words(rt: HostRuntime) -> Result<(), Fail> {
    check_table(&rt, rt.alloc(), FLAGS, shown_flags)
}

/// Words, and the targets of their script, each with the number of its commands, or the fault.
const SCRIPTS: &str = r#"
delete ! NoTarget { line: 0 }
//p:a ! NoCommand { first: Refused { line: 0, number: 1, word: '//p:a' } }
add, //p:a ! Command { refused: Refused { line: 0, number: 1, word: 'add' }, fault: WrongCount }
delete, //p: ! Label { refused: Refused { line: 0, number: 2, word: '//p:' }, fault: BadTarget }
-:a, print ! -:a by 1. End
rename x y, set z 3, //p:b, a/b ! //p:b by 2. //a/b:b by 2. End"#;

fn shown_words(alloc: Global, row: &str) -> Result<String, Fail> {
    let words = words(alloc, row)?;
    match read_script(alloc, words.as_slice()) {
        Ok(script) => shown_script(alloc, &script),
        Err(fault) => Ok(format!(in alloc; "{fault:?}")?),
    }
}

#[test]
fn scripts_of_words(rt: HostRuntime) -> Result<(), Fail> {
    check_table(&rt, rt.alloc(), SCRIPTS, shown_words)
}

/// Command files, and their scripts or faults.
const FILES: &str = r#"
␄ ! End
# a|b␊ ␉␊␄ ! End
set name b|print name|//p:a␊print kind|//p:b␊print kind|//p:a␄ ! //p:a by 2. //p:b by 1. //p:a by 1. End
␊delete␄ ! NoTarget { line: 2 }
delete|//p:a␍␊ delete | //p: ␄ ! Label { refused: Refused { line: 2, number: 2, word: '//p:' }, fault: BadTarget }"#;

fn shown_bytes(alloc: Global, bytes: &[u8]) -> Result<String, Fail> {
    match read_command_file(alloc, bytes) {
        Ok(script) => shown_script(alloc, &script),
        Err(fault) => Ok(format!(in alloc; "{fault:?}")?),
    }
}

fn shown_file(alloc: Global, row: &str) -> Result<String, Fail> {
    shown_bytes(alloc, plain(alloc, row)?.as_bytes())
}

#[test]
fn scripts_of_command_files(rt: HostRuntime) -> Result<(), Fail> {
    let alloc = rt.alloc();
    let found = shown_bytes(alloc, &[255])?;
    check(&rt, "the byte 255", &found.as_str(), &"NotUtf8");
    check_table(&rt, alloc, FILES, shown_file)
}

/// Words of flags and words of a script, and whether standard input would be read twice.
const INPUTS: &str = r#"
-f, - ; delete, -:a ! Err(TwoInputs)
-k ; delete, -:a ! Ok(())
-f, - ; delete, //-:a ! Ok(())
-f, s ; delete, //p:a, -:a ! Ok(())"#;

fn shown_inputs(alloc: Global, row: &str) -> Result<String, Fail> {
    let (flags, script) = row.split_once(" ; ").ok_or("a row without a script")?;
    let flags = words(alloc, flags)?;
    let (flags, _) = read_flags(alloc, flags.as_slice())?;
    let script = words(alloc, script)?;
    let script = read_script(alloc, script.as_slice())?;
    let answer = check_inputs(&flags, script.as_slice());
    Ok(format!(in alloc; "{answer:?}")?)
}

#[test]
fn inputs_are_read_once(rt: HostRuntime) -> Result<(), Fail> {
    check_table(&rt, rt.alloc(), INPUTS, shown_inputs)
}

/// Words, and the packages of their script, each with its passes.
const PACKAGES: &str = r#"
delete, //q:b, //p:a, //q:c ! [//q:b by 1. //q:c by 1. ][//p:a by 1. ]
delete, print, -:b, //-:a, -:c ! [-:b by 2. -:c by 2. ][//-:a by 2. ]"#;

fn shown_packages(alloc: Global, row: &str) -> Result<String, Fail> {
    let words = words(alloc, row)?;
    let script = read_script(alloc, words.as_slice())?;
    let mut text = String::new(alloc);
    for (home, passes) in by_package(alloc, script)? {
        text.push('[')?;
        for pass in passes.iter() {
            push_step(alloc, &mut text, (&home, &pass.target, pass.commands.len()))?;
        }
        text.push(']')?;
    }
    Ok(text)
}

#[test]
fn packages_of_scripts(rt: HostRuntime) -> Result<(), Fail> {
    check_table(&rt, rt.alloc(), PACKAGES, shown_packages)
}

#[test]
fn statuses_of_calls(rt: HostRuntime) {
    let of_none = whole_status(&[]);
    let found = [of_none, whole_status(&[0, 3]), whole_status(&[0, 2])];
    check(&rt, "whole_status", &found, &[3, 0, 2]);
}
