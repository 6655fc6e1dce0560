//! Runs at size: that there is memory for long statements, tokens, commands and scripts, which no clause can say.

use crate::drip::Drip;
use crate::feed::{Feed, Input, Piece};
use crate::script::{program, read_script};
use crate::tests::checks;
use bz_engine::run;
use std::alloc::Global;
use std::process::Abort;
use std::test::Fail;

/// The numbers from 10,000 on, so many, each with a text before and one after it.
fn numbered(alloc: Global, before: &str, count: u64, after: &str) -> Result<String, Fail> {
    let mut text = String::new(alloc);
    for i in 0..count {
        let number = i.saturating_add(10_000);
        let row = format!(in alloc; "{before}{number}{after}")?;
        text.push_str(row.as_str())?;
    }
    Ok(text)
}

/// A rule whose attribute is a list of so many labels, as it is written.
fn rule(alloc: Global, attr: &str, count: u64) -> Result<String, Fail> {
    let labels = numbered(alloc, "        \"//some/package:", count, "\",\n")?;
    Ok(format!(in alloc; "f(\n    name = \"a\",\n    {attr} = [\n{labels}    ],\n)\n")?)
}

/// A run over an input writes this text, and its status is 0 where that is another.
fn check(
    rt: &impl Abort,
    alloc: Global,
    script: &str,
    input: &str,
    wanted: &str,
) -> Result<(), Fail> {
    let mut feed = Feed::new(Input::Bytes(input.as_bytes()), Piece::AtMost(9000), None);
    let mut drip = Drip::new(alloc, 9000, None);
    let (home, passes) = read_script(alloc, script)?;
    let report = run(alloc, home, passes, program(true), &mut feed, &mut drip)?;
    let status = if input == wanted { 3 } else { 0 };
    let found = (report.status(), drip.taken.as_slice() == wanted.as_bytes());
    checks::check(rt, "status and text", &found, &(status, true));
    Ok(())
}

/// A run that has nothing to do writes this again, which is longer than so many bytes.
fn check_same(rt: &impl Abort, alloc: Global, text: &str, bytes: usize) -> Result<(), Fail> {
    checks::check(rt, "is long", &(text.len() > bytes), &true);
    check(rt, alloc, "set_if_absent name z ! -:*", text, text)
}

// A statement of 200 KiB with 20,000 tokens, and a token of 70 KiB.
#[test]
fn long_statement(rt: HostRuntime) -> Result<(), Fail> {
    let alloc = rt.alloc();
    let many = rule(alloc, "deps", 10_000)?;
    check_same(&rt, alloc, many.as_str(), 200 * 1024)?;
    let digits = numbered(alloc, "", 14_400, "")?;
    let token = format!(in alloc; "x = \"{digits}\"\n")?;
    check_same(&rt, alloc, token.as_str(), 70 * 1024)
}

// Commands of 2,000 values, some 40 KiB, and of 10 KiB in one word; 1,000 elements that move.
#[test]
fn many_values(rt: HostRuntime) -> Result<(), Fail> {
    let alloc = rt.alloc();
    let values = numbered(alloc, " //some/package:", 2_000, "")?;
    let add = format!(in alloc; "add deps{values} ! -:a")?;
    let added = rule(alloc, "deps", 2_000)?;
    check(
        &rt,
        alloc,
        add.as_str(),
        "f(name = \"a\")\n",
        added.as_str(),
    )
}

#[test]
fn long_word(rt: HostRuntime) -> Result<(), Fail> {
    let alloc = rt.alloc();
    let digits = numbered(alloc, "", 2_100, "")?;
    let set = format!(in alloc; "set n {digits} ! -:*")?;
    let long = format!(in alloc; "f(n = {digits})\n")?;
    check(&rt, alloc, set.as_str(), "f()\n", long.as_str())
}

#[test]
fn many_elements(rt: HostRuntime) -> Result<(), Fail> {
    let alloc = rt.alloc();
    let deps = rule(alloc, "deps", 1_000)?;
    let data = rule(alloc, "data", 1_000)?;
    let script = "move deps data * ! -:a";
    check(&rt, alloc, script, deps.as_str(), data.as_str())
}

// 500 passes, each over what the one before it left.
#[test]
fn long_scripts(rt: HostRuntime) -> Result<(), Fail> {
    let alloc = rt.alloc();
    let sets = numbered(alloc, "set n ", 499, " ! -:* ; ")?;
    let script = format!(in alloc; "{sets}set n last ! -:*")?;
    check(
        &rt,
        alloc,
        script.as_str(),
        "f(n = 1)\n",
        "f(n = \"last\")\n",
    )
}
