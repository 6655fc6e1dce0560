//! The lines of a report, in a loop and by their place.

use crate::drip::Drip;
use crate::script::{program, read_script};
use crate::tests::checks::check;
use bz_engine::{FromRead, Report, Session, Texts};
use std::alloc::Global;
use std::test::Fail;

const TWO_RULES: &[u8] = b"f(name = \"a\")\ng(name = \"b\")\n";

/// Two commands that print a line for each of two rules.
fn printed(alloc: Global) -> Result<Report, Fail> {
    let (home, passes) = read_script(alloc, "print name ! print kind ! //p:*")?;
    let mut session = Session::new(alloc, home, passes, program(true))?;
    let mut source = FromRead::new(TWO_RULES);
    let mut drip = Drip::new(alloc, 99, None);
    for _ in 0..3 {
        session.step(&mut source, &mut drip)?;
    }
    Ok(session.finish()?)
}

/// Each of these lines, with a space after it.
fn joined(alloc: Global, lines: &Texts) -> Result<String, Fail> {
    let mut text = String::new(alloc);
    for line in lines {
        text.push_str(line)?;
        text.push(' ')?;
    }
    Ok(text)
}

#[test]
fn gives_each_line(rt: HostRuntime) -> Result<(), Fail> {
    let report = printed(rt.alloc())?;
    let text = joined(rt.alloc(), &report.lines)?;
    check(&rt, "lines", &text.as_str(), &"a b f g ");
    Ok(())
}

#[test]
fn gives_a_line_by_its_place(rt: HostRuntime) -> Result<(), Fail> {
    let report = printed(rt.alloc())?;
    let lines = &report.lines;
    let found = (lines.get(0), lines.get(3), lines.get(4), lines.len());
    check(&rt, "lines", &found, &(Some("a"), Some("g"), None, 4));
    Ok(())
}
