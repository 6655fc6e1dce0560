//! How a table is checked, and a statement is read.

use crate::table::{cut_rows, plain};
use bz_tree::{ParseFault, Stmt, parse};
use std::alloc::Global;
use std::fmt::Debug;
use std::process::Abort;
use std::test::Fail;

/// Checks an answer; `row` names it. A test calls this, since an assertion in a test of many costs its proof much.
pub fn check(rt: &impl Abort, row: &str, found: &str, wanted: &str) {
    assert_eq!(rt; found, wanted, "{row}");
}

/// Checks a value that is no text.
pub fn check_value<T: PartialEq + Debug>(rt: &impl Abort, row: &str, found: &T, wanted: &T) {
    assert_eq!(rt; *found, *wanted, "{row}");
}

/// Checks that `shown` makes of each row its answer.
pub fn check_table<F: Fn(Global, &str) -> Result<String, Fail>>(
    rt: &impl Abort,
    alloc: Global,
    table: &str,
    shown: F,
) -> Result<(), Fail>
    requires { F.IsAlwaysCallable shown }
{
    for (asked, wanted) in cut_rows(alloc, table)? {
        let text = plain(alloc, asked)?;
        let found = shown(alloc, text.as_str())?;
        let wanted = plain(alloc, wanted)?;
        check(rt, asked, found.as_str(), wanted.as_str());
    }
    Ok(())
}

/// The statement of a short chunk.
pub fn read<'a>(alloc: Global, text: &'a str) -> Result<Option<Stmt<'a>>, ParseFault> {
    if text.len() > 1000 {
        return Err(ParseFault::NotAStatement { line: 1 });
    }
    parse(alloc, text, 1, 100)
}

/// The statement of a short chunk that has one.
pub fn statement<'a>(alloc: Global, text: &'a str) -> Result<Stmt<'a>, Fail> {
    let stmt = read(alloc, text)?.ok_or("no statement")?;
    Ok(stmt)
}
