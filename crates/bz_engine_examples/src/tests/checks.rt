//! How an answer is checked, and what a run over two devices answers. A test calls `check`, since an assertion in a
//! test of many costs its proof much.

use crate::script::{program, read_script};
use bz_engine::{RunFault, Sink, Source, run};
use std::alloc::Global;
use std::fmt::Debug;
use std::process::Abort;
use std::test::Fail;

/// Checks an answer; `row` names it.
pub fn check<T: PartialEq + Debug>(rt: &impl Abort, row: &str, found: &T, wanted: &T) {
    assert_eq!(rt; *found, *wanted, "{row}");
}

/// Sets an attribute over the devices, and answers the fault or the status.
pub fn ran<S: Source, W: Sink>(
    alloc: Global,
    source: &mut S,
    sink: &mut W,
) -> Result<Result<u8, RunFault>, Fail> {
    let (home, passes) = read_script(alloc, "set n 7 ! -:*")?;
    match run(alloc, home, passes, program(true), source, sink) {
        Ok(report) => Ok(Ok(report.status())),
        Err(fault) => Ok(Err(fault)),
    }
}
