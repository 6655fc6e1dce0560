//! Each fault of a text, told as itself by `parse` and by `run`.

use crate::drip::Drip;
use crate::feed::{Feed, Input, Piece};
use crate::script::{limited, read_script};
use crate::tests::checks::check;
use bz_engine::{End, SyntaxFault, run};
use bz_rule_examples::table::{cut_rows, plain};
use bz_tree::{ParseFault, parse};
use std::alloc::Global;
use std::test::Fail;

/// How deep the brackets of the rows may be in one another.
const DEPTH: u8 = 2;

/// A chunk and its fault, one row for each fault but want of memory.
const FAULTS: &str = r#"
---
x = $␄
->
Lex(BadCharacter { line: 1, col: 5 })
---
x = 1z␄
->
Lex(BadNumber { line: 1, col: 5 })
---
x = [
  "a,
␄
->
Lex(OpenText { line: 2, col: 3 })
---
x = (1]␄
->
Lex(BadBracket { line: 1, col: 7 })
---
x = [
  f(
␄
->
Lex(OpenBracket { line: 2, col: 4 })
---
x = [[[]]]␄
->
Lex(TooDeep { line: 1, col: 7 })
---
x = \ 1␄
->
Lex(BadBackslash { line: 1, col: 5 })
---
 x = 1␄
->
Indented { line: 1 }
---
x = 1 2␄
->
NotAStatement { line: 1 }
"#;

/// The fault of a short chunk.
fn fault_of(alloc: Global, text: &str) -> Option<ParseFault> {
    if text.len() > 1000 {
        return None;
    }
    parse(alloc, text, 1, DEPTH).err()
}

/// The fault at which a run over a text ends.
fn fault_of_run(alloc: Global, text: &str) -> Result<Option<ParseFault>, Fail> {
    let mut feed = Feed::new(Input::Bytes(text.as_bytes()), Piece::AtMost(1), None);
    let mut drip = Drip::new(alloc, 1, None);
    let (home, passes) = read_script(alloc, "set a 1 ! -:*")?;
    let options = limited(999, DEPTH, 999);
    let report = run(alloc, home, passes, options, &mut feed, &mut drip)?;
    match report.end {
        End::Syntax(SyntaxFault::Parse(fault)) => Ok(Some(fault)),
        _ => Ok(None),
    }
}

/// What `parse` and `run` tell of a text.
fn told(alloc: Global, text: &str) -> Result<String, Fail> {
    let text = plain(alloc, text)?;
    let fault = fault_of(alloc, text.as_str()).ok_or("no fault")?;
    let of_run = fault_of_run(alloc, text.as_str())?;
    if of_run == Some(fault) {
        Ok(format!(in alloc; "{fault:?}\n")?)
    } else {
        Ok(format!(in alloc; "{fault:?}, of a run {of_run:?}\n")?)
    }
}

#[test]
fn each_fault_is_told(rt: HostRuntime) -> Result<(), Fail> {
    let alloc = rt.alloc();
    for (text, wanted) in cut_rows(alloc, FAULTS)? {
        let told = told(alloc, text)?;
        check(&rt, text, &told.as_str(), &wanted);
    }
    Ok(())
}
