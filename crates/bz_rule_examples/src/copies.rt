//! Copies of statements that outlive what they were made of.

use crate::checks::{check, check_value, statement};
use crate::labels::package;
use bz_layout::put_stmt;
use bz_rule::{apply, read_command};
use bz_tree::Stmt;
use std::alloc::Global;
use std::test::Fail;

const RULE: &str = r#"# above
f(
    # of name
    name = "a",  # beside
    deps = [
        "x",
        # end
    ],
)  # last
"#;

const WITH_ELEMENT: &str = r#"# above
f(
    # of name
    name = "a",  # beside
    deps = [
        "x",
        "y",
        # end
    ],
)  # last
"#;

fn laid_out(alloc: Global, stmt: &Stmt<'_>) -> Result<String, Fail> {
    let mut text = Vec::new(alloc);
    put_stmt(alloc, stmt, &mut text)?;
    let text = String::from_utf8(text)?;
    Ok(text)
}

/// A copy of the statement of a text. The statement and the text end here.
fn copy_of_text<'a>(alloc: Global, text: &str) -> Result<Stmt<'a>, Fail> {
    let text = String::from_str(alloc, text)?;
    let stmt = statement(alloc, text.as_str())?;
    let copy = stmt.copy(alloc)?;
    Ok(copy)
}

#[test]
fn copy_outlives_its_chunk(rt: HostRuntime) -> Result<(), Fail> {
    let alloc = rt.alloc();
    let copy = copy_of_text(alloc, RULE)?;
    check(&rt, "copy", laid_out(alloc, &copy)?.as_str(), RULE);
    check_value(&rt, "lines", &(copy.start, copy.end), &(2, 9));
    Ok(())
}

/// A command is applied to a statement whose copy is kept, and then to the copy of what it made.
#[test]
fn copy_stays_where_its_original_is_edited(rt: HostRuntime) -> Result<(), Fail> {
    let alloc = rt.alloc();
    let home = package(alloc, "//p:a")?;
    let add = read_command(alloc, "add deps y")?.ok_or("no command")?;
    let mut slot = Some(statement(alloc, RULE)?);
    let copy = slot.as_ref().ok_or("no statement")?.copy(alloc)?;
    let done = apply(alloc, &add, &home, &mut slot)?;
    check_value(&rt, "changed", &done.changed, &true);
    check(&rt, "copy", laid_out(alloc, &copy)?.as_str(), RULE);
    let mut edited = Some(slot.as_ref().ok_or("no statement")?.copy(alloc)?);
    let remove = read_command(alloc, "remove deps y")?.ok_or("no command")?;
    let done = apply(alloc, &remove, &home, &mut edited)?;
    check_value(&rt, "changed again", &done.changed, &true);
    let left = edited.ok_or("no statement")?;
    check(&rt, "left", laid_out(alloc, &left)?.as_str(), RULE);
    let made = slot.ok_or("no statement")?;
    check(&rt, "made", laid_out(alloc, &made)?.as_str(), WITH_ELEMENT);
    Ok(())
}

/// Nothing is done where no rule is, whatever the memory; a command that changes nothing leaves the statement as it is.
#[test]
fn commands_that_change_nothing(rt: HostRuntime) -> Result<(), Fail> {
    let alloc = rt.alloc();
    let home = package(alloc, "//p:a")?;
    let add = read_command(alloc, "add deps x")?.ok_or("no command")?;
    let mut slot = None;
    let done = apply(alloc, &add, &home, &mut slot)?;
    check_value(
        &rt,
        "empty",
        &(done.changed, slot.is_none()),
        &(false, true),
    );
    let mut slot = Some(statement(alloc, RULE)?);
    let done = apply(alloc, &add, &home, &mut slot)?;
    let left = slot.ok_or("no statement")?;
    check_value(&rt, "changed", &done.changed, &false);
    check(&rt, "left", laid_out(alloc, &left)?.as_str(), RULE);
    Ok(())
}
