//! Tables in texts. A row stands below a line `---`, and its answer below a line `->`; or both on one line, with ` ! `
//! between. The tables of bz_engine_examples are cut here, too.

use std::alloc::Global;
use std::test::Fail;

/// A block, which stays as it is.
pub const BLOCK: &str = r#"if a:
    def = """
# in the text
"""
else:
    y  =  2

  # tail
"#;

/// The text that a part of a row stands for: `␉`, `␊` and `␍` are a tab, a newline and a carriage return, and `␄` ends
/// it.
pub fn plain(alloc: Global, part: &str) -> Result<String, Fail> {
    let mut text = String::new(alloc);
    for c in part.chars() {
        match c {
            '␉' => text.push('\t')?,
            '␊' => text.push('\n')?,
            '␍' => text.push('\r')?,
            '␄' => return Ok(text),
            _ => text.push(c)?,
        }
    }
    Ok(text)
}

fn cut_row<'t>(row: &'t str, between: &str) -> Result<(&'t str, &'t str), Fail> {
    let cut = row.split_once(between).ok_or("a row without an answer")?;
    Ok(cut)
}

/// The rows of a table, each as what is asked and its answer. They begin below the table's first line, which is empty.
pub fn cut_rows<'t>(alloc: Global, table: &'t str) -> Result<Vec<(&'t str, &'t str)>, Fail> {
    if !table.starts_with('\n') {
        return Err(Fail::from("a row on the first line"));
    }
    let is_long = table.starts_with("\n---\n");
    let (before, between) = if is_long {
        ("---\n", "->\n")
    } else {
        ("\n", " ! ")
    };
    let mut rows = Vec::new(alloc);
    for row in table.split(before).skip(1) {
        rows.push(cut_row(row, between)?)?;
    }
    Ok(rows)
}
