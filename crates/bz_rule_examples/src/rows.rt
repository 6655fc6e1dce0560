//! Rows: the parts of statements, and the statements whose trees are read first.

use crate::checks::{check_table, check_value};
use crate::table::plain;
use crate::trees::{class_name, kind_name};
use bumpalo::Bump;
use bz_token::{LexFault, tokens_in};
use bz_tree::{ParseFault, Part, Row, read_row, read_statement, read_text};
use std::alloc::Global;
use std::test::Fail;

/// A chunk, and its parts with its class at the end. A bracket's kind stands where it opens; `,)` closes `(x,)`, `;`
/// ends a segment, and a comment is above (`^`) or beside (`>`).
const ROWS: &str = r##"
---
#a

#b
f ( #c
 name = "a" , #d
 #e
 deps = [ "x" , "y" #f
 #g
 ] + select ( { "a" : [ ] , } ) #h
 #i
 ) #j
->
^#a ^#b f rule ^#c name = "a" ; >#d ^#e deps = list "x" ; "y" ; >#f ^#g ) + select call dict "a" : list ) ; ) ; ) ; >#h ^#i ) >#j Rule
---
#a

 #b
->
^#a ^#b Comment
---
#a␄
->
^#a Comment
---
#a
load ( #b
 "a" , "b" , #c
 #d
 c = "d" #e
 #f
 ) #g
->
^#a load load ^#b "a" ; "b" ; >#c ^#d c = "d" ; >#e ^#f ) >#g Load
---
load ( "a" , )␄
->
load load "a" ; ) Load
---
a . b ( )␄
->
a . b rule ) Rule
---
x = f ( 1 , ) ( - 2 )
->
x = f call 1 ; ) call - 2 ; ) Assign
---
( x , )␄
->
paren x ; ,) Other
---
( x , y , )␄
->
paren x ; y ; ) Other
---
a , b += """
""" , not c #d
->
a , b += """
""" , not c >#d Assign
---
[ 1 , """
""" #a
 ]␄
->
list 1 ; """
""" ; >#a ) Other
"##;

/// Chunks of which `read_row` has no row, and what they are read as: the row that their tree gives, nothing, or a
/// fault.
const RARE: &str = r##"
---
␄
->
blank
---
 x
->
Indented { line: 1 }
---
x y
->
NotAStatement { line: 1 }
---
f ( a ] )
->
Lex(BadBracket { line: 1, col: 7 })
---
#a
def f ( ) :
  pass #b
->
^#a def f ( ) :
  pass #b Block
---
[ x for x in y #a
 ]
->
listcomp x for x in y ; >#a ) Other
---
x [ 1 : """
""" ] #a
->
x index 1 : """
""" ; ) >#a Other
---
f ( ) . x
->
f call ) . x Other
---
f ( x #a
 + y )
->
f rule ^#a x + y ; ) Rule
---
f ( x #a
 , y )
->
f rule x ; >#a y ; ) Rule
---
f ( ) #a
#b
->
^#b f rule ) >#a Rule
"##;

/// Chunks of which `read_row` has no row.
const TREES: &str = r##"
---
␄
---
 x
---
x y
---
f ( x , , y )
---
f ( a ] )
---
load ( )
---
load ( a = "b" )
---
load ( "a" , b )
---
load ( "a" ) . b
---
x = load ( "a" )
---
f ( load ( "a" ) )
---
load "a"
---
load [ "a" ]
---
def f ( ) :
  pass
---
[ x for x in y ]
---
x [ 1 ]
---
f ( ) . x
---
f ( x #a
 + y )
---
f ( x #a
 , y )
---
f ( ) #a
#b
"##;

fn put_part(part: Part<'_>, out: &mut String) -> Result<(), Fail> {
    match part {
        Part::Token(_, text) => out.push_str(text)?,
        Part::Open(kind) => out.push_str(kind_name(kind))?,
        Part::Close(true) => out.push_str(",)")?,
        Part::Close(false) => out.push(')')?,
        Part::End => out.push(';')?,
        Part::Above(text) => {
            out.push('^')?;
            out.push_str(text)?;
        }
        Part::Beside(text) => {
            out.push('>')?;
            out.push_str(text)?;
        }
    }
    out.push(' ')?;
    Ok(())
}

fn put_parts(row: &Row<'_>, out: &mut String) -> Result<(), Fail> {
    for part in &row.parts {
        put_part(*part, out)?;
    }
    Ok(())
}

fn shown_row(alloc: Global, row: &Row<'_>) -> Result<String, Fail> {
    let mut out = String::new(alloc);
    put_parts(row, &mut out)?;
    out.push_str(class_name(row.class))?;
    out.push('\n')?;
    Ok(out)
}

/// The row of a short chunk. None: it has none, or no tokens.
fn row_of<'a>(bump: &'a Bump, text: &'a str) -> Result<Option<Row<'a>>, Fail> {
    if text.len() > 1000 {
        return Ok(None);
    }
    match tokens_in(bump, text, 1, 100) {
        Ok(tokens) => Ok(read_row(bump, tokens)?),
        Err(_) => Ok(None),
    }
}

/// The row of a chunk as text.
fn shown(alloc: Global, text: &str) -> Result<String, Fail> {
    let bump = Bump::new(alloc);
    let row = row_of(&bump, text)?.ok_or("no row")?;
    let shown = shown_row(alloc, &row)?;
    Ok(shown)
}

/// What a chunk is read as.
fn shown_read(alloc: Global, read: Result<Option<Row<'_>>, ParseFault>) -> Result<String, Fail> {
    match read {
        Ok(None) => Ok(String::from_str(alloc, "blank\n")?),
        Ok(Some(row)) => shown_row(alloc, &row),
        Err(fault) => Ok(format!(in alloc; "{fault:?}\n")?),
    }
}

/// What a short chunk is read as.
fn shown_text(alloc: Global, text: &str) -> Result<String, Fail> {
    if text.len() > 1000 {
        return Ok(String::from_str(alloc, "long")?);
    }
    let bump = Bump::new(alloc);
    let read = read_text(alloc, &bump, text, 1, 100);
    Ok(shown_read(alloc, read)?)
}

/// What a short chunk is read as by its tokens.
fn shown_tokens(alloc: Global, text: &str) -> Result<String, Fail> {
    if text.len() > 1000 {
        return Ok(String::from_str(alloc, "long")?);
    }
    let bump = Bump::new(alloc);
    match tokens_in(&bump, text, 1, 100) {
        Err(_) => shown_text(alloc, text),
        Ok(tokens) => {
            let read = read_statement(alloc, &bump, text, 1, tokens);
            Ok(shown_read(alloc, read)?)
        }
    }
}

fn has_row(alloc: Global, text: &str) -> Result<bool, Fail> {
    let text = plain(alloc, text)?;
    let bump = Bump::new(alloc);
    Ok(row_of(&bump, text.as_str())?.is_some())
}

#[test]
fn rows_of_chunks(rt: HostRuntime) -> Result<(), Fail> {
    check_table(&rt, rt.alloc(), ROWS, shown)
}

#[test]
fn statements_of_chunks(rt: HostRuntime) -> Result<(), Fail> {
    let alloc = rt.alloc();
    check_table(&rt, alloc, ROWS, shown_text)?;
    check_table(&rt, alloc, ROWS, shown_tokens)?;
    check_table(&rt, alloc, RARE, shown_text)?;
    check_table(&rt, alloc, RARE, shown_tokens)
}

#[test]
fn chunks_left_to_trees(rt: HostRuntime) -> Result<(), Fail> {
    let alloc = rt.alloc();
    for text in TREES.split("---\n").skip(1) {
        check_value(&rt, text, &has_row(alloc, text)?, &false);
    }
    Ok(())
}
