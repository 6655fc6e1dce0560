//! Canonical texts, texts on one line, and empty lines.

use crate::checks::{check, check_table, check_value, read, statement};
use crate::table::{BLOCK, cut_rows, plain};
use crate::texts::TEXTS;
use crate::trees;
use bz_layout::{blank_between, flat, put_gap, put_stmt};
use bz_tree::{Class, Group, Node, Stmt};
use std::alloc::Global;
use std::process::Abort;
use std::test::Fail;

/// Texts that are canonical as they stand.
const CANONICAL: &str = r##"
---
f(
    data = ["x"],
    # d
    deps = [
        # one
        "x",
        "y",  # two
    ],
    name = "a",
)
---
f(
    name = "a",
    data = [
        "x",
        "y",  # two
    ],
)
---
x = not -f(*a, **k)
---
load(
    "m",  # a
    "b",
)
---
x = f(
    # a
)
---
(
    # a
    # b
    x  # c
    # d
    # e
)
---
(
    # a
    x,
)
---
(
    x,
    y,  # a
)
---
x[
    # a
    1:2  # b
]
---
[
    a for a in b
    # c
]
---
{
    # c
    a: b for a, b in c
}
---
{
    a: 1,  # b
}
"##;

fn put_copy(alloc: Global, stmt: &Stmt<'_>, out: &mut Vec<u8>) -> Result<(), Fail> {
    put_stmt(alloc, &stmt.copy(alloc)?, out)?;
    Ok(())
}

fn put_chunk(alloc: Global, text: &str, out: &mut Vec<u8>) -> Result<(), Fail> {
    match read(alloc, text)? {
        Some(stmt) => put_copy(alloc, &stmt, out),
        None => Ok(()),
    }
}

/// The canonical text of the copy of a chunk's statement, after a comment.
fn written(alloc: Global, text: &str) -> Result<Vec<u8>, Fail> {
    let mut out = b"# above\n".to_vec(alloc)?;
    put_chunk(alloc, text, &mut out)?;
    Ok(out)
}

/// Whether these bytes are written for the statement of a chunk.
fn is_written(alloc: Global, text: &str, wanted: &str) -> Result<bool, Fail> {
    let all = format!(in alloc; "# above\n{wanted}")?;
    Ok(written(alloc, text)?.as_slice() == all.as_bytes())
}

/// Whether two chunks have one statement, but where strings may be respelled.
fn is_same_statement(alloc: Global, a: &str, b: &str) -> Result<bool, Fail> {
    Ok(a.contains('\'') || trees::shown(alloc, a)? == trees::shown(alloc, b)?)
}

/// What is wrong with a text that has to be written for a chunk.
fn fault_of(alloc: Global, text: &str, wanted: &str) -> Result<&'static str, Fail> {
    if !is_written(alloc, text, wanted)? {
        Ok("not written")
    } else if !is_written(alloc, wanted, wanted)? {
        Ok("not written again as it stands")
    } else if !is_same_statement(alloc, text, wanted)? {
        Ok("another statement")
    } else {
        Ok("none")
    }
}

fn fault_of_row(alloc: Global, text: &str, wanted: &str) -> Result<&'static str, Fail> {
    let text = plain(alloc, text)?;
    fault_of(alloc, text.as_str(), wanted)
}

// What is written is the same statement, and is written again as it stands.
#[test]
fn canonical_texts(rt: HostRuntime) -> Result<(), Fail> {
    let alloc = rt.alloc();
    for (text, wanted) in cut_rows(alloc, TEXTS)? {
        check(&rt, text, fault_of_row(alloc, text, wanted)?, "none");
    }
    Ok(())
}

#[test]
fn texts_that_stand(rt: HostRuntime) -> Result<(), Fail> {
    for text in CANONICAL.split("---\n").skip(1) {
        check(&rt, text, fault_of(rt.alloc(), text, text)?, "none");
    }
    Ok(())
}

#[test]
fn text_of_block(rt: HostRuntime) -> Result<(), Fail> {
    let alloc = rt.alloc();
    let block = format!(in alloc; "{BLOCK}\n")?;
    check(&rt, BLOCK, fault_of(alloc, block.as_str(), BLOCK)?, "none");
    Ok(())
}

/// A statement, and its text on one line.
const FLAT: &str = r##"
- x ! -x
+ 1 ! +1
~ ( x ) ! ~(x)
- - x ! --x
- not - x ! -not -x
not - x ! not -x
a or + x ! a or +x
a - x ! a - x
1 - x ! 1 - x
"a" + x ! "a" + x
( a ) - x ! (a) - x
f ( ) - x ! f() - x
[ a ] + [ b ] ! [a] + [b]
a * - x ! a * -x
a - ~ x ! a - ~x
a == - x ! a == -x
a , - x ! a, -x
x = - y ! x = -y
x -= y ! x -= y
{ a : - x } ! {a: -x}
x = not - f ( * a , ** k ) ! x = not -f(*a, **k)
f ( * a , ** k ) ! f(*a, **k)
f ( a * b ) ! f(a * b)
f ( * - a ) ! f(*-a)
a . b . c ( ) ! a.b.c()
"a" ( b ) ! "a"(b)
"a" . f ( b ) ! "a".f(b)
"a" [ 1 ] ! "a"[1]
f ( ) ( a ) [ b ] ! f()(a)[b]
load ( "m" , "a" ) ! load("m", "a")
not ( a ) ! not (a)
a in [ b ] ! a in [b]
a not in b ! a not in b
a if b else c ! a if b else c
x [ : ] ! x[:]
x [ : : ] ! x[::]
x [ a : b : c ] ! x[a:b:c]
x [ 1 : - 2 ] ! x[1:-2]
x [ a + b : not c ] ! x[a + b:not c]
x [ { a : b } ] ! x[{a: b}]
{ a [ 1 : 2 ] : b } ! {a[1:2]: b}
{ a : b for a , b in c } ! {a: b for a, b in c}
( ) ! ()
( x ) ! (x)
( x ,) ! (x,)
( x , y ) ! (x, y)
[ ] ! []
[ k + v for k , v in d . items ( ) ] ! [k + v for k, v in d.items()]
[ 'a' , b'x' ] ! ["a", b'x']
'' ! ""
'a"b' ! 'a"b'
'a\n' ! 'a\n'
r'a' ! r'a'
'''a''' ! '''a'''
"a" ! "a""##;

/// A statement, and the text of the first segment of its first bracket on one line.
const FLAT_SEGMENTS: &str = r##"
x[1 : - 2] ! 1:-2
{a : b} ! a: b
{a : b for c in d} ! a: b for c in d
x = f(* a) ! *a
f(** a) ! **a"##;

/// The first bracket.
fn first_group<'s, 'a>(nodes: &'s [Node<'a>]) -> Option<&'s Group<'a>> {
    for node in nodes {
        if let Node::Group(group) = node {
            return Some(group);
        }
    }
    None
}

fn flat_text(alloc: Global, text: &str) -> Result<String, Fail> {
    let stmt = statement(alloc, text)?;
    let text = flat(alloc, &stmt.nodes, None)?;
    Ok(text)
}

/// The first segment of the first bracket.
fn first_segment(alloc: Global, nodes: &[Node<'_>]) -> Result<String, Fail> {
    let group = first_group(nodes).ok_or("no bracket")?;
    let segment = group.segs.first().ok_or("no segment")?;
    let text = flat(alloc, &segment.nodes, Some(group.kind))?;
    Ok(text)
}

fn flat_segment(alloc: Global, text: &str) -> Result<String, Fail> {
    let stmt = statement(alloc, text)?;
    first_segment(alloc, &stmt.nodes)
}

#[test]
fn texts_on_one_line(rt: HostRuntime) -> Result<(), Fail> {
    let alloc = rt.alloc();
    check_table(&rt, alloc, FLAT, flat_text)?;
    check_table(&rt, alloc, FLAT_SEGMENTS, flat_segment)
}

fn check_gap(
    rt: &impl Abort,
    alloc: Global,
    before: Option<Class>,
    after: Class,
    wanted: &str,
) -> Result<(), Fail> {
    let mut text = Vec::new(alloc);
    put_gap(before, after, &mut text)?;
    let found = (before, after, text.as_slice());
    check_value(rt, "gap", &found, &(before, after, wanted.as_bytes()));
    let found = (before, after, blank_between(before, after));
    check_value(rt, "blank", &found, &(before, after, wanted == "\n"));
    Ok(())
}

#[test]
fn empty_lines(rt: HostRuntime) -> Result<(), Fail> {
    for (before, after, wanted) in [
        (None, Class::Rule, ""),
        (Some(Class::Load), Class::Load, ""),
        (Some(Class::Load), Class::Assign, "\n"),
        (Some(Class::Comment), Class::Comment, "\n"),
        (Some(Class::Assign), Class::Assign, ""),
        (Some(Class::Rule), Class::Rule, "\n"),
        (Some(Class::Block), Class::Block, "\n"),
        (Some(Class::Assign), Class::Load, "\n"),
    ] {
        check_gap(&rt, rt.alloc(), before, after, wanted)?;
    }
    Ok(())
}
