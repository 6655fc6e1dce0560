//! Where the leaves of a statement stand in the input.

use crate::checks::{check, statement};
use bz_tree::{Group, Leaf, Node, Stmt};
use std::alloc::Global;
use std::process::Abort;
use std::test::Fail;

const OWNERS: &str = r#"f(
    name = "a",
    deps = [ # c1
        "x", # c2
        "y" # c3
        , "z"
        # c4
    ],
)
"#;

const OWNERS_PLACES: &str = r#"f 1:1 first
name 2:5 first
= 2:10
"a" 2:12
deps 3:5 first
= 3:10
"x" 4:9 first
"y" 5:9 first
"z" 6:11
"#;

const COMMAS: &str = "\n# above\na, b = f(x, y)[0]\n";

const COMMAS_PLACES: &str = r#"a 3:1 first
, 3:2
b 3:4
= 3:6
f 3:8
x 3:10
y 3:13
0 3:16
"#;

const COMPREHENSION: &str = "x = [k+v for k,v in d.items()]\n";

const COMPREHENSION_PLACES: &str = r#"x 1:1 first
= 1:3
k 1:6
+ 1:7
v 1:8
for 1:10
k 1:14
, 1:15
v 1:16
in 1:18
d 1:21
. 1:22
items 1:23
"#;

const BLOCK: &str = "# c\ndef f():\n  x\n";

const BLOCK_PLACES: &str = "def f():\n  x 2:1 first\n";

fn put_leaf(leaf: &Leaf<'_>, out: &mut String) -> Result<(), Fail> {
    out.push_str(leaf.text.as_str())?;
    write!(out, " {}:{}", leaf.line, leaf.col)?;
    if leaf.fresh {
        out.push_str(" first")?;
    }
    out.push('\n')?;
    Ok(())
}

#[cycle(places)]
fn put_group(group: &Group<'_>, out: &mut String) -> Result<(), Fail> {
    for seg in &group.segs {
        put_leaves(&seg.nodes, out)?;
    }
    Ok(())
}

#[cycle(places)]
fn put_leaves(nodes: &[Node<'_>], out: &mut String) -> Result<(), Fail> {
    for node in nodes {
        match node {
            Node::Token(leaf) => put_leaf(leaf, out)?,
            Node::Group(group) => put_group(group, out)?,
        }
    }
    Ok(())
}

/// The leaves of a statement in order, each with its line and its column.
fn leaves(alloc: Global, stmt: &Stmt<'_>) -> Result<String, Fail> {
    let mut out = String::new(alloc);
    put_leaves(&stmt.nodes, &mut out)?;
    Ok(out)
}

// Of a statement and of its copy.
fn check_places(rt: &impl Abort, alloc: Global, text: &str, wanted: &str) -> Result<(), Fail> {
    let stmt = statement(alloc, text)?;
    check(rt, text, leaves(alloc, &stmt)?.as_str(), wanted);
    let copy = stmt.copy(alloc)?;
    check(rt, text, leaves(alloc, &copy)?.as_str(), wanted);
    Ok(())
}

#[test]
fn places_of_leaves(rt: HostRuntime) -> Result<(), Fail> {
    let alloc = rt.alloc();
    check_places(&rt, alloc, OWNERS, OWNERS_PLACES)?;
    check_places(&rt, alloc, COMMAS, COMMAS_PLACES)?;
    check_places(&rt, alloc, COMPREHENSION, COMPREHENSION_PLACES)?;
    check_places(&rt, alloc, BLOCK, BLOCK_PLACES)
}
