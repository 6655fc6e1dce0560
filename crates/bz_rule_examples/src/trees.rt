//! Trees, owners of comments, the grammar, blocks and faults. `checks.rt` and `layout.rt` call `shown`, and `rows.rt`
//! the names of kinds and classes.

use crate::checks::{check, check_table, read, statement};
use crate::table::{BLOCK, cut_rows};
use bz_tree::{Class, Group, GroupKind, Node, Seg, Stmt};
use std::alloc::Global;
use std::borrow::CowStr;
use std::test::Fail;

/// A chunk, and the copy of its statement or its fault. A statement is its class, and then the comments above it, its
/// nodes and its suffix; so is each segment, between angles and without a class. `|` stands before a bracket's end
/// comments. What each comment belongs to: `Owners.antt` of bz_tree.
const TREES: &str = r##"
---
f (
 name = "a" ,
 deps = [ #c1
 "x" , #c2
 "y" #c3
 , "z"
 #c4
 ] ,
 )␄
->
Rule :f rule{<:name = "a" :><:deps = list{<#c1 :"x" :#c2><:"y" :#c3><:"z" :>|#c4 } :>|} :
---
f ( #a
 )␄
->
Rule :f rule{|#a } :
---
[ x , #a
 #b
 ]␄
->
Other :list{<:x :#a>|#b } :
---
[ x #a
 #b
 , #c
 #d
 ]␄
->
Other :list{<#b #c :x :#a>|#d } :
---
[ x
 #b
 , #c
 ]␄
->
Other :list{<#b :x :#c>|} :
---
[ #a
 x + #b
 y #c
 , #d
 z #e
 #f
 ]␄
->
Other :list{<#a #b #d :x + y :#c><:z :#e>|#f } :
---
[ [ x #a
 ] #b
 , y ]␄
->
Other :list{<:list{<:x :#a>|} :#b><:y :>|} :
---
x [ #a
 1 #b
 #c
 ]␄
->
Other :x index{<#a :1 :#b>|#c } :
---
( #a
 x #b
 #c
 )␄
->
Other :paren{<#a :x :#b>|#c } :
---
{ #a
 k : 1 , #b
 #c
 }␄
->
Other :dict{<#a :k : 1 :#b>|#c } :
---
load ( #a
 "m" , #b
 #c
 )␄
->
Load :load load{<#a :"m" :#b>|#c } :
---
[ k for k , #a
 v in d #b
 #c
 ]␄
->
Other :listcomp{<#a :k for k , v in d :#b>|#c } :
---
{ k : 1 for k in d }␄
->
Other :dictcomp{<:k : 1 for k in d :>|} :
---
#a
#b
x = 1 , 2 #c
->
Assign #a #b :x = 1 , 2 :#c
---
#a
  #b␄
->
Comment #a #b ::
---
x = ( )␄
->
Assign :x = paren{|} :
---
x = ( 1 )␄
->
Assign :x = paren{<:1 :>|} :
---
x = ( 1 , )␄
->
Assign :x = paren{<:1 :>,|} :
---
x = ( 1 , 2 , )␄
->
Assign :x = paren{<:1 :><:2 :>|} :
---
x = [ 1 , ]␄
->
Assign :x = list{<:1 :>|} :
---
x = a . f ( 1 ) ( 2 )␄
->
Assign :x = a . f call{<:1 :>|} call{<:2 :>|} :
---
a . f ( 1 , )␄
->
Rule :a . f rule{<:1 :>|} :
---
f ( x ) ( y )␄
->
Other :f call{<:x :>|} call{<:y :>|} :
---
( f ) ( x )␄
->
Other :paren{<:f :>|} call{<:x :>|} :
---
"a" . f ( x )␄
->
Other :"a" . f call{<:x :>|} :
---
f ( a ) . b␄
->
Other :f call{<:a :>|} . b :
---
load ( "m" , a = "b" , )␄
->
Load :load load{<:"m" :><:a = "b" :>|} :
---
x = { } [ 1 ]␄
->
Assign :x = dict{|} index{<:1 :>|} :
---
x = [ k + v for k , v in d . items ( ) ]␄
->
Assign :x = listcomp{<:k + v for k , v in d . items call{|} :>|} :
---
x = [ a for b in c if d if e ]␄
->
Assign :x = listcomp{<:a for b in c if d if e :>|} :
---
x += 1␄
->
Assign :x += 1 :
---
not ( x )␄
->
Other :not paren{<:x :>|} :
---
# a
  # b
def f(x):
  return x \

->
Block # a # b :def f(x):
  return x :
---
for x in y: pass
->
Block :for x in y: pass :
---
if : x␄
->
Block :if : x :
---
if a:
  if b:
    c
  d
->
Block :if a:
  if b:
    c
  d :
---
 
->
blank
---
f(a b)
->
NotAStatement { line: 1 }
---
f(,)
->
NotAStatement { line: 1 }
---
x = 
->
NotAStatement { line: 1 }
---
1.5
->
NotAStatement { line: 1 }
---
x = [a, b for c in d]
->
NotAStatement { line: 1 }
---
x = {a: b, for c in d}
->
NotAStatement { line: 1 }
---
"a" "b"
->
NotAStatement { line: 1 }
---
# c
x = {a}
->
NotAStatement { line: 2 }
---
x = 1 ␍ y = 2
->
NotAStatement { line: 1 }
---
  y = 2
->
Indented { line: 1 }
---
# c
 y = 
->
Indented { line: 2 }
---
def f():
  x
 y
->
Indented { line: 3 }
---
def f(): x
  y
->
Indented { line: 2 }
---
def f():
# c
x
->
Indented { line: 3 }
---
def f():
->
NotAStatement { line: 1 }
---
def f(a: b)
  c
->
Indented { line: 2 }
---
if (a: b)
->
NotAStatement { line: 1 }
---
x = )
->
Lex(BadBracket { line: 1, col: 5 })
---
 x = "
->
Lex(OpenText { line: 1, col: 6 })
"##;

fn put_texts(texts: &[CowStr<'_>], out: &mut String) -> Result<(), Fail> {
    for text in texts {
        out.push_str(text.as_str())?;
        out.push(' ')?;
    }
    Ok(())
}

fn put_suffix(suffix: &Option<CowStr<'_>>, out: &mut String) -> Result<(), Fail> {
    out.push(':')?;
    if let Some(text) = suffix {
        out.push_str(text.as_str())?;
    }
    Ok(())
}

/// The end of a bracket.
fn put_close(group: &Group<'_>, out: &mut String) -> Result<(), Fail> {
    if group.one_comma {
        out.push(',')?;
    }
    out.push('|')?;
    put_texts(&group.end, out)?;
    out.push('}')?;
    Ok(())
}

#[cycle(show)]
fn put_nodes(nodes: &[Node<'_>], out: &mut String) -> Result<(), Fail> {
    for node in nodes {
        match node {
            Node::Token(leaf) => out.push_str(leaf.text.as_str())?,
            Node::Group(group) => put_group(group, out)?,
        }
        out.push(' ')?;
    }
    Ok(())
}

#[cycle(show)]
fn put_seg(seg: &Seg<'_>, out: &mut String) -> Result<(), Fail> {
    out.push('<')?;
    put_texts(&seg.before, out)?;
    out.push(':')?;
    put_nodes(&seg.nodes, out)?;
    put_suffix(&seg.suffix, out)?;
    out.push('>')?;
    Ok(())
}

pub fn kind_name(kind: GroupKind) -> &'static str {
    match kind {
        GroupKind::Call => "call",
        GroupKind::RuleCall => "rule",
        GroupKind::Load => "load",
        GroupKind::Paren => "paren",
        GroupKind::List => "list",
        GroupKind::Index => "index",
        GroupKind::Dict => "dict",
        GroupKind::ListComp => "listcomp",
        GroupKind::DictComp => "dictcomp",
    }
}

#[cycle(show)]
fn put_group(group: &Group<'_>, out: &mut String) -> Result<(), Fail> {
    out.push_str(kind_name(group.kind))?;
    out.push('{')?;
    for seg in &group.segs {
        put_seg(seg, out)?;
    }
    put_close(group, out)
}

pub fn class_name(class: Class) -> &'static str {
    match class {
        Class::Load => "Load",
        Class::Assign => "Assign",
        Class::Rule => "Rule",
        Class::Other => "Other",
        Class::Comment => "Comment",
        Class::Block => "Block",
    }
}

fn put_tree(stmt: &Stmt<'_>, out: &mut String) -> Result<(), Fail> {
    out.push_str(class_name(stmt.class))?;
    out.push(' ')?;
    put_texts(&stmt.before, out)?;
    out.push(':')?;
    put_nodes(&stmt.nodes, out)?;
    put_suffix(&stmt.suffix, out)
}

/// The copy of a statement.
fn shown_tree(alloc: Global, stmt: &Stmt<'_>) -> Result<String, Fail> {
    let copy = stmt.copy(alloc)?;
    let mut out = String::new(alloc);
    put_tree(&copy, &mut out)?;
    out.push('\n')?;
    Ok(out)
}

/// The copy of the statement of a chunk, or its fault.
pub fn shown(alloc: Global, text: &str) -> Result<String, Fail> {
    match read(alloc, text) {
        Ok(None) => Ok(String::from_str(alloc, "blank\n")?),
        Ok(Some(stmt)) => shown_tree(alloc, &stmt),
        Err(fault) => Ok(format!(in alloc; "{fault:?}\n")?),
    }
}

/// The block of the table of texts has a tree too.
#[test]
fn trees_of_chunks(rt: HostRuntime) -> Result<(), Fail> {
    let alloc = rt.alloc();
    check_table(&rt, alloc, TREES, shown)?;
    let block = BLOCK.trim_end();
    let table = format!(in alloc; "\n---\n{BLOCK}\n->\nBlock :{block} :\n")?;
    check_table(&rt, alloc, table.as_str(), shown)
}

/// What the grammar accepts, and what it refuses.
const GRAMMAR: &str = r##"
1 = 2 ! x = 
f ( x ) = y ! x = y = z
a , b += c ! x = 1 ,
x ! x ; y
load ( "m" , "a" , b = "c" ) ! load ( )
load ( "m" , ) ! load ( a = "b" )
load ( "m" ) ! load ( "m" ) + 1
a , b , c ! a , , b
x = a if b else c ! x = a if b
x = a if b else c if d else e ! x = a if b if c else d
x = a < b < c ! x = a <
x = not - ~ a + not b ! x = a not b
x = a not in b ! x = a in not
x = a or b and c ! x = a ** b
x = a . b ( c ) [ d ] ! x = a .
x = 1 [ 2 ] ! 1 . 5
x = 1 ( 2 ) . b ! "a" "b"
x = [ ] + { } + ( ) ! x = { a }
True ( name = "a" ) ! x = lambda
x = ( a , b ) ! x = ( a , , b )
x = [ a , b , ] ! [ , ]
f ( ** k , * a , b = c , d ) ! f ( a b )
f ( a if b else c ) ! f ( , )
f ( - a ) ! f ( x for x in y )
f ( a . b , c = d , ) ! f ( a . b = c )
x = { a : b , c : d , } ! x = { a : b , c }
x = { a if b else c : d } ! x = { a : }
x = [ a for b , c in d ] ! x = [ a for b , in c ]
x = [ a for b in c for d in e if f ] ! x = [ a for b in ]
x = [ a if b else c for d . e in f ] ! x = [ a for - b in c ]
x = { a : b for c in d } ! x = { a for b in c }
x = [ a for b in c or d ] ! x = [ a for b in c if ]
x = a [ 1 ] ! x = a [ ]
x = a [ : ] ! x = a [ 1 , ]
x = a [ 1 : 2 : 3 ] ! x = a [ 1 : 2 : 3 : 4 ]
x = a [ : : 3 ] ! x = a [ 1 2 ]
x = a [ 1 : ] ! x = a [ for ]
x = ( [ { } ] ) ! ( ]
x = ( ) ! (
x = [ ] ! x = ]"##;

fn answer(alloc: Global, text: &str) -> &'static str {
    match read(alloc, text) {
        Ok(Some(_)) => "accepted",
        Ok(None) => "blank",
        Err(_) => "refused",
    }
}

#[test]
fn grammar(rt: HostRuntime) -> Result<(), Fail> {
    let alloc = rt.alloc();
    for (accepted, refused) in cut_rows(alloc, GRAMMAR)? {
        check(&rt, accepted, answer(alloc, accepted), "accepted");
        check(&rt, refused, answer(alloc, refused), "refused");
    }
    Ok(())
}

/// A chunk, and the lines on which its statement begins and ends.
const LINES: &str = r##"
---
# c
f(
    name = "a",
)
->
2 4
---
g(name = "b") # c
->
1 1
---
x = """a
b"""
->
1 2
---
# c
# d
->
1 2
---
# c
if a:
  b # d
  # e

->
2 4
"##;

fn shown_lines(alloc: Global, text: &str) -> Result<String, Fail> {
    let stmt = statement(alloc, text)?;
    let Stmt { start, end, .. } = stmt;
    let shown = format!(in alloc; "{start} {end}\n")?;
    Ok(shown)
}

#[test]
fn lines_of_statements(rt: HostRuntime) -> Result<(), Fail> {
    check_table(&rt, rt.alloc(), LINES, shown_lines)
}
