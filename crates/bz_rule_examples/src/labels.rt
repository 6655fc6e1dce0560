//! Labels, targets, the values of strings, and how rules are shown. `commands.rt` calls `package`.

use crate::checks::{check, check_table, check_value, statement};
use crate::table::{cut_rows, plain};
use bumpalo::Bump;
use bz_label::ending;
use bz_rule::{
    Package, StatementRow, Target, label, matches, quote, read_label, same, shown, value_is,
};
use bz_token::{Kind, Token};
use bz_tree::{Leaf, Node, Stmt};
use std::alloc::Global;
use std::collections::HashMap;
use std::process::Abort;
use std::test::Fail;

fn token<'a>(kind: Kind, text: &'a str) -> Token<'a> {
    Token {
        kind,
        text,
        line: 1,
        col: 1,
        fresh: true,
    }
}

/// Literals, and their values.
const VALUES: &str = r##"
'a\tb' ! a␉b
"""a␍␊b""" ! a␊b
r'a' ! a
'' ! ␄
'''a'␊''' ! a'␊
'a␍b' ! a␍b
'\n\r\t\\\'\"' ! ␊␍␉\'""##;

/// Literals, and what is not their value.
const NO_VALUES: &str = r##"
r"\d" ! \d
b'a' ! a
'\x' ! x
'a ! a
'a''b' ! a
'a\␊b' ! ab
'a' ! b
a ! a"##;

fn is_value(alloc: Global, literal: &str, value: &str) -> Result<bool, Fail> {
    let literal = plain(alloc, literal)?;
    let value = plain(alloc, value)?;
    let token = token(Kind::String, literal.as_str());
    Ok(value_is(&token, value.as_str()))
}

fn check_values(rt: &impl Abort, alloc: Global, table: &str, wanted: bool) -> Result<(), Fail> {
    for (literal, value) in cut_rows(alloc, table)? {
        check_value(rt, literal, &is_value(alloc, literal, value)?, &wanted);
    }
    Ok(())
}

#[test]
fn values_of_strings(rt: HostRuntime) -> Result<(), Fail> {
    check_values(&rt, rt.alloc(), VALUES, true)
}

#[test]
fn what_is_no_value(rt: HostRuntime) -> Result<(), Fail> {
    check_values(&rt, rt.alloc(), NO_VALUES, false)
}

#[test]
fn values_of_tokens(rt: HostRuntime) {
    let bells = token(Kind::String, "'\\a\\b\\f\\v'");
    let are_bells = value_is(&bells, "\x07\x08\x0c\x0b");
    check_value(&rt, "bells", &are_bells, &true);
    let is_value = value_is(&token(Kind::Identifier, "'a'"), "a");
    check_value(&rt, "identifier", &is_value, &false);
}

/// The token that a leaf was read from.
fn token_of<'a>(leaf: &'a Leaf<'_>) -> Token<'a> {
    Token {
        kind: leaf.kind,
        text: leaf.text.as_str(),
        line: leaf.line,
        col: leaf.col,
        fresh: leaf.fresh,
    }
}

/// Whether a leaf of the statement, outside brackets, has this value.
fn has_leaf_of_value(stmt: &Stmt<'_>, value: &str) -> bool {
    for node in &stmt.nodes {
        if let Node::Token(leaf) = node {
            if value_is(&token_of(leaf), value) {
                return true;
            }
        }
    }
    false
}

#[test]
fn value_of_a_leaf(rt: HostRuntime) -> Result<(), Fail> {
    let stmt = statement(rt.alloc(), "x = 'a\\tb'\n")?;
    check_value(&rt, "a tab", &has_leaf_of_value(&stmt, "a\tb"), &true);
    check_value(&rt, "x", &has_leaf_of_value(&stmt, "x"), &false);
    Ok(())
}

/// Values, and their literals.
const QUOTED: &str = r##"
a"b\␊ ! "a\"b\\\n"
␍␉é ! "\r\té""##;

fn quoted(alloc: Global, text: &str) -> Result<String, Fail> {
    let literal = quote(alloc, text)?;
    Ok(literal)
}

#[test]
fn quotes(rt: HostRuntime) -> Result<(), Fail> {
    check_table(&rt, rt.alloc(), QUOTED, quoted)
}

/// Labels, and how they are shown, or why they are refused.
const LABELS: &str = r##"
//a/b ! //a/b:b, has to mark
a/b:c ! //a/b:c, has to mark
//:a ! //:a, has to mark
:a ! //:a, has to mark
-:* ! -:*, may mark nothing
//-:a ! //-:a, has to mark
-x:a ! //-x:a, has to mark
//p:__pkg__ ! //p:__pkg__, has to mark
//p:%a.b ! //p:%a.b, may mark nothing
//p:%7 ! //p:%7, has to mark
p:%007 ! //p:%7, has to mark
//a/* ! //a/*:*, has to mark
//a//b:c ! BadPackage
//p: ! BadTarget
- ! BadTarget
new f x ! BadPackage
////a ! BadPackage
//@x:y ! BadPackage
//a/../b:c ! BadPackage
//a//b: ! BadPackage
// ! BadTarget
 ! BadTarget
//p:a:b ! BadTarget
//p:% ! BadTarget
//p:%for ! BadTarget
//p:%18446744073709551616 ! BadTarget"##;

fn shown_target(alloc: Global, home: &Package, target: &Target) -> Result<String, Fail> {
    let mut shown = label(alloc, home, target)?;
    shown.push_str(if target.must_mark() {
        ", has to mark"
    } else {
        ", may mark nothing"
    })?;
    Ok(shown)
}

fn shown_label(alloc: Global, text: &str) -> Result<String, Fail> {
    let shown = match read_label(alloc, text) {
        Ok((home, target)) => shown_target(alloc, &home, &target)?,
        Err(fault) => format!(in alloc; "{fault:?}")?,
    };
    Ok(shown)
}

#[test]
fn labels(rt: HostRuntime) -> Result<(), Fail> {
    check_table(&rt, rt.alloc(), LABELS, shown_label)
}

pub fn package(alloc: Global, label: &str) -> Result<Package, Fail> {
    let (package, _) = read_label(alloc, label)?;
    Ok(package)
}

/// Labels, and the paths of their packages.
const PATHS: &str = r##"
a/b:c ! Some("a/b")
-:c ! None"##;

fn shown_path(alloc: Global, label: &str) -> Result<String, Fail> {
    let package = package(alloc, label)?;
    let path = package.path();
    Ok(format!(in alloc; "{path:?}")?)
}

#[test]
fn paths_of_packages(rt: HostRuntime) -> Result<(), Fail> {
    check_table(&rt, rt.alloc(), PATHS, shown_path)
}

/// Labels, and the numbers of their packages.
const NUMBERS: &str = r##"
a:c ! Some(1)
-:c ! Some(2)
//-:c ! None"##;

fn numbers(alloc: Global) -> Result<HashMap<Package, u8>, Fail> {
    let mut numbers = HashMap::new(alloc);
    numbers.insert(package(alloc, "//a:b")?, 1)?;
    numbers.insert(package(alloc, "-:b")?, 2)?;
    Ok(numbers)
}

fn number(alloc: Global, label: &str) -> Result<Option<u8>, Fail> {
    let package = package(alloc, label)?;
    Ok(numbers(alloc)?.get(&package).copied())
}

fn shown_number(alloc: Global, label: &str) -> Result<String, Fail> {
    let number = number(alloc, label)?;
    Ok(format!(in alloc; "{number:?}")?)
}

#[test]
fn numbers_of_packages(rt: HostRuntime) -> Result<(), Fail> {
    check_table(&rt, rt.alloc(), NUMBERS, shown_number)
}

/// A label of a package, and two labels there, of which the first may be empty.
const SAME: &str = r##"
//p:a :x //p:x ! same
//p:a //a/b //a/b:b ! same
//p:a x :x ! same
//p:a x //q:x ! others
//p:a /x :/x ! others
//p:a @x :@x ! others
//p:a  : ! others
-:a x :x ! same
-:a x //-:x ! others"##;

fn are_same(alloc: Global, home: &str, a: &str, b: &str) -> Result<bool, Fail> {
    let home = package(alloc, home)?;
    Ok(same(a, b, &home))
}

fn shown_same(alloc: Global, asked: &str) -> Result<String, Fail> {
    let (home, labels) = asked.split_once(' ').ok_or("a row without labels")?;
    let (a, b) = labels.split_once(' ').ok_or("a row of one label")?;
    let are_same = are_same(alloc, home, a, b)?;
    Ok(String::from_str(alloc, if are_same { "same" } else { "others" })?)
}

#[test]
fn same_labels(rt: HostRuntime) -> Result<(), Fail> {
    check_table(&rt, rt.alloc(), SAME, shown_same)
}

/// Texts, and what is after their last colon or slash.
const ENDINGS: &str = r##"
//a/b:c ! c
//a/b ! b
:x ! x
x ! x
@r//a:b/c ! c
a/b:c:d ! d"##;

fn shown_ending(alloc: Global, text: &str) -> Result<String, Fail> {
    Ok(String::from_str(alloc, ending(text))?)
}

#[test]
fn endings(rt: HostRuntime) -> Result<(), Fail> {
    check_table(&rt, rt.alloc(), ENDINGS, shown_ending)
}

/// Labels and statements, and whether they are marked.
const MARKS: &str = r##"
//p:%f f() ! marked
//p:* f() ! marked
//p:* x = 1 ! not
//p:a f(name = 'a') ! marked
//p:a f() ! not
//p:a f(name = r'a\b') ! not
//p:b f(name = 'a') ! not
//p:%g f(name = 'a') ! not
//p:__pkg__ f(name = 'a') ! not
//p:__pkg__ package() ! marked
//p:b f(x = [name], name = 'a', name = 'b') ! not
//p:%a.b a . b() ! marked
//p:%a.b a.b() + f() ! not
//p:%a a.b() ! not
//p:%3 # c␊# d␊f(name = 'a') ! marked
//p:%1 # c␊# d␊f(name = 'a') ! not
//p:%3 # c␊# d␊x = 1 ! not"##;

/// Whether the statement is marked: as a tree, and as a row.
fn are_marked(alloc: Global, target: &Target, text: &str) -> Result<(bool, bool), Fail> {
    let bump = Bump::new(alloc);
    let stmt = statement(alloc, text)?;
    let row = StatementRow::of_stmt(alloc, &bump, &stmt)?;
    Ok((matches(target, &stmt), row.is_marked_by(target)))
}

fn shown_mark(alloc: Global, asked: &str) -> Result<String, Fail> {
    let (label, text) = asked.split_once(' ').ok_or("a row without a statement")?;
    let (_, target) = read_label(alloc, label)?;
    let word = match are_marked(alloc, &target, text)? {
        (true, true) => "marked",
        (false, false) => "not",
        _ => "both",
    };
    Ok(String::from_str(alloc, word)?)
}

#[test]
fn marks(rt: HostRuntime) -> Result<(), Fail> {
    check_table(&rt, rt.alloc(), MARKS, shown_mark)
}

/// Statements, and how they are shown in package `p`.
const SHOWN: &str = r##"
f() ! //p:%f
x = 1 ! ␄
f(name = 'é\tb') ! //p:é␉b
f(name = """a␍␊b""") ! //p:a␊b
f(name = r'a') ! //p:a
f(name = b'a') ! //p:%f
f(name = '') ! //p:"##;

fn shown_rule(alloc: Global, home: &Package, text: &str) -> Result<String, Fail> {
    let stmt = statement(alloc, text)?;
    let shown = shown(alloc, home, &stmt)?;
    Ok(shown)
}

fn shown_in(alloc: Global, home: &str, text: &str) -> Result<String, Fail> {
    let home = package(alloc, home)?;
    shown_rule(alloc, &home, text)
}

#[test]
fn shown_rules(rt: HostRuntime) -> Result<(), Fail> {
    check_table(
        &rt,
        rt.alloc(),
        SHOWN,
        |alloc, text| shown_in(alloc, "//p:a", text),
    )
}

#[test]
fn shown_rule_of_input(rt: HostRuntime) -> Result<(), Fail> {
    let shown = shown_in(rt.alloc(), "-:a", "f(name = '')")?;
    check(&rt, "-:a", shown.as_str(), "-:");
    Ok(())
}
