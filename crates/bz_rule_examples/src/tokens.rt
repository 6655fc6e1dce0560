//! Tokens and their places, first faults, what is UTF-8, first chunks, and what goes on with a block.

ghost use Rattle.std.specs.Prelude.{IsTrue};
ghost use Rattle.bz_token.specs.Cuts.{is_physical_line, ends_in_newline};

use crate::checks::{check_table, check_value};
use bumpalo::Bump;
use bz_token::{Cut, Cutter, LexFault, Next, Token, check_utf8, first_chunk, tokens};
use std::alloc::Global;
use std::process::Abort;
use std::test::Fail;

/// A text, and its tokens or its first fault.
const TOKENS: &str = r##"
---
x=1
->
Identifier "x" 1:1 first
Operator "=" 1:2
Integer "1" 1:3
Newline "\n" 1:4
---
x = 0X1f␄
->
Identifier "x" 1:1 first
Operator "=" 1:3
Integer "0X1f" 1:5
---
for\␍
 rb'\''# a ␉␍
->
Keyword "for" 1:1 first
String "rb'\\''" 2:2 first
Comment "# a" 2:8
Newline "\n" 2:14
---
(␍
#
'\␍
')␍
->
Operator "(" 1:1 first
Comment "#" 2:1 first
String "'\\\r\n'" 3:1 first
Operator ")" 4:2 first
Newline "\n" 4:4
---
"""#
""
\""""//=x
->
String "\"\"\"#\n\"\"\n\\\"\"\"\"" 1:1 first
Operator "//=" 3:6 first
Identifier "x" 3:9
Newline "\n" 3:10
---
xr"é""" != y␄
->
Identifier "xr" 1:1 first
String "\"é\"" 1:3
String "\"\"" 1:7
Operator "!=" 1:10
Identifier "y" 1:13
---
x = $
->
BadCharacter { line: 1, col: 5 }
---
1é␄
->
BadCharacter { line: 1, col: 2 }
---
0b1
->
BadNumber { line: 1, col: 1 }
---
x \ y
->
BadBackslash { line: 1, col: 3 }
---
x\␍␄
->
BadBackslash { line: 1, col: 2 }
---
f(
->
OpenBracket { line: 1, col: 2 }
---
([]{␄
->
OpenBracket { line: 1, col: 4 }
---
x = r'a\'
->
OpenText { line: 1, col: 5 }
---

"""""␄
->
OpenText { line: 2, col: 1 }
---
(]␄
->
BadBracket { line: 1, col: 2 }
"##;

fn put_token(alloc: Global, token: &Token<'_>, out: &mut String) -> Result<(), Fail> {
    let Token {
        kind,
        text,
        line,
        col,
        fresh,
    } = *token;
    let first = if fresh { " first" } else { "" };
    let shown = format!(in alloc; "{kind:?} {text:?} {line}:{col}{first}\n")?;
    out.push_str(shown.as_str())?;
    Ok(())
}

fn shown_tokens(alloc: Global, tokens: &[Token<'_>]) -> Result<String, Fail> {
    let mut out = String::new(alloc);
    for token in tokens {
        put_token(alloc, token, &mut out)?;
    }
    Ok(out)
}

fn shown(alloc: Global, text: &str) -> Result<String, Fail> {
    if text.len() > 1000 {
        return Err("a long text".into());
    }
    let shown = match tokens(alloc, text, 1, 100) {
        Ok(found) => shown_tokens(alloc, &found)?,
        Err(fault) => format!(in alloc; "{fault:?}\n")?,
    };
    Ok(shown)
}

#[test]
fn tokens_of_texts(rt: HostRuntime) -> Result<(), Fail> {
    check_table(&rt, rt.alloc(), TOKENS, shown)
}

/// A text whose brackets may be so deep in one another has this first fault.
fn check_fault(rt: &impl Abort, alloc: Global, text: &str, max_depth: u8, fault: LexFault) {
    let found = tokens(alloc, text, 1, max_depth).err();
    check_value(rt, text, &found, &Some(fault));
}

#[test]
fn faults_of_brackets(rt: HostRuntime) {
    let alloc = rt.alloc();
    check_fault(&rt, alloc, ")", 0, LexFault::BadBracket { line: 1, col: 1 });
    check_fault(&rt, alloc, "((", 1, LexFault::TooDeep { line: 1, col: 2 });
    check_fault(&rt, alloc, "(", 0, LexFault::TooDeep { line: 1, col: 1 });
}

#[test]
fn utf8(rt: HostRuntime) {
    check_value(&rt, "[97, 255]", &check_utf8(&[97, 255]), &Err(1));
    check_value(&rt, "é", &check_utf8(b"\xc3\xa9"), &Ok("é"));
}

/// Whether the first line of a file is a chunk.
fn is_first_chunk(line: &[u8]) -> bool
    requires { IsTrue (is_physical_line line.now) }
{
    let mut cutter = Cutter::new();
    matches!(cutter.line(line), Cut::Whole)
}

#[test]
fn first_lines_end_chunks(rt: HostRuntime) {
    check_value(&rt, "# a", &is_first_chunk(b"# a\n"), &false);
    check_value(&rt, "x = [", &is_first_chunk(b"x = [\n"), &false);
    check_value(&rt, "]", &is_first_chunk(b"]\n"), &true);
    check_value(&rt, "an empty line", &is_first_chunk(b"\n"), &true);
    check_value(&rt, "x = \"a", &is_first_chunk(b"x = \"a\n"), &true);
}

/// How many of four lines one cutter takes as a file has them: a comment, a statement of two lines, and an empty line.
fn lines_taken() -> usize {
    let mut cutter = Cutter::new();
    let Cut::More = cutter.line(b"# a\n") else {
        return 0;
    };
    let Cut::More = cutter.line(b"x = [\n") else {
        return 1;
    };
    let Cut::Whole = cutter.line(b"]\n") else {
        return 2;
    };
    let Cut::Whole = cutter.line(b"\n") else {
        return 3;
    };
    4
}

#[test]
fn lines_on_one_cutter(rt: HostRuntime) {
    check_value(&rt, "four lines", &lines_taken(), &4);
}

/// What ends a block that begins with this line.
fn after(header: &[u8], ahead: &str, at_end: bool) -> Option<Next>
    requires one_line { IsTrue (is_physical_line header.now) }
    requires newline { IsTrue (ends_in_newline header.now) }
{
    let mut cutter = Cutter::new();
    match cutter.line(header) {
        Cut::Block => Some(cutter.goes_on(ahead.as_bytes(), at_end)),
        Cut::More | Cut::Whole => None,
    }
}

/// What follows an `if`, whether that is all, and whether it goes on with the block.
const AFTER_IF: &str = r##"
els more ! Short
else end ! Goes
else: more ! Goes
elsewhere more ! Ends
else more ! Short
el end ! Ends
e more ! Short
elif end ! Goes
elif: more ! Goes
␍␊ more ! Goes
# more ! Ends
\ more ! Ends"##;

fn after_if(alloc: Global, asked: &str) -> Result<String, Fail> {
    let (ahead, end) = asked.split_once(' ').ok_or("a row without an end")?;
    let next = after(b"if a:\n", ahead, end == "end").ok_or("no block")?;
    let shown = format!(in alloc; "{next:?}")?;
    Ok(shown)
}

#[test]
fn if_blocks_go_on(rt: HostRuntime) -> Result<(), Fail> {
    check_table(&rt, rt.alloc(), AFTER_IF, after_if)
}

/// This ends a block that begins with this line, or none begins with it.
fn check_after(rt: &impl Abort, header: &[u8], ahead: &str, at_end: bool, wanted: Option<Next>)
    requires one_line { IsTrue (is_physical_line header.now) }
    requires newline { IsTrue (ends_in_newline header.now) }
{
    check_value(rt, ahead, &after(header, ahead, at_end), &wanted);
}

#[test]
fn blocks_go_on(rt: HostRuntime) {
    let def = b"def f():\n";
    check_after(&rt, def, "else:", false, Some(Next::Ends));
    check_after(&rt, def, " x", false, Some(Next::Goes));
    check_after(&rt, def, "\n", false, Some(Next::Goes));
    check_after(&rt, def, "", true, Some(Next::Ends));
    check_after(&rt, def, "", false, Some(Next::Short));
    check_after(&rt, b"for x in y:\n", "x", false, Some(Next::Ends));
    check_after(&rt, b" if a:\n", " ", false, None);
    check_after(&rt, b"iff = 1\n", " ", false, None);
    check_after(&rt, b"def f('\n", " ", false, None);
}

/// Texts, and the length of the chunk that they begin with, and the number of its tokens; or that none is found.
const CHUNKS: &str = r##"
x = 1␊y = 2␊ ! 6 4
x # a␊y ! 6 3
f(␊␊# a␊)␊y ! 10 5
'''␊'''␊x ! 8 2
 \␊ x␊ ! 6 2
iff␊ ! 4 2
␊x␊ ! 1 1
 ␊␊ ! 2 1
# a␊  # b␊␊x␊ ! 11 5
# a␊f(␊)␊x␊ ! 9 6
␄ ! none
x = 1 ! none
f(␊ ! none
# a␊# b␊ ! none
# a␊f(␊  'b ! none
f("""a ! none
f("""a␊ ! none
f('a␊ ! none
def f ! none
def f():␊  pass␊␊ ! none
# a␊for x in y:␊ ! none
if x:␊ ! none
x = $␊␊ ! none
)␊␊ ! none"##;

/// The length of the chunk that a text begins with and the number of its tokens, or `none`.
fn shown_chunk(alloc: Global, text: &str) -> Result<String, Fail> {
    if text.len() > 1000 {
        return Ok(String::from_str(alloc, "none")?);
    }
    let bump = Bump::new(alloc);
    match first_chunk(&bump, text, 1, 100)? {
        Some(chunk) => {
            let (length, tokens) = (chunk.text.len(), chunk.tokens.len());
            Ok(format!(in alloc; "{length} {tokens}")?)
        }
        None => Ok(String::from_str(alloc, "none")?),
    }
}

#[test]
fn first_chunks(rt: HostRuntime) -> Result<(), Fail> {
    check_table(&rt, rt.alloc(), CHUNKS, shown_chunk)
}
