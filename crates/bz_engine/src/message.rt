//! The texts of messages.

ghost use Rattle.std.specs.Prelude.{◌≡◌, ◌++◌, codes, string_bytes, IfOk};
ghost use Rattle.bz_attribute.specs.Texts.{home_text};
ghost use Rattle.bz_engine.specs.declared.report.SyntaxFault.TheVariants.{Parse};
ghost use Rattle.bz_engine.specs.Messages.{not_found_text, note_entry, lex_text, fault_text, placed, lined};

use crate::report::SyntaxFault;
use bz_attribute::push_home;
use bz_memory::{NoMemory, push_number, push_str, with_length_of};
use bz_passes::entry::Entry;
use bz_rule::{Note, Package, Target, Text, label};
use bz_token::LexFault;
use bz_tree::ParseFault;
use std::alloc::Global;

/// A target that had to mark something and marked nothing.
pub(crate) fn not_found(alloc: Global, home: &Package, target: &Target) -> Result<Text, NoMemory>
    ensures { IfOk result (λ t. t ≡ not_found_text home.now target.now) }
{
    let mut text = label(alloc, home, target)?;
    push_str(&mut text, ": no such rule")?;
    Ok(Text::from_string(text))
}

/// What is told of a note on a rule, which is shown as `rule`: whether it is a warning or a failure, and its text. All
/// else follows from that: the status, and whether the run goes on.
#[inline(always)]
pub(crate) fn note_entry(rule: String, note: &Note) -> Result<Entry, NoMemory>
    ensures { IfOk result (λ entry. entry ≡ note_entry (string_bytes rule) note.now) }
{
    match note {
        Note::Missing(attr) => {
            let text = of_attribute(rule, ": no attribute '", attr.as_str(), "' to print")?;
            Ok(Entry::Warning(text))
        }
        Note::NoAttribute(attr) => {
            let text = of_attribute(rule, ": no attribute '", attr.as_str(), "'")?;
            Ok(Entry::Failure(text))
        }
        Note::AttributeExists(attr) => {
            let after = "' is already there";
            let text = of_attribute(rule, ": attribute '", attr.as_str(), after)?;
            Ok(Entry::Failure(text))
        }
        Note::NotAList(attr) => {
            let text = of_attribute(rule, ": attribute '", attr.as_str(), "' has no list")?;
            Ok(Entry::Failure(text))
        }
        Note::NoValue { attr, value } => {
            let text = no_value(rule, attr.as_str(), value.as_str())?;
            Ok(Entry::Failure(text))
        }
    }
}

// Few messages are longer: the others are made without making room for more.
pub(crate) const LONG_MESSAGE: &str =
    "//the/package/of/many/rules:the_name_of_a_rule: no attribute 'visibility' to print";

/// The note on a rule of this kind without a name, where that is to be printed.
pub(crate) fn missing_name(alloc: Global, home: &Package, kind: &str) -> Result<Text, NoMemory>
    ensures { IfOk result (λ t. t ≡ home_text home.now ++ codes "%" ++ kind.now
        ++ codes ": no attribute 'name' to print") }
{
    let mut text = with_length_of(alloc, LONG_MESSAGE)?;
    push_home(&mut text, home)?;
    push_str(&mut text, "%")?;
    push_str(&mut text, kind)?;
    push_str(&mut text, ": no attribute 'name' to print")?;
    Ok(Text::from_string(text))
}

/// A rule, and what is said of one of its attributes.
#[inline(always)]
fn of_attribute(rule: String, before: &str, attr: &str, after: &str) -> Result<Text, NoMemory>
    ensures { IfOk result (λ t. t ≡ string_bytes rule ++ before.now ++ attr.now ++ after.now) }
{
    let mut text = rule;
    push_str(&mut text, before)?;
    push_str(&mut text, attr)?;
    push_str(&mut text, after)?;
    Ok(Text::from_string(text))
}

fn no_value(rule: String, attr: &str, value: &str) -> Result<Text, NoMemory>
    ensures { IfOk result (λ t. t ≡ string_bytes rule ++ codes ": no value '" ++ value.now ++ codes "' in attribute '"
        ++ attr.now ++ codes "'") }
{
    let mut text = rule;
    push_str(&mut text, ": no value '")?;
    push_str(&mut text, value)?;
    push_str(&mut text, "' in attribute '")?;
    push_str(&mut text, attr)?;
    push_str(&mut text, "'")?;
    Ok(Text::from_string(text))
}

/// A fault at a line and a column.
fn placed(alloc: Global, line: u64, col: u64, what: &str) -> Result<Text, NoMemory>
    ensures { IfOk result (λ t. t ≡ placed line col what.now) }
{
    let mut text = String::new(alloc);
    push_number(&mut text, line)?;
    push_str(&mut text, ":")?;
    push_number(&mut text, col)?;
    push_str(&mut text, ": ")?;
    push_str(&mut text, what)?;
    Ok(Text::from_string(text))
}

/// A fault of a line.
fn lined(alloc: Global, line: u64, what: &str) -> Result<Text, NoMemory>
    ensures { IfOk result (λ t. t ≡ lined line what.now) }
{
    let mut text = String::new(alloc);
    push_number(&mut text, line)?;
    push_str(&mut text, ": ")?;
    push_str(&mut text, what)?;
    Ok(Text::from_string(text))
}

fn lex_text(alloc: Global, fault: LexFault) -> Result<Text, NoMemory>
    ensures { IfOk result (λ t. t ≡ lex_text fault) }
{
    match fault {
        LexFault::OutOfMemory(_) => Text::from_str(alloc, "out of memory"),
        LexFault::BadCharacter { line, col } => placed(alloc, line, col, "bad character"),
        LexFault::BadNumber { line, col } => placed(alloc, line, col, "bad number"),
        LexFault::OpenText { line, col } => placed(alloc, line, col, "string is not closed"),
        LexFault::BadBracket { line, col } => placed(alloc, line, col, "bracket does not match"),
        LexFault::OpenBracket { line, col } => placed(alloc, line, col, "bracket is not closed"),
        LexFault::TooDeep { line, col } => placed(alloc, line, col, "brackets too deep"),
        LexFault::BadBackslash { line, col } => placed(alloc, line, col, "bad backslash"),
    }
}

fn parse_text(alloc: Global, fault: ParseFault) -> Result<Text, NoMemory>
    ensures { IfOk result (λ t. t ≡ fault_text (Parse fault)) }
{
    match fault {
        ParseFault::OutOfMemory(_) => Text::from_str(alloc, "out of memory"),
        ParseFault::Lex(fault) => lex_text(alloc, fault),
        ParseFault::Indented { line } => lined(alloc, line, "indented statement"),
        ParseFault::NotAStatement { line } => lined(alloc, line, "not a statement"),
    }
}

/// Why a statement could not be read.
pub(crate) fn fault_text(alloc: Global, fault: SyntaxFault) -> Result<Text, NoMemory>
    ensures { IfOk result (λ t. t ≡ fault_text fault) }
{
    match fault {
        SyntaxFault::NotUtf8 { line, col } => placed(alloc, line, col, "not UTF-8"),
        SyntaxFault::Parse(fault) => parse_text(alloc, fault),
    }
}
