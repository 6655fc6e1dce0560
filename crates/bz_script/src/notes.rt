//! What is told beside the report of words that are read, and that seldom say what is meant: by kind, and the text of
//! each.

ghost use Rattle.std.specs.Prelude.{◌≡◌, ◌≤◌, length, IfOk, IfSome, OnOk, None, true};
ghost use Rattle.std.specs.List.{list_any};
ghost use Rattle.bz_script.specs.Flags.{argument_of};
ghost use Rattle.bz_token.specs.Common.{is_one_of};
ghost use Rattle.bz_rule.specs.Forms.{values_of};
ghost use Rattle.bz_script.specs.Notes as spec;
ghost use Rattle.bz_script.specs.Refused.{refused};

use crate::command_file::{is_skipped, trimmed, without_return};
use crate::flags::{Argument, COMMAND_LINE, read_argument, split_value, split_word, undashed};
use crate::usage::Refused;
use bz_label::{Marked, Package, Target, Text};
use bz_memory::NoMemory;
use bz_passes::pass::Pass;
use bz_rule::forms::Values;
use bz_rule::{Command, CommandFault, read_command, values_of};
use bz_token::check_utf8;
use std::alloc::Global;
use std::fmt;

const SECOND_FILE: &str = "-f stands here again; only the last file that it names is read";

const LATE_FLAG: &str = "a flag comes before the commands; here it is read as a package";

const QUOTED_VALUE: &str =
    "the quotes are part of the value; write it without them, as in add deps //x";

const NAMED_ALL: &str = "a rule of the name 'all' is meant; all rules are *, as in //app:*";

/// The first word that a note is about, and how many others there are.
#[derive(Drop)]
pub struct Noted {
    pub first: Option<Refused>,
    pub more: u64,
}

impl Noted {
    fn none() -> Noted
        ensures { result.first ≡ None }
    {
        Noted {
            first: None,
            more: 0,
        }
    }

    /// Counts a word. The first is kept.
    fn add(&mut self, alloc: Global, line: u64, number: u64, word: &str) -> Result<(), NoMemory>
        ensures { OnOk result (self.new.first ≡ spec.first_or self.old.first (refused line number word.now)) }
    {
        if self.first.is_some() {
            self.more = self.more.saturating_add(1);
            return Ok(());
        }
        self.first = Some(Refused::new(alloc, line, number, word)?);
        Ok(())
    }

    fn put<W: fmt::Write>(&self, text: &str, f: &mut fmt::Formatter<W>) -> fmt::Result {
        let Some(first) = &self.first else {
            return Ok(());
        };
        write!(f, "buildozer: {first}: {text}")?;
        if self.more > 0 {
            write!(f, " (and {} more)", self.more)?;
        }
        f.write_char('\n')
    }
}

/// What is told beside the report, before any package. Shown, each note is a line of its own.
#[derive(Drop)]
pub struct Notes {
    /// Flags that name a command file after another one did.
    pub second_files: Noted,
    /// Words with the name of a flag, after the first command or target.
    pub late_flags: Noted,
    /// Commands with a value that begins and ends with the same quote.
    pub quoted_values: Noted,
    /// Targets whose name is `all`.
    pub named_all: Noted,
}

impl fmt::Display for Notes {
    fn fmt<W: fmt::Write>(&self, f: &mut fmt::Formatter<W>) -> fmt::Result {
        self.second_files.put(SECOND_FILE, f)?;
        self.late_flags.put(LATE_FLAG, f)?;
        self.quoted_values.put(QUOTED_VALUE, f)?;
        self.named_all.put(NAMED_ALL, f)
    }
}

impl Notes {
    pub fn none() -> Notes
        ensures { spec.AreTrue result }
    {
        Notes {
            second_files: Noted::none(),
            late_flags: Noted::none(),
            quoted_values: Noted::none(),
            named_all: Noted::none(),
        }
    }

    /// Notes the flags that name a command file after another one did, among the words of a call.
    pub fn add_flags(&mut self, alloc: Global, words: &[String]) -> Result<(), NoMemory>
        ensures { OnOk result (spec.AreTrue self.old → spec.AreTrue self.new) }
    {
        let mut rest = words;
        let mut is_named = false;
        while let Some((word, after)) = split_word(rest) {
            let Some((names_file, takes_next)) = flag_of(word) else {
                return Ok(());
            };
            if names_file && is_named {
                let number = words.len().saturating_sub(after.len());
                self.second_files
                    .add(alloc, COMMAND_LINE, number as u64, word)?;
            }
            is_named = is_named || names_file;
            rest = without_next(after, takes_next);
        }
        Ok(())
    }

    /// Notes the words of the command line that follow its flags.
    pub fn add_words(&mut self, alloc: Global, words: &[String]) -> Result<(), NoMemory>
        ensures { OnOk result (spec.AreTrue self.old → spec.AreTrue self.new) }
    {
        for (index, word) in words.iter().enumerate() {
            let number = index as u64 + 1;
            self.add_late_flag(alloc, number, word.as_str())?;
            self.add_word(alloc, COMMAND_LINE, number, word.as_str())?;
        }
        Ok(())
    }

    /// Notes a word of the command line that has the name of a flag, and is not the first.
    fn add_late_flag(&mut self, alloc: Global, number: u64, word: &str) -> Result<(), NoMemory>
        ensures { OnOk result (spec.AreTrue self.old → spec.AreTrue self.new) }
    {
        if number > 1 && is_flag(word) {
            return self.late_flags.add(alloc, COMMAND_LINE, number, word);
        }
        Ok(())
    }

    /// Notes the words of a command file.
    pub fn add_file(&mut self, alloc: Global, bytes: &[u8]) -> Result<(), NoMemory>
        ensures { OnOk result (spec.AreTrue self.old → spec.AreTrue self.new) }
    {
        let Ok(text) = check_utf8(bytes) else {
            return Ok(());
        };
        for (index, line) in text.split('\n').enumerate() {
            self.add_line(alloc, index as u64 + 1, without_return(line))?;
        }
        Ok(())
    }

    fn add_line(&mut self, alloc: Global, line: u64, text: &str) -> Result<(), NoMemory>
        ensures { OnOk result (spec.AreTrue self.old → spec.AreTrue self.new) }
    {
        if is_skipped(text) {
            return Ok(());
        }
        for (index, field) in text.split('|').enumerate() {
            self.add_word(alloc, line, index as u64 + 1, trimmed(field))?;
        }
        Ok(())
    }

    /// Notes a word of a group.
    fn add_word(
        &mut self,
        alloc: Global,
        line: u64,
        number: u64,
        word: &str,
    ) -> Result<(), NoMemory>
        ensures { OnOk result (spec.AreTrue self.old → spec.AreTrue self.new) }
    {
        if names_all(word) {
            self.named_all.add(alloc, line, number, word)?;
        }
        if has_quoted_value(alloc, word)? {
            self.quoted_values.add(alloc, line, number, word)?;
        }
        Ok(())
    }
}

/// Whether a word of a command file with this script may need a note. Few files have such words, and the words of the
/// others are not looked at again.
pub fn may_need_notes(bytes: &[u8], script: &[(Package, Pass<Target, Command>)]) -> bool {
    has_quote(bytes) || script.iter().any(|step| is_all(&step.1.target))
}

fn is_all(target: &Target) -> bool {
    match target.marked() {
        Marked::Name(name) => name == "all",
        _ => false,
    }
}

/// Whether a flag names a command file, and whether that is the next word; none of a word that ends the flags.
fn flag_of(word: &str) -> Option<(bool, bool)>
    ensures { IfSome result (λ flag. flag.0 ≡ spec.names_file (argument_of word.now)) }
{
    match read_argument(word) {
        Ok(Argument::SetSwitch(_, _)) => Some((false, false)),
        Ok(Argument::SetFile(_)) => Some((true, false)),
        Ok(Argument::FileNext) => Some((true, true)),
        _ => None,
    }
}

/// The words, or those after the first one.
fn without_next(words: &[String], takes_next: bool) -> &[String]
    ensures { length result.now ≤ length words.now }
{
    match words.split_first() {
        Some((_, rest)) if takes_next => rest,
        _ => words,
    }
}

/// Whether a word is a target whose name is `all`: no command ends so without a space.
fn names_all(word: &str) -> bool
    ensures { result ≡ spec.names_all word.now }
{
    let bytes = word.as_bytes();
    bytes.ends_with(b":all") && !bytes.contains(&b' ')
}

/// Whether a word is written as a flag of Bazel's buildozer is.
///
/// A target of standard input is none: there may be thousands.
fn is_flag(word: &str) -> bool
    ensures { result ≡ true → spec.is_flag word.now ≡ true }
{
    match undashed(word) {
        Some(text) if !text.starts_with(':') => is_flag_name(split_value(text).0),
        _ => false,
    }
}

fn is_flag_name(name: &str) -> bool
    ensures { result ≡ is_one_of spec.flag_names name.now }
{
    matches!(
        name,
        "P" | "add_tables"
            | "buildifier"
            | "delete_with_comments"
            | "edit-variables"
            | "eol-comments"
            | "f"
            | "h"
            | "help"
            | "k"
            | "numio"
            | "output_json"
            | "output_proto"
            | "quiet"
            | "root_dir"
            | "shorten_labels"
            | "stdout"
            | "tables"
            | "types"
            | "version"
    )
}

/// Whether a word is a command with a value in quotes. A word without quotes is not read.
fn has_quoted_value(alloc: Global, word: &str) -> Result<bool, NoMemory>
    ensures { IfOk result (λ has. has ≡ true → spec.quotes_a_value word.now ≡ true) }
{
    if !may_quote(word.as_bytes()) {
        return Ok(false);
    }
    match read_command(alloc, word) {
        Ok(Some(command)) => Ok(quotes_a_value(&command)),
        Err(CommandFault::OutOfMemory(why)) => Err(why),
        _ => Ok(false),
    }
}

/// Whether a word begins as a command does, and has a quote.
fn may_quote(word: &[u8]) -> bool {
    word.first().is_some_and(|byte| byte.is_ascii_lowercase()) && has_quote(word)
}

fn has_quote(text: &[u8]) -> bool {
    text.contains(&b'"') || text.contains(&b'\'')
}

/// Whether a command writes or looks for a value in quotes.
fn quotes_a_value(command: &Command) -> bool
    ensures { result ≡ list_any spec.is_quoted (values_of command.now) }
{
    match values_of(command) {
        Values::Listed(values) => some_is_quoted(values),
        Values::Replaced(old, new) => is_quoted(old) || is_quoted(new),
        Values::One(value) => is_quoted(value),
        Values::None => false,
    }
}

fn some_is_quoted(values: &[Text]) -> bool
    ensures { result ≡ list_any spec.is_quoted values.now }
{
    values.iter().any(|value| is_quoted(value.as_str()))
}

/// Whether a value begins and ends with the same quote.
fn is_quoted(value: &str) -> bool
    ensures { result ≡ spec.is_quoted value.now }
{
    is_between(value.as_bytes(), b"\"") || is_between(value.as_bytes(), b"'")
}

fn is_between(value: &[u8], quote: &[u8]) -> bool
    ensures { result ≡ spec.is_between quote.now value.now }
{
    value.len() >= 2 && value.starts_with(quote) && value.ends_with(quote)
}
