//! The flags of the command line, in the syntax of Go's `flag` package.

ghost use Rattle.bz_memory.specs.NoMemory.{no_memory};
ghost use Rattle.std.specs.Prelude.{◌≡◌, ◌≢◌, ◌+◌, ◌∷◌, [], map, string_bytes, length, Err, None, IfOk, IfSome, MatchOption, option_map};
ghost use Rattle.bz_script.specs.private.FlagViews.{argument_view};
ghost use Rattle.bz_script.specs.Flags as spec;
ghost use Rattle.bz_script.specs.Refused as place;
ghost use Rattle.bz_script.specs.Results.{map_ok};

use crate::usage::{Refused, UsageFault};
use bz_label::Text;
use bz_memory::NoMemory;
use std::alloc::Global;

/// The line that stands for the command line in faults.
pub const COMMAND_LINE: u64 = 0;

/// What the flags ask for.
#[derive(Drop)]
pub struct Flags {
    /// Go on after a command that failed.
    pub k: bool,
    /// Write the packages to standard output instead of their files.
    pub stdout: bool,
    /// Do not tell which files were changed, and leave out the notes.
    pub quiet: bool,
    /// The command file, where one is named.
    pub file: Option<Text>,
}

/// A boolean flag.
#[derive(Clone, Copy)]
pub(crate) enum Switch {
    K,
    Stdout,
    Quiet,
}

#[derive(Clone, Copy)]
enum FlagName {
    Switch(Switch),
    File,
}

/// Why a word is no flag.
#[derive(Clone, Copy)]
pub(crate) enum FlagFault {
    /// There is no flag of this name.
    Unknown,
    /// The value of a boolean flag is neither true nor false.
    BadBoolean,
    /// No word follows `-f`.
    NoValue,
}

/// What a word is to the flags.
#[derive(Clone, Copy)]
pub(crate) enum Argument<'a> {
    /// The flags end before it.
    NonFlag,
    /// The flags end after it.
    Terminator,
    /// A boolean flag and its value.
    SetSwitch(Switch, bool),
    /// The path of the command file.
    SetFile(&'a str),
    /// The next word names the file.
    FileNext,
}

/// Reads the flags, and gives the words that follow them.
///
/// A fault of a flag is told at the first word that has one, counted from 1. After all flags are read, words that are
/// left beside a command file are a fault.
pub fn read_flags(alloc: Global, words: &[String]) -> Result<(Flags, &[String]), UsageFault>
    ensures { result ≢ Err (UsageFault.OutOfMemory no_memory)
        → map_ok (λ read. (read.0, map string_bytes read.1.now)) result
        ≡ spec.flags_of (map string_bytes words.now) }
{
    let (flags, rest) = read_leading(alloc, words)?;
    if flags.file.is_some()
        && let Some((word, after)) = split_word(rest)
    {
        let number = words.len().saturating_sub(after.len());
        let refused = Refused::new(alloc, COMMAND_LINE, number as u64, word)?;
        return Err(UsageFault::WordsWithFile { refused });
    }
    Ok((flags, rest))
}

/// Reads words until the flags end.
fn read_leading(alloc: Global, words: &[String]) -> Result<(Flags, &[String]), UsageFault>
    ensures { result ≢ Err (UsageFault.OutOfMemory no_memory)
        → map_ok (λ read. (read.0, map string_bytes read.1.now)) result
        ≡ spec.leading 1 spec.no_flags None (map string_bytes words.now) }
{
    let mut flags = Flags {
        k: false,
        stdout: false,
        quiet: false,
        file: None,
    };
    let mut rest = words;
    let mut number = 0;
    while let Some((word, after)) = split_word(rest) {
        number += 1;
        match read_argument(word) {
            Ok(Argument::NonFlag) => return Ok((flags, rest)),
            Ok(Argument::Terminator) => return Ok((flags, after)),
            Ok(Argument::SetSwitch(switch, on)) => {
                set_switch(&mut flags, switch, on);
                rest = after;
            }
            Ok(Argument::SetFile(path)) => {
                flags.file = file_named(alloc, path)?;
                rest = after;
            }
            Ok(Argument::FileNext) => {
                let Some((path, after)) = split_word(after) else {
                    return Err(refused(alloc, number, word, FlagFault::NoValue));
                };
                flags.file = file_named(alloc, path)?;
                number += 1;
                rest = after;
            }
            Err(fault) => return Err(refused(alloc, number, word, fault)),
        }
    }
    Ok((flags, rest))
}

/// The fault of a word of the command line.
fn refused(alloc: Global, number: u64, word: &str, fault: FlagFault) -> UsageFault
    ensures { result ≢ UsageFault.OutOfMemory no_memory
        → result ≡ spec.refused_as fault (place.refused 0 number word.now) }
{
    let refused = match Refused::new(alloc, COMMAND_LINE, number, word) {
        Ok(refused) => refused,
        Err(why) => return UsageFault::OutOfMemory(why),
    };
    match fault {
        FlagFault::Unknown => UsageFault::UnknownFlag { refused },
        FlagFault::BadBoolean => UsageFault::BadBoolean { refused },
        FlagFault::NoValue => UsageFault::NoValue { refused },
    }
}

/// The first word, and the words after it.
pub(crate) fn split_word(words: &[String]) -> Option<(&str, &[String])>
    ensures words { MatchOption result (map string_bytes words.now ≡ [])
        (λ parts. map string_bytes words.now ≡ parts.0.now ∷ map string_bytes parts.1.now) }
    ensures rest { IfSome result (λ parts. length parts.1.now + 1 ≡ length words.now) }
{
    let (word, rest) = words.split_first()?;
    Some((word.as_str(), rest))
}

/// The last use of a flag wins.
fn set_switch(flags: &mut Flags, switch: Switch, on: bool)
    ensures { flags.new ≡ spec.with_switch switch on flags.old }
{
    match switch {
        Switch::K => flags.k = on,
        Switch::Stdout => flags.stdout = on,
        Switch::Quiet => flags.quiet = on,
    }
}

/// The file of a path. An empty one names none.
fn file_named(alloc: Global, path: &str) -> Result<Option<Text>, NoMemory>
    ensures { IfOk result (λ file. file ≡ spec.file_of path.now) }
{
    if path.is_empty() {
        return Ok(None);
    }
    let file = Text::from_str(alloc, path)?;
    Ok(Some(file))
}

/// Reads a word that stands where a flag may stand.
#[tactic(auto, unfolding(crate::specs::Flags::argument_of))]
pub(crate) fn read_argument(word: &str) -> Result<Argument<'_>, FlagFault>
    ensures { argument_view result ≡ spec.argument_of word.now }
{
    if word == "--" {
        return Ok(Argument::Terminator);
    }
    match undashed(word) {
        None => Ok(Argument::NonFlag),
        Some(text) => read_flag(text),
    }
}

/// What follows the one or two dashes of a flag.
#[tactic(auto, unfolding(crate::specs::Flags::undashed))]
pub(crate) fn undashed(word: &str) -> Option<&str>
    ensures { option_map (λ text. text.now) result ≡ spec.undashed word.now }
{
    if word == "-" {
        return None;
    }
    if let Some(text) = word.strip_prefix("--") {
        return Some(text);
    }
    word.strip_prefix("-")
}

/// Reads a flag without its dashes.
#[tactic(auto, unfolding(crate::specs::Flags::flag_of))]
fn read_flag(text: &str) -> Result<Argument<'_>, FlagFault>
    ensures { argument_view result ≡ spec.flag_of text.now }
{
    let (name, value) = split_value(text);
    match read_name(name) {
        Some(FlagName::Switch(switch)) => read_switch(switch, value),
        Some(FlagName::File) => Ok(match value {
            Some(path) => Argument::SetFile(path),
            None => Argument::FileNext,
        }),
        None => Err(FlagFault::Unknown),
    }
}

/// The name, and what follows the first `=`.
pub(crate) fn split_value(text: &str) -> (&str, Option<&str>)
    ensures name { result.0.now ≡ spec.name_in text.now }
    ensures value { option_map (λ value. value.now) result.1 ≡ spec.value_in text.now }
{
    match text.split_once('=') {
        Some((name, value)) => (name, Some(value)),
        None => (text, None),
    }
}

fn read_name(name: &str) -> Option<FlagName>
    ensures { result ≡ spec.name_of name.now }
{
    match name {
        "k" => Some(FlagName::Switch(Switch::K)),
        "stdout" => Some(FlagName::Switch(Switch::Stdout)),
        "quiet" => Some(FlagName::Switch(Switch::Quiet)),
        "f" => Some(FlagName::File),
        _ => None,
    }
}

/// A boolean flag without a value is true.
fn read_switch(switch: Switch, value: Option<&str>) -> Result<Argument<'static>, FlagFault>
    ensures { argument_view result ≡ spec.switch_of switch (option_map (λ value. value.now) value.entry) }
{
    let Some(value) = value else {
        return Ok(Argument::SetSwitch(switch, true));
    };
    match read_bool(value) {
        Some(on) => Ok(Argument::SetSwitch(switch, on)),
        None => Err(FlagFault::BadBoolean),
    }
}

/// Reads a boolean in the words of Go's `strconv.ParseBool`.
fn read_bool(value: &str) -> Option<bool>
    ensures { result ≡ spec.bool_of value.now }
{
    match value {
        "1" | "t" | "T" | "true" | "TRUE" | "True" => Some(true),
        "0" | "f" | "F" | "false" | "FALSE" | "False" => Some(false),
        _ => None,
    }
}
