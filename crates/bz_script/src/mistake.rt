//! What is wrong with the words of a call, by kind, and the text that is told of each kind. `usage.rt` makes a
//! `Mistake` of each fault of the readers, and shows it.

use crate::usage::Refused;
use bz_label::LabelFault;
use bz_memory::NoMemory;
use bz_rule::{CommandFault, LEFT_OUT, NO_SUCH_FIELD, USAGE, is_left_out_field};
use std::fmt;

/// Told below `cannot open`, where the name of the file begins with a dash.
pub const DASHED_PACKAGE: &str =
    "flags come before the commands; a word after them that begins with a dash is a package";

// A word that is no flag.
const UNKNOWN_FLAG: &str = "no such flag; the flags are -k, -stdout, -quiet and -f FILE";

const DASHED_TARGET: &str =
    "no such flag; a target of standard input comes after the commands, or after --";

pub const BAD_BOOLEAN: &str = "the value of this flag is true or false";

pub const NO_VALUE: &str = "a command file must follow, or - for standard input";

// Flags, command files and standard input.
pub const WORDS_WITH_FILE: &str =
    "commands and targets stand in the file that -f names, or on the command line, not in both";

pub const TWO_INPUTS: &str =
    "standard input is both the command file (-f -) and a package (-:..); put the commands into a file";

pub const UNREAD_FILE: &str = "this command file cannot be read";

pub const LONG_FILE: &str = "this command file is longer than 16,777,216 bytes; split it";

pub const FILE_NOT_UTF8: &str = "the command file is not UTF-8; save it as UTF-8";

pub const WORD_NOT_UTF8: &str = "an argument is not UTF-8";

// A group that lacks something.
const NO_COMMAND: &str =
    "no command; write one before the targets, as in buildozer 'add deps //x' //app:base";

const NO_TARGET: &str =
    "no target; write one after the commands, as in buildozer 'add deps //x' //app:base";

const NO_COMMAND_ON_LINE: &str =
    "no command; a line is COMMAND|..|TARGET|.., as in add deps //x|//app:base";

const NO_TARGET_ON_LINE: &str =
    "no target; a line is COMMAND|..|TARGET|.., as in add deps //x|//app:base";

// A command with a fault.
const SPACE_IN_COMMENT: &str =
    "too many words; write a backslash before each space of the text, as in 'comment made\\ by\\ hand'";

const QUOTED_COMMENT: &str =
    "write a backslash before each space of the text, and no quotes, as in 'comment made\\ by\\ hand'";

const ONE_VALUE: &str = "name and kind take one value, as in 'set kind cc_test'";

const BAD_ATTRIBUTE: &str =
    "an attribute's name is letters, digits and underscores, with no digit first, and no keyword";

const BAD_KIND: &str =
    "a kind is a name, or names with dots between them, as in 'set kind cc_test'";

const COMMENT_LINE: &str = "a comment is one line; write a command for each line";

const SAME_ATTRIBUTE: &str = "it moves an attribute to itself; write 'move OLD NEW VALUE..'";

// A word that is nearly a command.
const BYTE_ORDER_MARK: &str =
    "a byte order mark stands before this word; save the file as UTF-8 without one";

const UNKNOWN_COMMAND: &str = "no such command; buildozer -help lists them";

const QUOTED: &str = "one pair of quotes is enough, as in buildozer 'add deps //x' //app:base";

const QUOTED_IN_FILE: &str =
    "a command stands without quotes in a command file, as in add deps //x|//app:base";

const BLANK: &str = "the words of a command have spaces between them, no tabs or other blanks";

// A word that is no target.
const EMPTY: &str = "this word is empty; leave it out, or set the variable that it comes from";

const EMPTY_FIELD: &str = "this word is empty; leave out the | beside it";

const SPACE: &str =
    "no space, tab or control character in a target; each target is a word of its own";

const REPOSITORY: &str =
    "no other repository can be edited; write a target of this one, as in //app:base";

const PATTERN: &str = "no pattern over packages is read; name each package, as in //app:*";

const ROOT: &str = "the root package has no path; write //:base, or //:* for all its rules";

const DOT_PART: &str =
    "no . or .. in a package; write its path below the current folder, as in //app:base";

const ONE_SLASH: &str = "a package begins with two slashes or none, as in //app:base or app:base";

const SLASH_AT_END: &str =
    "leave out the slash at the end of the package, as in //app:base or //app:*";

const TWO_SLASHES: &str = "two slashes in a row in the package; write one, as in //app/lib:base";

const NO_NAME: &str =
    "no rule is named; write one after a colon, as in //app:base, or * for all rules";

const TWO_COLONS: &str = "a target has one colon, as in //app:base";

const BAD_PERCENT: &str =
    "after % comes a kind or the number of a line, as in //app:%cc_test or //app:%12";

/// What a shell or another language puts round a text.
const QUOTES: [char; 2] = ['"', '\''];

/// What is wrong. Its text stands after the word that is refused, where one is.
#[derive(Clone, Copy)]
pub enum Mistake {
    OutOfMemory(NoMemory),
    /// All that is told.
    Text(&'static str),
    /// The form of the command.
    NameAlone(&'static str),
    WrongCount(&'static str),
    /// The name of the command.
    LeftOut(&'static str),
    NearCommand(&'static str),
}

impl fmt::Display for Mistake {
    fn fmt<W: fmt::Write>(&self, f: &mut fmt::Formatter<W>) -> fmt::Result {
        match *self {
            Mistake::OutOfMemory(_) => f.write_str("out of memory"),
            Mistake::Text(text) => f.write_str(text),
            Mistake::NameAlone(form) => {
                write!(
                    f,
                    "words are missing; a command and its words stand in one pair of quotes: '{form}'"
                )
            }
            Mistake::WrongCount(form) => write!(f, "too few or too many words; write '{form}'"),
            Mistake::LeftOut(name) => {
                write!(
                    f,
                    "{name} is a command of Bazel's buildozer that this one does not have"
                )
            }
            Mistake::NearCommand(name) => write!(f, "no such command; do you mean '{name}'?"),
        }
    }
}

impl Mistake {
    /// What is wrong with a word that stands where a flag may stand, and is none.
    pub fn of_flag(refused: &Refused) -> &'static str {
        if refused.word.as_str().starts_with("-:") {
            DASHED_TARGET
        } else {
            UNKNOWN_FLAG
        }
    }

    /// What a group without a command lacks; `line` is 0 for the command line.
    pub fn of_no_command(line: u64) -> &'static str {
        match line {
            0 => NO_COMMAND,
            _ => NO_COMMAND_ON_LINE,
        }
    }

    /// What a group without a target lacks; `line` is 0 for the command line.
    pub fn of_no_target(line: u64) -> &'static str {
        match line {
            0 => NO_TARGET,
            _ => NO_TARGET_ON_LINE,
        }
    }

    /// What is wrong with a word that begins with a command's name.
    pub fn of_command(refused: &Refused, fault: CommandFault) -> Mistake {
        let word = refused.word.as_str();
        match fault {
            CommandFault::OutOfMemory(why) => Mistake::OutOfMemory(why),
            CommandFault::WrongCount => of_count(word, refused.line),
            CommandFault::BadAttribute => Mistake::Text(of_attribute(word)),
            CommandFault::BadKind => Mistake::Text(BAD_KIND),
            CommandFault::CommentLine => Mistake::Text(COMMENT_LINE),
            CommandFault::SameAttribute => Mistake::Text(SAME_ATTRIBUTE),
        }
    }

    /// What is wrong with a word that is neither a command nor a label.
    pub fn of_label(refused: &Refused, fault: LabelFault) -> Mistake {
        let word = refused.word.as_str();
        if let Some(mistake) = of_blanks(word, refused.line) {
            return mistake;
        }
        let (package, target) = match word.split_once(':') {
            Some(parts) => parts,
            None => (word, ""),
        };
        match fault {
            LabelFault::OutOfMemory(why) => Mistake::OutOfMemory(why),
            LabelFault::BadPackage => Mistake::Text(of_package(package)),
            LabelFault::BadTarget => Mistake::Text(of_target(target)),
        }
    }

    /// What is wrong with a word whose first word is nearly a command's name; `line` is 0 for the command line.
    pub fn of_name(word: &str, line: u64) -> Option<Mistake> {
        if word.starts_with('\u{feff}') {
            return Some(Mistake::Text(BYTE_ORDER_MARK));
        }
        let name = first_word(word);
        if is_quoted_command(name) {
            return Some(Mistake::Text(of_quotes(line)));
        }
        match LEFT_OUT.iter().find(|command| **command == name) {
            Some(command) => Some(Mistake::LeftOut(*command)),
            None => nearest(name).map(Mistake::NearCommand),
        }
    }
}

/// Whether a quote stands before a command's name, or on both its sides.
fn is_quoted_command(name: &str) -> bool {
    name.starts_with(QUOTES) && form_of(name.trim_matches(QUOTES)).is_some()
}

fn of_quotes(line: u64) -> &'static str {
    match line {
        0 => QUOTED,
        _ => QUOTED_IN_FILE,
    }
}

fn of_empty(line: u64) -> &'static str {
    match line {
        0 => EMPTY,
        _ => EMPTY_FIELD,
    }
}

/// What is wrong with a word of blanks alone, or of several words; or with one that begins with a byte order mark.
fn of_blanks(word: &str, line: u64) -> Option<Mistake> {
    let name = first_word(word);
    if name.is_empty() {
        return Some(Mistake::Text(of_empty(line)));
    }
    if name.len() == word.len() {
        return word
            .starts_with('\u{feff}')
            .then_some(Mistake::Text(BYTE_ORDER_MARK));
    }
    if form_of(name).is_some() {
        return Some(Mistake::Text(BLANK));
    }
    if let Some(mistake) = Mistake::of_name(word, line) {
        return Some(mistake);
    }
    Some(if name.contains(['/', ':']) || second_word(word).is_none() {
        Mistake::Text(SPACE)
    } else {
        Mistake::Text(UNKNOWN_COMMAND)
    })
}

/// What is wrong with what stands before the colon.
fn of_package(package: &str) -> &'static str {
    let path = package.strip_prefix("//").unwrap_or(package);
    if path.starts_with('@') {
        return REPOSITORY;
    }
    if path.split('/').any(|part| part == "...") {
        return PATTERN;
    }
    if path == "." {
        return ROOT;
    }
    if path.split('/').any(|part| part == "." || part == "..") {
        return DOT_PART;
    }
    if path.starts_with('/') {
        return ONE_SLASH;
    }
    if path.ends_with('/') {
        return SLASH_AT_END;
    }
    if path.contains("//") {
        return TWO_SLASHES;
    }
    SPACE
}

/// What is wrong with what stands after the colon.
fn of_target(target: &str) -> &'static str {
    if target.is_empty() {
        return NO_NAME;
    }
    if target.contains(':') {
        return TWO_COLONS;
    }
    if target.starts_with('%') {
        return BAD_PERCENT;
    }
    SPACE
}

/// What is wrong with a command whose words have one that is to be an attribute's name, and is none.
fn of_attribute(word: &str) -> &'static str {
    if prints_left_out(word) {
        return NO_SUCH_FIELD;
    }
    match (first_word(word), second_word(word)) {
        ("comment", Some(text)) if text.starts_with(QUOTES) => QUOTED_COMMENT,
        _ => BAD_ATTRIBUTE,
    }
}

/// What is wrong with the number of a command's words. On the command line (`line` 0) a name alone may also be a
/// command without its quotes.
fn of_count(word: &str, line: u64) -> Mistake {
    let name = first_word(word);
    let form = form_of(name).unwrap_or("");
    if name.len() == word.len() && line == 0 {
        return Mistake::NameAlone(form);
    }
    match (name, second_word(word)) {
        ("comment", Some(_)) => Mistake::Text(SPACE_IN_COMMENT),
        ("set" | "set_if_absent", Some("name" | "kind")) => Mistake::Text(ONE_VALUE),
        _ => Mistake::WrongCount(form),
    }
}

/// Whether a field is asked for that Bazel's buildozer prints and this program does not.
fn prints_left_out(word: &str) -> bool {
    first_word(word) == "print"
        && word
            .split_whitespace()
            .any(|field| is_left_out_field(field))
}

/// What stands before the first blank, of any kind.
fn first_word(text: &str) -> &str {
    text.split_whitespace().next().unwrap_or("")
}

fn second_word(text: &str) -> Option<&str> {
    let mut words = text.split_whitespace();
    let _ = words.next();
    words.next()
}

/// How the command of a name is written, by the usage page.
fn form_of(name: &str) -> Option<&'static str> {
    USAGE
        .lines()
        .filter_map(form_on)
        .find(|form| first_word(form) == name)
}

/// The command whose name is this one but for a letter.
fn nearest(name: &str) -> Option<&'static str> {
    USAGE
        .lines()
        .filter_map(form_on)
        .map(first_word)
        .find(|command| is_near(name.as_bytes(), command.as_bytes()))
}

/// The form of a command that a line of the usage page begins with.
fn form_on(line: &'static str) -> Option<&'static str> {
    let (form, _) = line.strip_prefix("  ")?.split_once("  ")?;
    Some(form)
}

/// Whether two names are the same but for one letter that is missing, too many, swapped with the next, or, in a name of
/// more than three letters, wrong: `get` is not nearly `set`.
fn is_near(word: &[u8], name: &[u8]) -> bool {
    let front = word
        .iter()
        .zip(name.iter())
        .take_while(|pair| is_same(*pair.0, *pair.1))
        .count();
    let (word_end, name_end) = (after(word, front), after(name, front));
    are_same(word_end, after(name_end, 1))
        || are_same(after(word_end, 1), name_end)
        || are_swapped(word_end, name_end)
        || name.len() > 3 && are_same(after(word_end, 1), after(name_end, 1))
}

/// Whether the first two letters stand the other way round, and the others are the same.
fn are_swapped(word: &[u8], name: &[u8]) -> bool {
    match (word, name) {
        ([a, b, word @ ..], [c, d, name @ ..]) => {
            is_same(*a, *d) && is_same(*b, *c) && are_same(word, name)
        }
        _ => false,
    }
}

fn are_same(word: &[u8], name: &[u8]) -> bool {
    word.len() == name.len()
        && word
            .iter()
            .zip(name.iter())
            .all(|pair| is_same(*pair.0, *pair.1))
}

/// Whether a letter is that of a command's name; capitals are, and a dash is an underscore.
fn is_same(letter: u8, of_name: u8) -> bool {
    letter.to_ascii_lowercase() == of_name || letter == b'-' && of_name == b'_'
}

/// The bytes after the first ones.
fn after(bytes: &[u8], count: usize) -> &[u8] {
    bytes.get(count..).unwrap_or(&[])
}
