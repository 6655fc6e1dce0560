//! Why the words of the command line, or a command file, ask for nothing. The texts stand in `mistake`.

ghost use Rattle.std.specs.Prelude.{◌≡◌, IfOk};
ghost use Rattle.bz_script.specs.Refused.{refused};

use crate::mistake::{self, Mistake};
use crate::quoted::Quoted;
use bz_label::LabelFault;
use bz_memory::NoMemory;
use bz_rule::CommandFault;
use std::alloc::Global;
use std::fmt;
use thiserror::Error;

/// A word that asks for nothing, and where it stands.
#[derive(Debug, Drop)]
pub struct Refused {
    /// 0 for the command line, else the line of the command file from 1.
    pub line: u64,
    /// From 1: a flag, and the first word beside a command file, among all words of the command line; any other among
    /// those of its group, which on the command line follow the flags.
    pub number: u64,
    pub word: Quoted,
}

impl Refused {
    pub fn new(alloc: Global, line: u64, number: u64, word: &str) -> Result<Refused, NoMemory>
        ensures { IfOk result (λ it. it ≡ refused line number word.now) }
    {
        let word = Quoted::from_str(alloc, word)?;
        Ok(Refused { line, number, word })
    }
}

impl fmt::Display for Refused {
    fn fmt<W: fmt::Write>(&self, f: &mut fmt::Formatter<W>) -> fmt::Result {
        if self.line > 0 {
            write!(f, "line {}, ", self.line)?;
        }
        write!(f, "word {}, {}", self.number, self.word)
    }
}

/// Why the words of the command line, or a command file, ask for nothing.
#[derive(Debug, Drop, Error)]
pub enum UsageFault {
    #[error("out of memory")]
    OutOfMemory(NoMemory),
    /// There is no flag of this name.
    #[error("{refused}: {}", Mistake::of_flag(refused))]
    UnknownFlag {
        refused: Refused,
    },
    /// The value of a boolean flag is neither true nor false.
    #[error("{refused}: {}", mistake::BAD_BOOLEAN)]
    BadBoolean {
        refused: Refused,
    },
    /// No word follows `-f`.
    #[error("{refused}: {}", mistake::NO_VALUE)]
    NoValue {
        refused: Refused,
    },
    /// The first word is told; it is empty where there is none.
    #[error("{}", NoCommand(first))]
    NoCommand {
        first: Refused,
    },
    #[error("{}{}", Line(*line), Mistake::of_no_target(*line))]
    NoTarget {
        line: u64,
    },
    #[error("{refused}: {}", Mistake::of_command(refused, *fault))]
    Command {
        refused: Refused,
        fault: CommandFault,
    },
    #[error("{refused}: {}", Mistake::of_label(refused, *fault))]
    Label {
        refused: Refused,
        fault: LabelFault,
    },
    /// The first of the words is told.
    #[error("{refused}: {}", mistake::WORDS_WITH_FILE)]
    WordsWithFile {
        refused: Refused,
    },
    #[error("{}", mistake::TWO_INPUTS)]
    TwoInputs,
    #[error("{}", mistake::FILE_NOT_UTF8)]
    NotUtf8,
}

/// A line of a command file, before what is told of it; nothing for the command line.
#[derive(Clone, Copy)]
struct Line(u64);

impl fmt::Display for Line {
    fn fmt<W: fmt::Write>(&self, f: &mut fmt::Formatter<W>) -> fmt::Result {
        match self.0 {
            0 => Ok(()),
            line => write!(f, "line {line}: "),
        }
    }
}

/// A group without a command: its first word is shown where it is nearly one.
#[derive(Clone, Copy)]
struct NoCommand<'a>(&'a Refused);

impl<'a> fmt::Display for NoCommand<'a> {
    fn fmt<W: fmt::Write>(&self, f: &mut fmt::Formatter<W>) -> fmt::Result {
        let first = self.0;
        match Mistake::of_name(first.word.as_str(), first.line) {
            Some(mistake) => write!(f, "{first}: {mistake}"),
            None => write!(
                f,
                "{}{}",
                Line(first.line),
                Mistake::of_no_command(first.line)
            ),
        }
    }
}

impl From<NoMemory> for UsageFault {
    ghost use Rattle.bz_script.specs.declared.usage.UsageFault.TheVariants.{OutOfMemory};

    ghost from_gives = { λ why e. e ≡ OutOfMemory why };

    fn from(why: NoMemory) -> UsageFault {
        UsageFault::OutOfMemory(why)
    }
}

/// Why a run does not begin.
#[derive(Debug, Drop, Error)]
pub enum StartFault {
    #[error("{}", mistake::WORD_NOT_UTF8)]
    NotUtf8,
    #[error("{}: {}", .0, mistake::UNREAD_FILE)]
    UnreadCommands(Quoted),
    #[error("{}: {}", .0, mistake::LONG_FILE)]
    LongCommands(Quoted),
    #[error(transparent)]
    Usage(UsageFault),
}

impl From<UsageFault> for StartFault {
    ghost use Rattle.bz_script.specs.declared.usage.StartFault.TheVariants.{Usage};

    ghost from_gives = { λ fault e. e ≡ Usage fault };

    fn from(fault: UsageFault) -> StartFault {
        StartFault::Usage(fault)
    }
}
