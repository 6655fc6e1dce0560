//! The log of a run. Lines and messages are entries of one type, since their order is one.

ghost use Rattle.std.specs.Prelude.{◌≡◌, [], ◌∷◌, ◌++◌, List, OnOk, OnErr, option_map, option_to_list, take};
ghost use Rattle.std.specs.List.{flat_map};
ghost use Rattle.bz_passes.specs.declared.entry.Entry.TheVariants.{Line};
ghost use Rattle.bz_passes.specs.Entries.{line_text, message_text, failure_text};
ghost use Rattle.bz_passes.specs.private.Logs.{kind_of};

use crate::entry::{Entry, EntryKind};
use crate::texts::Texts;
use bz_memory::{NoMemory, append, reserve};
use std::alloc::Global;
use std::marker::Model;

/// The entries that a run reports, in order. An entry costs its text, the text's length and one byte.
#[derive(Drop)]
pub struct Log {
    parts: LogParts,
}

/// What each entry is in turn, and the texts of lines and of messages.
#[derive(Drop)]
struct LogParts {
    kinds: Vec<EntryKind>,
    lines: Texts,
    messages: Texts,
}

impl Model for Log {
    ghost use Rattle.std.specs.Prelude.{List};
    ghost use Rattle.bz_passes.specs.declared.entry.Entry.{Entry};
    ghost use Rattle.bz_passes.specs.private.Logs.{woven, AreWoven};

    ghost Value = { List Entry };

    ghost view = { λ log. woven log.parts.kinds.items log.parts.lines log.parts.messages };

    ghost invariant = { λ log. AreWoven log.parts.kinds.items log.parts.lines log.parts.messages };
}

impl Log {
    /// Makes a log without entries, without an allocation.
    pub fn new(alloc: Global) -> Log
        ensures { result ≡ [] }
    {
        Log {
            parts: LogParts {
                kinds: Vec::new(alloc),
                lines: Texts::new(alloc),
                messages: Texts::new(alloc),
            },
        }
    }

    /// Appends an entry.
    pub fn push(&mut self, entry: Entry) -> Result<(), NoMemory>
        ensures { OnOk result (self.new ≡ self.old ++ entry ∷ []) }
    {
        reserve(&mut self.parts.kinds, 1)?;
        self.parts.put_text(&entry)?;
        self.parts.kinds.push_reserved(kind_of(&entry));
        Ok(())
    }

    /// Appends a line. `Err`: allocation failed, and the log is as it was.
    pub fn push_line(&mut self, line: &str) -> Result<(), NoMemory>
        ensures { OnOk result (self.new ≡ self.old ++ Line line.now ∷ []) }
    {
        reserve(&mut self.parts.kinds, 1)?;
        self.parts.lines.push(line)?;
        self.parts.kinds.push_reserved(EntryKind::Line);
        Ok(())
    }

    /// Moves the entries of another log to the end; to an empty log without an allocation. `Err`: allocation failed,
    /// and the log is left empty.
    pub fn append(&mut self, other: Log) -> Result<(), NoMemory>
        ensures { OnOk result (self.new ≡ self.old ++ other) }
    {
        if self.parts.kinds.is_empty() {
            *self = other;
            return Ok(());
        }
        let Log { parts } = other;
        match self.parts.append(parts) {
            Ok(()) => Ok(()),
            Err(refused) => {
                self.parts.clear();
                Err(refused)
            }
        }
    }

    /// The text of the first entry that is a failure.
    pub fn first_failure(&self) -> Option<&str>
        ensures { option_to_list (option_map (λ text. text.now) result)
            ≡ take 1 (flat_map failure_text self.now) }
    {
        let mut messages = self.parts.messages.iter();
        for kind in &self.parts.kinds {
            match kind {
                EntryKind::Line => {}
                EntryKind::Warning => {
                    let _warning = messages.next();
                }
                EntryKind::Failure => return messages.next(),
            }
        }
        None
    }

    /// The texts of the lines and those of the messages, each in order, without an allocation.
    pub fn into_texts(self) -> (Texts, Texts)
        ensures lines { result.0 ≡ flat_map line_text self }
        ensures messages { result.1 ≡ flat_map message_text self }
    {
        let Log { parts } = self;
        let LogParts {
            kinds: _kinds,
            lines,
            messages,
        } = parts;
        (lines, messages)
    }
}

impl LogParts {
    /// Puts the text of an entry after those of lines, or of messages.
    fn put_text(&mut self, entry: &Entry) -> Result<(), NoMemory>
        ensures kinds { self.new.kinds ≡ self.old.kinds }
        ensures lines { OnOk result (self.new.lines ≡ self.old.lines ++ line_text entry.now) }
        ensures messages { OnOk result (self.new.messages ≡ self.old.messages ++ message_text entry.now) }
        ensures stays { OnErr result ((self.new.lines ≡ self.old.lines)
            × (self.new.messages ≡ self.old.messages)) }
    {
        match entry {
            Entry::Line(text) => self.lines.push(text.as_str()),
            Entry::Warning(text) | Entry::Failure(text) => self.messages.push(text.as_str()),
        }
    }

    /// Puts each part of another log after the same part of this one.
    fn append(&mut self, other: LogParts) -> Result<(), NoMemory>
        ensures kinds { OnOk result (self.new.kinds.items ≡ self.old.kinds.items ++ other.kinds.items) }
        ensures lines { OnOk result (self.new.lines ≡ self.old.lines ++ other.lines) }
        ensures messages { OnOk result (self.new.messages ≡ self.old.messages ++ other.messages) }
    {
        let mut other = other;
        append(&mut self.kinds, &mut other.kinds)?;
        self.lines.append(other.lines)?;
        self.messages.append(other.messages)
    }

    fn clear(&mut self)
        ensures { (self.new.kinds.items ≡ []) × (self.new.lines ≡ []) × (self.new.messages ≡ []) }
    {
        self.kinds.clear();
        self.lines.clear();
        self.messages.clear();
    }
}

fn kind_of(entry: &Entry) -> EntryKind
    ensures { result ≡ kind_of entry.now }
{
    match entry {
        Entry::Line(_) => EntryKind::Line,
        Entry::Warning(_) => EntryKind::Warning,
        Entry::Failure(_) => EntryKind::Failure,
    }
}
