//! The language of passes over BUILD files: targets and commands on the rules of a package.

ghost use Rattle.std.specs.Prelude.{◌≡◌, [], ◌∷◌, ◌++◌, map, Option, option_to_list, IfOk, OnOk, string_bytes};
ghost use Rattle.bz_tree.specs.Tree.{Statement};
ghost use Rattle.bz_engine.specs.Failing.{has_failure, note_told};
ghost use Rattle.bz_engine.specs.Messages.{note_entry};
ghost use Rattle.bz_passes.specs.declared.entry.Entry.TheVariants.{Line};
ghost use Rattle.bz_attribute.specs.Texts.{shown_text};
ghost use Rattle.bz_token.specs.Common.{map_or};

use crate::message;
use bz_attribute::Env;
use bz_memory::NoMemory;
use bz_passes::entry::Entry;
use bz_passes::index::Key;
use bz_passes::language::{Facts, Language};
use bz_passes::log::Log;
use bz_rule::{Command, Done, Note, Package, StatementRow, Target, Text, execute};
use std::alloc::Global;

/// Targets and commands on the rules of a package, whose statements borrow from the file.
#[derive(Clone, Copy)]
pub(crate) struct Rules<'a> {
    pub(crate) alloc: Global,
    pub(crate) home: &'a Package,
}

impl<'a> Language for Rules<'a> {
    type Statement = StatementRow<'a>;

    type Target = Target;

    type Command = Command;

    ghost use Rattle.bz_engine.specs.Language.{meaning};
    ghost use Rattle.bz_engine.specs.Failing.{changes, fails_on};

    ghost Seen = { Statement };

    ghost seen = { λ slot. slot };

    ghost meaning = { λ rules. meaning rules.home.now };

    ghost changes = { λ rules. changes rules.home.now };

    ghost fails = { λ rules. fails_on rules.home.now };

    fn marks(&self, target: &Target, slot: &Option<StatementRow<'a>>) -> bool {
        match slot {
            None => false,
            Some(stmt) => stmt.is_marked_by(target),
        }
    }

    fn key<'s>(&self, slot: &'s Option<StatementRow<'a>>) -> Key<'s> {
        let Some(stmt) = slot else {
            return Key::NoName;
        };
        match stmt.name() {
            None => Key::NoName,
            Some(name) => Key::Name(name),
        }
    }

    fn must_mark(&self, target: &Target) -> bool {
        target.must_mark()
    }

    fn not_found(&self, target: &Target) -> Result<Entry, NoMemory> {
        let text = message::not_found(self.alloc, self.home, target)?;
        Ok(Entry::Failure(text))
    }

    // By itself: the loops over passes and commands stay small.
    #[inline(never)]
    fn apply(
        &self,
        command: &Command,
        slot: &mut Option<StatementRow<'a>>,
        log: &mut Log,
    ) -> Result<Facts, NoMemory> {
        let env = Env {
            alloc: self.alloc,
            home: self.home,
        };
        let done = execute(env, command, slot)?;
        // Where there is a note, the slot is as the command found it.
        tell_done(self.alloc, self.home, slot, &done, log)
    }
}

/// Puts what an execution told after the log: what it printed, then its note on the rule in the slot. Answers whether
/// it changed something and whether it failed.
fn tell_done(
    alloc: Global,
    home: &Package,
    slot: &Option<StatementRow<'_>>,
    done: &Done,
    log: &mut Log,
) -> Result<Facts, NoMemory>
    ensures told { OnOk result (log.new ≡ log.old ++ (map Line (option_to_list done.now.line)
        ++ note_told (map_or [] (shown_text home.now) slot.now) done.now.note)) }
    ensures changed { IfOk result (λ facts. facts.changed ≡ done.now.changed) }
    ensures failed { IfOk result (λ facts. facts.failed
        ≡ has_failure (note_told (map_or [] (shown_text home.now) slot.now) done.now.note)) }
{
    tell_line(&done.line, log)?;
    let failed = tell_note(alloc, home, slot, &done.note, log)?;
    Ok(Facts {
        changed: done.changed,
        failed,
    })
}

fn tell_line(line: &Option<Text>, log: &mut Log) -> Result<(), NoMemory>
    ensures { OnOk result (log.new ≡ log.old ++ map Line (option_to_list line.now)) }
{
    if let Some(text) = line {
        log.push_line(text.as_str())?;
    }
    Ok(())
}

/// Answers whether it is a note of a failure.
fn tell_note(
    alloc: Global,
    home: &Package,
    slot: &Option<StatementRow<'_>>,
    note: &Option<Note>,
    log: &mut Log,
) -> Result<bool, NoMemory>
    ensures told { OnOk result (log.new ≡ log.old
        ++ note_told (map_or [] (shown_text home.now) slot.now) note.now) }
    ensures failed { IfOk result (λ failed. failed
        ≡ has_failure (note_told (map_or [] (shown_text home.now) slot.now) note.now)) }
{
    let Some(note) = note else {
        return Ok(false);
    };
    let entry = entry_on(alloc, home, slot, note)?;
    let failed = is_failure(&entry);
    log.push(entry)?;
    Ok(failed)
}

fn is_failure(entry: &Entry) -> bool
    ensures { result ≡ has_failure (entry.now ∷ []) }
{
    matches!(entry, Entry::Failure(_))
}

/// What is told of a note on the rule in a slot.
fn entry_on(
    alloc: Global,
    home: &Package,
    slot: &Option<StatementRow<'_>>,
    note: &Note,
) -> Result<Entry, NoMemory>
    ensures { IfOk result (λ entry. entry ≡ note_entry (map_or [] (shown_text home.now) slot.now) note.now) }
{
    let rule = shown_slot(alloc, home, slot)?;
    message::note_entry(rule, note)
}

/// The rule in a slot, as it is shown; empty where there is none.
fn shown_slot(
    alloc: Global,
    home: &Package,
    slot: &Option<StatementRow<'_>>,
) -> Result<String, NoMemory>
    ensures { IfOk result (λ text. string_bytes text ≡ map_or [] (shown_text home.now) slot.now) }
{
    match slot {
        None => Ok(String::new(alloc)),
        Some(stmt) => stmt.shown(alloc, home),
    }
}
