//! Rules of which the one command of a script tells a message, by what is known of their text.

ghost use Rattle.std.specs.Prelude.{◌≡◌, ◌∷◌, ◌++◌, [], codes, IfOk, IfSome, IsTrue};
ghost use Rattle.bz_attribute.specs.Texts.{home_text};
ghost use Rattle.bz_rule.specs.declared.commands.field.Field.TheVariants.{ValueOf};
ghost use Rattle.bz_rule.specs.declared.command.Action.TheVariants.{Print};
ghost use Rattle.bz_attribute.specs.declared.done.Note.TheVariants.{NoAttribute};
ghost use Rattle.bz_engine.specs.Messages.{note_entry};
ghost use Rattle.bz_engine.specs.private.Found.{TellsRule};

use crate::answer::is_without;
use crate::canonical::Found;
use crate::edit::ScriptRun;
use crate::message::{LONG_MESSAGE, missing_name, note_entry};
use bz_attribute::push_home;
use bz_label::Package;
use bz_memory::{NoMemory, push_str, with_length_of};
use bz_passes::entry::Entry;
use bz_rule::forms::{needed, printed_by};
use bz_rule::{Command, Field, Note, Text};
use bz_token::check_utf8;
use std::alloc::Global;

/// What is told of a rule that stays as it is, with a message.
#[derive(Drop)]
pub(crate) struct Message {
    /// The line before the message.
    pub(crate) line: Option<&'static str>,
    pub(crate) told: Entry,
    /// It is a failure.
    pub(crate) fails: bool,
}

/// What is told of a rule without a name whose name is to be printed.
pub(crate) fn missing_by_text(
    script: ScriptRun<'_>,
    command: &Command,
    found: &Found<'_>,
) -> Result<Option<Message>, NoMemory>
    ensures { IfOk result (λ known. IfSome known
        (TellsRule script.entry.keep_going command.now script.entry.home.now
        found.now)) }
{
    let Some(kind) = found.chunk.kind else {
        return Ok(None);
    };
    if !prints_name(command) {
        return Ok(None);
    }
    let Ok(kind) = check_utf8(kind) else {
        return Ok(None);
    };
    let text = missing_name(script.alloc, script.home, kind)?;
    Ok(Some(Message {
        line: Some("(missing)"),
        told: Entry::Warning(text),
        fails: false,
    }))
}

/// The command prints the name alone.
fn prints_name(command: &Command) -> bool
    ensures { IsTrue result → command.now ≡ Print (ValueOf (codes "name") ∷ []) }
{
    match printed_by(command) {
        Some(fields) => is_name(fields),
        None => false,
    }
}

/// The name is the one field.
fn is_name(fields: &[Field]) -> bool
    ensures { IsTrue result → fields.now ≡ ValueOf (codes "name") ∷ [] }
{
    let [field] = fields else {
        return false;
    };
    match field {
        Field::ValueOf(attr) if attr.as_str() == "name" => true,
        _ => false,
    }
}

/// What the command tells of a rule on which it fails, where failures do not end the run.
pub(crate) fn failure_by_text(
    script: ScriptRun<'_>,
    command: &Command,
    found: &Found<'_>,
) -> Result<Option<Message>, NoMemory>
    ensures { IfOk result (λ known. IfSome known
        (TellsRule script.entry.keep_going command.now script.entry.home.now
        found.now)) }
{
    if !script.keep_going {
        return Ok(None);
    }
    let Some(attr) = needed(command) else {
        return Ok(None);
    };
    if !is_without(found, attr) {
        return Ok(None);
    }
    let Some(name) = found.chunk.name else {
        return Ok(None);
    };
    let told = no_attribute(script.alloc, script.home, name, attr)?;
    Ok(Some(Message {
        line: None,
        told,
        fails: true,
    }))
}

/// What is told of a rule of this name that has no such attribute.
fn no_attribute(alloc: Global, home: &Package, name: &str, attr: &str) -> Result<Entry, NoMemory>
    ensures { IfOk result (λ entry. entry
        ≡ note_entry (home_text home.now ++ name.now) (NoAttribute attr.now)) }
{
    let mut rule = with_length_of(alloc, LONG_MESSAGE)?;
    push_home(&mut rule, home)?;
    push_str(&mut rule, name)?;
    let note = Note::NoAttribute(Text::from_str(alloc, attr)?);
    note_entry(rule, &note)
}
