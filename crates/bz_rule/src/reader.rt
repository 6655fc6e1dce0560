//! How a command is read from its text, and what several commands read of their words.

ghost use Rattle.bz_memory.specs.NoMemory.{no_memory};
ghost use Rattle.std.specs.Prelude.{◌≡◌, ◌≢◌, ◌∷◌, [], Err, MatchResult, Ok, false, if◌then◌else◌, true};
ghost use Rattle.std.specs.List.{list_any};
ghost use Rattle.bz_label.specs.Arguments as arguments;
ghost use Rattle.bz_label.specs.Names.{is_identifier};
ghost use Rattle.bz_rule.specs.Commands as spec;
ghost use Rattle.bz_rule.specs.private.CommandSteps.{commented_of};

use crate::command::{Command, CommandFault, read_named};
use bz_label::{Attributes, Chosen, Commented, Seq, Text, read_words};
use bz_token::is_identifier;
use std::alloc::Global;

/// Reads a command (buildozer README, edit commands); `None` for a text whose first word is no command's name. Of
/// several faults the first in the order of [`CommandFault`] is told.
pub fn read_command(alloc: Global, text: &str) -> Result<Option<Command>, CommandFault>
    ensures { result ≢ Err (CommandFault.OutOfMemory no_memory) → result ≡ spec.command_of text.now }
{
    let mut words = read_words(alloc, text)?;
    let Ok(name) = next_word(&mut words) else {
        return Ok(None);
    };
    match read_named(alloc, name.as_str(), words)? {
        None => Ok(None),
        Some(action) => Ok(Some(Command { action })),
    }
}

/// One star means all elements.
pub(crate) fn moved(values: Seq<Text>) -> Chosen
    ensures { result ≡ spec.moved_of values }
{
    match values.as_slice() {
        [value] if value.as_str() == "*" => Chosen::All,
        _ => Chosen::Values(values),
    }
}

/// What a comment stands before: the rule, an attribute, or a value of one.
pub(crate) fn read_place(mut words: Vec<Text>) -> Result<Commented, CommandFault>
    ensures { result ≡ commented_of words.items }
{
    let Ok(attr) = next_word(&mut words) else {
        return Ok(Commented::Rule);
    };
    let Ok(value) = next_word(&mut words) else {
        return Ok(Commented::Attribute(attribute(attr)?));
    };
    ensure(words.len() == 0, CommandFault::WrongCount)?;
    Ok(Commented::Value(attribute(attr)?, value))
}

pub(crate) fn breaks_line(text: &str) -> bool
    ensures { result ≡ list_any arguments.breaks_line text.now }
{
    text.as_bytes().iter().any(|b| *b == b'\n' || *b == b'\r')
}

/// A star means every attribute.
pub(crate) fn attributes(word: Text) -> Result<Attributes, CommandFault>
    ensures { result ≡ (if spec.is_star word then Ok Attributes.Every
        else (if is_identifier word then Ok (Attributes.Named word) else Err CommandFault.BadAttribute)) }
{
    if word.as_str() == "*" {
        return Ok(Attributes::Every);
    }
    Ok(Attributes::Named(attribute(word)?))
}

pub(crate) fn attribute(word: Text) -> Result<Text, CommandFault>
    ensures { result ≡ (if is_identifier word then Ok word else Err CommandFault.BadAttribute) }
{
    ensure(is_identifier(word.as_str()), CommandFault::BadAttribute)?;
    Ok(word)
}

pub(crate) fn next_word(words: &mut Vec<Text>) -> Result<Text, CommandFault>
    ensures { MatchResult result (λ word. words.old.items ≡ word ∷ words.new.items)
        (λ fault. (words.old.items ≡ []) × (fault ≡ CommandFault.WrongCount)) }
{
    ensure(words.len() > 0, CommandFault::WrongCount)?;
    Ok(words.remove(0))
}

/// The fault, where the test fails.
pub(crate) fn ensure(holds: bool, fault: CommandFault) -> Result<(), CommandFault>
    ensures { MatchResult result (λ _. holds ≡ true) (λ f. (holds ≡ false) × (f ≡ fault)) }
{
    holds.then_some(()).ok_or(fault)
}
