//! Groups: commands, and the labels of the rules that they are for.

ghost use Rattle.bz_memory.specs.NoMemory.{no_memory};
ghost use Rattle.std.specs.Prelude.{◌≡◌, ◌≢◌, ◌++◌, map, Err, IfOk, OnOk};
ghost use Rattle.std.specs.List.{filter};
ghost use Rattle.std.specs.Option.{option_to_list};
ghost use Rattle.bz_script.specs.Results.{map_ok};
ghost use Rattle.bz_script.specs.Groups as spec;
ghost use Rattle.bz_script.specs.private.Words.{command_of, label_of};

use crate::usage::{Refused, UsageFault};
use bz_label::{LabelFault, Package, Target, read_label};
use bz_memory::{NoMemory, push, with_room_for};
use bz_passes::pass::Pass;
use bz_rule::{Command, CommandFault, read_command};
use std::alloc::Global;

/// Passes in the order in which they are made, each with the package that it is for.
pub type Script = Vec<(Package, Pass<Target, Command>)>;

/// Reads the words of a group, whose line is told in faults: for each target in order, one pass with all commands.
///
/// A word whose own first word is a command's name is a command, and any other is a label. Faults of words come first,
/// from left to right, then a missing command, then a missing target.
pub fn read_group(alloc: Global, line: u64, words: &[&str]) -> Result<Script, UsageFault>
    ensures { result ≢ Err (UsageFault.OutOfMemory no_memory)
        → map_ok (λ script. script.items) result ≡ spec.group_of line (map (λ word. word.now) words.now) }
{
    let Group { commands, labels } = read_words(alloc, line, words)?;
    if commands.is_empty() {
        let first = Refused::new(alloc, line, 1, first_of(words))?;
        return Err(UsageFault::NoCommand { first });
    }
    if labels.is_empty() {
        return Err(UsageFault::NoTarget { line });
    }
    let script = passes_for(alloc, words, commands, labels)?;
    Ok(script)
}

/// What the words of a group are, each kind in order.
#[derive(Drop)]
struct Group {
    commands: Vec<Command>,
    labels: Vec<(Package, Target)>,
}

/// What a word of a group is.
#[derive(Drop)]
enum Word {
    Command(Command),
    Label((Package, Target)),
}

/// The first word, which is empty where there is none.
fn first_of<'a>(words: &[&'a str]) -> &'a str
    ensures { result.now ≡ spec.first_of (map (λ word. word.now) words.now) }
{
    match words.split_first() {
        Some((word, _)) => *word,
        None => "",
    }
}

/// Reads one word of a group. `number` counts the words from 1.
fn read_word(alloc: Global, line: u64, number: u64, word: &str) -> Result<Word, UsageFault>
    ensures label { result ≢ Err (UsageFault.OutOfMemory no_memory)
        → map_ok label_of result ≡ spec.label_in line number word.now }
    ensures command { IfOk result (λ read. command_of read ≡ spec.command_in word.now) }
{
    match read_command(alloc, word) {
        Ok(Some(command)) => return Ok(Word::Command(command)),
        Ok(None) => {}
        Err(CommandFault::OutOfMemory(why)) => return Err(UsageFault::OutOfMemory(why)),
        Err(fault) => {
            let refused = Refused::new(alloc, line, number, word)?;
            return Err(UsageFault::Command { refused, fault });
        }
    }
    match read_label(alloc, word) {
        Ok(label) => Ok(Word::Label(label)),
        Err(LabelFault::OutOfMemory(why)) => Err(UsageFault::OutOfMemory(why)),
        Err(fault) => {
            let refused = Refused::new(alloc, line, number, word)?;
            Err(UsageFault::Label { refused, fault })
        }
    }
}

/// Puts a word after those of its kind.
fn keep_word(
    word: Word,
    commands: &mut Vec<Command>,
    labels: &mut Vec<(Package, Target)>,
) -> Result<(), NoMemory>
    ensures commands { OnOk result (commands.new.items
        ≡ commands.old.items ++ option_to_list (command_of word)) }
    ensures labels { OnOk result (labels.new.items ≡ labels.old.items ++ option_to_list (label_of word)) }
{
    match word {
        Word::Command(command) => Ok(push(commands, command)?),
        Word::Label(label) => Ok(push(labels, label)?),
    }
}

/// Reads each word of a line: commands and labels, in order.
fn read_words(alloc: Global, line: u64, words: &[&str]) -> Result<Group, UsageFault>
    ensures labels { result ≢ Err (UsageFault.OutOfMemory no_memory)
        → map_ok (λ group. group.labels.items) result
        ≡ spec.labels_of line 1 (map (λ word. word.now) words.now) }
    ensures commands { IfOk result (λ group. group.commands.items
        ≡ spec.commands_of (map (λ word. word.now) words.now)) }
{
    let mut commands = Vec::new(alloc);
    let mut labels = Vec::new(alloc);
    for (index, word) in words.iter().enumerate() {
        match read_word(alloc, line, index as u64 + 1, *word) {
            Ok(word) => keep_word(word, &mut commands, &mut labels)?,
            Err(fault) => return Err(fault),
        }
    }
    Ok(Group { commands, labels })
}

/// The command that a word is, where it is one without a fault.
fn command_in(alloc: Global, word: &str) -> Result<Option<Command>, NoMemory>
    ensures { IfOk result (λ command. command ≡ spec.command_in word.now) }
{
    match read_command(alloc, word) {
        Ok(command) => Ok(command),
        Err(CommandFault::OutOfMemory(why)) => Err(why),
        Err(_) => Ok(None),
    }
}

/// The words that are commands.
fn command_words<'a>(alloc: Global, words: &[&'a str]) -> Result<Vec<&'a str>, NoMemory>
    ensures { IfOk result (λ commands. map (λ word. word.now) commands.items
        ≡ filter spec.is_command (map (λ word. word.now) words.now)) }
{
    let mut commands = Vec::new(alloc);
    for &word in words {
        if command_in(alloc, word)?.is_some() {
            push(&mut commands, word)?;
        }
    }
    Ok(commands)
}

/// The commands among the words. Other words are passed over.
fn read_commands(alloc: Global, words: &[&str]) -> Result<Vec<Command>, NoMemory>
    ensures { IfOk result (λ commands. commands.items ≡ spec.commands_of (map (λ word. word.now) words.now)) }
{
    let mut commands = with_room_for(alloc, words, 0)?;
    for word in words {
        if let Some(command) = command_in(alloc, *word)? {
            push(&mut commands, command)?;
        }
    }
    Ok(commands)
}

/// One pass for each label, each with all commands, which are those of the words.
fn passes_for(
    alloc: Global,
    words: &[&str],
    commands: Vec<Command>,
    mut labels: Vec<(Package, Target)>,
) -> Result<Script, NoMemory>
    requires { commands.items ≡ spec.commands_of (map (λ word. word.now) words.now) }
    ensures { IfOk result (λ script. script.items ≡ map (spec.pass_for commands.items) labels.items) }
{
    let Some((package, target)) = labels.pop() else {
        return Ok(Vec::new(alloc));
    };
    let mut script = passes_anew(alloc, words, labels)?;
    push(&mut script, (package, Pass { target, commands }))?;
    Ok(script)
}

/// One pass for each label, whose commands are read anew from the words: a command has no copy.
fn passes_anew(
    alloc: Global,
    words: &[&str],
    labels: Vec<(Package, Target)>,
) -> Result<Script, NoMemory>
    ensures { IfOk result (λ script. script.items
        ≡ map (spec.pass_for (spec.commands_of (map (λ word. word.now) words.now))) labels.items) }
{
    if labels.is_empty() {
        return Ok(Vec::new(alloc));
    }
    let again = command_words(alloc, words)?;
    let kept = again.as_slice();
    let mut script = with_room_for(alloc, labels.as_slice(), 0)?;
    for (package, target) in labels {
        let commands = read_commands(alloc, kept)?;
        push(&mut script, (package, Pass { target, commands }))?;
    }
    Ok(script)
}
