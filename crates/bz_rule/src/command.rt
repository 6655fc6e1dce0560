//! The commands on one rule: what each is, how its words are read, and what it makes of the arguments of a rule.
//! `reader.rt` calls `read_named`, `row_edit.rt` `edit_arguments`, and crates above `one_attribute`, `attributes_of`,
//! `values_sought`, `values_of` and `is_print`.

ghost use Rattle.bz_memory.specs.NoMemory.{no_memory};
ghost use Rattle.std.specs.Prelude.{◌≡◌, ◌≢◌, ◌∷◌, ◌++◌, [], Err, IfOk, IfSome, OnOk, Some, map, option_map, true};
ghost use Rattle.std.specs.List.{flat_map};
ghost use Rattle.bz_tree.specs.Rows.{part_view};
ghost use Rattle.bz_attribute.specs.RowEdits.{IsRowEdit};
ghost use Rattle.bz_rule.specs.Commands as spec;
ghost use Rattle.bz_rule.specs.Forms.{listed, values_of};
ghost use Rattle.bz_rule.specs.OneAttribute.{one_attribute};
ghost use Rattle.bz_rule.specs.Print.{fields_of};
ghost use Rattle.bz_rule.specs.Sealed as sealed;
ghost use Rattle.bz_rule.specs.declared.command.Action.TheVariants.{Rename};
ghost use Rattle.bz_rule.specs.declared.command.CommandFault.TheVariants.{OutOfMemory};
ghost use Rattle.bz_rule.specs.private.RowEdits.{edits_arguments};

use crate::commands::add::add;
use crate::commands::field::{Field, read_field};
use crate::commands::line::comment;
use crate::commands::moving::{Move, move_elements};
use crate::commands::remove::remove;
use crate::commands::rename::rename;
use crate::commands::replace::{Change, replace};
use crate::commands::set::{set, set_if_absent};
use crate::forms::Values;
use crate::reader::{attribute, attributes, breaks_line, ensure, moved, next_word, read_place};
use bz_attribute::{Done, Edit, Env, Parts};
use bz_label::{Attributes, Chosen, Commented, Seq, Setting, Text, is_kind};
use bz_memory::{NoMemory, push, with_room_for};
use bz_tree::Part;
use std::alloc::Global;
use std::marker::Model;

/// The ten commands.
#[derive(Drop)]
pub enum Action {
    /// An attribute and its new values.
    Add(Text, Seq<Text>),
    /// Attributes and the values to go; no values: the attributes go.
    Remove(Attributes, Seq<Text>),
    Set(Setting),
    SetIfAbsent(Text, Seq<Text>),
    Delete,
    /// From one name to another.
    Rename(Text, Text),
    /// From one attribute to another.
    Move(Text, Text, Chosen),
    /// Attributes, a value, and the one that takes its place.
    Replace(Attributes, Text, Text),
    Comment(Commented, Text),
    Print(Seq<Field>),
}

/// How the commands are written, a line each.
pub const USAGE: &str = "\
commands (words are separated by spaces; \"\\ \" is a space inside a word):
  add ATTR VALUE..             adds values to a list
  remove ATTR [VALUE..]        removes an attribute, or values from its list (* for all attributes)
  set ATTR VALUE..             sets an attribute ('set kind KIND' the rule's kind)
  set_if_absent ATTR VALUE..   sets an attribute that is not there
  rename OLD NEW               renames an attribute
  move OLD NEW VALUE..         moves values from one list to another (* for all)
  replace ATTR OLD NEW         replaces a value in a list (* for all attributes)
  comment [ATTR [VALUE]] TEXT  adds a comment before a rule, an attribute or a value
  delete                       removes the rule
  print [FIELD..]              prints attributes, or label, kind, startline, endline
";

/// The commands of Bazel's own buildozer (README, "Edit commands" and "Print commands") that this program does not
/// have.
pub const LEFT_OUT: [&str; 23] = [
    "copy",
    "copy_no_overwrite",
    "dict_add",
    "dict_delete",
    "dict_list_add",
    "dict_list_remove",
    "dict_remove",
    "dict_replace_if_equal",
    "dict_set",
    "fix",
    "format",
    "new",
    "new_load",
    "print_comment",
    "remove_comment",
    "remove_if_equal",
    "replace_load",
    "set_select",
    "substitute",
    "substitute_load",
    "use_repo_add",
    "use_repo_remove",
    "version",
];

/// A command on one rule. [`read_command`](crate::read_command) makes it.
pub struct Command {
    pub(crate) action: Action,
}

// Written out, so that crates above need no proof of how each action is dropped.
impl Drop for Command {
    fn drop(self) {
        let Command { action: _ } = self;
    }
}

impl Model for Command {
    ghost use Rattle.bz_rule.specs.Commands as spec;

    ghost Value = { spec.Command };

    ghost view = { λ c. c.action };

    ghost invariant = { λ c. spec.IsRead c.action };
}

impl Command {
    /// Law: it is one that can be read, and its words, but for those of `print`, are UTF-8.
    pub fn is_read(&self)
        ensures { spec.IsRead self.now }
    {
        let _action = &self.action;
    }

    /// It only prints: a run of such commands alone writes no text.
    pub fn is_print(&self) -> bool
        ensures { result ≡ spec.is_print self.now }
    {
        matches!(self.action, Action::Print(_))
    }
}

/// Why words are no command.
#[derive(Clone, Copy, Debug, PartialEq, Eq)]
pub enum CommandFault {
    OutOfMemory(NoMemory),
    /// Too few or too many words.
    WrongCount,
    /// A word that is to be an attribute's name is none.
    BadAttribute,
    /// The word that is to be the rule's kind is none.
    BadKind,
    /// A comment with a newline or a carriage return.
    CommentLine,
    /// `move` from an attribute to itself.
    SameAttribute,
}

/// Reads the words after a command's name; `None` for another name.
pub(crate) fn read_named(
    alloc: Global,
    name: &str,
    words: Vec<Text>,
) -> Result<Option<Action>, CommandFault>
    ensures { result ≢ Err (CommandFault.OutOfMemory no_memory)
        → result ≡ spec.named_command name.now words.items }
{
    let action = match name {
        "add" => read_add(words),
        "remove" => read_remove(words),
        "set" => read_set(words),
        "set_if_absent" => read_set_if_absent(words),
        "delete" => read_delete(words),
        "rename" => read_rename(words),
        "move" => read_move(words),
        "replace" => read_replace(words),
        "comment" => read_comment(words),
        "print" => read_print(alloc, words),
        _ => return Ok(None),
    }?;
    Ok(Some(action))
}

fn read_add(mut words: Vec<Text>) -> Result<Action, CommandFault>
    ensures { result ≡ spec.add_of words.items }
{
    let attr = next_word(&mut words)?;
    ensure(words.len() > 0, CommandFault::WrongCount)?;
    Ok(Action::Add(attribute(attr)?, Seq::from_vec(words)))
}

fn read_remove(mut words: Vec<Text>) -> Result<Action, CommandFault>
    ensures { result ≡ spec.remove_of words.items }
{
    let attrs = next_word(&mut words)?;
    Ok(Action::Remove(attributes(attrs)?, Seq::from_vec(words)))
}

fn read_set(mut words: Vec<Text>) -> Result<Action, CommandFault>
    ensures { result ≡ spec.set_of words.items }
{
    let attr = next_word(&mut words)?;
    if words.len() == 0 || matches!(attr.as_str(), "name" | "kind") && words.len() != 1 {
        return Err(CommandFault::WrongCount);
    }
    if attr.as_str() == "kind" {
        let kind = next_word(&mut words)?;
        ensure(is_kind(kind.as_str()), CommandFault::BadKind)?;
        return Ok(Action::Set(Setting::ToKind(kind)));
    }
    Ok(Action::Set(Setting::ToValues(attribute(attr)?, Seq::from_vec(words))))
}

fn read_set_if_absent(mut words: Vec<Text>) -> Result<Action, CommandFault>
    ensures { result ≡ spec.set_if_absent_of words.items }
{
    let attr = next_word(&mut words)?;
    if words.len() == 0 || attr.as_str() == "name" && words.len() != 1 {
        return Err(CommandFault::WrongCount);
    }
    Ok(Action::SetIfAbsent(attribute(attr)?, Seq::from_vec(words)))
}

fn read_delete(words: Vec<Text>) -> Result<Action, CommandFault>
    ensures { result ≡ spec.delete_of words.items }
{
    ensure(words.len() == 0, CommandFault::WrongCount)?;
    Ok(Action::Delete)
}

fn read_rename(mut words: Vec<Text>) -> Result<Action, CommandFault>
    ensures { result ≡ spec.rename_of words.items }
{
    let old = next_word(&mut words)?;
    let new = next_word(&mut words)?;
    ensure(words.len() == 0, CommandFault::WrongCount)?;
    Ok(Action::Rename(attribute(old)?, attribute(new)?))
}

fn read_move(mut words: Vec<Text>) -> Result<Action, CommandFault>
    ensures { result ≡ spec.move_of words.items }
{
    let old = next_word(&mut words)?;
    let new = next_word(&mut words)?;
    ensure(words.len() > 0, CommandFault::WrongCount)?;
    let old = attribute(old)?;
    let new = attribute(new)?;
    ensure(old.as_str() != new.as_str(), CommandFault::SameAttribute)?;
    Ok(Action::Move(old, new, moved(Seq::from_vec(words))))
}

fn read_replace(mut words: Vec<Text>) -> Result<Action, CommandFault>
    ensures { result ≡ spec.replace_of words.items }
{
    let attrs = next_word(&mut words)?;
    let old = next_word(&mut words)?;
    let new = next_word(&mut words)?;
    ensure(words.len() == 0, CommandFault::WrongCount)?;
    Ok(Action::Replace(attributes(attrs)?, old, new))
}

// The last word is the text.
fn read_comment(mut words: Vec<Text>) -> Result<Action, CommandFault>
    ensures { result ≡ spec.comment_of words.items }
{
    let text = words.pop().ok_or(CommandFault::WrongCount)?;
    let place = read_place(words)?;
    ensure(!breaks_line(text.as_str()), CommandFault::CommentLine)?;
    Ok(Action::Comment(place, text))
}

fn read_print(alloc: Global, words: Vec<Text>) -> Result<Action, CommandFault>
    ensures { result ≢ Err (CommandFault.OutOfMemory no_memory) → result ≡ spec.print_of words.items }
{
    let mut fields = with_room_for(alloc, words.as_slice(), 0)?;
    for word in words {
        let field = read_field(word)?;
        push(&mut fields, field)?;
    }
    Ok(Action::Print(Seq::from_vec(fields)))
}

// `rename` as its command, so that `edit_arguments` needs no answer for it.
fn rename_argument<'a>(
    env: Env<'_>,
    change: Change<'_>,
    parts: &[Part<'a>],
    new: &mut Parts<'a>,
) -> Result<Edit, NoMemory>
    ensures { IfOk result (IsRowEdit
        (spec.args_after (Rename change.entry.old.now change.entry.new.now) env.entry.home.now)
        (spec.args_done (Rename change.entry.old.now change.entry.new.now) env.entry.home.now)
        (map part_view parts.now) (map part_view new.new.items)) }
{
    rename(env.alloc, change.old, change.new, parts, new)
}

/// What a command makes of the arguments of a rule, by its parts. The new parts go into a list. Each command is named
/// here: a new one does not compile until it is.
pub(crate) fn edit_arguments<'a>(
    env: Env<'_>,
    action: &Action,
    parts: &[Part<'a>],
    written: &mut Parts<'a>,
) -> Result<Edit, NoMemory>
    requires { edits_arguments action.now ≡ true }
    ensures { IfOk result (IsRowEdit (spec.args_after action.now env.entry.home.now)
        (spec.args_done action.now env.entry.home.now) (map part_view parts.now)
        (map part_view written.new.items)) }
{
    match action {
        Action::Add(attr, values) => add(env, attr.as_str(), values.as_slice(), parts, written),
        Action::Remove(attributes, values) => {
            remove(env, attributes, values.as_slice(), parts, written)
        }
        Action::Replace(attributes, old, new) => {
            let (old, new) = (old.as_str(), new.as_str());
            replace(env, attributes, Change { old, new }, parts, written)
        }
        Action::Move(old, new, moved) => {
            let (old, new) = (old.as_str(), new.as_str());
            move_elements(env, Move { old, new, moved }, parts, written)
        }
        Action::Rename(old, new) => {
            let (old, new) = (old.as_str(), new.as_str());
            rename_argument(env, Change { old, new }, parts, written)
        }
        Action::Set(Setting::ToValues(attr, words)) => {
            set(env.alloc, attr.as_str(), words.as_slice(), parts, written)
        }
        Action::SetIfAbsent(attr, words) => {
            set_if_absent(env.alloc, attr.as_str(), words.as_slice(), parts, written)
        }
        Action::Comment(commented, text) => comment(env, commented, text.as_str(), parts, written),
        Action::Set(Setting::ToKind(_)) | Action::Delete | Action::Print(_) => {
            Ok(Edit::none(Done::quiet(false)))
        }
    }
}

/// The attribute of a command that looks at its first argument alone.
pub fn one_attribute(command: &Command) -> Option<&str>
    ensures { IfSome result (λ attr. one_attribute command.now ≡ Some attr.now) }
{
    match &command.action {
        Action::Add(attr, _)
        | Action::Set(Setting::ToValues(attr, _))
        | Action::SetIfAbsent(attr, _)
        | Action::Replace(Attributes::Named(attr), _, _)
        | Action::Comment(Commented::Attribute(attr) | Commented::Value(attr, _), _) => {
            Some(attr.as_str())
        }
        Action::Remove(Attributes::Named(attr), values) if !values.as_slice().is_empty() => {
            Some(attr.as_str())
        }
        _ => None,
    }
}

/// The attributes that a command mentions: it looks at no argument of another name, and changes none, but those with a
/// value that it seeks in all (`values_sought`). None: it may look at each.
pub fn attributes_of<'c>(
    alloc: Global,
    command: &'c Command,
) -> Result<Option<Vec<&'c str>>, NoMemory>
    ensures { IfOk result (λ names. option_map (λ names. map (λ name. name.now) names.items) names
        ≡ sealed.attributes_of command.now) }
{
    match &command.action {
        Action::Add(attr, _) | Action::SetIfAbsent(attr, _) => one_name(alloc, attr),
        Action::Remove(Attributes::Named(attr), _) => one_name(alloc, attr),
        Action::Replace(Attributes::Named(attr), _, _) => one_name(alloc, attr),
        Action::Remove(Attributes::Every, values) if values.as_slice().is_empty() => Ok(None),
        Action::Remove(Attributes::Every, _) | Action::Replace(Attributes::Every, _, _) => {
            Ok(Some(Vec::new(alloc)))
        }
        Action::Set(Setting::ToValues(attr, _)) => one_name(alloc, attr),
        Action::Comment(Commented::Attribute(attr) | Commented::Value(attr, _), _) => {
            one_name(alloc, attr)
        }
        Action::Rename(old, new) | Action::Move(old, new, _) => two_names(alloc, old, new),
        Action::Print(fields) => printed_names(alloc, fields.as_slice()),
        Action::Set(Setting::ToKind(_)) | Action::Comment(Commented::Rule, _) | Action::Delete => {
            Ok(Some(Vec::new(alloc)))
        }
    }
}

/// The values that a command with `*` seeks in all attributes.
pub fn values_sought(command: &Command) -> Values<'_>
    ensures { listed result ≡ sealed.values_sought command.now }
{
    match &command.action {
        Action::Remove(Attributes::Every, values) => Values::Listed(values.as_slice()),
        Action::Replace(Attributes::Every, old, _) => Values::One(old.as_str()),
        _ => Values::None,
    }
}

fn one_name(alloc: Global, attr: &Text) -> Result<Option<Vec<&str>>, NoMemory>
    ensures { IfOk result (λ names. option_map (λ names. map (λ name. name.now) names.items) names
        ≡ Some (attr.now ∷ [])) }
{
    let mut names = Vec::new(alloc);
    push(&mut names, attr.as_str())?;
    Ok(Some(names))
}

fn two_names<'c>(
    alloc: Global,
    old: &'c Text,
    new: &'c Text,
) -> Result<Option<Vec<&'c str>>, NoMemory>
    ensures { IfOk result (λ names. option_map (λ names. map (λ name. name.now) names.items) names
        ≡ Some (old.now ∷ new.now ∷ [])) }
{
    let mut names = Vec::new(alloc);
    push(&mut names, old.as_str())?;
    push(&mut names, new.as_str())?;
    Ok(Some(names))
}

/// Those of what is printed: without fields the name.
fn printed_names(alloc: Global, fields: &[Field]) -> Result<Option<Vec<&str>>, NoMemory>
    ensures { IfOk result (λ names. option_map (λ names. map (λ name. name.now) names.items) names
        ≡ Some (flat_map sealed.attributes_printed (fields_of fields.now))) }
{
    let mut names = Vec::new(alloc);
    match fields {
        [] => push(&mut names, "name")?,
        _ => push_printed_names(&mut names, fields)?,
    }
    Ok(Some(names))
}

fn push_printed_names<'c>(names: &mut Vec<&'c str>, fields: &'c [Field]) -> Result<(), NoMemory>
    ensures { OnOk result (map (λ name. name.now) names.new.items
        ≡ map (λ name. name.now) names.old.items ++ flat_map sealed.attributes_printed fields.now) }
{
    for field in fields {
        match field {
            Field::Label => push(names, "name")?,
            Field::ValueOf(attr) => push(names, attr.as_str())?,
            Field::Kind | Field::StartLine | Field::EndLine => {}
        }
    }
    Ok(())
}

/// The values that the command writes or looks for.
pub fn values_of(command: &Command) -> Values<'_>
    ensures { listed result ≡ values_of command.now }
{
    match &command.action {
        Action::Add(_, values)
        | Action::Remove(_, values)
        | Action::SetIfAbsent(_, values)
        | Action::Set(Setting::ToValues(_, values))
        | Action::Move(_, _, Chosen::Values(values)) => Values::Listed(values.as_slice()),
        Action::Replace(_, old, new) => Values::Replaced(old.as_str(), new.as_str()),
        Action::Comment(Commented::Value(_, value), _) => Values::One(value.as_str()),
        Action::Set(Setting::ToKind(_))
        | Action::Move(_, _, Chosen::All)
        | Action::Comment(Commented::Rule | Commented::Attribute(_), _)
        | Action::Delete
        | Action::Rename(_, _)
        | Action::Print(_) => Values::None,
    }
}

impl From<NoMemory> for CommandFault {
    ghost from_gives = { λ why e. e ≡ OutOfMemory why };

    fn from(why: NoMemory) -> CommandFault {
        CommandFault::OutOfMemory(why)
    }
}
