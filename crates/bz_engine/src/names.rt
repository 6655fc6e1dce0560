//! The attributes that a script mentions, and the values that it seeks in all. Of a rule the script sees no other argument.

ghost use Rattle.std.specs.Prelude.{◌≡◌, ◌++◌, ◌∷◌, [], IfOk, None, OnOk, Some, bytes_eq, codes, flat_map, if◌then◌else◌, length, map};
ghost use Rattle.std.specs.List.{list_all, position};
ghost use Rattle.bz_token.specs.Common.{is_one_of};
ghost use Rattle.bz_label.specs.Endings as endings;
ghost use Rattle.bz_rule.specs.Forms.{listed};
ghost use Rattle.bz_rule.specs.Sealed as sealed;
ghost use Rattle.bz_engine.specs.private.Sealed as spec;

use bz_label::{Text, ending};
use bz_memory::{NoMemory, from_str, push, push_char};
use bz_passes::pass::Pass;
use bz_rule::forms::Values;
use bz_rule::{Command, Target, attributes_of, one_attribute, values_sought};
use std::alloc::Global;

/// So many names at most are worth looking for in a rule.
const MOST: usize = 64;

/// So many values at most.
const MOST_VALUES: usize = 8;

/// The attributes that the commands mention, and `name`, each once, where they seek so many values. None: they may look at
/// others too.
pub(crate) fn asked_names(
    alloc: Global,
    passes: &[Pass<Target, Command>],
    values: usize,
) -> Result<Vec<Text>, NoMemory>
    requires { values ≡ length (spec.asked_values passes.now) }
    ensures { IfOk result (λ names. names.items ≡ spec.asked_names passes.now) }
{
    let mut names = Vec::new(alloc);
    if values > MOST_VALUES {
        return Ok(names);
    }
    push(&mut names, Text::from_str(alloc, "name")?)?;
    if !add_passes(alloc, &mut names, passes)? {
        names.clear();
    }
    Ok(names)
}

/// Adds the attributes that the passes mention. False: the names are of no use.
fn add_passes(
    alloc: Global,
    names: &mut Vec<Text>,
    passes: &[Pass<Target, Command>],
) -> Result<bool, NoMemory>
    ensures { IfOk result (λ all. spec.by_each spec.with_pass names.old.items passes.now
        ≡ (if all then Some names.new.items else None)) }
{
    for pass in passes {
        if !add_commands(alloc, names, pass.commands.as_slice())? {
            return Ok(false);
        }
    }
    Ok(true)
}

/// Adds the attributes that the commands mention. False: the names are of no use.
fn add_commands(
    alloc: Global,
    names: &mut Vec<Text>,
    commands: &[Command],
) -> Result<bool, NoMemory>
    ensures { IfOk result (λ all. spec.by_each spec.with_command names.old.items commands.now
        ≡ (if all then Some names.new.items else None)) }
{
    for command in commands {
        if !add_command(alloc, names, command)? {
            return Ok(false);
        }
    }
    Ok(true)
}

/// Adds the attributes that a command mentions. False: the names are of no use.
fn add_command(alloc: Global, names: &mut Vec<Text>, command: &Command) -> Result<bool, NoMemory>
    ensures { IfOk result (λ all. spec.with_command names.old.items command.now
        ≡ (if all then Some names.new.items else None)) }
{
    match attributes_of(alloc, command)? {
        None => Ok(false),
        Some(attributes) => add_names(alloc, names, attributes.as_slice()),
    }
}

/// Adds names, each that is not there.
fn add_names(alloc: Global, names: &mut Vec<Text>, more: &[&str]) -> Result<bool, NoMemory>
    ensures { IfOk result (λ all. spec.by_each spec.with_name names.old.items
        (map (λ name. name.now) more.now)
        ≡ (if all then Some names.new.items else None)) }
{
    for name in more {
        if !add_name(alloc, names, name)? {
            return Ok(false);
        }
    }
    Ok(true)
}

/// Adds a name, if it is not there. False: there are too many.
fn add_name(alloc: Global, names: &mut Vec<Text>, name: &str) -> Result<bool, NoMemory>
    ensures { IfOk result (λ all. spec.with_name names.old.items name.now
        ≡ (if all then Some names.new.items else None)) }
{
    if is_one_of(names.as_slice(), name) {
        return Ok(true);
    }
    if names.len() >= MOST {
        return Ok(false);
    }
    push(names, Text::from_str(alloc, name)?)?;
    Ok(true)
}

/// The ends of the values that the commands seek in all attributes.
pub(crate) fn sought_endings(
    alloc: Global,
    passes: &[Pass<Target, Command>],
) -> Result<Vec<Text>, NoMemory>
    ensures { IfOk result (λ ends. ends.items ≡ map endings.ending (spec.asked_values passes.now)) }
{
    let mut ends = Vec::new(alloc);
    for pass in passes {
        add_endings(alloc, &mut ends, pass.commands.as_slice())?;
    }
    Ok(ends)
}

/// What closes literals with these ends: each with a double quote.
pub(crate) fn closings_of(alloc: Global, ends: &[Text]) -> Result<Vec<Text>, NoMemory>
    ensures { IfOk result (λ closings. closings.items ≡ map (λ end. end ++ 34 ∷ []) ends.now) }
{
    let mut closings = Vec::new(alloc);
    for end in ends {
        let mut closing = from_str(alloc, end.as_str())?;
        push_char(&mut closing, '"')?;
        push(&mut closings, Text::from_string(closing))?;
    }
    Ok(closings)
}

/// Adds the ends of the values that the commands seek in all attributes.
fn add_endings(alloc: Global, ends: &mut Vec<Text>, commands: &[Command]) -> Result<(), NoMemory>
    ensures { OnOk result (ends.new.items ≡ ends.old.items
        ++ map endings.ending (flat_map sealed.values_sought commands.now)) }
{
    for command in commands {
        match values_sought(command) {
            Values::Listed(values) => add_listed(alloc, ends, values)?,
            Values::One(value) => add_ending(alloc, ends, value)?,
            Values::Replaced(old, new) => {
                add_ending(alloc, ends, old)?;
                add_ending(alloc, ends, new)?;
            }
            Values::None => {}
        }
    }
    Ok(())
}

/// Adds the ends of these values.
fn add_listed(alloc: Global, ends: &mut Vec<Text>, values: &[Text]) -> Result<(), NoMemory>
    ensures { OnOk result (ends.new.items ≡ ends.old.items ++ map endings.ending values.now) }
{
    for value in values {
        add_ending(alloc, ends, value.as_str())?;
    }
    Ok(())
}

/// Adds the end of a value.
fn add_ending(alloc: Global, ends: &mut Vec<Text>, value: &str) -> Result<(), NoMemory>
    ensures { OnOk result (ends.new.items ≡ ends.old.items ++ (endings.ending value.now ∷ [])) }
{
    push(ends, Text::from_str(alloc, ending(value))?)
}

/// Whether no command changes an argument `name` without lists: each prints, or mentions no such attribute.
pub(crate) fn leave_names(alloc: Global, passes: &[Pass<Target, Command>]) -> Result<bool, NoMemory>
    ensures { IfOk result (λ all. all ≡ spec.leave_names passes.now) }
{
    for pass in passes {
        if !all_leave_names(alloc, pass.commands.as_slice())? {
            return Ok(false);
        }
    }
    Ok(true)
}

fn all_leave_names(alloc: Global, commands: &[Command]) -> Result<bool, NoMemory>
    ensures { IfOk result (λ all. all ≡ list_all spec.leaves_name commands.now) }
{
    for command in commands {
        if !leaves_name(alloc, command)? {
            return Ok(false);
        }
    }
    Ok(true)
}

#[tactic(auto, using(crate::proofs::ScriptNames::one_leaves))]
fn leaves_name(alloc: Global, command: &Command) -> Result<bool, NoMemory>
    ensures { IfOk result (λ leaves. leaves ≡ spec.leaves_name command.now) }
{
    if command.is_print() {
        return Ok(true);
    }
    // Most mention one, for which no list is made.
    if let Some(attr) = one_attribute(command) {
        return Ok(!are_some_name(&[attr]));
    }
    let Some(names) = attributes_of(alloc, command)? else {
        return Ok(false);
    };
    Ok(!are_some_name(names.as_slice()))
}

/// One of the names is `name`.
fn are_some_name(names: &[&str]) -> bool
    ensures { result ≡ is_one_of (map (λ name. name.now) names.now) (codes "name") }
{
    for name in names {
        if "name" == *name {
            return true;
        }
    }
    false
}

fn is_one_of(names: &[Text], asked: &str) -> bool
    ensures { result ≡ is_one_of names.now asked.now }
{
    names.iter().any(|name| asked == name.as_str())
}

/// The position of a name among others.
pub(crate) fn position_of(names: &[Text], asked: &str) -> Option<usize>
    ensures { result ≡ position (λ name. bytes_eq name asked.now) names.now }
{
    names.iter().position(|name| name.as_str() == asked)
}
