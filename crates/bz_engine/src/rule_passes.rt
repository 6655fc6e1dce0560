//! The passes of a script over rules, with what is asked of them at each statement.

ghost use Rattle.std.specs.Prelude.{◌≡◌, ◌+◌, ◌<◌, false, true, get_or, length, map, IfOk, IfSome};
ghost use Rattle.std.specs.List.{list_all};
ghost use Rattle.bz_rule.specs.Commands.{is_command, is_print};
ghost use Rattle.bz_engine.specs.Outcome as spec;
ghost use Rattle.bz_engine.specs.Scripts.{AreCommands};
ghost use Rattle.bz_engine.specs.private.Found.{one_pass};
ghost use Rattle.bz_engine.specs.private.Named.{all_named};
ghost use Rattle.bz_engine.specs.private.Sealed.{asked_names, asked_values, leave_names};
ghost use Rattle.bz_label.specs.Endings.{ending, literal_end};

use crate::answer::is_answerable;
use crate::names::{asked_names, closings_of, leave_names, sought_endings};
use bz_canonical::Sought;
use bz_label::{Marked, Text};
use bz_memory::NoMemory;
use bz_passes::pass::Pass;
use bz_passes::passes::{Keyed, Passes};
use bz_rule::{Command, Target};
use std::alloc::Global;
use std::marker::Model;

/// The passes of a script, indexed, and what is asked of them at each chunk. Contracts see the passes alone.
#[derive(Drop)]
pub(crate) struct RulePasses {
    passes: Passes<Target, Command>,
    query: bool,
    /// Each target asks for a name.
    named: bool,
    /// What the script makes of some statements may be known without them.
    may_be_known: bool,
    finding: Finding,
    /// The attributes that the commands mention, and `name`. None: they may look at others too.
    names: Vec<Text>,
    /// No command changes the name of a rule.
    names_stay: bool,
    /// The ends of the values that the commands seek in all attributes.
    endings: Vec<Text>,
    /// The same with a double quote, which closes a literal.
    closings: Vec<Text>,
}

/// By what the one pass is found that marks a rule, where its one command may be answered from a text (`is_answerable` of
/// `answer.rt`).
#[derive(Clone, Copy)]
pub(crate) enum Finding {
    /// It is not: no command may be answered, or too many targets ask for a kind or a line.
    Never,
    /// By the rule's name: each target asks for one, or for all rules.
    ByName,
    /// By its kind and its lines too.
    ByKind,
}

// So many targets that ask for no name are compared with a rule at most.
const FEW: usize = 8;

/// A pass of one command.
#[derive(Clone, Copy)]
pub(crate) struct OnePass<'p> {
    pub(crate) target: &'p Target,
    pub(crate) command: &'p Command,
    /// Its position in the script.
    pub(crate) at: usize,
    /// No pass comes after it.
    pub(crate) last: bool,
}

impl Model for RulePasses {
    ghost use Rattle.std.specs.Prelude.{◌≡◌, map};
    ghost use Rattle.bz_label.specs.Endings.{ending, literal_end};
    ghost use Rattle.bz_engine.specs.Outcome as spec;
    ghost use Rattle.bz_engine.specs.private.Named.{all_named};
    ghost use Rattle.bz_engine.specs.private.Sealed.{asked_names, asked_values, leave_names};

    ghost Value = { spec.Script };

    ghost view = { λ s. s.passes };

    ghost invariant = { λ s. (s.query ≡ spec.is_query s.passes) × (s.named ≡ all_named s.passes)
        × (s.names.items ≡ asked_names s.passes)
        × (s.names_stay ≡ leave_names s.passes)
        × (s.endings.items ≡ map ending (asked_values s.passes))
        × (s.closings.items ≡ map literal_end (asked_values s.passes)) };
}

impl RulePasses {
    /// The passes in this order.
    #[tactic(auto, using(crate::proofs::ScriptNames::closings_are))]
    pub(crate) fn new(
        alloc: Global,
        passes: Vec<Pass<Target, Command>>,
    ) -> Result<RulePasses, NoMemory>
        ensures made { IfOk result (λ made. made ≡ passes.items) }
        ensures commands { AreCommands passes.items }
    {
        are_read(passes.as_slice());
        let query = is_query(passes.as_slice());
        let named = all_named(passes.as_slice());
        let endings = sought_endings(alloc, passes.as_slice())?;
        let closings = closings_of(alloc, endings.as_slice())?;
        let names = asked_names(alloc, passes.as_slice(), endings.len())?;
        let names_stay = leave_names(alloc, passes.as_slice())?;
        let may_be_known = named || !names.is_empty() || is_one_answerable(passes.as_slice());
        let finding = finding_of(passes.as_slice());
        let passes = Passes::new(alloc, passes)?;
        Ok(RulePasses {
            passes,
            query,
            named,
            may_be_known,
            finding,
            names,
            names_stay,
            endings,
            closings,
        })
    }

    /// The passes in order.
    pub(crate) fn as_slice(&self) -> &[Pass<Target, Command>]
        ensures { result.now ≡ self.now }
    {
        self.passes.as_slice()
    }

    pub(crate) fn indexed(&self) -> &Passes<Target, Command>
        ensures { result.now ≡ self.now }
    {
        &self.passes
    }

    /// Whether all commands print.
    pub(crate) fn is_query(&self) -> bool
        ensures { result ≡ spec.is_query self.now }
    {
        self.query
    }

    /// The pass at this position, where it has one command.
    pub(crate) fn one_at(&self, at: usize) -> Option<OnePass<'_>>
        requires { at < length self.now }
        ensures at { IfSome result (λ only. only.at ≡ at) }
        ensures pass { IfSome result (λ only. one_pass only ≡ get_or self.now only.at (one_pass only)) }
        ensures last { IfSome result (λ only. only.at + 1 < length self.now → only.last ≡ false) }
    {
        let passes = self.as_slice();
        let pass = &passes[at];
        let [command] = pass.commands.as_slice() else {
            return None;
        };
        Some(OnePass {
            target: &pass.target,
            command,
            at,
            last: at + 1 == passes.len(),
        })
    }

    /// Whether each target asks for a name: then what has none is passed by.
    pub(crate) fn ask_for_names(&self) -> bool
        ensures { result ≡ all_named self.now }
    {
        self.named
    }

    /// Whether what the script makes of some statements may be known without them, or without arguments that it does
    /// not see: each target asks for a name, it is known what the commands mention, or there is one command, which may
    /// be answered from a text (`is_answerable` of `answer.rt`).
    pub(crate) fn may_be_known(&self) -> bool {
        self.may_be_known
    }

    /// By what the one pass is found that marks a rule.
    pub(crate) fn finding(&self) -> Finding {
        self.finding
    }

    /// The attributes that the commands mention, and `name`. None: they may look at others too.
    pub(crate) fn names(&self) -> &[Text]
        ensures { result.now ≡ asked_names self.now }
    {
        self.names.as_slice()
    }

    /// What the script looks for in rules, beside names.
    pub(crate) fn sought(&self) -> Sought<'_>
        ensures alone { result.alone ≡ leave_names self.now }
        ensures endings { result.endings.now ≡ map ending (asked_values self.now) }
        ensures closings { result.closings.now ≡ map literal_end (asked_values self.now) }
    {
        Sought {
            alone: self.names_stay,
            endings: self.endings.as_slice(),
            closings: self.closings.as_slice(),
        }
    }
}

fn one_command(pass: &Pass<Target, Command>) -> Option<&Command> {
    let [command] = pass.commands.as_slice() else {
        return None;
    };
    Some(command)
}

fn is_one_answerable(passes: &[Pass<Target, Command>]) -> bool {
    matches!(passes, [_]) && is_some_answerable(passes)
}

fn is_some_answerable(passes: &[Pass<Target, Command>]) -> bool {
    for pass in passes {
        if matches!(one_command(pass), Some(command) if is_answerable(command)) {
            return true;
        }
    }
    false
}

fn finding_of(passes: &[Pass<Target, Command>]) -> Finding {
    if !is_some_answerable(passes) {
        Finding::Never
    } else if !are_some_by_kind(passes) {
        Finding::ByName
    } else if are_few_nameless(passes) {
        Finding::ByKind
    } else {
        Finding::Never
    }
}

/// Some target marks rules by their kind or their line.
fn are_some_by_kind(passes: &[Pass<Target, Command>]) -> bool {
    for pass in passes {
        match pass.target.marked() {
            Marked::Name(_) | Marked::All => {}
            Marked::Pkg | Marked::Kind(_) | Marked::Line(_) => return true,
        }
    }
    false
}

/// Few targets ask for no name.
fn are_few_nameless(passes: &[Pass<Target, Command>]) -> bool {
    let mut left = FEW;
    for pass in passes {
        if !matches!(pass.target.marked(), Marked::Name(_)) {
            let Some(less) = left.checked_sub(1) else {
                return false;
            };
            left = less;
        }
    }
    true
}

/// Law: each command of a script is one that can be read. The body looks at each, since of that the prover knows it; it
/// does nothing else.
fn are_read(passes: &[Pass<Target, Command>])
    ensures { AreCommands passes.now }
{
    for pass in passes {
        are_commands(pass.commands.as_slice());
    }
}

fn are_commands(commands: &[Command])
    ensures { list_all is_command commands.now ≡ true }
{
    for command in commands {
        command.is_read();
    }
}

/// Whether all commands of a script print: then it only asks, and no text is written.
pub fn is_query(passes: &[Pass<Target, Command>]) -> bool
    ensures { result ≡ spec.is_query passes.now }
{
    for pass in passes {
        if !all_print(pass.commands.as_slice()) {
            return false;
        }
    }
    true
}

pub(crate) fn all_named(passes: &[Pass<Target, Command>]) -> bool
    ensures { result ≡ all_named passes.now }
{
    for pass in passes {
        if pass.target.asked().is_none() {
            return false;
        }
    }
    true
}

fn all_print(commands: &[Command]) -> bool
    ensures { result ≡ list_all is_print commands.now }
{
    for command in commands {
        if !command.is_print() {
            return false;
        }
    }
    true
}
