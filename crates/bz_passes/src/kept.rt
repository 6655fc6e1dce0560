//! What a run keeps of the slots that are done, and what it tells of them at its end.

ghost use Rattle.std.specs.Prelude.{◌≡◌, ◌++◌, [], List, map, IfOk, OnOk};
ghost use Rattle.std.specs.List.{flat_map};
ghost use Rattle.bz_passes.specs.Passes.{Slot, missing, log_of};
ghost use Rattle.bz_passes.specs.Exchange.{Fits, no_slot, kept_of, told, some_not_found, is_missing};

use crate::language::Language;
use crate::log::Log;
use crate::pass::Pass;
use bz_memory::{NoMemory, push, with_room_for};
use std::alloc::Global;
use std::marker::Model;
use std::mem;

/// What is kept of a pass until the end of the run: whether its target marked something so far, and what each of its
/// commands reported.
#[derive(Drop)]
pub struct Kept {
    pub found: bool,
    pub logs: Vec<Log>,
}

impl Model for Kept {
    ghost use Rattle.bz_passes.specs.declared.entry.Entry.{Entry};
    ghost use Rattle.bz_passes.specs.Exchange as spec;

    ghost Value = { spec.Kept Entry };

    ghost view = { λ k. record { found = k.found; logs = k.logs.items } };
}

/// A place for what each command tells.
fn nothing_told<C>(alloc: Global, commands: &[C]) -> Result<Vec<Log>, NoMemory>
    ensures { IfOk result (λ logs. logs.items ≡ map (λ command. []) commands.now) }
{
    let mut logs = with_room_for(alloc, commands, 0)?;
    for _command in commands {
        push(&mut logs, Log::new(alloc))?;
    }
    Ok(logs)
}

/// What is kept before the first slot: for each pass and each of its commands, nothing.
pub fn nothing_kept<T, C>(alloc: Global, passes: &[Pass<T, C>]) -> Result<Vec<Kept>, NoMemory>
    ensures nothing { IfOk result (λ kept. kept.items ≡ map no_slot passes.now) }
    ensures fits { IfOk result (λ kept. Fits kept.items passes.now) }
{
    let mut kept = with_room_for(alloc, passes, 0)?;
    for pass in passes {
        let logs = nothing_told(alloc, pass.commands.as_slice())?;
        push(&mut kept, Kept { found: false, logs })?;
    }
    Ok(kept)
}

/// Moves what the commands of a pass told after the log, command by command.
fn append_all(alloc: Global, logs: &mut [Log], log: &mut Log) -> Result<(), NoMemory>
    ensures { OnOk result (log.new ≡ log.old ++ flat_map (λ said. said) logs.old) }
{
    for i in 0..logs.len() {
        let said = mem::replace(&mut logs[i], Log::new(alloc));
        log.append(said)?;
    }
    Ok(())
}

/// Whether the target of a pass had to mark something and marked nothing.
fn target_is_missing<L: Language>(
    language: &L,
    pass: &Pass<L::Target, L::Command>,
    kept: &Kept,
) -> bool
    ensures { result ≡ is_missing (L.meaning language.now) pass.now.target kept.now.found }
{
    !kept.found && language.must_mark(&pass.target)
}

/// What is told of one pass: first that its target was not found, then what its commands told.
fn tell_pass<L: Language>(
    alloc: Global,
    language: &L,
    pass: &Pass<L::Target, L::Command>,
    kept: &mut Kept,
    log: &mut Log,
) -> Result<(), NoMemory>
    ensures { OnOk result (log.new ≡ log.old
        ++ (missing (L.meaning language.now) pass.now.target kept.old.found
        ++ flat_map (λ said. said) kept.old.logs)) }
{
    if target_is_missing(language, pass, kept) {
        log.push(language.not_found(&pass.target)?)?;
    }
    append_all(alloc, kept.logs.as_mut_slice(), log)
}

/// What is told of the passes, one after another.
fn tell_passes<L: Language>(
    alloc: Global,
    language: &L,
    passes: &[Pass<L::Target, L::Command>],
    kept: &mut [Kept],
    log: &mut Log,
) -> Result<(), NoMemory>
    requires { Fits kept.old passes.now }
    ensures { OnOk result (log.new ≡ log.old ++ told (L.meaning language.now) passes.now kept.old) }
{
    for i in 0..passes.len() {
        tell_pass(alloc, language, &passes[i], &mut kept[i], log)?;
    }
    Ok(())
}

/// The log of a whole run, from what was kept of it: by pass, in a pass by command, of a command by slot. The entries
/// are moved out of `kept`.
pub fn tell<L: Language>(
    alloc: Global,
    language: &L,
    passes: &[Pass<L::Target, L::Command>],
    kept: &mut [Kept],
) -> Result<Log, NoMemory>
    requires { Fits kept.old passes.now }
    ensures told { IfOk result (λ log. log ≡ told (L.meaning language.now) passes.now kept.old) }
    ensures whole { IfOk result (λ log. (slots : List (Slot L.Seen))
        → kept.old ≡ kept_of (L.meaning language.now) passes.now slots
        → log ≡ log_of (L.meaning language.now) passes.now slots) }
{
    let mut log = Log::new(alloc);
    tell_passes(alloc, language, passes, kept, &mut log)?;
    Ok(log)
}

/// Whether the target of some pass was not found, by what was kept.
pub fn is_some_not_found<L: Language>(
    language: &L,
    passes: &[Pass<L::Target, L::Command>],
    kept: &[Kept],
) -> bool
    requires { Fits kept.now passes.now }
    ensures { result ≡ some_not_found (L.meaning language.now) passes.now kept.now }
{
    for i in 0..passes.len() {
        if target_is_missing(language, &passes[i], &kept[i]) {
            return true;
        }
    }
    false
}
