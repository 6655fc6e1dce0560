//! A whole script on one slot.

ghost use Rattle.std.specs.Prelude.{◌≡◌, ◌≢◌, ◌<◌, ◌++◌, ◌||◌, not, length, true, IfNone, IfSome, IsTrue, OnOk};
ghost use Rattle.bz_passes.specs.Passes.{Slot, executed, marked};
ghost use Rattle.bz_passes.specs.Asked.{IsFirstFrom, IsKeyOf, passes_for, some_may_mark};
ghost use Rattle.bz_passes.specs.Exchange.{Fits, IsPassedBy, slot_after_commands, slot_after_pass, slot_after, logs_alone, logs_and, pass_alone, pass_and, kept_alone, kept_and, some_of_commands_alone, some_alone, entries, meets, with_mark};
ghost use Rattle.bz_passes.specs.OnePass.{IsOnlyFor};

use crate::index::Key;
use crate::kept::Kept;
use crate::language::{Facts, Language};
use crate::log::Log;
use crate::pass::Pass;
use crate::passes::Passes;
use bz_memory::NoMemory;

/// Executes one command on a slot that is marked.
fn execute<L: Language>(
    language: &L,
    command: &L::Command,
    slot: &mut Option<L::Statement>,
    log: &mut Log,
    facts: &mut Facts,
) -> Result<(), NoMemory>
    ensures slot { OnOk result (with_mark true (L.seen slot.new)
        ≡ executed (L.meaning language.now) command.now (with_mark true (L.seen slot.old))) }
    ensures log { OnOk result (log.new
        ≡ log.old ++ entries (L.meaning language.now) command.now (with_mark true (L.seen slot.old))) }
    ensures changed { OnOk result (facts.new.changed
        ≡ (facts.old.changed || meets (L.changes language.now) command.now
        (with_mark true (L.seen slot.old)))) }
    ensures failed { OnOk result (facts.new.failed
        ≡ (facts.old.failed || meets (L.fails language.now) command.now (with_mark true (L.seen slot.old)))) }
{
    let done = language.apply(command, slot, log)?;
    facts.changed = facts.changed || done.changed;
    facts.failed = facts.failed || done.failed;
    Ok(())
}

/// Runs the commands of a pass on a slot that is marked.
fn run_commands<L: Language>(
    language: &L,
    commands: &[L::Command],
    slot: &mut Option<L::Statement>,
    logs: &mut [Log],
    facts: &mut Facts,
) -> Result<(), NoMemory>
    requires { length logs.old ≡ length commands.now }
    ensures slot { OnOk result (L.seen slot.new
        ≡ (slot_after_commands (L.meaning language.now) commands.now
        (with_mark true (L.seen slot.old))).slot) }
    ensures logs { OnOk result (logs.new
        ≡ logs_and logs.old (logs_alone (L.meaning language.now) commands.now
        (with_mark true (L.seen slot.old)))) }
    ensures changed { OnOk result (facts.new.changed ≡ (facts.old.changed || some_of_commands_alone
        (L.meaning language.now) (L.changes language.now) commands.now (with_mark true (L.seen slot.old)))) }
    ensures failed { OnOk result (facts.new.failed ≡ (facts.old.failed || some_of_commands_alone
        (L.meaning language.now) (L.fails language.now) commands.now (with_mark true (L.seen slot.old)))) }
{
    for i in 0..commands.len() {
        execute(language, &commands[i], slot, &mut logs[i], facts)?;
    }
    Ok(())
}

/// Runs one pass on a slot that its target marks: this is not asked again, whatever the commands do.
fn run_pass<L: Language>(
    language: &L,
    pass: &Pass<L::Target, L::Command>,
    slot: &mut Option<L::Statement>,
    kept: &mut Kept,
    facts: &mut Facts,
) -> Result<(), NoMemory>
    requires fits { length kept.old.logs ≡ length pass.now.commands }
    requires marked { IsTrue ((L.meaning language.now).marks pass.now.target (L.seen slot.old)) }
    ensures slot { OnOk result (L.seen slot.new
        ≡ slot_after_pass (L.meaning language.now) pass.now (L.seen slot.old)) }
    ensures kept { OnOk result (kept.new
        ≡ pass_and kept.old (pass_alone (L.meaning language.now) pass.now (L.seen slot.old))) }
    ensures changed { OnOk result (facts.new.changed ≡ (facts.old.changed || some_of_commands_alone
        (L.meaning language.now) (L.changes language.now) pass.now.commands
        (marked (L.meaning language.now) pass.now.target (L.seen slot.old)))) }
    ensures failed { OnOk result (facts.new.failed ≡ (facts.old.failed || some_of_commands_alone
        (L.meaning language.now) (L.fails language.now) pass.now.commands
        (marked (L.meaning language.now) pass.now.target (L.seen slot.old)))) }
{
    kept.found = true;
    run_commands(
        language,
        pass.commands.as_slice(),
        slot,
        kept.logs.as_mut_slice(),
        facts,
    )
}

/// What is known of the name of what is in the slot; it is not looked at where no pass asks for a name.
fn asked_key<'s, L: Language>(
    language: &L,
    passes: &Passes<L::Target, L::Command>,
    slot: &'s Option<L::Statement>,
) -> Key<'s>
    ensures { IsKeyOf (L.meaning language.now) L.Target.asked (L.seen slot.now) result }
{
    if passes.ask_for_names() {
        language.key(slot)
    } else {
        Key::Unknown
    }
}

/// The first pass from a position on whose target marks the slot. Of the passes that ask for another name none is
/// looked at.
fn next_marked<L: Language>(
    language: &L,
    passes: &Passes<L::Target, L::Command>,
    slot: &Option<L::Statement>,
    from: usize,
) -> Option<usize>
    ensures { IsFirstFrom (λ pass. (L.meaning language.now).marks pass.target (L.seen slot.now))
        passes.now from result }
{
    if from >= passes.as_slice().len() {
        return None;
    }
    let key = asked_key(language, passes, slot);
    let mut at = from;
    while let Some(i) = passes.first_from(key, at) {
        let pass = &passes.as_slice()[i];
        if language.marks(&pass.target, slot) {
            return Some(i);
        }
        at = i + 1;
    }
    None
}

/// Executes the whole script on one slot, as by itself. What is kept and the facts get what it tells there: if they are
/// those of the slots before, they are then those of the slots with this one (law `exchange`). After an `Err` neither the
/// slot nor what is kept is of use.
pub fn run_script<L: Language>(
    language: &L,
    passes: &Passes<L::Target, L::Command>,
    slot: &mut Option<L::Statement>,
    kept: &mut [Kept],
    facts: &mut Facts,
) -> Result<(), NoMemory>
    // There is a place for each pass and each command, before and after.
    requires { Fits kept.old passes.now }
    ensures fits { OnOk result (Fits kept.new passes.now) }
    ensures slot { OnOk result (L.seen slot.new
        ≡ slot_after (L.meaning language.now) passes.now (L.seen slot.old)) }
    ensures kept { OnOk result (kept.new
        ≡ kept_and kept.old (kept_alone (L.meaning language.now) passes.now (L.seen slot.old))) }
    // Some execution changed this slot, or failed on it, or one before did.
    ensures changed { OnOk result (facts.new.changed ≡ (facts.old.changed
        || some_alone (L.meaning language.now) (L.changes language.now) passes.now (L.seen slot.old))) }
    ensures failed { OnOk result (facts.new.failed ≡ (facts.old.failed
        || some_alone (L.meaning language.now) (L.fails language.now) passes.now (L.seen slot.old))) }
{
    let mut at = 0;
    while let Some(i) = next_marked(language, passes, slot, at) {
        let pass = &passes.as_slice()[i];
        run_pass(language, pass, slot, &mut kept[i], facts)?;
        at = i + 1;
    }
    Ok(())
}

/// Whether no pass of the script may mark what has this key. A slot that has it can then be skipped: `run_script` would
/// leave it, and what is kept, as they are.
pub fn passes_by<L: Language>(
    language: &L,
    passes: &Passes<L::Target, L::Command>,
    key: Key<'_>,
) -> bool
    ensures is { result ≡ not (some_may_mark L.Target.asked key.entry passes.now) }
    ensures law { IsTrue result → (slot : Slot L.Seen)
        → IsKeyOf (L.meaning language.now) L.Target.asked slot key.entry
        → IsPassedBy (L.meaning language.now) (L.changes language.now)
        (L.fails language.now) passes.now slot }
{
    passes.first(key).is_none()
}

/// The position of a pass beside which none may mark what has this key: `run_script` on such a slot would do what this
/// pass does. None where no pass may mark it, or several may.
pub fn only_pass<L: Language>(
    language: &L,
    passes: &Passes<L::Target, L::Command>,
    key: Key<'_>,
) -> Option<usize>
    ensures within { IfSome result (λ at. at < length passes.now) }
    ensures law { IfSome result (IsOnlyFor (L.meaning language.now) L.Target.asked passes.now key.entry) }
    ensures none { IfNone result (length (passes_for L.Target.asked key.entry passes.now) ≢ 1) }
{
    let count = passes.as_slice().len();
    // Where there is one pass, no other may: the index has not to be asked.
    if count == 1 {
        return Some(0);
    }
    let at = passes.first(key)?;
    if at + 1 == count {
        return Some(at);
    }
    match passes.first_from(key, at + 1) {
        None => Some(at),
        Some(_) => None,
    }
}
