//! What passes need of a language of targets and commands.

ghost use Rattle.std.specs.Prelude.{◌≡◌, ◌++◌, Bool, true, Option, IfOk, OnOk};
ghost use Rattle.bz_passes.specs.Passes.{Meaning, Slot};
ghost use Rattle.bz_passes.specs.declared.entry.Entry.{Entry};
ghost use Rattle.bz_passes.specs.Asked.{may_mark};

use crate::entry::Entry;
use crate::index::Key;
use crate::log::Log;
use crate::passes::Keyed;
use bz_memory::NoMemory;

/// Whether an execution of a command changed its statement, and whether it failed.
#[derive(Clone, Copy)]
pub struct Facts {
    pub changed: bool,
    pub failed: bool,
}

/// What targets and commands mean on one statement.
///
/// A language may hold what its commands need, as a package and an allocator, and its statements
/// may borrow from the file.
pub trait Language {
    type Statement;

    type Target: Keyed;

    type Command;

    // What contracts see of a slot.
    ghost Seen: { Type 0 };

    ghost seen: { Option Self.Statement → Slot Seen };

    // What each target marks, and what each command does to a slot and tells of it.
    ghost meaning: { Self → Meaning Seen Self.Target Self.Command Entry };

    // Whether a command changes what it finds in a slot, and whether it fails there.
    ghost changes: { Self → Self.Command → Slot Seen → Bool };

    ghost fails: { Self → Self.Command → Slot Seen → Bool };

    /// Whether the target marks what is in the slot.
    fn marks(&self, target: &Self::Target, slot: &Option<Self::Statement>) -> bool
        ensures { result ≡ (meaning self.now).marks target.now (seen slot.now) };

    /// What is known of the name of what is in the slot: each target that marks it may mark what has this key.
    fn key<'s>(&self, slot: &'s Option<Self::Statement>) -> Key<'s>
        ensures { (target : Self.Target) → (meaning self.now).marks target (seen slot.now) ≡ true
            → may_mark result (Self.Target.asked target) ≡ true };

    /// Whether it is to be reported of a pass that its target marked nothing.
    fn must_mark(&self, target: &Self::Target) -> bool
        ensures { result ≡ (meaning self.now).must_mark target.now };

    /// What is reported of such a pass.
    fn not_found(&self, target: &Self::Target) -> Result<Entry, NoMemory>
        ensures { IfOk result (λ entry. entry ≡ (meaning self.now).not_found target.now) };

    /// Executes one command on a slot. What it reports is appended to the log.
    fn apply(
        &self,
        command: &Self::Command,
        slot: &mut Option<Self::Statement>,
        log: &mut Log,
    ) -> Result<Facts, NoMemory>
        ensures slot { OnOk result (seen slot.new ≡ (meaning self.now).after command.now (seen slot.old)) }
        ensures log { OnOk result (log.new ≡ log.old ++ (meaning self.now).says command.now (seen slot.old)) }
        ensures changed { IfOk result (λ facts. facts.changed
            ≡ changes self.now command.now (seen slot.old)) }
        ensures failed { IfOk result (λ facts. facts.failed ≡ fails self.now command.now (seen slot.old)) };
}
