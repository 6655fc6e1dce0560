//! A draft of a file's new text.

ghost use Rattle.std.specs.Prelude.{◌≡◌, ◌≢◌, ◌⊎◌, ℕ, ◌<◌, List, [], ◌∷◌, ◌++◌, length, Bool, true, Result, Ok, Err, IfOk, OnOk, OnErr, string_bytes};
ghost use Rattle.bz_devices.specs.Device.{Rises};
ghost use Rattle.bz_folder.specs.Files.{Event};
ghost use Rattle.bz_folder.specs.Paths.{temporary_path};
ghost use Rattle.bz_folder.specs.DraftValue.{capacity, Sent, Took, IsText};
ghost use Rattle.bz_folder.specs.DraftLaws.{took_nothing_lem, took_more_lem};
ghost use Rattle.bz_folder.specs.private.Steps.{IsPut, IsFinished, abandon_calls, abandon_answer};
ghost use Rattle.bz_folder.specs.declared.draft.DraftState.TheVariants.{Unmade, Made, Broken};

use crate::calls::{install, send};
use crate::folder::Folder;
use crate::trouble::Trouble;
use crate::waiting::Waiting;
use bz_devices::device::{Failed, Sink};
use bz_memory::{NoMemory, push_str};
use std::alloc::Global;
use std::marker::Model;

/// Whether there is a temporary file.
#[derive(Clone, Copy, PartialEq, Eq)]
pub(crate) enum DraftState {
    Unmade,
    Made,
    /// A call failed: the text is not whole, and is not to be kept.
    Broken,
}

/// A draft of a file's new text: a temporary file beside the file, and bytes that wait to be
/// written.
///
/// No temporary file is made before the bytes are more than wait at most, or before the text is to
/// be kept. One draft serves many files, one after another.
#[derive(Drop)]
pub struct Draft<D> {
    folder: D,
    /// The path of the temporary file.
    temporary: String,
    state: DraftState,
    waiting: Waiting,
    /// How many writes failed. It stays at its greatest value.
    failures: u64,
}

impl<D> Model for Draft<D> {
    ghost use Rattle.std.specs.Prelude.{string_bytes};
    ghost use Rattle.bz_folder.specs.DraftValue as spec;

    ghost Value = { spec.DraftValue D };

    ghost view = { λ d.
        record {
          folder = d.folder;
          temporary = string_bytes d.temporary;
          state = d.state;
          waiting = d.waiting;
          failures = d.failures;
        } };
}

impl<D: Drop> Draft<D> {
    /// A draft in a folder, for no file yet. It takes all the memory that its bytes need.
    pub fn new(alloc: Global, folder: D) -> Result<Draft<D>, NoMemory>
        ensures { IfOk result (λ draft. draft.folder ≡ folder) }
    {
        let waiting = Waiting::new(alloc)?;
        Ok(Draft {
            folder,
            temporary: String::new(alloc),
            state: DraftState::Unmade,
            waiting,
            failures: 0,
        })
    }
}

impl<D: Folder> Draft<D> {
    /// The folder, to open files in.
    pub fn folder(&self) -> &D
        ensures { result.now ≡ self.now.folder }
    {
        &self.folder
    }

    /// An empty draft for this file. No call is made.
    pub(crate) fn begin(&mut self, file: &str) -> Result<(), NoMemory>
        ensures path { OnOk result (self.new.temporary ≡ temporary_path file.now) }
        ensures empty { OnOk result ((self.new.state ≡ Unmade) × (self.new.waiting ≡ [])) }
        ensures folder { self.new.folder ≡ self.old.folder }
    {
        self.state = DraftState::Unmade;
        self.waiting.clear();
        self.temporary.clear();
        push_str(&mut self.temporary, file)?;
        push_str(&mut self.temporary, ".buildozer.tmp")
    }

    /// Writes the bytes that wait, in the temporary file, which it makes if need be.
    fn spill(&mut self) -> Result<(), Failed>
        ensures sent { Sent D.did self.old self.new [] }
        ensures ok { OnOk result ((self.new.state ≡ Made) × (self.new.waiting ≡ [])) }
        ensures err { OnErr result (self.new.state ≡ Broken) }
        ensures steady { OnOk result (self.new.failures ≡ self.old.failures) }
        ensures counted { OnErr result (Rises self.old.failures self.new.failures) }
    {
        match send(
            &mut self.folder,
            self.state,
            &self.temporary,
            self.waiting.bytes(),
        ) {
            Ok(()) => {
                self.state = DraftState::Made;
                self.waiting.clear();
                Ok(())
            }
            Err(failed) => {
                self.state = DraftState::Broken;
                self.failures = self.failures.saturating_add(1);
                Err(failed)
            }
        }
    }

    /// Sees that there is room for one more byte.
    fn make_room(&mut self) -> Result<(), Failed>
        ensures sent { Sent D.did self.old self.new [] }
        ensures room { OnOk result (length self.new.waiting < capacity) }
        ensures idle { length self.old.waiting < capacity → self.new ≡ self.old }
        ensures steady { OnOk result (self.new.failures ≡ self.old.failures) }
        ensures counted { OnErr result (Rises self.old.failures self.new.failures) }
    {
        if self.waiting.is_full() {
            return self.spill();
        }
        Ok(())
    }

    /// Puts the text in the file's place.
    pub(crate) fn put(&mut self, file: &str, mode: u32) -> Result<(), Failed>
        requires { self.old.temporary ≡ temporary_path file.now }
        ensures path { self.new.temporary ≡ self.old.temporary }
        ensures calls { (events : List Event) × D.did self.old.folder events self.new.folder
            × IsPut (IsText self.old) (self.old.state ≡ Broken) file.now mode result events }
        ensures made { OnErr result (self.new.state ≢ Unmade) }
    {
        self.spill()?;
        install(&mut self.folder, &self.temporary, file, mode)
    }

    /// Removes the temporary file, if there is one, and answers `answer` if that succeeds.
    pub(crate) fn abandon(&mut self, answer: Result<bool, Trouble>) -> Result<bool, Trouble>
        ensures { (ok : Bool)
            × D.did self.old.folder (abandon_calls self.old.state self.old.temporary ok) self.new.folder
            × (result ≡ abandon_answer self.old.state ok answer) }
    {
        if self.state == DraftState::Unmade {
            return answer;
        }
        match self.folder.remove(&self.temporary) {
            Ok(()) => answer,
            Err(_) => Err(Trouble::LeftBehind),
        }
    }
}

impl<D: Folder> Sink for Draft<D> {
    ghost took = { λ old bytes new. Took D.did old new bytes };

    ghost failures = { λ d. d.failures };

    ghost took_nothing = { λ s. took_nothing_lem D.did D.did_nothing s };

    ghost took_more = { λ a b c xs ys p q. took_more_lem D.did D.did_more a b c xs ys p q };

    fn write(&mut self, bytes: &[u8]) -> Result<usize, Failed> {
        self.make_room()?;
        Ok(self.waiting.push(bytes))
    }

    fn failures(&self) -> u64 {
        self.failures
    }
}
