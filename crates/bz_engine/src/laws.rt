//! Laws of the definitions that the contracts cite. Each function does nothing: its contract is the law.

ghost use Rattle.std.specs.Prelude.{◌≡◌, ◌↔◌, ℕ, ◌+◌, ◌≤◌, List, [], length, Bool, Result, Option, true};
ghost use Rattle.std.specs.List.{concat};
ghost use Rattle.bz_tree.specs.Tree.{Statement};
ghost use Rattle.bz_label.specs.Labels.{Package, Target};
ghost use Rattle.bz_rule.specs.Commands.{Command};
ghost use Rattle.bz_passes.specs.Passes.{Pass, Slot, Changes};
ghost use Rattle.bz_passes.specs.Exchange.{some_execution};
ghost use Rattle.bz_engine.specs.Scripts.{AreCommands};
ghost use Rattle.bz_engine.specs.File.{IsAnswerOf, IsFile};
ghost use Rattle.bz_engine.specs.Outcome.{Script, Run, Told, IsOutcome};
ghost use Rattle.bz_engine.specs.NeededReads.{AreReads};
ghost use Rattle.bz_engine.specs.SessionValue.{HasDone, at_start};
ghost use Rattle.bz_engine.specs.declared.options.Options.{Options};
ghost use Rattle.bz_engine.specs.declared.report.SyntaxFault.{SyntaxFault};
ghost use Rattle.bz_engine.specs.Language.{meaning};
ghost use Rattle.bz_engine.specs.Failing.{changes};

/// Some command tells that it changed something, as `apply` of bz_rule does, exactly where some command of the script,
/// when it ran, left something else in its slot than it found: so a run tells of changes.
pub fn changed_is_a_difference()
    ensures { (home : Package) (ps : List (Pass Target Command)) (slots : List (Slot Statement))
        → AreCommands ps
        → (some_execution (meaning home) (changes home) ps slots ≡ true) ↔ Changes (meaning home) ps slots }
{}

/// A chunk gives one answer: a statement, nothing or a fault. So a file has one list of statements before one fault.
pub fn one_list_of_statements()
    ensures chunk { (max_depth line : ℕ) (chunk : List ℕ) (a b : Result (Option Statement) SyntaxFault)
        → IsAnswerOf max_depth line chunk a → IsAnswerOf max_depth line chunk b → a ≡ b }
    ensures file { (max_depth : ℕ) (file : List ℕ) (ss ts : List Statement) (f g : Option SyntaxFault)
        → IsFile max_depth file ss f → IsFile max_depth file ts g → (ss ≡ ts) × (f ≡ g) }
{}

/// A file has one outcome: one text is written for it, and one thing is told.
pub fn one_outcome()
    ensures some { (run : Run) (file : List ℕ) → (text : List ℕ) × (told : Told)
        × IsOutcome run file text told }
    ensures only { (run : Run) (file text text2 : List ℕ) (told told2 : Told) → IsOutcome run file text told
        → IsOutcome run file text2 told2 → (text ≡ text2) × (told ≡ told2) }
{}

/// The reads of a run are at most one more than the bytes that they gave.
pub fn reads_are_few()
    ensures { (home : Package) (passes : Script) (options : Options) (pieces : List (List ℕ))
        → AreReads home passes options pieces → length pieces ≤ length (concat pieces) + 1 }
{}

/// A new session has done no chunk: nothing was read, and nothing was written. So `Session::step`, whose `More` leads
/// from what is done to one chunk more, says what any number of steps has done.
pub fn new_session_has_done_nothing()
    ensures { (home : Package) (passes : Script) (options : Options)
        → HasDone (at_start home passes options) [] [] [] }
{}
