//! Laws on sound statements: those of a file are, and a script leaves such.

ghost use Rattle.std.specs.Prelude.{◌≡◌, ◌∷◌, ◌≤◌, ℕ, List, [], Ok, Option, Some};
ghost use Rattle.std.specs.List.{AllByRecursion};
ghost use Rattle.bz_token.specs.Chunks.{chunks};
ghost use Rattle.bz_tree.specs.Tree.{Statement};
ghost use Rattle.bz_label.specs.Labels.{Package};
ghost use Rattle.bz_engine.specs.declared.report.SyntaxFault.{SyntaxFault};
ghost use Rattle.bz_engine.specs.Scripts.{AreCommands};
ghost use Rattle.bz_engine.specs.File.{IsAnswerOf, IsFile};
ghost use Rattle.bz_engine.specs.Outcome.{BeginsWith, Script};
ghost use Rattle.bz_laws.specs.Sound.{IsSound};
ghost use Rattle.bz_laws.specs.Written.{HaveUtf8Words, left_by};

/// What a chunk gives is sound. So are the statements of a file up to its first fault, and those that it begins with.
pub fn what_is_read_is_sound()
    ensures read { (depth line : ℕ) (chunk : List ℕ) (s : Statement) → chunks chunk ≡ chunk ∷ []
        → IsAnswerOf depth line chunk (Ok (Some s)) → IsSound depth s }
    ensures file { (depth : ℕ) (bytes : List ℕ) (statements : List Statement) (fault : Option SyntaxFault)
        → IsFile depth bytes statements fault → AllByRecursion (IsSound depth) statements }
    ensures front { (depth : ℕ) (file : List ℕ) (statements : List Statement) → BeginsWith depth file statements
        → AllByRecursion (IsSound depth) statements }
{}

/// What a script leaves of sound statements is sound, if its commands are ones that can be read, with words that are
/// UTF-8, and two brackets may be open at once.
pub fn what_a_script_leaves_is_sound()
    ensures { (home : Package) (passes : Script) (depth : ℕ) (ss : List Statement) → AreCommands passes
        → HaveUtf8Words passes → 2 ≤ depth → AllByRecursion (IsSound depth) ss
        → AllByRecursion (IsSound depth) (left_by home passes ss) }
{}
