//! Laws on what commands leave: statements and their arguments are as parsing gives them.

ghost use Rattle.std.specs.Prelude.{◌≡◌, ◌≤◌, ℕ, suc, List, Some, true};
ghost use Rattle.bz_tree.specs.Grammar.{Argument, AreOf};
ghost use Rattle.bz_tree.specs.Tree.{Segment, Statement};
ghost use Rattle.bz_rule.specs.Commands.{after, args_after, is_command, Command};
ghost use Rattle.bz_label.specs.Labels.{Package};
ghost use Rattle.bz_layout_laws.specs.WellFormed.{IsWellFormed};
ghost use Rattle.bz_laws.specs.WellFormedSegments.{AreFormed};

/// A command as [`read_command`](bz_rule::read_command) makes it leaves the arguments of a rule as parsing gives
/// them: each in the grammar, its tokens and comments texts of their kinds, its brackets of their kinds and no deeper
/// than before, or than the brackets of one list.
#[tactic(auto, using(crate::proofs::Commands::arguments_formed))]
pub fn arguments_stay_well_formed()
    ensures { (depth : ℕ) (c : Command) (home : Package) (args : List Segment) → is_command c ≡ true
        → AreFormed (AreOf Argument) (suc depth) args
        → AreFormed (AreOf Argument) (suc depth) (args_after c home args) }
{}

/// What a command as [`read_command`](bz_rule::read_command) makes it leaves of a well-formed statement is
/// well-formed, with no more brackets open at once than before, or than two.
pub fn commands_keep_statements_well_formed()
    ensures { (depth : ℕ) (c : Command) (home : Package) (s t : Statement) → is_command c ≡ true → 2 ≤ depth
        → IsWellFormed depth s → after c home (Some s) ≡ Some t → IsWellFormed depth t }
{}
