//! Laws of passes: one statement after another, or one command after another; statements that a script does not tell
//! apart.

ghost use Rattle.std.specs.Prelude.{Bool, List};
ghost use Rattle.bz_passes.specs.Passes.{Meaning, Pass, Slot};
ghost use Rattle.bz_passes.specs.Alike.{AreAlike, GiveTheSame};
ghost use Rattle.bz_passes.specs.Exchange.{Exchange};

/// The law that lets a run go statement by statement, whatever targets and commands mean: command by command over the
/// whole file is the whole script over one statement after the other, and the log is by pass, by command and by
/// statement.
pub fn exchange<S, T, C, M>()
    ensures { (m : Meaning S T C M) (ps : List (Pass T C)) (slots : List (Slot S)) → Exchange m ps slots }
{}

/// What no target and no command of a script tells apart gives the same: the same is told of both, alone and after
/// others, and both are changed and fail or neither.
pub fn alike<S, T, C, M>()
    ensures { (m : Meaning S T C M) (changes fails : C → Slot S → Bool) (ps : List (Pass T C)) (x y : Slot S)
        → AreAlike m changes fails ps x y → GiveTheSame m changes fails ps x y }
{}
