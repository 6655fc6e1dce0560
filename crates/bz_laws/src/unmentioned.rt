//! Laws on the arguments that no command mentions: they stay.

ghost use Rattle.std.specs.Prelude.{◌≡◌, ◌++◌, ◌∷◌, ℕ, List, [], Option, None, Some, true, false};
ghost use Rattle.bz_tree.specs.Tree.{Statement};
ghost use Rattle.bz_label.specs.Labels.{Package};
ghost use Rattle.bz_rule.specs.Commands.{Command, after};
ghost use Rattle.bz_laws.specs.Unmentioned.{arguments_of, is_delete, unmentioned, KeepsUnmentioned};
ghost use Rattle.bz_engine.specs.Outcome.{Run, Script, Told, IsOutcome, is_query, left_in, text_of};
ghost use Rattle.bz_laws.specs.Written.{left_by};

/// Of a statement that a command leaves, the arguments that it does not mention are those from before, in their order,
/// each word for word and with its comments. `delete` alone leaves none.
pub fn unmentioned_arguments_stay()
    ensures same { (c : Command) (home : Package) (s t : Statement) → after c home (Some s) ≡ Some t
        → unmentioned c (arguments_of t) ≡ unmentioned c (arguments_of s) }
    ensures left { (c : Command) (home : Package) (s : Statement) → after c home (Some s) ≡ None → is_delete c ≡ true }
{}

/// What a script leaves of a statement, at its place among the others, has the arguments that no command of the script
/// mentions, in their order, each word for word and with its comments; and so it is in the text of a run.
pub fn what_no_command_mentions_stays()
    ensures statement { (home : Package) (passes : Script) (front back : List Statement) (s : Statement)
        → (left : Option Statement) × KeepsUnmentioned passes s left × (left_by home passes (front ++ s ∷ back)
        ≡ left_by home passes front ++ (left_in (left ∷ []) ++ left_by home passes back)) }
    ensures text { (run : Run) (file text : List ℕ) (told : Told) (outcome : IsOutcome run file text told)
        (front back : List Statement) (s : Statement)
        → is_query run.passes ≡ false → outcome.edited ≡ front ++ s ∷ back
        → (left : Option Statement) × KeepsUnmentioned run.passes s left × (text
        ≡ text_of (left_by run.home run.passes front ++ (left_in (left ∷ []) ++ left_by run.home run.passes back))) }
{}
