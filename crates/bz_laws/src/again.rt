//! Laws on commands that come again: they find nothing to do.

ghost use Rattle.std.specs.Prelude.{◌≡◌, List, Some, map, false, true};
ghost use Rattle.std.specs.List.{list_all};
ghost use Rattle.bz_tree.specs.Tree.{Statement};
ghost use Rattle.bz_layout_laws.specs.Spelled.{spelled};
ghost use Rattle.bz_engine.specs.Failing.{fails};
ghost use Rattle.bz_attribute.specs.Marks.{marks};
ghost use Rattle.bz_label.specs.Labels.{Package, Target};
ghost use Rattle.bz_rule.specs.Commands.{Command, after, done_of, is_command};
ghost use Rattle.bz_laws.specs.Again.{
  AreCalm,
  AreOnce,
  AreSettled,
  IsOnce,
  IsSettled,
  after_all,
  are_all_apart,
  are_apart,
  is_line,
  is_steady,
  looks_past,
  subject,
};
ghost use Rattle.bz_laws.specs.Unmentioned.{arguments_of};

use crate::comments::elements_keep_comments;
use crate::effects::{added_values_are_found, removed_is_gone, set_twice_changes_nothing};

/// Where a steady command did not fail, it finds nothing to do a second time, if the statement has the attribute once
/// at most.
pub fn a_second_time_finds_nothing()
    ensures { (c : Command) (home : Package) (s t : Statement) → is_command c ≡ true → is_steady c ≡ true
        → IsOnce (subject c) (arguments_of s) → fails (done_of c home (Some s)).note ≡ false
        → after c home (Some s) ≡ Some t → IsSettled c home (Some t) }
{
    added_values_are_found();
    removed_is_gone();
    set_twice_changes_nothing();
    elements_keep_comments();
}

/// A steady command on something else leaves it so, and leaves the arguments of the attribute.
pub fn other_commands_leave_it_so()
    ensures settled { (c d : Command) (home : Package) (s t : Statement) → is_steady c ≡ true → is_steady d ≡ true
        → are_apart c d ≡ true → after d home (Some s) ≡ Some t → IsSettled c home (Some s)
        → IsSettled c home (Some t) }
    ensures once { (c d : Command) (home : Package) (s t : Statement) → is_steady d ≡ true → are_apart c d ≡ true
        → after d home (Some s) ≡ Some t → IsOnce (subject c) (arguments_of s)
        → IsOnce (subject c) (arguments_of t) }
{}

/// After steady commands of which each is apart from the others, and none of which failed, each finds nothing to do. So
/// the same commands leave the statement as it is.
pub fn the_same_commands_find_nothing()
    ensures settled { (cs : List Command) (home : Package) (s : Statement) → list_all is_command cs ≡ true
        → list_all is_steady cs ≡ true → are_all_apart cs ≡ true → AreOnce cs s → AreCalm cs home (Some s)
        → (t : Statement) × (after_all cs home (Some s) ≡ Some t) × AreSettled cs home t }
    ensures again { (cs : List Command) (home : Package) (t : Statement) → AreSettled cs home t
        → after_all cs home (Some t) ≡ Some t }
{
    a_second_time_finds_nothing();
}

/// After a steady command that changes nothing a target looks at, the target marks the same.
pub fn targets_look_past()
    ensures { (target : Target) (c : Command) (home : Package) (s t : Statement) → is_steady c ≡ true
        → looks_past target c ≡ true → after c home (Some s) ≡ Some t → marks target t ≡ marks target s }
{}

/// How strings are spelled, and on which lines a statement stands, does not count: a steady command finds nothing to do
/// as before, and a target that is no line marks the same.
pub fn spelling_does_not_count()
    ensures settled { (c : Command) (home : Package) (s t : Statement) → is_steady c ≡ true
        → t.nodes ≡ map spelled s.nodes → IsSettled c home (Some s) → IsSettled c home (Some t) }
    ensures marks { (target : Target) (s t : Statement) → is_line target ≡ false → t.nodes ≡ map spelled s.nodes
        → marks target t ≡ marks target s }
{}
