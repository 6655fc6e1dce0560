//! Statements that the script passes by: they are written as they are, and no command runs on them.

ghost use Rattle.std.specs.Prelude.{◌≡◌, Some, IsTrue, true};
ghost use Rattle.bz_tree.specs.Tree.{Statement};
ghost use Rattle.bz_passes.specs.Exchange.{IsPassedBy};
ghost use Rattle.bz_attribute.specs.Heads.{HasHead, IsHeadOf};
ghost use Rattle.bz_engine.specs.Language.{meaning};
ghost use Rattle.bz_engine.specs.Failing.{changes, fails_on};
ghost use Rattle.bz_engine.specs.private.Rows as spec;

use crate::edit::ScriptRun;
use crate::rules::Rules;
use bz_attribute::Head;
use bz_passes::index::Key;
use bz_passes::pass::Pass;
use bz_passes::script::passes_by;
use bz_rule::{Command, Target};

// In a script of so many passes at most each target is compared with the head.
const MOST: usize = 8;

/// No pass of the script may mark the statement of this head.
#[inline(always)]
pub(crate) fn is_passed_by(script: ScriptRun<'_>, head: Option<Head<'_>>) -> bool
    ensures { IsTrue result → (s : Statement) → HasHead head.entry s
        → IsPassedBy (meaning script.entry.home.now) (changes script.entry.home.now)
        (fails_on script.entry.home.now)
        script.entry.passes.now (Some s) }
{
    if !script.passes.ask_for_names() {
        return none_marks(script.passes.as_slice(), head);
    }
    let rules = Rules {
        alloc: script.alloc,
        home: script.home,
    };
    passes_by(&rules, script.passes.indexed(), head_key(head))
}

/// The passes are few, and none marks the rule of this head.
#[inline(always)]
fn none_marks(passes: &[Pass<Target, Command>], head: Option<Head<'_>>) -> bool
    ensures { IsTrue result → (s : Statement) → HasHead head.entry s → spec.none_marks passes.now s ≡ true }
{
    match head {
        Some(head) if passes.len() <= MOST => is_unmarked(passes, head),
        _ => false,
    }
}

/// No target of the passes marks the rule of this head.
#[inline(always)]
fn is_unmarked(passes: &[Pass<Target, Command>], head: Head<'_>) -> bool
    ensures { IsTrue result → (s : Statement) → IsHeadOf head.entry s → spec.none_marks passes.now s ≡ true }
{
    for pass in passes {
        if head.is_marked_by(&pass.target) {
            return false;
        }
    }
    true
}

/// What a head says of the name of its statement.
fn head_key<'a>(head: Option<Head<'a>>) -> Key<'a>
    ensures { (s : Statement) → HasHead head.entry s → spec.HasKey s result }
{
    match head {
        Some(
            Head {
                name: Some(name),
                ..
            },
        ) => Key::Name(name),
        _ => Key::NoName,
    }
}
