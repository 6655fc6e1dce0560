//! Rules that the one command of a script leaves as they are, by what is known of their text.

ghost use Rattle.std.specs.Prelude.{◌≡◌, ℕ, IfOk, IfSome, IsTrue, None, Some, false};
ghost use Rattle.bz_tree.specs.Tree.{Statement};
ghost use Rattle.bz_canonical.specs.Canonical.{HasName, HasOnce};
ghost use Rattle.bz_engine.specs.private.Found.{HasItsSpans, IsFound, IsFoundOn, IsPlaceIn, IsWithout, LeavesRule, Makes, told_line};

use crate::canonical::Found;
use crate::edit::ScriptRun;
use crate::names::position_of;
use bz_attribute::Env;
use bz_canonical::{ArgumentPlace, SpannedRule, argument_place, has_once};
use bz_label::Package;
use bz_memory::NoMemory;
use bz_rule::commands::print::print_name;
use bz_rule::forms::{looked_at, printed_by, renamed_by};
use bz_rule::{Command, one_attribute};

/// A rule stays as it is, and this is printed of it.
#[derive(Clone, Copy)]
pub(crate) struct Unchanged<'t> {
    pub(crate) line: Option<&'t str>,
}

/// Whether it may be known what the command makes of a rule whose text is known. That does not tell several fields.
pub(crate) fn is_answerable(command: &Command) -> bool {
    matches!(printed_by(command), Some([_]))
        || looked_at(command).is_some()
        || one_attribute(command).is_some()
        || renamed_by(command).is_some()
}

/// The attribute that the command looks at alone, or renames. Empty: there is none.
pub(crate) fn asked_attribute(command: &Command) -> &str {
    if let Some(renamed) = renamed_by(command) {
        return renamed.old;
    }
    match one_attribute(command) {
        Some(attr) => attr,
        None => match looked_at(command) {
            Some(attr) => attr,
            None => "",
        },
    }
}

/// What the command prints of the rule, where the name tells it. The bytes in the buffer are lost. None: it does not
/// print, or the rule is to be seen.
pub(crate) fn printed_by_text<'t, 'f: 't>(
    env: Env<'_>,
    command: &Command,
    found: &Found<'f>,
    buffer: &'t mut String,
) -> Result<Option<Unchanged<'t>>, NoMemory>
    ensures { IfOk result (λ known. IfSome known (LeavesRule command.now env.entry.home.now found.now)) }
{
    let Some(name) = found.chunk.name else {
        return Ok(None);
    };
    let line = printed_by_name(env, command, name, buffer)?;
    match line {
        None => Ok(None),
        Some(line) => Ok(Some(Unchanged { line: Some(line) })),
    }
}

/// The command leaves the rule as it is, and tells nothing: the rule has no argument that it looks at.
pub(crate) fn is_left_by_text(home: &Package, command: &Command, found: &Found<'_>) -> bool
    ensures { IsTrue result → (unchanged : Unchanged) → unchanged.line ≡ None
        → LeavesRule command.now home.now found.now unchanged }
{
    match looked_at(command) {
        Some(attr) => is_without(found, attr),
        None => false,
    }
}

/// What is printed of a rule of this name, where that is all that is asked.
fn printed_by_name<'t>(
    env: Env<'_>,
    command: &Command,
    name: &'t str,
    buffer: &'t mut String,
) -> Result<Option<&'t str>, NoMemory>
    ensures { IfOk result (λ line. IfSome line (λ text. (s : Statement) → HasName (Some name.now) s
        → Makes command.now env.entry.home.now s s (told_line false (Some text.now)))) }
{
    match printed_by(command) {
        Some(fields) => print_name(env, fields, name, buffer),
        None => Ok(None),
    }
}

/// No argument of the rule has this name, as its place shows.
pub(crate) fn is_without(found: &Found<'_>, attr: &str) -> bool
    ensures { IsTrue result → (depth : ℕ) (s : Statement) → IsFound depth found.now s → IsWithout attr.now s }
{
    match found.place {
        Some(place) => found.attr == attr && place.lines.is_empty(),
        None => false,
    }
}

/// No argument of the rule has this name, as the spans of all show, though it is not the one that was looked for.
pub(crate) fn is_without_by_spans(script: ScriptRun<'_>, found: &Found<'_>, attr: &str) -> bool
    requires { HasItsSpans script.max_depth script.passes.now found.now }
    ensures { IsTrue result → (line : ℕ) (s : Statement) → IsFoundOn script.entry.max_depth line found.now s
        → IsWithout attr.now s }
{
    match place_of(script, found, attr) {
        Some(place) => place.lines.is_empty(),
        None => false,
    }
}

/// At most one argument of the rule has this name, as the spans of all show.
pub(crate) fn has_once_by_spans(script: ScriptRun<'_>, found: &Found<'_>, attr: &str) -> bool
    requires { HasItsSpans script.max_depth script.passes.now found.now }
    ensures { IsTrue result → (line : ℕ) (s : Statement) → IsFoundOn script.entry.max_depth line found.now s
        → HasOnce attr.now s }
{
    if !found.chunk.noted {
        return false;
    }
    match position_of(script.passes.names(), attr) {
        Some(at) => has_once(found.spans, at),
        None => false,
    }
}

/// Where the argument of this name stands, or would stand, if it was noted where all stand.
pub(crate) fn place_of<'a>(
    script: ScriptRun<'_>,
    found: &Found<'a>,
    attr: &str,
) -> Option<ArgumentPlace<'a>>
    ensures { IfSome result (IsPlaceIn script.entry.passes.now found.now attr.now) }
{
    if attr.is_empty() || !found.chunk.noted {
        return None;
    }
    let at = position_of(script.passes.names(), attr)?;
    let rule = SpannedRule {
        written: found.chunk.written,
        spans: found.spans,
    };
    argument_place(found.chunk.chunk, rule, at)
}
