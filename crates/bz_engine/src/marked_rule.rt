//! Rules that one pass alone marks and that are not read, of which its one command edits one argument: by the lines of
//! the argument, or by the place above it. `canonical.rt` asks for a chunk of which it knows what would be written.

ghost use Rattle.std.specs.Prelude.{◌≡◌, ◌++◌, if◌then◌else◌, [], ◌∷◌, ℕ, Some, false, true, bytes_eq, codes, IfOk, OnOk, IfSome, IsTrue};
ghost use Rattle.bz_tree.specs.Tree.{Statement};
ghost use Rattle.bz_layout.specs.Layout.{layout_text};
ghost use Rattle.bz_canonical.specs.Canonical.{HasOnce};
ghost use Rattle.bz_passes.specs.Exchange.{Fits};
ghost use Rattle.bz_label.specs.declared.arguments.Attributes.TheVariants.{Named};
ghost use Rattle.bz_label.specs.declared.arguments.Commented.TheVariants.{Attribute};
ghost use Rattle.bz_rule.specs.declared.command.Action.TheVariants.{Comment, Remove, Rename};
ghost use Rattle.bz_rule.specs.OneAttribute.{one_attribute};
ghost use Rattle.bz_engine.specs.Outcome.{is_query};
ghost use Rattle.bz_engine.specs.Progress.{text_following};
ghost use Rattle.bz_engine.specs.private.Edits.{run_of};
ghost use Rattle.bz_engine.specs.private.Found.{HasItsSpans, IsForOne, IsFound, IsFoundOn, IsWithout};
ghost use Rattle.bz_engine.specs.private.Gone.{IsGone};
ghost use Rattle.bz_engine.specs.private.NextChunks.{EditsFound};
ghost use Rattle.bz_engine.specs.private.Renamed.{TakesName};

use crate::answer::{has_once_by_spans, is_without_by_spans};
use crate::argument::{EditedArgument, execute_in_place, execute_on_lines, is_long, may_stand};
use crate::canonical::Found;
use crate::edit::ScriptRun;
use crate::progress::Progress;
use crate::rule_passes::OnePass;
use crate::written::{begin_statement, put_canonical};
use bz_canonical::{ArgumentPlace, EditedList, comment_place};
use bz_layout::put_gap;
use bz_memory::{NoMemory, extend_from_slice};
use bz_rule::commands::comment::comment_line;
use bz_rule::forms::{AttributeComment, RenamedAttribute, comment_by, gone_by, renamed_by};
use bz_rule::one_attribute;
use bz_tree::Class;

/// A rule that one pass alone marks, and that pass, which has one command.
#[derive(Clone, Copy)]
pub(crate) struct MarkedRule<'a> {
    pub(crate) only: OnePass<'a>,
    pub(crate) found: &'a Found<'a>,
}

/// Runs the command on the rule, where it looks at one argument alone, and the lines of that are known. False, with
/// nothing done: the rule is to be seen.
pub(crate) fn edit_marked(
    script: ScriptRun<'_>,
    marked: MarkedRule<'_>,
    progress: &mut Progress,
    text: &mut Vec<u8>,
) -> Result<bool, NoMemory>
    requires only { IsForOne script.home.now script.passes.now marked.only
        (IsFoundOn script.max_depth progress.old.line marked.found.now) }
    requires fits { Fits progress.old.kept script.passes.now }
    requires spans { HasItsSpans script.max_depth script.passes.now marked.found.now }
    ensures { IfOk result (EditsFound (run_of script.entry) marked.entry.found.now progress.old progress.new
        text.old.items text.new.items) }
{
    let MarkedRule { only, found } = marked;
    if let Some(comment) = comment_by(only.command) {
        return put_comment(script, marked, comment, progress, text);
    }
    if let Some(renamed) = renamed_by(only.command) {
        return put_renamed(script, marked, renamed, progress, text);
    }
    if let Some(attr) = gone_by(only.command) {
        return put_gone(script, marked, attr, progress, text);
    }
    if is_long(found.place) {
        return edit_long_argument(script, marked, progress, text);
    }
    edit_argument(script, marked, progress, text)
}

/// The command puts a comment above an argument.
fn put_comment(
    script: ScriptRun<'_>,
    marked: MarkedRule<'_>,
    comment: AttributeComment<'_>,
    progress: &mut Progress,
    text: &mut Vec<u8>,
) -> Result<bool, NoMemory>
    requires only { IsForOne script.home.now script.passes.now marked.only
        (IsFoundOn script.max_depth progress.old.line marked.found.now) }
    requires fits { Fits progress.old.kept script.passes.now }
    requires comment { marked.only.command.now ≡ Comment (Attribute comment.attr.now) comment.text.now }
    ensures { IfOk result (EditsFound (run_of script.entry) marked.entry.found.now progress.old progress.new
        text.old.items text.new.items) }
{
    let MarkedRule { only, found } = marked;
    let Some(place) = place_for(only, found) else {
        return Ok(false);
    };
    let Some(at) = comment_place(found.chunk.written, place) else {
        return Ok(false);
    };
    let line = comment_line(script.alloc, comment.text)?;
    progress.keep_line(only.at, None)?;
    let changed = Changed {
        class: found.chunk.class,
        before: at.above,
        lines: line.as_bytes(),
        after: at.below,
    };
    changed.put(script, progress, text)?;
    Ok(true)
}

/// The command renames an argument. What is written after an argument's name does not hang on it.
fn put_renamed(
    script: ScriptRun<'_>,
    marked: MarkedRule<'_>,
    renamed: RenamedAttribute<'_>,
    progress: &mut Progress,
    text: &mut Vec<u8>,
) -> Result<bool, NoMemory>
    requires only { IsForOne script.home.now script.passes.now marked.only
        (IsFoundOn script.max_depth progress.old.line marked.found.now) }
    requires fits { Fits progress.old.kept script.passes.now }
    requires spans { HasItsSpans script.max_depth script.passes.now marked.found.now }
    requires renamed { marked.only.command.now ≡ Rename renamed.old.now renamed.new.now }
    ensures { IfOk result (EditsFound (run_of script.entry) marked.entry.found.now progress.old progress.new
        text.old.items text.new.items) }
{
    let MarkedRule { only, found } = marked;
    if !may_be_renamed(script, found, renamed) {
        return Ok(false);
    }
    let Some(at) = name_place(found, renamed.old) else {
        return Ok(false);
    };
    progress.keep_line(only.at, None)?;
    let changed = Changed {
        class: found.chunk.class,
        before: at.before,
        lines: renamed.new.as_bytes(),
        after: at.after,
    };
    changed.put(script, progress, text)?;
    Ok(true)
}

/// No argument of the rule has the new name, and the rule keeps its own: a pass that comes after may mark it by that.
fn may_be_renamed(script: ScriptRun<'_>, found: &Found<'_>, renamed: RenamedAttribute<'_>) -> bool
    requires { HasItsSpans script.max_depth script.passes.now found.now }
    ensures without { IsTrue result → (line : ℕ) (s : Statement)
        → IsFoundOn script.entry.max_depth line found.now s → IsWithout renamed.entry.new.now s }
    ensures old { IsTrue result → bytes_eq renamed.entry.old.now (codes "name") ≡ false }
    ensures new { IsTrue result → bytes_eq renamed.entry.new.now (codes "name") ≡ false }
{
    renamed.old != "name"
        && renamed.new != "name"
        && is_without_by_spans(script, found, renamed.new)
}

/// What is written of a rule before the name of an argument, and after it.
#[derive(Clone, Copy)]
struct NamePlace<'t> {
    before: &'t str,
    after: &'t str,
}

/// Where this name stands in what is written of the rule. None: no argument has it, or another one was looked for.
fn name_place<'a>(found: &Found<'a>, attr: &str) -> Option<NamePlace<'a>>
    ensures { IfSome result (λ at. (depth : ℕ) (s : Statement) → IsFound depth found.now s
        → TakesName attr.now s at.before.now at.after.now) }
{
    if attr != found.attr {
        return None;
    }
    let Some(place) = found.place else {
        return None;
    };
    let at = comment_place(found.chunk.written, place)?;
    let (_, named) = at.below.split_at_checked("\n    ".len())?;
    let (_, after) = named.split_at_checked(attr.len())?;
    Some(NamePlace {
        before: at.above,
        after,
    })
}

/// The command removes an attribute. False for the name: a pass that comes after may mark the rule by that.
fn put_gone(
    script: ScriptRun<'_>,
    marked: MarkedRule<'_>,
    attr: &str,
    progress: &mut Progress,
    text: &mut Vec<u8>,
) -> Result<bool, NoMemory>
    requires only { IsForOne script.home.now script.passes.now marked.only
        (IsFoundOn script.max_depth progress.old.line marked.found.now) }
    requires fits { Fits progress.old.kept script.passes.now }
    requires spans { HasItsSpans script.max_depth script.passes.now marked.found.now }
    requires gone { marked.only.command.now ≡ Remove (Named attr.now) [] }
    ensures { IfOk result (EditsFound (run_of script.entry) marked.entry.found.now progress.old progress.new
        text.old.items text.new.items) }
{
    let MarkedRule { only, found } = marked;
    if attr == "name" || !has_once_by_spans(script, found, attr) {
        return Ok(false);
    }
    let Some(place) = gone_place(found, attr) else {
        return Ok(false);
    };
    progress.keep_line(only.at, None)?;
    let changed = Changed {
        class: found.chunk.class,
        before: place.before,
        lines: &[],
        after: place.after,
    };
    changed.put(script, progress, text)?;
    Ok(true)
}

/// The place of the argument of this name, where the rule stays on lines without it. None also if another one was looked
/// for.
fn gone_place<'a>(found: &Found<'a>, attr: &str) -> Option<ArgumentPlace<'a>>
    ensures { IfSome result (λ place. (depth : ℕ) (s : Statement) → IsFound depth found.now s → HasOnce attr.now s
        → IsGone attr.now s place.before.now place.after.now) }
{
    if attr != found.attr {
        return None;
    }
    let Some(place) = found.place else {
        return None;
    };
    if place.lines.is_empty() || !may_stand(place, false) {
        return None;
    }
    Some(place)
}

/// The one command edits an argument of many lines: what it makes of these is written where it is to stand.
fn edit_long_argument(
    script: ScriptRun<'_>,
    marked: MarkedRule<'_>,
    progress: &mut Progress,
    text: &mut Vec<u8>,
) -> Result<bool, NoMemory>
    requires only { IsForOne script.home.now script.passes.now marked.only
        (IsFoundOn script.max_depth progress.old.line marked.found.now) }
    requires fits { Fits progress.old.kept script.passes.now }
    ensures { IfOk result (EditsFound (run_of script.entry) marked.entry.found.now progress.old progress.new
        text.old.items text.new.items) }
{
    let MarkedRule { only, found } = marked;
    let Some(place) = place_for(only, found) else {
        return Ok(false);
    };
    // The text of a chunk begins empty: so all of it may be given up.
    if !text.is_empty() || script.passes.is_query() {
        return Ok(false);
    }
    put_gap(progress.last, found.chunk.class, text)?;
    match execute_in_place(script, only.command, place, text)? {
        None => {
            text.clear();
            Ok(false)
        }
        Some(EditedList::Unchanged) => {
            text.clear();
            progress.keep_line(only.at, None)?;
            put_canonical(script, found.chunk, progress, text)?;
            Ok(true)
        }
        Some(EditedList::Written) => {
            progress.keep_line(only.at, None)?;
            progress.last = Some(found.chunk.class);
            progress.changed = true;
            Ok(true)
        }
    }
}

/// The one command edits an argument of few lines, in a buffer of their own.
fn edit_argument(
    script: ScriptRun<'_>,
    marked: MarkedRule<'_>,
    progress: &mut Progress,
    text: &mut Vec<u8>,
) -> Result<bool, NoMemory>
    requires only { IsForOne script.home.now script.passes.now marked.only
        (IsFoundOn script.max_depth progress.old.line marked.found.now) }
    requires fits { Fits progress.old.kept script.passes.now }
    ensures { IfOk result (EditsFound (run_of script.entry) marked.entry.found.now progress.old progress.new
        text.old.items text.new.items) }
{
    let MarkedRule { only, found } = marked;
    let Some(place) = place_for(only, found) else {
        return Ok(false);
    };
    let mut spare = progress.take_spare(script.alloc);
    match execute_on_lines(script, only.command, place, &mut spare.laid)? {
        None => {
            progress.give_back(spare);
            Ok(false)
        }
        Some(EditedArgument::Unchanged) => {
            progress.keep_line(only.at, None)?;
            put_canonical(script, found.chunk, progress, text)?;
            progress.give_back(spare);
            Ok(true)
        }
        Some(EditedArgument::Lines(lines)) => {
            progress.keep_line(only.at, None)?;
            let changed = Changed {
                class: found.chunk.class,
                before: place.before,
                lines,
                after: place.after,
            };
            changed.put(script, progress, text)?;
            progress.give_back(spare);
            Ok(true)
        }
    }
}

/// The place of the argument that the command looks at alone. None also for the name where a pass comes after: that may
/// mark the rule by its new one.
fn place_for<'a>(only: OnePass<'_>, found: &Found<'a>) -> Option<ArgumentPlace<'a>>
    ensures place { IfSome result (λ place. found.now.place ≡ Some place) }
    ensures attr { IfSome result (λ _. one_attribute only.entry.command.now ≡ Some found.now.attr.now) }
    ensures name { IfSome result (λ _. only.entry.last ≡ false
        → bytes_eq found.now.attr.now (codes "name") ≡ false) }
{
    let attr = one_attribute(only.command)?;
    if attr != found.attr || (attr == "name" && !only.last) {
        return None;
    }
    found.place
}

/// A rule with other lines in the place of an argument.
#[derive(Clone, Copy)]
struct Changed<'t> {
    class: Class,
    before: &'t str,
    lines: &'t [u8],
    after: &'t str,
}

impl Changed<'_> {
    /// Writes the text of the rule.
    fn put(
        self,
        script: ScriptRun<'_>,
        progress: &mut Progress,
        text: &mut Vec<u8>,
    ) -> Result<(), NoMemory>
        ensures last { OnOk result
            (progress.new ≡ record progress.old { last = Some self.entry.class; changed = true }) }
        ensures text { OnOk result ((s : Statement) → s.class ≡ self.entry.class
            → layout_text s ≡ self.entry.before.now ++ (self.entry.lines.now ++ self.entry.after.now)
            → text.new.items ≡ text.old.items
            ++ (if is_query script.entry.passes.now then [] else text_following progress.old.last (Some s ∷ []))) }
    {
        if begin_statement(script, self.class, progress, text)? {
            extend_from_slice(text, self.before.as_bytes())?;
            extend_from_slice(text, self.lines)?;
            extend_from_slice(text, self.after.as_bytes())?;
        }
        progress.changed = true;
        Ok(())
    }
}
