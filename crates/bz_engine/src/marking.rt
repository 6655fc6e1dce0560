//! Which passes mark the rule of a chunk, by its name, its kind and its lines: the rule is not read. `canonical.rt` asks.

ghost use Rattle.std.specs.Prelude.{◌≡◌, ◌+◌, ◌<◌, ◌==◌, ◌^◌, ℕ, IfSome, IsTrue, Some, count_by, length, true};
ghost use Rattle.bz_label.specs.Labels.{Line};
ghost use Rattle.bz_tree.specs.Tree.{Statement};
ghost use Rattle.bz_attribute.specs.Marks.{marks};
ghost use Rattle.bz_attribute.specs.Rules.{Rule, rule_of};
ghost use Rattle.bz_canonical.specs.Canonical.{HasName};
ghost use Rattle.bz_passes.specs.Asked.{IsFirstFrom};
ghost use Rattle.bz_engine.specs.Outcome.{Script};
ghost use Rattle.bz_engine.specs.private.Edits.{run_of};
ghost use Rattle.bz_engine.specs.private.Found.{HasItsSpans, IsFound, IsFoundOn, unplaced};
ghost use Rattle.bz_engine.specs.private.Marked as spec;

use crate::canonical::{Found, name_key};
use crate::edit::ScriptRun;
use crate::rule_passes::{Finding, OnePass};
use crate::rules::Rules;
use bz_canonical::kind_of;
use bz_label::{Marked, Target};
use bz_passes::index::Key;
use bz_passes::passes::Passes;
use bz_passes::script::only_pass;
use bz_rule::Command;

/// Which passes mark a rule.
#[derive(Clone, Copy)]
pub(crate) enum Marking<'p> {
    /// None does.
    Unmarked,
    /// This one alone does, and it has one command.
    Alone(OnePass<'p>),
    /// Several may, or it is not known.
    Unknown,
}

/// Which passes mark the statement of the chunk, which begins on this line and has so many.
#[inline(always)]
pub(crate) fn find_marking<'p>(
    script: ScriptRun<'p>,
    found: &Found<'_>,
    line: u64,
    lines: u64,
) -> Marking<'p>
    requires fits { line + length found.now.chunk.chunk.now < 2 ^ 64 }
    requires lines { lines ≡ count_by (λ b. b == 10) found.now.chunk.chunk.now }
    requires spans { HasItsSpans script.max_depth script.passes.now found.now }
    ensures { spec.IsMarking (run_of script.entry) line found.now result }
{
    match script.passes.finding() {
        Finding::Never => Marking::Unknown,
        Finding::ByName => by_name(script, found),
        Finding::ByKind => by_kind(script, found, line, lines),
    }
}

/// Which passes mark the statement, where its name alone may tell.
fn by_name<'p>(script: ScriptRun<'p>, found: &Found<'_>) -> Marking<'p>
    ensures { (line : ℕ) → spec.IsMarking (run_of script.entry) line found.now result }
{
    let rules = Rules {
        alloc: script.alloc,
        home: script.home,
    };
    let Some(at) = only_pass(&rules, script.passes.indexed(), name_key(found.chunk.name)) else {
        return Marking::Unknown;
    };
    match script.passes.one_at(at) {
        Some(only) if marks_found(only.target, found) => Marking::Alone(only),
        _ => Marking::Unknown,
    }
}

/// The target marks the statement of the chunk, whatever its kind and its lines are.
fn marks_found(target: &Target, found: &Found<'_>) -> bool
    ensures { IsTrue result → (depth : ℕ) (s : Statement) → IsFound depth (unplaced found.now) s
        → marks target.now s ≡ true }
{
    if let Some(name) = found.chunk.name {
        return marks_name(target, name);
    }
    // What has a kind is a rule.
    match found.chunk.kind {
        Some(_) => marks_rules(target),
        None => false,
    }
}

/// The target marks a rule of this name, whatever else the rule is.
fn marks_name(target: &Target, name: &str) -> bool
    ensures { IsTrue result → (s : Statement) → HasName (Some name.now) s → marks target.now s ≡ true }
{
    match target.marked() {
        Marked::Name(asked) => asked == name,
        Marked::All => true,
        _ => false,
    }
}

/// The target marks each rule.
fn marks_rules(target: &Target) -> bool
    ensures { IsTrue result → (s : Statement) (r : Rule) → rule_of s.nodes ≡ Some r → marks target.now s ≡ true }
{
    matches!(target.marked(), Marked::All)
}

/// Which passes mark the statement, where its kind and its lines are to be known too.
fn by_kind<'p>(script: ScriptRun<'p>, found: &Found<'_>, line: u64, lines: u64) -> Marking<'p>
    requires fits { line + length found.now.chunk.chunk.now < 2 ^ 64 }
    requires lines { lines ≡ count_by (λ b. b == 10) found.now.chunk.chunk.now }
    requires spans { HasItsSpans script.max_depth script.passes.now found.now }
    ensures { spec.IsMarking (run_of script.entry) line found.now result }
{
    let Some(rule) = known_rule(found, line, lines) else {
        return Marking::Unknown;
    };
    let passes = script.passes.indexed();
    let Some(at) = next_for(passes, rule, 0) else {
        return Marking::Unmarked;
    };
    if passes.as_slice().len() > at + 1 && next_for(passes, rule, at + 1).is_some() {
        return Marking::Unknown;
    }
    match script.passes.one_at(at) {
        Some(only) if !asks_for_line(only.target) => Marking::Alone(only),
        _ => Marking::Unknown,
    }
}

fn asks_for_line(target: &Target) -> bool
    ensures { (line : ℕ) → target.now ≡ Line line → result ≡ true }
{
    matches!(target.marked(), Marked::Line(_))
}

/// What is known of a rule that is not read.
#[derive(Clone, Copy)]
pub(crate) struct KnownRule<'f> {
    pub(crate) name: &'f str,
    pub(crate) kind: &'f str,
    /// It begins on one of these lines.
    pub(crate) first: u64,
    pub(crate) last: u64,
}

/// What is known of the rule of a chunk that begins on this line and has so many.
fn known_rule<'f>(found: &Found<'f>, line: u64, lines: u64) -> Option<KnownRule<'f>>
    requires fits { line + length found.now.chunk.chunk.now < 2 ^ 64 }
    requires lines { lines ≡ count_by (λ b. b == 10) found.now.chunk.chunk.now }
    ensures { IfSome result (λ rule. (depth : ℕ) (passes : Script) → HasItsSpans depth passes found.now
        → (s : Statement) → IsFoundOn depth line (unplaced found.now) s → spec.IsKnownRule rule s) }
{
    if !found.chunk.noted {
        return None;
    }
    Some(KnownRule {
        name: found.chunk.name?,
        kind: kind_of(found.chunk.chunk, found.spans)?,
        first: line,
        last: line + lines,
    })
}

impl KnownRule<'_> {
    /// The target may mark the rule.
    fn may_be_marked_by(&self, target: &Target) -> bool
        ensures { result ≡ spec.may_mark_rule self.now target.now }
    {
        match target.marked() {
            Marked::Name(name) => name == self.name,
            Marked::Pkg => self.kind == "package",
            Marked::All => true,
            Marked::Kind(kind) => self.kind == kind,
            Marked::Line(line) => self.first <= line && line <= self.last,
        }
    }
}

/// The first pass, from a position on, that may mark the rule. Of those that ask for another name none is looked at.
#[inline(always)]
fn next_for(passes: &Passes<Target, Command>, rule: KnownRule<'_>, from: usize) -> Option<usize>
    ensures { IsFirstFrom (λ pass. spec.may_mark_rule rule.entry pass.target) passes.now from result }
{
    let key = Key::Name(rule.name);
    let mut at = from;
    while let Some(i) = passes.first_from(key, at) {
        let pass = &passes.as_slice()[i];
        if rule.may_be_marked_by(&pass.target) {
            return Some(i);
        }
        at = i + 1;
    }
    None
}
