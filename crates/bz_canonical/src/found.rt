//! The row of a rule that was found in a text, of which the arguments that are not asked for are sealed.

ghost use Rattle.std.specs.Prelude.{◌≡◌, ◌++◌, ℕ, List, drop, map, IfOk, IfSome};
ghost use Rattle.std.specs.List.{concat};
ghost use Rattle.bz_tree.specs.Rows.{IsRowOf, part_view};
ghost use Rattle.bz_tree.specs.Tree.{Segment};
ghost use Rattle.bz_canonical.specs.Canonical.{AreReadAlone};
ghost use Rattle.bz_canonical.specs.SealedRules.{are_asked, are_shown, count_sealed, is_exposed, sealed_rule, shown, small_parts};
ghost use Rattle.bz_canonical.specs.Sought.{marked};
ghost use Rattle.bz_canonical.specs.Spans.{AreSpans, IsSpannedIn, NamedRule, kept, statement_of};

use crate::asked::{asked_parts, put_asked_rule, read_asked_rule, sealed_count};
use crate::comments::after_comments_above;
use crate::listed::put_lists;
use crate::sealed::{SpannedRule, begins_with, between, sealed_row};
use crate::sought::{Sought, mark_sought};
use crate::spans::ArgumentSpan;
use bumpalo::Bump;
use bz_memory::{NoMemory, with_capacity};
use bz_tree::Row;
use std::alloc::Global;

// Room for the parts of the lists of most rules.
const ROOM: usize = 40;

/// A rule that was found in a text.
#[derive(Clone, Copy)]
pub struct FoundRule<'a> {
    /// As it stands there.
    pub chunk: &'a str,
    /// What is written of it, and where its arguments stand.
    pub rule: SpannedRule<'a>,
    /// The line of its first token, and of its last.
    pub start: u64,
    pub end: u64,
}

/// The kind of the rule of this chunk, whose arguments have these spans. It stands before the bracket, after the comments
/// above the rule.
#[inline(always)]
pub fn kind_of<'a>(chunk: &'a str, spans: &[ArgumentSpan]) -> Option<&'a str>
    ensures { IfSome result (λ kind. (depth : ℕ) (names : List (List ℕ)) (r : NamedRule)
        (stands : List (List ℕ))
        (written : List ℕ) → IsSpannedIn depth names r stands chunk.now written spans.now
        → kind.now ≡ r.kind) }
{
    let [name, ..] = spans else {
        return None;
    };
    let (front, _) = chunk.split_at_checked(name.from)?;
    let line = after_comments_above(front.as_bytes());
    if begins_with(line, b'#') {
        return None;
    }
    let from = front.len().checked_sub(line.len())?;
    let to = front.len().checked_sub(1)?;
    between(front, from, to)
}

/// Where texts and lists of it stand.
#[derive(Clone, Copy)]
pub struct Room<'a> {
    pub alloc: Global,
    pub bump: &'a Bump,
    /// So many brackets may be open in it at once.
    pub max_depth: u8,
}

/// The small rule of the arguments that are asked for, which is put into the buffer and read.
fn read_asked<'a>(
    room: Room<'a>,
    chunk: &str,
    spans: &[ArgumentSpan],
    small: &'a mut String,
) -> Result<Option<Row<'a>>, NoMemory>
    ensures { IfOk result (λ known. IfSome known
        (λ row. (names : List (List ℕ)) (from start : ℕ) (args : List Segment)
        (stands : List (List ℕ)) (after : List ℕ) → AreSpans names from start args stands spans.now
        → drop from chunk.now ≡ concat stands ++ after
        → AreReadAlone room.entry.max_depth (concat (kept (are_asked spans.now) stands))
        (kept (are_asked spans.now) args)
        → map part_view row.parts.items ≡ small_parts (kept (are_asked spans.now) args))) }
{
    if !put_asked_rule(chunk, spans, small)? {
        return Ok(None);
    }
    read_asked_rule(room.alloc, room.bump, small.as_str(), room.max_depth)
}

/// The row of a rule, of which the arguments after the name are sealed that neither have a name that is asked for nor may
/// have a value that is sought, if not one alone is, which might be left alone in its call. None: it is to be read whole.
pub fn seal<'a>(
    room: Room<'a>,
    found: FoundRule<'a>,
    sought: Sought<'_>,
    small: &'a mut String,
) -> Result<Option<Row<'a>>, NoMemory>
    ensures { IfOk result (λ known. IfSome known (λ row. (names : List (List ℕ)) (r : NamedRule)
        (stands : List (List ℕ)) → IsSpannedIn room.entry.max_depth names r stands found.entry.chunk.now
        found.entry.rule.written.now found.entry.rule.spans.now → r.first_line ≡ found.entry.start
        → r.last_line ≡ found.entry.end → IsRowOf (statement_of (sealed_rule (are_shown sought.entry.alone
        (drop 1 (marked sought.entry.endings.now sought.entry.closings.now found.entry.chunk.now
        found.entry.rule.spans.now))) r)) row)) }
{
    let FoundRule {
        chunk,
        rule,
        start,
        end,
    } = found;
    let Some(spans) = mark_sought(room.bump, sought, chunk, rule.spans)? else {
        return Ok(None);
    };
    let rule = SpannedRule { spans, ..rule };
    let found = FoundRule {
        chunk,
        rule,
        start,
        end,
    };
    seal_unasked(room, found, sought.alone, small)
}

/// One of the arguments that have these spans is not asked for, and it might be left alone in its call.
fn is_exposed(alone: bool, spans: &[ArgumentSpan], sealed: usize) -> bool
    requires { sealed ≡ count_sealed (are_asked spans.now) }
    ensures { result ≡ is_exposed alone spans.now }
{
    !alone && sealed == 1
}

/// The row of a rule, of which the arguments after the name are sealed that are not asked for, if not one alone is, which
/// might be left alone in its call. None: it is to be read whole.
fn seal_unasked<'a>(
    room: Room<'a>,
    found: FoundRule<'a>,
    alone: bool,
    small: &'a mut String,
) -> Result<Option<Row<'a>>, NoMemory>
    ensures { IfOk result (λ known. IfSome known (λ row. (names : List (List ℕ)) (r : NamedRule)
        (stands : List (List ℕ)) → IsSpannedIn room.entry.max_depth names r stands found.entry.chunk.now
        found.entry.rule.written.now found.entry.rule.spans.now → r.first_line ≡ found.entry.start
        → r.last_line ≡ found.entry.end → IsRowOf
        (statement_of (sealed_rule (are_shown alone (drop 1 found.entry.rule.spans.now)) r)) row)) }
{
    let [_, spans @ ..] = found.rule.spans else {
        return Ok(None);
    };
    let sealed = sealed_count(spans);
    if is_exposed(alone, spans, sealed) {
        return row_of_lists(room, found, true);
    }
    // Often none is asked for but the name.
    if sealed == spans.len() {
        return sealed_row(room.bump, found, false, &[]);
    }
    if let Some(row) = row_of_lists(room, found, false)? {
        return Ok(Some(row));
    }
    // By their tokens the others cost as much as the rule.
    if sealed == 1 {
        return Ok(None);
    }
    let Some(read) = read_asked(room, found.chunk, spans, small)? else {
        return Ok(None);
    };
    let Some(asked) = asked_parts(&read.parts) else {
        return Ok(None);
    };
    sealed_row(room.bump, found, false, asked)
}

/// The row of a rule, of which the arguments after the name are sealed that are not asked for, or none if `all` are to be
/// seen. None: `put_lists` does not know one that is seen.
fn row_of_lists<'a>(
    room: Room<'a>,
    found: FoundRule<'a>,
    all: bool,
) -> Result<Option<Row<'a>>, NoMemory>
    ensures { IfOk result (λ known. IfSome known (λ row. (names : List (List ℕ)) (r : NamedRule)
        (stands : List (List ℕ)) → IsSpannedIn room.entry.max_depth names r stands found.entry.chunk.now
        found.entry.rule.written.now found.entry.rule.spans.now → r.first_line ≡ found.entry.start
        → r.last_line ≡ found.entry.end
        → IsRowOf (statement_of (sealed_rule (shown all (drop 1 found.entry.rule.spans.now)) r)) row)) }
{
    let [_, spans @ ..] = found.rule.spans else {
        return Ok(None);
    };
    let mut lists = with_capacity(room.bump, ROOM)?;
    if !put_lists(found.chunk, spans, all, room.max_depth, &mut lists)? {
        return Ok(None);
    }
    sealed_row(room.bump, found, all, &lists)
}
