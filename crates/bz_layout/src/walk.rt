//! The walk forwards over the parts of a statement, which writes them: on lines for `row.rt`, on one line for
//! `flat_text.rt`.

ghost use Rattle.std.specs.Prelude.{◌≡◌, ◌<◌, ◌^◌, ◌+◌, ◌++◌, ℕ, List, codes, true, false, IfOk, IsTrue, map, reverse};
ghost use Rattle.bz_token.specs.declared.token.Kind.{Kind};
ghost use Rattle.bz_tree.specs.Tree.{leaf};
ghost use Rattle.bz_tree.specs.Rows.{part_view};
ghost use Rattle.bz_layout.specs.declared.spacing.Edge.TheVariants.{Start};
ghost use Rattle.bz_layout.specs.Pieces.{gap_bytes};
ghost use Rattle.bz_layout.specs.Respell.{respell};
ghost use Rattle.bz_layout.specs.declared.spacing.Gap.TheVariants.{Line};
ghost use Rattle.bz_layout.specs.Walked.{gap_for, no_space_before};
ghost use Rattle.bz_layout.specs.private.RowLayout.{Puts, Lays, LaysAlso, due, top, first_gap, start, with_token, opened, closed_by, ended, step, run, laid};

use crate::append::NewLine;
use crate::marks::BracketForm;
use crate::respell::{put_written, stays};
use crate::spacing::{Edge, Gap, is_byte, is_group_without_space, token_closes_up, token_edge};
use crate::write::{brackets, put};
use bumpalo::Bump;
use bz_memory::{NoMemory, push, with_capacity};
use bz_token::Kind;
use bz_tree::{GroupKind, Part};
use std::cmp::min;

// Few brackets are deeper.
pub(crate) const FIRST_DEPTH: usize = 16;

// A bracket that is open, or the top.
#[derive(Clone, Copy)]
pub(crate) struct OpenBracket {
    // None at the top.
    pub(crate) within: Option<GroupKind>,
    pub(crate) mark: BracketForm,
    // In place, after a segment: a comma is due, which is written where the next one begins.
    pub(crate) later: bool,
}

#[derive(Drop)]
pub(crate) struct RowWriter<'b> {
    // Those of the brackets to come, the next one last.
    pub(crate) marks: Vec<BracketForm, &'b Bump>,
    pub(crate) outer: Vec<OpenBracket, &'b Bump>,
    pub(crate) here: OpenBracket,
    pub(crate) left: Edge,
    // That of the line which is being written.
    pub(crate) level: usize,
}

// Whether a token is no operator and written as it stands; not told of each that is.
#[inline(always)]
fn is_operand(kind: Kind, text: &str) -> bool
    ensures stays { IsTrue result → respell kind text.now ≡ text.now }
    ensures apart { IsTrue result → no_space_before (leaf kind text.now) ≡ false }
{
    !matches!(kind, Kind::Operator) && stays(kind, text)
}

// The value after the sign of an argument, with the comma after it.
#[inline(always)]
fn put_value<T: NewLine>(text: &str, out: &mut T) -> Result<(), NoMemory>
    ensures { Puts result (T.bytes out.old) (T.bytes out.new) (codes " " ++ (text.now ++ codes ",")) }
{
    out.put_short(" ")?;
    out.put(text)?;
    out.put_short(",")
}

impl OpenBracket {
    fn top(within: Option<GroupKind>) -> OpenBracket
        ensures { result ≡ top within }
    {
        OpenBracket {
            within,
            mark: BracketForm {
                broken: false,
                comma: false,
            },
            later: false,
        }
    }
}

impl<'b> RowWriter<'b> {
    // `within` is the group that all the parts stand in. With no marks no bracket is broken.
    pub(crate) fn new(
        bump: &'b Bump,
        marks: Vec<BracketForm, &'b Bump>,
        within: Option<GroupKind>,
    ) -> Result<RowWriter<'b>, NoMemory>
        ensures laid { IfOk result
            (λ walk. (text : List ℕ) → laid walk text ≡ start text (reverse marks.entry.items) within) }
        ensures level { IfOk result (λ walk. walk.level ≡ 0) }
    {
        let depth = min(marks.len(), FIRST_DEPTH);
        Ok(RowWriter {
            marks,
            outer: with_capacity(bump, depth)?,
            here: OpenBracket::top(within),
            left: Edge::Start,
            level: 0,
        })
    }

    // The gap before what closes up or does not, after the comma that is due.
    #[inline(always)]
    fn put_gap<T: NewLine>(&self, closes: bool, out: &mut T) -> Result<(), NoMemory>
        ensures { Puts result (T.bytes out.old) (T.bytes out.new) (due self.now.here self.now.left
            ++ gap_bytes (gap_for (first_gap self.now.here self.now.level) self.now.left closes)) }
    {
        // Most tokens of broken brackets begin a line.
        if self.here.mark.broken && matches!(self.left, Edge::Start) {
            return out.new_line(self.level);
        }
        match self.left {
            Edge::Start if self.here.later => out.put(", "),
            Edge::Operator | Edge::Operand if !closes => out.put_short(" "),
            _ => Ok(()),
        }
    }

    #[inline(always)]
    fn put_token<T: NewLine>(&mut self, kind: Kind, text: &str, out: &mut T) -> Result<(), NoMemory>
        ensures { Lays result (with_token kind text.now) self.old (T.bytes out.old) self.new (T.bytes out.new) }
    {
        self.put_gap(token_closes_up(kind, text), out)?;
        put_written(kind, text, out)?;
        self.left = token_edge(self.here.within, self.left, kind, text);
        Ok(())
    }

    #[inline(never)]
    fn put_rarer<T: NewLine>(&mut self, kind: Kind, text: &str, out: &mut T) -> Result<(), NoMemory>
        ensures { Lays result (with_token kind text.now) self.old (T.bytes out.old) self.new (T.bytes out.new) }
    {
        self.put_token(kind, text, out)
    }

    // Whether each segment here has a line and a comma, and none of it is written yet.
    #[inline(always)]
    fn begins_item(&self) -> bool
        ensures { IsTrue result → (self.now.left ≡ Start)
            × (self.now.here.mark.broken ≡ true) × (self.now.here.mark.comma ≡ true) }
    {
        matches!(
            (self.left, self.here.mark),
            (
                Edge::Start,
                BracketForm {
                    broken: true,
                    comma: true,
                },
            )
        )
    }

    // The name of an argument on a line of its own, and its sign.
    #[inline(always)]
    fn put_name<T: NewLine>(&self, name: &str, out: &mut T) -> Result<(), NoMemory>
        ensures { Puts result (T.bytes out.old) (T.bytes out.new)
            (gap_bytes (Line self.now.level) ++ (name.now ++ codes " =")) }
    {
        out.new_line(self.level)?;
        out.put(name)?;
        out.put(" =")
    }

    // What most segments are, where each has a line and a comma: a token that stays, or an argument of such a value; of an
    // argument of another value its name and sign. Answers how many parts were written.
    #[inline(never)]
    fn segments<T: NewLine>(&mut self, parts: &[Part<'_>], out: &mut T) -> Result<usize, NoMemory>
        requires start { self.old.left ≡ Start }
        requires broken { self.old.here.mark.broken ≡ true }
        requires comma { self.old.here.mark.comma ≡ true }
        ensures { LaysAlso result (λ s. s) (map part_view parts.now)
            self.old (T.bytes out.old) self.new (T.bytes out.new) }
    {
        let mut rest = parts;
        loop {
            match rest {
                [Part::Token(kind, text), Part::End, after @ ..] if stays(*kind, text) => {
                    out.put_item(self.level, text)?;
                    rest = after;
                }
                [
                    Part::Token(Kind::Identifier, name),
                    Part::Token(Kind::Operator, sign),
                    after @ ..,
                ] if is_byte(sign, b'=') => {
                    self.put_name(name, out)?;
                    match after {
                        [Part::Token(kind, text), Part::End, later @ ..]
                            if is_operand(*kind, text) => {
                            put_value(text, out)?;
                            rest = later;
                        }
                        _ => {
                            self.left = Edge::Operator;
                            return Ok(parts.len() - after.len());
                        }
                    }
                }
                _ => return Ok(parts.len() - rest.len()),
            }
        }
    }

    // The tokens that most statements are made of are told apart once. The code for a text that is known is short.
    #[inline(always)]
    fn token<T: NewLine>(&mut self, kind: Kind, text: &str, out: &mut T) -> Result<(), NoMemory>
        ensures { Lays result (with_token kind text.now) self.old (T.bytes out.old) self.new (T.bytes out.new) }
    {
        match kind {
            Kind::Integer => self.put_token(Kind::Integer, text, out),
            Kind::Identifier => self.put_token(Kind::Identifier, text, out),
            Kind::String => self.put_token(Kind::String, text, out),
            Kind::Operator if is_byte(text, b'=') => self.put_token(Kind::Operator, "=", out),
            Kind::Operator if is_byte(text, b':') => self.put_token(Kind::Operator, ":", out),
            _ => self.put_rarer(kind, text, out),
        }
    }

    #[inline(always)]
    fn open<T: NewLine>(&mut self, kind: GroupKind, out: &mut T) -> Result<(), NoMemory>
        requires { self.old.level + 1 < 2 ^ 64 }
        ensures { Lays result (opened kind) self.old (T.bytes out.old) self.new (T.bytes out.new) }
    {
        self.put_gap(is_group_without_space(kind), out)?;
        out.put_short(brackets(kind).0)?;
        push(&mut self.outer, self.here)?;
        let mark = self.marks.pop().unwrap_or(OpenBracket::top(None).mark);
        if mark.broken {
            self.level += 1;
        }
        self.here = OpenBracket {
            within: Some(kind),
            mark,
            later: false,
        };
        self.left = Edge::Start;
        Ok(())
    }

    #[inline(always)]
    fn close<T: NewLine>(&mut self, one_comma: bool, out: &mut T) -> Result<(), NoMemory>
        ensures { Lays result (closed_by one_comma) self.old (T.bytes out.old) self.new (T.bytes out.new) }
    {
        if self.here.mark.broken {
            self.level = self.level.saturating_sub(1);
            out.new_line(self.level)?;
        } else if one_comma {
            out.put_short(",")?;
        }
        if let Some(kind) = self.here.within {
            out.put_short(brackets(kind).1)?;
        }
        self.here = self.outer.pop().unwrap_or(OpenBracket::top(None));
        self.left = Edge::Operand;
        Ok(())
    }

    // A segment ends. One without nodes has not written the comma that is due.
    #[inline(always)]
    fn end<T: NewLine>(&mut self, out: &mut T) -> Result<(), NoMemory>
        ensures { Lays result ended self.old (T.bytes out.old) self.new (T.bytes out.new) }
    {
        if self.here.mark.broken {
            if self.here.mark.comma {
                out.put_short(",")?;
            }
        } else {
            if self.here.later && matches!(self.left, Edge::Start) {
                out.put_short(",")?;
            }
            self.here.later = true;
        }
        self.left = Edge::Start;
        Ok(())
    }

    #[inline(always)]
    fn put_part<T: NewLine>(&mut self, part: &Part<'_>, out: &mut T) -> Result<(), NoMemory>
        requires { self.old.level + 1 < 2 ^ 64 }
        ensures { Lays result (step (part_view part.now)) self.old (T.bytes out.old) self.new (T.bytes out.new) }
    {
        match *part {
            Part::Token(kind, text) => self.token(kind, text, out),
            Part::Open(kind) => self.open(kind, out),
            Part::Close(one_comma) => self.close(one_comma, out),
            Part::End => self.end(out),
            Part::Above(text) if self.here.mark.broken => put(Gap::Line(self.level), text, out),
            // In place no comment stands beside a segment, but at the top.
            Part::Beside(text) if self.here.mark.broken || self.here.within.is_none() => {
                put(Gap::Apart, text, out)
            }
            Part::Above(_) | Part::Beside(_) => Ok(()),
        }
    }

    // Writes a part, and where a segment may begin after it perhaps some more. Answers how many after it were written.
    #[inline(always)]
    fn step<T: NewLine>(
        &mut self,
        part: &Part<'_>,
        after: &[Part<'_>],
        out: &mut T,
    ) -> Result<usize, NoMemory>
        requires { self.old.level + 1 < 2 ^ 64 }
        ensures { LaysAlso result (step (part_view part.now)) (map part_view after.now)
            self.old (T.bytes out.old) self.new (T.bytes out.new) }
    {
        self.put_part(part, out)?;
        if self.begins_item() {
            self.segments(after, out)
        } else {
            Ok(0)
        }
    }

    // From the start: so there are no more levels than parts.
    pub(crate) fn run<T: NewLine>(
        &mut self,
        parts: &[Part<'_>],
        out: &mut T,
    ) -> Result<(), NoMemory>
        requires { self.old.level ≡ 0 }
        ensures { Lays result (run (map part_view parts.now)) self.old (T.bytes out.old) self.new (T.bytes out.new) }
    {
        let mut rest = parts;
        while let [part, after @ ..] = rest {
            let more = self.step(part, after, out)?;
            rest = &after[more..];
        }
        Ok(())
    }
}
