//! One walk backwards over the parts of a statement, ahead of the writing: a mark for each bracket. Backwards a bracket's
//! end comes first, so what decides on it is known where it opens.

ghost use Rattle.std.specs.Prelude.{◌≡◌, IfOk, OnOk, map, reverse};
ghost use Rattle.bz_tree.specs.Rows.{part_view};
ghost use Rattle.bz_layout.specs.private.RowLayout.{closed, opened_back, back, scan, scanned};

use crate::broken::breaks_by_count;
use crate::walk::FIRST_DEPTH;
use crate::write::has_commas;
use bumpalo::Bump;
use bz_memory::{NoMemory, push, with_capacity};
use bz_tree::{GroupKind, Part};

/// How a bracket is written.
#[derive(Clone, Copy)]
pub(crate) struct BracketForm {
    pub(crate) broken: bool,
    // If it is broken, a comma stands after each segment.
    pub(crate) comma: bool,
}

// Few statements have more brackets.
const FIRST_CAPACITY: usize = 16;

// What stands in a bracket, or at the top, after a part.
#[derive(Clone, Copy)]
pub(crate) struct Contents {
    one_comma: bool,
    // It has comments.
    comments: bool,
    // A segment of it holds a broken bracket.
    holds: bool,
    // The number of its segments, at most 2.
    segs: u8,
}

#[derive(Drop)]
pub(crate) struct Marks<'b> {
    // The last is that of the first bracket.
    pub(crate) marks: Vec<BracketForm, &'b Bump>,
    pub(crate) here: Contents,
    pub(crate) outer: Vec<Contents, &'b Bump>,
}

impl Contents {
    #[inline(always)]
    fn closed(one_comma: bool) -> Contents
        ensures { result ≡ closed one_comma }
    {
        Contents {
            one_comma,
            comments: false,
            holds: false,
            segs: 0,
        }
    }
}

impl<'b> Marks<'b> {
    // A bracket opens, with all that stands in it after it.
    fn open(&mut self, kind: GroupKind) -> Result<(), NoMemory>
        ensures { OnOk result (scanned self.new ≡ opened_back kind (scanned self.old)) }
    {
        let segs = usize::from(self.here.segs);
        let mark = BracketForm {
            broken: self.here.comments
                || breaks_by_count(kind, segs)
                || segs >= 2 && self.here.holds,
            comma: has_commas(kind, self.here.one_comma, segs),
        };
        let holds = mark.broken || self.here.holds;
        push(&mut self.marks, mark)?;
        self.here = self.outer.pop().unwrap_or(Contents::closed(false));
        self.here.holds = holds || self.here.holds;
        Ok(())
    }

    #[inline(always)]
    fn step(&mut self, part: &Part<'_>) -> Result<(), NoMemory>
        ensures { OnOk result (scanned self.new ≡ back (part_view part.now) (scanned self.old)) }
    {
        match *part {
            Part::Token(_, _) => {}
            Part::Open(kind) => self.open(kind)?,
            Part::Close(one_comma) => {
                push(&mut self.outer, self.here)?;
                self.here = Contents::closed(one_comma);
            }
            Part::End if self.here.segs < 2 => self.here.segs += 1,
            Part::End => {}
            Part::Above(_) | Part::Beside(_) => self.here.comments = true,
        }
        Ok(())
    }
}

// The marks of all brackets, that of the first one last.
pub(crate) fn marks_of<'b>(
    bump: &'b Bump,
    parts: &[Part<'_>],
) -> Result<Vec<BracketForm, &'b Bump>, NoMemory>
    ensures { IfOk result (λ ms. reverse ms.items ≡ (scan (map part_view parts.now)).marks) }
{
    let mut walk = Marks {
        marks: with_capacity(bump, FIRST_CAPACITY)?,
        here: Contents::closed(false),
        outer: with_capacity(bump, FIRST_DEPTH)?,
    };
    let mut i = parts.len();
    while i > 0 {
        i -= 1;
        // Most parts are tokens, which leave all as it is.
        if !matches!(parts[i], Part::Token(_, _)) {
            walk.step(&parts[i])?;
        }
    }
    let Marks { marks, .. } = walk;
    Ok(marks)
}
