//! Where a comment line goes that is put above an argument.

ghost use Rattle.std.specs.Prelude.{◌≡◌, ◌==◌, ◌∷◌, ◌++◌, ℕ, List, IfSome, false};
ghost use Rattle.bz_tree.specs.Tree.{Statement};
ghost use Rattle.bz_layout.specs.Layout.{layout_text};
ghost use Rattle.bz_layout.specs.Pieces.{indent};
ghost use Rattle.bz_canonical.specs.Canonical.{HasPlace, between};
ghost use Rattle.bz_canonical.specs.Commented.{TakesComment};

use crate::chunk::without;
use crate::comments::after_comments;
use crate::front::after_line;
use crate::place::ArgumentPlace;

/// What is written of a rule before a comment line that is put above an argument, and after it.
#[derive(Clone, Copy)]
pub struct CommentPlace<'t> {
    pub above: &'t str,
    pub below: &'t str,
}

/// Where a comment line goes that is put above the argument of this place in what is written of a rule: it is the last
/// above it (`put_comment` of bz_engine asks). None: there is no argument.
pub fn comment_place<'t>(written: &'t str, place: ArgumentPlace<'_>) -> Option<CommentPlace<'t>>
    ensures { IfSome result (λ found. (depth : ℕ) (attr : List ℕ) (s : Statement)
        → layout_text s ≡ written.now
        → HasPlace depth attr s (between place.entry) → TakesComment attr s found.above.now found.below.now) }
{
    if place.lines.is_empty() {
        return None;
    }
    let (_, from) = written.split_at_checked(place.before.len())?;
    let line = after_comments(from.as_bytes(), 1).rest;
    let inner = after_begun_line(line)?;
    let above = without(written, inner.len())?;
    let start = written.len().checked_sub(line.len())?;
    let (_, below) = written.split_at_checked(start)?;
    Some(CommentPlace { above, below })
}

/// What follows the indent of the line here of a call, where no comment begins.
fn after_begun_line(text: &[u8]) -> Option<&[u8]>
    ensures { IfSome result (λ inner. (first : ℕ) × (rest : List ℕ)
        × (text.now ≡ 10 ∷ (indent 1 ++ inner.now))
        × (inner.now ≡ first ∷ rest) × ((first == 35) ≡ false)) }
{
    let inner = after_line(text, 1)?;
    match inner {
        [first, ..] if *first != b'#' => Some(inner),
        _ => None,
    }
}
