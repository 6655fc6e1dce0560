//! Laws of the layout: a call of each is its proof.

ghost use Rattle.std.specs.Prelude.{◌≡◌};
ghost use Rattle.bz_tree.specs.Tree.{Statement};
ghost use Rattle.bz_layout.specs.Layout.{layout, layout_text};
ghost use Rattle.bz_layout.specs.Lines.{lines_text, lines_of};

/// The text of a statement is its lines: each with four spaces a level before it and a newline after it.
#[tactic(auto, using(crate::proofs::Lines::text_is_lines))]
pub fn text_is_its_lines()
    ensures { (s : Statement) → layout_text s ≡ lines_text (lines_of (layout s)) }
{}
