//! Law on lines: where a statement stood when it was read plays no part.

ghost use Rattle.std.specs.Prelude.{◌≡◌};
ghost use Rattle.bz_tree.specs.Tree.{Statement};
ghost use Rattle.bz_layout.specs.Layout.{layout, layout_text};
ghost use Rattle.bz_layout_laws.specs.Lineless.{lineless};

/// A statement is written as it is without its lines. So statements that differ in these alone have one text.
pub fn lines_play_no_part()
    ensures pieces { (s : Statement) → layout (lineless s) ≡ layout s }
    ensures text { (s t : Statement) → lineless s ≡ lineless t → layout_text s ≡ layout_text t }
{}
