//! Law on lines: the ways in which the groups of a statement may stand are read as the same statement.

ghost use Rattle.std.specs.Prelude.{◌≡◌, ℕ, false};
ghost use Rattle.bz_token.specs.Cuts.{IsChunk};
ghost use Rattle.bz_tree.specs.Chunk.{IsStatementIn};
ghost use Rattle.bz_tree.specs.Tree.{Statement, items_of};
ghost use Rattle.bz_layout.specs.Layout.{is_comment};
ghost use Rattle.bz_layout_laws.specs.FreeLayout.{Choice, Stand, spelled_by, text_by};
ghost use Rattle.bz_layout_laws.specs.Lineless.{lineless};
ghost use Rattle.bz_layout_laws.specs.WellFormed.{IsWellFormed};

/// Each group of a well-formed statement may stand on lines or in place, whatever the layout would choose; only one
/// with comments has to stand on lines. A string may stand as it is or as the layout spells it. The text is one chunk,
/// and is read as the statement with its strings as they stand.
pub fn lines_of_groups_are_free()
    ensures chunk { (depth : ℕ) (s : Statement) (c : Choice) → IsWellFormed depth s → Stand c (items_of s.nodes)
        → is_comment s.class ≡ false → IsChunk (text_by c s) }
    ensures some { (first depth : ℕ) (s : Statement) (c : Choice) → IsWellFormed depth s → Stand c (items_of s.nodes)
        → (t : Statement) × IsStatementIn first depth (text_by c s) t × (lineless t ≡ lineless (spelled_by c s)) }
{}
