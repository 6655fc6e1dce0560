//! Law on chunks: what is written of a statement is read as one chunk.

ghost use Rattle.std.specs.Prelude.{◌≡◌, ◌∷◌, ◌++◌, ℕ, List, [], true, false, codes};
ghost use Rattle.bz_token.specs.Chunks.{chunks};
ghost use Rattle.bz_token.specs.Cuts.{IsChunk};
ghost use Rattle.bz_tree.specs.Tree.{Statement, items_of};
ghost use Rattle.bz_layout.specs.Layout.{is_comment, layout_text};
ghost use Rattle.bz_layout_laws.specs.Legible.{IsLegible, begins_block};

/// The text of a legible statement that begins no block is one chunk, whatever follows it. That of comment lines alone
/// is one with the empty line after it, and by itself where the file ends with it.
pub fn a_text_is_a_chunk()
    ensures whole { (s : Statement) → IsLegible s → is_comment s.class ≡ false → begins_block (items_of s.nodes) ≡ false
        → IsChunk (layout_text s) }
    ensures blank { (s : Statement) → IsLegible s → is_comment s.class ≡ true → IsChunk (layout_text s ++ codes "\n") }
    ensures last { (s : Statement) (text : List ℕ) (texts : List (List ℕ)) → IsLegible s → is_comment s.class ≡ true
        → s.before ≡ text ∷ texts → chunks (layout_text s) ≡ layout_text s ∷ [] }
{}
