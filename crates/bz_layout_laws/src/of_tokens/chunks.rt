//! Laws on chunks: which lines are one, whatever follows.

ghost use Rattle.std.specs.Prelude.{◌≡◌, ◌++◌, ◌∷◌, ℕ, List, None, true, false, [], map};
ghost use Rattle.std.specs.List.{flat_map};
ghost use Rattle.bz_token.specs.declared.token.Kind.{Kind};
ghost use Rattle.bz_token.specs.Lexical.{IsToken};
ghost use Rattle.bz_token.specs.Places.{Placed};
ghost use Rattle.bz_token.specs.Brackets.{is_line};
ghost use Rattle.bz_token.specs.LogicalLines.{Line, lines};
ghost use Rattle.bz_token.specs.Blocks.{opener_of, opener};
ghost use Rattle.bz_token.specs.Chunks.{text_of, chunks};
ghost use Rattle.bz_token.specs.Cuts.{IsChunk};
ghost use Rattle.bz_token.specs.FreshStart.{AreLinesOf};
ghost use Rattle.bz_token.specs.ChunkForms.{are_comments, ends_chunk, are_forms};

/// The chunks of a file are its logical lines in groups. A group is comment lines, if any, and then a blank line, or a
/// statement line with the lines of its block, if it begins one; or, as the last of the file, comment lines alone.
pub fn chunks_have_forms()
    ensures { (bytes : List ℕ) → (groups : List (List Line)) × (flat_map (λ group. group) groups ≡ lines bytes)
        × (chunks bytes ≡ map text_of groups) × (are_forms groups ≡ true) }
{}

/// Comment lines, if any, and after them a blank line or the line of a statement that begins no block are a chunk,
/// whatever follows. Comment lines alone are one where the file ends.
pub fn a_statement_is_a_chunk()
    ensures whole { (first depth : ℕ) (chunk : List ℕ) (tokens : List Placed) (comments : List Line) (last : Line)
        → AreLinesOf first depth chunk tokens → lines chunk ≡ comments ++ last ∷ [] → are_comments comments ≡ true
        → ends_chunk last ≡ true → IsChunk chunk }
    ensures last { (chunk : List ℕ) (l : Line) (ls : List Line) → lines chunk ≡ l ∷ ls → are_comments (l ∷ ls) ≡ true
        → chunks chunk ≡ chunk ∷ [] }
{}

/// A line that begins with a token other than a block's word begins no block.
pub fn the_first_token_tells_a_block()
    ensures { (kind : Kind) (text after : List ℕ) → IsToken kind text after → is_line kind ≡ false
        → opener_of text ≡ None → opener (text ++ after) ≡ None }
{}
