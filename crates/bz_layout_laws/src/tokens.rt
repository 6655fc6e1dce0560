//! Laws on the tokens of a text that is written: they are those of the statement, and the text is read as them.

ghost use Rattle.std.specs.Prelude.{◌≡◌, ◌≤◌, ℕ, List, [], true};
ghost use Rattle.bz_token.specs.Places.{Placed};
ghost use Rattle.bz_token.specs.FreshStart.{AreLinesOf};
ghost use Rattle.bz_token.specs.Reading.{AreTokensOf, open_after, tokens_of};
ghost use Rattle.bz_layout_laws.specs.Readable.{are_texts, are_ended, are_fitting};
ghost use Rattle.bz_tree.specs.Tree.{Statement};
ghost use Rattle.bz_layout.specs.Layout.{layout, layout_text};
ghost use Rattle.bz_layout_laws.specs.Legible.{IsLegible, depth_of};
ghost use Rattle.bz_layout_laws.specs.Lexemes.{token_lexemes, lexemes_of};
ghost use Rattle.bz_layout_laws.specs.ReadPieces.{piece_lexemes, read_pieces};

/// The pieces of a statement's text, without gaps, are the lexemes of the statement.
pub fn pieces_are_the_lexemes()
    ensures { (s : Statement) → piece_lexemes (layout s) ≡ lexemes_of s }
{}

/// The pieces of a legible statement's text pass the tests by which pieces are what their bytes are read as, whatever
/// follows the text: each text is one of its kind and is ended by what follows it, each gap may stand where it stands,
/// and the brackets fit and are closed.
pub fn a_layout_can_be_read()
    ensures { (depth : ℕ) (s : Statement) (rest : List ℕ) → IsLegible s → depth_of s ≤ depth
        → (are_texts (read_pieces (layout s)) ≡ true) × (are_ended (read_pieces (layout s)) rest ≡ true)
        × (are_fitting depth [] (read_pieces (layout s)) ≡ true) × (open_after [] (read_pieces (layout s)) ≡ []) }
{}

/// So the text of a legible statement has tokens, the last of which is a newline that ends it, and these are the
/// lexemes of the statement and no others.
pub fn a_text_has_its_tokens()
    ensures some { (first depth : ℕ) (s : Statement) → IsLegible s → depth_of s ≤ depth
        → (tokens : List Placed) × AreLinesOf first depth (layout_text s) tokens
        × (token_lexemes tokens ≡ lexemes_of s) }
    ensures only { (first depth : ℕ) (s : Statement) (tokens : List Placed) → IsLegible s → depth_of s ≤ depth
        → AreTokensOf first depth (layout_text s) tokens → token_lexemes tokens ≡ lexemes_of s }
{}
