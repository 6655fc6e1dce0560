//! Law on the tokens of a file and of its layout: they are the same but for commas and quotes.

ghost use Rattle.std.specs.Prelude.{◌≡◌, ℕ, List, None, map};
ghost use Rattle.bz_token.specs.Places.{Placed};
ghost use Rattle.bz_token.specs.Reading.{AreTokensOf};
ghost use Rattle.bz_tree.specs.Tree.{Statement};
ghost use Rattle.bz_layout_laws.specs.Words.{words_among};
ghost use Rattle.bz_engine.specs.File.{IsFile};
ghost use Rattle.bz_engine.specs.Outcome.{text_of};
ghost use Rattle.bz_laws.specs.Words.{words_of_all, respelled, HasNoBlock};

/// The words of a file without blocks, its tokens but for commas, comments and newlines, are those of its statements,
/// in their order. The words of its layout are the same, with the quotes that the layout gives them.
pub fn a_layout_has_the_words_of_its_file()
    ensures file { (depth : ℕ) (bytes : List ℕ) (ss : List Statement) (tokens : List Placed)
        → IsFile depth bytes ss None
        → HasNoBlock ss → AreTokensOf 1 depth bytes tokens → words_among tokens ≡ words_of_all ss }
    ensures layout { (depth : ℕ) (bytes : List ℕ) (ss : List Statement) (tokens written : List Placed)
        → IsFile depth bytes ss None → HasNoBlock ss → AreTokensOf 1 depth bytes tokens
        → AreTokensOf 1 depth (text_of ss) written → words_among written ≡ map respelled (words_among tokens) }
{}
