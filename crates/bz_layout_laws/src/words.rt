//! Law on tokens: none is lost in reading.

ghost use Rattle.std.specs.Prelude.{◌≡◌, List};
ghost use Rattle.bz_token.specs.Places.{Placed};
ghost use Rattle.bz_tree.specs.Tree.{Statement};
ghost use Rattle.bz_tree.specs.Statement.{IsStatementOf};
ghost use Rattle.bz_layout_laws.specs.Words.{words_of, words_among};

/// The leaves and brackets of a statement are the tokens that it was read of, in their order, but for commas, comments
/// and newlines: none is lost, none is made, none changes its place. So a walk over both gives each leaf its token,
/// with its line and column.
pub fn no_token_is_lost()
    ensures { (tokens : List Placed) (s : Statement) → IsStatementOf tokens s → words_of s ≡ words_among tokens }
{}
