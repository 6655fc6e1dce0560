//! Laws on comments: none is lost, and what plays no part in whose they are.

ghost use Rattle.std.specs.Prelude.{◌≡◌, ℕ, List, ◌∷◌, map, true, false};
ghost use Rattle.bz_token.specs.Places.{Placed};
ghost use Rattle.bz_tree.specs.Tree.{Statement, Item};
ghost use Rattle.bz_tree.specs.Cells.{Entry, a_comment, inside_by_cells};
ghost use Rattle.bz_layout_laws.specs.Nodes.{entry_mapped, inside_mapped};
ghost use Rattle.bz_tree.specs.Statement.{IsStatementOf};
ghost use Rattle.bz_tree.specs.Comments.{owners_of, comments_of, comments_among, AreDealt, times};
ghost use Rattle.bz_token.specs.Reading.{AreTokensOf};
ghost use Rattle.bz_tree.specs.Blocks.{IsBlockOf};
ghost use Rattle.bz_layout_laws.specs.BlockComments.{AreKept};

/// The comments of the tokens, as they stand in the text, are dealt to the owners in the statement: none is lost, none
/// is there twice, and each owner has its comments in their order.
pub fn comments_in_order()
    ensures { (tokens : List Placed) (s : Statement) → IsStatementOf tokens s
        → AreDealt (comments_among tokens) (owners_of s) }
{}

/// No comment of the tokens is lost, and none is in the statement twice: each text is as often among the comments of
/// the one as of the other.
pub fn comments_kept()
    ensures { (tokens : List Placed) (s : Statement) (text : List ℕ) → IsStatementOf tokens s
        → times text (comments_of s) ≡ times text (comments_among tokens) }
{}

/// No comment of a block is lost, and none is there twice: those above its first token are the statement's, in their
/// order, and all others stand at their places in the text that is kept.
pub fn block_comments_kept()
    ensures { (first depth : ℕ) (bytes : List ℕ) (tokens : List Placed) (s : Statement)
        → AreTokensOf first depth bytes tokens → IsBlockOf first bytes tokens s → AreKept first bytes tokens s }
{}

/// Which comments are whose does not depend on what the nodes are.
pub fn nodes_play_no_part()
    ensures { (f : Item → Item) (entries : List Entry)
        → inside_by_cells (map (entry_mapped f) entries) ≡ inside_mapped f (inside_by_cells entries) }
{}

/// A comment that stands first in a bracket has the same owner whether or not it is on the line of the bracket.
pub fn first_line_plays_no_part()
    ensures { (text : List ℕ) (entries : List Entry)
        → inside_by_cells (a_comment true text ∷ entries) ≡ inside_by_cells (a_comment false text ∷ entries) }
{}
