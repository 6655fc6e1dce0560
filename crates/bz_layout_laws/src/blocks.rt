//! Laws on blocks, which are kept as they stand: what their text is read as.

ghost use Rattle.std.specs.Prelude.{◌≡◌, ◌++◌, ℕ, List, replicate};
ghost use Rattle.bz_layout_laws.specs.BlockIn.{IsBlockIn};
ghost use Rattle.bz_layout_laws.specs.KeptBlock.{IsKeptBlock};
ghost use Rattle.bz_tree.specs.Tree.{Statement};
ghost use Rattle.bz_layout.specs.Layout.{layout_text};
ghost use Rattle.bz_layout_laws.specs.Lineless.{lineless};
ghost use Rattle.bz_layout_laws.specs.Spelled.{spelled_statement};
ghost use Rattle.bz_tree.specs.Chunk.{IsStatementIn};
ghost use Rattle.bz_layout_laws.specs.Legible.{AreComments};
ghost use Rattle.bz_tree.specs.declared.tree.Class.TheVariants.{Block};

/// A statement that was read and has the class of a block was read as a block: its first token is a word that begins
/// one.
pub fn a_block_is_known_by_its_class()
    ensures { (first depth : ℕ) (bytes : List ℕ) (s : Statement) → IsStatementIn first depth bytes s → s.class ≡ Block
        → IsBlockIn first depth bytes s }
{}

/// A block that was read is read again from its text, whatever comments are put above it and however many newlines
/// follow the text: as it is but for its lines, with these comments, and as nothing else.
pub fn a_block_is_read_again()
    ensures some { (first second depth newlines : ℕ) (bytes : List ℕ) (s : Statement) (comments : List (List ℕ))
        → IsBlockIn first depth bytes s → AreComments comments
        → (t : Statement)
        × IsStatementIn second depth (layout_text (record s { before = comments }) ++ replicate newlines 10) t
        × (lineless t ≡ lineless (record s { before = comments })) }
    ensures only { (first second depth newlines : ℕ) (bytes : List ℕ) (s t : Statement) (comments : List (List ℕ))
        → IsBlockIn first depth bytes s → AreComments comments
        → IsStatementIn second depth (layout_text (record s { before = comments }) ++ replicate newlines 10) t
        → (lineless t ≡ lineless (record s { before = comments }))
        × (layout_text t ≡ layout_text (record s { before = comments })) }
{}

/// Whether a statement is a kept block does not hang on its lines and on the spelling of strings. So what is read of a
/// kept block's text is a kept block again.
pub fn a_kept_block_stays_so()
    ensures lines { (depth : ℕ) (s t : Statement) → lineless t ≡ lineless s → IsKeptBlock depth s
        → IsKeptBlock depth t }
    ensures spelled { (depth : ℕ) (s t : Statement) → lineless t ≡ lineless (spelled_statement s)
        → IsKeptBlock depth s → IsKeptBlock depth t }
{}
