//! Laws on files: what is written of a list of statements is cut and read as that list.

ghost use Rattle.std.specs.Prelude.{◌≡◌, ℕ, List, map, None};
ghost use Rattle.std.specs.List.{AllByRecursion};
ghost use Rattle.bz_layout_laws.specs.FileText.{text_from, chunks_from};
ghost use Rattle.bz_layout_laws.specs.Spelled.{spelled_statement};
ghost use Rattle.bz_layout_laws.specs.Lineless.{lineless};
ghost use Rattle.bz_tree.specs.Tree.{Statement};
ghost use Rattle.bz_layout_laws.specs.WellFormed.{IsWellFormed};
ghost use Rattle.bz_layout_laws.specs.KeptBlock.{IsKeptBlock};
ghost use Rattle.bz_layout_laws.specs.FileRead.{AreStatementsIn};
ghost use Rattle.bz_token.specs.Chunks.{chunks};
ghost use Rattle.bz_layout_laws.specs.ReadBack.{IsReadBack};

/// The text of a well-formed statement is read back wherever it stands in a file: no block goes on with it, it is a
/// chunk of its own or with the empty line after it, and it is read as the statement.
pub fn a_statement_is_read_back_in_a_file()
    ensures { (depth : ℕ) (s : Statement) → IsWellFormed depth s → IsReadBack depth s }
{}

/// The text of a block that was kept is read back wherever it stands in a file: no block goes on with it, it is a chunk
/// where the file ends and with the empty line after it, unless a block goes on with what follows, and it is read as
/// the block.
pub fn a_block_is_read_back_in_a_file()
    ensures { (depth : ℕ) (s : Statement) → IsKeptBlock depth s → IsReadBack depth s }
{}

/// The text of statements, each of which is read back, one after another with an empty line between some, has the
/// chunks of the statements and no others. These are read as the statements but for their lines, with their strings as
/// they are spelled, and as no others; and those are written as the same text.
pub fn a_file_is_read_again()
    ensures chunks { (depth : ℕ) (ss : List Statement) → AllByRecursion (IsReadBack depth) ss
        → chunks (text_from None ss) ≡ chunks_from ss }
    ensures some { (first depth : ℕ) (ss : List Statement) → AllByRecursion (IsReadBack depth) ss
        → (ts : List Statement) × AreStatementsIn first depth (chunks (text_from None ss)) ts
        × (map lineless ts ≡ map (λ s. lineless (spelled_statement s)) ss) }
    ensures only { (first depth : ℕ) (ss ts : List Statement) → AllByRecursion (IsReadBack depth) ss
        → AreStatementsIn first depth (chunks (text_from None ss)) ts
        → (map lineless ts ≡ map (λ s. lineless (spelled_statement s)) ss)
        × (text_from None ts ≡ text_from None ss) }
{}
