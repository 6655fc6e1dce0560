//! Laws on well-formed statements: what is parsed is well-formed, and stays so where it is read again.

ghost use Rattle.std.specs.Prelude.{◌≡◌, ℕ, List, false, IsSome};
ghost use Rattle.bz_token.specs.Places.{Placed};
ghost use Rattle.bz_token.specs.Reading.{AreTokensOf};
ghost use Rattle.bz_tree.specs.declared.tree.Class.TheVariants.{Block};
ghost use Rattle.bz_tree.specs.Chunk.{IsPlain, IsStatementIn};
ghost use Rattle.bz_tree.specs.Statement.{first_seen};
ghost use Rattle.bz_layout_laws.specs.Legible.{IsLegible, begins_block};
ghost use Rattle.bz_tree.specs.Tree.{Statement, items_of};
ghost use Rattle.bz_layout.specs.Layout.{layout_text};
ghost use Rattle.bz_layout_laws.specs.Spelled.{spelled_statement};
ghost use Rattle.bz_layout_laws.specs.Lineless.{lineless};
ghost use Rattle.bz_layout_laws.specs.WellFormed.{IsWellFormed};

/// By the grammar, no word that begins a block stands first in a well-formed statement, and no node makes one operator
/// with the `.`, prefix, star or index's colon that it stands after. So the statement is legible: what is said of
/// legible statements holds of it.
pub fn what_is_well_formed_is_legible()
    ensures legible { (depth : ℕ) (s : Statement) → IsWellFormed depth s → IsLegible s }
    ensures block { (depth : ℕ) (s : Statement) → IsWellFormed depth s → begins_block (items_of s.nodes) ≡ false }
{}

/// What is parsed and is no block is well-formed.
pub fn what_is_parsed_is_well_formed()
    ensures tokens { (first depth : ℕ) (bytes : List ℕ) (tokens : List Placed) (s : Statement)
        → AreTokensOf first depth bytes tokens → IsSome (first_seen tokens) → IsPlain tokens s
        → IsWellFormed depth s }
    ensures chunk { (first depth : ℕ) (bytes : List ℕ) (s : Statement) → IsStatementIn first depth bytes s
        → (s.class ≡ Block → ⊥) → IsWellFormed depth s }
{}

/// Whether a statement is well-formed does not hang on its lines and on the spelling of its strings. So what is read of
/// its text is well-formed again.
pub fn a_well_formed_statement_stays_so()
    ensures lines { (depth : ℕ) (s t : Statement) → lineless t ≡ lineless s → IsWellFormed depth s
        → IsWellFormed depth t }
    ensures spelled { (depth : ℕ) (s t : Statement) → lineless t ≡ lineless (spelled_statement s)
        → IsWellFormed depth s → IsWellFormed depth t }
    ensures again { (first depth : ℕ) (s t : Statement) → IsWellFormed depth s
        → IsStatementIn first depth (layout_text s) t → IsWellFormed depth t }
{}
