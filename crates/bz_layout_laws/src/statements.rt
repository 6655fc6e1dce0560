//! Laws on trees and statements: a list of tokens has one at most, and a chunk has an answer.

ghost use Rattle.std.specs.Prelude.{◌≡◌, ℕ, List};
ghost use Rattle.bz_token.specs.Places.{Placed};
ghost use Rattle.bz_tree.specs.Tree.{Statement};
ghost use Rattle.bz_tree.specs.Chunk.{IsChunkOf};
ghost use Rattle.bz_tree.specs.Statement.{IsStatementOf, class_of};
ghost use Rattle.bz_layout_laws.specs.Answers.{HasAnswer};

/// A list of tokens has one tree at most.
pub fn one_tree()
    ensures { (tokens : List Placed) (s t : Statement) → IsStatementOf tokens s → IsStatementOf tokens t → s ≡ t }
{}

/// A list of tokens of a chunk has one statement at most, blocks included.
pub fn one_statement()
    ensures { (first : ℕ) (bytes : List ℕ) (tokens : List Placed) (s t : Statement) → IsChunkOf first bytes tokens s
        → IsChunkOf first bytes tokens t → s ≡ t }
{}

/// The class of a statement is determined by its nodes.
pub fn class_by_nodes()
    ensures { (first : ℕ) (bytes : List ℕ) (tokens : List Placed) (s : Statement) → IsChunkOf first bytes tokens s
        → s.class ≡ class_of s.nodes }
{}

/// The bytes of a chunk are read as a statement, as nothing or as a first fault of their own, whatever they are.
pub fn a_chunk_has_an_answer()
    ensures { (first depth : ℕ) (bytes : List ℕ) → HasAnswer first depth bytes }
{}
