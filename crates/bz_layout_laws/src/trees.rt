//! Laws on trees: what the text of a statement is read as.

ghost use Rattle.std.specs.Prelude.{◌≡◌, ◌≤◌, ℕ, List, true, false, if◌then◌else◌, IsSome};
ghost use Rattle.bz_token.specs.Places.{Placed};
ghost use Rattle.bz_token.specs.Reading.{AreTokensOf};
ghost use Rattle.bz_tree.specs.declared.tree.kinds.Preceding.TheVariants.{Other};
ghost use Rattle.bz_tree.specs.Chunk.{IsPlain, IsStatementIn};
ghost use Rattle.bz_tree.specs.Grammar.{IsStatement};
ghost use Rattle.bz_tree.specs.Statement.{IsStatementOf, class_of, first_seen};
ghost use Rattle.bz_tree.specs.Elements.{rule_call};
ghost use Rattle.bz_tree.specs.Tree.{Statement, items_of, is_rule};
ghost use Rattle.bz_layout.specs.Layout.{layout_text};
ghost use Rattle.bz_layout_laws.specs.Legible.{IsLegible, depth_of};
ghost use Rattle.bz_layout_laws.specs.Parsed.{HaveKinds, IsParsed, plain_calls};
ghost use Rattle.bz_layout_laws.specs.Spelled.{spelled_statement};
ghost use Rattle.bz_layout_laws.specs.TextsOfKinds.{HasTexts};
ghost use Rattle.bz_layout_laws.specs.Lineless.{lineless};
ghost use Rattle.bz_layout_laws.specs.WellFormed.{IsWellFormed};

/// The text of a legible statement whose kinds are those that parsing gives is read back: its tokens have a tree, and
/// that is the tree of the statement with its strings as they are spelled; its lines alone are others. They have no
/// other tree, and it is written as the same text.
pub fn a_statement_reads_back()
    ensures some { (first depth : ℕ) (s : Statement) (tokens : List Placed) → IsLegible s → IsParsed s
        → depth_of s ≤ depth → AreTokensOf first depth (layout_text s) tokens
        → (t : Statement) × IsStatementOf tokens t × (lineless t ≡ lineless (spelled_statement s)) }
    ensures only { (first depth : ℕ) (s t : Statement) (tokens : List Placed) → IsLegible s → IsParsed s
        → depth_of s ≤ depth → AreTokensOf first depth (layout_text s) tokens → IsStatementOf tokens t
        → (lineless t ≡ lineless (spelled_statement s)) × (layout_text t ≡ layout_text s) }
{}

/// Whether nodes are in the grammar does not hang on the spelling of strings.
pub fn the_grammar_stays()
    ensures { (s t : Statement) → lineless t ≡ lineless (spelled_statement s) → IsStatement (items_of s.nodes)
        → IsStatement (items_of t.nodes) }
{}

/// So `bz_tree::parse` reads the text of a well-formed statement as the statement but for its lines, with its strings
/// as they are spelled, and as nothing else.
pub fn a_statement_is_parsed_again()
    ensures some { (first depth : ℕ) (s : Statement) → IsWellFormed depth s
        → (t : Statement) × IsStatementIn first depth (layout_text s) t
        × (lineless t ≡ lineless (spelled_statement s)) }
    ensures only { (first depth : ℕ) (s t : Statement) → IsWellFormed depth s
        → IsStatementIn first depth (layout_text s) t
        → (lineless t ≡ lineless (spelled_statement s)) × (layout_text t ≡ layout_text s) }
{}

/// What is read has the kinds and the class that `IsParsed` asks for.
pub fn what_is_read_has_its_kinds()
    ensures { (tokens : List Placed) (t : Statement) → IsStatementOf tokens t
        → HaveKinds true Other (items_of (plain_calls t.nodes))
        × (t.nodes ≡ (if is_rule (plain_calls t.nodes) then rule_call (plain_calls t.nodes) else plain_calls t.nodes))
        × (t.class ≡ class_of t.nodes) }
{}

/// So what is read of tokens of which one is no newline is `IsParsed`. Its tokens and comments are texts of their
/// kinds, no segment is empty, and its brackets are no deeper than the depth at which it is read.
pub fn what_is_read_can_be_written()
    ensures parsed { (tokens : List Placed) (t : Statement) → IsStatementOf tokens t → IsSome (first_seen tokens)
        → IsParsed t }
    ensures texts { (first depth : ℕ) (bytes : List ℕ) (tokens : List Placed) (t : Statement)
        → AreTokensOf first depth bytes tokens → IsStatementOf tokens t → HasTexts t }
    ensures depth { (first depth : ℕ) (bytes : List ℕ) (tokens : List Placed) (t : Statement)
        → AreTokensOf first depth bytes tokens → IsStatementOf tokens t → depth_of t ≤ depth }
{}

/// A statement that was parsed and is no block is parsed again from its text, as it is and as nothing else.
pub fn what_was_parsed_is_parsed_again()
    ensures some { (first second depth : ℕ) (bytes : List ℕ) (tokens : List Placed) (s : Statement)
        → AreTokensOf first depth bytes tokens → IsSome (first_seen tokens) → IsPlain tokens s
        → (t : Statement) × IsStatementIn second depth (layout_text s) t
        × (lineless t ≡ lineless (spelled_statement s)) }
    ensures only { (first second depth : ℕ) (bytes : List ℕ) (tokens : List Placed) (s t : Statement)
        → AreTokensOf first depth bytes tokens → IsSome (first_seen tokens) → IsPlain tokens s
        → IsStatementIn second depth (layout_text s) t
        → (lineless t ≡ lineless (spelled_statement s)) × (layout_text t ≡ layout_text s) }
{}
