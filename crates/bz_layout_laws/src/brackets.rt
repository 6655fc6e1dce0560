//! Laws on brackets and statements: what stands in them is written in the form from which it is read back.

ghost use Rattle.std.specs.Prelude.{◌≡◌, ◌++◌, ◌∷◌, ◌&&◌, ◌==◌, ℕ, List, Bool, [], length, true, false};
ghost use Rattle.bz_token.specs.declared.token.Kind.TheVariants.{Operator};
ghost use Rattle.bz_tree.specs.declared.tree.GroupKind.{GroupKind};
ghost use Rattle.bz_tree.specs.Brackets.{is_paren};
ghost use Rattle.bz_tree.specs.Tree.{Segs, Statement, group, segments};
ghost use Rattle.bz_layout_laws.specs.Written.{written_entries};
ghost use Rattle.bz_layout.specs.Layout.{is_comment};
ghost use Rattle.bz_layout.specs.Walked.{opening, closing};
ghost use Rattle.bz_layout_laws.specs.Inside.{HasShape, entries_lexemes, has_last_comma, own_segment, without_newlines};
ghost use Rattle.bz_layout_laws.specs.Lexemes.{lexeme, item_lexemes, lexemes_of};
ghost use Rattle.bz_layout_laws.specs.Legible.{IsLegible};
ghost use Rattle.bz_token.specs.Common.{is_filled};

/// What stands in a bracket is written, broken over lines or not, as `group_read_back` asks for it; and
/// what that law reads of the comma after the last segment is what the group says of it.
pub fn brackets_are_written_to_be_read()
    ensures inside { (kind : GroupKind) (segs : Segs) (one_comma : Bool) (end : List (List ℕ))
        → HasShape kind segs one_comma → item_lexemes (group kind segs one_comma end)
        ≡ lexeme Operator (opening kind)
        ∷ (entries_lexemes (written_entries (has_last_comma kind segs one_comma end) (segments segs) end)
        ++ lexeme Operator (closing kind) ∷ []) }
    ensures comma { (kind : GroupKind) (segs : Segs) (one_comma : Bool) (end : List (List ℕ))
        → HasShape kind segs one_comma → (is_paren kind && (length (segments segs) == 1)
        && (has_last_comma kind segs one_comma end && is_filled (segments segs))) ≡ one_comma }
{}

/// So is what stands outside brackets: the comments above a statement, its nodes and the comment beside them, as
/// `statement_read_back` asks for it, and comment lines alone as `comment_lines_read_back` does.
pub fn statements_are_written_to_be_read()
    ensures statement { (s : Statement) → IsLegible s → is_comment s.class ≡ false
        → without_newlines (lexemes_of s) ≡ entries_lexemes (written_entries false (own_segment s ∷ []) []) }
    ensures comments { (s : Statement) → is_comment s.class ≡ true
        → without_newlines (lexemes_of s) ≡ entries_lexemes (written_entries false [] s.before) }
{}
