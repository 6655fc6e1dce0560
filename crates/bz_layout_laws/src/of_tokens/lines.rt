//! Laws on lines: how tokens cut a text, and on which line a token stands.

ghost use Rattle.std.specs.Prelude.{◌≡◌, ◌+◌, not, count_by, ◌++◌, ◌==◌, ◌∷◌, ℕ, List, true, false, []};
ghost use Rattle.std.specs.List.{list_any};
ghost use Rattle.bz_token.specs.Common.{is_newline};
ghost use Rattle.bz_token.specs.Places.{line_at, Placed};
ghost use Rattle.bz_token.specs.Brackets.{is_inside, is_line};
ghost use Rattle.bz_token.specs.Reading.{is_gap, Piece, IsReading, open_after, bytes_of, tokens_of, AreTokensOf};
ghost use Rattle.bz_token.specs.LogicalLines.{lines};
ghost use Rattle.bz_token.specs.FreshStart.{ends_in_line, AreLinesOf};
ghost use Rattle.bz_token.specs.TokenLines.{is_newline_piece, line_of, lines_of};

/// Where a text has tokens, its logical lines are these cut after each newline token, and a line is blank, comments
/// or a statement as it has no other token, comments alone, or another. After a text that a newline token ends,
/// whatever follows has the logical lines that it has as a text of its own.
pub fn newline_tokens_cut_lines()
    ensures reading { (depth : ℕ) (pieces : List Piece) (rest bytes : List ℕ) → IsReading depth [] pieces rest bytes
        → is_gap (is_inside (open_after [] pieces)) rest ≡ true → lines bytes ≡ lines_of pieces rest }
    ensures tokens { (first depth : ℕ) (bytes : List ℕ) (tokens : List Placed) → AreTokensOf first depth bytes tokens
        → (pieces : List Piece) × (rest : List ℕ) × (bytes ≡ bytes_of pieces ++ rest)
        × (tokens ≡ tokens_of first [] [] pieces) × (lines bytes ≡ lines_of pieces rest) }
    ensures joined { (first depth : ℕ) (a b : List ℕ) (tokens : List Placed) → AreLinesOf first depth a tokens
        → lines (a ++ b) ≡ lines a ++ lines b }
{}

/// Pieces that a newline token ends have their own lines, whatever pieces come after them; and they are one line
/// where no newline token stands before the last.
pub fn lines_of_pieces_join()
    ensures joined { (before after : List Piece) (rest : List ℕ) → ends_in_line before ≡ true
        → lines_of (before ++ after) rest ≡ lines_of before [] ++ lines_of after rest }
    ensures one { (before : List Piece) (last : Piece) → list_any is_newline_piece before ≡ false
        → is_line last.kind ≡ true → lines_of (before ++ last ∷ []) [] ≡ line_of (before ++ last ∷ []) [] ∷ [] }
{}

/// A token begins on the line on which what stands before it ends exactly where no newline stands in the gap
/// between. A text ends as many lines below its first as it has newlines.
pub fn a_gap_tells_the_line()
    ensures stays { (first : ℕ) (before gap : List ℕ)
        → (line_at first (before ++ gap) == line_at first before) ≡ not (list_any is_newline gap) }
    ensures ends { (first : ℕ) (before text : List ℕ)
        → line_at first (before ++ text) ≡ line_at first before + count_by (λ b. b == 10) text }
{}
