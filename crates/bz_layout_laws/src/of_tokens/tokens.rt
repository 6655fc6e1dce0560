//! Laws on pieces, gaps and tokens in turn: when they are what their bytes are read as.

ghost use Rattle.std.specs.Prelude.{◌≡◌, ◌≤◌, ◌++◌, ◌&&◌, ◌==◌, ◌∷◌, ℕ, List, true, false, [], codes};
ghost use Rattle.std.specs.List.{list_all, list_any};
ghost use Rattle.bz_token.specs.declared.token.Kind.{Kind};
ghost use Rattle.bz_token.specs.declared.token.Kind.TheVariants.{Operator};
ghost use Rattle.bz_token.specs.Strings.{is_quote};
ghost use Rattle.bz_token.specs.Lexical.{is_word_byte, is_text};
ghost use Rattle.bz_token.specs.Places.{Placed};
ghost use Rattle.bz_token.specs.Ends.{stops, stops_at, ends, is_comment_kind};
ghost use Rattle.bz_token.specs.Reading.{is_gap, Piece, IsReading, open_after, bytes_of, tokens_of, AreTokensOf};
ghost use Rattle.bz_token.specs.FreshStart.{ends_in_line, AreLinesOf};
ghost use Rattle.bz_layout_laws.specs.Readable.{are_texts, are_ended, are_fitting};

/// Pieces are what their bytes are read as where each text is one of its kind and is ended by what follows it, each
/// gap may stand where it stands, and the brackets fit. All pieces that bytes are read as are such.
pub fn pieces_make_a_reading()
    ensures tokens { (first depth : ℕ) (pieces : List Piece) (rest : List ℕ) → are_texts pieces ≡ true
        → are_ended pieces rest ≡ true → are_fitting depth [] pieces ≡ true → open_after [] pieces ≡ []
        → is_gap false rest ≡ true → AreTokensOf first depth (bytes_of pieces ++ rest) (tokens_of first [] [] pieces) }
    ensures lines { (first depth : ℕ) (pieces : List Piece) → are_texts pieces ≡ true → are_ended pieces [] ≡ true
        → are_fitting depth [] pieces ≡ true → open_after [] pieces ≡ [] → ends_in_line pieces ≡ true
        → AreLinesOf first depth (bytes_of pieces) (tokens_of first [] [] pieces) }
    ensures reading { (depth : ℕ) (opened : List ℕ) (pieces : List Piece) (rest : List ℕ) → are_texts pieces ≡ true
        → are_ended pieces rest ≡ true → are_fitting depth opened pieces ≡ true
        → IsReading depth opened pieces rest (bytes_of pieces ++ rest) }
    ensures exactly { (depth : ℕ) (opened : List ℕ) (pieces : List Piece) (rest bytes : List ℕ)
        → IsReading depth opened pieces rest bytes → (bytes ≡ bytes_of pieces ++ rest) × (are_texts pieces ≡ true)
        × (are_ended pieces rest ≡ true) × (are_fitting depth opened pieces ≡ true) }
{}

/// The tests of `pieces_make_a_reading` hold of pieces and of pieces after them together where they hold of both,
/// each at its place. A text that the next byte stops is ended.
pub fn pieces_may_be_joined()
    ensures bytes { (before after : List Piece) → bytes_of (before ++ after) ≡ bytes_of before ++ bytes_of after }
    ensures texts { (before after : List Piece) → are_texts (before ++ after) ≡ (are_texts before && are_texts after) }
    ensures ended { (before after : List Piece) (rest : List ℕ)
        → are_ended (before ++ after) rest ≡ (are_ended before (bytes_of after ++ rest) && are_ended after rest) }
    ensures fitting { (depth : ℕ) (opened : List ℕ) (before after : List Piece)
        → are_fitting depth opened (before ++ after)
        ≡ (are_fitting depth opened before && are_fitting depth (open_after opened before) after) }
    ensures open { (opened : List ℕ) (before after : List Piece)
        → open_after opened (before ++ after) ≡ open_after (open_after opened before) after }
    ensures stopped { (kind : Kind) (text after : List ℕ) → stops_at kind text after ≡ true
        → ends kind text after ≡ true }
{}

/// Which tokens may stand close: an opening bracket ends all texts but comments, and so does every byte that is no
/// letter, digit, underscore or quote and stands second in no operator. Only operators begin with a byte that may
/// lengthen an operator. Brackets, commas, semicolons, points, colons and tildes are lengthened by nothing.
pub fn tokens_may_stand_close()
    ensures opening { (kind : Kind) (text : List ℕ) (b : ℕ) → is_text kind text ≡ true → is_comment_kind kind ≡ false
        → list_any (λ c. b == c) (codes "([{") ≡ true → stops kind text b ≡ true }
    ensures plain { (kind : Kind) (text : List ℕ) (b : ℕ) → is_text kind text ≡ true → is_comment_kind kind ≡ false
        → is_word_byte b ≡ false → is_quote b ≡ false → list_any (λ c. b == c) (codes "/*<>=") ≡ false
        → stops kind text b ≡ true }
    ensures first { (kind : Kind) (b : ℕ) (bs : List ℕ) → is_text kind (b ∷ bs) ≡ true
        → list_any (λ c. b == c) (codes "/*<>=") ≡ true → kind ≡ Operator }
    ensures alone { (m b : ℕ) → list_any (λ c. m == c) (codes "()[]{},;.:~") ≡ true → stops Operator (m ∷ []) b ≡ true }
{}

/// Each token is a text of its kind. A text has the same tokens where more brackets may be open.
pub fn tokens_at_any_depth()
    ensures texts { (first depth : ℕ) (bytes : List ℕ) (tokens : List Placed) → AreTokensOf first depth bytes tokens
        → list_all (λ t. is_text t.kind t.text) tokens ≡ true }
    ensures deeper { (first depth deeper : ℕ) (bytes : List ℕ) (tokens : List Placed) → depth ≤ deeper
        → AreTokensOf first depth bytes tokens → AreTokensOf first deeper bytes tokens }
{}
