//! Laws on tokens: what a text is read as is determined.

ghost use Rattle.std.specs.Prelude.{◌≡◌, ◌↔◌, ◌==◌, ◌∷◌, ◌++◌, ◌<◌, ◌⊎◌, length, [], ℕ, List, Option, Some, None, true, false, codes};
ghost use Rattle.std.specs.List.{list_any, concat};
ghost use Rattle.bz_token.specs.Ends.{stops, ends, is_comment_kind};
ghost use Rattle.bz_token.specs.Lexical.{is_text, IsToken};
ghost use Rattle.bz_token.specs.declared.token.Kind.{Kind};
ghost use Rattle.bz_token.specs.declared.token.Kind.TheVariants.{Operator};
ghost use Rattle.bz_token.specs.Places.{Placed, line_at};
ghost use Rattle.bz_token.specs.FreshStart.{AreLinesOf, AreTokensOfChunks, tokens_on_lines, fault_on_lines};
ghost use Rattle.bz_token.specs.Chunks.{chunks};
ghost use Rattle.bz_token.specs.Cuts.{EndsBefore, IsPart, IsBlock, IsLonger, first_line};
ghost use Rattle.bz_token.specs.Reading.{AreTokensOf};
ghost use Rattle.bz_token.specs.Faults.{IsFirstFault};
ghost use Rattle.bz_token.specs.UpToFault.{IsReadAs};
ghost use Rattle.bz_token.specs.declared.fault.LexFault.{LexFault};

/// A text has at most one list of tokens.
pub fn one_list_of_tokens()
    ensures { (first depth : ℕ) (bytes : List ℕ) (ts us : List Placed) → AreTokensOf first depth bytes ts
        → AreTokensOf first depth bytes us → ts ≡ us }
{}

/// A text has at most one first fault.
pub fn one_first_fault()
    ensures { (first depth : ℕ) (bytes : List ℕ) (f g : LexFault) → IsFirstFault first depth bytes f
        → IsFirstFault first depth bytes g → f ≡ g }
{}

/// A text has tokens or a first fault, and not both.
pub fn tokens_or_a_fault()
    ensures some { (first depth : ℕ) (bytes : List ℕ) → ((ts : List Placed) × AreTokensOf first depth bytes ts)
        ⊎ ((f : LexFault) × IsFirstFault first depth bytes f) }
    ensures not_both { (first depth : ℕ) (bytes : List ℕ) (ts : List Placed) (f : LexFault)
        → AreTokensOf first depth bytes ts → IsFirstFault first depth bytes f → ⊥ }
{}

/// A text is read in one way: as its tokens up to its first fault, and that fault, if it has one.
pub fn one_reading_up_to_a_fault()
    ensures some { (first depth : ℕ) (bytes : List ℕ) → (ts : List Placed) × (fault : Option LexFault)
        × IsReadAs first depth bytes ts fault }
    ensures only { (first depth : ℕ) (bytes : List ℕ) (ts us : List Placed) (f g : Option LexFault)
        → IsReadAs first depth bytes ts f → IsReadAs first depth bytes us g → (ts ≡ us) × (f ≡ g) }
    ensures whole { (first depth : ℕ) (bytes : List ℕ) (ts : List Placed)
        → (AreTokensOf first depth bytes ts ↔ IsReadAs first depth bytes ts None) }
    ensures fault { (first depth : ℕ) (bytes : List ℕ) (f : LexFault)
        → (IsFirstFault first depth bytes f ↔ ((ts : List Placed) × IsReadAs first depth bytes ts (Some f))) }
{}

/// What follows a text tells whether it is the token at its place.
pub fn what_ends_a_token()
    ensures ended { (kind : Kind) (text after : List ℕ) → is_text kind text ≡ true → ends kind text after ≡ true
        → IsToken kind text after }
    ensures exactly { (kind : Kind) (text after : List ℕ) → IsToken kind text after → ends kind text after ≡ true }
    ensures stopped { (kind : Kind) (text : List ℕ) (b : ℕ) (rest : List ℕ) → stops kind text b ≡ true
        → ends kind text (b ∷ rest) ≡ true }
    ensures some { (kind : Kind) → is_text kind [] ≡ true → ⊥ }
{}

/// Bytes that end the texts before them: newlines all texts, spaces and marks all but comments, and most bytes operators.
pub fn bytes_that_end_tokens()
    ensures newline { (kind : Kind) (text : List ℕ) → is_text kind text ≡ true → stops kind text 10 ≡ true }
    ensures space { (kind : Kind) (text : List ℕ) → is_text kind text ≡ true → is_comment_kind kind ≡ false
        → stops kind text 32 ≡ true }
    ensures mark { (kind : Kind) (text : List ℕ) (b : ℕ) → is_text kind text ≡ true → is_comment_kind kind ≡ false
        → list_any (λ c. b == c) (codes ".,:)]}") ≡ true → stops kind text b ≡ true }
    ensures operator { (text : List ℕ) (b : ℕ) → is_text Operator text ≡ true → list_any (λ c. b == c) (codes "/*<>=") ≡ false
        → stops Operator text b ≡ true }
{}

/// After a text that a newline outside brackets ends, reading starts afresh: what follows is read as it is as a text of
/// its own with its first line.
pub fn reading_starts_afresh()
    ensures joined { (first depth : ℕ) (a b : List ℕ) (ts us : List Placed) (fault : Option LexFault)
        → AreLinesOf first depth a ts → IsReadAs (line_at first a) depth b us fault
        → IsReadAs first depth (a ++ b) (ts ++ us) fault }
    ensures only { (first depth : ℕ) (a b : List ℕ) (ts vs : List Placed) (fault : Option LexFault)
        → AreLinesOf first depth a ts → IsReadAs first depth (a ++ b) vs fault
        → (us : List Placed) × IsReadAs (line_at first a) depth b us fault × (vs ≡ ts ++ us) }
{}

/// Chunks may be read one by one: where no chunk before has a fault, all have tokens, and what is left of a file is
/// read as it is as a text of its own with its first line; and a chunk that something follows ends with its newline.
pub fn chunks_start_afresh()
    ensures lines { (first depth : ℕ) (c : List ℕ) (b : ℕ) (rest : List ℕ) (ts : List Placed) → EndsBefore c (b ∷ rest)
        → 0 < length c → AreTokensOf first depth c ts → AreLinesOf first depth c ts }
    ensures some { (first depth : ℕ) (cs : List (List ℕ))
        → ((before after : List (List ℕ)) (c : List ℕ) (f : LexFault) → cs ≡ before ++ c ∷ after
        → IsFirstFault (line_at first (concat before)) depth c f → ⊥)
        → (ts : List Placed) × AreTokensOfChunks first depth cs ts }
    ensures whole { (first depth : ℕ) (cs : List (List ℕ)) (bytes : List ℕ) (ts : List Placed) → chunks bytes ≡ cs
        → AreTokensOfChunks first depth cs ts → AreTokensOf first depth bytes ts }
    ensures joined { (first depth : ℕ) (cs ds : List (List ℕ)) (d bytes rest : List ℕ) (ts us : List Placed)
        (fault : Option LexFault) → chunks bytes ≡ cs ++ d ∷ ds → AreTokensOfChunks first depth cs ts
        → bytes ≡ concat cs ++ rest
        → IsReadAs (line_at first (concat cs)) depth rest us fault → IsReadAs first depth bytes (ts ++ us) fault }
    ensures only { (first depth : ℕ) (cs ds : List (List ℕ)) (d bytes rest : List ℕ) (ts vs : List Placed)
        (fault : Option LexFault) → chunks bytes ≡ cs ++ d ∷ ds → AreTokensOfChunks first depth cs ts
        → bytes ≡ concat cs ++ rest
        → IsReadAs first depth bytes vs fault → (us : List Placed)
        × IsReadAs (line_at first (concat cs)) depth rest us fault × (vs ≡ ts ++ us) }
{}

/// Fresh start: where the chunks before have tokens, what a chunk is read as, by itself with its first line, is exactly
/// what the file is read as on the chunk's lines. A chunk's fault is the file's, after the tokens of the chunks before
/// and the chunk's own; the tokens of a chunk without a fault stand in the file after those of the chunks before.
pub fn fresh_start()
    ensures on_its_lines { (first depth : ℕ) (cs ds : List (List ℕ)) (d bytes : List ℕ) (ts us vs : List Placed)
        (f g : Option LexFault) → chunks bytes ≡ cs ++ d ∷ ds → AreTokensOfChunks first depth cs ts
        → IsReadAs first depth bytes vs g
        → (IsReadAs (line_at first (concat cs)) depth d us f ↔
        ((us ≡ tokens_on_lines (line_at first (concat cs)) d vs)
        × (f ≡ fault_on_lines (line_at first (concat cs)) d g))) }
    ensures fault { (first depth : ℕ) (cs ds : List (List ℕ)) (d bytes : List ℕ) (ts us : List Placed) (f : LexFault)
        → chunks bytes ≡ cs ++ d ∷ ds → AreTokensOfChunks first depth cs ts
        → IsReadAs (line_at first (concat cs)) depth d us (Some f) → IsReadAs first depth bytes (ts ++ us) (Some f) }
    ensures tokens { (first depth : ℕ) (cs ds : List (List ℕ)) (d bytes : List ℕ) (ts us vs : List Placed)
        (g : Option LexFault) → chunks bytes ≡ cs ++ d ∷ ds → AreTokensOfChunks first depth cs ts
        → IsReadAs (line_at first (concat cs)) depth d us None → IsReadAs first depth bytes vs g
        → (ws : List Placed) × (vs ≡ ts ++ (us ++ ws)) }
{}

/// Which lines a `Cutter` can read: what is a part of a chunk whatever follows is no block, so any line may come; and with
/// a block its next line goes on if what follows does. At the beginning of a chunk no byte was seen, which is such a part.
pub fn lines_that_may_come()
    ensures nothing { IsPart [] }
    ensures part { (bytes : List ℕ) → IsPart bytes → IsBlock bytes → ⊥ }
    ensures block { (bytes rest : List ℕ) → IsBlock bytes → IsLonger bytes rest → IsLonger bytes (first_line rest) }
{}
