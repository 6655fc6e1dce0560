//! Laws on the tokens of a file: to read each chunk by itself is to read the tokens of the whole file.

ghost use Rattle.std.specs.Prelude.{◌≡◌, ◌↔◌, ℕ, List, Option, None, Some};
ghost use Rattle.std.specs.Str.{IsUtf8, IsValidUpTo};
ghost use Rattle.bz_token.specs.Chunks.{chunks};
ghost use Rattle.bz_token.specs.declared.fault.LexFault.{LexFault};
ghost use Rattle.bz_token.specs.Faults.{IsFirstFault};
ghost use Rattle.bz_token.specs.Places.{Placed};
ghost use Rattle.bz_token.specs.Reading.{AreTokensOf};
ghost use Rattle.bz_token.specs.UpToFault.{IsReadAs};
ghost use Rattle.bz_tree.specs.declared.fault.ParseFault.TheVariants.{Lex};
ghost use Rattle.bz_tree.specs.Tree.{Statement};
ghost use Rattle.bz_engine.specs.declared.report.SyntaxFault.{SyntaxFault};
ghost use Rattle.bz_engine.specs.declared.report.SyntaxFault.TheVariants.{NotUtf8, Parse};
ghost use Rattle.bz_engine.specs.File.{not_utf8, IsFile};
ghost use Rattle.bz_laws.specs.WholeFile.{AreOnLines, AreStatementsOnLines, tokens_by_chunks};

/// A file without a fault is UTF-8 and has tokens, and its statements are those that stand on the lines of its chunks;
/// and a file of which this is so has no fault. The tokens of a file are those on the lines of its chunks, one chunk
/// after another.
pub fn a_file_is_read_by_its_tokens()
    ensures tokens { (depth : ℕ) (bytes : List ℕ) (statements : List Statement) → IsFile depth bytes statements None
        → IsUtf8 bytes
        × (tokens : List Placed) × AreTokensOf 1 depth bytes tokens × AreOnLines tokens 1 (chunks bytes) statements }
    ensures file { (depth : ℕ) (bytes : List ℕ) (statements : List Statement) (tokens : List Placed) → IsUtf8 bytes
        → AreTokensOf 1 depth bytes tokens → AreOnLines tokens 1 (chunks bytes) statements
        → IsFile depth bytes statements None }
    ensures each { (depth : ℕ) (bytes : List ℕ) (tokens : List Placed) → AreTokensOf 1 depth bytes tokens
        → tokens ≡ tokens_by_chunks tokens 1 (chunks bytes) }
{}

/// The statements of a file up to its first fault, and that fault, are what stands on the lines of its chunks, where it
/// is read as tokens up to its first lexical fault. A lexical fault is the first of the whole file, and a byte that
/// belongs to no UTF-8 is the first of the whole file.
pub fn a_file_is_read_up_to_its_fault()
    ensures tokens { (depth : ℕ) (bytes : List ℕ) (statements : List Statement) (fault : Option SyntaxFault)
        (tokens : List Placed) (lexical : Option LexFault) → IsReadAs 1 depth bytes tokens lexical
        → (IsFile depth bytes statements fault
        ↔ AreStatementsOnLines tokens lexical 1 (chunks bytes) statements fault) }
    ensures lexical { (depth : ℕ) (bytes : List ℕ) (statements : List Statement) (fault : LexFault)
        → IsFile depth bytes statements (Some (Parse (Lex fault))) → IsFirstFault 1 depth bytes fault }
    ensures byte { (depth : ℕ) (bytes : List ℕ) (statements : List Statement) (line col : ℕ)
        → IsFile depth bytes statements (Some (NotUtf8 line col))
        → (n : ℕ) × IsValidUpTo bytes n × (NotUtf8 line col ≡ not_utf8 1 n bytes) }
{}
