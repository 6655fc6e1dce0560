//! Law on UTF-8: what is written of texts that are UTF-8 is UTF-8, and what is read of it again has such texts.

ghost use Rattle.std.specs.Prelude.{◌≡◌, ℕ, List};
ghost use Rattle.std.specs.Str.{IsUtf8};
ghost use Rattle.bz_token.specs.Reading.{AreTokensOf};
ghost use Rattle.bz_token.specs.Places.{Placed};
ghost use Rattle.bz_tree.specs.Statement.{IsStatementOf};
ghost use Rattle.bz_tree.specs.Tree.{Statement};
ghost use Rattle.bz_layout.specs.Layout.{layout_text};
ghost use Rattle.bz_layout_laws.specs.BlockIn.{IsBlockIn};
ghost use Rattle.bz_layout_laws.specs.EachText.{HasUtf8};

/// The text of a statement is UTF-8 where each of its tokens and comments is; and of a text that is UTF-8 a statement
/// or a block is read whose tokens and comments are.
pub fn utf8_stays()
    ensures written { (s : Statement) → HasUtf8 s → IsUtf8 (layout_text s) }
    ensures read { (first depth : ℕ) (bytes : List ℕ) (tokens : List Placed) (s : Statement) → IsUtf8 bytes
        → AreTokensOf first depth bytes tokens → IsStatementOf tokens s → HasUtf8 s }
    ensures block { (first depth : ℕ) (bytes : List ℕ) (s : Statement) → IsUtf8 bytes → IsBlockIn first depth bytes s
        → HasUtf8 s }
{}
