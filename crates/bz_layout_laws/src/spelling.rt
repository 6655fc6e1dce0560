//! Laws on the spelling of tokens: strings alone are spelled anew, and what they are stays.

ghost use Rattle.std.specs.Prelude.{◌≡◌, ◌==◌, ℕ, List, count_by, true, false};
ghost use Rattle.bz_token.specs.declared.token.Kind.{Kind};
ghost use Rattle.bz_token.specs.Lexical.{is_text, is_string_kind};
ghost use Rattle.bz_label.specs.Literals.{value_at};
ghost use Rattle.bz_tree.specs.Tree.{Statement};
ghost use Rattle.bz_layout.specs.Respell.{respell};
ghost use Rattle.bz_layout.specs.Layout.{layout, layout_text};
ghost use Rattle.bz_layout_laws.specs.Spelled.{spelled_statement};
ghost use Rattle.bz_layout_laws.specs.Lineless.{lineless};

/// A token that is spelled anew is one of its kind, as many lines high; spelling it once more changes nothing.
pub fn spelling_keeps_tokens()
    ensures text { (kind : Kind) (text : List ℕ) → is_text kind text ≡ true → is_text kind (respell kind text) ≡ true }
    ensures once { (kind : Kind) (text : List ℕ) → respell kind (respell kind text) ≡ respell kind text }
    ensures lines { (kind : Kind) (text : List ℕ)
        → count_by (λ b. b == 10) (respell kind text) ≡ count_by (λ b. b == 10) text }
    ensures others { (kind : Kind) (text : List ℕ) → is_string_kind kind ≡ false → respell kind text ≡ text }
{}

/// A string that is spelled anew has the value that it had, or none as before.
pub fn spelling_keeps_values()
    ensures { (kind : Kind) (text : List ℕ) → value_at kind (respell kind text) ≡ value_at kind text }
{}

/// A statement whose strings are spelled as they are written is written as before. So whoever reads back what was
/// written, strings as they are spelled there and on whatever lines, writes the same text again.
pub fn what_is_read_is_written_again()
    ensures pieces { (s : Statement) → layout (spelled_statement s) ≡ layout s }
    ensures text { (s t : Statement) → lineless t ≡ lineless (spelled_statement s) → layout_text t ≡ layout_text s }
{}
