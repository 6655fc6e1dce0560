//! Laws on the text of a file: what is written of statements is read as them.

ghost use Rattle.std.specs.Prelude.{◌≡◌, ℕ, List, map, None, Option};
ghost use Rattle.std.specs.List.{AllByRecursion};
ghost use Rattle.bz_tree.specs.Tree.{Statement};
ghost use Rattle.bz_layout_laws.specs.Lineless.{lineless};
ghost use Rattle.bz_layout_laws.specs.Spelled.{spelled_statement};
ghost use Rattle.bz_engine.specs.Outcome.{slots_of, text_of};
ghost use Rattle.bz_engine.specs.declared.report.SyntaxFault.{SyntaxFault};
ghost use Rattle.bz_engine.specs.File.{IsFile};
ghost use Rattle.bz_laws.specs.Sound.{IsSound};

/// The text of sound statements has no fault, and is read as these statements, with their strings as they are spelled
/// and on whatever lines, and as no others; those are written as the same text.
pub fn a_text_is_read_again()
    ensures some { (depth : ℕ) (ss : List Statement) → AllByRecursion (IsSound depth) ss
        → (ts : List Statement) × IsFile depth (text_of ss) ts None
        × (map lineless ts ≡ map (λ s. lineless (spelled_statement s)) ss)
        × (text_of ts ≡ text_of ss) }
    ensures only { (depth : ℕ) (ss ts : List Statement) (fault : Option SyntaxFault) → AllByRecursion (IsSound depth) ss
        → IsFile depth (text_of ss) ts fault → (fault ≡ None)
        × (map lineless ts ≡ map (λ s. lineless (spelled_statement s)) ss)
        × (text_of ts ≡ text_of ss) }
{}
