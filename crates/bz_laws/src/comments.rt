//! Laws on comments: which commands keep which, and that a run of commands that keep them loses none.

ghost use Rattle.std.specs.Prelude.{
  ◌≡◌,
  ◌≤◌,
  ◌++◌,
  ◌∷◌,
  if◌then◌else◌,
  ℕ,
  List,
  [],
  map,
  Bool,
  true,
  false,
  Option,
  option_map,
};
ghost use Rattle.bz_tree.specs.Tree.{Segment, Statement};
ghost use Rattle.bz_label.specs.Labels.{Package};
ghost use Rattle.bz_label.specs.declared.arguments.Attributes.{Attributes};
ghost use Rattle.bz_label.specs.declared.arguments.Chosen.{Chosen};
ghost use Rattle.bz_rule.specs.Add as add;
ghost use Rattle.bz_rule.specs.AddByValue.{new_elements, with_added};
ghost use Rattle.bz_attribute.specs.Effects as effects;
ghost use Rattle.bz_rule.specs.Rename as rename;
ghost use Rattle.bz_rule.specs.Replace as replace;
ghost use Rattle.bz_attribute.specs.Rules.{value};
ghost use Rattle.bz_rule.specs.Set as set;
ghost use Rattle.bz_rule.specs.OwnComments.{no_comments, own_comments};
ghost use Rattle.bz_tree.specs.Comments.{comments_of};
ghost use Rattle.bz_rule.specs.Commands.{after, Command, keeps_comments};
ghost use Rattle.bz_attribute.specs.Lists.{is_attribute, parts};
ghost use Rattle.bz_engine.specs.declared.report.SyntaxFault.{SyntaxFault};
ghost use Rattle.bz_engine.specs.Scripts.{AreCommands};
ghost use Rattle.bz_engine.specs.Outcome.{Run, Script, Told, IsOutcome, is_query};
ghost use Rattle.bz_engine.specs.File.{IsFile};
ghost use Rattle.bz_laws.specs.Comments.{script_keeps_comments};
ghost use Rattle.bz_laws.specs.Written.{HaveUtf8Words, left_by};

/// The commands that `keeps_comments` names leave all comments of a statement, in their order.
#[tactic(auto, using(crate::proofs::Commands::comments_after))]
pub fn comments_stay()
    ensures { (command : Command) (home : Package) (slot : Option Statement) → keeps_comments command ≡ true
        → option_map comments_of (after command home slot) ≡ option_map comments_of slot }
{}

/// Of the elements of an attribute, those that stay are as they were, comments included; one that is replaced keeps its
/// own comments.
#[tactic(auto, using(crate::proofs::Commands::Remove::left_elements, crate::proofs::Found::added_elements))]
pub fn elements_keep_comments()
    ensures remove { (home : Package) (chosen : Chosen) (a b : Segment) → is_attribute a ≡ true
        → effects.filtered (effects.unchosen home chosen) a ≡ b ∷ []
        → parts (value b) ≡ map (effects.unchosen home chosen) (parts (value a)) }
    ensures add { (home : Package) (values : List (List ℕ)) (a : Segment) (ss : List Segment)
        (lists : List (List Segment)) → is_attribute a ≡ true → parts (value a) ≡ ss ∷ lists
        → parts (value (with_added home values a)) ≡ (ss ++ new_elements home (ss ∷ lists) values)
        ∷ lists }
    ensures replace { (home : Package) (old new : List ℕ) (a : Segment) → is_attribute a ≡ true
        → parts (value (replace.replaced_in home old new a))
        ≡ map (map (replace.replaced home old new)) (parts (value a)) }
    ensures replaced { (home : Package) (old new : List ℕ) (s : Segment)
        → own_comments (replace.replaced home old new s) ≡ own_comments s }
{}

/// An argument that stays keeps its own comments, and a new one has none.
#[tactic(auto, using(crate::proofs::KeptComments::own_comments_stay))]
pub fn arguments_keep_comments()
    ensures add { (home : Package) (attr : List ℕ) (values : List (List ℕ)) (args : List Segment)
        → map own_comments (add.add home attr values args)
        ≡ map own_comments args ++ (if effects.has attr args then [] else no_comments ∷ []) }
    ensures set { (attr : List ℕ) (values : List (List ℕ)) (args : List Segment)
        → map own_comments (set.set attr values args) ≡ map own_comments args
        ++ (if effects.has attr args then [] else no_comments ∷ []) }
    ensures set_if_absent { (attr : List ℕ) (values : List (List ℕ)) (args : List Segment)
        → map own_comments (set.set_if_absent attr values args)
        ≡ map own_comments args ++ (if effects.has attr args then [] else no_comments ∷ []) }
    ensures rename { (old new : List ℕ) (args : List Segment)
        → map own_comments (rename.rename old new args) ≡ map own_comments args }
    ensures replace { (home : Package) (attrs : Attributes) (old new : List ℕ) (args : List Segment)
        → map own_comments (replace.replace home attrs old new args) ≡ map own_comments args }
    ensures remove { (home : Package) (chosen : Chosen) (a : Segment)
        → map own_comments (effects.filtered (effects.unchosen home chosen) a)
        ≡ (if effects.loses_all (effects.unchosen home chosen) (value a) then [] else own_comments a ∷ []) }
{}

/// Where each command of a script keeps comments, each statement has the comments afterwards that it had, in their
/// order. So has each statement that is read of what a run writes.
pub fn a_run_loses_no_comment()
    ensures left { (home : Package) (passes : Script) (ss : List Statement) → script_keeps_comments passes ≡ true
        → map comments_of (left_by home passes ss) ≡ map comments_of ss }
    ensures written { (run : Run) (file text : List ℕ) (told : Told) → AreCommands run.passes
        → HaveUtf8Words run.passes → is_query run.passes ≡ false → 2 ≤ run.max_depth
        → (outcome : IsOutcome run file text told) → script_keeps_comments run.passes ≡ true
        → (found : List Statement) (fault : Option SyntaxFault) → IsFile run.max_depth text found fault
        → map comments_of found ≡ map comments_of outcome.edited }
{}
