//! Laws of what commands and targets do not look at.

ghost use Rattle.std.specs.Prelude.{◌≡◌, List, Option, map, option_map};
ghost use Rattle.bz_tree.specs.Tree.{Segment, Statement};
ghost use Rattle.bz_rule.specs.Commands.{Command, after, done_of};
ghost use Rattle.bz_label.specs.Labels.{Package, Target};
ghost use Rattle.bz_attribute.specs.Effects.{with_args};
ghost use Rattle.bz_attribute.specs.Marks.{marks};
ghost use Rattle.bz_attribute.specs.Rules.{rule_of};
ghost use Rattle.bz_attribute.specs.Texts.{shown_text};
ghost use Rattle.bz_laws.specs.Aside.{IsAside, KeepsNames};

/// A command looks at no value but those of the arguments that it mentions and that of `name`: other arguments may be
/// changed before it or after it, and it tells the same.
pub fn others_do_not_count()
    ensures after { (command : Command) (home : Package) (slot : Option Statement) (g : Segment → Segment)
        → IsAside command g
        → after command home (option_map (with_args (map g)) slot)
        ≡ option_map (with_args (map g)) (after command home slot) }
    ensures done { (command : Command) (home : Package) (slot : Option Statement) (g : Segment → Segment)
        → IsAside command g
        → done_of command home (option_map (with_args (map g)) slot) ≡ done_of command home slot }
{}

/// A target looks at no value but that of `name`, and so does the text of a rule.
#[tactic(auto, using(crate::proofs::AsideTargets::marks_kept, crate::proofs::AsideTargets::shown_kept))]
pub fn targets_look_at_names()
    ensures marks { (target : Target) (s : Statement) (g : Segment → Segment) → KeepsNames g
        → marks target (with_args (map g) s) ≡ marks target s }
    ensures shown { (home : Package) (s : Statement) (g : Segment → Segment) → KeepsNames g
        → shown_text home (with_args (map g) s) ≡ shown_text home s }
{}

/// With other arguments a rule is a rule of the same kind, and what is none stays none.
#[tactic(auto, using(crate::proofs::Rebuilt::kinds_after))]
pub fn kinds_do_not_count_arguments()
    ensures { (f : List Segment → List Segment) (s : Statement)
        → option_map (λ r. r.kind) (rule_of (with_args f s).nodes) ≡ option_map (λ r. r.kind) (rule_of s.nodes) }
{}

/// Edits of arguments one after another are one edit, and one that leaves each list leaves the statement.
pub fn edits_of_arguments_compose()
    ensures twice { (f h : List Segment → List Segment) (s : Statement)
        → with_args f (with_args h s) ≡ with_args (λ args. f (h args)) s }
    ensures same { (f : List Segment → List Segment) → ((args : List Segment) → f args ≡ args)
        → (s : Statement) → with_args f s ≡ s }
{}
