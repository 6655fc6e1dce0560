//! Laws on texts: those that commands leave are UTF-8.

ghost use Rattle.std.specs.Prelude.{◌≡◌, Some, true};
ghost use Rattle.std.specs.Str.{is_utf8};
ghost use Rattle.bz_tree.specs.Tree.{Statement};
ghost use Rattle.bz_layout_laws.specs.EachText.{HasUtf8};
ghost use Rattle.bz_rule.specs.Commands.{Command, command_passes, after};
ghost use Rattle.bz_label.specs.Labels.{Package};

/// What a command leaves of a statement whose tokens and comments are UTF-8 has such, if its words, but for those of
/// `print`, are UTF-8.
#[tactic(auto, using(crate::proofs::Utf8Commands::commands_utf8))]
pub fn commands_keep_utf8()
    ensures { (c : Command) (home : Package) (s t : Statement) → command_passes is_utf8 c ≡ true
        → after c home (Some s) ≡ Some t → HasUtf8 s → HasUtf8 t }
{}
