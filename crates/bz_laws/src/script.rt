//! Law on scripts: what the laws on runs ask of a script, each has.

ghost use Rattle.std.specs.Prelude.{◌≡◌, true};
ghost use Rattle.std.specs.List.{list_all};
ghost use Rattle.std.specs.Str.{is_utf8};
ghost use Rattle.bz_rule.specs.Commands.{is_command, command_passes};
ghost use Rattle.bz_engine.specs.Scripts.{AreCommands};
ghost use Rattle.bz_laws.specs.Written.{HaveUtf8Words};

use bz_passes::pass::Pass;
use bz_rule::{Command, Target};

/// The commands of each script are ones that can be read, and their words, but for those of `print`, are UTF-8. The
/// body looks at each command, since of that the prover knows it; it does nothing else.
pub fn scripts_are_of_commands(passes: &[Pass<Target, Command>])
    ensures commands { AreCommands passes.now }
    ensures words { HaveUtf8Words passes.now }
{
    for pass in passes {
        are_commands(pass.commands.as_slice());
    }
}

fn are_commands(commands: &[Command])
    ensures commands { list_all is_command commands.now ≡ true }
    ensures words { list_all (command_passes is_utf8) commands.now ≡ true }
{
    for command in commands {
        command.is_read();
    }
}
