//! Scripts and options as tables write them.

ghost use Rattle.std.specs.Prelude.{◌≤◌, ◌^◌};

use bz_engine::{Options, Pass};
use bz_rule::{Command, Package, Target, read_command, read_label};
use std::alloc::Global;
use std::test::Fail;

/// The package and the passes of a script: groups apart by ` ; `, whose commands and labels stand apart by ` ! `. The
/// labels are all of one package.
pub fn read_script(
    alloc: Global,
    script: &str,
) -> Result<(Package, Vec<Pass<Target, Command>>), Fail> {
    let (mut home, _) = read_label(alloc, "-:*")?;
    let mut passes = Vec::new(alloc);
    for group in script.split(" ; ") {
        for word in group.split(" ! ") {
            if read_command(alloc, word)?.is_none() {
                let (package, target) = read_label(alloc, word)?;
                home = package;
                let commands = read_commands(alloc, group)?;
                passes.push(Pass { target, commands })?;
            }
        }
    }
    Ok((home, passes))
}

/// The commands of a group.
fn read_commands(alloc: Global, group: &str) -> Result<Vec<Command>, Fail> {
    let mut commands = Vec::new(alloc);
    for word in group.split(" ! ") {
        if let Some(command) = read_command(alloc, word)? {
            commands.push(command)?;
        }
    }
    Ok(commands)
}

/// The limits of the program.
pub fn program(keep_going: bool) -> Options
    ensures { result.max_reads ≤ 2 ^ 50 }
{
    Options {
        keep_going,
        max_statement: 16_777_216,
        max_depth: 100,
        max_reads: 4_294_967_296,
    }
}

/// Other limits than the program's.
pub fn limited(max_statement: u64, max_depth: u8, max_reads: u32) -> Options
    ensures { result.max_reads ≤ 2 ^ 50 }
{
    Options {
        keep_going: true,
        max_statement,
        max_depth,
        max_reads: max_reads as u64,
    }
}
