//! The page that tells how the program is used.

use crate::usage::{StartFault, UsageFault};

/// The page begins with this; the commands follow ([`USAGE`](bz_rule::USAGE)), and then its end.
pub const BEGINNING: &str = "\
usage: buildozer [-k] [-stdout] [-quiet] COMMAND.. TARGET..
       buildozer [-k] [-stdout] [-quiet] -f FILE

Edits rules in BUILD files by commands.

  buildozer 'add deps //base' //app:server        adds a dependency in app/BUILD
  buildozer 'print name deps' '//app:*'           prints names and dependencies

";

/// The end of the page.
pub const END: &str = "
targets: //pkg:name, //pkg, pkg:name, :name, //pkg:* (all rules), //pkg:%kind, //pkg:%123 (by line),
         //pkg:__pkg__; the package - is standard input and output

flags:
  -k        goes on where a command fails
  -stdout   writes to standard output and touches no file
  -quiet    does not tell which files were changed, and leaves out the notes
  -f FILE   reads commands from a file (- for standard input), a line each: COMMAND|..|TARGET|..

status: 0 something changed, 1 usage, 2 a failure, 3 nothing changed

The current directory is the root of the workspace. A quote round a value is part of the value.
More, and the commit and the day of the build: man buildozer
";

/// Whether the page is what the words are after: there are none, or one of them asks for help.
pub fn is_wanted(fault: &StartFault, words: &[String]) -> bool {
    match fault {
        StartFault::Usage(UsageFault::NoCommand { .. }) => words.is_empty(),
        StartFault::Usage(UsageFault::UnknownFlag { .. }) => words.iter().any(|word| asks(word)),
        _ => false,
    }
}

fn asks(word: &str) -> bool {
    matches!(word, "-h" | "-help" | "--help" | "--h")
}
