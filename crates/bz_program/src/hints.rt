//! The second lines below `cannot open` and `cannot write`: why, and what to do.

ghost use Rattle.std.specs.Prelude.{◌≡◌, option_map};
ghost use Rattle.bz_program.specs.Hints as spec;

use bz_folder::{CannotOpen, Refusal};
use bz_rule::LEFT_OUT;
use bz_script::mistake::DASHED_PACKAGE;

// Below `cannot open`.
const LEFT_OUT_COMMAND: &str =
    "it is not there; Bazel's buildozer has a command of this name, and this one has none";

const BUILD_FILE: &str = "a package is a folder; leave out the name of its file, as in //app:base";

const OTHER_FILE: &str =
    "a package is a folder; give another file as standard input, with a target such as -:base";

const NOT_THERE: &str = "it is not there; packages are below the current folder";

const NO_RIGHT_TO_OPEN: &str = "there is no right to open it";

const NOT_REGULAR: &str = "it is not a regular file";

// Below `cannot write`.
const NO_RIGHT_TO_WRITE: &str = "there is no right to write in its folder";

const NO_SPACE: &str = "there is no space left";

const FOLDER_IN_THE_WAY: &str = "a folder is at the path of its temporary file; remove it";

const CHANGED: &str = "another program changed it meanwhile; run it again";

/// What is told below `cannot open`, of the file at a path, in this folder of a package.
pub fn of_unopened(home: &str, path: &str, why: CannotOpen) -> Option<&'static str>
    ensures { option_map (λ text. text.now) result ≡ spec.unopened_hint home.now path.now why }
{
    if path.starts_with("-") {
        return Some(DASHED_PACKAGE);
    }
    match why {
        CannotOpen::Absent => Some(of_absent(home)),
        CannotOpen::NoRight => Some(NO_RIGHT_TO_OPEN),
        CannotOpen::NotRegular => Some(NOT_REGULAR),
        CannotOpen::Failed => None,
    }
}

/// What is told of a package without a file: what else its name may have been meant for.
fn of_absent(home: &str) -> &'static str
    ensures { result.now ≡ spec.absent_hint home.now }
{
    if is_left_out(home) {
        LEFT_OUT_COMMAND
    } else if is_build_file(home) || ends_in_build_file(home) {
        BUILD_FILE
    } else if is_other_file(home) || ends_in_other_file(home) {
        OTHER_FILE
    } else {
        NOT_THERE
    }
}

/// Whether Bazel's buildozer has a command of this name that is not one of the ten.
fn is_left_out(home: &str) -> bool
    ensures { result ≡ spec.is_left_out home.now }
{
    LEFT_OUT.contains(&home)
}

/// Whether this is the name of a BUILD file.
fn is_build_file(path: &str) -> bool
    ensures { result ≡ spec.is_build_file path.now }
{
    matches!(path, "BUILD" | "BUILD.bazel")
}

fn ends_in_build_file(path: &str) -> bool
    ensures { result ≡ spec.ends_in_build_file path.now }
{
    let path = path.as_bytes();
    path.ends_with(b"/BUILD") || path.ends_with(b"/BUILD.bazel")
}

/// Whether this is the name of another file that Bazel reads.
fn is_other_file(path: &str) -> bool
    ensures { result ≡ spec.is_other_file path.now }
{
    matches!(path, "WORKSPACE" | "WORKSPACE.bazel" | "MODULE.bazel")
}

fn ends_in_other_file(path: &str) -> bool
    ensures { result ≡ spec.ends_in_other_file path.now }
{
    let path = path.as_bytes();
    path.ends_with(b"/WORKSPACE")
        || path.ends_with(b"/WORKSPACE.bazel")
        || path.ends_with(b"/MODULE.bazel")
}

/// What is told below `cannot write`.
pub fn of_unwritten(why: Refusal) -> Option<&'static str>
    ensures { option_map (λ text. text.now) result ≡ spec.unwritten_hint why }
{
    match why {
        Refusal::NoRight => Some(NO_RIGHT_TO_WRITE),
        Refusal::NoSpace => Some(NO_SPACE),
        Refusal::Folder => Some(FOLDER_IN_THE_WAY),
        Refusal::Changed => Some(CHANGED),
        Refusal::Unknown => None,
    }
}
