//! The call that edits packages, over files in a folder of the test's own.

use bz_program::{FromRead, ToWrite, edit_all};
use bz_script::{read_flags, read_script};
use std::fs;
use std::process::Abort;
use std::test::Fail;

/// The folder that has the packages, in the one in which the tests run.
const FOLDER: &str = "edit_all_test";

const IN_A: &str = "edit_all_test/a/BUILD";

const IN_B: &str = "edit_all_test/b/BUILD.bazel";

/// The text of both files at first, and what is read of the package `-`.
const OLD: &str = "r(name = \"x\")\n";

/// The text of both files where `n` was set.
const NEW: &str = "r(\n    name = \"x\",\n    n = 1,\n)\n";

/// What is told of a package without a file.
const ABSENT: &str = "\
edit_all_test/c/BUILD: cannot open
edit_all_test/c/BUILD: it is not there; packages are below the current folder
";

/// Two packages, each with a file.
fn make_packages(rt: &HostRuntime) -> Result<(), Fail> {
    let _ = fs::remove_dir_all(rt, FOLDER);
    fs::create_dir_all(rt, "edit_all_test/a")?;
    fs::create_dir_all(rt, "edit_all_test/b")?;
    fs::write(rt, IN_A, OLD)?;
    fs::write(rt, IN_B, OLD)?;
    Ok(())
}

/// Edits packages by the words of a command line: the status, and what the two outputs were handed.
fn edit(rt: &HostRuntime, words: &str) -> Result<(u8, Vec<u8>, Vec<u8>), Fail> {
    let alloc = rt.alloc();
    let mut list = Vec::new(alloc);
    for word in words.split(", ") {
        list.push(String::from_str(alloc, word)?)?;
    }
    let (flags, rest) = read_flags(alloc, list.as_slice())?;
    let script = read_script(alloc, rest)?;
    let input = FromRead::new(OLD.as_bytes());
    let mut out = Vec::new(alloc);
    let mut err = Vec::new(alloc);
    let (to_out, to_err) = (ToWrite::new(&mut out), ToWrite::new(&mut err));
    let status = edit_all(rt, alloc, &flags, script, input, to_out, to_err)?;
    Ok((status, out, err))
}

/// Words of a command line; the status, what the two outputs are handed, and the texts of both files afterwards.
type Row = (
    &'static str,
    u8,
    &'static str,
    &'static str,
    &'static str,
    &'static str,
);

/// No package comes after one that failed, but with `-k`.
const ROWS: [Row; 8] = [
    (
        "set n 1, //edit_all_test/a:x, -:x, //edit_all_test/b:x",
        0,
        NEW,
        "fixed edit_all_test/a/BUILD\nfixed edit_all_test/b/BUILD.bazel\n",
        NEW,
        NEW,
    ),
    ("set name x, //edit_all_test/a:x", 3, "", "", OLD, OLD),
    (
        "set n 1, //edit_all_test/a:y, //edit_all_test/b:x",
        2,
        "",
        "edit_all_test/a/BUILD: //edit_all_test/a:y: no such rule\n",
        OLD,
        OLD,
    ),
    (
        "-k, set n 1, //edit_all_test/a:x, //edit_all_test/c:x",
        2,
        "",
        "fixed edit_all_test/a/BUILD\n\
         edit_all_test/c/BUILD: cannot open\n\
         edit_all_test/c/BUILD: it is not there; packages are below the current folder\n",
        NEW,
        OLD,
    ),
    (
        "-k, -quiet, set n 1, //edit_all_test/a:x, //edit_all_test/c:x",
        2,
        "",
        ABSENT,
        NEW,
        OLD,
    ),
    (
        "set n 1, //edit_all_test/c:x, //edit_all_test/a:x",
        2,
        "",
        ABSENT,
        OLD,
        OLD,
    ),
    (
        "-stdout, set n 1, //edit_all_test/a:x",
        0,
        NEW,
        "",
        OLD,
        OLD,
    ),
    ("print kind, //edit_all_test/b:x", 3, "r\n", "", OLD, OLD),
];

/// Checks what the call answered at these words, and what it handed to the outputs.
fn check(rt: &impl Abort, words: &str, found: &(u8, Vec<u8>, Vec<u8>), wanted: (u8, &str, &str)) {
    assert_eq!(rt; found.0, wanted.0, "{words}");
    assert_eq!(rt; found.1.as_slice(), wanted.1.as_bytes(), "{words}");
    assert_eq!(rt; found.2.as_slice(), wanted.2.as_bytes(), "{words}");
}

/// The texts of both files.
fn texts(rt: &HostRuntime) -> Result<(String, String), Fail> {
    Ok((fs::read_to_string(rt, IN_A)?, fs::read_to_string(rt, IN_B)?))
}

/// Checks the texts of both files.
fn check_texts(rt: &impl Abort, words: &str, found: &(String, String), wanted: (&str, &str)) {
    assert_eq!(rt; found.0.as_str(), wanted.0, "{words}");
    assert_eq!(rt; found.1.as_str(), wanted.1, "{words}");
}

#[test]
fn packages_in_a_folder(rt: HostRuntime) -> Result<(), Fail> {
    for (words, status, out, err, a, b) in ROWS {
        make_packages(&rt)?;
        check(&rt, words, &edit(&rt, words)?, (status, out, err));
        check_texts(&rt, words, &texts(&rt)?, (a, b));
    }
    fs::remove_dir_all(&rt, FOLDER)?;
    Ok(())
}
