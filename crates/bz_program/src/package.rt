//! What is done for one package.

ghost use Rattle.std.specs.Prelude.{◌≡◌, ◌⊎◌, ℕ, List, [], IfOk, IfErr, if◌then◌else◌, option_map, string_bytes};
ghost use Rattle.bz_program.specs.Console.{Shows};
ghost use Rattle.bz_program.specs.Handled as spec;
ghost use Rattle.bz_program.specs.Program.{is_shown};
ghost use Rattle.bz_program.specs.Texts.{message_of, fixed_told, hint_told, unopened_text, IsFaultText, IsFileFaultTold};
ghost use Rattle.bz_script.specs.Names.{in_folder};

use crate::console::Console;
use crate::edit_file::{FileFault, edit_file};
use crate::edit_stream::edit_stream;
use crate::hints::{of_unopened, of_unwritten};
use crate::run::Job;
use bz_engine::{RunFault, Sink, Source, is_query};
use bz_folder::{CannotOpen, Draft, Folder, Opened, Purpose, Refusal};
use bz_rule::Package;
use bz_script::flags::Flags;
use bz_script::names::BuildFiles;
use std::alloc::Global;

/// The exit status of a package that failed (buildozer README, "Error codes").
pub const FAILED: u8 = 2;

/// Where the program reads and writes.
#[derive(Drop)]
pub struct Devices<D, S, O, E> {
    /// The files of the packages, and the draft of the one that is edited.
    pub draft: Draft<D>,
    /// Standard input.
    pub input: S,
    pub console: Console<O, E>,
}

/// Edits a package, shows what that tells, and gives the exit status of the package.
///
/// A file that cannot be opened or written, a lack of memory, and a failed read or write are told after the name of the
/// file and are status 2.
pub fn edit_package<D: Folder, S: Source, O: Sink, E: Sink>(
    alloc: Global,
    flags: &Flags,
    job: Job,
    devices: &mut Devices<D, S, O, E>,
) -> u8
    ensures files { spec.LeavesFiles D.did D.leads D.File.gave flags.now.stdout job
        devices.old.draft.folder devices.new.draft.folder result }
    ensures handled { (account : spec.Account) × spec.IsHandled D.did D.leads D.absent D.File.gave D.File.failures
        S.gave S.failures O.took E.took flags.now job devices.old devices.new account result }
{
    let status = edit_home(alloc, flags, job, devices);
    match devices.console.flush() {
        Ok(()) => status,
        Err(_) => FAILED,
    }
}

/// Edits the file of a package, or standard input where that is the package.
fn edit_home<D: Folder, S: Source, O: Sink, E: Sink>(
    alloc: Global,
    flags: &Flags,
    job: Job,
    devices: &mut Devices<D, S, O, E>,
) -> u8
    ensures files { spec.LeavesFiles D.did D.leads D.File.gave flags.now.stdout job
        devices.old.draft.folder devices.new.draft.folder result }
    ensures account { spec.HasAccount D.did O.took E.took
        (spec.IsAccountOf D.leads D.absent D.File.gave D.File.failures S.gave S.failures flags.now job
        devices.old.draft.folder devices.old.input devices.new.input)
        devices.old.draft.folder devices.new.draft.folder devices.old.console devices.new.console result }
{
    match job.home.path() {
        None => edit_shown(alloc, job, "-", &mut devices.input, &mut devices.console),
        Some(folder) => match BuildFiles::of(alloc, folder) {
            Ok(files) => edit_found(alloc, flags, job, &files, devices),
            Err(_) => {
                devices.console.put_message(folder, "out of memory");
                FAILED
            }
        },
    }
}

/// Edits what a source gives, and writes the text to standard output.
fn edit_shown<S: Source, O: Sink, E: Sink>(
    alloc: Global,
    job: Job,
    name: &str,
    source: &mut S,
    console: &mut Console<O, E>,
) -> u8
    ensures { (account : spec.Account) × spec.IsShownAs S.gave S.failures job name.now source.old source.new account
        × Shows O.took E.took console.old account.shown account.told console.new
        × (account.puts ≡ []) × (result ≡ account.status) }
{
    match edit_stream(job, name, source, console) {
        Ok(status) => status,
        Err(fault) => put_fault(alloc, name, fault, console),
    }
}

/// Edits the first of the files that is there.
fn edit_found<D: Folder, S, O: Sink, E: Sink>(
    alloc: Global,
    flags: &Flags,
    job: Job,
    files: &BuildFiles,
    devices: &mut Devices<D, S, O, E>,
) -> u8
    requires { spec.AreFilesOf job.home (string_bytes files.now.first) (string_bytes files.now.second) }
    ensures files { spec.LeavesFiles D.did D.leads D.File.gave flags.now.stdout job
        devices.old.draft.folder devices.new.draft.folder result }
    ensures input { devices.new.input ≡ devices.old.input }
    ensures account { spec.HasAccount D.did O.took E.took
        (spec.IsFileAs D.leads D.absent D.File.gave D.File.failures flags.now job devices.old.draft.folder)
        devices.old.draft.folder devices.new.draft.folder devices.old.console devices.new.console result }
{
    match open_first(devices.draft.folder(), files, purpose_of(flags, &job)) {
        Ok((opened, name)) => edit_opened(alloc, flags, job, name, opened, devices),
        Err((name, why)) => put_unopened(folder_of(&job.home), name, why, &mut devices.console),
    }
}

/// What the package's file is opened for: it stays where the flags say so or the script only asks.
fn purpose_of(flags: &Flags, job: &Job) -> Purpose
    ensures { result ≡ (if is_shown flags.now.stdout job.now.passes then Purpose.Read else Purpose.Replace) }
{
    if flags.stdout || is_query(job.passes.as_slice()) {
        Purpose::Read
    } else {
        Purpose::Replace
    }
}

/// The path of a package's folder, where it has one.
fn folder_of(home: &Package) -> &str
    ensures { result.now ≡ spec.folder_of home.now }
{
    match home.path() {
        Some(folder) => folder,
        None => "",
    }
}

/// Tells that a package's file cannot be opened, and in a second line why, or what else was meant.
fn put_unopened<O: Sink, E: Sink>(
    home: &str,
    name: &str,
    why: CannotOpen,
    console: &mut Console<O, E>,
) -> u8
    ensures status { result ≡ 2 }
    ensures told { Shows O.took E.took console.old [] (unopened_text home.now name.now why) console.new }
{
    console.put_message(name, "cannot open");
    put_hint(name, of_unopened(home, name, why), console);
    FAILED
}

/// Tells the second line of a message, where there is one.
fn put_hint<O: Sink, E: Sink>(name: &str, hint: Option<&str>, console: &mut Console<O, E>)
    ensures { Shows O.took E.took console.old []
        (hint_told name.now (option_map (λ text. text.now) hint.entry)) console.new }
{
    if let Some(text) = hint {
        console.put_message(name, text);
    }
}

/// Opens the first of the files that is there, and gives its name. An `Err` names the one that was tried last, and why
/// it is not open.
fn open_first<'a, D: Folder>(
    folder: &D,
    files: &'a BuildFiles,
    purpose: Purpose,
) -> Result<(Opened<D::File>, &'a str), (&'a str, CannotOpen)>
    ensures opened { IfOk result (λ found.
        spec.IsFirst D.absent folder.now (string_bytes files.now.first) (string_bytes files.now.second) found.1.now
        × D.leads found.1.now (string_bytes found.0.path) found.0.source) }
    ensures unopened { IfErr result (λ tried.
        spec.IsFirst D.absent folder.now (string_bytes files.now.first) (string_bytes files.now.second) tried.0.now) }
    ensures absent { IfErr result (λ tried. tried.1 ≡ CannotOpen.Absent → D.absent folder.now tried.0.now) }
{
    match folder.open(&files.first, purpose) {
        Ok(opened) => Ok((opened, files.first.as_str())),
        Err(CannotOpen::Absent) => match folder.open(&files.second, purpose) {
            Ok(opened) => Ok((opened, files.second.as_str())),
            Err(why) => Err((files.second.as_str(), why)),
        },
        Err(why) => Err((files.first.as_str(), why)),
    }
}

/// Edits a file that is open: in place, or to standard output where the flags say so or the script only asks.
fn edit_opened<D: Folder, S, O: Sink, E: Sink>(
    alloc: Global,
    flags: &Flags,
    job: Job,
    name: &str,
    opened: Opened<D::File>,
    devices: &mut Devices<D, S, O, E>,
) -> u8
    requires { spec.IsOpened D.leads D.absent devices.old.draft.folder job.home name.now opened }
    ensures files { spec.LeavesFiles D.did D.leads D.File.gave flags.now.stdout job
        devices.old.draft.folder devices.new.draft.folder result }
    ensures input { devices.new.input ≡ devices.old.input }
    ensures account { spec.HasAccount D.did O.took E.took
        (spec.IsOpenedAs D.File.gave D.File.failures flags.now job name.now opened)
        devices.old.draft.folder devices.new.draft.folder devices.old.console devices.new.console result }
{
    if purpose_of(flags, &job) == Purpose::Read {
        let mut source = opened.source;
        return edit_shown(alloc, job, name, &mut source, &mut devices.console);
    }
    match edit_file(job, opened, &mut devices.draft) {
        Ok((report, replaced)) => {
            put_replaced(flags, name, replaced, &mut devices.console);
            devices.console.put_report(name, &report);
            report.status()
        }
        Err(fault) => {
            let why = devices.draft.folder().refusal();
            put_file_fault(alloc, name, fault, why, &mut devices.console)
        }
    }
}

/// Tells that a file was replaced, unless the flags say not to.
fn put_replaced<O: Sink, E: Sink>(
    flags: &Flags,
    name: &str,
    replaced: bool,
    console: &mut Console<O, E>,
)
    ensures { Shows O.took E.took console.old [] (fixed_told flags.now.quiet replaced name.now) console.new }
{
    if replaced && !flags.quiet {
        console.put_fixed(name);
    }
}

/// Tells why a file was not edited; where it cannot be written, this is why the call failed.
fn put_file_fault<O: Sink, E: Sink>(
    alloc: Global,
    name: &str,
    fault: FileFault,
    why: Refusal,
    console: &mut Console<O, E>,
) -> u8
    ensures status { result ≡ 2 }
    ensures told { (told : List ℕ) × IsFileFaultTold name.now fault told
        × Shows O.took E.took console.old [] told console.new }
{
    match fault {
        FileFault::Run(fault) => put_fault(alloc, name, fault, console),
        FileFault::CannotWrite => {
            console.put_message(name, "cannot write");
            put_hint(name, of_unwritten(why), console);
            FAILED
        }
    }
}

/// Tells why a run ended before its report.
fn put_fault<O: Sink, E: Sink>(
    alloc: Global,
    name: &str,
    fault: RunFault,
    console: &mut Console<O, E>,
) -> u8
    ensures status { result ≡ 2 }
    ensures told { (text : List ℕ) × IsFaultText fault text
        × Shows O.took E.took console.old [] (message_of name.now text) console.new }
{
    match fault {
        RunFault::OutOfMemory(_) => console.put_message(name, "out of memory"),
        RunFault::ReadFailed => console.put_message(name, "read failed"),
        RunFault::WriteFailed => console.put_message(name, "write failed"),
        RunFault::InputTooLong => console.put_message(name, "input too long"),
        RunFault::StatementTooLong { line } => match format!(in alloc;
            "{line}: statement too long"
        ) {
            Ok(text) => console.put_message(name, &text),
            Err(_) => console.put_message(name, "statement too long"),
        },
        RunFault::Stopped => console.put_message(name, "stopped"),
    }
    FAILED
}
