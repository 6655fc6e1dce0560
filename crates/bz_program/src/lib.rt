//! The program as a call: the packages of a script are edited one after another, each in its file or on standard
//! output.
//!
//! `edit_all` edits the files of a disk, and `edit_packages` those of any folder. `main` of buildozer reads the words,
//! and calls the former.
#![tactic(auto)]

mod console;
mod disk;
mod edit_file;
mod edit_stream;
mod file_run;
mod hints;
pub mod laws;
mod package;
mod packages;
mod run;

pub use bz_engine::{FromRead, Sink, Source, ToWrite};
pub use bz_folder::{Draft, Folder, OnDisk};
pub use console::Console;
pub use disk::edit_all;
pub use package::{Devices, edit_package};
pub use packages::edit_packages;
pub use run::Job;
