//! What the program does to files: a BUILD file is replaced so that no moment leaves a part of its
//! new text in it.
//!
//! A `Folder` makes the calls of a file system, and an `Author` writes a text. `replace_file` takes
//! the author's text into a `Draft`, a temporary file beside the file, and puts it in the file's
//! place where it is to be kept. `OnDisk` is the folder of a program.
#![tactic(auto)]

mod author;
mod calls;
mod draft;
mod folder;
mod on_disk;
mod replace;
mod tally;
mod trouble;
mod waiting;

pub use author::Author;
pub use draft::Draft;
pub use folder::{CannotOpen, Folder, Opened, Purpose, Refusal};
pub use on_disk::OnDisk;
pub use replace::replace_file;
pub use tally::Tally;
pub use trouble::Trouble;

#[cfg(test)]
mod tests;
