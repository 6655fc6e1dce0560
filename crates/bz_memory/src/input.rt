//! What the system gives a program: its words, and the bytes of files.

use crate::no_memory::{NoMemory, refused};
use std::alloc::Global;
use std::env::Args;
use std::fs::File;
use std::io::{ErrorKind, Read};
use std::{env, io};

/// Why the words of the command line could not be had.
#[derive(Clone, Copy)]
pub enum WordsFault {
    OutOfMemory(NoMemory),
    /// A word is not UTF-8.
    NotUtf8,
}

/// Why the bytes of a file could not be had.
#[derive(Clone, Copy)]
pub enum BytesFault {
    OutOfMemory(NoMemory),
    /// The file could not be opened or read.
    Failed,
}

/// The words of the command line, the program's name first.
pub fn words(rt: &HostRuntime) -> Result<Args, WordsFault> {
    match env::args(rt) {
        Ok(words) => Ok(words),
        Err(error) => match error.kind() {
            ErrorKind::InvalidData => Err(WordsFault::NotUtf8),
            _ => Err(WordsFault::OutOfMemory(refused(error))),
        },
    }
}

/// The first bytes of a file, at most so many.
pub fn bytes_of_file(
    rt: &HostRuntime,
    alloc: Global,
    path: &str,
    most: u64,
) -> Result<Vec<u8>, BytesFault> {
    match File::open(rt, path) {
        Ok(file) => first_bytes(alloc, file, most),
        Err(error) => Err(bytes_fault(error)),
    }
}

/// The first bytes of standard input, at most so many.
pub fn bytes_of_input(rt: &HostRuntime, alloc: Global, most: u64) -> Result<Vec<u8>, BytesFault> {
    first_bytes(alloc, rt.stdin(), most)
}

fn first_bytes<R: Read + Drop>(alloc: Global, reader: R, most: u64) -> Result<Vec<u8>, BytesFault> {
    let mut bytes = Vec::new(alloc);
    match reader.take(most).read_to_end(&mut bytes) {
        Ok(_) => Ok(bytes),
        Err(error) => Err(bytes_fault(error)),
    }
}

fn bytes_fault(error: io::Error) -> BytesFault {
    match error.kind() {
        ErrorKind::OutOfMemory => BytesFault::OutOfMemory(refused(error)),
        _ => BytesFault::Failed,
    }
}
