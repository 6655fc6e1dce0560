//! The tests, each file on its own.

mod buffers;
mod checks;
mod devices;
mod faults;
mod held;
mod limits;
mod reports;
mod runs;
mod scripts;
mod sessions;
mod sizes;
