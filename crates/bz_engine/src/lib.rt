//! The engine: a script's passes over the statements between a source and a sink.
//!
//! `run` edits one file, and a `Session` does it chunk by chunk: each is read as one statement, taken
//! through the script and written. How a source is read and a sink written is `bz_devices`, how
//! passes run over statements `bz_passes`; here stand the language of BUILD files, what is told at
//! the end, and the promises of a whole run.
#![tactic(auto)]

mod answer;
mod answered;
mod argument;
mod canonical;
mod chunk;
mod edit;
mod failure;
pub mod laws;
mod looks;
mod marked_rule;
mod marking;
mod message;
mod names;
mod next_chunk;
mod options;
mod progress;
mod report;
mod row;
mod rule_passes;
mod rules;
mod run_fault;
mod runner;
mod sealed;
mod session;
mod spare;
mod telling;
mod written;

pub use bz_devices::device::{Failed, Sink, Source};
pub use bz_devices::output::write_all;
pub use bz_devices::std_device::{FromRead, ToWrite};
pub use bz_passes::pass::Pass;
pub use bz_passes::texts::{EachText, Texts};
pub use options::Options;
pub use report::{End, Report, SyntaxFault};
pub use rule_passes::is_query;
pub use run_fault::RunFault;
pub use runner::run;
pub use session::{Session, Step};
