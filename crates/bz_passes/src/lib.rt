//! Passes over statements, whatever targets and commands mean.
//!
//! A script is passes, one after another: each resolves its target once and then runs its commands.
//! What targets and commands mean is a `Language`. `run_script` takes one statement through the
//! whole script, and what is told waits in `Kept` until the end, since lines and messages stand by
//! pass and command and not by statement. `laws::exchange` is the law that makes this the same as
//! each command over the whole file.
#![tactic(auto)]

pub mod entry;
pub mod index;
pub mod kept;
pub mod language;
pub mod laws;
pub mod log;
pub mod pass;
pub mod passes;
pub mod script;
pub mod target;
pub mod texts;
