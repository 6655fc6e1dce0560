//! Worked examples of runs over devices that cut and fail, under limits, and step by step, over the public calls alone.
//!
//! They stand in a crate of their own, so that no other crate waits for them. Runs that need no such device are cases
//! of the whole program.
#![tactic(auto)]

pub mod drip;
pub mod feed;
pub mod script;
#[cfg(test)]
mod tests;
