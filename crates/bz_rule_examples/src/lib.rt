//! Worked examples of tokens, trees, layout, labels and commands, over the public calls alone.
//!
//! They are tables in texts: a row is read as it stands, so that a table takes no more proof than its test. They stand
//! in a crate of their own, so that no other crate waits for them.
#![tactic(auto)]

#[cfg(test)]
mod checks;
#[cfg(test)]
mod commands;
#[cfg(test)]
mod copies;
#[cfg(test)]
mod labels;
#[cfg(test)]
mod layout;
#[cfg(test)]
mod lists;
#[cfg(test)]
mod places;
#[cfg(test)]
mod rows;
pub mod table;
pub mod texts;
#[cfg(test)]
mod tokens;
#[cfg(test)]
mod trees;
