//! Laws on tokens, statements and their texts: what is written is read as, and what reading keeps.
#![tactic(auto)]

pub mod blocks;
pub mod brackets;
pub mod chunks;
pub mod comments;
pub mod files;
pub mod free;
pub mod lines;
pub mod of_tokens;
pub mod reading_back;
pub mod spelling;
pub mod statements;
pub mod tokens;
pub mod trees;
pub mod utf8;
pub mod well_formed;
pub mod words;
