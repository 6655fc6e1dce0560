//! Laws on tokens and lines that are written: what they are read as.

pub mod chunks;
pub mod lines;
pub mod tokens;
