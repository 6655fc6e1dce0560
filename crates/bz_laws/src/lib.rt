//! Laws of targets and commands on one statement, and of runs over a file. Each function does nothing, or only calls
//! others: its contract is the law.
#![tactic(auto)]

pub mod again;
pub mod aside;
pub mod changes;
pub mod comments;
pub mod doubles;
pub mod effects;
pub mod lines;
pub mod other_names;
pub mod printed;
pub mod reading;
pub mod repeatable;
pub mod script;
pub mod sound;
pub mod status;
pub mod steps;
pub mod targets;
pub mod texts;
pub mod unchanged;
pub mod unmentioned;
pub mod untouched;
pub mod well_formed;
pub mod whole_file;
pub mod words;
pub mod written;
