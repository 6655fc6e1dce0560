//! The words of a call and the lines of a command file, read into flags and a script of passes for each package;
//! and the paths of a package's file.
#![tactic(auto)]

pub mod command_file;
pub mod flags;
pub mod group;
pub mod help;
pub mod inputs;
pub mod laws;
pub mod mistake;
pub mod names;
pub mod notes;
pub mod packages;
pub mod quoted;
pub mod script;
pub mod start;
pub mod status;
pub mod usage;

pub use command_file::read_command_file;
pub use flags::{Flags, read_flags};
pub use group::Script;
pub use inputs::check_inputs;
pub use packages::by_package;
pub use script::read_script;
pub use status::whole_status;
pub use usage::UsageFault;
