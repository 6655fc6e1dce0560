//! Labels, targets and commands on one rule.
#![tactic(auto)]

mod command;
pub mod commands;
pub mod forms;
pub mod laws;
mod reader;
mod row_edit;
mod row_parts;
mod slot;
mod statement_row;
mod texts;

pub use bz_attribute::{Done, Note, label, matches};
pub use bz_label::{LabelFault, Package, Target, Text, quote, read_label, same, value_is};
pub use command::{
    Command, CommandFault, LEFT_OUT, USAGE, attributes_of, one_attribute, values_of, values_sought,
};
pub use commands::field::{Field, NO_SUCH_FIELD, is_left_out_field};
pub use reader::read_command;
pub use slot::apply;
pub use statement_row::{StatementRow, execute};
pub use texts::shown;
