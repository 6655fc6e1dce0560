//! The ten commands over the parts of one rule: what each makes of its arguments, its kind and its comments, and what
//! it tells.

pub mod add;
pub mod argument;
mod argument_edits;
mod arrivals;
pub mod comment;
mod element_edits;
pub mod field;
pub mod line;
mod list_place;
pub mod moving;
pub mod new_argument;
mod new_attribute;
pub mod print;
pub mod remove;
pub mod rename;
pub mod replace;
mod rewriting;
mod same_value;
pub mod set;
pub mod set_kind;
mod string_edit;
