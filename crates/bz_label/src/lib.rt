//! Labels, targets, packages, words and the arguments of commands. None of it needs a tree.
//!
//! The value of a string literal stands here too, since labels are compared by it.
#![tactic(auto)]

mod arguments;
mod bytes;
mod completed;
mod decode;
mod label;
mod label_set;
mod labels;
pub mod laws;
mod list;
mod literal;
mod names;
mod package;
mod parts;
mod sorted_labels;
mod target;
mod value;
mod words;

pub use arguments::{Attributes, Chosen, Commented, Setting};
pub use bytes::{Bytes, value_of};
pub use decode::read_value;
pub use label::{same, same_label};
pub use label_set::LabelSet;
pub use labels::{LabelFault, read_label};
pub use list::{Seq, Text};
pub use literal::Literal;
pub use names::is_kind;
pub use package::Package;
pub use parts::{cut, ending};
pub use sorted_labels::SortedLabels;
pub use target::{Marked, Target};
pub use value::{has_value, plain_text, quote, value_is};
pub use words::read_words;
