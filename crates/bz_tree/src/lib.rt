//! The statement of a chunk: its bracket tree and the owners of its comments.
#![tactic(auto)]

mod fault;
mod grammar;
pub mod laws;
mod row;
mod tree;

pub use fault::ParseFault;
pub use grammar::role::Role;
pub use row::from_parts::{nodes_of_parts, stmt_of_parts};
pub use row::read::{read_statement, read_text};
pub use row::rows::read_row;
pub use row::tree_parts::{push_nodes, push_parts};
pub use row::{Part, Parts, Row};
pub use tree::chunk::parse;
pub use tree::{Class, Group, GroupKind, Leaf, Node, Seg, Stmt};
