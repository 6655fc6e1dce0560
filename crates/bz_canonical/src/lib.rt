//! Whether a text begins with a chunk that is in canonical form: then it need not be read.
//!
//! `read_canonical` recognizes what `bz_layout` writes, and not the whole language: rules, loads on one line,
//! assignments and comment lines, of values with the spaces, lines and double quotes of the layout. What it accepts is
//! read back as a statement, of which the layout writes the same text. In rules it also recognizes values whose groups
//! stand otherwise, on lines or in place, and writes these as the layout does.
//!
//! `after_x` gives what follows x at the front of a text; `read_x` also what x says; `put_x` appends to the buffer.
#![tactic(auto)]

mod added;
mod arguments;
mod asked;
mod assignment;
mod bare;
mod chunk;
mod commented;
mod comments;
mod edited;
mod found;
mod found_value;
mod front;
mod group;
mod guess;
pub mod laws;
mod listed;
mod lists;
mod load;
mod named_rule;
mod otherwise;
mod otherwise_groups;
mod otherwise_segments;
mod place;
mod removed;
mod replaced;
mod rule;
mod rule_chunk;
mod sealed;
mod segments;
mod set_list;
mod simple;
mod sought;
mod spans;
mod statement;
mod string_list;
mod value;

pub use added::{put_added, put_new_list};
use bz_memory::NoMemory;
pub use chunk::{AsksOfRules, CanonicalChunk, read_canonical};
pub use commented::{CommentPlace, comment_place};
pub use edited::EditedList;
pub use found::{FoundRule, Room, kind_of, seal};
pub use found_value::lacks;
pub use place::{ArgumentPlace, argument_place, has_once};
pub use removed::put_removed;
pub use replaced::put_replaced;
pub use sealed::SpannedRule;
pub use set_list::put_set_list;
pub use sought::Sought;
pub use spans::ArgumentSpan;

/// None: it is not known what would be written.
pub(crate) type Known<T> = Result<Option<T>, NoMemory>;
