//! The view of a statement as a rule: its kind, its attributes, and the elements of their lists. Below the commands.
#![tactic(auto)]

mod apart;
mod done;
mod edit;
mod element_labels;
mod element_search;
mod elements;
mod env;
pub mod equals;
mod finder;
mod head;
mod marks;
mod place;
mod rule;
mod texts;
mod value;
mod word_set;
mod written;

pub use apart::literal_apart;
pub use bz_tree::Parts;
pub use done::{Done, Executed, Note};
pub use edit::Edit;
pub use element_labels::labels_of;
pub use element_search::first_equal;
pub use elements::{
    Element, elements_end, first_list, next_element, next_list, next_of_value, value_place,
};
pub use env::Env;
pub use finder::{FirstArgument, find_argument, first_argument, value_at};
pub use head::Head;
pub use marks::matches;
pub use place::{Place, all_arguments, argument_place, kind_place, new_place};
pub use rule::is_rule;
pub use texts::{label, push_home};
pub use value::{only_list, only_string, value_end};
pub use word_set::{FEW, WordSet, is_one_of};
pub use written::{begin_argument, push_element, push_string, push_token};
