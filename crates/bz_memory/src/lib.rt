//! The calls of std that ask for memory, and the evidence that one of them was refused.
//!
//! `NoMemory` has a private field, so no other crate can make one. Where a function answers it, one of the calls below
//! saw std refuse.
#![tactic(auto)]

mod arena;
mod input;
mod list;
mod map;
mod no_memory;
mod string;

pub use arena::alloc_str;
pub use input::{BytesFault, WordsFault, bytes_of_file, bytes_of_input, words};
pub use list::{
    append, collect, extend_from_slice, lengthen, push, reserve, reserve_for, with_capacity,
    with_room_for, with_room_for_both, with_room_within,
};
pub use map::{entry, insert, insert_last};
pub use no_memory::NoMemory;
pub use string::{from_str, push_char, push_number, push_str, with_length_of};
