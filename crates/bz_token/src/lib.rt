//! The lowest layer: the tokens of a BUILD file with their lines and columns, and where its chunks end.
#![tactic(auto)]

mod brackets;
mod chunk;
mod cutter;
mod fault;
mod gap;
mod identifier;
pub mod laws;
mod lengths;
mod lexer;
mod plain;
mod reader;
mod scan;
mod scan_string;
mod scan_token;
mod table;
mod token;
mod token_list;
mod utf8;
mod word;

pub use chunk::{FirstChunk, first_chunk};
pub use cutter::{Cut, Cutter, Next};
pub use fault::LexFault;
pub use identifier::is_identifier;
pub use lengths::{comment_len, identifier_len, integer_len, string_len};
pub use lexer::tokens_in;
pub use reader::TokenReader;
pub use token::{Kind, Token};
pub use token_list::tokens;
pub use utf8::check_utf8;
