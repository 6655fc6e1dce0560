//! The tokens of a text as a list of their own.

ghost use Rattle.std.specs.Prelude.{◌==◌, ◌+◌, ◌^◌, ◌<◌, IfOk, IfErr, map};
ghost use Rattle.std.specs.List.{count_by};
ghost use Rattle.bz_token.specs.Faults.{IsFault};
ghost use Rattle.bz_token.specs.Places.{placed};
ghost use Rattle.bz_token.specs.Reading.{AreTokensOf};

use crate::fault::LexFault;
use crate::lexer::tokens_in;
use crate::token::Token;
use bumpalo::Bump;
use bz_memory::{extend_from_slice, with_room_for};
use std::alloc::Global;

/// Reads a text as its tokens, those of the Starlark specification and comments; or finds its first fault from left to
/// right. `first_line` is the number of the text's first line. More than `max_depth` brackets open at once are a fault.
pub fn tokens<'a>(
    alloc: Global,
    text: &'a str,
    first_line: u64,
    max_depth: u8,
) -> Result<Vec<Token<'a>>, LexFault>
    requires { first_line + count_by (λ b. b == 10) text.now < 2 ^ 64 }
    ensures tokens { IfOk result (λ v. AreTokensOf first_line max_depth text.now (map placed v.items)) }
    ensures fault { IfErr result (IsFault first_line max_depth text.now) }
{
    let bump = Bump::new(alloc);
    let found = tokens_in(&bump, text, first_line, max_depth)?;
    let mut tokens = with_room_for(alloc, found, 0)?;
    extend_from_slice(&mut tokens, found)?;
    Ok(tokens)
}
