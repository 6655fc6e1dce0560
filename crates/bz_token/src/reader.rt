//! The tokens of a text, a batch at a time.

ghost use Rattle.std.specs.Prelude.{◌≡◌, ◌+◌, ◌++◌, ◌<◌, ◌≤◌, ◌^◌, ◌==◌, ◌↔◌, ℕ, List, [], true, false, length, count_by, map, IfOk, IsTrue};
ghost use Rattle.bz_token.specs.Places.{Placed, placed};
ghost use Rattle.bz_token.specs.Reading.{AreTokensOf};
ghost use Rattle.bz_token.specs.Faults.{HasFault};
ghost use Rattle.bz_token.specs.Batches.{HasGiven, batch, left};

use crate::brackets::Brackets;
use crate::fault::LexFault;
use crate::lexer::{Cursor, Lexer};
use crate::token::Token;
use bumpalo::Bump;
use bz_memory::{NoMemory, with_capacity};

// So many tokens are a batch, or fewer.
const MOST: usize = 256;

/// Reads the tokens of a text in batches, so that the list of all of them never exists.
#[derive(Drop)]
pub struct TokenReader<'b, 'a> {
    lexer: Lexer<'b, 'a>,
    cursor: Cursor<'a>,
    max_depth: u8,
}

impl<'b, 'a> TokenReader<'b, 'a> {
    /// Makes a reader of this text, before the first batch. `first_line` is the number of the text's first line. More
    /// than `max_depth` brackets open at once are a fault.
    pub fn new(
        bump: &'b Bump,
        text: &'a str,
        first_line: u64,
        max_depth: u8,
    ) -> Result<TokenReader<'b, 'a>, NoMemory>
        requires { first_line + count_by (λ b. b == 10) text.now < 2 ^ 64 }
        ensures { IfOk result (HasGiven first_line max_depth text.now []) }
    {
        Ok(TokenReader {
            lexer: Lexer {
                tokens: with_capacity(bump, MOST)?,
                brackets: Brackets::new(),
            },
            cursor: Cursor::start(text, first_line),
            max_depth,
        })
    }

    /// The tokens of the last batch.
    pub fn tokens(&self) -> &[Token<'a>]
        ensures { map placed result.now ≡ batch self.now }
    {
        &self.lexer.tokens
    }

    /// Whether the whole text was read.
    pub fn is_at_end(&self) -> bool
        ensures { result ≡ (left self.now == 0) }
    {
        self.cursor.rest.is_empty()
    }

    /// Reads the next batch, in place of the last. False: the text has a lexical fault. `Err`: allocation failed.
    pub fn read(&mut self) -> Result<bool, NoMemory>
        requires some { 0 < left self.old }
        requires reader { (first : ℕ) × (depth : ℕ) × (text : List ℕ) × (given : List Placed)
            × HasGiven first depth text given self.old }
        ensures given { (first : ℕ) (depth : ℕ) (text : List ℕ) (given : List Placed)
            → HasGiven first depth text given self.old
            → IfOk result (λ read. IsTrue read → HasGiven first depth text (given ++ batch self.new) self.new) }
        ensures shorter { IfOk result (λ read. IsTrue read → left self.new < left self.old) }
        ensures few { IfOk result (λ read. IsTrue read → length (batch self.new) ≤ 256) }
        ensures fault { (first : ℕ) (depth : ℕ) (text : List ℕ) (given : List Placed)
            → HasGiven first depth text given self.old
            → IfOk result (λ read. read ≡ false → HasFault first depth text) }
    {
        self.lexer.tokens.clear();
        match self.lexer.read_line(self.cursor, self.max_depth, MOST) {
            Ok((cursor, _)) => {
                self.cursor = cursor;
                Ok(true)
            }
            Err(LexFault::OutOfMemory(why)) => Err(why),
            Err(_) => Ok(false),
        }
    }

    /// Whether the whole text was read, and no bracket is open.
    pub fn is_complete(&self) -> bool
        ensures { (first : ℕ) (depth : ℕ) (text : List ℕ) (given : List Placed)
            → HasGiven first depth text given self.now
            → IsTrue result ↔ ((left self.now ≡ 0) × AreTokensOf first depth text given) }
    {
        self.cursor.rest.is_empty() && !self.lexer.brackets.is_inside()
    }
}
