//! A source that gives what it is told to, in pieces, and fails where it is told to.

ghost use Rattle.std.specs.Prelude.{⊤};

use bz_engine::{Failed, Source};

/// What a `Feed` gives.
#[derive(Clone, Copy)]
pub enum Input<'a> {
    /// These bytes, and then the end.
    Bytes(&'a [u8]),
    /// One byte for ever.
    Endless(u8),
}

/// How much one read gives.
#[derive(Clone, Copy)]
pub enum Piece {
    AtMost(usize),
    /// At most one line, with its newline.
    Line,
}

#[derive(Drop)]
pub struct Feed<'a> {
    pub input: Input<'a>,
    pub piece: Piece,
    /// The read, counted from 1, that fails.
    pub fails_at: Option<u64>,
    pub reads: u64,
    pub failures: u64,
}

impl<'a> Feed<'a> {
    pub fn new(input: Input<'a>, piece: Piece, fails_at: Option<u64>) -> Feed<'a> {
        Feed {
            input,
            piece,
            fails_at,
            reads: 0,
            failures: 0,
        }
    }
}

/// How many of the bytes one read gives.
fn piece_len(bytes: &[u8], piece: Piece) -> usize {
    match piece {
        Piece::AtMost(most) => most,
        Piece::Line => match bytes.iter().position(|&b| b == b'\n') {
            Some(i) => i + 1,
            None => bytes.len(),
        },
    }
}

// What was given is left open: tests look at it themselves.
impl<'a> Source for Feed<'a> {
    ghost gave = { λ old pieces new. ⊤ };

    ghost failures = { λ feed. feed.failures };

    ghost gave_nothing = { λ feed. tt };

    ghost gave_more = { λ a b c xs ys before after. tt };

    fn read(&mut self, buf: &mut [u8]) -> Result<usize, Failed> {
        self.reads = self.reads.saturating_add(1);
        if self.fails_at == Some(self.reads) {
            self.failures = self.failures.saturating_add(1);
            return Err(Failed);
        }
        match self.input {
            Input::Bytes(bytes) => {
                let n = piece_len(bytes, self.piece).min(bytes.len()).min(buf.len());
                buf[..n].copy_from_slice(&bytes[..n]);
                self.input = Input::Bytes(&bytes[n..]);
                Ok(n)
            }
            Input::Endless(byte) => {
                let n = match self.piece {
                    Piece::AtMost(most) => most.min(buf.len()),
                    Piece::Line => buf.len(),
                };
                buf[..n].fill(byte);
                Ok(n)
            }
        }
    }

    fn failures(&self) -> u64 {
        self.failures
    }
}
