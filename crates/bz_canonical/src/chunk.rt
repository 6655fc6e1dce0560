//! The chunk that a text begins with, where it is known what would be written of it.

ghost use Rattle.std.specs.Prelude.{◌≡◌, ◌-◌, ◌<◌, ℕ, List, Option, false, length, option_map, take, IfOk, IfSome, IsFalse, IsTrue};
ghost use Rattle.bz_canonical.specs.Canonical.{IsCanonical};
ghost use Rattle.bz_canonical.specs.Spans.{AreSpansOf};
ghost use Rattle.bz_canonical.specs.private.Segments.{AreLinesFront};
ghost use Rattle.bz_canonical.specs.private.Statements.{IsChunkOf};

use crate::Known;
use crate::comments::after_comments_above;
use crate::named_rule::read_rule_head;
use crate::rule_chunk::{NamedRule, name_in, read_noted_chunk, read_rule_chunk};
use crate::spans::ArgumentSpan;
use crate::statement::read_whole_statement;
use bz_label::Text;
use bz_memory::NoMemory;
use bz_token::check_utf8;
use bz_tree::Class;

/// A chunk, and what is written of its statement.
#[derive(Clone, Copy)]
pub struct CanonicalChunk<'t> {
    pub chunk: &'t str,
    /// The chunk, but for the empty line after comment lines alone; or what is in the buffer, where lists of strings in a
    /// rule stand otherwise.
    pub written: &'t str,
    /// The class of its statement.
    pub class: Class,
    /// It is a rule of which nothing is asked.
    pub left: bool,
    /// It is noted where all its arguments stand.
    pub noted: bool,
    /// The name of a rule. None: it is no rule, or has no name.
    pub name: Option<&'t str>,
    /// The bytes of the kind of a rule without an argument `name`. None: it is not known.
    pub kind: Option<&'t [u8]>,
}

/// Says of which rules something is asked: of those alone the spans of the arguments.
pub trait AsksOfRules {
    // What is known of a name of which nothing is asked. None: a rule without a name.
    ghost leaves: { Self → Option (List ℕ) → Type 0 };

    // The names of the arguments that are asked for.
    ghost names: { Self → List (List ℕ) };

    /// Whether something is asked of a rule of this name, or of one without a name.
    fn asks_of(&self, name: Option<&str>) -> bool
        ensures { IsFalse result → leaves self.now (option_map (λ text. text.now) name.entry) };

    /// The names of the arguments that are asked for where it is noted how all stand. None: this is not noted.
    fn names(&self) -> &[Text]
        ensures { result.now ≡ names self.now };
}

// Brackets may be open so deep, and no deeper: an indent's level is one byte.
pub(crate) const DEEPEST: u8 = 253;

/// The chunk that the text begins with, where it is known what would be written of it, with the spans of the arguments
/// of a rule. The bytes in the buffer are lost: what is written of a rule goes there, if it stands otherwise. So are
/// the spans that were there. None: it may be known or not. `canonical.rt` of bz_engine asks, before it reads anything.
#[inline(always)]
pub fn read_canonical<'t, R: AsksOfRules>(
    text: &'t str,
    asked: &R,
    max_depth: u8,
    written: &'t mut Vec<u8>,
    spans: &mut Vec<ArgumentSpan>,
) -> Result<Option<CanonicalChunk<'t>>, NoMemory>
    ensures chunk { IfOk result (λ known. IfSome known (λ found. IsCanonical max_depth found.class
        (option_map (λ name. name.now) found.name) (option_map (λ kind. kind.now) found.kind)
        found.chunk.now found.written.now text.now)) }
    ensures left { IfOk result (λ known. IfSome known (λ found. IsTrue found.left
        → R.leaves asked.now (option_map (λ name. name.now) found.name))) }
    ensures spans { IfOk result (λ known. IfSome known (λ found. IsTrue found.noted → AreSpansOf max_depth
        (R.names asked.now) found.chunk.now found.written.now spans.new.items)) }
{
    if max_depth > DEEPEST {
        return Ok(None);
    }
    let start = after_comments_above(text.as_bytes());
    let Some(head) = read_rule_head(start) else {
        return Ok(read_other_chunk(text, start, max_depth));
    };
    let Some(name) = name_in(text, head) else {
        return Ok(None);
    };
    let rule = NamedRule { text, head, name };
    let left = !asked.asks_of(Some(name));
    if !left {
        let names = asked.names();
        if !names.is_empty() {
            return read_noted_chunk(rule, names, max_depth, written, spans);
        }
    }
    read_rule_chunk(rule, left, max_depth, written)
}

/// The chunk of what does not begin as a rule whose name is on a line of its own, where it stands as it would be written.
#[inline(never)]
fn read_other_chunk<'t>(text: &'t str, start: &'t [u8], max_depth: u8) -> Option<CanonicalChunk<'t>>
    requires depth { max_depth < 254 }
    requires lines { AreLinesFront text.now start.now }
    ensures chunk { IfSome result (IsChunkOf max_depth text.now) }
    ensures left { IfSome result (λ found. found.left ≡ false) }
    ensures noted { IfSome result (λ found. found.noted ≡ false) }
{
    let read = read_whole_statement(text.as_bytes(), start, max_depth)?;
    let chunk = without(text, read.rest.len())?;
    let written = without(text, read.end.len())?;
    let name = match read.name {
        None => None,
        Some(bytes) => Some(check_utf8(bytes).ok()?),
    };
    Some(CanonicalChunk {
        chunk,
        written,
        class: read.class,
        name,
        kind: read.kind,
        left: false,
        noted: false,
    })
}

/// The text without so many of its last bytes, where it may be cut there.
pub(crate) fn without(text: &str, left: usize) -> Option<&str>
    ensures { IfSome result (λ front. front.now ≡ take (length text.now - left) text.now) }
{
    let len = text.len().checked_sub(left)?;
    let (front, _) = text.split_at_checked(len)?;
    Some(front)
}
