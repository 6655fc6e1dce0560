//! A statement that stands as it would be written, with its comments.

ghost use Rattle.std.specs.Prelude.{◌<◌, option_map, IfSome};
ghost use Rattle.bz_canonical.specs.private.Segments.{AreLinesFront};
ghost use Rattle.bz_canonical.specs.private.Statements.{IsStatementFront};

use crate::bare::read_bare_statement;
use crate::comments::after_suffix;
use crate::front::after;
use bz_tree::Class;

/// A statement, and what follows it.
#[derive(Clone, Copy)]
pub(crate) struct ReadStatement<'t> {
    pub(crate) class: Class,
    /// The name of a rule. None: it is no rule, or has no name.
    pub(crate) name: Option<&'t [u8]>,
    /// The kind of a rule without an argument `name`. None: it is not known.
    pub(crate) kind: Option<&'t [u8]>,
    /// What follows its text.
    pub(crate) end: &'t [u8],
    /// What follows its chunk: that of comment lines alone has the empty line after them.
    pub(crate) rest: &'t [u8],
}

/// The statement that the text begins with, whose comments are followed by what is here.
#[inline(always)]
pub(crate) fn read_whole_statement<'t>(
    text: &'t [u8],
    start: &'t [u8],
    max_depth: u8,
) -> Option<ReadStatement<'t>>
    requires depth { max_depth < 254 }
    requires lines { AreLinesFront text.now start.now }
    ensures { IfSome result (λ read. IsStatementFront max_depth read.class
        (option_map (λ name. name.now) read.name)
        (option_map (λ kind. kind.now) read.kind) text.now read.end.now read.rest.now) }
{
    if let Some(rest) = after(start, b'\n') {
        if start.len() == text.len() {
            return None;
        }
        return Some(ReadStatement {
            class: Class::Comment,
            name: None,
            kind: None,
            end: start,
            rest,
        });
    }
    let read = read_bare_statement(start, max_depth)?;
    let side = after_suffix(read.rest)?;
    let rest = after(side.rest, b'\n')?;
    Some(ReadStatement {
        class: read.class,
        name: read.name,
        kind: read.kind,
        end: rest,
        rest,
    })
}
