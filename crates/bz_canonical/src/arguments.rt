//! The arguments of a rule as they would be written, where lists of strings among them stand otherwise. `named_rule.rt`
//! and `spans.rt` ask for all of them; `added.rt` asks for the head of the one argument whose lines it has.

ghost use Rattle.std.specs.Prelude.{◌≡◌, ◌<◌, ℕ, List, length, IfOk, IfSome};
ghost use Rattle.bz_tree.specs.declared.tree.GroupKind.TheVariants.{RuleCall};
ghost use Rattle.bz_canonical.specs.private.Segments.{AreNotesFront, AreSegmentsFront};
ghost use Rattle.bz_canonical.specs.private.Values.{AreNodesFront};
ghost use Rattle.bz_canonical.specs.private.Arguments.{AreArgumentsRead, AreEnded, AreRead, IsNameRead, IsValueEnd, ReadsOtherwise};
ghost use Rattle.bz_canonical.specs.private.Pendings.{Grows, IsPending, Reads, pending};

use crate::Known;
use crate::comments::after_comments;
use crate::front::{Word, after_identifier, after_line, after_word, before};
use crate::lists::{after_comma, put_list};
use crate::otherwise::{Levels, put_nodes};
use crate::segments::{AfterLines, after_segments};
use crate::string_list::after_string_list;
use crate::value::{Value, after_first, after_nodes, either};
use bz_memory::extend_from_slice;
use bz_tree::GroupKind;

/// What is not in the buffer yet, as it stands as it is written.
#[derive(Clone, Copy)]
pub(crate) struct Pending<'t> {
    /// The text from there on.
    pub(crate) from: &'t [u8],
    /// What follows it, and is to be read.
    pub(crate) rest: &'t [u8],
}

/// So much is written up to here.
pub(crate) fn written_len(at: Pending<'_>, written: &Vec<u8>) -> Option<usize>
    ensures { IfSome result (λ len. (text all : List ℕ)
        → IsPending text written.now.items all at.entry.from.now at.entry.rest.now → len ≡ length all) }
{
    let pending = at.from.len().checked_sub(at.rest.len())?;
    let len = written.len().checked_add(pending)?;
    Some(len)
}

/// The name of an argument, and what follows its equals sign.
#[derive(Clone, Copy)]
pub(crate) struct ArgumentName<'t> {
    pub(crate) name: &'t [u8],
    pub(crate) value: &'t [u8],
}

/// The name of the argument here, and the comments above it.
#[inline(always)]
pub(crate) fn read_argument_name(text: &[u8]) -> Option<ArgumentName<'_>>
    ensures { IfSome result (λ read. IsNameRead text.now read.name.now read.value.now) }
{
    let above = after_comments(text, 1);
    let inner = after_line(above.rest, 1)?;
    let equals = after_identifier(inner)?;
    let value = after_word(equals, Word::Equals)?;
    let name = before(inner, equals.len())?;
    Some(ArgumentName { name, value })
}

/// What follows the value of an argument here.
#[inline(always)]
fn after_argument_nodes(value: &[u8], depth: u8) -> Option<Value<'_>>
    requires { depth < 254 }
    ensures { IfSome result (λ read. AreNodesFront 1 depth value.now read.rest.now read.holds) }
{
    // Most values are lists of strings.
    match after_string_list(value, depth) {
        Some(rest) => {
            let read = after_first(Value { rest, holds: true }, 1, depth)?;
            Some(read)
        }
        None => after_nodes(value, 1, depth),
    }
}

/// The end of an argument.
#[derive(Clone, Copy)]
pub(crate) struct ArgumentEnd<'t> {
    /// From its comma on.
    pub(crate) comma: &'t [u8],
    /// What follows the comment beside it.
    pub(crate) rest: &'t [u8],
}

/// The end of the argument whose value is here, where that stands as it is written.
#[inline(always)]
pub(crate) fn read_argument_end(value: &[u8], depth: u8) -> Option<ArgumentEnd<'_>>
    requires { depth < 254 }
    ensures { IfSome result (λ end. IsValueEnd depth value.now end.comma.now end.rest.now) }
{
    let read = after_argument_nodes(value, depth)?;
    let side = after_comma(read.rest)?;
    Some(ArgumentEnd {
        comma: read.rest,
        rest: side.rest,
    })
}

/// What follows the value here and its comma, where it stands as it is written.
#[inline(always)]
fn after_argument_value(value: &[u8], depth: u8) -> Option<&[u8]>
    requires { depth < 254 }
    ensures { IfSome result (λ rest. (comma : List ℕ) × IsValueEnd depth value.now comma rest.now) }
{
    let end = read_argument_end(value, depth)?;
    Some(end.rest)
}

/// Passes the argument here, whose name was read, where its value is a list of strings that stands otherwise than it is
/// written, and a bracket may be open. The list goes into the buffer, after what is pending, or a part of it, where it is
/// none. What is pending then begins with the comma.
#[inline(never)]
fn put_list_argument<'t>(
    at: Pending<'t>,
    value: &'t [u8],
    depth: u8,
    written: &mut Vec<u8>,
) -> Known<Pending<'t>>
    requires { depth < 254 }
    ensures grows { IfOk result (λ known. Grows written.old.items written.new.items) }
    ensures reads { IfOk result (λ known. IfSome known
        (ReadsOtherwise depth at.entry value.now written.old.items written.new.items)) }
{
    if depth == 0 {
        return Ok(None);
    }
    let Some(front) = before(at.from, value.len()) else {
        return Ok(None);
    };
    extend_from_slice(written, front)?;
    let Some(end) = put_list(value, written)? else {
        return Ok(None);
    };
    let Some(side) = after_comma(end) else {
        return Ok(None);
    };
    Ok(Some(Pending {
        from: end,
        rest: side.rest,
    }))
}

// Groups in groups that are gone over: what stands in a group is looked at once more for each group round it.
const NESTED: u8 = 8;

/// Passes the argument here, whose name was read, where its value stands otherwise than it is written, as
/// `put_list_argument` does, whatever the value is.
#[inline(never)]
fn put_value_argument<'t>(
    at: Pending<'t>,
    value: &'t [u8],
    depth: u8,
    written: &mut Vec<u8>,
) -> Known<Pending<'t>>
    requires { depth < 254 }
    ensures { IfOk result (λ known. IfSome known
        (ReadsOtherwise depth at.entry value.now written.old.items written.new.items)) }
{
    let Some(front) = before(at.from, value.len()) else {
        return Ok(None);
    };
    extend_from_slice(written, front)?;
    let levels = Levels {
        stands: 1,
        out: 1,
        depth,
        left: NESTED,
    };
    let Some(read) = put_nodes(value, levels, written)? else {
        return Ok(None);
    };
    let Some(side) = after_comma(read.rest) else {
        return Ok(None);
    };
    Ok(Some(Pending {
        from: read.rest,
        rest: side.rest,
    }))
}

/// Passes the argument here, whose name was read, where its value stands otherwise than it is written. The value goes into
/// the buffer as it would be written, after what is pending. What is pending then begins with the comma.
#[inline(always)]
pub(crate) fn put_otherwise<'t>(
    at: Pending<'t>,
    value: &'t [u8],
    depth: u8,
    written: &mut Vec<u8>,
) -> Known<Pending<'t>>
    requires { depth < 254 }
    ensures { IfOk result (λ known. IfSome known
        (ReadsOtherwise depth at.entry value.now written.old.items written.new.items)) }
{
    let len = written.len();
    // Most are lists of strings.
    if let Some(next) = put_list_argument(at, value, depth, written)? {
        return Ok(Some(next));
    }
    written.truncate(len);
    put_value_argument(at, value, depth, written)
}

/// Arguments that have names.
#[derive(Clone, Copy)]
pub(crate) struct NamedArguments<'t> {
    pub(crate) at: Pending<'t>,
    /// There is one at least.
    pub(crate) one: bool,
}

/// Passes the arguments here up to the last that has a name.
#[inline(always)]
fn pass_named<'t>(from: Pending<'t>, depth: u8, written: &mut Vec<u8>) -> Known<NamedArguments<'t>>
    requires { depth < 254 }
    ensures { IfOk result (λ known. IfSome known (λ read.
        Reads written.old.items (pending from.entry) written.new.items (pending read.at)
        (λ begun w. AreRead depth from.entry.rest.now read.at.rest.now w read.one))) }
{
    let mut at = from;
    let mut one = false;
    for _ in 0..from.rest.len() {
        let Some(head) = read_argument_name(at.rest) else {
            return Ok(Some(NamedArguments { at, one }));
        };
        one = true;
        // Most values stand as they are written.
        if let Some(rest) = after_argument_value(head.value, depth) {
            at = Pending {
                from: at.from,
                rest,
            };
            continue;
        }
        let Some(next) = put_otherwise(at, head.value, depth, written)? else {
            return Ok(None);
        };
        at = next;
    }
    Ok(None)
}

/// The arguments of a rule, and the comments after them.
#[derive(Clone, Copy)]
pub(crate) struct ReadArguments<'t> {
    pub(crate) at: Pending<'t>,
    /// There is one at least, or a comment: `read_rule` takes no rule without either.
    pub(crate) some: bool,
    /// Each has a name.
    pub(crate) named: bool,
}

/// Passes the arguments here, with the comments after them.
#[inline(always)]
pub(crate) fn pass_arguments<'t>(
    from: Pending<'t>,
    depth: u8,
    written: &mut Vec<u8>,
) -> Known<ReadArguments<'t>>
    requires { depth < 254 }
    ensures { IfOk result (λ known. IfSome known (λ read.
        Reads written.old.items (pending from.entry) written.new.items (pending read.at)
        (λ begun w. AreArgumentsRead depth from.entry.rest.now read.at.rest.now w read.some))) }
{
    let Some(named) = pass_named(from, depth, written)? else {
        return Ok(None);
    };
    Ok(pass_last(named, depth))
}

/// Passes what follows these arguments: others that have no name, and comments.
#[inline(always)]
pub(crate) fn pass_last<'t>(read: NamedArguments<'t>, depth: u8) -> Option<ReadArguments<'t>>
    requires { depth < 254 }
    ensures { IfSome result (AreEnded depth read.entry) }
{
    let last = after_last_segments(read.at.rest, depth)?;
    let more = last.count > 0;
    let one = either(read.one, more);
    Some(ReadArguments {
        at: Pending {
            from: read.at.from,
            rest: last.rest,
        },
        some: either(one, last.ended),
        named: !more,
    })
}

/// What follows the arguments here, and the comments after them.
#[inline(always)]
fn after_last_segments(text: &[u8], depth: u8) -> Option<AfterLines<'_>>
    requires { depth < 254 }
    ensures { IfSome result (λ read. (middle : List ℕ)
        × AreSegmentsFront RuleCall 1 depth text.now middle read.count read.holds read.noted
        × AreNotesFront 1 middle read.rest.now read.ended) }
{
    match text {
        // Most calls end here.
        [b'\n', b')', ..] => Some(AfterLines {
            rest: text,
            count: 0,
            holds: false,
            noted: false,
            ended: false,
        }),
        _ => after_segments(GroupKind::RuleCall, text, 1, depth),
    }
}
