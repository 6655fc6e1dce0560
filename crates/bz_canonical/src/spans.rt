//! Where the lines of the arguments of a rule stand: noted while the rule is passed, for who looks at some of them alone.

ghost use Rattle.std.specs.Prelude.{◌≡◌, ◌<◌, ◌+◌, ◌-◌, ◌∷◌, ℕ, List, None, length, take, bytes_eq, if◌then◌else◌, IfOk, IfSome, IsTrue};
ghost use Rattle.std.specs.List.{position};
ghost use Rattle.bz_canonical.specs.Spans.{is_asked};
ghost use Rattle.bz_canonical.specs.private.Noted.{AreNoted, IsNameSpan, IsSpanBetween, NotesRule};
ghost use Rattle.bz_canonical.specs.private.Pendings.{IsPending, Reads, pending};
ghost use Rattle.bz_canonical.specs.private.Rules.{IsRuleHead, IsRuleRead};
ghost use Rattle.bz_canonical.specs.private.Arguments.{ReadsUpTo};

use crate::Known;
use crate::arguments::{
    ArgumentEnd, NamedArguments, Pending, pass_last, put_otherwise, read_argument_end,
    read_argument_name, written_len,
};
use crate::front::{are_same, before};
use crate::named_rule::{ReadRule, RuleHead, read_rule_end};
use bz_label::Text;
use bz_memory::push;

/// Where the lines of an argument stand, with the comments above it. They begin with a newline, and end before the next.
/// Places are in bytes.
#[derive(Clone, Copy)]
pub struct ArgumentSpan {
    /// In the chunk the lines begin here.
    pub from: usize,
    /// And end here.
    pub to: usize,
    /// In what is written of the chunk they begin here.
    pub start: usize,
    /// Their comma is here, before the comment beside it.
    pub comma: usize,
    /// And they end here.
    pub end: usize,
    /// The index of the first of the names that are asked for which it has. None: it has none of them.
    pub named: Option<usize>,
    /// One of the values that are sought may be in it (`seal` finds out).
    pub sought: bool,
}

impl ArgumentSpan {
    /// Whether it has a name that is asked for, or may have a value that is sought.
    #[inline(always)]
    pub(crate) fn is_asked(&self) -> bool
        ensures { result ≡ is_asked self.now }
    {
        self.named.is_some() || self.sought
    }
}

/// What is sought among the arguments of a rule, to be noted.
#[derive(Clone, Copy)]
pub(crate) struct NamesSought<'c> {
    /// The names that are asked for.
    pub(crate) names: &'c [Text],
    /// So many brackets may be open in the value of an argument.
    pub(crate) depth: u8,
    /// So long is the text that begins with the rule.
    pub(crate) len: usize,
}

/// An argument that was passed.
#[derive(Clone, Copy)]
struct NotedValue<'t> {
    at: Pending<'t>,
    /// The text from its comma on.
    comma: &'t [u8],
}

/// Passes the argument here, whose name was read, up to what follows its comma.
#[inline(always)]
fn note_value<'t>(
    at: Pending<'t>,
    value: &'t [u8],
    depth: u8,
    written: &mut Vec<u8>,
) -> Known<NotedValue<'t>>
    requires { depth < 254 }
    ensures { IfOk result (λ known. IfSome known (λ read.
        ReadsUpTo depth at.entry value.now written.old.items written.new.items read.at read.comma.now)) }
{
    // Most values stand as they are written.
    if let Some(ArgumentEnd { comma, rest }) = read_argument_end(value, depth) {
        let at = Pending {
            from: at.from,
            rest,
        };
        return Ok(Some(NotedValue { at, comma }));
    }
    let Some(at) = put_otherwise(at, value, depth, written)? else {
        return Ok(None);
    };
    Ok(Some(NotedValue { at, comma: at.from }))
}

/// The index of the first of the names that are asked for which the word is.
#[inline(always)]
fn index_of(names: &[Text], word: &[u8]) -> Option<usize>
    ensures { result ≡ position (λ name. bytes_eq name word.now) names.now }
{
    names
        .iter()
        .position(|name| are_same(name.as_str().as_bytes(), word))
}

/// How far a rule was passed.
#[derive(Clone, Copy)]
struct Place {
    /// So many bytes of the text.
    stands: usize,
    /// So many bytes are written of them.
    written: usize,
}

/// The place here, in a text of this length.
#[inline(always)]
fn place_of(len: usize, at: Pending<'_>, written: &Vec<u8>) -> Option<Place>
    ensures stands { IfSome result (λ place. place.stands + length at.entry.rest.now ≡ len) }
    ensures written { IfSome result (λ place. (text all : List ℕ)
        → IsPending text written.now.items all at.entry.from.now at.entry.rest.now
        → place.written ≡ length all) }
{
    let rest = at.rest.len();
    if len < rest {
        return None;
    }
    let written = written_len(at, written)?;
    Some(Place {
        stands: len - rest,
        written,
    })
}

/// Where an argument stands between these places.
#[inline(always)]
fn span_of(
    named: Option<usize>,
    from: Place,
    value: NotedValue<'_>,
    to: Place,
) -> Option<ArgumentSpan>
    ensures { IfSome result (IsSpanBetween named from (length value.entry.comma.now)
        (length value.entry.at.rest.now) to) }
{
    let (comma, rest) = (value.comma.len(), value.at.rest.len());
    if comma < rest || to.written < comma - rest {
        return None;
    }
    Some(ArgumentSpan {
        from: from.stands,
        to: to.stands,
        start: from.written,
        comma: to.written - (comma - rest),
        end: to.written,
        named,
        sought: false,
    })
}

/// Passes the arguments here up to the last that has a name, and notes where they stand.
#[inline(always)]
fn note_arguments<'t>(
    from: Pending<'t>,
    notes: NamesSought<'_>,
    written: &mut Vec<u8>,
    spans: &mut Vec<ArgumentSpan>,
) -> Known<NamedArguments<'t>>
    requires { notes.depth < 254 }
    ensures { IfOk result (λ known. IfSome known (λ read.
        Reads written.old.items (pending from.entry) written.new.items (pending read.at)
        (λ begun w. AreNoted notes.entry from.entry.rest.now read.at.rest.now begun w
        spans.old.items spans.new.items read.one))) }
{
    let mut at = from;
    let mut one = false;
    let Some(mut place) = place_of(notes.len, at, written) else {
        return Ok(None);
    };
    for _ in 0..from.rest.len() {
        let Some(head) = read_argument_name(at.rest) else {
            return Ok(Some(NamedArguments { at, one }));
        };
        let named = index_of(notes.names, head.name);
        let Some(value) = note_value(at, head.value, notes.depth, written)? else {
            return Ok(None);
        };
        let Some(next) = place_of(notes.len, value.at, written) else {
            return Ok(None);
        };
        let Some(span) = span_of(named, place, value, next) else {
            return Ok(None);
        };
        push(spans, span)?;
        at = value.at;
        place = next;
        one = true;
    }
    Ok(None)
}

/// A rule that was passed.
#[derive(Clone, Copy)]
pub(crate) struct NotedRule<'t> {
    pub(crate) rule: ReadRule<'t>,
    /// It is known where its arguments stand: each has a name.
    pub(crate) known: bool,
}

/// Passes the rule here, as `read_rule` does, and notes where its arguments stand. The spans that were there are lost.
#[inline(always)]
pub(crate) fn note_rule<'t>(
    text: &'t [u8],
    head: RuleHead<'t>,
    notes: NamesSought<'_>,
    written: &mut Vec<u8>,
    spans: &mut Vec<ArgumentSpan>,
) -> Known<NotedRule<'t>>
    requires deep { notes.depth < 253 }
    requires len { notes.len ≡ length text.now }
    requires head { IsRuleHead text.now head.name.now head.inside.now head.rest.now }
    ensures rule { IfOk result (λ known. IfSome known (λ noted. IsRuleRead (notes.entry.depth + 1)
        head.entry.name.now text.now noted.rule.rest.now (if noted.rule.as_is
        then take (length text.now - length noted.rule.rest.now) text.now else written.new.items))) }
    ensures spans { IfOk result (λ known. IfSome known
        (λ noted. IsTrue noted.known → NotesRule (notes.entry.depth + 1)
        notes.entry.names.now text.now noted.rule written.new.items spans.new.items)) }
{
    written.clear();
    spans.clear();
    let named = index_of(notes.names, b"name".as_slice());
    let Some(name) = name_span(named, text, head) else {
        return Ok(None);
    };
    push(spans, name)?;
    let start = Pending {
        from: text,
        rest: head.rest,
    };
    let Some(arguments) = note_arguments(start, notes, written, spans)? else {
        return Ok(None);
    };
    let Some(read) = pass_last(arguments, notes.depth) else {
        return Ok(None);
    };
    let Some(rule) = read_rule_end(read, written)? else {
        return Ok(None);
    };
    Ok(Some(NotedRule {
        rule,
        known: read.named,
    }))
}

/// Where the name of a rule stands: before it nothing stands otherwise than it is written.
fn name_span(named: Option<usize>, text: &[u8], head: RuleHead<'_>) -> Option<ArgumentSpan>
    ensures { IfSome result (IsNameSpan named text.now head.entry.inside.now head.entry.rest.now) }
{
    let from = text.len().checked_sub(head.inside.len())?;
    let to = text.len().checked_sub(head.rest.len())?;
    Some(ArgumentSpan {
        from,
        to,
        start: from,
        comma: to.checked_sub(1)?,
        end: to,
        named,
        sought: false,
    })
}
