//! Where the walk that reads a row stands in a bracket, or at the top.

ghost use Rattle.std.specs.Prelude.{◌≡◌, not, Some};
ghost use Rattle.std.specs.Bool.{then_some};
ghost use Rattle.bz_tree.specs.private.Machine.{kind_role};
ghost use Rattle.bz_tree.specs.private.RowSteps.{here_view, is_ended, shown_kind, start, read_leaf, read_group, new_stand, stand, ended_at, with_comma, is_lost, read_class, end_class, is_one_comma};

use crate::grammar::role::{Role, is_assignment};
use crate::grammar::stage::{Stage, advance, begin, group_role, later, may_end};
use crate::tree::classes::{Naming, called, is_call, named};
use crate::tree::kinds::{Preceding, kind_after};
use crate::tree::{Class, GroupKind};
use bz_token::Kind;

// How many segments are done.
#[derive(Clone, Copy)]
pub(crate) enum SegmentCount {
    Zero,
    One,
    More,
}

// What stands directly before: nothing but comments of a segment, the comma on this line, a node that begins on this
// line, with its text if it is a token, or the end of the last segment.
#[derive(Clone, Copy)]
pub(crate) enum Here<'a> {
    Nothing,
    Comma(u64),
    Node(u64, &'a str),
    Ended,
}

// What the nodes of a segment are so far.
#[derive(Clone, Copy)]
pub(crate) struct Read {
    pub(crate) stage: Stage,
    pub(crate) at: Preceding,
    pub(crate) naming: Naming,
    // One of them is an assignment operator.
    pub(crate) assigns: bool,
}

// A bracket that is open, or the top.
#[derive(Clone, Copy)]
pub(crate) struct Spot<'a> {
    // None at the top.
    pub(crate) kind: Option<GroupKind>,
    pub(crate) done: SegmentCount,
    pub(crate) here: Here<'a>,
    pub(crate) read: Read,
}

/// As what a bracket is shown that opens here.
#[inline(always)]
pub(crate) fn shown_kind(naming: Naming, kind: GroupKind) -> GroupKind
    ensures { result ≡ shown_kind naming kind }
{
    match naming {
        Naming::Join if is_call(kind) => GroupKind::RuleCall,
        _ => kind,
    }
}

#[inline(always)]
fn start(kind: Option<GroupKind>) -> Read
    ensures { result ≡ start kind }
{
    match kind {
        None => Read {
            stage: Stage::Statement,
            at: Preceding::Other,
            naming: Naming::Name,
            assigns: false,
        },
        Some(kind) => Read {
            stage: begin(kind),
            at: Preceding::Other,
            naming: Naming::Never,
            assigns: false,
        },
    }
}

impl Read {
    // After a token of this role.
    #[inline(always)]
    pub(crate) fn add_leaf(&mut self, kind: Kind, text: &str, role: Role)
        requires { role ≡ kind_role kind text.now }
        ensures { self.new ≡ read_leaf kind text.now self.old }
    {
        advance(&mut self.stage, role);
        self.at = kind_after(kind, text);
        if !matches!(self.naming, Naming::Never) {
            self.naming = named(self.naming, kind, text);
        }
        if is_assignment(role) {
            self.assigns = true;
        }
    }

    #[inline(always)]
    pub(crate) fn add_group(&mut self, kind: GroupKind)
        ensures { self.new ≡ read_group kind self.old }
    {
        advance(&mut self.stage, group_role(kind));
        self.at = Preceding::Operand;
        if !matches!(self.naming, Naming::Never) {
            self.naming = called(self.naming, kind);
        }
    }

    // The class of a statement of these nodes. None: it is left to its tree.
    fn class(&self) -> Option<Class>
        ensures { result ≡ then_some (not (is_lost self.now.naming)) (read_class self.now) }
    {
        match (self.naming, self.stage) {
            (Naming::Lost, _) => None,
            (_, Stage::Done) => Some(Class::Load),
            _ if self.assigns => Some(Class::Assign),
            (Naming::End, _) => Some(Class::Rule),
            _ => Some(Class::Other),
        }
    }
}

impl<'a> Spot<'a> {
    #[inline(always)]
    pub(crate) fn new(kind: Option<GroupKind>) -> Spot<'a>
        ensures { stand result ≡ new_stand kind }
    {
        Spot {
            kind,
            done: SegmentCount::Zero,
            here: Here::Nothing,
            read: start(kind),
        }
    }

    #[inline(always)]
    pub(crate) fn is_ended(&self) -> bool
        ensures { result ≡ is_ended (here_view self.now.here) }
    {
        matches!(self.here, Here::Ended)
    }

    // The segment here is done, and the comma on this line is next. What is read stays.
    #[inline(always)]
    pub(crate) fn end_segment(&mut self, line: u64)
        ensures { stand self.new ≡ ended_at line (stand self.old) }
    {
        self.done = match self.done {
            SegmentCount::Zero => SegmentCount::One,
            _ => SegmentCount::More,
        };
        self.here = Here::Comma(line);
    }

    #[inline(always)]
    pub(crate) fn add_comma(&mut self, kind: GroupKind, line: u64)
        requires { self.old.kind ≡ Some kind }
        ensures { stand self.new ≡ with_comma line (stand self.old) }
    {
        self.end_segment(line);
        self.read = start(Some(kind));
        self.read.stage = later(self.read.stage);
    }

    // The class of a statement that ends here. None: it is left to its tree.
    pub(crate) fn class(&self) -> Option<Class>
        ensures { result ≡ end_class (here_view self.now.here) self.now.read }
    {
        match self.here {
            Here::Nothing => Some(Class::Comment),
            _ if may_end(self.read.stage) => self.read.class(),
            _ => None,
        }
    }

    // It is `(x,)`.
    #[inline(always)]
    pub(crate) fn is_one_comma(&self, kind: GroupKind) -> bool
        ensures { result ≡ is_one_comma kind (stand self.now) }
    {
        match self.here {
            Here::Node(_, _) | Here::Ended => false,
            _ => matches!(kind, GroupKind::Paren) && matches!(self.done, SegmentCount::One),
        }
    }
}
