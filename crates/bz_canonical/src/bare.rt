//! A statement that stands as it would be written, without the comments above and beside it.

ghost use Rattle.std.specs.Prelude.{◌≡◌, ◌-◌, ◌<◌, length, option_map, take, IfSome, None};
ghost use Rattle.bz_canonical.specs.private.Statements.{IsBareFront};

use crate::assignment::after_assignment;
use crate::front::{Word, after, after_identifier, after_word, before};
use crate::load::after_load;
use crate::rule::read_rule_call;
use bz_tree::Class;

/// A statement without its comments, and what follows it.
#[derive(Clone, Copy)]
pub(crate) struct BareStatement<'t> {
    pub(crate) rest: &'t [u8],
    pub(crate) class: Class,
    /// The name of a rule. None: it is no rule, or has no name.
    pub(crate) name: Option<&'t [u8]>,
    /// The kind of a rule without an argument `name`. None: it is not known.
    pub(crate) kind: Option<&'t [u8]>,
}

/// The load, rule or assignment here.
#[tactic(auto, using(crate::proofs::BareStatements::bare_fronts))]
#[inline(always)]
pub(crate) fn read_bare_statement(text: &[u8], max_depth: u8) -> Option<BareStatement<'_>>
    requires { max_depth < 254 }
    ensures { IfSome result (λ read. IsBareFront max_depth read.class
        (option_map (λ name. name.now) read.name)
        (option_map (λ kind. kind.now) read.kind) text.now read.rest.now) }
{
    if max_depth == 0 {
        return None;
    }
    if let Some(inside) = after_word(text, Word::Load) {
        let rest = after_load(inside)?;
        return Some(BareStatement {
            class: Class::Load,
            name: None,
            kind: None,
            rest,
        });
    }
    let end = after_identifier(text)?;
    if let Some(member) = after(end, b'.') {
        let bracket = after_identifier(member)?;
        let read = read_rule_call(bracket, max_depth)?;
        return Some(BareStatement {
            class: Class::Rule,
            name: read.name,
            kind: None,
            rest: read.rest,
        });
    }
    match end {
        [b' ', ..] => {
            let rest = after_assignment(end, max_depth)?;
            Some(BareStatement {
                class: Class::Assign,
                name: None,
                kind: None,
                rest,
            })
        }
        _ => {
            let read = read_rule_call(end, max_depth)?;
            Some(BareStatement {
                class: Class::Rule,
                name: read.name,
                kind: kind_before(text, end, read.name),
                rest: read.rest,
            })
        }
    }
}

/// The kind of a rule, which stands before its call, where it has no name.
fn kind_before<'t>(text: &'t [u8], call: &[u8], name: Option<&[u8]>) -> Option<&'t [u8]>
    ensures { IfSome result (λ kind. (name.entry ≡ None)
        × (kind.now ≡ take (length text.now - length call.now) text.now)) }
{
    match name {
        Some(_) => None,
        None => {
            let kind = before(text, call.len())?;
            Some(kind)
        }
    }
}
