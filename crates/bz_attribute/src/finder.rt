//! The arguments of a rule by their parts: the first one of a name, and the one with which some begin.

ghost use Rattle.std.specs.Prelude.{◌≡◌, ◌+◌, ◌<◌, ◌≤◌, ◌^◌, List, map, option_map, IfSome, length};
ghost use Rattle.bz_tree.specs.Tree.{Segment};
ghost use Rattle.bz_tree.specs.Rows.{RowPart, part_view};
ghost use Rattle.bz_attribute.specs.RowPlaces.{AreArguments, ForRule, HasArgument, HasArgumentAmong, IsFirstArgument, argument_parts, arguments_begin};
ghost use Rattle.bz_attribute.specs.Rules.{is_text};
ghost use Rattle.bz_attribute.specs.private.Parts as spec;

use crate::elements::ends_list;
use crate::place::{arguments_begin, comments_len, segment_len};
use bz_token::Kind;
use bz_tree::Part;

// The name of the argument that the parts begin with.
fn name_in<'a>(parts: &[Part<'a>]) -> Option<&'a str>
    ensures { option_map (λ text. text.now) result ≡ spec.flat_name (map part_view parts.now) }
{
    match parts {
        [
            Part::Token(Kind::Identifier, name),
            Part::Token(Kind::Operator, operator),
            ..
        ] if matches!(operator.as_bytes(), [b'=']) => { Some(*name) }
        _ => None,
    }
}

fn begins_with(parts: &[Part<'_>], name: &str) -> bool
    ensures { result ≡ is_text name.now (spec.flat_name (map part_view parts.now)) }
{
    matches!(name_in(parts), Some(other) if other == name)
}

/// Where the first argument of a name begins among the parts of a rule, after the comments above it. Of other parts,
/// the arguments are what stands in the bracket that opens first.
pub fn find_argument(parts: &[Part<'_>], name: &str) -> Option<usize>
    ensures found { ForRule (map part_view parts.now) (λ s r ps. HasArgument name.now s r result) }
    ensures first { (before : List RowPart) (args : List Segment)
        → AreArguments before args (map part_view parts.now)
        → HasArgumentAmong name.now before args result }
    ensures begun { IfSome result (λ at. arguments_begin (map part_view parts.now) ≤ at) }
    ensures within { IfSome result (λ at. at < length parts.now) }
{
    let mut at = arguments_begin(parts);
    while at < parts.len() {
        let nodes = at + comments_len(&parts[at..]);
        let argument = &parts[nodes..];
        if ends_list(argument) {
            return None;
        }
        if begins_with(argument, name) {
            return Some(nodes);
        }
        at = nodes + segment_len(argument);
    }
    None
}

/// Where the value of an argument with a name begins whose nodes begin at a place: after its name and `=`.
pub fn value_at(nodes: usize) -> usize
    requires { nodes + 2 < 2 ^ 64 }
    ensures { result ≡ nodes + 2 }
{
    nodes + 2
}

/// An argument. It begins with the comments above it.
#[derive(Clone, Copy)]
pub struct FirstArgument<'a> {
    /// Where its nodes begin, after the comments above it.
    pub nodes: usize,
    /// After its last part.
    pub to: usize,
    /// Its name, where it is a keyword argument.
    pub name: Option<&'a str>,
}

/// The first of the arguments that have these parts.
pub fn first_argument<'a>(parts: &[Part<'a>]) -> FirstArgument<'a>
    requires { 0 < length parts.now }
    ensures within { (result.nodes ≤ result.to) × (result.to ≤ length parts.now) }
    ensures progress { 0 < result.to }
    ensures argument { (a : Segment) (others : List Segment)
        → map part_view parts.now ≡ argument_parts a others
        → IsFirstArgument a result.nodes result.to (option_map (λ name. name.now) result.name) }
{
    let nodes = comments_len(parts);
    let own = &parts[nodes..];
    FirstArgument {
        nodes,
        to: nodes + segment_len(own),
        name: name_in(own),
    }
}
