//! The head of a rule, by its row: no tree is needed for it.

ghost use Rattle.std.specs.Prelude.{◌≡◌, IfOk, map, option_and_then, option_map, string_bytes};
ghost use Rattle.bz_tree.specs.Tree.{Statement};
ghost use Rattle.bz_tree.specs.Statement.{class_of};
ghost use Rattle.bz_tree.specs.Rows.{IsRowOf, part_view, parts_of};
ghost use Rattle.bz_tree.specs.declared.tree.Class.TheVariants.{Rule as RuleClass};
ghost use Rattle.bz_attribute.specs.Heads.{HasHead, IsHeadOf};
ghost use Rattle.bz_attribute.specs.Marks as marks;
ghost use Rattle.bz_attribute.specs.RowPlaces.{ForRule};
ghost use Rattle.bz_attribute.specs.Rules.{name_in};
ghost use Rattle.bz_attribute.specs.Texts.{shown_text};
ghost use Rattle.bz_attribute.specs.private.Parts as spec;
ghost use Rattle.bz_label.specs.Values.{value_of};

use crate::elements::{string_in, value_place};
use crate::place::{comments_len, tokens_len};
use crate::texts::push_home;
use bumpalo::Bump;
use bz_label::{Marked, Package, Target, plain_text, read_value};
use bz_memory::{NoMemory, alloc_str, push_str, with_length_of};
use bz_tree::{Class, GroupKind, Part, Row};
use std::alloc::Global;

// Most messages on a rule are no longer, and are made of what shows it without making room for more.
const LONG_MESSAGE: &str =
    "//the/package/of/many/rules:the_name_of_a_rule_of_the_package: no attribute 'visibility' to print";

/// The head of a rule: what its kind, its name and its lines are.
#[derive(Clone, Copy)]
pub struct Head<'a> {
    /// Its identifiers and dots, with nothing between them.
    pub kind: &'a str,
    /// The value of its first attribute `name`, where that is one string with a value.
    pub name: Option<&'a str>,
    /// The line of its first token.
    pub start: u64,
    /// The line on which its last token ends.
    pub end: u64,
}

impl<'a> Head<'a> {
    /// The head of the rule that a row is of; none of what is no rule. A kind of one identifier and a name without
    /// escapes are slices of the row. `Err`: memory was refused.
    #[tactic(auto, using(crate::proofs::Headed::other_class))]
    pub fn of_row(
        alloc: Global,
        bump: &'a Bump,
        row: &Row<'a>,
    ) -> Result<Option<Head<'a>>, NoMemory>
        ensures { IfOk result (λ found. (s : Statement) → s.class ≡ class_of s.nodes → IsRowOf s row.now
            → HasHead found s) }
    {
        match row.class {
            Class::Rule => Head::of_parts(alloc, bump, &row.parts, row.start, row.end),
            _ => Ok(None),
        }
    }

    /// The head of the rule of these parts, on these lines. `Err`: memory was refused.
    pub fn of_parts(
        alloc: Global,
        bump: &'a Bump,
        parts: &[Part<'a>],
        start: u64,
        end: u64,
    ) -> Result<Option<Head<'a>>, NoMemory>
        ensures { IfOk result (λ found. (s : Statement) → class_of s.nodes ≡ RuleClass
            → map part_view parts.now ≡ parts_of s → s.start ≡ start → s.end ≡ end → HasHead found s) }
    {
        let first = &parts[comments_len(parts)..];
        if !is_called(&first[tokens_len(first)..]) {
            return Ok(None);
        }
        let kind = kind_of(alloc, bump, first)?;
        let name = value_in(alloc, bump, name_text(parts))?;
        Ok(Some(Head {
            kind,
            name,
            start,
            end,
        }))
    }

    /// The target marks the rule.
    pub fn is_marked_by(&self, target: &Target) -> bool
        ensures { (s : Statement) → IsHeadOf self.now s → result ≡ marks.marks target.now s }
    {
        match target.marked() {
            Marked::Name(name) => matches!(self.name, Some(own) if own == name),
            Marked::Pkg => self.kind == "package",
            Marked::All => true,
            Marked::Kind(kind) => self.kind == kind,
            Marked::Line(line) => self.start == line,
        }
    }

    /// The rule by its name, or by `%` and its kind.
    pub fn shown(&self, alloc: Global, home: &Package) -> Result<String, NoMemory>
        ensures { IfOk result (λ text. (s : Statement) → IsHeadOf self.now s
            → string_bytes text ≡ shown_text home.now s) }
    {
        let mut text = with_length_of(alloc, LONG_MESSAGE)?;
        push_home(&mut text, home)?;
        match self.name {
            Some(name) => push_str(&mut text, name)?,
            None => {
                push_str(&mut text, "%")?;
                push_str(&mut text, self.kind)?;
            }
        }
        Ok(text)
    }
}

// The call of a rule opens there.
fn is_called(parts: &[Part<'_>]) -> bool
    ensures { result ≡ spec.opens_call (map part_view parts.now) }
{
    matches!(parts, [Part::Open(GroupKind::RuleCall), ..])
}

// The texts of the tokens with which parts begin: a slice where it is one, and else a new text in the arena.
fn kind_of<'a>(alloc: Global, bump: &'a Bump, parts: &[Part<'a>]) -> Result<&'a str, NoMemory>
    ensures { IfOk result (λ kind. kind.now ≡ spec.token_texts (map part_view parts.now)) }
{
    match parts {
        [Part::Token(_, text), Part::Open(_), ..] => Ok(*text),
        _ => joined_tokens(alloc, bump, parts),
    }
}

fn joined_tokens<'a>(alloc: Global, bump: &'a Bump, parts: &[Part<'a>]) -> Result<&'a str, NoMemory>
    ensures { IfOk result (λ kind. kind.now ≡ spec.token_texts (map part_view parts.now)) }
{
    let mut kind = String::new(alloc);
    let mut rest = parts;
    while let [Part::Token(_, text), after @ ..] = rest {
        push_str(&mut kind, text)?;
        rest = after;
    }
    alloc_str(bump, kind.as_str())
}

// The string that the first argument `name` of a rule is, where it is one.
#[tactic(auto, using(crate::proofs::ListElements::none_told))]
fn name_text<'a>(parts: &[Part<'a>]) -> Option<&'a str>
    ensures { ForRule (map part_view parts.now)
        (λ s r ps. option_and_then value_of (option_map (λ text. text.now) result) ≡ name_in r.args) }
{
    let value = value_place(parts, "name")?;
    string_in(&parts[value..])
}

// The value of a text: a slice where it has no escapes, and else a new text in the arena.
fn value_in<'a>(
    alloc: Global,
    bump: &'a Bump,
    text: Option<&'a str>,
) -> Result<Option<&'a str>, NoMemory>
    ensures { IfOk result (λ value. option_map (λ v. v.now) value
        ≡ option_and_then value_of (option_map (λ t. t.now) text.entry)) }
{
    let Some(text) = text else {
        return Ok(None);
    };
    if let Some(value) = plain_text(text) {
        return Ok(Some(value));
    }
    match read_value(alloc, text)? {
        None => Ok(None),
        Some(value) => Ok(Some(alloc_str(bump, value.as_str())?)),
    }
}
