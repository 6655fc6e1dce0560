//! `comment` above a rule, an argument or an element: a line more among the parts of the rule.

ghost use Rattle.std.specs.Prelude.{◌≡◌, ◌∷◌, [], IfOk, None, map, true};
ghost use Rattle.bz_tree.specs.Tree.{Statement};
ghost use Rattle.bz_tree.specs.Rows.{above, part_view, parts_of};
ghost use Rattle.bz_rule.specs.Comment as spec;
ghost use Rattle.bz_rule.specs.Commands.{args_after, args_done};
ghost use Rattle.bz_rule.specs.declared.command.Action.TheVariants.{Comment};
ghost use Rattle.bz_attribute.specs.Reports.{done};
ghost use Rattle.bz_attribute.specs.RowEdits.{IsRowEdit, IsWithin, replaced_at};
ghost use Rattle.bz_attribute.specs.RowPlaces.{IsRuleRow};
ghost use Rattle.bz_attribute.specs.Rules.{Rule};

use crate::commands::comment::comment_line;
use bz_attribute::{
    Done, Edit, Env, Parts, Place, find_argument, first_equal, first_list, kind_place, value_place,
};
use bz_label::Commented;
use bz_memory::{NoMemory, alloc_str, push};
use bz_tree::Part;
use std::alloc::Global;

/// Adds a comment line above the rule that has these parts. The line goes into `new`.
pub fn comment_rule<'a>(
    alloc: Global,
    text: &str,
    parts: &[Part<'a>],
    new: &mut Parts<'a>,
) -> Result<Edit, NoMemory>
    ensures within { IfOk result (λ e. IsWithin e.place (map part_view parts.now)) }
    ensures parts { IfOk result (λ e. (s : Statement) (r : Rule) → IsRuleRow s r (map part_view parts.now)
        → replaced_at e.place (map part_view new.new.items) (map part_view parts.now)
        ≡ parts_of (spec.comment_rule text.now s)) }
    ensures done { IfOk result (λ e. e.done ≡ done None true) }
{
    insert_line(alloc, text, kind_place(parts).from, new)
}

/// Adds a comment line above an argument, or an element of one, of the rule that has these parts; for one above the
/// rule it does nothing. The line goes into `new`.
pub fn comment<'a>(
    env: Env<'_>,
    commented: &Commented,
    text: &str,
    parts: &[Part<'a>],
    new: &mut Parts<'a>,
) -> Result<Edit, NoMemory>
    ensures { IfOk result (IsRowEdit (args_after (Comment commented.now text.now) env.entry.home.now)
        (args_done (Comment commented.now text.now) env.entry.home.now)
        (map part_view parts.now) (map part_view new.new.items)) }
{
    match commented {
        Commented::Rule => Ok(Edit::none(Done::quiet(false))),
        Commented::Attribute(attr) => {
            let Some(at) = find_argument(parts, attr.as_str()) else {
                return Ok(Edit::none(Done::no_attribute(env.alloc, attr.as_str())?));
            };
            insert_line(env.alloc, text, at, new)
        }
        Commented::Value(attr, value) => {
            let (attr, value) = (attr.as_str(), value.as_str());
            let Some(at) = value_place(parts, attr) else {
                return Ok(Edit::none(Done::no_attribute(env.alloc, attr)?));
            };
            let Some(list) = first_list(parts, at) else {
                return Ok(Edit::none(Done::not_a_list(env.alloc, attr)?));
            };
            let Some(token) = first_equal(env.home, value, parts, list) else {
                return Ok(Edit::none(Done::no_value(env.alloc, attr, value)?));
            };
            insert_line(env.alloc, text, token, new)
        }
    }
}

// Writes the comment line of a text, which comes to stand before a part.
fn insert_line(alloc: Global, text: &str, at: usize, new: &mut Parts<'_>) -> Result<Edit, NoMemory>
    ensures { IfOk result (λ e. (e ≡ record { done = done None true; place = record { from = at; to = at } })
        × (map part_view new.new.items ≡ above (spec.comment_line text.now) ∷ [])) }
{
    let line = comment_line(alloc, text)?;
    let bump = *new.allocator();
    let line = alloc_str(bump, line.as_str())?;
    new.clear();
    push(new, Part::Above(line))?;
    Ok(Edit::at(Place { from: at, to: at }))
}
