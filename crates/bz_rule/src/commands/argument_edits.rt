//! Edits of the arguments in a place among the parts of a rule.

ghost use Rattle.std.specs.Prelude.{◌≡◌, ◌≤◌, ◌<◌, None as Nothing, is_some, map, length, option_map, IfOk};
ghost use Rattle.bz_tree.specs.Rows.{part_view};
ghost use Rattle.bz_attribute.specs.Reports.{done};
ghost use Rattle.bz_attribute.specs.RowEdits.{IsRowEdit};
ghost use Rattle.bz_rule.specs.private.StringEdits.{IsUpTo, literal_of, means, written_to};
ghost use Rattle.bz_rule.specs.private.ArgumentEdits as spec;

use crate::commands::element_edits::{edit_value, loses_all};
use crate::commands::rewriting::make_way;
use crate::commands::string_edit::StringEdit;
use bz_attribute::{
    Done, Edit, Parts, Place, all_arguments, argument_place, first_argument, value_at,
};
use bz_label::Attributes;
use bz_memory::NoMemory;
use bz_tree::Part;

/// What becomes of the arguments of a rule.
#[derive(Clone, Copy)]
pub enum ArgumentEdit<'h, 'c, 'w> {
    /// Those of a name go, or each keyword argument but `name`.
    Gone(&'c Attributes),
    /// Elements of keyword arguments go, or become another. An argument that is a list goes where it loses all its
    /// elements.
    Strings(StringEdit<'h, 'c, 'w>),
}

// An argument of this name goes.
fn goes(attributes: &Attributes, name: Option<&str>) -> bool
    ensures { result ≡ spec.goes attributes.now (option_map (λ text. text.now) name.entry) }
{
    let Some(name) = name else {
        return false;
    };
    match attributes {
        Attributes::Every => name != "name",
        Attributes::Named(attr) => name == attr.as_str(),
    }
}

// Edits the argument at a place. Tells where the next begins.
fn edit_argument<'a>(
    edit: ArgumentEdit<'_, '_, '_>,
    parts: &[Part<'a>],
    at: usize,
    written: &mut Option<Place>,
    out: &mut Parts<'a>,
) -> Result<usize, NoMemory>
    requires { (at < length parts.now) × IsUpTo written.now at }
    ensures within { IfOk result (λ next. (at < next) × (next ≤ length parts.now)) }
    ensures up_to { IfOk result (λ next. IsUpTo written.new next) }
    ensures edited { IfOk result (λ next. spec.HasEditedOne (spec.edit_by edit.entry)
        (spec.changes_by edit.entry)
        (map part_view parts.now) at next (is_some written.old) (is_some written.new)
        (written_to written.old (map part_view out.old.items) (map part_view parts.now) at)
        (written_to written.new (map part_view out.new.items) (map part_view parts.now) next)) }
{
    let argument = first_argument(&parts[at..]);
    let to = at + argument.to;
    match edit {
        ArgumentEdit::Gone(attributes) => {
            if !goes(attributes, argument.name) {
                return Ok(to);
            }
            make_way(parts, Place { from: at, to }, written, out)?;
            Ok(to)
        }
        ArgumentEdit::Strings(strings) => {
            if argument.name.is_none() {
                return Ok(to);
            }
            let value = to.min(value_at(at + argument.nodes));
            if loses_all(strings, parts, value) {
                make_way(parts, Place { from: at, to }, written, out)?;
                return Ok(to);
            }
            let end = edit_value(strings, parts, value, written, out)?;
            Ok(to.max(end))
        }
    }
}

/// The arguments in a place of a rule are edited.
pub fn edit_in<'a>(
    edit: ArgumentEdit<'_, '_, '_>,
    parts: &[Part<'a>],
    place: Place,
    new: &mut Parts<'a>,
) -> Result<Edit, NoMemory>
    requires { (place.from ≤ place.to) × (place.to ≤ length parts.now) }
    ensures { IfOk result (λ e. spec.IsPlaceEdit (spec.edit_by edit.entry) (spec.changes_by edit.entry) place
        (map part_view parts.now) (map part_view new.new.items) e) }
{
    let front = &parts[..place.to];
    let mut at = place.from;
    let mut written = None;
    while at < front.len() {
        at = edit_argument(edit, front, at, &mut written, new)?;
    }
    match written {
        None => Ok(Edit::none(Done::quiet(false))),
        Some(place) => Ok(Edit::at(place)),
    }
}

/// Elements of the first argument of a name go or become another, or elements of all arguments.
pub fn edit_strings<'a>(
    edit: StringEdit<'_, '_, '_>,
    attributes: &Attributes,
    parts: &[Part<'a>],
    new: &mut Parts<'a>,
) -> Result<Edit, NoMemory>
    ensures { IfOk result (IsRowEdit
        (spec.edited_in (means edit.entry) (literal_of edit.entry) attributes.now)
        (λ args. done Nothing (spec.changes_in (means edit.entry) attributes.now args))
        (map part_view parts.now) (map part_view new.new.items)) }
{
    let edit = ArgumentEdit::Strings(edit);
    match attributes {
        Attributes::Every => edit_in(edit, parts, all_arguments(parts), new),
        Attributes::Named(attr) => edit_in(edit, parts, argument_place(parts, attr.as_str()), new),
    }
}
