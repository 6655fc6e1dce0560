//! `move`: elements go from one attribute to another, each with its comments.

ghost use Rattle.std.specs.Prelude.{◌≡◌, ◌≤◌, ◌++◌, None as Nothing, map, length, IfOk, IfSome, OnOk};
ghost use Rattle.bz_tree.specs.Rows.{part_view};
ghost use Rattle.bz_label.specs.declared.arguments.Chosen.{Chosen as Choice};
ghost use Rattle.bz_attribute.specs.Effects.{is_chosen};
ghost use Rattle.bz_attribute.specs.Reports.{done};
ghost use Rattle.bz_attribute.specs.RowEdits.{IsRowEdit, replaced_at};
ghost use Rattle.bz_rule.specs.Move as spec;
ghost use Rattle.bz_rule.specs.Reports.{moves};
ghost use Rattle.bz_rule.specs.private.ListPlaces.{AreFound, AreWithin, HasPut, parts_at};
ghost use Rattle.bz_rule.specs.private.Steps as steps;
ghost use Rattle.bz_rule.specs.private.StringEdits.{is_meant, literal_of, means};

use crate::commands::argument_edits::{ArgumentEdit, edit_in};
use crate::commands::arrivals::{Lists, arrivals};
use crate::commands::list_place::{ListPlace, list_place};
use crate::commands::new_attribute::{close_attribute, open_attribute};
use crate::commands::string_edit::{Meant, StringEdit};
use bumpalo::Bump;
use bz_attribute::{
    Done, Edit, Env, Parts, Place, WordSet, argument_place, elements_end, new_place,
};
use bz_label::Chosen;
use bz_memory::{NoMemory, extend_from_slice};
use bz_tree::Part;

/// Which elements go from one attribute to another.
#[derive(Clone, Copy)]
pub struct Move<'c> {
    pub old: &'c str,
    pub new: &'c str,
    pub moved: &'c Chosen,
}

/// Moves elements of the first argument of one name to the first one of another, or to a new one, in the rule that has
/// these parts. All parts of the rule go into `written`, where anything changes.
pub fn move_elements<'a>(
    env: Env<'_>,
    change: Move<'_>,
    parts: &[Part<'a>],
    written: &mut Parts<'a>,
) -> Result<Edit, NoMemory>
    ensures { IfOk result (IsRowEdit
        (spec.move env.entry.home.now change.entry.old.now change.entry.new.now change.entry.moved.now)
        (λ args. done (spec.move_note change.entry.old.now change.entry.new.now args)
        (moves env.entry.home.now change.entry.old.now change.entry.moved.now args))
        (map part_view parts.now) (map part_view written.new.items)) }
{
    let Move { old, new, moved: _ } = change;
    match (list_place(parts, old), list_place(parts, new)) {
        (ListPlace::Absent, _) => Ok(Edit::none(Done::no_attribute(env.alloc, old)?)),
        (ListPlace::NoList, _) => Ok(Edit::none(Done::not_a_list(env.alloc, old)?)),
        (_, ListPlace::NoList) => Ok(Edit::none(Done::not_a_list(env.alloc, new)?)),
        (ListPlace::At(from), ListPlace::Absent) => {
            move_chosen(env, change, Lists { from, to: None }, parts, written)
        }
        (ListPlace::At(from), ListPlace::At(list)) => {
            let to = Some(list);
            move_chosen(env, change, Lists { from, to }, parts, written)
        }
    }
}

// Moves the elements where the old attribute has lists, and the new one has some or is absent.
fn move_chosen<'a>(
    env: Env<'_>,
    change: Move<'_>,
    lists: Lists,
    parts: &[Part<'a>],
    written: &mut Parts<'a>,
) -> Result<Edit, NoMemory>
    requires within { (lists.from ≤ length parts.now) × (IfSome lists.to (λ to. to ≤ length parts.now)) }
    requires found { AreFound change.old.now change.new.now lists (map part_view parts.now) }
    ensures { IfOk result (IsRowEdit
        (steps.moved_where env.entry.home.now change.entry.old.now change.entry.new.now change.entry.moved.now)
        (λ args. done Nothing (moves env.entry.home.now change.entry.old.now change.entry.moved.now args))
        (map part_view parts.now) (map part_view written.new.items)) }
{
    match change.moved {
        Chosen::All => {
            let meant = Meant::Any;
            move_meant(lists, change, StringEdit { env, meant }, parts, written)
        }
        Chosen::Values(values) => {
            let words = WordSet::new(env.alloc, env.home, values.as_slice())?;
            let meant = Meant::Words(&words);
            move_meant(lists, change, StringEdit { env, meant }, parts, written)
        }
    }
}

// Moves the elements that are meant: they go, and then those that arrive are put into the rule that is left.
fn move_meant<'a>(
    lists: Lists,
    change: Move<'_>,
    edit: StringEdit<'_, '_, '_>,
    parts: &[Part<'a>],
    written: &mut Parts<'a>,
) -> Result<Edit, NoMemory>
    requires within { (lists.from ≤ length parts.now) × (IfSome lists.to (λ to. to ≤ length parts.now)) }
    requires found { AreFound change.old.now change.new.now lists (map part_view parts.now) }
    ensures { IfOk result (λ e. (moved : Choice) → literal_of edit.entry ≡ Nothing
        → is_meant (means edit.entry) ≡ is_chosen edit.entry.env.home.now moved
        → IsRowEdit (steps.moved_where edit.entry.env.home.now change.entry.old.now change.entry.new.now moved)
        (λ args. done Nothing (moves edit.entry.env.home.now change.entry.old.now moved args))
        (map part_view parts.now) (map part_view written.new.items) e) }
{
    let old = argument_place(parts, change.old);
    let strings = ArgumentEdit::Strings(edit);
    let place = {
        let gone = edit_in(strings, parts, old, written)?;
        if !gone.done.changed {
            return Ok(gone);
        }
        gone.place
    };
    let bump = *written.allocator();
    let left = replaced(bump, parts, place, written)?;
    let arriving = arrivals(bump, edit, lists, &*parts)?;
    write_with(change.new, parts, &arriving, &left, written)?;
    Ok(Edit::at(Place {
        from: 0,
        to: parts.len(),
    }))
}

// The parts with others in a place, in an arena.
fn replaced<'a>(
    bump: &'a Bump,
    parts: &[Part<'a>],
    place: Place,
    new: &[Part<'a>],
) -> Result<Parts<'a>, NoMemory>
    requires { (place.from ≤ place.to) × (place.to ≤ length parts.now) }
    ensures { IfOk result (λ left. map part_view left.items
        ≡ replaced_at place (map part_view new.now) (map part_view parts.now)) }
{
    let mut left = Vec::new(bump);
    extend_from_slice(&mut left, &parts[..place.from])?;
    extend_from_slice(&mut left, new)?;
    extend_from_slice(&mut left, &parts[place.to..])?;
    Ok(left)
}

// Appends the parts that stand in some places.
#[tactic(auto, using(crate::proofs::Arriving::places_more))]
fn push_places<'a>(
    parts: &[Part<'a>],
    places: &[Place],
    written: &mut Parts<'a>,
) -> Result<(), NoMemory>
    requires { AreWithin places.now (length parts.now) }
    ensures { OnOk result (map part_view written.new.items
        ≡ map part_view written.old.items ++ parts_at (map part_view parts.now) places.now) }
{
    for place in places {
        extend_from_slice(written, &parts[place.from..place.to])?;
    }
    Ok(())
}

// Writes the parts `left` of a rule with elements, which stand in places of `parts`: they go to the end of the first
// list part of an attribute, or into a new one.
fn write_with<'a>(
    attr: &str,
    parts: &[Part<'a>],
    elements: &[Place],
    left: &[Part<'a>],
    written: &mut Parts<'a>,
) -> Result<(), NoMemory>
    requires { AreWithin elements.now (length parts.now) }
    ensures { OnOk result (HasPut attr.now (map part_view parts.now) elements.now
        (map part_view left.now) (map part_view written.new.items)) }
{
    written.clear();
    match list_place(left, attr) {
        ListPlace::NoList => extend_from_slice(written, left),
        ListPlace::Absent => {
            let place = new_place(left);
            extend_from_slice(written, &left[..place.from])?;
            open_attribute(attr, written)?;
            push_places(parts, elements, written)?;
            close_attribute(written)?;
            extend_from_slice(written, &left[place.to..])
        }
        ListPlace::At(list) => {
            let end = elements_end(left, list);
            extend_from_slice(written, &left[..end])?;
            push_places(parts, elements, written)?;
            extend_from_slice(written, &left[end..])
        }
    }
}
