//! Of the elements that leave a list, those that arrive in another: no string arrives that is there already.

ghost use Rattle.std.specs.Prelude.{◌≡◌, ◌≤◌, ◌||◌, ◌&&◌, ℕ, List, not, map, length, option_map, IfOk, IfSome, OnOk, false, option_and_then};
ghost use Rattle.bz_tree.specs.Rows.{part_view};
ghost use Rattle.bz_label.specs.LabelSetViews.{has};
ghost use Rattle.bz_rule.specs.private.ListPlaces.{AreWithin, HaveArrivals};
ghost use Rattle.bz_rule.specs.private.StringEdits.{means};
ghost use Rattle.bz_label.specs.Same.{same};
ghost use Rattle.bz_label.specs.Values.{value_of};
ghost use Rattle.bz_token.specs.Common.{map_or};

use crate::commands::string_edit::StringEdit;
use bumpalo::Bump;
use bz_attribute::{Element, Env, Place, labels_of, next_of_value};
use bz_label::{LabelSet, value_of};
use bz_memory::{NoMemory, push};
use bz_tree::Part;

/// Where the elements of two lists begin among the parts of a rule.
#[derive(Clone, Copy)]
pub struct Lists {
    pub from: usize,
    /// None: the rule does not have the list to which they come.
    pub to: Option<usize>,
}

// The element is meant, and is no string that the set has. Its label goes into the set.
fn arrives<'s>(
    edit: StringEdit<'_, '_, '_>,
    string: Option<&'s str>,
    there: &mut LabelSet<'s>,
) -> Result<bool, NoMemory>
    ensures arrives { IfOk result (λ arrives. arrives
        ≡ (means edit.entry (option_map (λ text. text.now) string.entry)
        && not (map_or false (has there.old)
        (option_and_then value_of (option_map (λ text. text.now) string.entry))))) }
    ensures there { OnOk result ((text : List ℕ) → has there.new text
        ≡ ((means edit.entry (option_map (λ text. text.now) string.entry)
        && map_or false (λ value. same there.old.home.now value text)
        (option_and_then value_of (option_map (λ text. text.now) string.entry)))
        || has there.old text)) }
    ensures home { there.new.home.now ≡ there.old.home.now }
{
    if !edit.means(string) {
        return Ok(false);
    }
    let Some(text) = string else {
        return Ok(true);
    };
    match value_of(text) {
        None => Ok(true),
        Some(value) => there.insert(value),
    }
}

/// Where the elements stand that arrive, each with its comments, in an arena.
#[tactic(auto, using(crate::proofs::Arriving::none_arrived))]
pub fn arrivals<'s, 'b>(
    bump: &'b Bump,
    edit: StringEdit<'s, '_, '_>,
    lists: Lists,
    parts: &[Part<'s>],
) -> Result<Vec<Place, &'b Bump>, NoMemory>
    requires from { lists.from ≤ length parts.now }
    requires to { IfSome lists.to (λ to. to ≤ length parts.now) }
    ensures within { IfOk result (λ places. AreWithin places.items (length parts.now)) }
    ensures arrivals { IfOk result (λ places. HaveArrivals edit.entry.env.home.now (means edit.entry) lists
        (map part_view parts.now) places.items) }
{
    let Env { alloc, home } = edit.env;
    let mut there = labels_of(alloc, home, None, parts, lists.to)?;
    let mut places = Vec::new(bump);
    let mut at = lists.from;
    while let Some(element) = next_of_value(parts, at) {
        if arrives(edit, element.string, &mut there)? {
            let Element { from, to, .. } = element;
            push(&mut places, Place { from, to })?;
        }
        at = element.to;
    }
    Ok(places)
}
