//! Parts that are written anew: some places of them make way, one after another, and what stands between is copied.

ghost use Rattle.std.specs.Prelude.{◌≤◌, map, length, OnOk};
ghost use Rattle.bz_tree.specs.Rows.{part_view};
ghost use Rattle.bz_rule.specs.private.StringEdits.{HasMadeWay, IsUpTo, written_to};

use bz_attribute::{Parts, Place};
use bz_memory::{NoMemory, extend_from_slice};
use bz_tree::Part;

/// A place of the parts makes way for what is appended to `out` next. `written` is where `out` stands in place of the
/// parts: None, where nothing has made way yet.
pub fn make_way<'a>(
    parts: &[Part<'a>],
    place: Place,
    written: &mut Option<Place>,
    out: &mut Parts<'a>,
) -> Result<(), NoMemory>
    requires order { (place.from ≤ place.to) × (place.from ≤ length parts.now) }
    requires later { IsUpTo written.now place.from }
    ensures { OnOk result (HasMadeWay
        (written_to written.old (map part_view out.old.items) (map part_view parts.now)
        place.from) (map part_view parts.now) (map part_view out.new.items) place written.new) }
{
    let Some(before) = *written else {
        out.clear();
        *written = Some(place);
        return Ok(());
    };
    extend_from_slice(out, &parts[before.to..place.from])?;
    *written = Some(Place {
        from: before.from,
        to: place.to,
    });
    Ok(())
}
