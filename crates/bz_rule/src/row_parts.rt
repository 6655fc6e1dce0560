//! An edit of the parts of a statement: it moves what stands behind its place, and no more.

ghost use Rattle.std.specs.Prelude.{◌≡◌, ◌≤◌, length, OnErr, OnOk};
ghost use Rattle.std.specs.List.{splice};

use bz_attribute::{Parts, Place};
use bz_memory::{NoMemory, extend_from_slice};
use bz_tree::Part;

/// Puts others in a place of a list. `Err`: memory was refused, and the list is as it was.
pub(crate) fn put_in<'a>(
    list: &mut Parts<'a>,
    place: Place,
    new: &[Part<'a>],
) -> Result<(), NoMemory>
    requires { (place.from ≤ place.to) × (place.to ≤ length list.old.items) }
    ensures ok { OnOk result (list.new.items ≡ splice list.old.items place.from place.to new.now) }
    ensures err { OnErr result (list.new.items ≡ list.old.items) }
{
    let end = list.len();
    let behind = place.from + new.len();
    // Longer by what is too much of the new.
    extend_from_slice(list, &new[new.len().min(place.to - place.from)..])?;
    // Where as many come as go, what is behind stays.
    if behind != place.to {
        list.copy_within(place.to..end, behind);
    }
    list.truncate(behind + (end - place.to));
    list[place.from..behind].copy_from_slice(new);
    Ok(())
}
