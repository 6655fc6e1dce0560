//! `rename`: an attribute gets another name.

ghost use Rattle.std.specs.Prelude.{IfOk, map, true};
ghost use Rattle.bz_tree.specs.Rows.{part_view};
ghost use Rattle.bz_attribute.specs.Reports.{done};
ghost use Rattle.bz_rule.specs.Rename as spec;
ghost use Rattle.bz_attribute.specs.RowEdits.{IsRowEdit};

use bz_attribute::{Done, Edit, Parts, Place, find_argument, push_token};
use bz_memory::NoMemory;
use bz_token::Kind;
use bz_tree::Part;
use std::alloc::Global;

/// Renames the first argument named `old` of the rule of these parts where none is named `new`: it goes into `written`.
pub fn rename<'a>(
    alloc: Global,
    old: &str,
    new: &str,
    parts: &[Part<'a>],
    written: &mut Parts<'a>,
) -> Result<Edit, NoMemory>
    ensures { IfOk result (IsRowEdit (spec.rename old.now new.now)
        (λ args. done (spec.rename_note old.now new.now args) true)
        (map part_view parts.now) (map part_view written.new.items)) }
{
    let Some(at) = find_argument(parts, old) else {
        return Ok(Edit::none(Done::no_attribute(alloc, old)?));
    };
    if find_argument(parts, new).is_some() {
        return Ok(Edit::none(Done::attribute_exists(alloc, new)?));
    }
    written.clear();
    push_token(Kind::Identifier, new, written)?;
    Ok(Edit::at(Place {
        from: at,
        to: at + 1,
    }))
}
