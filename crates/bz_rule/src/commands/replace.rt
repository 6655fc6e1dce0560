//! `replace`: elements that equal a value become another.

ghost use Rattle.std.specs.Prelude.{◌≡◌, None as Nothing, map, IfOk};
ghost use Rattle.bz_tree.specs.Rows.{part_view};
ghost use Rattle.bz_attribute.specs.RowEdits.{IsRowEdit};
ghost use Rattle.bz_rule.specs.Replace as spec;
ghost use Rattle.bz_rule.specs.Reports.{replaces};
ghost use Rattle.bz_attribute.specs.Reports.{done};

use crate::commands::argument_edits::edit_strings;
use crate::commands::string_edit::{Meant, StringEdit};
use bz_attribute::{Edit, Env, Parts};
use bz_label::Attributes;
use bz_memory::NoMemory;
use bz_tree::Part;

/// What elements that equal `old` become.
#[derive(Clone, Copy)]
pub struct Change<'c> {
    pub old: &'c str,
    pub new: &'c str,
}

/// Replaces elements of the list parts of an attribute, or of all, in the rule that has these parts.
pub fn replace<'a>(
    env: Env<'_>,
    attributes: &Attributes,
    change: Change<'_>,
    parts: &[Part<'a>],
    new: &mut Parts<'a>,
) -> Result<Edit, NoMemory>
    ensures { IfOk result (IsRowEdit
        (spec.replace env.entry.home.now attributes.now change.entry.old.now change.entry.new.now)
        (λ args. done Nothing
        (replaces env.entry.home.now attributes.now change.entry.old.now change.entry.new.now args))
        (map part_view parts.now) (map part_view new.new.items)) }
{
    let Change { old, new: value } = change;
    let edit = StringEdit {
        env,
        meant: Meant::Unlike { old, new: value },
    };
    edit_strings(edit, attributes, parts, new)
}
