//! `remove`: attributes go, or elements of them.

ghost use Rattle.std.specs.Prelude.{None as Nothing, map, IfOk};
ghost use Rattle.bz_tree.specs.Rows.{part_view};
ghost use Rattle.bz_attribute.specs.RowEdits.{IsRowEdit};
ghost use Rattle.bz_rule.specs.Remove as spec;
ghost use Rattle.bz_rule.specs.Reports.{removes};
ghost use Rattle.bz_attribute.specs.Reports.{done};

use crate::commands::argument_edits::{ArgumentEdit, edit_in, edit_strings};
use crate::commands::string_edit::{Meant, StringEdit};
use bz_attribute::{Edit, Env, Parts, WordSet, all_arguments};
use bz_label::{Attributes, Text};
use bz_memory::NoMemory;
use bz_tree::Part;

/// Drops attributes of the rule that has these parts, or the elements of them that equal a value; an attribute that is
/// one list goes where it loses all its elements.
pub fn remove<'a>(
    env: Env<'_>,
    attributes: &Attributes,
    values: &[Text],
    parts: &[Part<'a>],
    new: &mut Parts<'a>,
) -> Result<Edit, NoMemory>
    ensures { IfOk result (IsRowEdit (spec.remove env.entry.home.now attributes.now values.now)
        (λ args. done Nothing (removes env.entry.home.now attributes.now values.now args))
        (map part_view parts.now) (map part_view new.new.items)) }
{
    match values {
        [] => {
            let edit = ArgumentEdit::Gone(attributes);
            edit_in(edit, parts, all_arguments(parts), new)
        }
        [word] => {
            let meant = Meant::Word(word.as_str());
            edit_strings(StringEdit { env, meant }, attributes, parts, new)
        }
        _ => {
            let words = WordSet::new(env.alloc, env.home, values)?;
            let meant = Meant::Words(&words);
            edit_strings(StringEdit { env, meant }, attributes, parts, new)
        }
    }
}
