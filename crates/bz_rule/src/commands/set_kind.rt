//! `set kind`: other tokens before the call of a rule.

ghost use Rattle.std.specs.Prelude.{◌≡◌, ◌++◌, IfOk, IsOk, OnOk, Some, bytes_eq, map, true};
ghost use Rattle.bz_tree.specs.Tree.{Statement, items_of};
ghost use Rattle.bz_tree.specs.Rows.{items_parts, part_view, parts_of};
ghost use Rattle.bz_attribute.specs.RowEdits.{IsWithin, replaced_at};
ghost use Rattle.bz_attribute.specs.RowPlaces.{IsRuleRow};
ghost use Rattle.bz_attribute.specs.Rules.{Rule, kind_text};
ghost use Rattle.bz_rule.specs.Set as spec;
ghost use Rattle.bz_rule.specs.Reports.{sets_kind_of};

use bz_attribute::{Done, Edit, Parts, kind_place, push_token};
use bz_label::cut;
use bz_memory::{NoMemory, push};
use bz_token::Kind;
use bz_tree::Part;

/// Sets the kind of the rule that has these parts, where it has another one. Its tokens go into `new`.
pub fn set_kind<'a>(
    kind: &str,
    old_kind: &str,
    parts: &[Part<'a>],
    new: &mut Parts<'a>,
) -> Result<Edit, NoMemory>
    ensures within { IfOk result (λ e. IsWithin e.place (map part_view parts.now)) }
    ensures parts { IfOk result (λ e. e.done.changed ≡ true
        → (s : Statement) (r : Rule) → IsRuleRow s r (map part_view parts.now)
        → kind_text r.kind ≡ old_kind.now
        → replaced_at e.place (map part_view new.new.items) (map part_view parts.now)
        ≡ parts_of (spec.with_kind kind.now s)) }
    ensures done { IfOk result (λ e. (s : Statement) (r : Rule) → IsRuleRow s r (map part_view parts.now)
        → kind_text r.kind ≡ old_kind.now → e.done ≡ sets_kind_of kind.now (Some s)) }
    ensures unchanged { bytes_eq old_kind.now kind.now ≡ true → IsOk result }
{
    if old_kind == kind {
        return Ok(Edit::none(Done::quiet(false)));
    }
    new.clear();
    push_kind(kind, new)?;
    Ok(Edit::at(kind_place(parts)))
}

// Appends the tokens of a kind.
fn push_kind(mut kind: &str, out: &mut Parts<'_>) -> Result<(), NoMemory>
    ensures { OnOk result (map part_view out.new.items
        ≡ map part_view out.old.items ++ items_parts (items_of (spec.kind_items kind.now))) }
{
    while let Some((name, rest)) = cut(kind, '.') {
        push_token(Kind::Identifier, name, out)?;
        push(out, Part::Token(Kind::Operator, "."))?;
        kind = rest;
    }
    push_token(Kind::Identifier, kind, out)
}
