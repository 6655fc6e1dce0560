//! The labels of the elements of a value, walked over among the parts of a rule.

ghost use Rattle.std.specs.Prelude.{◌≡◌, ◌≤◌, ℕ, List, IsTrue, map, length, option_map, IfOk, IfSome, option_and_then};
ghost use Rattle.bz_tree.specs.Rows.{part_view};
ghost use Rattle.bz_tree.specs.Tree.{Segment};
ghost use Rattle.bz_attribute.specs.Elements.{AreLists};
ghost use Rattle.bz_attribute.specs.private.ElementSets.{choice, is_in, kept};
ghost use Rattle.bz_label.specs.LabelSetViews.{has};
ghost use Rattle.bz_label.specs.private.ByteSteps.{left, is_good};
ghost use Rattle.bz_label.specs.Values.{value_of};

use crate::elements::next_of_value;
use crate::word_set::WordSet;
use bz_label::{Bytes, LabelSet, Package, value_of};
use bz_memory::NoMemory;
use bz_tree::Part;
use std::alloc::Global;

// The value of a string, where it equals one of the words; without words any value.
fn kept_value<'a>(
    home: &Package,
    words: Option<&WordSet<'_>>,
    string: Option<&'a str>,
) -> Option<Bytes<'a>>
    ensures value { option_map left result
        ≡ kept home.now (choice words.entry)
        (option_and_then value_of (option_map (λ text. text.now) string.entry)) }
    ensures good { IfSome result (λ bytes. IsTrue (is_good bytes)) }
{
    let value = value_of(string?)?;
    match words {
        Some(set) if !set.has(home, value) => None,
        _ => Some(value),
    }
}

/// The labels of the elements of list parts that are strings with a value; where there are words, of those that equal
/// one of them. The elements of the first list part begin at `list`.
#[tactic(auto, using(crate::proofs::LabelsFound::none_labelled))]
pub fn labels_of<'s>(
    alloc: Global,
    home: &'s Package,
    words: Option<&WordSet<'_>>,
    parts: &[Part<'s>],
    list: Option<usize>,
) -> Result<LabelSet<'s>, NoMemory>
    requires { IfSome list (λ from. from ≤ length parts.now) }
    ensures home { IfOk result (λ set. set.home.now ≡ home.now) }
    ensures all { IfOk result (λ set. (lists : List (List Segment))
        → AreLists (map part_view parts.now) list lists
        → (text : List ℕ) → has set text ≡ is_in home.now (choice words.entry) lists text) }
{
    let mut set = LabelSet::new(alloc, home);
    let Some(from) = list else {
        return Ok(set);
    };
    let mut at = from;
    while let Some(element) = next_of_value(parts, at) {
        if let Some(value) = kept_value(home, words, element.string) {
            set.insert(value)?;
        }
        at = element.to;
    }
    Ok(set)
}
