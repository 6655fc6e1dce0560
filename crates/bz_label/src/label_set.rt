//! Labels of one package, to which more are added. All but a few are kept in order, so no choice of labels makes it slow.

ghost use Rattle.std.specs.Prelude.{◌≡◌, ℕ, List, false, not, IsTrue, IfOk, OnOk, OnErr};
ghost use Rattle.std.specs.List.{list_any};
ghost use Rattle.std.specs.Str.{bytes_eq};
ghost use Rattle.bz_label.specs.private.ByteSteps.{left, is_good};
ghost use Rattle.bz_label.specs.Same.{completed};
ghost use Rattle.bz_label.specs.LabelSetViews as spec;

use crate::bytes::Bytes;
use crate::label::Label;
use crate::package::Package;
use bz_memory::{NoMemory, insert, push};
use std::alloc::Global;
use std::collections::BTreeSet;

// At most so many labels are compared one by one: in a tree they would cost more.
const FEW: usize = 8;

/// A set of labels of one package: the first few in a list, all others in a tree.
#[derive(Drop)]
pub struct LabelSet<'a> {
    home: &'a Package,
    few: Vec<Label<'a>>,
    others: BTreeSet<Label<'a>>,
}

impl<'a> LabelSet<'a> {
    /// Makes an empty set of labels of this package, without an allocation.
    pub fn new(alloc: Global, home: &'a Package) -> LabelSet<'a>
        ensures home { result.home.now ≡ home.now }
        ensures empty { (text : List ℕ) → spec.has result text ≡ false }
    {
        LabelSet {
            home,
            few: Vec::new(alloc),
            others: BTreeSet::new(alloc),
        }
    }

    /// Adds the label that a text is, and says whether it is new. An `Err` leaves the set as it was.
    pub fn insert(&mut self, text: Bytes<'a>) -> Result<bool, NoMemory>
        requires { IsTrue (is_good text) }
        ensures new { IfOk result (λ new. new ≡ not (spec.has self.old (left text.entry))) }
        ensures ok { OnOk result (spec.Gains
            (λ other.
            bytes_eq (completed self.old.home.now other)
            (completed self.old.home.now (left text.entry))) self.old self.new) }
        ensures err { OnErr result ((other : List ℕ) → spec.has self.new other ≡ spec.has self.old other) }
        ensures home { self.new.home.now ≡ self.old.home.now }
    {
        let label = Label::new(self.home, text);
        if is_one_of(&label, self.few.as_slice()) {
            return Ok(false);
        }
        if self.others.is_empty() && self.few.len() < FEW {
            push(&mut self.few, label)?;
            return Ok(true);
        }
        insert(&mut self.others, label)
    }
}

// They are compared one by one, most by their keys alone.
fn is_one_of(label: &Label<'_>, labels: &[Label<'_>]) -> bool
    ensures { result ≡ list_any (bytes_eq label.now) labels.now }
{
    for other in labels {
        if label == other {
            return true;
        }
    }
    false
}
