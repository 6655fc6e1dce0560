//! The labels that words are in one package, sorted once: in these any text is looked up, and takes no memory.

ghost use Rattle.std.specs.Prelude.{◌≡◌, ◌↔◌, ℕ, List, IsTrue, IfOk};
ghost use Rattle.std.specs.List.{list_any};
ghost use Rattle.std.specs.List.Sorted.{IsSorted};
ghost use Rattle.std.specs.Str.{bytes_eq};
ghost use Rattle.std.proofs.Props.{props};
ghost use Rattle.bz_label.specs.private.ByteSteps.{left, is_good};
ghost use Rattle.bz_label.specs.private.LabelSteps.{label_cmp};
ghost use Rattle.bz_label.specs.Same.{completed};
ghost use Rattle.bz_label.specs.LabelSetViews.{holds};

use crate::bytes::Bytes;
use crate::label::Label;
use crate::list::Text;
use crate::package::Package;
use bz_memory::{NoMemory, push, with_room_for};
use std::alloc::Global;

/// The labels that some words are in one package, sorted.
#[derive(Drop)]
pub struct SortedLabels<'a> {
    home: &'a Package,
    labels: Vec<Label<'a>>,
    ghost sorted: { IsSorted label_cmp labels.items } by { Prim.hlevel props },
}

impl<'a> SortedLabels<'a> {
    /// Makes the labels of all words, in one allocation.
    pub fn new(
        alloc: Global,
        home: &'a Package,
        words: &'a [Text],
    ) -> Result<SortedLabels<'a>, NoMemory>
        ensures home { IfOk result (λ labels. labels.home.now ≡ home.now) }
        ensures all { IfOk result (λ labels. (text : List ℕ) → holds labels.home.now labels.labels.items text
            ≡ list_any (λ word. bytes_eq (completed labels.home.now text) (completed labels.home.now word)) words.now) }
    {
        let mut labels = with_room_for(alloc, words, 0)?;
        for word in words {
            push(
                &mut labels,
                Label::new(home, Bytes::Plain(word.as_str().as_bytes())),
            )?;
        }
        labels.sort_unstable();
        Ok(SortedLabels { home, labels })
    }

    /// Whether they are labels of this package.
    pub fn are_of(&self, home: &Package) -> bool
        ensures { IsTrue result ↔ (self.now.home.now ≡ home.now) }
    {
        self.home == home
    }

    /// Whether one of them is the same label as the text.
    pub fn contains(&self, text: Bytes<'_>) -> bool
        requires { IsTrue (is_good text) }
        ensures { result ≡ holds self.now.home.now self.now.labels.items (left text.entry) }
    {
        self.labels
            .binary_search(&Label::new(self.home, text))
            .is_ok()
    }
}
