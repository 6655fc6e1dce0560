//! The words of a command, and the labels that they are in its package.

ghost use Rattle.std.specs.Prelude.{◌≡◌, ℕ, List, false, IfOk, IfSome, IsTrue};
ghost use Rattle.std.specs.List.{list_any};
ghost use Rattle.std.proofs.Props.{props};
ghost use Rattle.bz_label.specs.Same.{same};
ghost use Rattle.bz_label.specs.private.ByteSteps.{left, is_good};
ghost use Rattle.bz_label.specs.LabelSetViews.{holds};
ghost use Rattle.bz_label.specs.Values as values;
ghost use Rattle.bz_token.specs.Common.{map_or};

use crate::equals::text_equals;
use bz_label::{Bytes, Package, SortedLabels, Text, same_label, value_of};
use bz_memory::NoMemory;
use std::alloc::Global;

/// At most so many words are compared one by one: to sort them would cost more.
pub const FEW: usize = 4;

/// Words, and the labels that they are in a package: many are sorted once, so that an element is looked up.
#[derive(Drop)]
pub struct WordSet<'a> {
    words: &'a [Text],
    // None: they are few.
    labels: Option<SortedLabels<'a>>,
    ghost all: { IfSome labels (λ labels. (text : List ℕ) → holds labels.home.now labels.labels.items text
        ≡ list_any (same labels.home.now text) words.now) } by { Prim.hlevel props },
}

impl<'a> WordSet<'a> {
    /// Few words take no memory.
    pub fn new(alloc: Global, home: &'a Package, words: &'a [Text]) -> Result<WordSet<'a>, NoMemory>
        ensures { IfOk result (λ set. set.words.now ≡ words.now) }
    {
        let labels = if words.len() > FEW {
            Some(SortedLabels::new(alloc, home, words)?)
        } else {
            None
        };
        Ok(WordSet { words, labels })
    }

    /// An element that is one string token of this text equals one of the words.
    pub fn has_text(&self, home: &Package, text: &str) -> bool
        ensures { result ≡ list_any (λ word. map_or false (λ value. same home.now value word)
            (values.value_of text.now)) self.now.words.now }
    {
        if self.labels.is_none() {
            return equals_one(home, text, self.words);
        }
        match value_of(text) {
            None => false,
            Some(value) => self.has(home, value),
        }
    }

    /// The value is the same label as one of the words. Few words, and those of another package, are compared one by one.
    pub fn has(&self, home: &Package, value: Bytes<'_>) -> bool
        requires { IsTrue (is_good value) }
        ensures { result ≡ list_any (same home.now (left value.entry)) self.now.words.now }
    {
        match &self.labels {
            Some(labels) if labels.are_of(home) => labels.contains(value),
            _ => is_one_of(home, value, self.words),
        }
    }
}

/// The value is the same label as one of some words. They are compared one by one.
pub fn is_one_of(home: &Package, value: Bytes<'_>, words: &[Text]) -> bool
    requires { IsTrue (is_good value) }
    ensures { result ≡ list_any (same home.now (left value.entry)) words.now }
{
    words.iter().any(|word| same_label(home, value, Bytes::Plain(word.as_str().as_bytes())))
}

// A string token of this text equals one of some words. They are compared one by one.
fn equals_one(home: &Package, text: &str, words: &[Text]) -> bool
    ensures { result ≡ list_any (λ word. map_or false (λ value. same home.now value word)
        (values.value_of text.now)) words.now }
{
    for word in words {
        if text_equals(home, text, word.as_str()) {
            return true;
        }
    }
    false
}
