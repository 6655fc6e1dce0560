//! Many texts in little memory.

ghost use Rattle.std.specs.Prelude.{◌≡◌, ℕ, List, [], ◌∷◌, ◌++◌, length, slice_get, option_map, ◌==◌, OnOk, OnErr};
ghost use Rattle.std.specs.Iterator.{YieldsFirstRef, item_count};

use bz_memory::{NoMemory, extend_from_slice, push_str, reserve, reserve_for};
use std::alloc::Global;
use std::marker::Model;

/// Texts, one after another in one buffer. Each costs its bytes and its length.
#[derive(Drop)]
pub struct Texts {
    joined: String,
    lens: Vec<usize>,
}

impl Model for Texts {
    ghost use Rattle.std.specs.Prelude.{ℕ, List, string_bytes};
    ghost use Rattle.bz_passes.specs.private.Cuts.{cut, AreTexts};

    ghost Value = { List (List ℕ) };

    ghost view = { λ t. cut t.lens.items (string_bytes t.joined) };

    ghost invariant = { λ t. AreTexts t.lens.items (string_bytes t.joined) };
}

impl Texts {
    /// Makes an empty list of texts, without an allocation.
    pub fn new(alloc: Global) -> Texts
        ensures { result ≡ [] }
    {
        Texts {
            joined: String::new(alloc),
            lens: Vec::new(alloc),
        }
    }

    /// The number of texts.
    pub fn len(&self) -> usize
        ensures { result ≡ length self.now }
    {
        self.lens.as_slice().len()
    }

    /// Whether there is none.
    pub fn is_empty(&self) -> bool
        ensures { result ≡ (length self.now == 0) }
    {
        self.len() == 0
    }

    /// Appends a text. `Err`: allocation failed, and nothing changed.
    #[inline(always)]
    pub fn push(&mut self, text: &str) -> Result<(), NoMemory>
        ensures pushed { OnOk result (self.new ≡ self.old ++ text.now ∷ []) }
        ensures stays { OnErr result (self.new ≡ self.old) }
    {
        reserve(&mut self.lens, 1)?;
        push_str(&mut self.joined, text)?;
        self.lens.push_reserved(text.len());
        Ok(())
    }

    /// Moves the texts of another list to the end; to an empty list without an allocation. `Err`: allocation failed,
    /// and nothing changed.
    pub fn append(&mut self, other: Texts) -> Result<(), NoMemory>
        ensures appended { OnOk result (self.new ≡ self.old ++ other) }
        ensures stays { OnErr result (self.new ≡ self.old) }
    {
        if self.lens.is_empty() {
            *self = other;
            return Ok(());
        }
        reserve_for(&mut self.lens, other.lens.as_slice())?;
        push_str(&mut self.joined, other.joined.as_str())?;
        extend_from_slice(&mut self.lens, other.lens.as_slice())?;
        Ok(())
    }

    /// Drops all texts.
    pub fn clear(&mut self)
        ensures { self.new ≡ [] }
    {
        self.joined.clear();
        self.lens.clear();
    }

    /// The text at this place, from 0: none after the last. It takes as many steps as there are texts before it.
    pub fn get(&self, at: usize) -> Option<&str>
        ensures { option_map (λ text. text.now) result ≡ slice_get self.now at }
    {
        self.iter().nth(at)
    }

    /// An iterator over the texts, in order.
    pub fn iter(&self) -> EachText<'_>
        ensures { result ≡ self.now }
    {
        EachText {
            joined: self.joined.as_str(),
            lens: self.lens.as_slice(),
        }
    }
}

/// An iterator over texts: those that are still to come, in order.
#[derive(Drop)]
pub struct EachText<'a> {
    joined: &'a str,
    lens: &'a [usize],
}

impl<'a> Model for EachText<'a> {
    ghost use Rattle.std.specs.Prelude.{ℕ, List};
    ghost use Rattle.bz_passes.specs.private.Cuts.{cut, AreTexts};

    ghost Value = { List (List ℕ) };

    ghost view = { λ t. cut t.lens.now t.joined.now };

    ghost invariant = { λ t. AreTexts t.lens.now t.joined.now };
}

impl<'a> Iterator for EachText<'a> {
    type Item = &'a str;

    ghost next_gives = { YieldsFirstRef (λ texts. texts) };

    ghost remaining = { item_count (λ texts. texts) };

    fn next(&mut self) -> Option<&'a str> {
        let Some((len, lens)) = self.lens.split_first() else {
            return None;
        };
        let (text, joined) = self.joined.split_at(*len);
        self.lens = lens;
        self.joined = joined;
        Some(text)
    }

    fn size_hint(&self) -> (usize, Option<usize>) {
        (self.lens.len(), Some(self.lens.len()))
    }
}

impl<'a> IntoIterator for &'a Texts {
    type Item = &'a str;

    type IntoIter = EachText<'a>;

    ghost into_iter_gives = { λ texts each. each ≡ texts.now };

    fn into_iter(self) -> EachText<'a> {
        self.iter()
    }
}
