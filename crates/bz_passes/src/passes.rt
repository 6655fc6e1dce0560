//! The passes of a script, with an index of what their targets ask for.

ghost use Rattle.std.specs.Prelude.{◌≡◌, ◌<◌, ℕ, List, Option, length, option_map, IfOk, is_none, true};
ghost use Rattle.std.specs.List.Sorted.{IsNonDecreasingBy};
ghost use Rattle.bz_passes.specs.Asked.{IsFirstFrom, may_mark};
ghost use Rattle.bz_passes.specs.private.Indexes as spec;

use crate::index::{Index, Key};
use crate::pass::Pass;
use bz_memory::NoMemory;
use std::alloc::Global;
use std::marker::Model;

// So few passes are looked at one after another.
const FEW: usize = 4;

/// What the index needs of a target.
pub trait Keyed {
    // The name that it asks for; none where it may mark whatever the name is.
    ghost asked: { Self → Option (List ℕ) };

    fn asked(&self) -> Option<&str>
        ensures { option_map (λ name. name.now) result ≡ asked self.now };
}

/// The passes of a script, and where those of each name stand in it. Contracts see the passes alone.
#[derive(Drop)]
pub struct Passes<T: Keyed, C> {
    passes: Vec<Pass<T, C>>,
    index: Index,
}

impl<T: Keyed, C> Model for Passes<T, C> {
    ghost use Rattle.bz_passes.specs.Passes as script;
    ghost use Rattle.bz_passes.specs.private.Indexes.{IsIndex};
    ghost use Rattle.std.specs.Prelude.{List};

    ghost Value = { List (script.Pass T C) };

    ghost view = { λ s. s.passes.items };

    ghost invariant = { λ s. IsIndex (λ pass. T.asked pass.target) s.passes.items s.index };
}

impl<T: Keyed, C> Passes<T, C> {
    /// Makes the index of these passes, which keep their order.
    pub fn new(alloc: Global, passes: Vec<Pass<T, C>>) -> Result<Passes<T, C>, NoMemory>
    where
        T: Drop,
        C: Drop,
        ensures { IfOk result (λ made. made ≡ passes.items) }
    {
        let index = index_of(alloc, passes.as_slice())?;
        Ok(Passes { passes, index })
    }

    /// The passes in order.
    pub fn as_slice(&self) -> &[Pass<T, C>]
        ensures { result.now ≡ self.now }
    {
        self.passes.as_slice()
    }

    /// The position of the first pass that may mark what has this key.
    #[inline(always)]
    pub(crate) fn first(&self, key: Key<'_>) -> Option<usize>
        ensures { IsFirstFrom (λ pass. may_mark key.entry (T.asked pass.target)) self.now 0 result }
    {
        self.first_from(key, 0)
    }

    /// The position, `from` or later, of the first pass that may mark what has this key.
    #[inline(always)]
    pub fn first_from(&self, key: Key<'_>, from: usize) -> Option<usize>
        ensures { IsFirstFrom (λ pass. may_mark key.entry (T.asked pass.target)) self.now from result }
    {
        let passes = self.as_slice();
        if from >= passes.len() {
            return None;
        }
        let pass = &passes[from];
        // Most scripts begin with a target that asks for no name, or have no other.
        if pass.target.asked().is_none() {
            return Some(from);
        }
        self.later_from(key, from)
    }

    /// The position, `from` or later, of the first pass that may mark what has this key: often not the pass at `from`.
    fn later_from(&self, key: Key<'_>, from: usize) -> Option<usize>
        ensures { IsFirstFrom (λ pass. may_mark key.entry (T.asked pass.target)) self.now from result }
    {
        if self.passes.len() <= FEW {
            return first_of_few(self.as_slice(), key, from);
        }
        match key {
            Key::Unknown => self.any_from(from),
            Key::NoName => self.other_from(from),
            Key::Name(name) => earlier(self.named_from(name, from), self.other_from(from)),
        }
    }

    /// Whether a pass asks for a name.
    pub(crate) fn ask_for_names(&self) -> bool {
        self.index.others.len() < self.passes.len()
    }

    fn any_from(&self, from: usize) -> Option<usize>
        ensures { IsFirstFrom (λ pass. true) self.now from result }
    {
        if from < self.passes.len() {
            return Some(from);
        }
        None
    }

    fn other_from(&self, from: usize) -> Option<usize>
        ensures { IsFirstFrom (λ pass. is_none (T.asked pass.target)) self.now from result }
    {
        first_in(self.index.others.as_slice(), from)
    }

    fn named_from(&self, name: &str, from: usize) -> Option<usize>
        ensures { IsFirstFrom (λ pass. spec.asks_for name.now (T.asked pass.target)) self.now from result }
    {
        first_in(self.index.of_name(name), from)
    }
}

/// The position, `from` or later, of the first pass that may mark what has this key. Each is looked at in turn, which is
/// fastest where they are few.
fn first_of_few<T: Keyed, C>(passes: &[Pass<T, C>], key: Key<'_>, from: usize) -> Option<usize>
    ensures { IsFirstFrom (λ pass. may_mark key.entry (T.asked pass.target)) passes.now from result }
{
    for i in from..passes.len() {
        let pass = &passes[i];
        if may_mark(key, pass.target.asked()) {
            return Some(i);
        }
    }
    None
}

/// Whether a target that asks for this name, or for none, may mark what has the key.
fn may_mark(key: Key<'_>, asked: Option<&str>) -> bool
    ensures { result ≡ may_mark key.entry (option_map (λ name. name.now) asked.entry) }
{
    match (key, asked) {
        (Key::Unknown, _) | (_, None) => true,
        (Key::NoName, Some(_)) => false,
        (Key::Name(name), Some(asked)) => name == asked,
    }
}

/// The first of some positions in order that is not before `from`.
fn first_in(positions: &[usize], from: usize) -> Option<usize>
    requires { IsNonDecreasingBy (λ p. p) positions.now }
    ensures { spec.IsLeastFrom positions.now from result }
{
    let place = positions.partition_point(|p| *p < from);
    if place < positions.len() {
        return Some(positions[place]);
    }
    None
}

fn earlier(a: Option<usize>, b: Option<usize>) -> Option<usize>
    ensures { result ≡ spec.earlier a b }
{
    match (a, b) {
        (Some(a), Some(b)) => Some(if a < b { a } else { b }),
        _ => a.or(b),
    }
}

fn index_of<T: Keyed, C>(alloc: Global, passes: &[Pass<T, C>]) -> Result<Index, NoMemory>
    ensures { IfOk result (spec.IsIndex (λ pass. T.asked pass.target) passes.now) }
{
    let mut index = Index::new(alloc, passes.len())?;
    for i in 0..passes.len() {
        let pass = &passes[i];
        index.add(alloc, pass.target.asked(), i)?;
    }
    Ok(index)
}
