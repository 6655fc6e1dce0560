//! Where the passes of each name stand in a script.

ghost use Rattle.std.specs.Prelude.{◌≡◌, ℕ, ◌<◌, ◌++◌, [], ◌∷◌, List, Bool, length, if◌then◌else◌, Option, option_map, IfOk, OnOk, is_none, bytes_eq};
ghost use Rattle.bz_passes.specs.private.Indexes as spec;

use bz_memory::{NoMemory, entry, from_str, push};
use std::alloc::Global;
use std::collections::BTreeMap;
use std::hash::{FoldHasher, Hasher};

/// What is known of the name of what is in a slot.
#[derive(Clone, Copy)]
pub enum Key<'s> {
    /// No target that asks for a name marks it.
    NoName,
    /// Of the targets that ask for a name only those of this one may mark it.
    Name(&'s str),
    /// Any target may mark it.
    Unknown,
}

/// The positions of a script's passes by the name that they ask for, each list in order.
///
/// A name is in the bucket that its hash says, so few names are compared with it. A bucket is a tree, so whatever the
/// names are, they take no longer than in one tree of all.
#[derive(Drop)]
pub struct Index {
    pub buckets: Vec<BTreeMap<String, Vec<usize>>>,
    /// The passes that ask for no name.
    pub others: Vec<usize>,
}

impl Index {
    /// Makes the index of no passes, with as many buckets as there will be passes.
    pub fn new(alloc: Global, passes: usize) -> Result<Index, NoMemory>
        ensures names { IfOk result (λ index. (name : List ℕ) → spec.named index name ≡ []) }
        ensures others { IfOk result (λ index. index.others.items ≡ []) }
    {
        let mut buckets = Vec::new(alloc);
        for _bucket in 0..passes {
            push(&mut buckets, BTreeMap::new(alloc))?;
        }
        Ok(Index {
            buckets,
            others: Vec::new(alloc),
        })
    }

    /// Adds the next pass, which asks for this name, or for none.
    pub fn add(
        &mut self,
        alloc: Global,
        asked: Option<&str>,
        position: usize,
    ) -> Result<(), NoMemory>
        ensures names { OnOk result ((name : List ℕ) → spec.named self.new name ≡ spec.named self.old name
            ++ (if spec.asks_for name (option_map (λ text. text.now) asked.entry) then position ∷ []
            else [])) }
        ensures others { OnOk result (self.new.others.items ≡ self.old.others.items
            ++ (if is_none (option_map (λ text. text.now) asked.entry) then position ∷ [] else [])) }
    {
        match asked {
            None => push(&mut self.others, position),
            Some(name) => {
                let place = self.place_for(alloc, name)?;
                add_named(alloc, &mut self.buckets[place], name, position)
            }
        }
    }

    /// The positions of the passes that ask for this name, in order.
    pub fn of_name(&self, name: &str) -> &[usize]
        ensures { result.now ≡ spec.named self.now name.now }
    {
        if self.buckets.is_empty() {
            return &[];
        }
        match self.buckets[bucket_of(name, self.buckets.len())].get(name) {
            None => &[],
            Some(positions) => positions.as_slice(),
        }
    }

    /// The place of the bucket for a name. Where there is none, the first is made.
    fn place_for(&mut self, alloc: Global, name: &str) -> Result<usize, NoMemory>
        ensures place { IfOk result (λ place. place
            ≡ spec.bucket_of name.now (length self.new.buckets.items)) }
        ensures within { IfOk result (λ place. place < length self.new.buckets.items) }
        ensures names { OnOk result ((name : List ℕ) → spec.named self.new name ≡ spec.named self.old name) }
        ensures others { self.new.others ≡ self.old.others }
    {
        if self.buckets.is_empty() {
            push(&mut self.buckets, BTreeMap::new(alloc))?;
        }
        Ok(bucket_of(name, self.buckets.len()))
    }
}

/// The place of the bucket for a name among so many.
fn bucket_of(name: &str, buckets: usize) -> usize
    requires { 0 < buckets }
    ensures place { result ≡ spec.bucket_of name.now buckets }
    ensures within { result < buckets }
{
    // Where there is one bucket, as of few passes, the name has not to be hashed.
    if buckets == 1 {
        return 0;
    }
    let mut hasher = FoldHasher::default();
    hasher.write(name.as_bytes());
    (hasher.finish() % buckets as u64) as usize
}

/// Puts a position after those of its name.
fn add_named(
    alloc: Global,
    named: &mut BTreeMap<String, Vec<usize>>,
    name: &str,
    position: usize,
) -> Result<(), NoMemory>
    ensures { OnOk result ((q : List ℕ) → spec.found named.new q ≡ spec.found named.old q
        ++ (if bytes_eq q name.now then position ∷ [] else [])) }
{
    let name = from_str(alloc, name)?;
    let positions = entry(named, name)?.or_insert(Vec::new(alloc));
    push(positions, position)
}
