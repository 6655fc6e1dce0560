//! The packages of a script, each with its passes.

ghost use Rattle.std.specs.Prelude.{◌≡◌, ◌++◌, [], ◌∷◌, List, map, IfOk, OnOk};
ghost use Rattle.bz_script.specs.Packages as spec;

use bz_label::Package;
use bz_memory::{NoMemory, insert_last, push};
use indexmap::IndexMap;
use std::alloc::Global;
use std::hash::Hash;

/// The packages of a script in the order of their first mention, each with its passes in the script's order.
pub fn by_package<T: Drop>(
    alloc: Global,
    script: Vec<(Package, T)>,
) -> Result<IndexMap<Package, Vec<T>>, NoMemory>
    ensures { IfOk result (λ packages. map (λ e. (e.0, e.1.items)) packages.entries
        ≡ spec.by_package script.items) }
{
    group_by_key(alloc, script)
}

/// The keys in the order of their first mention, each with its values in order.
fn group_by_key<K: Eq + Hash + Drop, T: Drop>(
    alloc: Global,
    pairs: Vec<(K, T)>,
) -> Result<IndexMap<K, Vec<T>>, NoMemory>
    ensures { IfOk result (λ lists. map (λ e. (e.0, e.1.items)) lists.entries
        ≡ spec.by_key K.eq pairs.items) }
{
    let mut lists = IndexMap::new(alloc);
    for (key, value) in pairs {
        append(alloc, &mut lists, key, value)?;
    }
    Ok(lists)
}

/// Appends a value to those of its key. A new key goes last.
fn append<K: Eq + Hash + Drop, T: Drop>(
    alloc: Global,
    lists: &mut IndexMap<K, Vec<T>>,
    key: K,
    value: T,
) -> Result<(), NoMemory>
    // A map that has grouped some pairs has then grouped one pair more.
    ensures { OnOk result ((pairs : List (K × T))
        → map (λ e. (e.0, e.1.items)) lists.old.entries ≡ spec.by_key K.eq pairs
        → map (λ e. (e.0, e.1.items)) lists.new.entries ≡ spec.by_key K.eq (pairs ++ (key, value) ∷ [])) }
{
    match lists.get_index_of(&key) {
        Some(index) => push(&mut lists[index], value)?,
        None => {
            let mut values = Vec::new(alloc);
            push(&mut values, value)?;
            insert_last(lists, key, values)?;
        }
    }
    Ok(())
}
