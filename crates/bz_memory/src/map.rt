//! Sets and maps that grow.

ghost use Rattle.std.specs.Prelude.{◌≡◌, None, not, true, IfOk, OnOk, OnErr};
ghost use Rattle.std.specs.BTreeSet.{contains, IsUnchanged, Updates};
ghost use Rattle.std.specs.BTreeMap as btree;
ghost use Rattle.std.specs.BTreeMap.Entry.{IsEntryFor, entry_key, entry_map_ref, entry_value};
ghost use Rattle.indexmap.specs.IndexMap.{insert_entry};

use crate::no_memory::{NoMemory, refused};
use indexmap::IndexMap;
use std::alloc::{Allocator, Global};
use std::collections::btree_map::Entry;
use std::collections::{BTreeMap, BTreeSet};
use std::hash::Hash;

/// Puts a key into a set, and says whether it is new there. If it is not, the stored key stays.
pub fn insert<K: Ord + Drop, A: Allocator + Clone>(
    set: &mut BTreeSet<K, A>,
    key: K,
) -> Result<bool, NoMemory>
    ensures added { IfOk result (λ added. added ≡ not (contains K.cmp set.old key)) }
    ensures updates { OnOk result (Updates K.cmp set.old set.new key true) }
    ensures err { OnErr result (IsUnchanged set.old set.new) }
{
    set.insert(key).map_err(refused)
}

/// The place of a key in a map, where a value can be put.
pub fn entry<'m, K: Ord + Drop, V>(
    map: &'m mut BTreeMap<K, V>,
    key: K,
) -> Result<Entry<'m, K, V>, NoMemory>
    ensures key { IfOk result (λ e. entry_value e ≡ None → entry_key e ≡ key) }
    ensures value { IfOk result (λ e. entry_value e ≡ btree.get K.cmp map.old key) }
    ensures same_map { IfOk result (λ e. (entry_map_ref e).ghost_name ≡ map.entry.ghost_name) }
    ensures unchanged { IfOk result (λ e. btree.IsUnchanged map.old (entry_map_ref e).now) }
    ensures update { IfOk result (IsEntryFor K.cmp map.old key) }
{
    map.entry(key).map_err(refused)
}

/// Puts a value at a key. A new key goes last.
pub fn insert_last<K: Eq + Hash + Drop, V: Drop>(
    map: &mut IndexMap<K, V>,
    key: K,
    value: V,
) -> Result<(), NoMemory>
    ensures { OnOk result (map.new.entries ≡ insert_entry K.eq map.old.entries key value) }
{
    match map.insert(key, value) {
        Ok(_) => Ok(()),
        Err(_) => Err(refused(())),
    }
}
