//! Lists that grow.

ghost use Rattle.std.specs.Iterator.{DrainsIf, IsFinite};
ghost use Rattle.std.specs.Prelude.{⊤, List, ◌≡◌, ◌≤◌, ◌<◌, ◌+◌, [], ◌∷◌, ◌++◌, is_ok, if◌then◌else◌, IfOk, OnOk, OnErr, length, take, vec_len, vec_capacity};

use crate::no_memory::{NoMemory, refused};
use std::alloc::{Allocator, Global};
use std::cmp::min;
use std::mem::size_of_val;

/// Puts a value at the end of a list.
#[inline(always)]
pub fn push<T: Drop, A: Allocator>(list: &mut Vec<T, A>, value: T) -> Result<(), NoMemory>
    ensures items { list.new.items ≡ (if is_ok result then list.old.items ++ value ∷ [] else list.old.items) }
    ensures full { OnErr result (vec_capacity list.old ≤ vec_len list.old) }
{
    list.push(value).map_err(refused)
}

/// Puts copies of some values at the end of a list.
#[inline(always)]
pub fn extend_from_slice<T: Copy, A: Allocator>(
    list: &mut Vec<T, A>,
    values: &[T],
) -> Result<(), NoMemory>
    ensures items { list.new.items ≡ (if is_ok result then list.old.items ++ values.now else list.old.items) }
    ensures full { OnErr result (vec_capacity list.old < vec_len list.old + length values.now) }
{
    list.extend_from_slice(values).map_err(refused)
}

/// Puts the values of another list at the end of a list.
#[inline(always)]
pub fn append<T, A: Allocator>(list: &mut Vec<T, A>, other: &mut Vec<T, A>) -> Result<(), NoMemory>
    ensures items { list.new.items ≡ (if is_ok result then list.old.items ++ other.old.items else list.old.items) }
    ensures other_items { other.new.items ≡ (if is_ok result then [] else other.old.items) }
    ensures full { OnErr result (vec_capacity list.old < vec_len list.old + vec_len other.old) }
{
    list.append(other).map_err(refused)
}

/// Makes room for a few values more.
#[inline(always)]
pub fn reserve<T, A: Allocator>(list: &mut Vec<T, A>, few: usize) -> Result<(), NoMemory>
    requires { few ≤ 131072 }
    ensures items { list.new.items ≡ list.old.items }
    ensures ok { OnOk result (vec_len list.new + few ≤ vec_capacity list.new) }
    ensures full { OnErr result (vec_capacity list.old < vec_len list.old + few) }
{
    list.reserve(few).map_err(refused)
}

/// Makes room for as many values more as another list has.
#[inline(always)]
pub fn reserve_for<T, A: Allocator>(list: &mut Vec<T, A>, like: &[T]) -> Result<(), NoMemory>
    ensures items { list.new.items ≡ list.old.items }
    ensures ok { OnOk result (vec_len list.new + length like.now ≤ vec_capacity list.new) }
    ensures full { OnErr result (vec_capacity list.old < vec_len list.old + length like.now) }
{
    list.reserve(like.len()).map_err(refused)
}

/// An empty list with room for a few values.
#[inline(always)]
pub fn with_capacity<T, A: Allocator>(alloc: A, few: usize) -> Result<Vec<T, A>, NoMemory>
    requires { few ≤ 131072 }
    ensures items { IfOk result (λ v. v.items ≡ []) }
    ensures capacity { IfOk result (λ v. few ≤ vec_capacity v) }
{
    Vec::with_capacity(alloc, few).map_err(refused)
}

/// An empty list with room for as many values as another list has, and a few.
#[inline(always)]
pub fn with_room_for<T, U, A: Allocator>(
    alloc: A,
    like: &[U],
    few: usize,
) -> Result<Vec<T, A>, NoMemory>
    requires { few ≤ 131072 }
    ensures { IfOk result (λ v. v.items ≡ []) }
{
    with_capacity_of(alloc, held(like).saturating_add(few))
}

/// An empty list with room for as many values as two other lists have, and a few.
#[inline(always)]
pub fn with_room_for_both<T, U, A: Allocator>(
    alloc: A,
    first: &[U],
    second: &[U],
    few: usize,
) -> Result<Vec<T, A>, NoMemory>
    requires { few ≤ 131072 }
    ensures { IfOk result (λ v. v.items ≡ []) }
{
    with_capacity_of(
        alloc,
        held(first).saturating_add(held(second)).saturating_add(few),
    )
}

/// An empty list with room for so many values: at most as many as another list has, and a few.
#[inline(always)]
pub fn with_room_within<T, U, A: Allocator>(
    alloc: A,
    room: usize,
    like: &[U],
) -> Result<Vec<T, A>, NoMemory>
    requires { room ≤ length like.now + 131072 }
    ensures { IfOk result (λ v. v.items ≡ []) }
{
    with_capacity_of(alloc, min(room, held(like).saturating_add(131_072)))
}

// How many values the list holds in memory: those of no size are in none, however many there are.
#[inline(always)]
fn held<U>(list: &[U]) -> usize {
    min(list.len(), size_of_val(list))
}

#[inline(always)]
fn with_capacity_of<T, A: Allocator>(alloc: A, room: usize) -> Result<Vec<T, A>, NoMemory>
    ensures { IfOk result (λ v. v.items ≡ []) }
{
    Vec::with_capacity(alloc, room).map_err(refused)
}

/// Makes bytes longer by so many zeros; at most a piece of an input.
#[inline(always)]
pub fn lengthen<A: Allocator>(bytes: &mut Vec<u8, A>, more: usize) -> Result<(), NoMemory>
    requires { more ≤ 8192 }
    ensures front { OnOk result (take (length bytes.old.items) bytes.new.items ≡ bytes.old.items) }
    ensures len { OnOk result (length bytes.new.items ≡ length bytes.old.items + more) }
    ensures same { OnErr result (bytes.new.items ≡ bytes.old.items) }
{
    let start = bytes.len();
    bytes.resize(start + more, 0).map_err(refused)
}

/// The items of an iterator.
pub fn collect<T: Drop, I: Iterator<Item = T> + Drop>(
    alloc: Global,
    items: I,
) -> Result<Vec<T>, NoMemory>
    requires can { I.can_next items }
    requires finite { IsFinite (I.remaining items) }
    ensures ran { IfOk result
        (λ v. (xs : List T) × DrainsIf I.next_gives ⊤ items xs × ((v.items ≡ xs) × (vec_len v ≡ length xs))) }
{
    items.collect(alloc).map_err(refused)
}
