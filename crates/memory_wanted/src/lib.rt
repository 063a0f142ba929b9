//! Want of memory, which only a refused growth can give.
//!
//! Std's calls that grow a list answer an `AllocError`, which any code can write. Here each of them is called once, and
//! a refusal becomes a [`MemoryWanted`], which nothing else makes: whoever has one has seen a growth refused.
#![tactic(auto)]

ghost use Rattle.std.specs.Prelude.{◌≡◌, ◌+◌, ◌-◌, ◌<◌, ◌≤◌, [], ◌∷◌, ◌++◌, length, take, replicate, if◌then◌else◌};
ghost use Rattle.std.specs.Prelude.{is_ok, IfOk, OnOk, OnErr, IsOk};
ghost use Rattle.std.specs.Vec.{vec_len, vec_capacity};
ghost use Rattle.circular_buffer.specs.Buffer.{buffer};
ghost use Rattle.memory_wanted.specs.Wanted.{wanted};

use circular_buffer::HeapCircularBuffer;
use std::alloc::Global;
use thiserror::Error;

/// A growth was refused. No code outside this crate can make one, and none can copy one.
#[derive(Debug, Drop, PartialEq, Eq, Error)]
#[error("NoMemory")]
pub struct MemoryWanted {
    refused: (),
}

/// The one place where a want of memory is made: of what std answered to a growth that it refused.
fn wanted<E: Drop>(_refusal: E) -> MemoryWanted
    ensures { result ≡ wanted }
{
    MemoryWanted { refused: () }
}

/// An empty list with room for `capacity` items.
///
/// # Errors
///
/// [`MemoryWanted`] if that room can't be had.
pub fn with_capacity<T>(alloc: Global, capacity: usize) -> Result<Vec<T>, MemoryWanted>
    ensures items { IfOk result (λ v. v.items ≡ []) }
    ensures len { IfOk result (λ v. vec_len v ≡ 0) }
    ensures capacity { IfOk result (λ v. capacity ≤ vec_capacity v) }
    ensures exact { IfOk result (λ v. vec_capacity v ≡ capacity) }
    ensures succeeds { capacity ≡ 0 → IsOk result }
{
    Vec::with_capacity(alloc, capacity).map_err(wanted)
}

/// Makes room for `additional` items more. The items stay.
///
/// # Errors
///
/// [`MemoryWanted`] if that room was missing and can't be had. The list is as before.
pub fn reserve<T>(list: &mut Vec<T>, additional: usize) -> Result<(), MemoryWanted>
    ensures items { list.new.items ≡ list.old.items }
    ensures len { vec_len list.new ≡ vec_len list.old }
    ensures ok { OnOk result (vec_len list.new + additional ≤ vec_capacity list.new) }
    ensures capacity { vec_capacity list.old ≤ vec_capacity list.new }
    ensures succeeds { vec_len list.old + additional ≤ vec_capacity list.old → IsOk result }
    ensures full { OnErr result (vec_capacity list.old < vec_len list.old + additional) }
    ensures err { OnErr result (vec_capacity list.new ≡ vec_capacity list.old) }
{
    list.reserve(additional).map_err(wanted)
}

/// Puts an item last.
///
/// # Errors
///
/// [`MemoryWanted`] if there was no room for it and none can be had. The list is as before, and the item is dropped.
pub fn push<T: Drop>(list: &mut Vec<T>, item: T) -> Result<(), MemoryWanted>
    ensures items { list.new.items ≡ (if is_ok result then list.old.items ++ item ∷ [] else list.old.items) }
    ensures len { vec_len list.new ≡ (if is_ok result then vec_len list.old + 1 else vec_len list.old) }
    ensures capacity { vec_capacity list.old ≤ vec_capacity list.new }
    ensures succeeds { vec_len list.old < vec_capacity list.old → IsOk result }
    ensures full { OnErr result (vec_capacity list.old ≤ vec_len list.old) }
{
    list.push(item).map_err(wanted)
}

/// Puts copies of `items` last.
///
/// # Errors
///
/// [`MemoryWanted`] if there was no room for all of them and none can be had. The list is as before.
pub fn extend_from_slice<T: Copy>(list: &mut Vec<T>, items: &[T]) -> Result<(), MemoryWanted>
    ensures items { list.new.items ≡ (if is_ok result then list.old.items ++ items.now else list.old.items) }
    ensures len { vec_len list.new ≡ (if is_ok result then vec_len list.old + length items.now else vec_len list.old) }
    ensures capacity { vec_capacity list.old ≤ vec_capacity list.new }
    ensures succeeds { vec_len list.old + length items.now ≤ vec_capacity list.old → IsOk result }
    ensures full { OnErr result (vec_capacity list.old < vec_len list.old + length items.now) }
{
    list.extend_from_slice(items).map_err(wanted)
}

/// Cuts the list to `len` items, or fills it up to `len` with `item`.
///
/// # Errors
///
/// [`MemoryWanted`] if there was no room for so many and none can be had. The list is as before.
pub fn resize<T: Copy>(list: &mut Vec<T>, len: usize, item: T) -> Result<(), MemoryWanted>
    ensures items { list.new.items
        ≡ (if is_ok result then take len list.old.items ++ replicate (len - vec_len list.old) item else list.old.items) }
    ensures len { vec_len list.new ≡ (if is_ok result then len else vec_len list.old) }
    ensures capacity { vec_capacity list.old ≤ vec_capacity list.new }
    ensures succeeds { len ≤ vec_capacity list.old → IsOk result }
    ensures full { OnErr result (vec_capacity list.old < len) }
{
    list.resize(len, item).map_err(wanted)
}

/// A list of copies of `items`.
///
/// # Errors
///
/// [`MemoryWanted`] if the room for them can't be had.
pub fn from_slice<T: Copy>(alloc: Global, items: &[T]) -> Result<Vec<T>, MemoryWanted>
    ensures items { IfOk result (λ v. v.items ≡ items.now) }
    ensures len { IfOk result (λ v. vec_len v ≡ length items.now) }
{
    Vec::from_slice(alloc, items).map_err(wanted)
}

/// An item in a place of its own.
///
/// # Errors
///
/// [`MemoryWanted`] if that place can't be had. The item is dropped.
pub fn boxed<T: Drop>(alloc: Global, item: T) -> Result<Box<T>, MemoryWanted>
    ensures { IfOk result (λ b. b.value ≡ item) }
{
    Box::new(alloc, item).map_err(wanted)
}

/// An empty ring with room for `capacity` items.
///
/// # Errors
///
/// [`MemoryWanted`] if that room can't be had.
pub fn ring<T>(alloc: Global, capacity: usize) -> Result<HeapCircularBuffer<T>, MemoryWanted>
    ensures { IfOk result (λ ring. ring ≡ buffer [] capacity) }
{
    HeapCircularBuffer::with_capacity(alloc, capacity).map_err(wanted)
}
