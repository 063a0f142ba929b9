//! The sectors that were written since their set was last emptied.
ghost use Rattle.std.specs.Prelude.{
  ◌≡◌,
  ℕ,
  ◌+◌,
  ◌-◌,
  ◌*◌,
  ◌≤◌,
  ◌<◌,
  ◌^◌,
  ◌++◌,
  ◌==◌,
  ◌&&◌,
  ◌↔◌,
  [],
  false,
  All,
  IfOk,
  IsTrue,
  filter,
  if◌then◌else◌,
  length,
  nat_lt,
  nat_le,
  take,
  drop,
  vec_capacity,
};
ghost use Rattle.std.specs.List.{range_with_len};
ghost use Rattle.std.specs.List.Sorted.{IsNonDecreasing};
ghost use Rattle.block_device.specs.Dirty.{Rises, with_written, is_in, bit_of, no_sectors};

use memory_wanted::{MemoryWanted, resize, with_capacity};
use std::alloc::Global;
use std::marker::Model;

/// How many sectors have their bits in one word.
const WORD_BITS: u32 = 64;

/// A set of sectors, and its list in rising order. A bit for each sector says whether it is in, so that one that is in already
/// costs one test. All memory is reserved at boot.
#[derive(Drop)]
pub(crate) struct SectorSet {
    /// How many sectors the disk has; the list has room for each.
    sectors: u32,
    bits: Vec<u64>,
    list: Vec<u32>,
}

impl Model for SectorSet {
    ghost use Rattle.std.specs.Prelude.{◌≤◌, vec_capacity};
    ghost use Rattle.block_device.specs.Dirty.{Sectors, sectors_of, IsSectorSet};

    ghost Value = { Sectors };

    ghost view = { λ s. sectors_of s.sectors s.list.items };

    ghost invariant = { λ s. IsSectorSet s.bits.items s.list.items s.sectors × (s.sectors ≤ vec_capacity s.list) };
}

impl SectorSet {
    /// The empty set of a disk with so many sectors.
    pub(crate) fn boot(alloc: Global, sectors: u32) -> Result<SectorSet, MemoryWanted>
        ensures { IfOk result (λ set. set ≡ no_sectors sectors) }
    {
        let words = sectors.div_ceil(WORD_BITS) as usize;
        let mut bits = with_capacity(alloc, words)?;
        resize(&mut bits, words, 0)?;
        let list = with_capacity(alloc, sectors as usize)?;
        Ok(SectorSet {
            sectors,
            bits,
            list,
        })
    }

    /// Its sectors in rising order.
    pub(crate) fn list(&self) -> &[u32]
        ensures value { result.now ≡ self.now.list }
        ensures rises { Rises 0 self.now.room result.now }
    {
        self.list.as_slice()
    }

    /// Puts `count` sectors from `first` on into it. The disk has them, as the caller knows. It takes no memory.
    pub(crate) fn mark(&mut self, first: u32, count: u32)
        requires room { first + count ≤ self.old.room }
        requires fits { first + count < 2 ^ 32 }
        ensures { self.new ≡ record self.old { list = with_written self.old.list first count } }
    {
        if has_all(&self.bits, first, count) {
            return;
        }
        set_bits(&mut self.bits, first, count);
        put_in_place(&mut self.list, first, count);
    }

    /// Empties it, at the cost of the sectors that were in.
    pub(crate) fn clear(&mut self)
        ensures { self.new ≡ no_sectors self.old.room }
    {
        clear_bits(&mut self.bits, self.list.as_slice());
        self.list.clear();
    }
}

/// Whether a sector's bit is 1.
fn has_bit(bits: &Vec<u64>, sector: u32) -> bool
    requires { sector < 64 * length bits.now.items }
    ensures { result ≡ (bit_of bits.now.items sector == 1) }
{
    bits[(sector / WORD_BITS) as usize] >> (sector % WORD_BITS) & 1 == 1
}

/// Whether the bits of `count` sectors from `first` on are all 1.
fn has_all(bits: &Vec<u64>, first: u32, count: u32) -> bool
    requires within { first + count ≤ 64 * length bits.now.items }
    requires fits { first + count < 2 ^ 32 }
    ensures { IsTrue result ↔ ((i : ℕ) → first ≤ i → i < first + count → bit_of bits.now.items i ≡ 1) }
{
    for sector in first..first + count {
        if !has_bit(bits, sector) {
            return false;
        }
    }
    true
}

/// Sets a sector's bit.
fn set_bit(bits: &mut Vec<u64>, sector: u32)
    requires { sector < 64 * length bits.old.items }
    ensures bits { (i : ℕ) → bit_of bits.new.items i ≡ (if i == sector then 1 else bit_of bits.old.items i) }
    ensures words { length bits.new.items ≡ length bits.old.items }
{
    bits[(sector / WORD_BITS) as usize] |= 1 << (sector % WORD_BITS);
}

/// Sets the bits of `count` sectors from `first` on.
fn set_bits(bits: &mut Vec<u64>, first: u32, count: u32)
    requires within { first + count ≤ 64 * length bits.old.items }
    requires fits { first + count < 2 ^ 32 }
    ensures bits { (i : ℕ) →
        bit_of bits.new.items i ≡ (if nat_le first i && nat_lt i (first + count) then 1 else bit_of bits.old.items i) }
    ensures words { length bits.new.items ≡ length bits.old.items }
{
    for sector in first..first + count {
        set_bit(bits, sector);
    }
}

/// Clears the words that the bits of these sectors stand in.
fn clear_bits(bits: &mut Vec<u64>, sectors: &[u32])
    requires within { All (λ i. i < 64 * length bits.old.items) sectors.now }
    requires only { (i : ℕ) → is_in i sectors.now ≡ false → bit_of bits.old.items i ≡ 0 }
    ensures none { (i : ℕ) → bit_of bits.new.items i ≡ 0 }
    ensures words { length bits.new.items ≡ length bits.old.items }
{
    for sector in sectors {
        bits[(*sector / WORD_BITS) as usize] = 0;
    }
}

/// How many sectors of a sorted list are below `sector`, found by halving.
fn count_below(sectors: &[u32], sector: u32) -> usize
    requires { IsNonDecreasing sectors.now }
    ensures below { take result sectors.now ≡ filter (λ i. nat_lt i sector) sectors.now }
    ensures above { drop result sectors.now ≡ filter (λ i. nat_le sector i) sectors.now }
    ensures within { result ≤ length sectors.now }
{
    sectors.partition_point(|other| *other < sector)
}

/// Takes the numbers from the place `from` up to the place `to` out.
fn remove_places(list: &mut Vec<u32>, from: usize, to: usize)
    requires ordered { from ≤ to }
    requires within { to ≤ length list.old.items }
    ensures items { list.new.items ≡ take from list.old.items ++ drop to list.old.items }
    ensures capacity { vec_capacity list.new ≡ vec_capacity list.old }
{
    let len = list.len();
    list.copy_within(to.., from);
    list.truncate(len - (to - from));
}

/// Puts `count` numbers from `first` on last in a list that has room for them.
fn push_range(list: &mut Vec<u32>, first: u32, count: u32)
    requires room { length list.old.items + count ≤ vec_capacity list.old }
    requires fits { first + count < 2 ^ 32 }
    ensures items { list.new.items ≡ list.old.items ++ range_with_len first count }
    ensures capacity { vec_capacity list.new ≡ vec_capacity list.old }
{
    for done in 0..count {
        list.push_reserved(first + done);
    }
}

/// Moves the last `count` numbers to the place `at`, in front of those that stand there.
fn move_last(list: &mut Vec<u32>, at: usize, count: usize)
    requires { at + count ≤ length list.old.items }
    ensures items { list.new.items ≡ take at list.old.items
        ++ (drop (length list.old.items - count) list.old.items ++ take (length list.old.items - count - at) (drop at list.old.items)) }
    ensures capacity { vec_capacity list.new ≡ vec_capacity list.old }
{
    let numbers = list.as_mut_slice();
    numbers[at..].rotate_right(count);
}

/// Puts `count` sectors from `first` on into a rising list that has room for each sector of the disk. It takes no memory.
fn put_in_place(list: &mut Vec<u32>, first: u32, count: u32)
    requires rises { Rises 0 (vec_capacity list.old) list.old.items }
    requires room { first + count ≤ vec_capacity list.old }
    requires fits { first + count < 2 ^ 32 }
    ensures items { list.new.items ≡ with_written list.old.items first count }
    ensures capacity { vec_capacity list.new ≡ vec_capacity list.old }
{
    let from = count_below(list.as_slice(), first);
    let to = count_below(list.as_slice(), first + count);
    remove_places(list, from, to);
    push_range(list, first, count);
    move_last(list, from, count as usize);
}
