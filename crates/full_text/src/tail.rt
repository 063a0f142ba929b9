//! What stands behind the page records of a full checkpoint's text: its sectors, as they were at the checkpoint.
ghost use Rattle.std.specs.Prelude.{◌≡◌, ◌≤◌, ◌<◌, ◌*◌, ◌+◌, ◌^◌, ◌++◌, length, take, drop, [], IfOk, vec_capacity};
ghost use Rattle.epoch_snapshot.specs.Cuts.{changed_sectors, used_sectors};
ghost use Rattle.checkpoint_stream.specs.HeadTable.{bytes_of};
ghost use Rattle.checkpoint_stream.specs.Text.{joined, sector_units};
ghost use Rattle.checkpoint_stream.specs.declared.rules.Width.TheVariants.{Four};

use crate::records::{COUNT_BYTES, put, put_four};
use crate::rows::front_of;
use epoch_snapshot::changes_are_found_in_turn;
use guest_machine::{Machine, SECTOR_BYTES};
use memory_wanted::{MemoryWanted, with_capacity};
use std::alloc::Global;
use std::marker::Model;

/// What stands behind the page records, of which a part may have been put. Contracts see what is left.
#[derive(Drop)]
pub(crate) struct Tail {
    alloc: Global,
    bytes: Vec<u8>,
    /// So many of the bytes were put.
    put: usize,
}

impl Model for Tail {
    ghost use Rattle.std.specs.Prelude.{List, ℕ};

    ghost Value = { List ℕ };

    ghost use Rattle.full_text.specs.internal.TailFields.{tail_left, IsTail};

    ghost view = { tail_left };

    ghost invariant = { IsTail };
}

impl Tail {
    /// The count of those of the first `count` sectors that aren't all zero, their records, and the count of no frames. It has room for the
    /// records of all of them from the start: what of that isn't filled takes no memory of the system.
    ///
    /// # Errors
    /// The growth that was really refused.
    pub(crate) fn of_sectors(
        alloc: Global,
        machine: &Machine,
        count: u32,
    ) -> Result<Tail, MemoryWanted>
        requires { 512 * count ≤ length machine.now.guest.sectors }
        ensures size { IfOk result (λ tail. length tail ≤ 8 + 516 * count) }
        ensures tail { let used = used_sectors machine.now.guest.sectors count in IfOk result (λ tail. tail
            ≡ (bytes_of Four (length used) ++ joined (sector_units (changed_sectors machine.now.guest.sectors used))) ++ bytes_of Four 0) }
    {
        let mut bytes = with_capacity(
            alloc,
            2 * COUNT_BYTES + (COUNT_BYTES + SECTOR_BYTES) * count as usize,
        )?;
        put_four(&mut bytes, 0);
        let used = put_used(&mut bytes, machine, count);
        put_at(&mut bytes, 0, &used.to_le_bytes());
        put_four(&mut bytes, 0);
        Ok(Tail {
            alloc,
            bytes,
            put: 0,
        })
    }

    /// How many bytes are left.
    pub(crate) fn len(&self) -> usize
        ensures { result ≡ length self.now }
    {
        self.bytes.len() - self.put
    }

    /// Puts what is left at the end of a text that has room for it, until the text has `count` bytes from place `from` on, or nothing is left.
    /// Once nothing is, its memory is given back.
    pub(crate) fn put_to(&mut self, text: &mut Vec<u8>, from: u64, count: u64)
        requires { length text.old.items + length self.old ≤ vec_capacity text.old }
        ensures items { text.new.items ++ self.new ≡ text.old.items ++ self.old }
        ensures size { length text.new.items + length self.new ≡ length text.old.items + length self.old }
        ensures grows { length text.old.items ≤ length text.new.items }
        ensures made { length text.new.items < from + count → self.new ≡ [] }
        ensures no_further { length text.old.items < length text.new.items → length text.new.items ≤ from + count }
        ensures room { vec_capacity text.old ≤ vec_capacity text.new }
    {
        let next = front_of(&self.bytes[self.put..], missing(text.len(), from, count));
        put(text, next);
        self.put += next.len();
        self.give_back();
    }

    /// Gives the memory back, if nothing is left.
    fn give_back(&mut self)
        ensures { self.new ≡ self.old }
    {
        if self.put >= self.bytes.len() {
            self.bytes = Vec::new(self.alloc);
            self.put = 0;
        }
    }
}

/// Puts the records of those of the first `count` sectors that aren't all zero at the end of a text that has room for the records of all.
/// Each is copied right after it was looked at, while the processor has it. Answers how many it put.
fn put_used(text: &mut Vec<u8>, machine: &Machine, count: u32) -> u32
    requires within { 512 * count ≤ length machine.now.guest.sectors }
    requires room { length text.old.items + 516 * count ≤ vec_capacity text.old }
    ensures count { result ≡ length (used_sectors machine.now.guest.sectors count) }
    ensures few { result ≤ count }
    ensures items { text.new.items ≡ text.old.items
        ++ joined (sector_units (changed_sectors machine.now.guest.sectors (used_sectors machine.now.guest.sectors count))) }
    ensures size { length text.new.items ≡ length text.old.items + 516 * result }
    ensures room { vec_capacity text.old ≤ vec_capacity text.new }
{
    changes_are_found_in_turn();
    let mut used = 0;
    for sector in 0..count {
        if !machine.blank(sector) {
            put_four(text, sector);
            put(text, machine.sector(sector));
            used += 1;
        }
    }
    used
}

/// Puts these bytes in the place of those of a text from a place on.
fn put_at(text: &mut Vec<u8>, at: usize, bytes: &[u8])
    requires { at + length bytes.now ≤ length text.old.items }
    ensures items { text.new.items ≡ take at text.old.items ++ (bytes.now ++ drop (at + length bytes.now) text.old.items) }
    ensures size { length text.new.items ≡ length text.old.items }
    ensures room { vec_capacity text.old ≤ vec_capacity text.new }
{
    text[at..at + bytes.len()].copy_from_slice(bytes);
}

/// How many bytes a text of so many lacks of `count` from place `from` on, as far as a text can have them.
fn missing(size: usize, from: u64, count: u64) -> u64
    ensures enough { size + result + 1 < 2 ^ 64 → from + count ≤ size + result }
    ensures needed { 0 < result → size + result ≤ from + count }
{
    from.saturating_add(count).saturating_sub(size as u64)
}
