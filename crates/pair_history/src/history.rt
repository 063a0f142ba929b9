ghost use Rattle.std.specs.Prelude.{◌≡◌, ℕ, ◌+◌, ◌^◌, ◌<◌, ◌≤◌, ◌++◌, List, [], length, replicate, vec_len, vec_capacity};
ghost use Rattle.std.specs.Prelude.{OnOk, OnErr, IsTrue, ◌↔◌, ◌⊎◌};
ghost use Rattle.pair_history.specs.Entries.{Ran};
ghost use Rattle.pair_history.specs.internal.Packed.{unpacked, widths};

use crate::stored::{Entries, StoredEntry, stored};
use memory_wanted::{MemoryWanted, reserve};
use std::alloc::Global;
use std::marker::Model;

/// One entry of the history, or a number of steps that came one after another. It lends a frame's bytes.
#[derive(Clone, Copy)]
pub enum Entry<'a> {
    /// The guest made so many steps.
    Ran(u64),
    /// The delivered frame of this number arrived at the guest.
    Arrive(u64),
    /// This client delivered the frame, which got this number.
    Delivered(u64, &'a [u8], u64),
    /// This client's frame wasn't taken, since its inbox was full.
    Refused(u64, &'a [u8]),
    /// The delivered frame of this number, which hadn't arrived, was dropped.
    DropIn(u64),
    /// The first frame on its way to this client was put into its box.
    Land(u64),
    /// The frame at this place, from 0, of the client's box followed by the frames on their way to it was dropped.
    DropOut { client: u64, place: u64 },
    /// This client took the first frame of its box, or found the box empty.
    Took(u64, Option<&'a [u8]>),
}

/// The history of the guest and its clients. It only grows. Contracts see its entries one by one.
///
/// The bytes of all frames lie one after another, in the order of the entries that they are of.
#[derive(Drop)]
pub struct History {
    entries: Vec<StoredEntry>,
    bytes: Vec<u8>,
    len: u64,
}

impl Model for History {
    ghost use Rattle.pair_history.specs.Log.{Log};

    ghost Value = { Log };

    ghost use Rattle.pair_history.specs.internal.LogFields.{log_of, AreFields};

    ghost view = { log_of };

    ghost invariant = { AreFields };
}

impl History {
    ghost use Rattle.pair_history.specs.Log.{expanded, frame_bytes};

    /// An empty history.
    pub fn new(alloc: Global) -> History
        ensures { result.entries ≡ [] }
    {
        History {
            entries: Vec::new(alloc),
            bytes: Vec::new(alloc),
            len: 0,
        }
    }

    /// Makes room for so many more stored entries, or is refused for want of memory.
    pub fn reserve(&mut self, additional: usize) -> Result<(), MemoryWanted>
        ensures entries { self.new.entries ≡ self.old.entries }
        ensures room { OnOk result (additional ≤ self.new.room) }
        // It is refused only where that room was missing.
        ensures full { OnErr result (self.old.room < additional) }
        // No list has more places than that.
        ensures most { OnOk result (additional < 2 ^ 63) }
    {
        reserve(&mut self.entries, additional)
    }

    /// Makes room for one more stored entry, with a frame of so many bytes, or is refused for want of memory.
    pub fn reserve_frame(&mut self, bytes: usize) -> Result<(), MemoryWanted>
        ensures entries { self.new.entries ≡ self.old.entries }
        ensures room { OnOk result (0 < self.new.room) }
        ensures byte_room { OnOk result (bytes ≤ self.new.byte_room) }
        // It is refused only where that room was missing.
        ensures full { OnErr result ((self.old.room < 1) ⊎ (self.old.byte_room < bytes)) }
    {
        reserve(&mut self.entries, 1)?;
        reserve(&mut self.bytes, bytes)
    }

    /// Adds an entry at the end, in the room that was reserved.
    #[tactic(auto, using(crate::proofs::LogLaws::log_laws))]
    pub fn add(&mut self, entry: Entry)
        requires room { 0 < self.old.room }
        requires byte_room { length (frame_bytes entry) ≤ self.old.byte_room }
        requires fits { length (self.old.entries ++ expanded entry) < 2 ^ 62 }
        ensures entries { self.new.entries ≡ self.old.entries ++ expanded entry.entry }
        ensures room { self.old.room ≤ self.new.room + 1 }
        ensures byte_room { self.old.byte_room ≤ self.new.byte_room + length (frame_bytes entry.entry) }
    {
        self.len += entry.count();
        self.bytes.extend_from_slice(entry.bytes()).unwrap();
        self.entries.push(stored(entry)).unwrap();
    }

    /// The guest made so many steps, in the room that was reserved. They count among those that the history ends with, so that many
    /// steps in a row, however they come, take the room of one stored entry.
    #[tactic(auto, using(crate::proofs::LogLaws::log_laws))]
    pub fn run(&mut self, steps: u64)
        requires room { 0 < self.old.room }
        requires fits { length self.old.entries + steps < 2 ^ 62 }
        ensures entries { self.new.entries ≡ self.old.entries ++ replicate steps Ran }
        ensures room { self.old.room ≤ self.new.room + 1 }
    {
        let before = take_steps(&mut self.entries);
        self.len += steps;
        self.entries.push(StoredEntry::Ran(before + steps)).unwrap();
    }

    /// How many entries there are, each step counted.
    pub fn len(&self) -> u64
        ensures { result ≡ length self.now.entries }
    {
        self.len
    }

    /// Whether nothing has happened yet.
    pub fn is_empty(&self) -> bool
        ensures { IsTrue result ↔ (self.now.entries ≡ []) }
    {
        self.len == 0
    }

    /// The entries as they are stored, from the first on.
    pub fn entries(&self) -> Entries<'_>
        ensures { result.left ≡ self.now.entries }
    {
        Entries::new(self.entries.as_slice(), self.bytes.as_slice())
    }
}

/// Takes the steps that these entries end with off their end, and says how many they are.
#[tactic(auto, using(crate::proofs::LogLaws::log_laws))]
fn take_steps(entries: &mut Vec<StoredEntry>) -> u64
    ensures steps { (bytes : List ℕ) → unpacked entries.old.items bytes ≡ unpacked entries.new.items bytes ++ replicate result Ran }
    ensures widths { widths entries.new.items ≡ widths entries.old.items }
    ensures room { vec_capacity entries.old + vec_len entries.new ≤ vec_capacity entries.new + vec_len entries.old }
{
    match entries.pop() {
        Some(StoredEntry::Ran(steps)) => steps,
        Some(other) => {
            entries.push(other).unwrap();
            0
        }
        None => 0,
    }
}

impl<'a> Entry<'a> {
    ghost use Rattle.pair_history.specs.Log.{expanded, frame_bytes};

    /// How many entries it stands for.
    pub fn count(&self) -> u64
        ensures { result ≡ length (expanded self.now) }
    {
        match self {
            Entry::Ran(steps) => *steps,
            _ => 1,
        }
    }

    /// The bytes of its frame; none if it has no frame.
    pub fn bytes(&self) -> &'a [u8]
        ensures { result.now ≡ frame_bytes self.now }
    {
        match *self {
            Entry::Delivered(_, bytes, _)
            | Entry::Refused(_, bytes)
            | Entry::Took(_, Some(bytes)) => bytes,
            _ => &[],
        }
    }
}
