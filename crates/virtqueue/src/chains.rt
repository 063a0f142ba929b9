//! The chain of descriptors that the driver made available.

ghost use Rattle.std.specs.Prelude.{◌≡◌, ◌+◌, ◌*◌, ◌<◌, ◌≤◌, length, false, IfOk, IfSome, OnOk};
ghost use Rattle.virtqueue.specs.Limits.{most_descriptors};
ghost use Rattle.virtqueue.specs.Memory.{place_of};
ghost use Rattle.virtqueue.specs.Areas.{AreasFit, IsSized};
ghost use Rattle.virtqueue.specs.Chains.{sound_entry, spelled_from, chain_of, next_chain_of, items_of, BuffersInside};

use crate::broken::Broken;
use crate::memory::{GuestRam, RAM_START, is_inside, read_u16, read_u32, read_u64};
use crate::rings::Queue;
use arrayvec::ArrayVec;
use std::marker::Model;

/// One buffer of a chain: so many bytes from a guest address on, which the device reads or writes.
#[derive(Clone, Copy, Default)]
pub struct Descriptor {
    /// The guest address of the buffer's first byte; of no meaning if the buffer is empty.
    pub address: u64,
    /// How many bytes the buffer has.
    pub len: u32,
    /// Whether the device writes the buffer; else it reads it.
    pub writable: bool,
}

/// A chain: the buffers of one request, in order.
#[derive(Drop)]
pub struct Chain {
    head: u16,
    parts: ArrayVec<Descriptor, 64>,
}

impl Model for Chain {
    ghost use Rattle.virtqueue.specs.Chains.{Spelled};

    ghost Value = { Spelled };

    ghost view = { λ c. record { head = c.head; parts = c.parts.items } };
}

impl Chain {
    /// The index of the chain's first descriptor, which the used ring names it by.
    pub fn head(&self) -> u16
        ensures { result ≡ self.now.head }
    {
        self.head
    }

    /// The chain's buffers, at most 64.
    pub fn parts(&self) -> &[Descriptor]
        ensures value { result.now ≡ self.now.parts }
        ensures few { length result.now ≤ most_descriptors }
    {
        self.parts.as_slice()
    }
}

/// The flags of a descriptor (virtio 1.1, 2.6.5); other bits aren't looked at.
const NEXT: u16 = 1;

const WRITE: u16 = 2;

const INDIRECT: u16 = 4;

/// A descriptor as the table has it (virtio 1.1, 2.6.5).
#[derive(Clone, Copy)]
struct Entry {
    address: u64,
    len: u32,
    flags: u16,
    next: u16,
}

impl Queue {
    /// The descriptor of an index, or what is wrong with it; `after` says that a writable one came before.
    fn entry<R: GuestRam>(&self, ram: &R, after: bool, index: u16) -> Result<Entry, Broken>
        requires { AreasFit self.now (length (R.bytes ram.now)) }
        ensures { result ≡ sound_entry self.now (R.bytes ram.now) after index }
    {
        if u32::from(index) >= self.num {
            return Err(Broken::BadIndex);
        }
        let place = (self.desc - RAM_START) as usize + 16 * usize::from(index);
        let entry = Entry {
            address: read_u64(ram, place),
            len: read_u32(ram, place + 8),
            flags: read_u16(ram, place + 12),
            next: read_u16(ram, place + 14),
        };
        if entry.flags & INDIRECT == INDIRECT {
            return Err(Broken::Indirect);
        }
        if entry.len != 0 && !is_inside(ram.size(), entry.address, u64::from(entry.len)) {
            return Err(Broken::Outside);
        }
        if after && entry.flags & WRITE != WRITE {
            return Err(Broken::Order);
        }
        Ok(entry)
    }

    /// The descriptors that the table spells from an index on, as NEXT links them.
    fn parts<R: GuestRam>(&self, ram: &R, head: u16) -> Result<ArrayVec<Descriptor, 64>, Broken>
        requires areas { AreasFit self.now (length (R.bytes ram.now)) }
        requires sized { IsSized self.now }
        ensures { items_of result ≡ spelled_from self.now (R.bytes ram.now) self.now.num false head }
    {
        let mut parts = ArrayVec::new();
        let mut index = head;
        let mut after = false;
        for _done in 0..self.num {
            let entry = self.entry(ram, after, index)?;
            let writable = entry.flags & WRITE == WRITE;
            parts.push(Descriptor {
                address: entry.address,
                len: entry.len,
                writable,
            });
            if entry.flags & NEXT != NEXT {
                return Ok(parts);
            }
            after |= writable;
            index = entry.next;
        }
        self.entry(ram, after, index)?;
        Err(Broken::Loop)
    }

    /// The chain of the next ring entry, whether it is available or not.
    ///
    /// The errors, found descriptor by descriptor along the chain and at each in this order: `BadIndex`,
    /// `Indirect`, `Outside`, `Order` and `Loop`.
    #[tactic(auto, unfolding(crate::specs::Chains::chain_of))]
    pub fn chain<R: GuestRam>(&self, ram: &R) -> Result<Chain, Broken>
        requires areas { AreasFit self.now (length (R.bytes ram.now)) }
        requires sized { IsSized self.now }
        ensures value { result ≡ chain_of self.now (R.bytes ram.now) }
        ensures inside { IfOk result (λ c. BuffersInside (length (R.bytes ram.now)) c.parts) }
    {
        let slot = usize::from(self.next_available) % self.num as usize;
        let place = (self.driver - RAM_START) as usize + 4 + 2 * slot;
        let head = read_u16(ram, place);
        let parts = self.parts(ram, head)?;
        Ok(Chain { head, parts })
    }

    /// The next chain, none if no chain is available.
    ///
    /// The errors are those of `available`, then those of `chain`.
    #[tactic(auto, unfolding(crate::specs::Chains::next_chain_of))]
    pub fn next_chain<R: GuestRam>(&self, ram: &R) -> Result<Option<Chain>, Broken>
        requires { IsSized self.now }
        ensures value { result ≡ next_chain_of self.now (R.bytes ram.now) }
        ensures areas { OnOk result (AreasFit self.now (length (R.bytes ram.now))) }
        ensures inside { IfOk result (λ next. IfSome next (λ c. BuffersInside (length (R.bytes ram.now)) c.parts)) }
    {
        if self.available(ram)? == 0 {
            return Ok(None);
        }
        Ok(Some(self.chain(ram)?))
    }
}
