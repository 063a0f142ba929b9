//! What a device keeps of one queue, and the queue's three areas.

ghost use Rattle.std.specs.Prelude.{◌≡◌, ◌≤◌, length, OnOk, IfOk, IsTrue};
ghost use Rattle.virtqueue.specs.Queues.{boot_queue};
ghost use Rattle.virtqueue.specs.Limits.{most_descriptors};
ghost use Rattle.virtqueue.specs.Areas.{is_aligned, are_inside, available_of, AreasFit, IsSized};
ghost use Rattle.virtqueue.specs.Used.{used_written, queue_after_use};

use crate::broken::Broken;
use crate::memory::{GuestRam, RAM_START, is_inside, read_u16, write_u16, write_u32};

/// A split virtqueue as its device keeps it (virtio 1.1, 2.6): the registers that the driver sets and
/// the device's two counters.
#[derive(Clone, Copy, PartialEq, Eq)]
pub struct Queue {
    /// How many descriptors the table has: 0 until the driver sets it, else a power of two up to 64.
    pub num: u32,
    /// Whether the driver has made the queue ready.
    pub ready: bool,
    /// The guest address of the descriptor table.
    pub desc: u64,
    /// The guest address of the available ring, which the driver writes.
    pub driver: u64,
    /// The guest address of the used ring, which the device writes.
    pub device: u64,
    /// How many chains the device has taken, modulo 2^16.
    pub next_available: u16,
    /// How many chains the device has put into the used ring, modulo 2^16.
    pub next_used: u16,
}

impl Queue {
    /// The queue at boot and after a reset: all 0.
    pub fn boot() -> Queue
        ensures { result ≡ boot_queue }
    {
        Queue {
            num: 0,
            ready: false,
            desc: 0,
            driver: 0,
            device: 0,
            next_available: 0,
            next_used: 0,
        }
    }

    /// Whether the three areas are aligned.
    fn is_aligned(&self) -> bool
        ensures { result ≡ is_aligned self.now }
    {
        self.desc % 16 == 0 && self.driver % 2 == 0 && self.device % 4 == 0
    }

    /// Whether the three areas lie wholly in RAM of `size` bytes.
    fn are_inside(&self, size: usize) -> bool
        ensures value { result ≡ are_inside self.now size }
        ensures fits { IsTrue result → AreasFit self.now size }
    {
        let num = u64::from(self.num);
        is_inside(size, self.desc, 16 * num)
            && is_inside(size, self.driver, 6 + 2 * num)
            && is_inside(size, self.device, 6 + 8 * num)
    }

    /// How many chains the driver made available that aren't taken yet, at most 64.
    ///
    /// It reads the available ring's idx, once. The errors, in this order: `Misaligned`, `AreaOutside`,
    /// and `TooMany` if more than 64 are available.
    #[tactic(auto, unfolding(crate::specs::Areas::available_of))]
    pub fn available<R: GuestRam>(&self, ram: &R) -> Result<u16, Broken>
        ensures value { result ≡ available_of self.now (R.bytes ram.now) }
        ensures areas { OnOk result (AreasFit self.now (length (R.bytes ram.now))) }
        ensures few { IfOk result (λ n. n ≤ most_descriptors) }
    {
        if !self.is_aligned() {
            return Err(Broken::Misaligned);
        }
        if !self.are_inside(ram.size()) {
            return Err(Broken::AreaOutside);
        }
        let place = (self.driver - RAM_START) as usize + 2;
        let waiting = read_u16(ram, place).wrapping_sub(self.next_available);
        if waiting > 64 {
            return Err(Broken::TooMany);
        }
        Ok(waiting)
    }

    /// Puts a chain, by the index of its first descriptor, into the used ring with the number of bytes
    /// that the device wrote, and counts it as taken and used.
    #[tactic(auto, unfolding(crate::specs::Used::used_written))]
    pub fn put_used<R: GuestRam>(&mut self, ram: &mut R, head: u16, len: u32)
        requires areas { AreasFit self.old (length (R.bytes ram.old)) }
        requires sized { IsSized self.old }
        ensures ring { R.bytes ram.new ≡ used_written self.old (R.bytes ram.old) head len }
        ensures size { length (R.bytes ram.new) ≡ length (R.bytes ram.old) }
        ensures fixed { R.fixed ram.new ≡ R.fixed ram.old }
        ensures queue { self.new ≡ queue_after_use self.old }
    {
        let ring = (self.device - RAM_START) as usize;
        let slot = ring + 4 + 8 * (usize::from(self.next_used) % self.num as usize);
        self.next_available = self.next_available.wrapping_add(1);
        self.next_used = self.next_used.wrapping_add(1);
        write_u32(ram, slot, u32::from(head));
        write_u32(ram, slot + 4, len);
        write_u16(ram, ring, 0);
        write_u16(ram, ring + 2, self.next_used);
    }
}
