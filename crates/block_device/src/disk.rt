//! The disk: a block device's registers over its sectors.
ghost use Rattle.std.specs.Prelude.{◌≡◌, ◌+◌, ◌*◌, ◌<◌, ◌≤◌, ◌↔◌, All, IfOk, IsTrue, OnErr, Err, [], length};
ghost use Rattle.memory_wanted.specs.Wanted.{wanted};
ghost use Rattle.virtio_mmio.specs.States.{boot_state, IsDeviceRecord};
ghost use Rattle.virtio_mmio.specs.Transport.{loaded, store_answer, state_after_store};
ghost use Rattle.block_device.specs.Contents.{capacity, sector_at, boot_contents, contents_with, unlisted, IsDisk};
ghost use Rattle.block_device.specs.Dirty.{Rises};
ghost use Rattle.block_device.specs.Disk.{disk_of, kind_of, disk_served};
ghost use Rattle.block_device.specs.Limits.{most_sectors};

use crate::errors::DiskError;
use crate::storage::{SECTOR_BYTES, Storage};
use std::alloc::Global;
use std::marker::Model;
use virtio_mmio::{Action, DeviceKind, DeviceState, Transport};
use virtqueue::GuestRam;

/// The queue of a block device (virtio 1.1, 5.2.2).
const REQUESTS: u32 = 0;

/// A virtio block device (virtio 1.1, 5.2) whose sectors stand in memory. All memory that its calls need is reserved at boot.
#[derive(Drop)]
pub struct Disk {
    transport: Transport,
    storage: Storage,
}

impl Model for Disk {
    ghost use Rattle.std.specs.Prelude.{◌≡◌};
    ghost use Rattle.virtio_mmio.specs.declared.kinds.DeviceKind.TheVariants.{Block};
    ghost use Rattle.block_device.specs.Contents.{capacity};
    ghost use Rattle.block_device.specs.Disk.{DiskState, disk_of};

    ghost Value = { DiskState };

    ghost view = { λ d. disk_of d.transport.state d.storage };

    ghost invariant = { λ d. d.transport.kind ≡ Block (capacity d.storage) };
}

impl Disk {
    /// A disk of 1 to 32768 sectors, as the caller knows: each byte is 0, and its registers are as at boot.
    ///
    /// # Errors
    /// `NoMemory` where memory is refused.
    pub fn boot(alloc: Global, sectors: u32) -> Result<Disk, DiskError>
        requires some { 1 ≤ sectors }
        requires most { sectors ≤ most_sectors }
        ensures disk { IfOk result (λ disk. disk ≡ disk_of boot_state (boot_contents sectors)) }
        ensures sectors { IfOk result (λ disk. capacity disk.contents ≡ sectors) }
        ensures err { OnErr result (result ≡ Err (DiskError.NoMemory wanted)) }
    {
        let storage = Storage::boot(alloc, sectors)?;
        let capacity = u64::from(storage.sectors());
        Ok(Disk {
            transport: Transport::boot(DeviceKind::Block { capacity }),
            storage,
        })
    }

    /// How many sectors the disk has: 1 to 32768.
    pub fn sectors(&self) -> u32
        ensures value { result ≡ capacity self.now.contents }
        ensures least { 1 ≤ result }
        ensures most { result ≤ most_sectors }
        ensures disk { IsDisk self.now.contents }
    {
        self.storage.sectors()
    }

    /// The 512 bytes of a sector that the disk has, as the caller knows.
    pub fn sector(&self, sector: u32) -> &[u8; SECTOR_BYTES]
        requires { sector < capacity self.now.contents }
        ensures { result.now ≡ sector_at self.now.contents sector }
    {
        self.storage.sector(sector)
    }

    /// Whether each byte of a sector is 0; the disk has the sector, as the caller knows.
    pub fn blank(&self, sector: u32) -> bool
        requires { sector < capacity self.now.contents }
        ensures { IsTrue result ↔ All (λ b. b ≡ 0) (sector_at self.now.contents sector) }
    {
        self.storage.blank(sector)
    }

    /// The sectors that were written since the last [`settle`](Disk::settle), or since boot: they rise, and none stands there twice.
    pub fn dirty_sectors(&self) -> &[u32]
        ensures value { result.now ≡ self.now.contents.dirty }
        ensures rises { Rises 0 (capacity self.now.contents) result.now }
    {
        self.storage.dirty()
    }

    /// Empties the list of the sectors that were written.
    pub fn settle(&mut self)
        ensures { self.new ≡ disk_of self.old.state (record self.old.contents { dirty = [] }) }
    {
        self.storage.settle();
    }

    /// What the registers keep. It meets the rules of a block device's record.
    pub fn state(&self) -> DeviceState
        ensures value { result ≡ self.now.state }
        ensures rules { IsDeviceRecord (kind_of self.now) result }
    {
        self.transport.state()
    }

    /// Which interrupts wait for the driver: bit 0 where a buffer was used, bit 1 where the configuration changed.
    #[inline]
    pub fn interrupt_status(&self) -> u32
        ensures value { result ≡ self.now.state.interrupt_status }
        ensures bits { result ≤ 3 }
    {
        self.transport.interrupt_status()
    }

    /// Puts another record in the place of this one; the caller knows that it meets the rules of a block device's record.
    pub fn put_state(&mut self, state: &DeviceState)
        requires { IsDeviceRecord (kind_of self.old) state.now }
        ensures { self.new ≡ disk_of state.now self.old.contents }
    {
        self.transport.put_state(state);
    }

    /// Puts other bytes in the place of a sector's, and the sector into the list of the written ones. The disk has it, as the
    /// caller knows. It takes no memory.
    pub fn put_sector(&mut self, sector: u32, bytes: &[u8; SECTOR_BYTES])
        requires { sector < capacity self.old.contents }
        ensures value { self.new ≡ disk_of self.old.state (contents_with self.old.contents sector bytes.now) }
        ensures sectors { capacity self.new.contents ≡ capacity self.old.contents }
    {
        self.storage.put_sector(sector, bytes);
    }

    /// What a load of `width` bytes at `offset` of the device's registers gives; `None` is an access fault: a width other than 4
    /// below 0x100, or one other than 1, 2, 4 and 8 from there on.
    pub fn load(&self, offset: u64, width: u8) -> Option<u64>
        ensures { result ≡ loaded (kind_of self.now) self.now.state offset width }
    {
        self.transport.load(offset, width)
    }

    /// Does a store of the low `width` bytes of `value` at `offset` of the device's registers, and says what it asks of the
    /// device; `None` is an access fault, as in `load`, and changes nothing. It serves no queue.
    pub fn store(&mut self, offset: u64, width: u8, value: u64) -> Option<Action>
        ensures action { result ≡ store_answer (kind_of self.old) self.old.state offset width value }
        ensures state { self.new ≡ disk_of (state_after_store (kind_of self.old) self.old.state offset width value) self.old.contents }
    {
        self.transport.store(offset, width, value)
    }

    /// Serves the requests that the driver made available, at most 64 of them, in turn.
    ///
    /// Nothing happens unless the device and its queue are ready. A malformation, of the queue, of a chain or of a request,
    /// takes the device out of service until its reset, and leaves the requests before it served. A request that is refused
    /// by its status changes no sector. It takes no memory. The list of the written sectors plays no part in what it leaves
    /// beside that list itself.
    #[tactic(auto, unfolding(crate::specs::Disk::disk_served))]
    pub fn serve<R: GuestRam>(&mut self, ram: &mut R)
        ensures memory { R.bytes ram.new ≡ (disk_served (R.bytes ram.old) self.old.state self.old.contents).ram }
        ensures state { self.new.state ≡ (disk_served (R.bytes ram.old) self.old.state self.old.contents).state }
        ensures contents { self.new.contents ≡ (disk_served (R.bytes ram.old) self.old.state self.old.contents).kept }
        ensures apart_memory { R.bytes ram.new ≡ (disk_served (R.bytes ram.old) self.old.state (unlisted self.old.contents)).ram }
        ensures apart_state { self.new.state ≡ (disk_served (R.bytes ram.old) self.old.state (unlisted self.old.contents)).state }
        ensures apart_bytes { self.new.contents.bytes
            ≡ (disk_served (R.bytes ram.old) self.old.state (unlisted self.old.contents)).kept.bytes }
        ensures list { self.new.contents.dirty ≡ (disk_served (R.bytes ram.old) self.old.state self.old.contents).kept.dirty }
        ensures size { length (R.bytes ram.new) ≡ length (R.bytes ram.old) }
        ensures fixed { R.fixed ram.new ≡ R.fixed ram.old }
        ensures sectors { capacity self.new.contents ≡ capacity self.old.contents }
        ensures rules { IsDeviceRecord (kind_of self.new) self.new.state }
        ensures disk { IsDisk self.new.contents }
    {
        self.transport.serve(REQUESTS, ram, &mut self.storage);
        // Both are as they must be, and the disk has as many sectors as before.
        let _state = self.transport.state();
        let _sectors = self.storage.sectors();
    }
}
