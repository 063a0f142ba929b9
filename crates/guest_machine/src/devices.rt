//! The devices of a machine: its network card and its disk.
ghost use Rattle.std.specs.Prelude.{
  ◌≡◌,
  ◌+◌,
  ◌*◌,
  ◌/◌,
  ◌<◌,
  ◌≤◌,
  ◌++◌,
  ◌==◌,
  ◌&&◌,
  ◌↔◌,
  not,
  All,
  IfOk,
  IfSome,
  IfNone,
  IsTrue,
  Some,
  None,
  [],
  length,
};
ghost use Rattle.rv64_core.specs.Widths.{width_bytes};
ghost use Rattle.virtio_mmio.specs.declared.kinds.DeviceKind.TheVariants.{Network, Block};
ghost use Rattle.virtio_mmio.specs.States.{boot_state, IsDeviceRecord};
ghost use Rattle.virtio_mmio.specs.Transport.{loaded, stored};
ghost use Rattle.net_device.specs.Receive.{received};
ghost use Rattle.block_device.specs.Contents.{capacity, boot_contents, contents_with, unlisted};
ghost use Rattle.block_device.specs.Dirty.{Rises};
ghost use Rattle.guest_rules.specs.Flags.{KeepsFlags};
ghost use Rattle.guest_rules.specs.Guest.{sector_count, sector_of};
ghost use Rattle.guest_rules.specs.Step.{acted, disk_acted};

use crate::lending::{receive, serve, transmit};
use crate::ram::Ram;
use block_device::{Disk, DiskError, SECTOR_BYTES};
use net_device::{Frame, NetDevice, Outbox};
use rv64_core::Width;
use std::alloc::Global;
use std::marker::{Brand, Model};
use virtio_mmio::{Action, DeviceState};

/// The number of the network card's transmit queue (virtio 1.1, 5.1.2).
const TRANSMIT_QUEUE: u32 = 1;

/// The number of the disk's queue (virtio 1.1, 5.2.2).
const REQUEST_QUEUE: u32 = 0;

/// The network card and the disk.
#[derive(Drop)]
pub(crate) struct Devices {
    net: NetDevice,
    disk: Disk,
}

impl Model for Devices {
    ghost use Rattle.std.specs.Prelude.{◌≡◌};
    ghost use Rattle.virtio_mmio.specs.declared.kinds.DeviceKind.TheVariants.{Network};
    ghost use Rattle.guest_machine.specs.Parts.{Attached};

    ghost Value = { Attached };

    ghost view = { λ d. record { net = d.net.transport.state; disk = d.disk.state; contents = d.disk.contents } };

    ghost invariant = { λ d. d.net.transport.kind ≡ Network };
}

impl Devices {
    /// A network card, and a disk of 1 to 32768 sectors that are 0, both as at boot.
    pub(crate) fn boot(alloc: Global, sectors: u32) -> Result<Devices, DiskError>
        requires some { 1 ≤ sectors }
        requires most { sectors ≤ 32768 }
        ensures { IfOk result (λ devices. devices ≡ record { net = boot_state; disk = boot_state; contents = boot_contents sectors }) }
    {
        let disk = Disk::boot(alloc, sectors)?;
        Ok(Devices {
            net: NetDevice::boot(),
            disk,
        })
    }

    /// Whether a device has an interrupt for its driver.
    #[inline]
    pub(crate) fn interrupts_wait(&self) -> bool
        ensures { result ≡ not (self.now.net.interrupt_status == 0 && self.now.disk.interrupt_status == 0) }
    {
        self.net.transport.interrupt_status() != 0 || self.disk.interrupt_status() != 0
    }

    /// What a load from the network card's registers gives; `None` is an access fault.
    pub(crate) fn load_net(&self, offset: u64, width: Width) -> Option<u64>
        ensures { result ≡ loaded Network self.now.net offset (width_bytes width) }
    {
        self.net.transport.load(offset, width.bytes() as u8)
    }

    /// What a load from the disk's registers gives; `None` is an access fault.
    pub(crate) fn load_disk(&self, offset: u64, width: Width) -> Option<u64>
        ensures { result ≡ loaded (Block (sector_count self.now.contents.bytes)) self.now.disk offset (width_bytes width) }
    {
        self.disk.load(offset, width.bytes() as u8)
    }

    /// A store to a register of the network card, and what it asks of the card; `None` is an access fault.
    pub(crate) fn store_net(&mut self, offset: u64, width: Width, value: u64) -> Option<Action>
        ensures none { IfNone result (stored Network self.old.net offset (width_bytes width) value ≡ None) }
        ensures unchanged { IfNone result (self.new ≡ self.old) }
        ensures some { IfSome result (λ action. stored Network self.old.net offset (width_bytes width) value
            ≡ Some (record { action = action; state = self.new.net })) }
        ensures other { self.new ≡ record self.old { net = self.new.net } }
    {
        self.net.transport.store(offset, width.bytes() as u8, value)
    }

    /// A store to a register of the disk, and what it asks of the disk; `None` is an access fault.
    pub(crate) fn store_disk(&mut self, offset: u64, width: Width, value: u64) -> Option<Action>
        ensures none { IfNone result
            (stored (Block (sector_count self.old.contents.bytes)) self.old.disk offset (width_bytes width) value ≡ None) }
        ensures unchanged { IfNone result (self.new ≡ self.old) }
        ensures some { IfSome result (λ action.
            stored (Block (sector_count self.old.contents.bytes)) self.old.disk offset (width_bytes width) value
            ≡ Some (record { action = action; state = self.new.disk })) }
        ensures other { self.new ≡ record self.old { disk = self.new.disk } }
    {
        self.disk.store(offset, width.bytes() as u8, value)
    }

    /// What the network card does that a store asked to act.
    pub(crate) fn act_net(&mut self, ram: &mut Ram, outbox: &mut Outbox, action: Action)
        requires room { length outbox.old + 64 ≤ 256 }
        ensures memory { ram.new.memory.bytes ≡ (acted ram.old.memory.bytes self.old.net action).ram }
        ensures settled { ram.new.memory.settled ≡ ram.old.memory.settled }
        ensures flags { KeepsFlags ram.old.memory.written ram.new.memory.written }
        ensures card { self.new ≡ record self.old { net = (acted ram.old.memory.bytes self.old.net action).net } }
        ensures frames { outbox.new ≡ outbox.old ++ (acted ram.old.memory.bytes self.old.net action).frames }
    {
        match action {
            Action::Notify(queue) => {
                if queue == TRANSMIT_QUEUE {
                    transmit::<Brand>(&mut self.net, &mut ram.memory, outbox);
                }
            }
            Action::None | Action::Reset => {}
        }
    }

    /// What the disk does that a store asked to act.
    pub(crate) fn act_disk(&mut self, ram: &mut Ram, action: Action)
        ensures memory { ram.new.memory.bytes ≡ (disk_acted ram.old.memory.bytes self.old.disk (unlisted self.old.contents) action).ram }
        ensures settled { ram.new.memory.settled ≡ ram.old.memory.settled }
        ensures flags { KeepsFlags ram.old.memory.written ram.new.memory.written }
        ensures disk { self.new.disk ≡ (disk_acted ram.old.memory.bytes self.old.disk (unlisted self.old.contents) action).state }
        ensures sectors { self.new.contents.bytes
            ≡ (disk_acted ram.old.memory.bytes self.old.disk (unlisted self.old.contents) action).kept.bytes }
        ensures list { self.new.contents.dirty ≡ (disk_acted ram.old.memory.bytes self.old.disk self.old.contents action).kept.dirty }
        ensures net { self.new.net ≡ self.old.net }
    {
        match action {
            Action::Notify(queue) => {
                if queue == REQUEST_QUEUE {
                    serve::<Brand>(&mut self.disk, &mut ram.memory);
                }
            }
            Action::None | Action::Reset => {}
        }
    }

    /// A frame arrives at the network card, and is put into the next chain of its receive queue. Says whether it was.
    pub(crate) fn receive(&mut self, ram: &mut Ram, frame: &Frame) -> bool
        ensures taken { result ≡ (received ram.old.memory.bytes self.old.net frame.now).taken }
        ensures memory { ram.new.memory.bytes ≡ (received ram.old.memory.bytes self.old.net frame.now).ram }
        ensures settled { ram.new.memory.settled ≡ ram.old.memory.settled }
        ensures flags { KeepsFlags ram.old.memory.written ram.new.memory.written }
        ensures card { self.new ≡ record self.old { net = (received ram.old.memory.bytes self.old.net frame.now).net } }
    {
        receive::<Brand>(&mut self.net, &mut ram.memory, frame)
    }

    /// What the network card keeps.
    pub(crate) fn net(&self) -> DeviceState
        ensures value { result ≡ self.now.net }
        ensures rules { IsDeviceRecord Network result }
    {
        self.net.transport.state()
    }

    /// What the disk's registers keep.
    pub(crate) fn disk(&self) -> DeviceState
        ensures value { result ≡ self.now.disk }
        ensures rules { IsDeviceRecord (Block (sector_count self.now.contents.bytes)) result }
    {
        self.disk.state()
    }

    /// How many sectors the disk has.
    pub(crate) fn sectors(&self) -> u32
        ensures value { result ≡ sector_count self.now.contents.bytes }
        ensures least { 1 ≤ result }
        ensures most { result ≤ 32768 }
        ensures whole { length self.now.contents.bytes ≡ 512 * result }
    {
        self.disk.sectors()
    }

    /// The bytes of a sector.
    pub(crate) fn sector(&self, sector: u32) -> &[u8; SECTOR_BYTES]
        requires { sector < sector_count self.now.contents.bytes }
        ensures { result.now ≡ sector_of self.now.contents.bytes sector }
    {
        self.disk.sector(sector)
    }

    /// Whether each byte of a sector is 0.
    pub(crate) fn blank(&self, sector: u32) -> bool
        requires { sector < sector_count self.now.contents.bytes }
        ensures { IsTrue result ↔ All (λ b. b ≡ 0) (sector_of self.now.contents.bytes sector) }
    {
        self.disk.blank(sector)
    }

    /// The sectors that were written since the last settle, in rising order.
    pub(crate) fn dirty_sectors(&self) -> &[u32]
        ensures value { result.now ≡ self.now.contents.dirty }
        ensures rises { Rises 0 (sector_count self.now.contents.bytes) result.now }
    {
        self.disk.dirty_sectors()
    }

    /// Puts other records in the place of those that both devices keep.
    pub(crate) fn put_records(&mut self, net: &DeviceState, disk: &DeviceState)
        requires net { IsDeviceRecord Network net.now }
        requires disk { IsDeviceRecord (Block (sector_count self.old.contents.bytes)) disk.now }
        ensures { self.new ≡ record self.old { net = net.now; disk = disk.now } }
    {
        self.net.transport.put_state(net);
        self.disk.put_state(disk);
    }

    /// Puts other bytes in the place of a sector's, and puts it into the list of the written ones.
    pub(crate) fn put_sector(&mut self, sector: u32, bytes: &[u8; SECTOR_BYTES])
        requires { sector < sector_count self.old.contents.bytes }
        ensures { self.new ≡ record self.old { contents = contents_with self.old.contents sector bytes.now } }
    {
        self.disk.put_sector(sector, bytes);
    }

    /// Empties the list of the written sectors.
    pub(crate) fn settle(&mut self)
        ensures { self.new ≡ record self.old { contents = record self.old.contents { dirty = [] } } }
    {
        self.disk.settle();
    }
}
