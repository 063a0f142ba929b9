//! The guest's memory as it is lent to a device: whatever the device writes, each page that counts as written goes on to do so. A device
//! is generic over the memory, so this is a fact of the type that is lent.
ghost use Rattle.std.specs.Prelude.{◌≡◌, ◌+◌, ◌≤◌, ◌++◌, length};
ghost use Rattle.virtio_mmio.specs.declared.kinds.DeviceKind.TheVariants.{Network};
ghost use Rattle.net_device.specs.Receive.{received};
ghost use Rattle.net_device.specs.Transmit.{served};
ghost use Rattle.block_device.specs.Contents.{unlisted};
ghost use Rattle.block_device.specs.Disk.{disk_served};
ghost use Rattle.guest_rules.specs.Flags.{KeepsFlags};

use block_device::Disk;
use net_device::{Frame, NetDevice, Outbox};
use paged_memory::Memory;
use std::marker::{Brand, PhantomData};
use virtqueue::GuestRam;

/// Flags of pages, which contracts alone see: a call that lends memory picks those that the memory has.
pub(crate) trait Flags {
    ghost use Rattle.std.specs.Prelude.{Bool, List};

    ghost flags: { List Bool };
}

impl Flags for Brand {
    ghost use Rattle.std.specs.Prelude.{[]};

    ghost flags = { [] };
}

/// Memory that is lent, and that has the flags of `F` and more.
#[derive(Drop)]
struct Lent<'a, F: Flags> {
    memory: &'a mut Memory,
    of: PhantomData<F>,
    ghost kept: { KeepsFlags F.flags memory.now.written },
}

impl<'a, F: Flags> GuestRam for Lent<'a, F> {
    ghost use Rattle.std.specs.Prelude.{◌∷◌};

    ghost bytes = { λ lent. lent.memory.now.bytes };

    // The first number names the loan.
    ghost fixed = { λ lent. lent.memory.ghost_name ∷ lent.memory.now.settled };

    fn size(&self) -> usize {
        self.memory.size()
    }

    fn read(&self, place: usize, into: &mut [u8]) {
        self.memory.read(place, into);
    }

    fn write(&mut self, place: usize, from: &[u8]) {
        // It has whole pages.
        let _size = self.memory.size();
        self.memory.write(place, from);
    }
}

/// What the network card does with its transmit queue.
pub(crate) fn transmit<F: Flags>(card: &mut NetDevice, memory: &mut Memory, outbox: &mut Outbox)
    requires flags { memory.old.written ≡ F.flags }
    requires network { card.old.transport.kind ≡ Network }
    requires room { length outbox.old + 64 ≤ 256 }
    ensures memory { memory.new.bytes ≡ (served memory.old.bytes card.old.transport.state).ram }
    ensures size { length memory.new.bytes ≡ length memory.old.bytes }
    ensures settled { memory.new.settled ≡ memory.old.settled }
    ensures flags { KeepsFlags memory.old.written memory.new.written }
    ensures device { card.new ≡ record {
      transport = record card.old.transport { state = (served memory.old.bytes card.old.transport.state).net };
    } }
    ensures frames { outbox.new ≡ outbox.old ++ (served memory.old.bytes card.old.transport.state).frames }
{
    let mut lent: Lent<'_, F> = Lent {
        memory,
        of: PhantomData,
    };
    card.transmit(&mut lent, outbox);
}

/// What the network card does with a frame that arrives. Says whether the guest has it.
pub(crate) fn receive<F: Flags>(card: &mut NetDevice, memory: &mut Memory, frame: &Frame) -> bool
    requires flags { memory.old.written ≡ F.flags }
    requires network { card.old.transport.kind ≡ Network }
    ensures taken { result ≡ (received memory.old.bytes card.old.transport.state frame.now).taken }
    ensures memory { memory.new.bytes ≡ (received memory.old.bytes card.old.transport.state frame.now).ram }
    ensures size { length memory.new.bytes ≡ length memory.old.bytes }
    ensures settled { memory.new.settled ≡ memory.old.settled }
    ensures flags { KeepsFlags memory.old.written memory.new.written }
    ensures device { card.new ≡ record {
      transport = record card.old.transport { state = (received memory.old.bytes card.old.transport.state frame.now).net };
    } }
{
    let mut lent: Lent<'_, F> = Lent {
        memory,
        of: PhantomData,
    };
    card.receive(&mut lent, frame)
}

/// What the disk does with its queue.
pub(crate) fn serve<F: Flags>(disk: &mut Disk, memory: &mut Memory)
    requires flags { memory.old.written ≡ F.flags }
    ensures memory { memory.new.bytes ≡ (disk_served memory.old.bytes disk.old.state (unlisted disk.old.contents)).ram }
    ensures size { length memory.new.bytes ≡ length memory.old.bytes }
    ensures settled { memory.new.settled ≡ memory.old.settled }
    ensures flags { KeepsFlags memory.old.written memory.new.written }
    ensures state { disk.new.state ≡ (disk_served memory.old.bytes disk.old.state (unlisted disk.old.contents)).state }
    ensures bytes { disk.new.contents.bytes ≡ (disk_served memory.old.bytes disk.old.state (unlisted disk.old.contents)).kept.bytes }
    ensures list { disk.new.contents.dirty ≡ (disk_served memory.old.bytes disk.old.state disk.old.contents).kept.dirty }
{
    let mut lent: Lent<'_, F> = Lent {
        memory,
        of: PhantomData,
    };
    disk.serve(&mut lent);
}
