//! The network card.
ghost use Rattle.std.specs.Prelude.{◌≡◌, ◌+◌, ◌≤◌, ◌++◌, length};
ghost use Rattle.virtqueue.specs.Areas.{AreasFit, IsSized};
ghost use Rattle.virtqueue.specs.Chains.{BuffersInside};
ghost use Rattle.virtqueue.specs.Parts.{writable_len, writable_places, put_at};
ghost use Rattle.virtio_mmio.specs.States.{boot_state, queue_at};
ghost use Rattle.virtio_mmio.specs.declared.kinds.DeviceKind.TheVariants.{Network};
ghost use Rattle.net_device.specs.Limits.{outbox_frames};
ghost use Rattle.net_device.specs.Transmit.{served};
ghost use Rattle.net_device.specs.Receive.{packet, put_into, received};

use crate::frames::{Frame, Outbox};
use crate::sending::HEADER_BYTES;
use virtio_mmio::{DeviceKind, Transport};
use virtqueue::{Chain, GuestRam, Queue};

/// The receive and the transmit queue (virtio 1.1, 5.1.2).
const RECEIVE_QUEUE: u32 = 0;

const TRANSMIT_QUEUE: u32 = 1;

/// The header of a received packet (virtio 1.1, 5.1.6): all 0 but for le16 num_buffers, which is 1.
const HEADER: [u8; 12] = [0, 0, 0, 0, 0, 0, 0, 0, 0, 0, 1, 0];

/// A network card. It keeps nothing beside its registers, which its user reads and writes for the driver.
#[derive(Clone, Copy)]
pub struct NetDevice {
    /// The registers, of a device of the kind `Network`.
    pub transport: Transport,
}

impl NetDevice {
    /// The card at boot.
    pub fn boot() -> NetDevice
        ensures { result ≡ record { transport = record { kind = Network; state = boot_state } } }
    {
        NetDevice {
            transport: Transport::boot(DeviceKind::Network),
        }
    }

    /// Serves the transmit queue: sends the frames that the driver made available there into the outbox. It takes no memory.
    ///
    /// Nothing happens while the queue isn't in service. A malformation of the queue or of a chain takes the card out
    /// of service, and leaves the chains before it served. A frame of under 14 or over 1514 bytes is lost, and its chain used.
    pub fn transmit<R: GuestRam>(&mut self, ram: &mut R, outbox: &mut Outbox)
        requires network { self.old.transport.kind ≡ Network }
        requires room { length outbox.old + 64 ≤ outbox_frames }
        ensures memory { R.bytes ram.new ≡ (served (R.bytes ram.old) self.old.transport.state).ram }
        ensures device { self.new ≡ record {
          transport = record self.old.transport {
            state = (served (R.bytes ram.old) self.old.transport.state).net;
          };
        } }
        ensures frames { outbox.new ≡ outbox.old ++ (served (R.bytes ram.old) self.old.transport.state).frames }
        ensures size { length (R.bytes ram.new) ≡ length (R.bytes ram.old) }
        ensures fixed { R.fixed ram.new ≡ R.fixed ram.old }
    {
        self.transport.serve(TRANSMIT_QUEUE, ram, outbox);
    }

    /// Puts a frame that arrives into the next chain of the receive queue, and says whether the guest has it.
    ///
    /// It is lost, and nothing changes, while the queue isn't in service, where no chain is available, and where the
    /// chain is too short. It is lost and takes the card out of service where the queue or the chain is malformed.
    #[tactic(auto, unfolding(crate::specs::Receive::received))]
    pub fn receive<R: GuestRam>(&mut self, ram: &mut R, frame: &Frame) -> bool
        requires network { self.old.transport.kind ≡ Network }
        ensures taken { result ≡ (received (R.bytes ram.old) self.old.transport.state frame.now).taken }
        ensures memory { R.bytes ram.new ≡ (received (R.bytes ram.old) self.old.transport.state frame.now).ram }
        ensures device { self.new ≡ record {
          transport = record self.old.transport {
            state = (received (R.bytes ram.old) self.old.transport.state frame.now).net;
          };
        } }
        ensures size { length (R.bytes ram.new) ≡ length (R.bytes ram.old) }
        ensures fixed { R.fixed ram.new ≡ R.fixed ram.old }
    {
        let Some(queue) = self.transport.queue_in_service(RECEIVE_QUEUE) else {
            return false;
        };
        match queue.next_chain(ram) {
            Ok(Some(chain)) => self.put_into(ram, &chain, frame),
            Ok(None) => false,
            Err(_) => {
                self.transport.need_reset();
                false
            }
        }
    }

    /// Puts a frame into a chain of the receive queue, and says whether it did.
    fn put_into<R: GuestRam>(&mut self, ram: &mut R, chain: &Chain, frame: &Frame) -> bool
        requires network { self.old.transport.kind ≡ Network }
        requires areas { AreasFit (queue_at self.old.transport.state 0) (length (R.bytes ram.old)) }
        requires sized { IsSized (queue_at self.old.transport.state 0) }
        requires inside { BuffersInside (length (R.bytes ram.old)) chain.now.parts }
        ensures taken { result ≡ (put_into (R.bytes ram.old) self.old.transport.state frame.now chain.now).taken }
        ensures memory { R.bytes ram.new ≡ (put_into (R.bytes ram.old) self.old.transport.state frame.now chain.now).ram }
        ensures device { self.new ≡ record {
          transport = record self.old.transport {
            state = (put_into (R.bytes ram.old) self.old.transport.state frame.now chain.now).net;
          };
        } }
        ensures size { length (R.bytes ram.new) ≡ length (R.bytes ram.old) }
        ensures fixed { R.fixed ram.new ≡ R.fixed ram.old }
    {
        if !chain.is_all_writable() {
            self.transport.need_reset();
            return false;
        }
        let len = HEADER.len() + frame.len();
        if chain.writable_len() < len as u64 {
            return false;
        }
        write_packet(ram, chain, frame);
        self.transport
            .put_used(RECEIVE_QUEUE, ram, chain.head(), len as u32);
        true
    }
}

/// Writes the packet of a frame into a chain's writable buffers.
fn write_packet<R: GuestRam>(ram: &mut R, chain: &Chain, frame: &Frame)
    requires inside { BuffersInside (length (R.bytes ram.old)) chain.now.parts }
    requires fits { length (packet frame.now) ≤ writable_len chain.now.parts }
    ensures value { R.bytes ram.new ≡ put_at (R.bytes ram.old) (writable_places chain.now.parts) (packet frame.now) }
    ensures size { length (R.bytes ram.new) ≡ length (R.bytes ram.old) }
    ensures fixed { R.fixed ram.new ≡ R.fixed ram.old }
{
    Queue::scatter(chain, ram, 0, &HEADER);
    Queue::scatter(chain, ram, HEADER_BYTES, frame.as_slice());
}
