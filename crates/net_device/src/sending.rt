//! What the card does with a chain of its transmit queue.
ghost use Rattle.std.specs.Prelude.{◌≡◌, ◌-◌, ◌≤◌, true, false, length};
ghost use Rattle.net_device.specs.Limits.{outbox_frames};
ghost use Rattle.net_device.specs.Transmit.{send};

use crate::frames::Outbox;
use virtio_mmio::ChainHandler;
use virtqueue::{Broken, Chain, GuestRam};

/// Bytes in front of a frame (virtio 1.1, 5.1.6).
pub(crate) const HEADER_BYTES: u64 = 12;

/// The lengths of a frame (IEEE 802.3, without the check sequence).
const SHORTEST_FRAME: u64 = 14;

const LONGEST_FRAME: u64 = 1514;

/// Whether a packet of so many bytes has a frame.
fn has_frame(len: u64) -> bool
    ensures some { result ≡ true → (26 ≤ len) × (len ≤ 1526) }
    ensures none { result ≡ false → 26 ≤ len → len ≤ 1526 → ⊥ }
{
    HEADER_BYTES + SHORTEST_FRAME <= len && len <= HEADER_BYTES + LONGEST_FRAME
}

impl ChainHandler for Outbox {
    ghost room = { λ frames. outbox_frames - length frames };

    ghost act = { send };

    /// Sends the frame of a packet: it is put last. One of under 14 or over 1514 bytes is lost.
    fn act<R: GuestRam>(&mut self, ram: &mut R, chain: &Chain) -> Result<u32, Broken> {
        if !chain.is_all_readable() {
            return Err(Broken::Direction);
        }
        let len = chain.readable_len();
        if has_frame(len) {
            self.push_readable(ram, chain, HEADER_BYTES, (len - HEADER_BYTES) as usize);
        }
        Ok(0)
    }
}
