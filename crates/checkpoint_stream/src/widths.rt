//! What the types of a checkpoint's parts say of its numbers and of its lists.

ghost use Rattle.std.specs.Prelude.{◌≡◌, ◌<◌, ◌^◌, length, All};
ghost use Rattle.checkpoint_stream.specs.Widths.{QueueFits, DeviceFits, StateFits};

use epoch_snapshot::{Block, PageChange, SectorChange};
use guest_rules::MachineState;
use virtio_mmio::DeviceState;
use virtqueue::Queue;

/// Each number of a queue is one of its type.
fn queue_widths(queue: Queue)
    ensures { QueueFits queue }
{}

/// Each number of a device is one of its type, and it has two queues.
fn device_widths(device: DeviceState)
    ensures { DeviceFits device }
{
    queue_widths(device.queues[0]);
    queue_widths(device.queues[1]);
}

/// Each number of a state is one of its type, and it has 31 registers.
pub(crate) fn state_widths(state: MachineState)
    ensures { StateFits state }
{
    device_widths(state.net);
    device_widths(state.disk);
}

/// Each block has 64 bytes.
pub(crate) fn block_widths(blocks: &[Block])
    ensures { All (λ b. length b ≡ 64) blocks.now }
{}

/// A mask has 64 bits.
fn mask_width(page: PageChange)
    ensures { page.mask < 2 ^ 64 }
{}

/// So has each of these.
pub(crate) fn mask_widths(pages: &[PageChange])
    ensures { All (λ p. p.mask < 2 ^ 64) pages.now }
{
    for page in pages {
        mask_width(*page);
    }
}

/// A sector has 512 bytes.
fn sector_width(sector: &SectorChange)
    ensures { length sector.now.bytes ≡ 512 }
{
    let _bytes = sector.bytes;
}

/// So has each of these.
pub(crate) fn sector_widths(sectors: &[SectorChange])
    ensures { All (λ s. length s.bytes ≡ 512) sectors.now }
{
    for sector in sectors {
        sector_width(sector);
    }
}
