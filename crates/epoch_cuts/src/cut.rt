//! Cuts: the checkpoint of what a machine changed, and the one of all that it holds.
ghost use Rattle.std.specs.Prelude.{◌≡◌, ◌*◌, ◌^◌, ◌<◌, ◌≤◌, IfOk, [], length, replicate, nat_le, if◌then◌else◌};
ghost use Rattle.guest_rules.specs.Guest.{Guest, sector_count};
ghost use Rattle.epoch_snapshot.specs.Bases.{IsBase, IsCheckpointOver};
ghost use Rattle.epoch_snapshot.specs.Cuts.{used_sectors};
ghost use Rattle.epoch_snapshot.specs.Images.{image_of};

use crate::memory::{Over, push_pages};
use crate::sectors::{push_used, push_written};
use epoch_snapshot::Checkpoint;
use frame_list::FrameList;
use guest_machine::Machine;
use memory_wanted::{MemoryWanted, with_capacity};
use std::alloc::Global;

/// The form in which cuts are written.
const VERSION: u32 = 2;

/// The blocks of a page for which a list begins with room.
const FIRST_PAGE_BLOCKS: usize = 16;

/// For how many pages at most.
const FIRST_PAGES: usize = 64;

/// The blocks for which a list begins with room, where so many pages may change: 16 each, for 64 of them at most. In most epochs that is
/// enough.
fn first_blocks(pages: usize) -> usize
    ensures { result ≡ 16 * (if nat_le pages 64 then pages else 64) }
{
    FIRST_PAGE_BLOCKS * pages.min(FIRST_PAGES)
}

/// The checkpoint of what the machine changed since its last settle: the pages and blocks that differ, the sectors written since, and
/// the frames in its outbox. It is of version 2. Over each guest with the memory of that settle and the machine's other sectors it makes
/// the machine's guest.
///
/// The generation and the number are 1 to 2^62 - 1, as the caller knows. The machine stays as it is; the caller settles it once
/// the checkpoint is stored.
///
/// # Errors
/// The growth that was really refused.
pub fn cut_delta(
    alloc: Global,
    machine: &Machine,
    generation: u64,
    number: u64,
) -> Result<Checkpoint, MemoryWanted>
    requires first_generation { 1 ≤ generation }
    requires last_generation { generation < 2 ^ 62 }
    requires first_number { 1 ≤ number }
    requires last_number { number < 2 ^ 62 }
    ensures image { IfOk result (λ c. (base : Guest) → IsBase machine.now base → image_of c base ≡ machine.now.guest) }
    ensures parts { IfOk result (IsCheckpointOver machine.now.settled machine.now.dirty machine.now.outbox machine.now generation number) }
{
    let shape = machine.shape();
    // The blocks come last, so that nothing lies behind them where their list has to grow.
    let mut pages = with_capacity(alloc, machine.dirty_count())?;
    let mut sectors = with_capacity(alloc, machine.dirty_sectors().len())?;
    let frames = FrameList::copies(alloc, machine.outbox())?;
    let mut blocks = with_capacity(alloc, first_blocks(machine.dirty_count()))?;
    push_pages(machine, Over::Settled, shape.pages, &mut pages, &mut blocks)?;
    push_written(machine, &mut sectors);
    Ok(Checkpoint::from_parts(
        VERSION,
        shape,
        generation,
        number,
        machine.state(),
        pages,
        blocks,
        sectors,
        frames,
    ))
}

/// The checkpoint of all that the machine holds, number 0 of its generation: the pages and blocks that aren't all zero, and the
/// sectors that aren't. It is of version 2 and carries no frames. It stands for itself: over any guest it makes the machine's.
///
/// The generation is 1 to 2^62 - 1, as the caller knows. The machine stays as it is.
///
/// # Errors
/// The growth that was really refused.
pub fn cut_full(
    alloc: Global,
    machine: &Machine,
    generation: u64,
) -> Result<Checkpoint, MemoryWanted>
    requires first_generation { 1 ≤ generation }
    requires last_generation { generation < 2 ^ 62 }
    ensures image { IfOk result (λ c. (base : Guest) → image_of c base ≡ machine.now.guest) }
    ensures parts { IfOk result (IsCheckpointOver (replicate (length machine.now.guest.ram) 0)
        (used_sectors machine.now.guest.sectors (sector_count machine.now.guest.sectors)) [] machine.now generation 0) }
{
    let shape = machine.shape();
    // The blocks come last here too, but for the sectors, which are put in once the blocks are there.
    let mut pages = with_capacity(alloc, shape.pages as usize)?;
    let mut blocks = with_capacity(alloc, first_blocks(shape.pages as usize))?;
    let mut sectors = Vec::new(alloc);
    let frames = FrameList::new(alloc);
    push_pages(machine, Over::Zero, shape.pages, &mut pages, &mut blocks)?;
    push_used(machine, shape.sectors, &mut sectors)?;
    Ok(Checkpoint::from_parts(
        VERSION,
        shape,
        generation,
        0,
        machine.state(),
        pages,
        blocks,
        sectors,
        frames,
    ))
}
