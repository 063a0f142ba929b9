//! What a checkpoint does to a machine, in place.
ghost use Rattle.std.specs.Prelude.{◌≡◌, ◌+◌, ◌*◌, ◌<◌, ◌≤◌, false, length, replicate, map, count_ones};
ghost use Rattle.guest_rules.specs.Blocks.{with_sector};
ghost use Rattle.guest_rules.specs.Dirty.{Rises};
ghost use Rattle.guest_rules.specs.Guest.{sector_count};
ghost use Rattle.guest_rules.specs.Limits.{page_bytes};
ghost use Rattle.epoch_snapshot.specs.Blocks.{block_numbers, set_blocks};
ghost use Rattle.epoch_snapshot.specs.Checkpoints.{block_count};
ghost use Rattle.epoch_snapshot.specs.Images.{base_ram, base_sectors, image_of, with_blocks, with_sectors};
ghost use Rattle.backup_image.specs.Images.{settled_machine};

use epoch_snapshot::{Block, Checkpoint, PageChange, SectorChange, masks_name_blocks};
use guest_machine::{Machine, SECTOR_BYTES};

/// How many blocks a page has.
const PAGE_BLOCKS: u32 = 64;

/// XORs the blocks that a mask names into a page, in turn. No page counts as written, before as after.
fn put_page(machine: &mut Machine, page: u32, mask: u64, blocks: &[Block])
    requires inside { page + 1 ≤ length machine.old.written }
    requires whole { length machine.old.guest.ram ≡ page_bytes * length machine.old.written }
    requires settled { machine.old.written ≡ replicate (length machine.old.written) false }
    requires enough { count_ones mask ≤ length blocks.now }
    ensures guest { machine.new.guest ≡ record machine.old.guest {
      ram = with_blocks machine.old.guest.ram (map (λ i. 64 * page + i) (set_blocks mask)) blocks.now;
    } }
    ensures count { length (set_blocks mask) ≡ count_ones mask }
    ensures size { length machine.new.guest.ram ≡ length machine.old.guest.ram }
    ensures flags { machine.new.written ≡ machine.old.written }
{
    masks_name_blocks();
    let mut next = 0;
    for block in 0..PAGE_BLOCKS {
        if (mask >> block) % 2 == 1 {
            machine.xor_settled(page, block, &blocks[next]);
            next += 1;
        }
    }
}

/// XORs the blocks that pages change into the machine's memory. The pages rise and are the machine's, and for each bit of their masks
/// there is a block. No page counts as written, before as after.
fn put_pages(machine: &mut Machine, pages: &[PageChange], blocks: &[Block])
    requires inside { Rises 0 (length machine.old.written) (map (λ p. p.page) pages.now) }
    requires whole { length machine.old.guest.ram ≡ page_bytes * length machine.old.written }
    requires settled { machine.old.written ≡ replicate (length machine.old.written) false }
    requires enough { block_count pages.now ≤ length blocks.now }
    ensures guest { machine.new.guest ≡ record machine.old.guest {
      ram = with_blocks machine.old.guest.ram (block_numbers pages.now) blocks.now;
    } }
    ensures size { length machine.new.guest.ram ≡ length machine.old.guest.ram }
    ensures flags { machine.new.written ≡ machine.old.written }
{
    let mut rest = blocks;
    for change in pages {
        let (own, later) = rest.split_at(change.mask.count_ones() as usize);
        put_page(machine, change.page, change.mask, own);
        rest = later;
    }
}

/// Puts a sector of the disk in place.
fn put_sector(machine: &mut Machine, sector: u32, bytes: &[u8; SECTOR_BYTES])
    requires { sector < sector_count machine.old.guest.sectors }
    ensures guest { machine.new.guest ≡ with_sector machine.old.guest sector bytes.now }
    ensures size { length machine.new.guest.sectors ≡ length machine.old.guest.sectors }
    ensures flags { length machine.new.written ≡ length machine.old.written }
{
    machine.put_sector(sector, bytes);
}

/// Puts sectors of the disk in place. They rise and are the disk's.
fn put_sectors(machine: &mut Machine, sectors: &[SectorChange])
    requires { Rises 0 (sector_count machine.old.guest.sectors) (map (λ s. s.sector) sectors.now) }
    ensures guest { machine.new.guest ≡ record machine.old.guest { sectors = with_sectors machine.old.guest.sectors sectors.now } }
    ensures size { length machine.new.guest.sectors ≡ length machine.old.guest.sectors }
    ensures flags { length machine.new.written ≡ length machine.old.written }
{
    for change in sectors {
        put_sector(machine, change.sector, &change.bytes);
    }
}

/// Turns a machine into the just settled one of the checkpoint's image. The machine has the checkpoint's shape, and holds what the
/// checkpoint stands over: zeros, where it is a full one.
pub(crate) fn apply(machine: &mut Machine, checkpoint: &Checkpoint)
    requires pages { length machine.old.guest.ram ≡ page_bytes * checkpoint.now.shape.pages }
    requires flags { length machine.old.written ≡ checkpoint.now.shape.pages }
    requires sectors { length machine.old.guest.sectors ≡ 512 * checkpoint.now.shape.sectors }
    requires memory { base_ram checkpoint.now machine.old.guest.ram ≡ machine.old.guest.ram }
    requires disk { base_sectors checkpoint.now machine.old.guest.sectors ≡ machine.old.guest.sectors }
    ensures machine { machine.new ≡ settled_machine checkpoint.now.shape (image_of checkpoint.now machine.old.guest) }
    ensures same_pages { length machine.new.guest.ram ≡ length machine.old.guest.ram }
    ensures same_sectors { length machine.new.guest.sectors ≡ length machine.old.guest.sectors }
{
    // So no page counts as written, and none has to be kept as it was before its blocks go in.
    machine.settle();
    put_pages(machine, checkpoint.pages(), checkpoint.blocks());
    put_sectors(machine, checkpoint.sectors());
    machine.put_state(checkpoint.state());
    machine.settle();
}
