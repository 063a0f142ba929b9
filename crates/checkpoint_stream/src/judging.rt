//! What one more unit makes of what a reader has read.

ghost use Rattle.std.specs.Prelude.{◌≡◌, ◌≢◌, ℕ, ◌<◌, true, false, length, OnOk, OnErr};
ghost use Rattle.checkpoint_stream.specs.Taken.{has_room, is_at_frame};
ghost use Rattle.checkpoint_stream.specs.Readings.{width_of, is_full, after_sectors, failed};
ghost use Rattle.checkpoint_stream.specs.Readings.{moved, moved_if, kept_number, kept_mask, kept_block, kept_sector, number_judged};
ghost use Rattle.checkpoint_stream.specs.Readings.{mask_judged, block_judged, sector_judged, judged};
ghost use Rattle.checkpoint_stream.specs.HeadTable.{row_at};
ghost use Rattle.epoch_snapshot.specs.Blocks.{is_zero};
ghost use Rattle.checkpoint_stream.specs.declared.place.Place.TheVariants.{Head, FrameBytes};

use crate::parts::Parts;
use crate::place::{Place, after_block, after_number, pages_due, sectors_due};
use crate::rules::{NEW_MAGIC, Row, Width, head_row, number_of, passes, u32_of};
use epoch_snapshot::{BLOCK_BYTES, PageChange, SectorChange};
use guest_rules::SECTOR_BYTES;
use memory_wanted::{MemoryWanted, push};

impl Parts {
    /// The unit that comes next breaks its rule.
    pub(crate) fn fail(&mut self)
        ensures { self.new ≡ failed self.old }
    {
        self.place = Place::Failed { at: self.offset };
        self.filled = 0;
        self.part.clear();
    }

    /// A unit of `width` bytes was taken whole, and `place` comes next.
    fn move_on(&mut self, width: u64, place: Place)
        requires head { place ≡ Head → self.old.known < 80 }
        requires early { is_at_frame place ≡ false }
        ensures { self.new ≡ moved self.old width place }
    {
        self.offset = self.offset.wrapping_add(width);
        self.place = place;
        self.filled = 0;
        self.part.clear();
    }

    /// Keeps a number of the head.
    #[tactic(auto, unfolding(crate::specs::Readings::kept_number))]
    fn keep_number(&mut self, row: Row, n: u64)
        requires { self.old.place ≡ Head }
        ensures { self.new ≡ kept_number true self.old row n }
    {
        self.head[self.known] = n;
        self.known += 1;
        self.before = n;
        self.offset = self.offset.wrapping_add(row.width.bytes() as u64);
        self.place = after_number(self.known);
        self.filled = 0;
        self.part.clear();
    }

    /// Takes a number of the head.
    pub(crate) fn take_number(&mut self, n: u64)
        requires { self.old.place ≡ Head }
        ensures { self.new ≡ number_judged self.old (row_at self.old.known) n }
    {
        let row = head_row(self.known);
        if passes(self.shape, row.rule, self.before, n) {
            self.keep_number(row, n);
        } else {
            self.fail();
        }
    }

    #[tactic(auto, unfolding(crate::specs::Readings::moved_if))]
    /// Takes an index, or a count, and goes on to `place` where it keeps its rule.
    fn move_if(&mut self, keeps: bool, place: Place)
        requires head { place ≡ Head → self.old.known < 80 }
        requires early { is_at_frame place ≡ false }
        ensures { self.new ≡ moved_if keeps self.old place }
    {
        if keeps {
            self.move_on(4, place);
        } else {
            self.fail();
        }
    }

    /// Takes the mask of a page.
    fn take_mask(&mut self, left: u32, page: u32, mask: u64) -> Result<(), MemoryWanted>
        ensures ok { OnOk result (self.new ≡ mask_judged self.old left page mask) }
        ensures err { OnErr result (self.new ≡ self.old) }
    {
        if mask == 0 {
            self.fail();
            return Ok(());
        }
        self.keep_mask(left, page, mask)
    }

    /// Keeps the mask of a page.
    #[tactic(auto, unfolding(crate::specs::Readings::kept_mask))]
    fn keep_mask(&mut self, left: u32, page: u32, mask: u64) -> Result<(), MemoryWanted>
        ensures ok { OnOk result (self.new ≡ kept_mask false self.old left page mask) }
        ensures err { OnErr result (self.new ≡ self.old) }
    {
        push(&mut self.pages, PageChange { page, mask })?;
        let more = mask.count_ones().saturating_sub(1);
        self.offset = self.offset.wrapping_add(8);
        self.place = Place::Block { left, page, more };
        self.filled = 0;
        self.part.clear();
        Ok(())
    }

    /// Takes a block.
    pub(crate) fn take_block(
        &mut self,
        left: u32,
        page: u32,
        more: u32,
        unit: &[u8],
    ) -> Result<(), MemoryWanted>
        requires { length unit.now ≡ 64 }
        ensures ok { OnOk result (self.new ≡ block_judged self.old left page more unit.now) }
        ensures err { OnErr result (self.new ≡ self.old) }
    {
        if is_zero(unit) {
            self.fail();
            return Ok(());
        }
        self.keep_block(left, page, more, unit)
    }

    /// Keeps a block.
    #[tactic(auto, unfolding(crate::specs::Readings::kept_block))]
    fn keep_block(
        &mut self,
        left: u32,
        page: u32,
        more: u32,
        unit: &[u8],
    ) -> Result<(), MemoryWanted>
        requires { length unit.now ≡ 64 }
        ensures ok { OnOk result (self.new ≡ kept_block false self.old left page more unit.now) }
        ensures err { OnErr result (self.new ≡ self.old) }
    {
        let mut block = [0; BLOCK_BYTES];
        block.copy_from_slice(unit);
        push(&mut self.blocks, block)?;
        self.offset = self.offset.wrapping_add(64);
        self.place = after_block(left, page, more);
        self.filled = 0;
        self.part.clear();
        Ok(())
    }

    /// Whether the checkpoint that is being read is a full one.
    pub(crate) fn is_full(&self) -> bool
        ensures { result ≡ is_full self.now }
    {
        self.known > 4 && self.head[4] == 0
    }

    /// What comes after the sector records: the frames in version 2.
    fn after_sectors(&self) -> Place
        ensures value { result ≡ after_sectors self.now }
        ensures early { is_at_frame result ≡ false }
    {
        if self.known > 0 && self.head[0] == NEW_MAGIC {
            Place::FrameCount
        } else {
            Place::Whole
        }
    }

    /// Takes the bytes of a sector.
    fn take_sector(&mut self, left: u32, sector: u32, unit: &[u8]) -> Result<(), MemoryWanted>
        requires { length unit.now ≡ 512 }
        ensures ok { OnOk result (self.new ≡ sector_judged self.old left sector unit.now) }
        ensures err { OnErr result (self.new ≡ self.old) }
    {
        if self.is_full() && is_zero(unit) {
            self.fail();
            return Ok(());
        }
        self.keep_sector(left, sector, unit)
    }

    /// Keeps the bytes of a sector.
    #[tactic(auto, unfolding(crate::specs::Readings::kept_sector))]
    fn keep_sector(&mut self, left: u32, sector: u32, unit: &[u8]) -> Result<(), MemoryWanted>
        requires { length unit.now ≡ 512 }
        ensures ok { OnOk result (self.new ≡ kept_sector false self.old left sector unit.now) }
        ensures err { OnErr result (self.new ≡ self.old) }
    {
        let mut bytes = [0; SECTOR_BYTES];
        bytes.copy_from_slice(unit);
        push(&mut self.sectors, SectorChange { sector, bytes })?;
        self.offset = self.offset.wrapping_add(512);
        self.place = sectors_due(self.after_sectors(), left, u64::from(sector) + 1);
        self.filled = 0;
        self.part.clear();
        Ok(())
    }

    /// Takes the unit that comes next, which is whole and isn't a frame's bytes.
    #[tactic(auto, unfolding(crate::specs::Readings::judged))]
    pub(crate) fn judge(&mut self, unit: &[u8]) -> Result<(), MemoryWanted>
        requires whole { length unit.now ≡ width_of self.old }
        requires other { (left len : ℕ) → self.old.place ≢ FrameBytes left len }
        ensures ok { OnOk result (self.new ≡ judged self.old unit.now) }
        ensures err { OnErr result (self.new ≡ self.old) }
        ensures no_room { OnErr result (has_room self.old.place ≡ false) }
    {
        match self.place {
            Place::Head => {
                let n = number_of(head_row(self.known).width, unit);
                self.take_number(n);
            }
            Place::PageCount => {
                let n = u32_of(unit);
                self.move_if(n <= self.shape.pages, pages_due(n, 0));
            }
            Place::PageIndex { left, from } => {
                let page = u32_of(unit);
                let keeps = from <= u64::from(page) && page < self.shape.pages;
                self.move_if(keeps, Place::PageMask { left, page });
            }
            Place::PageMask { left, page } => {
                return self.take_mask(left, page, number_of(Width::Eight, unit));
            }
            Place::Block { left, page, more } => return self.take_block(left, page, more, unit),
            Place::SectorCount => {
                let n = u32_of(unit);
                self.move_if(
                    n <= self.shape.sectors,
                    sectors_due(self.after_sectors(), n, 0),
                );
            }
            Place::SectorIndex { left, from } => {
                let sector = u32_of(unit);
                let keeps = from <= u64::from(sector) && sector < self.shape.sectors;
                self.move_if(keeps, Place::SectorBytes { left, sector });
            }
            Place::SectorBytes { left, sector } => return self.take_sector(left, sector, unit),
            Place::FrameCount => return self.take_frame_count(u32_of(unit)),
            Place::FrameLength { left } => self.take_frame_length(left, u32_of(unit)),
            Place::FrameBytes { .. } => unreachable!(),
            Place::Whole | Place::Failed { .. } => {}
        }
        Ok(())
    }
}

/// Whether each byte is 0.
fn is_zero(bytes: &[u8]) -> bool
    ensures { result ≡ is_zero bytes.now }
{
    bytes.iter().all(|b| *b == 0)
}
