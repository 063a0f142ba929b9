//! What a reader has read of a checkpoint.

ghost use Rattle.std.specs.Prelude.{◌≡◌, ◌≢◌, ℕ, ◌^◌, ◌<◌, ◌≤◌, false, length, take, All, IfOk, OnOk, OnErr};
ghost use Rattle.checkpoint_stream.specs.Readings.{Reading, fed, taken, failure_at, is_whole, begun, width_of, is_closed};
ghost use Rattle.checkpoint_stream.specs.declared.place.Place.TheVariants.{Head, FrameBytes};
ghost use Rattle.checkpoint_stream.specs.Taken.{Takes, Extends, HasRoom, has_room, is_at_frame, marked};
ghost use Rattle.checkpoint_stream.specs.Sound.{change_in};
ghost use Rattle.epoch_snapshot.specs.Checkpoints.{IsCanonical};

use crate::marks::Mark;
use crate::place::Place;
use crate::rules::{HEAD_NUMBERS, head_row};
use crate::states::{state_from, version_from};
use crate::widths::{block_widths, mask_widths, sector_widths};
use epoch_snapshot::{BLOCK_BYTES, Block, Checkpoint, PageChange, SectorChange};
use frame_list::{Frame, FrameList};
use guest_rules::{SECTOR_BYTES, Shape};
use memory_wanted::{MemoryWanted, reserve};
use std::alloc::Global;
use std::marker::Model;
use std::mem;

/// The blocks of a page.
const PAGE_BLOCKS: usize = 64;

/// The bytes of a page's record that has one block: its number, its mask and the block.
const PAGE_RECORD_BYTES: usize = 4 + 8 + BLOCK_BYTES;

/// The bytes of a sector's record: its number and its contents.
const SECTOR_RECORD_BYTES: usize = 4 + SECTOR_BYTES;

/// The parts of a checkpoint as far as they are read, and the bytes of the unit that has begun.
#[derive(Drop)]
pub(crate) struct Parts {
    pub(crate) shape: Shape,
    pub(crate) offset: u64,
    pub(crate) place: Place,
    pub(crate) known: usize,
    pub(crate) head: [u64; HEAD_NUMBERS],
    pub(crate) before: u64,
    pub(crate) pages: Vec<PageChange>,
    pub(crate) blocks: Vec<Block>,
    pub(crate) sectors: Vec<SectorChange>,
    pub(crate) frames: FrameList,
    pub(crate) filled: usize,
    pub(crate) buffer: [u8; SECTOR_BYTES],
    /// The frame that has begun, whose bytes don't fit in the buffer.
    pub(crate) part: Frame,
}

impl Model for Parts {
    ghost use Rattle.std.specs.Prelude.{◌≡◌, ◌+◌, ◌<◌, ◌≤◌, ◌++◌, take, length};
    ghost use Rattle.checkpoint_stream.specs.Readings.{Reading, width_at};
    ghost use Rattle.checkpoint_stream.specs.Taken.{HasPlaces};
    ghost use Rattle.checkpoint_stream.specs.declared.place.Place.TheVariants.{Head};

    ghost Value = { Reading };

    ghost view = { λ p. record {
      shape = p.shape;
      offset = p.offset;
      place = p.place;
      known = p.known;
      head = take p.known p.head;
      before = p.before;
      pages = p.pages.items;
      blocks = p.blocks.items;
      sectors = p.sectors.items;
      frames = p.frames.items;
      partial = take p.filled p.buffer ++ p.part.items;
    } };

    ghost invariant = { λ p. (p.known ≤ 80) × (p.place ≡ Head → p.known < 80) × (p.filled ≤ 512) × (p.filled < width_at p.place p.known)
        × HasPlaces p.place p.filled p.part.items (length p.frames.items) (length p.frames.items + p.frames.places) };
}

impl Parts {
    /// Nothing is read yet.
    pub(crate) fn new(alloc: Global, shape: Shape) -> Parts
        ensures { result ≡ begun shape 0 }
    {
        Parts {
            shape,
            offset: 0,
            place: Place::Head,
            known: 0,
            head: [0; HEAD_NUMBERS],
            before: 0,
            pages: Vec::new(alloc),
            blocks: Vec::new(alloc),
            sectors: Vec::new(alloc),
            frames: FrameList::new(alloc),
            filled: 0,
            buffer: [0; SECTOR_BYTES],
            part: Frame::new(),
        }
    }

    /// How many bytes the unit has that comes next, which isn't a frame's; 1 where none does.
    fn width(&self) -> usize
        requires { (left len : ℕ) → self.now.place ≢ FrameBytes left len }
        ensures value { result ≡ width_of self.now }
        ensures bound { result ≤ 512 }
    {
        match self.place {
            Place::Head => head_row(self.known).width.bytes(),
            Place::PageMask { .. } => 8,
            Place::Block { .. } => 64,
            Place::SectorBytes { .. } => 512,
            Place::Whole | Place::Failed { .. } => 1,
            Place::PageCount
            | Place::PageIndex { .. }
            | Place::SectorCount
            | Place::SectorIndex { .. }
            | Place::FrameCount
            | Place::FrameLength { .. } => 4,
            Place::FrameBytes { .. } => unreachable!(),
        }
    }

    /// The offset of the unit that broke its rule.
    pub(crate) fn failure(&self) -> Option<u64>
        ensures { result ≡ failure_at self.now.place }
    {
        match self.place {
            Place::Failed { at } => Some(at),
            _ => None,
        }
    }

    /// Whether a whole checkpoint stands.
    pub(crate) fn is_whole(&self) -> bool
        ensures { result ≡ is_whole self.now.place }
    {
        matches!(self.place, Place::Whole)
    }

    /// The generation and the number of the checkpoint that was read, whole.
    #[tactic(auto, unfolding(crate::specs::Sound::change_in))]
    pub(crate) fn name(&self) -> (u64, u64)
        requires { self.now.known ≡ 80 }
        ensures { result ≡ ((change_in self.now).generation, (change_in self.now).number) }
    {
        (self.head[3], self.head[4])
    }

    /// The checkpoint that was read, whole. The next one begins.
    #[tactic(auto, unfolding(crate::specs::Sound::change_in))]
    pub(crate) fn take_checkpoint(&mut self) -> Checkpoint
        requires known { self.old.known ≡ 80 }
        requires canonical { IsCanonical (change_in self.old) }
        ensures checkpoint { result ≡ change_in self.old }
        ensures begun { self.new ≡ begun self.old.shape self.old.offset }
    {
        let alloc = *self.pages.allocator();
        let pages = mem::replace(&mut self.pages, Vec::new(alloc));
        let blocks = mem::replace(&mut self.blocks, Vec::new(alloc));
        let sectors = mem::replace(&mut self.sectors, Vec::new(alloc));
        let frames = mem::replace(&mut self.frames, FrameList::new(alloc));
        let version = version_from(self.head[0]);
        let state = state_from(&self.head);
        let (generation, number) = (self.head[3], self.head[4]);
        self.place = Place::Head;
        self.known = 0;
        self.before = 0;
        self.filled = 0;
        self.part.clear();
        Checkpoint::from_parts(
            version, self.shape, generation, number, state, pages, blocks, sectors, frames,
        )
    }

    /// Takes bytes up to the end of the checkpoint. Answers how many.
    ///
    /// # Errors
    ///
    /// A growth was really refused. Nothing changed.
    pub(crate) fn feed(&mut self, piece: &[u8]) -> Result<usize, MemoryWanted>
        ensures read { OnOk result (self.new ≡ fed self.old piece.now) }
        ensures count { IfOk result (λ n. n ≡ taken self.old piece.now) }
        ensures err { OnErr result (self.new ≡ self.old) }
        ensures no_room { OnErr result (has_room self.old.place ≡ false) }
    {
        let mark = self.mark();
        match self.feed_on(piece) {
            Ok(count) => Ok(count),
            Err(error) => {
                self.go_back(&mark);
                Err(error)
            }
        }
    }

    /// Takes bytes up to the end of the checkpoint. After an error some may have been taken.
    fn feed_on(&mut self, piece: &[u8]) -> Result<usize, MemoryWanted>
        ensures read { OnOk result (self.new ≡ fed self.old piece.now) }
        ensures count { IfOk result (λ n. n ≡ taken self.old piece.now) }
        ensures err { OnErr result (Extends self.old self.new) }
        ensures no_room { OnErr result (has_room self.old.place ≡ false) }
    {
        let mut at = self.take_numbers(piece);
        while at < piece.len() && !self.is_closed() {
            at += self.take(&piece[at..])?;
            at += self.take_blocks(&piece[at..])?;
        }
        Ok(at)
    }

    /// What the types of its parts say of them, and that the unit which has begun is short.
    pub(crate) fn widths(&self)
        ensures masks { All (λ p. p.mask < 2 ^ 64) self.now.pages }
        ensures blocks { All (λ b. length b ≡ 64) self.now.blocks }
        ensures sectors { All (λ s. length s.bytes ≡ 512) self.now.sectors }
        ensures begun { length self.now.partial < 1514 }
    {
        mask_widths(&self.pages);
        block_widths(&self.blocks);
        sector_widths(&self.sectors);
    }

    /// Whether a whole checkpoint stands, or a unit broke its rule.
    pub(crate) fn is_closed(&self) -> bool
        ensures { result ≡ is_closed self.now.place }
    {
        matches!(self.place, Place::Whole | Place::Failed { .. })
    }

    /// Where the reader stands. From a frame on it never goes back.
    fn mark(&self) -> Mark
        ensures room { has_room self.now.place ≡ false → HasRoom result }
        ensures back { has_room self.now.place ≡ false
            → (later : Reading) → Extends self.now later → marked result later ≡ self.now }
    {
        Mark {
            offset: self.offset,
            place: self.place,
            known: self.known,
            head: self.head,
            before: self.before,
            pages: self.pages.len(),
            blocks: self.blocks.len(),
            sectors: self.sectors.len(),
            frames: self.frames.len(),
            filled: self.filled,
            buffer: self.buffer,
        }
    }

    /// Goes back to where the reader stood.
    fn go_back(&mut self, mark: &Mark)
        requires { HasRoom mark.now }
        ensures { self.new ≡ marked mark.now self.old }
    {
        self.offset = mark.offset;
        self.place = mark.place;
        self.known = mark.known;
        self.head = mark.head;
        self.before = mark.before;
        self.pages.truncate(mark.pages);
        self.blocks.truncate(mark.blocks);
        self.sectors.truncate(mark.sectors);
        self.frames.truncate(mark.frames);
        self.filled = mark.filled;
        self.buffer = mark.buffer;
        self.part.clear();
    }

    /// Takes bytes of the unit that comes next, and the unit where they complete it. Answers how many: at least one.
    fn take(&mut self, rest: &[u8]) -> Result<usize, MemoryWanted>
        requires going { is_closed self.old.place ≡ false }
        requires some { 0 < length rest.now }
        ensures count { IfOk result (λ n. (0 < n) × (n ≤ length rest.now)) }
        ensures read { IfOk result (λ n. Takes self.old (take n rest.now) self.new) }
        ensures err { OnErr result (self.new ≡ self.old) }
        ensures no_room { OnErr result (has_room self.old.place ≡ false) }
    {
        if let Place::FrameBytes { left, len } = self.place {
            return Ok(self.take_frame(left, len, rest));
        }
        let width = self.width();
        if self.filled == 0 && width <= rest.len() {
            self.make_room(rest.len())?;
            self.judge(&rest[..width])?;
            return Ok(width);
        }
        self.take_part(rest, width)
    }

    /// Makes room for the records that so many bytes hold, where the first of the pages, or of the sectors, comes next: no more of them than
    /// are due, and no more than these bytes can hold.
    fn make_room(&mut self, bytes: usize) -> Result<(), MemoryWanted>
        ensures same { self.new ≡ self.old }
        ensures no_room { OnErr result (has_room self.old.place ≡ false) }
    {
        match self.place {
            Place::PageIndex { left, from: 0 } => {
                let due = left as usize + 1;
                reserve(&mut self.pages, due.min(bytes / PAGE_RECORD_BYTES))?;
                reserve(
                    &mut self.blocks,
                    (PAGE_BLOCKS * due).min(bytes / BLOCK_BYTES),
                )
            }
            Place::SectorIndex { left, from: 0 } => {
                let due = left as usize + 1;
                reserve(&mut self.sectors, due.min(bytes / SECTOR_RECORD_BYTES))
            }
            _ => Ok(()),
        }
    }

    /// Takes bytes of the unit that comes next, which has begun or which they don't complete. Answers how many.
    fn take_part(&mut self, rest: &[u8], width: usize) -> Result<usize, MemoryWanted>
        requires going { is_closed self.old.place ≡ false }
        requires some { 0 < length rest.now }
        requires width { width ≡ width_of self.old }
        requires bound { width ≤ 512 }
        requires other { (left len : ℕ) → self.old.place ≢ FrameBytes left len }
        ensures count { IfOk result (λ n. (0 < n) × (n ≤ length rest.now)) }
        ensures read { IfOk result (λ n. Takes self.old (take n rest.now) self.new) }
        ensures err { OnErr result (self.new ≡ self.old) }
        ensures no_room { OnErr result (has_room self.old.place ≡ false) }
    {
        let filled = self.filled;
        let taken = (width - filled).min(rest.len());
        let mut unit = self.buffer;
        unit[filled..filled + taken].copy_from_slice(&rest[..taken]);
        if filled + taken < width {
            self.buffer = unit;
            self.filled = filled + taken;
        } else {
            self.judge(&unit[..width])?;
        }
        Ok(taken)
    }
}
