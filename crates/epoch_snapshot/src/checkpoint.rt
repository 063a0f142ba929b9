//! A checkpoint, its parts and its readers.
ghost use Rattle.std.specs.Prelude.{◌≡◌, ◌==◌, ◌↔◌, IsTrue};

use crate::changes::{Block, PageChange, SectorChange};
use frame_list::FrameList;
use guest_rules::{MachineState, Shape};
use std::marker::Model;

/// Pages of the machine of a checkpoint of version 1, at most.
pub const MOST_OLD_PAGES: u32 = 4096;

/// What a cut keeps of a machine: of a delta, what changed since the last cut and what the guest sent since, and of a full one, all.
///
/// It is canonical by its type. The version is 1 or 2, and 1 only of a machine of at most 4096 pages. The generation is 1 to 2^62 - 1, the
/// number below 2^62, and 0 says that it is full. The state meets the rules of a machine's state. The pages rise and are the machine's, and
/// each changes at least one block; the blocks stand page by page, in each from the lowest on, and none is all zero. The sectors rise and
/// are the disk's; in a full one none is all zero. There are at most 256 frames, each of 14 to 1514 bytes, and none in version 1 and in a
/// full one.
pub struct Checkpoint {
    version: u32,
    shape: Shape,
    generation: u64,
    number: u64,
    state: MachineState,
    pages: Vec<PageChange>,
    blocks: Vec<Block>,
    sectors: Vec<SectorChange>,
    frames: FrameList,
}

// Proved here, and not in each crate above that keeps one in a `Box` or an `Option`.
impl Drop for Checkpoint {
    fn drop(self) {
        let Checkpoint {
            version: _,
            shape: _,
            generation: _,
            number: _,
            state: _,
            pages: _,
            blocks: _,
            sectors: _,
            frames: _,
        } = self;
    }
}

impl Model for Checkpoint {
    ghost use Rattle.epoch_snapshot.specs.Checkpoints.{Change, IsCanonical, change_of};

    ghost Value = { Change };

    ghost view = { λ c. change_of c.version c.shape c.generation c.number c.state c.pages.items c.blocks.items c.sectors.items
        c.frames.items };

    ghost invariant = { λ c. IsCanonical (change_of c.version c.shape c.generation c.number c.state c.pages.items c.blocks.items
        c.sectors.items c.frames.items) };
}

impl Checkpoint {
    ghost use Rattle.epoch_snapshot.specs.Checkpoints.{IsCanonical, change_of};

    /// The checkpoint of these parts. They are a canonical one's, as the caller knows. It takes no memory.
    pub fn from_parts(
        version: u32,
        shape: Shape,
        generation: u64,
        number: u64,
        state: MachineState,
        pages: Vec<PageChange>,
        blocks: Vec<Block>,
        sectors: Vec<SectorChange>,
        frames: FrameList,
    ) -> Checkpoint
        requires { IsCanonical (change_of version shape generation number state pages.items blocks.items sectors.items frames.items) }
        ensures { result ≡ change_of version shape generation number state pages.items blocks.items sectors.items frames.items }
    {
        Checkpoint {
            version,
            shape,
            generation,
            number,
            state,
            pages,
            blocks,
            sectors,
            frames,
        }
    }

    /// Which form it is written in: 2, or 1 where it was read of a stream of the older form, which carries no frames.
    pub fn version(&self) -> u32
        ensures value { result ≡ self.now.version }
        ensures canonical { IsCanonical self.now }
    {
        self.version
    }

    /// How large the machine is.
    pub fn shape(&self) -> Shape
        ensures { result ≡ self.now.shape }
    {
        self.shape
    }

    /// Which pair of nodes it belongs to: generations count from 1, and stay below 2^62.
    pub fn generation(&self) -> u64
        ensures value { result ≡ self.now.generation }
        ensures canonical { IsCanonical self.now }
    {
        self.generation
    }

    /// Its number in its generation, below 2^62: 0 is the full one, and deltas count from 1.
    pub fn number(&self) -> u64
        ensures value { result ≡ self.now.number }
        ensures canonical { IsCanonical self.now }
    {
        self.number
    }

    /// Whether it states a machine whole, so that it stands for itself. Otherwise it is a delta, over the one before.
    pub fn is_full(&self) -> bool
        ensures { IsTrue result ↔ (self.now.number ≡ 0) }
    {
        self.number == 0
    }

    /// The hart, its timer and both devices' records. It meets the rules of a machine's state.
    pub fn state(&self) -> &MachineState
        ensures value { result.now ≡ self.now.state }
        ensures canonical { IsCanonical self.now }
    {
        &self.state
    }

    /// The pages that change, rising, each with the mask of its blocks that do.
    pub fn pages(&self) -> &[PageChange]
        ensures value { result.now ≡ self.now.pages }
        ensures canonical { IsCanonical self.now }
    {
        self.pages.as_slice()
    }

    /// For each page in turn and each set bit of its mask from bit 0 up, the old block XOR the new one.
    pub fn blocks(&self) -> &[Block]
        ensures value { result.now ≡ self.now.blocks }
        ensures canonical { IsCanonical self.now }
    {
        self.blocks.as_slice()
    }

    /// The sectors that change, rising, each with its new bytes.
    pub fn sectors(&self) -> &[SectorChange]
        ensures value { result.now ≡ self.now.sectors }
        ensures canonical { IsCanonical self.now }
    {
        self.sectors.as_slice()
    }

    /// The frames that the guest sent since the checkpoint before, in order, those too that go to no client.
    pub fn frames(&self) -> &FrameList
        ensures value { result.now.items ≡ self.now.frames }
        ensures canonical { IsCanonical self.now }
    {
        &self.frames
    }

    /// These frames, and no other part of the checkpoint: its own list, without a copy.
    pub fn into_frames(self) -> FrameList
        ensures value { result.items ≡ self.frames }
        ensures canonical { IsCanonical self }
    {
        let Checkpoint {
            version: _,
            shape: _,
            generation: _,
            number: _,
            state: _,
            pages: _,
            blocks: _,
            sectors: _,
            frames,
        } = self;
        frames
    }
}
