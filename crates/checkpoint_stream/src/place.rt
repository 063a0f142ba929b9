//! Where in a checkpoint a reader stands: which unit comes next.

ghost use Rattle.std.specs.Prelude.{◌≡◌, false};
ghost use Rattle.checkpoint_stream.specs.Readings.{pages_due, sectors_due, frames_due, after_block, after_number};
ghost use Rattle.checkpoint_stream.specs.Taken.{is_at_frame};

use crate::rules::HEAD_NUMBERS;

/// The unit that comes next.
#[derive(Clone, Copy)]
pub enum Place {
    /// A number of the head.
    Head,
    /// How many pages have records.
    PageCount,
    /// A page record's index, from `from` on. `left` records come after it.
    PageIndex { left: u32, from: u64 },
    /// The mask of this page.
    PageMask { left: u32, page: u32 },
    /// A block of this page. `more` blocks of it come after this one.
    Block { left: u32, page: u32, more: u32 },
    /// How many sectors have records.
    SectorCount,
    /// A sector record's index, from `from` on. `left` records come after it.
    SectorIndex { left: u32, from: u64 },
    /// The bytes of this sector.
    SectorBytes { left: u32, sector: u32 },
    /// How many frames there are.
    FrameCount,
    /// A frame's length. `left` frames come after it.
    FrameLength { left: u32 },
    /// The bytes of a frame, so many. `left` frames come after it.
    FrameBytes { left: u32, len: u32 },
    /// None: a whole checkpoint was read.
    Whole,
    /// None: the unit at this offset broke its rule.
    Failed { at: u64 },
}

/// What comes where `left` page records are still due, from the page `from` on.
pub(crate) fn pages_due(left: u32, from: u64) -> Place
    ensures value { result ≡ pages_due left from }
    ensures early { is_at_frame result ≡ false }
{
    if left == 0 {
        Place::SectorCount
    } else {
        Place::PageIndex {
            left: left - 1,
            from,
        }
    }
}

/// What comes where `left` sector records are still due, from the sector `from` on; `end` comes after them.
pub(crate) fn sectors_due(end: Place, left: u32, from: u64) -> Place
    requires { is_at_frame end ≡ false }
    ensures value { result ≡ sectors_due end left from }
    ensures early { is_at_frame result ≡ false }
{
    if left == 0 {
        end
    } else {
        Place::SectorIndex {
            left: left - 1,
            from,
        }
    }
}

/// What comes where `left` frames are still due.
pub(crate) fn frames_due(left: u32) -> Place
    ensures { result ≡ frames_due left }
{
    if left == 0 {
        Place::Whole
    } else {
        Place::FrameLength { left: left - 1 }
    }
}

/// What comes after a block of a page, of which `more` blocks are still due.
pub(crate) fn after_block(left: u32, page: u32, more: u32) -> Place
    ensures value { result ≡ after_block left page more }
    ensures early { is_at_frame result ≡ false }
{
    if more == 0 {
        pages_due(left, u64::from(page) + 1)
    } else {
        Place::Block {
            left,
            page,
            more: more - 1,
        }
    }
}

/// What comes after so many numbers of the head.
pub(crate) fn after_number(known: usize) -> Place
    ensures value { result ≡ after_number known }
    ensures early { is_at_frame result ≡ false }
{
    if known == HEAD_NUMBERS {
        Place::PageCount
    } else {
        Place::Head
    }
}
