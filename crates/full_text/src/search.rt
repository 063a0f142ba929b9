//! The text of a full checkpoint, of which a part of the memory was looked at.
ghost use Rattle.std.specs.Prelude.{◌≡◌, ◌==◌, ℕ, ◌≤◌, ◌<◌, ◌+◌, ◌*◌, ◌^◌, List, IfOk, OnOk, length, min};
ghost use Rattle.guest_rules.specs.Guest.{State};
ghost use Rattle.checkpoint_stream.specs.Bounds.{most_text};
ghost use Rattle.checkpoint_stream.specs.HeadTable.{head_table};
ghost use Rattle.checkpoint_stream.specs.Text.{head_numbers, joined, number_units};
ghost use Rattle.checkpoint_stream.specs.Widths.{HasWidths};
ghost use Rattle.full_text.specs.Full.{AreIn, IsFullText, IsMost, IsSameIn, SearchFits, blank, found_of, most, page_at, whole};
ghost use Rattle.full_text.specs.UsedPages.{used_pages};

use crate::found::find_pages;
use crate::kept::KeptPages;
use crate::records::{COUNT_BYTES, keep_written, put, put_four};
use crate::tail::Tail;
use crate::text::{FullText, MOST_RECORD, size_of_records};
use checkpoint_stream::{encode, text_is_read_back, texts_are_their_parts};
use epoch_snapshot::{
    Checkpoint, PageChange, changes_are_found_in_turn, full_cuts_are_whole, masks_name_blocks,
    pages_are_their_blocks,
};
use frame_list::FrameList;
use guest_machine::{Machine, Shape};
use memory_wanted::{MemoryWanted, with_capacity};
use std::alloc::Global;
use std::marker::Model;

/// The form in which checkpoints are written.
const VERSION: u32 = 2;

/// The text of a machine's full checkpoint, of which the pages that aren't all zero are searched for. It has room for all of it from the start.
/// They are found in the memory that the machine had when it was settled right after [`PageSearch::new`]: before it is settled again,
/// [`keep`](PageSearch::keep) keeps what of that the machine gives up then.
#[derive(Drop)]
pub struct PageSearch {
    head: Vec<u8>,
    found: Vec<PageChange>,
    /// So many of the machine's pages were looked at.
    looked: u32,
    pages: u32,
    kept: KeptPages,
    tail: Tail,
}

impl Model for PageSearch {
    ghost use Rattle.full_text.specs.Full.{Searching};

    ghost Value = { Searching };

    ghost use Rattle.full_text.specs.internal.SearchFields.{searching, IsSearch};

    ghost view = { searching };

    ghost invariant = { IsSearch };
}

impl PageSearch {
    /// The text of the full checkpoint of what the machine holds now, number 0 of this generation, which is 1 to 2^62 - 1, as the caller knows.
    /// Its head and its sectors are made, and of memory nothing is looked at. The machine stays as it is.
    ///
    /// # Errors
    /// The growth that was really refused.
    pub fn new(
        alloc: Global,
        machine: &Machine,
        generation: u64,
    ) -> Result<PageSearch, MemoryWanted>
        requires first { 1 ≤ generation }
        requires last { generation < 2 ^ 62 }
        ensures text { let ram = machine.now.guest.ram in IfOk result (λ s. IsFullText machine.now generation (whole ram (found_of ram s))) }
        ensures most { let ram = machine.now.guest.ram in IfOk result (λ s. IsMost (most s) (whole ram (found_of ram s)) ram) }
        ensures fits { IfOk result (SearchFits machine.now.guest.ram) }
    {
        let shape = machine.shape();
        let _state = machine.state();
        full_cuts_are_whole();
        let head = head_of(alloc, machine, shape, generation)?;
        let tail = Tail::of_sectors(alloc, machine, shape.sectors)?;
        let room = head.len() + COUNT_BYTES + MOST_RECORD * shape.pages as usize + tail.len();
        let mut made = with_capacity(alloc, room)?;
        put(&mut made, head.as_slice());
        let found = with_capacity(alloc, shape.pages as usize)?;
        masks_name_blocks();
        pages_are_their_blocks();
        changes_are_found_in_turn();
        texts_are_their_parts();
        text_is_read_back();
        Ok(PageSearch {
            head: made,
            found,
            looked: 0,
            pages: shape.pages,
            kept: KeptPages::new(alloc),
            tail,
        })
    }

    /// How many bytes the text has at most: as many as if no block of memory were all zero.
    pub fn most(&self) -> usize
        ensures { result ≡ most self.now }
    {
        self.head.len() + COUNT_BYTES + MOST_RECORD * self.pages as usize + self.tail.len()
    }

    /// The bytes in front of the pages' count, from the first on.
    pub(crate) fn head(&self) -> &[u8]
        ensures { result.now ≡ self.now.head }
    {
        self.head.as_slice()
    }

    /// Looks at so many pages more, or at all that are left, of what is kept, and of the memory that this machine, whose text it is, had at its
    /// last settle. It takes no memory beside what was reserved.
    pub(crate) fn look(&mut self, machine: &Machine, count: u32)
        requires { SearchFits machine.now.settled self.old }
        ensures rest { self.new ≡ record self.old { found = self.new.found; looked = self.new.looked } }
        ensures looked { self.new.looked ≡ min (self.old.looked + count) self.old.pages }
        ensures fits { SearchFits machine.now.settled self.new }
    {
        let _shape = machine.shape();
        let to = self.looked + count.min(self.pages - self.looked);
        find_pages(machine, &self.kept, self.looked, to, &mut self.found);
        self.looked = to;
    }

    /// Whether it was looked at all pages.
    pub(crate) fn is_done(&self) -> bool
        ensures { result ≡ (self.now.looked == self.now.pages) }
    {
        self.looked == self.pages
    }

    /// The text, once it was looked at all pages: their count stands behind the head.
    pub(crate) fn finish(self) -> FullText
        requires { self.looked ≡ self.pages }
        ensures text { (ram : List ℕ) → SearchFits ram self → result ≡ found_of ram self }
        ensures pages { (ram : List ℕ) → SearchFits ram self → AreIn (length ram) result.pages }
    {
        let PageSearch {
            head: mut made,
            found,
            looked: _,
            pages: _,
            kept,
            tail,
        } = self;
        let _size = size_of_records(found.as_slice());
        put_four(&mut made, found.len() as u32);
        FullText::from_parts(made, found, kept, tail)
    }

    /// Keeps what the pages that were written since this machine's last settle had then. So the text is the same of what memory has now, and the
    /// machine may be settled.
    ///
    /// # Errors
    /// The growth that was really refused. The text is the same.
    pub(crate) fn keep(&mut self, machine: &Machine) -> Result<(), MemoryWanted>
        ensures rest { self.new ≡ record self.old { kept = self.new.kept } }
        ensures settled { (q : ℕ) → page_at machine.now.settled self.new.kept q ≡ page_at machine.now.settled self.old.kept q }
        ensures kept { OnOk result ((q : ℕ) → IsSameIn machine.now self.new.kept q) }
    {
        let pages = machine.shape().pages;
        self.kept.reserve(pages, machine.dirty_count() as u32)?;
        keep_written(&mut self.kept, machine, pages)
    }
}

/// The head of a full checkpoint's text.
fn head_of(
    alloc: Global,
    machine: &Machine,
    shape: Shape,
    generation: u64,
) -> Result<Vec<u8>, MemoryWanted>
    requires first { 1 ≤ generation }
    requires last { generation < 2 ^ 62 }
    ensures head { IfOk result (λ head. head.items ≡ joined (number_units head_table (head_numbers (blank shape machine.now.guest generation)))) }
    ensures short { IfOk result (λ head. length head.items ≤ most_text shape) }
    ensures widths { IfOk result (λ head. HasWidths (blank shape machine.now.guest generation)) }
{
    let checkpoint = Checkpoint::from_parts(
        VERSION,
        shape,
        generation,
        0,
        machine.state(),
        Vec::new(alloc),
        Vec::new(alloc),
        Vec::new(alloc),
        FrameList::new(alloc),
    );
    let encoded = encode(alloc, &checkpoint);
    drop(checkpoint);
    let mut text = encoded?;
    texts_are_their_parts();
    let head = text.len() - 3 * COUNT_BYTES;
    text.truncate(head);
    Ok(text)
}
