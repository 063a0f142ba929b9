//! The text of a full checkpoint whose pages are found, of which a part is made.
ghost use Rattle.std.specs.Prelude.{◌≡◌, ◌≤◌, ◌<◌, ◌*◌, ◌+◌, ◌^◌, length, vec_capacity, OnOk};
ghost use Rattle.full_text.specs.Full.{AreIn, IsMadeTo, IsSame, most_record, record_size, records_size, size, whole};

use crate::kept::KeptPages;
use crate::records::{keep_pages, put_records};
use crate::tail::Tail;
use epoch_snapshot::{BLOCK_BYTES, PageChange};
use guest_machine::Machine;
use memory_wanted::MemoryWanted;
use std::marker::Model;

/// The bytes of a page's record beside its blocks.
const RECORD_BYTES: usize = 12;

/// No page's record has more.
pub(crate) const MOST_RECORD: usize = RECORD_BYTES + 64 * BLOCK_BYTES;

/// The text of a machine's full checkpoint, of which a part is made. It has room for all of it from the start. The rest is made of the memory
/// that the machine had at the checkpoint: of what is kept of it, and of what the machine had at its last settle. Before it is settled again,
/// [`keep`](FullText::keep) keeps what it gives up then.
#[derive(Drop)]
pub(crate) struct FullText {
    made: Vec<u8>,
    pages: Vec<PageChange>,
    next: usize,
    kept: KeptPages,
    tail: Tail,
}

impl Model for FullText {
    ghost use Rattle.full_text.specs.Full.{Making};

    ghost Value = { Making };

    ghost use Rattle.full_text.specs.internal.Fields.{making, IsMaking};

    ghost view = { making };

    ghost invariant = { IsMaking };
}

impl FullText {
    /// A text of which these bytes are made, whose other pages' records come next, and behind them this tail.
    pub(crate) fn from_parts(
        made: Vec<u8>,
        pages: Vec<PageChange>,
        kept: KeptPages,
        tail: Tail,
    ) -> FullText
        requires few { length pages.items < 2 ^ 32 }
        requires room { length made.items + (records_size pages.items + length tail) ≤ vec_capacity made }
        ensures { result ≡ record { made = made.items; pages = pages.items; kept = kept; tail = tail } }
    {
        FullText {
            made,
            pages,
            next: 0,
            kept,
            tail,
        }
    }

    /// The bytes that are made, from the first on.
    pub(crate) fn made(&self) -> &[u8]
        ensures { result.now ≡ self.now.made }
    {
        self.made.as_slice()
    }

    /// Makes the text up to `count` bytes from place `from` on, or all of it, of what is kept, and of the memory that this machine, whose text it
    /// is, had at its last settle. Since a page's record is made whole, it may make less than such a record more. It takes no memory beside
    /// what was reserved.
    pub(crate) fn make_to(&mut self, machine: &Machine, from: u64, count: u64)
        requires { AreIn (length machine.now.guest.ram) self.old.pages }
        ensures same { whole machine.now.settled self.new ≡ whole machine.now.settled self.old }
        ensures size { size self.new ≡ size self.old }
        ensures grows { length self.old.made ≤ length self.new.made }
        ensures made { IsMadeTo (from + count) self.new }
        ensures no_further { length self.old.made < length self.new.made → length self.new.made < from + count + most_record }
        ensures pages { AreIn (length machine.now.guest.ram) self.new.pages }
    {
        self.next += put_records(
            &mut self.made,
            machine,
            &self.kept,
            &self.pages[self.next..],
            from,
            count,
        );
        if self.next >= self.pages.len() {
            self.tail.put_to(&mut self.made, from, count);
        }
    }

    /// Keeps what the pages had at this machine's last settle whose records aren't made, of those that were written since. So the text is the same
    /// of what memory has now, and the machine may be settled. It copies no more pages than were written.
    ///
    /// # Errors
    /// The growth that was really refused. The text is the same.
    pub(crate) fn keep(&mut self, machine: &Machine) -> Result<(), MemoryWanted>
        requires { AreIn (length machine.now.guest.ram) self.old.pages }
        ensures same { whole machine.now.settled self.new ≡ whole machine.now.settled self.old }
        ensures kept { OnOk result (IsSame machine.now self.new) }
        ensures rest { self.new ≡ record self.old { kept = self.new.kept } }
    {
        if self.next >= self.pages.len() {
            return Ok(());
        }
        let left = &self.pages[self.next..];
        let pages = machine.shape().pages;
        self.kept
            .reserve(pages, machine.dirty_count().min(left.len()) as u32)?;
        keep_pages(&mut self.kept, machine, left)
    }
}

/// How many bytes the record of a page has.
fn size_of_record(page: PageChange) -> usize
    ensures value { result ≡ record_size page }
    ensures most { result ≤ most_record }
{
    RECORD_BYTES + BLOCK_BYTES * page.mask.count_ones() as usize
}

/// How many bytes the records of these pages have.
pub(crate) fn size_of_records(pages: &[PageChange]) -> usize
    requires { length pages.now < 2 ^ 32 }
    ensures value { result ≡ records_size pages.now }
    ensures most { result ≤ most_record * length pages.now }
{
    let mut size = 0;
    for page in pages {
        size += size_of_record(*page);
    }
    size
}
