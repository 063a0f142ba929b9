//! The records of pages, as they stood at the machine's last settle.
ghost use Rattle.std.specs.Prelude.{◌≡◌, ℕ, ◌+◌, ◌*◌, ◌<◌, ◌≤◌, ◌++◌, true, false, length, map, drop, count_ones, vec_capacity, All, OnOk};
ghost use Rattle.guest_rules.specs.Limits.{page_bytes};
ghost use Rattle.epoch_snapshot.specs.Blocks.{block_in, set_blocks};
ghost use Rattle.checkpoint_stream.specs.HeadTable.{bytes_of};
ghost use Rattle.checkpoint_stream.specs.Text.{joined};
ghost use Rattle.checkpoint_stream.specs.declared.rules.Width.TheVariants.{Four, Eight};
ghost use Rattle.full_text.specs.Full.{AreIn, IsSameIn, most_record, page_at, page_record, page_records, record_size, records_size};

use crate::kept::KeptPages;
use checkpoint_stream::texts_are_their_parts;
use epoch_snapshot::{BLOCK_BYTES, PageChange, masks_name_blocks};
use guest_machine::Machine;
use memory_wanted::{MemoryWanted, extend_from_slice};
use page_lanes::Page;

/// The bytes of a count.
pub(crate) const COUNT_BYTES: usize = 4;

/// Puts bytes at the end of a text that has room for them.
pub(crate) fn put(text: &mut Vec<u8>, bytes: &[u8])
    requires { length text.old.items + length bytes.now ≤ vec_capacity text.old }
    ensures items { text.new.items ≡ text.old.items ++ bytes.now }
    ensures room { vec_capacity text.old ≤ vec_capacity text.new }
{
    match extend_from_slice(text, bytes) {
        Ok(()) => {}
        Err(_) => unreachable!(),
    }
}

/// A number of 32 bits at the end of a text that has room for it.
#[tactic(auto, unfolding(checkpoint_stream::specs::HeadTable::bytes_of))]
pub(crate) fn put_four(text: &mut Vec<u8>, n: u32)
    requires { length text.old.items + 4 ≤ vec_capacity text.old }
    ensures items { text.new.items ≡ text.old.items ++ bytes_of Four n }
    ensures size { length text.new.items ≡ length text.old.items + 4 }
    ensures room { vec_capacity text.old ≤ vec_capacity text.new }
{
    put(text, &n.to_le_bytes());
}

/// One of 64 bits.
#[tactic(auto, unfolding(checkpoint_stream::specs::HeadTable::bytes_of))]
fn put_eight(text: &mut Vec<u8>, n: u64)
    requires { length text.old.items + 8 ≤ vec_capacity text.old }
    ensures items { text.new.items ≡ text.old.items ++ bytes_of Eight n }
    ensures size { length text.new.items ≡ length text.old.items + 8 }
    ensures room { vec_capacity text.old ≤ vec_capacity text.new }
{
    put(text, &n.to_le_bytes());
}

/// A block of a page.
pub(crate) fn block(page: &Page, number: u32) -> &[u8]
    requires { number < 64 }
    ensures { result.now ≡ block_in page.now number }
{
    let start = BLOCK_BYTES * number as usize;
    &page[start..start + BLOCK_BYTES]
}

/// Puts the blocks of a page that a mask names at the end of a text that has room for them.
fn put_blocks(text: &mut Vec<u8>, page: &Page, mask: u64)
    requires long { length page.now ≡ 4096 }
    requires room { length text.old.items + 64 * count_ones mask ≤ vec_capacity text.old }
    ensures items { text.new.items ≡ text.old.items ++ joined (map (λ i. block_in page.now i) (set_blocks mask)) }
    ensures room { vec_capacity text.old ≤ vec_capacity text.new }
{
    masks_name_blocks();
    texts_are_their_parts();
    for number in 0..64 {
        if (mask >> number) % 2 == 1 {
            put(text, block(page, number));
        }
    }
}

/// What a page had: what is kept of it, or else what it had at the machine's last settle.
pub(crate) fn page_of<'a>(machine: &'a Machine, kept: &'a KeptPages, page: u32) -> &'a Page
    requires { page_bytes * page + page_bytes ≤ length machine.now.guest.ram }
    ensures { result.now ≡ page_at machine.now.settled kept.now page }
{
    match kept.find(page) {
        None => machine.original(page),
        Some(bytes) => bytes,
    }
}

/// Puts the record of a page of these bytes at the end of a text that has room for it.
fn put_record(text: &mut Vec<u8>, bytes: &Page, change: PageChange)
    requires { length text.old.items + record_size change ≤ vec_capacity text.old }
    ensures items { text.new.items ≡ text.old.items ++ page_record bytes.now change }
    ensures size { length text.new.items ≡ length text.old.items + record_size change }
    ensures most { record_size change ≤ most_record }
    ensures room { vec_capacity text.old ≤ vec_capacity text.new }
{
    put_four(text, change.page);
    put_eight(text, change.mask);
    put_blocks(text, bytes, change.mask);
    masks_name_blocks();
}

/// Whether a text of so many bytes ends before `count` bytes from place `from` on.
pub(crate) fn ends_before(size: usize, from: u64, count: u64) -> bool
    ensures yes { result ≡ true → size < from + count }
    ensures no { result ≡ false → from + count ≤ size }
{
    let size = size as u64;
    if size < from {
        return true;
    }
    size - from < count
}

/// Puts the records of these pages at the end of a text that has room for them, until the text has `count` bytes from place `from` on, or all
/// records are there. Answers how many it put.
pub(crate) fn put_records(
    text: &mut Vec<u8>,
    machine: &Machine,
    kept: &KeptPages,
    pages: &[PageChange],
    from: u64,
    count: u64,
) -> usize
    requires pages { AreIn (length machine.now.guest.ram) pages.now }
    requires room { length text.old.items + records_size pages.now ≤ vec_capacity text.old }
    ensures last { result ≤ length pages.now }
    ensures items { text.new.items ++ page_records (page_at machine.now.settled kept.now) (drop result pages.now)
        ≡ text.old.items ++ page_records (page_at machine.now.settled kept.now) pages.now }
    ensures size { length text.new.items + records_size (drop result pages.now) ≡ length text.old.items + records_size pages.now }
    ensures grows { length text.old.items ≤ length text.new.items }
    ensures made { result < length pages.now → from + count ≤ length text.new.items }
    ensures no_further { length text.old.items < length text.new.items → length text.new.items < from + count + most_record }
    ensures room { vec_capacity text.old ≤ vec_capacity text.new }
{
    let mut next = 0;
    while next < pages.len() && ends_before(text.len(), from, count) {
        put_record(text, page_of(machine, kept, pages[next].page), pages[next]);
        next += 1;
    }
    next
}

/// Keeps what a page had at the machine's last settle, where it was written since and isn't kept yet.
fn keep_page(kept: &mut KeptPages, machine: &Machine, page: u32) -> Result<(), MemoryWanted>
    requires within { page_bytes * page + page_bytes ≤ length machine.now.guest.ram }
    requires room { page < length kept.old }
    ensures settled { (q : ℕ) → page_at machine.now.settled kept.new q ≡ page_at machine.now.settled kept.old q }
    ensures here { OnOk result (IsSameIn machine.now kept.new page) }
    ensures others { (q : ℕ) → IsSameIn machine.now kept.old q → IsSameIn machine.now kept.new q }
    ensures room { length kept.new ≡ length kept.old }
{
    if let Some(_) = kept.find(page) {
        return Ok(());
    }
    if !machine.dirty(page) {
        return Ok(());
    }
    kept.keep(page, machine.original(page))
}

/// Keeps what these pages had at the machine's last settle, of those that were written since and aren't kept yet. After an error some of them
/// are kept.
pub(crate) fn keep_pages(
    kept: &mut KeptPages,
    machine: &Machine,
    pages: &[PageChange],
) -> Result<(), MemoryWanted>
    requires within { AreIn (length machine.now.guest.ram) pages.now }
    requires room { length machine.now.guest.ram ≤ page_bytes * length kept.old }
    ensures settled { (q : ℕ) → page_at machine.now.settled kept.new q ≡ page_at machine.now.settled kept.old q }
    ensures same { OnOk result (All (λ p. IsSameIn machine.now kept.new p.page) pages.now) }
{
    for change in pages {
        keep_page(kept, machine, change.page)?;
    }
    Ok(())
}

/// Keeps what each page had at the machine's last settle that was written since and isn't kept yet. After an error some of them are kept. It
/// goes over the pages that were written, and over no others.
pub(crate) fn keep_written(
    kept: &mut KeptPages,
    machine: &Machine,
    pages: u32,
) -> Result<(), MemoryWanted>
    requires all { length machine.now.guest.ram ≡ page_bytes * pages }
    requires room { pages ≤ length kept.old }
    ensures settled { (q : ℕ) → page_at machine.now.settled kept.new q ≡ page_at machine.now.settled kept.old q }
    ensures same { OnOk result ((q : ℕ) → q < pages → IsSameIn machine.now kept.new q) }
{
    let mut page = machine.next_dirty(0);
    while page < pages {
        keep_page(kept, machine, page)?;
        page = machine.next_dirty(page + 1);
    }
    Ok(())
}
