//! Memory in pages.
ghost use Rattle.std.specs.Prelude.{◌≡◌, ◌+◌, ◌-◌, ◌*◌, ◌%◌, ◌^◌, ◌<◌, ◌≤◌, ◌↔◌, All, IfOk, IsTrue, false, length, replicate, take, drop};
ghost use Rattle.std.specs.Prelude.{◌/◌, ◌++◌, ℕ, [], slice_index, true};
ghost use Rattle.paged_memory.specs.Bytes.{with_bytes, with_xored};
ghost use Rattle.paged_memory.specs.Limits.{page_bytes, most_pages};
ghost use Rattle.paged_memory.specs.Pages.{IsPaged, page_of, is_written, written_pages, marked, with_written, boot_bytes, settled_at};
ghost use Rattle.paged_memory.specs.Stored.{is_touched};

use crate::keeping::clear_flags;
use memory_wanted::{MemoryWanted, extend_from_slice, resize, with_capacity};
use page_lanes::{BLOCK_SIZE, Block, is_zero, xor_block_at};
use std::alloc::Global;
use std::marker::Model;

/// Bytes in a page.
pub const PAGE_BYTES: usize = 4096;

/// Memory of 1 to 16384 pages. All memory that its calls need is reserved at boot.
#[derive(Drop)]
pub struct Memory {
    pub(crate) bytes: Vec<u8>,
    /// The pages that were written since the last settle, as they were then, in the order of their first writes. There is room for
    /// all pages.
    pub(crate) originals: Vec<u8>,
    /// Which pages were written since.
    pub(crate) written: Vec<bool>,
    /// For each of those, which of the originals is its own, counted from 0; for another page, any number.
    pub(crate) places: Vec<u32>,
    /// The numbers of those pages, in the order of their first writes.
    pub(crate) dirty: Vec<u32>,
    /// Which pages may have a byte that isn't 0: those that the image or a later call put bytes into.
    pub(crate) touched: Vec<bool>,
    /// How many page copies were made since boot, modulo 2^64.
    pub(crate) copies: u64,
}

impl Model for Memory {
    ghost use Rattle.paged_memory.specs.Pages.{Paged};
    ghost use Rattle.paged_memory.specs.Stored.{IsStored, seen};
    ghost use Rattle.std.specs.Prelude.{vec_capacity};

    ghost Value = { Paged };

    ghost view = { λ m. seen m.bytes.items m.originals.items m.written.items m.places.items m.copies };

    ghost invariant = { λ m. IsStored m.bytes.items m.originals.items m.written.items m.touched.items m.places.items m.dirty.items
        (vec_capacity m.originals) (vec_capacity m.dirty) m.copies };
}

impl Memory {
    /// So many pages: the image's bytes stand from the first place on, all else is 0, and no page counts as written. The image
    /// fits, as the caller knows.
    ///
    /// # Errors
    /// Where memory is refused.
    pub fn boot(alloc: Global, pages: u32, image: &[u8]) -> Result<Memory, MemoryWanted>
        requires some { 1 ≤ pages }
        requires most { pages ≤ most_pages }
        requires fits { length image.now ≤ page_bytes * pages }
        ensures { IfOk result (λ memory. memory ≡ settled_at (boot_bytes pages image.now) pages 0) }
    {
        let size = PAGE_BYTES * pages as usize;
        let mut bytes = with_capacity(alloc, size)?;
        extend_from_slice(&mut bytes, image)?;
        resize(&mut bytes, size, 0)?;
        // Reserved and not filled, so that it costs nothing before the first writes.
        let originals = with_capacity(alloc, size)?;
        let mut places = with_capacity(alloc, pages as usize)?;
        resize(&mut places, pages as usize, 0)?;
        let mut written = with_capacity(alloc, pages as usize)?;
        resize(&mut written, pages as usize, false)?;
        let dirty = with_capacity(alloc, pages as usize)?;
        let touched = reached(alloc, pages, image.len())?;
        Ok(Memory {
            bytes,
            originals,
            written,
            places,
            dirty,
            touched,
            copies: 0,
        })
    }

    /// How many bytes there are: 1 to 16384 whole pages.
    #[inline]
    pub fn size(&self) -> usize
        ensures value { result ≡ length self.now.bytes }
        ensures least { page_bytes ≤ result }
        ensures most { result ≤ page_bytes * most_pages }
        ensures rules { IsPaged self.now }
    {
        self.bytes.len()
    }

    /// How many pages there are: 1 to 16384.
    #[inline]
    pub fn pages(&self) -> u32
        ensures value { result ≡ length self.now.written }
        ensures least { 1 ≤ result }
        ensures most { result ≤ most_pages }
        ensures bytes { length self.now.bytes ≡ page_bytes * result }
        ensures rules { IsPaged self.now }
    {
        self.written.len() as u32
    }

    /// Copies the bytes from a place on into the whole of `into`. They lie in memory, as the caller knows.
    pub fn read(&self, at: usize, into: &mut [u8])
        requires { at + length into.old ≤ length self.now.bytes }
        ensures { into.new ≡ take (length into.old) (drop at self.now.bytes) }
    {
        into.copy_from_slice(&self.bytes[at..at + into.len()]);
    }

    /// Puts the whole of `from` in the place of the bytes from a place on. They lie in memory, as the caller knows. Each page in
    /// which one of them lies counts as written, whatever stood there; an empty `from` marks none. It makes a page copy for each
    /// page that it is the first to write since the last settle, or since boot.
    pub fn write(&mut self, at: usize, from: &[u8])
        requires { at + length from.now ≤ length self.old.bytes }
        ensures value { self.new ≡ with_written self.old at (length from.now) (with_bytes self.old.bytes at from.now) }
        ensures size { length self.new.bytes ≡ length self.old.bytes }
        ensures pages { length self.new.written ≡ length self.old.written }
        ensures copies { self.new.copies ≡ (self.old.copies + (written_pages self.new.written - written_pages self.old.written)) % 2 ^ 64 }
    {
        self.keep(at, from.len());
        put(&mut self.bytes, at, from);
    }

    /// XORs a block of 64 bytes into those from a place on. They lie in memory, as the caller knows. Each page in which one of them
    /// lies counts as written.
    pub fn xor_block(&mut self, at: usize, block: &Block)
        requires { at + 64 ≤ length self.old.bytes }
        ensures value { self.new ≡ with_written self.old at 64 (with_xored self.old.bytes at block.now) }
        ensures size { length self.new.bytes ≡ length self.old.bytes }
        ensures pages { length self.new.written ≡ length self.old.written }
    {
        self.keep_few(at, BLOCK_SIZE);
        xor_at(&mut self.bytes, at, block);
    }

    /// XORs a block of 64 bytes into those from a place on, as a memory takes it in that needs no originals. No page counts as
    /// written, before as after, so what stands there now is the original too, and no page is copied. The bytes lie in memory, and
    /// no page counts as written, as the caller knows.
    pub fn xor_settled(&mut self, at: usize, block: &Block)
        requires within { at + 64 ≤ length self.old.bytes }
        requires settled { self.old.written ≡ replicate (length self.old.written) false }
        ensures value { self.new ≡ settled_at (with_xored self.old.bytes at block.now) (length self.old.written) self.old.copies }
        ensures size { length self.new.bytes ≡ length self.old.bytes }
    {
        touch(&mut self.touched, at);
        // There is no original to keep.
        xor_at(&mut self.bytes, at, block);
    }

    /// The byte at a place of memory, as the caller knows.
    pub fn byte(&self, at: usize) -> u8
        requires { at < length self.now.bytes }
        ensures { result ≡ slice_index self.now.bytes at }
    {
        self.bytes[at]
    }

    /// The bytes of a page that the memory has, as the caller knows.
    pub fn page(&self, page: u32) -> &[u8; PAGE_BYTES]
        requires { page_bytes * page + page_bytes ≤ length self.now.bytes }
        ensures { result.now ≡ page_of self.now.bytes page }
    {
        page_at(self.bytes.as_slice(), page)
    }

    /// Whether all bytes of a page are 0. It doesn't look at those of a page that neither the image nor a later call put bytes into. The
    /// memory has it, as the caller knows.
    pub fn is_zero(&self, page: u32) -> bool
        requires { page_bytes * page + page_bytes ≤ length self.now.bytes }
        ensures { IsTrue result ↔ All (λ b. b ≡ 0) (page_of self.now.bytes page) }
    {
        !self.touched[page as usize] || is_zero(self.page(page))
    }

    /// Whether a page was written since the last settle, or since boot, also where its bytes are the same as then. The memory has
    /// it, as the caller knows.
    pub fn dirty(&self, page: u32) -> bool
        requires { page_bytes * page + page_bytes ≤ length self.now.bytes }
        ensures value { result ≡ is_written self.now.written page }
        ensures same { result ≡ false → page_of self.now.bytes page ≡ page_of self.now.settled page }
    {
        self.written[page as usize]
    }

    /// The same of the page that a byte stands in. The memory has the byte, as the caller knows.
    #[inline]
    pub fn dirty_at(&self, at: usize) -> bool
        requires { at < length self.now.bytes }
        ensures { result ≡ is_written self.now.written (at / page_bytes) }
    {
        self.written[at / PAGE_BYTES]
    }

    /// The bytes of a page at the last settle, or at boot. The memory has it, as the caller knows.
    pub fn original(&self, page: u32) -> &[u8; PAGE_BYTES]
        requires { page_bytes * page + page_bytes ≤ length self.now.bytes }
        ensures value { result.now ≡ page_of self.now.settled page }
        ensures size { length self.now.settled ≡ length self.now.bytes }
    {
        if self.written[page as usize] {
            page_at(self.originals.as_slice(), self.places[page as usize])
        } else {
            page_at(self.bytes.as_slice(), page)
        }
    }

    /// How many page copies were made since boot, modulo 2^64: each write makes one for each page that it is the first to write
    /// since the last settle, and nothing else makes any.
    pub fn copies(&self) -> u64
        ensures { result ≡ self.now.copies }
    {
        self.copies
    }

    /// From now on no page counts as written, and the original of each is what it is now. It copies no page, and goes over those
    /// that were written only.
    pub fn settle(&mut self)
        ensures value { self.new ≡ settled_at self.old.bytes (length self.old.written) self.old.copies }
        ensures copies { self.new.copies ≡ self.old.copies }
    {
        clear_flags(&mut self.written, self.dirty.as_slice());
        self.dirty.clear();
        self.originals.clear();
    }

    /// The memory is as at boot with an empty image: each byte is 0, no page counts as written, and no page copy was made. It goes over
    /// those pages only that the image or a later call put bytes into, and takes no memory.
    pub fn clear(&mut self)
        ensures { self.new ≡ settled_at (boot_bytes (length self.old.written) []) (length self.old.written) 0 }
    {
        self.settle();
        clear_pages(&mut self.bytes, &mut self.touched);
        self.copies = 0;
    }
}

/// Puts 0 into each byte of the pages that have a flag, and clears the flags. The others have no other byte.
fn clear_pages(bytes: &mut Vec<u8>, touched: &mut Vec<bool>)
    requires whole { length bytes.old.items ≡ page_bytes * length touched.old.items }
    requires zero { (i : ℕ) → is_touched touched.old.items (i / page_bytes) ≡ false → slice_index bytes.old.items i ≡ 0 }
    ensures bytes { bytes.new.items ≡ replicate (length bytes.old.items) 0 }
    ensures touched { touched.new.items ≡ replicate (length touched.old.items) false }
{
    for page in 0..touched.len() {
        if touched[page] {
            clear_bytes(bytes, PAGE_BYTES * page, PAGE_BYTES);
            touched[page] = false;
        }
    }
}

/// Puts 0 into so many bytes from a place on.
fn clear_bytes(bytes: &mut Vec<u8>, at: usize, count: usize)
    requires { at + count ≤ length bytes.old.items }
    ensures { bytes.new.items ≡ with_bytes bytes.old.items at (replicate count 0) }
{
    clear(&mut bytes[at..at + count]);
}

/// Puts 0 into each byte.
fn clear(bytes: &mut [u8])
    ensures { bytes.new ≡ replicate (length bytes.old) 0 }
{
    bytes.fill(0);
}

/// A flag for each of so many pages: those have it set that an image of so many bytes lies in.
fn reached(alloc: Global, pages: u32, size: usize) -> Result<Vec<bool>, MemoryWanted>
    requires { size ≤ page_bytes * pages }
    ensures { let count = (size + page_bytes - 1) / page_bytes in
        IfOk result (λ flags. flags.items ≡ replicate count true ++ replicate (pages - count) false) }
{
    let mut flags = with_capacity(alloc, pages as usize)?;
    resize(&mut flags, size.div_ceil(PAGE_BYTES), true)?;
    resize(&mut flags, pages as usize, false)?;
    Ok(flags)
}

/// Puts the whole of `from` in the place of the bytes from a place on.
fn put(bytes: &mut Vec<u8>, at: usize, from: &[u8])
    requires { at + length from.now ≤ length bytes.old.items }
    ensures value { bytes.new.items ≡ with_bytes bytes.old.items at from.now }
    ensures size { length bytes.new.items ≡ length bytes.old.items }
{
    bytes[at..at + from.len()].copy_from_slice(from);
}

/// Sets the flags of the pages that the 64 bytes from a place on lie in.
fn touch(flags: &mut Vec<bool>, at: usize)
    requires most { length flags.old.items ≤ most_pages }
    requires within { at + 64 ≤ page_bytes * length flags.old.items }
    ensures { flags.new.items ≡ marked flags.old.items at 64 }
{
    flags[at / PAGE_BYTES] = true;
    flags[(at + BLOCK_SIZE - 1) / PAGE_BYTES] = true;
}

/// XORs a block into the bytes from a place on.
fn xor_at(bytes: &mut Vec<u8>, at: usize, block: &Block)
    requires { at + 64 ≤ length bytes.old.items }
    ensures value { bytes.new.items ≡ with_xored bytes.old.items at block.now }
    ensures size { length bytes.new.items ≡ length bytes.old.items }
{
    xor_block_at(bytes.as_mut_slice(), at, block);
}

/// The bytes of a page as an array.
fn page_at(bytes: &[u8], page: u32) -> &[u8; PAGE_BYTES]
    requires { page_bytes * page + page_bytes ≤ length bytes.now }
    ensures { result.now ≡ page_of bytes.now page }
{
    let start = PAGE_BYTES * page as usize;
    let Ok(page) = <&[u8; PAGE_BYTES]>::try_from(&bytes[start..start + PAGE_BYTES]) else {
        unreachable!()
    };
    page
}
