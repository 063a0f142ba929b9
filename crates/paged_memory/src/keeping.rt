//! How pages are kept before they are first written.
ghost use Rattle.std.specs.Prelude.{◌≡◌, ℕ, ◌+◌, ◌*◌, ◌%◌, ◌^◌, ◌<◌, ◌≤◌, ◌++◌, false, true, length, replicate, slice_set, All, Contains};
ghost use Rattle.std.specs.Prelude.{vec_len, vec_capacity};
ghost use Rattle.paged_memory.specs.Limits.{page_bytes};
ghost use Rattle.paged_memory.specs.Pages.{IsPaged, flagged, is_written, with_flags, with_written};

use crate::memory::{Memory, PAGE_BYTES};

impl Memory {
    /// Appends a page to the originals, and notes that it was written. It is the one that copies a page.
    fn keep_page(&mut self, page: u32)
        requires inside { page < length self.old.written }
        requires unwritten { is_written self.old.written page ≡ false }
        ensures { self.new ≡ record self.old {
          written = slice_set self.old.written page true;
          copies = (self.old.copies + 1) % 2 ^ 64;
        } }
    {
        let start = PAGE_BYTES * page as usize;
        append(&mut self.originals, &self.bytes[start..start + PAGE_BYTES]);
        self.places[page as usize] = self.dirty.len() as u32;
        self.written[page as usize] = true;
        self.touched[page as usize] = true;
        self.dirty.push_reserved(page);
        self.copies = self.copies.wrapping_add(1);
    }

    /// Keeps those pages from `from` up to `end` that weren't written yet. It is seldom called, so it stays out of line.
    #[cold]
    #[inline(never)]
    fn keep_pages(&mut self, from: usize, end: usize)
        requires ordered { from ≤ end }
        requires within { end ≤ length self.old.written }
        ensures { self.new ≡ with_flags self.old (flagged self.old.written from end) }
    {
        // Read first, so that what is true of every memory is known here.
        let _ = &self.copies;
        for page in from..end {
            if !self.written[page] {
                self.keep_page(page as u32);
            }
        }
    }

    /// Keeps the pages that `count` bytes from a place on lie in.
    pub(crate) fn keep(&mut self, at: usize, count: usize)
        requires { at + count ≤ length self.old.bytes }
        ensures value { self.new ≡ with_written self.old at count self.old.bytes }
        ensures rules { IsPaged self.old }
    {
        let _ = &self.copies;
        if count > 0 {
            self.keep_pages(at / PAGE_BYTES, (at + count - 1) / PAGE_BYTES + 1);
        }
    }

    /// The same for 1 to 4096 bytes, which lie in one page, or in two that follow each other. Where both were written, it costs
    /// one test.
    #[inline]
    pub(crate) fn keep_few(&mut self, at: usize, count: usize)
        requires some { 1 ≤ count }
        requires few { count ≤ page_bytes }
        requires within { at + count ≤ length self.old.bytes }
        ensures value { self.new ≡ with_written self.old at count self.old.bytes }
        ensures rules { IsPaged self.old }
    {
        let first = at / PAGE_BYTES;
        let first_written = self.written[first];
        let last = (at + count - 1) / PAGE_BYTES;
        if !(first_written & self.written[last]) {
            self.keep_pages(first, last + 1);
        }
    }
}

/// Appends bytes for which there is room, so that no memory is asked for.
fn append(into: &mut Vec<u8>, from: &[u8])
    requires { vec_len into.old + length from.now ≤ vec_capacity into.old }
    ensures items { into.new.items ≡ into.old.items ++ from.now }
    ensures capacity { vec_capacity into.old ≤ vec_capacity into.new }
{
    let Ok(()) = into.extend_from_slice(from) else {
        unreachable!()
    };
}

/// Clears the flags of these pages, which are all that have one.
pub(crate) fn clear_flags(flags: &mut Vec<bool>, pages: &[u32])
    requires inside { All (λ page. page < length flags.old.items) pages.now }
    requires listed { (page : ℕ) → page < length flags.old.items → is_written flags.old.items page ≡ true → Contains pages.now page }
    ensures { flags.new.items ≡ replicate (length flags.old.items) false }
{
    for page in pages {
        flags[*page as usize] = false;
    }
}
