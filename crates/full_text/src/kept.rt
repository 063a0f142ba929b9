//! Pages that are kept as they were, since their machine is settled before their records are made.
ghost use Rattle.std.specs.Prelude.{◌≡◌, ◌≤◌, ◌<◌, ◌+◌, ℕ, [], None, OnErr, OnOk, Some, length, option_map, slice_index_or, slice_set};
ghost use Rattle.full_text.specs.internal.KeptFields.{page_from};

use memory_wanted::{MemoryWanted, extend_from_slice, reserve, resize};
use page_lanes::{PAGE_SIZE, Page};
use std::alloc::Global;
use std::marker::Model;

/// What pages of a machine had, by their indices.
#[derive(Drop)]
pub(crate) struct KeptPages {
    /// Where the bytes of each page begin that is kept.
    places: Vec<Option<usize>>,
    /// The bytes of those pages, in the order in which they were kept.
    bytes: Vec<u8>,
}

impl Model for KeptPages {
    ghost use Rattle.std.specs.Prelude.{List, Option, ℕ};

    ghost Value = { List (Option (List ℕ)) };

    ghost use Rattle.full_text.specs.internal.KeptFields.{kept_pages, AreKept};

    ghost view = { kept_pages };

    ghost invariant = { AreKept };
}

impl KeptPages {
    /// None are kept, and no memory is taken.
    pub(crate) fn new(alloc: Global) -> KeptPages
        ensures { result ≡ [] }
    {
        KeptPages {
            places: Vec::new(alloc),
            bytes: Vec::new(alloc),
        }
    }

    /// Makes room for `count` pages more, of a machine that has so many pages.
    ///
    /// # Errors
    /// The growth that was really refused. What is kept stays.
    pub(crate) fn reserve(&mut self, pages: u32, count: u32) -> Result<(), MemoryWanted>
        ensures long { OnOk result (pages ≤ length self.new) }
        ensures same { (page : ℕ) → slice_index_or self.new page None ≡ slice_index_or self.old page None }
    {
        if self.places.len() < pages as usize {
            resize(&mut self.places, pages as usize, None)?;
        }
        reserve(&mut self.bytes, PAGE_SIZE * count as usize)
    }

    /// Keeps a page of these bytes.
    ///
    /// # Errors
    /// The growth that was really refused. What is kept stays.
    pub(crate) fn keep(&mut self, page: u32, bytes: &Page) -> Result<(), MemoryWanted>
        requires { page < length self.old }
        ensures done { OnOk result (self.new ≡ slice_set self.old page (Some bytes.now)) }
        ensures err { OnErr result (self.new ≡ self.old) }
    {
        let place = self.bytes.len();
        extend_from_slice(&mut self.bytes, bytes)?;
        self.places[page as usize] = Some(place);
        Ok(())
    }

    /// The bytes of a page that is kept.
    pub(crate) fn find(&self, page: u32) -> Option<&Page>
        ensures { option_map (λ bytes. bytes.now) result ≡ slice_index_or self.now page None }
    {
        if page as usize >= self.places.len() {
            return None;
        }
        match self.places[page as usize] {
            None => None,
            Some(place) => Some(page_from(self.bytes.as_slice(), place)),
        }
    }
}

/// The page that stands from this place on.
fn page_from(bytes: &[u8], place: usize) -> &Page
    requires { place + 4096 ≤ length bytes.now }
    ensures { result.now ≡ page_from bytes.now place }
{
    let Ok(page) = <&Page>::try_from(&bytes[place..place + PAGE_SIZE]) else {
        unreachable!()
    };
    page
}
