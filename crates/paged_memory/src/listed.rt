//! The list of the pages that were written since the last settle.
ghost use Rattle.std.specs.Prelude.{◌≡◌, ℕ, ◌*◌, ◌<◌, ◌≤◌, true, length, nat_le, nat_lt, ◌&&◌, if◌then◌else◌};
ghost use Rattle.paged_memory.specs.Limits.{page_bytes};
ghost use Rattle.paged_memory.specs.Listed.{IsLeast};
ghost use Rattle.paged_memory.specs.Pages.{AreUnwritten, is_written, written_pages};

use crate::memory::Memory;

impl Memory {
    /// How many pages were written since the last settle, or since boot.
    pub fn dirty_count(&self) -> usize
        ensures { result ≡ written_pages self.now.written }
    {
        self.dirty.len()
    }

    /// The first page from `from` on that was written since the last settle, or since boot; where none was, how many pages there are.
    /// It goes over the pages that were written, and over no others: where these are few, it doesn't matter how many pages there are.
    /// `from` is at most that many, as the caller knows.
    pub fn next_dirty(&self, from: u32) -> u32
        requires { page_bytes * from ≤ length self.now.bytes }
        ensures first { from ≤ result }
        ensures last { page_bytes * result ≤ length self.now.bytes }

        // Beyond the last page each counts as written.
        ensures here { is_written self.now.written result ≡ true }
        ensures before { AreUnwritten self.now.bytes self.now.settled self.now.written from result }
    {
        least_from(self.dirty.as_slice(), from, self.pages())
    }
}

/// The least of some numbers that is at least `from` and below `end`, or `end` where none is.
fn least_from(numbers: &[u32], from: u32, end: u32) -> u32
    requires { from ≤ end }
    ensures { IsLeast numbers.now from end (length numbers.now) result }
{
    let mut least = end;
    for number in numbers {
        least = nearer(*number, from, least);
    }
    least
}

/// A number, where it is at least `from` and below `least`; else that.
#[inline]
fn nearer(number: u32, from: u32, least: u32) -> u32
    ensures { result ≡ (if nat_le from number && nat_lt number least then number else least) }
{
    if from <= number && number < least {
        number
    } else {
        least
    }
}
