//! The bytes of a chain's buffers, joined in order.

ghost use Rattle.std.specs.Prelude.{◌≡◌, ◌+◌, ◌^◌, ◌<◌, ◌≤◌, IsTrue, length, take, drop};
ghost use Rattle.virtqueue.specs.Memory.{place_of, written};
ghost use Rattle.virtqueue.specs.Chains.{buffer_inside, BuffersInside};
ghost use Rattle.virtqueue.specs.Parts.{
  readable_len,
  writable_len,
  all_readable,
  all_writable,
  bytes_of,
  readable_bytes,
  writable_places,
  put_at,
};

use crate::chains::{Chain, Descriptor};
use crate::memory::{GuestRam, RAM_START};
use crate::rings::Queue;

impl Chain {
    /// How many bytes the device may read.
    pub fn readable_len(&self) -> u64
        ensures { result ≡ readable_len self.now.parts }
    {
        let parts = self.parts();
        parts
            .iter()
            .filter(|part| !part.writable)
            .map(|part| u64::from(part.len))
            .sum()
    }

    /// How many bytes the device may write.
    pub fn writable_len(&self) -> u64
        ensures { result ≡ writable_len self.now.parts }
    {
        let parts = self.parts();
        parts
            .iter()
            .filter(|part| part.writable)
            .map(|part| u64::from(part.len))
            .sum()
    }

    /// Whether the device may write none of the buffers.
    pub fn is_all_readable(&self) -> bool
        ensures { result ≡ all_readable self.now.parts }
    {
        let parts = self.parts();
        parts.iter().all(|part| !part.writable)
    }

    /// Whether the device may write each of the buffers.
    pub fn is_all_writable(&self) -> bool
        ensures { result ≡ all_writable self.now.parts }
    {
        let parts = self.parts();
        parts.iter().all(|part| part.writable)
    }
}

/// The place in RAM of a nonempty buffer's first byte.
fn place<R: GuestRam>(ram: &R, buffer: &Descriptor) -> usize
    requires inside { IsTrue (buffer_inside (length (R.bytes ram.now)) buffer.now.address buffer.now.len) }
    requires some { 0 < buffer.now.len }
    ensures value { result ≡ place_of buffer.now.address }
    ensures end { result + buffer.now.len ≤ length (R.bytes ram.now) }
    ensures fits { result + buffer.now.len < 2 ^ 64 }
{
    // Where RAM ends bounds where the buffer does.
    let _size = ram.size();
    (buffer.address - RAM_START) as usize
}

/// Copies the bytes of one buffer from its place `skip` on into the whole of `into`.
fn read_buffer<R: GuestRam>(ram: &R, buffer: &Descriptor, skip: usize, into: &mut [u8])
    requires inside { IsTrue (buffer_inside (length (R.bytes ram.now)) buffer.now.address buffer.now.len) }
    requires before_end { skip < buffer.now.len }
    requires fits { skip + length into.old ≤ buffer.now.len }
    ensures { into.new ≡ take (length into.old) (drop skip (bytes_of (R.bytes ram.now) buffer.now)) }
{
    ram.read(place(ram, buffer) + skip, into);
}

/// Puts `from` into one buffer, from its place `skip` on.
fn write_buffer<R: GuestRam>(ram: &mut R, buffer: &Descriptor, skip: usize, from: &[u8])
    requires inside { IsTrue (buffer_inside (length (R.bytes ram.old)) buffer.now.address buffer.now.len) }
    requires before_end { skip < buffer.now.len }
    requires fits { skip + length from.now ≤ buffer.now.len }
    ensures value { R.bytes ram.new ≡ written (R.bytes ram.old) (place_of buffer.now.address + skip) from.now }
    ensures size { length (R.bytes ram.new) ≡ length (R.bytes ram.old) }
    ensures fixed { R.fixed ram.new ≡ R.fixed ram.old }
{
    ram.write(place(ram, buffer) + skip, from);
}

impl Queue {
    /// Copies bytes of a chain's readable buffers, joined in order, from the one at `at` on, into the
    /// whole of `into`.
    pub fn gather<R: GuestRam>(chain: &Chain, ram: &R, at: u64, into: &mut [u8])
        requires inside { BuffersInside (length (R.bytes ram.now)) chain.now.parts }
        requires fits { at + length into.old ≤ readable_len chain.now.parts }
        ensures { into.new ≡ take (length into.old) (drop at (readable_bytes (R.bytes ram.now) chain.now.parts)) }
    {
        let mut skip = at;
        let mut done = 0;
        let parts = chain.parts();
        for part in parts {
            if part.writable {
                continue;
            }
            let len = u64::from(part.len);
            if skip >= len {
                skip -= len;
                continue;
            }
            let count = ((len - skip) as usize).min(into.len() - done);
            read_buffer(ram, part, skip as usize, &mut into[done..done + count]);
            done += count;
            skip = 0;
        }
    }

    /// Puts the whole of `from` into a chain's writable buffers, joined in order, from the byte at `at`
    /// on. It changes no other byte of RAM.
    pub fn scatter<R: GuestRam>(chain: &Chain, ram: &mut R, at: u64, from: &[u8])
        requires inside { BuffersInside (length (R.bytes ram.old)) chain.now.parts }
        requires fits { at + length from.now ≤ writable_len chain.now.parts }
        ensures value { R.bytes ram.new ≡ put_at (R.bytes ram.old) (drop at (writable_places chain.now.parts)) from.now }
        ensures size { length (R.bytes ram.new) ≡ length (R.bytes ram.old) }
        ensures fixed { R.fixed ram.new ≡ R.fixed ram.old }
    {
        let mut skip = at;
        let mut done = 0;
        let parts = chain.parts();
        for part in parts {
            if !part.writable {
                continue;
            }
            let len = u64::from(part.len);
            if skip >= len {
                skip -= len;
                continue;
            }
            let count = ((len - skip) as usize).min(from.len() - done);
            write_buffer(ram, part, skip as usize, &from[done..done + count]);
            done += count;
            skip = 0;
        }
    }
}
