//! Numbers in memory, the lowest byte first.
ghost use Rattle.std.specs.Prelude.{◌≡◌, ◌+◌, ◌≤◌, length};
ghost use Rattle.paged_memory.specs.Bytes.{number_at, with_number};
ghost use Rattle.paged_memory.specs.Pages.{with_written};

use crate::memory::Memory;
use byteorder::{ByteOrder, LittleEndian};

impl Memory {
    /// The byte at a place, as a number.
    #[inline]
    pub fn read_u8(&self, at: usize) -> u8
        requires { at + 1 ≤ length self.now.bytes }
        ensures { result ≡ number_at self.now.bytes at 1 }
    {
        self.bytes[at]
    }

    /// The number of 2 bytes at a place.
    #[inline]
    pub fn read_u16(&self, at: usize) -> u16
        requires { at + 2 ≤ length self.now.bytes }
        ensures { result ≡ number_at self.now.bytes at 2 }
    {
        LittleEndian::read_u16(&self.bytes[at..])
    }

    /// The number of 4 bytes at a place.
    #[inline]
    pub fn read_u32(&self, at: usize) -> u32
        requires { at + 4 ≤ length self.now.bytes }
        ensures { result ≡ number_at self.now.bytes at 4 }
    {
        LittleEndian::read_u32(&self.bytes[at..])
    }

    /// The number of 8 bytes at a place.
    #[inline]
    pub fn read_u64(&self, at: usize) -> u64
        requires { at + 8 ≤ length self.now.bytes }
        ensures { result ≡ number_at self.now.bytes at 8 }
    {
        LittleEndian::read_u64(&self.bytes[at..])
    }

    /// Writes a byte. Its page counts as written.
    #[inline]
    pub fn write_u8(&mut self, at: usize, value: u8)
        requires { at + 1 ≤ length self.old.bytes }
        ensures value { self.new ≡ with_written self.old at 1 (with_number self.old.bytes at 1 value) }
        ensures size { length self.new.bytes ≡ length self.old.bytes }
        ensures pages { length self.new.written ≡ length self.old.written }
    {
        self.keep_few(at, 1);
        put_u8(&mut self.bytes, at, value);
    }

    /// Writes a number of 2 bytes. Each page in which one of them lies counts as written.
    #[inline]
    pub fn write_u16(&mut self, at: usize, value: u16)
        requires { at + 2 ≤ length self.old.bytes }
        ensures value { self.new ≡ with_written self.old at 2 (with_number self.old.bytes at 2 value) }
        ensures size { length self.new.bytes ≡ length self.old.bytes }
        ensures pages { length self.new.written ≡ length self.old.written }
    {
        self.keep_few(at, 2);
        put_u16(&mut self.bytes, at, value);
    }

    /// Writes a number of 4 bytes. Each page in which one of them lies counts as written.
    #[inline]
    pub fn write_u32(&mut self, at: usize, value: u32)
        requires { at + 4 ≤ length self.old.bytes }
        ensures value { self.new ≡ with_written self.old at 4 (with_number self.old.bytes at 4 value) }
        ensures size { length self.new.bytes ≡ length self.old.bytes }
        ensures pages { length self.new.written ≡ length self.old.written }
    {
        self.keep_few(at, 4);
        put_u32(&mut self.bytes, at, value);
    }

    /// Writes a number of 8 bytes. Each page in which one of them lies counts as written.
    #[inline]
    pub fn write_u64(&mut self, at: usize, value: u64)
        requires { at + 8 ≤ length self.old.bytes }
        ensures value { self.new ≡ with_written self.old at 8 (with_number self.old.bytes at 8 value) }
        ensures size { length self.new.bytes ≡ length self.old.bytes }
        ensures pages { length self.new.written ≡ length self.old.written }
    {
        self.keep_few(at, 8);
        put_u64(&mut self.bytes, at, value);
    }
}

/// Puts a byte.
#[inline]
fn put_u8(bytes: &mut Vec<u8>, at: usize, value: u8)
    requires { at + 1 ≤ length bytes.old.items }
    ensures value { bytes.new.items ≡ with_number bytes.old.items at 1 value }
    ensures size { length bytes.new.items ≡ length bytes.old.items }
{
    bytes[at] = value;
}

/// Puts a number of 2 bytes.
#[inline]
fn put_u16(bytes: &mut Vec<u8>, at: usize, value: u16)
    requires { at + 2 ≤ length bytes.old.items }
    ensures value { bytes.new.items ≡ with_number bytes.old.items at 2 value }
    ensures size { length bytes.new.items ≡ length bytes.old.items }
{
    let all = bytes.as_mut_slice();
    LittleEndian::write_u16(&mut all[at..], value);
}

/// Puts a number of 4 bytes.
#[inline]
fn put_u32(bytes: &mut Vec<u8>, at: usize, value: u32)
    requires { at + 4 ≤ length bytes.old.items }
    ensures value { bytes.new.items ≡ with_number bytes.old.items at 4 value }
    ensures size { length bytes.new.items ≡ length bytes.old.items }
{
    let all = bytes.as_mut_slice();
    LittleEndian::write_u32(&mut all[at..], value);
}

/// Puts a number of 8 bytes.
#[inline]
fn put_u64(bytes: &mut Vec<u8>, at: usize, value: u64)
    requires { at + 8 ≤ length bytes.old.items }
    ensures value { bytes.new.items ≡ with_number bytes.old.items at 8 value }
    ensures size { length bytes.new.items ≡ length bytes.old.items }
{
    let all = bytes.as_mut_slice();
    LittleEndian::write_u64(&mut all[at..], value);
}
