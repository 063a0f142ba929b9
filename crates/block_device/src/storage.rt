//! The sectors of a disk in memory.
ghost use Rattle.std.specs.Prelude.{◌≡◌, ◌+◌, ◌-◌, ◌*◌, ◌/◌, ◌<◌, ◌≤◌, ◌↔◌, All, IfOk, IsTrue, [], drop, length};
ghost use Rattle.virtqueue.specs.Chains.{BuffersInside};
ghost use Rattle.virtqueue.specs.Memory.{written};
ghost use Rattle.virtqueue.specs.Parts.{readable_len, writable_len, readable_bytes, writable_places, put_at};
ghost use Rattle.block_device.specs.Contents.{capacity, sector_at, boot_contents, in_capacity, bytes_at, contents_with, IsDisk};
ghost use Rattle.block_device.specs.Dirty.{Rises};
ghost use Rattle.block_device.specs.Limits.{most_sectors};

use crate::dirty::SectorSet;
use memory_wanted::{MemoryWanted, resize, with_capacity};
use page_lanes::is_zero;
use std::alloc::Global;
use std::marker::Model;
use virtqueue::{Chain, GuestRam, Queue};

/// Bytes in a sector (virtio 1.1, 5.2.4).
pub const SECTOR_BYTES: usize = 512;

/// The sectors of a disk, and which of them were written since the list of these was last emptied.
#[derive(Drop)]
pub(crate) struct Storage {
    bytes: Vec<u8>,
    dirty: SectorSet,
}

impl Model for Storage {
    ghost use Rattle.std.specs.Prelude.{◌≡◌};
    ghost use Rattle.block_device.specs.Contents.{Contents, IsDisk, capacity, contents_of};

    ghost Value = { Contents };

    ghost view = { λ s. contents_of s.bytes.items s.dirty.list };

    ghost invariant = { λ s. IsDisk (contents_of s.bytes.items s.dirty.list)
        × (s.dirty.room ≡ capacity (contents_of s.bytes.items s.dirty.list)) };
}

impl Storage {
    /// So many sectors, all bytes 0, none of them written.
    pub(crate) fn boot(alloc: Global, sectors: u32) -> Result<Storage, MemoryWanted>
        requires some { 1 ≤ sectors }
        requires most { sectors ≤ most_sectors }
        ensures { IfOk result (λ storage. storage ≡ boot_contents sectors) }
    {
        let size = SECTOR_BYTES * sectors as usize;
        let mut bytes = with_capacity(alloc, size)?;
        resize(&mut bytes, size, 0)?;
        let dirty = SectorSet::boot(alloc, sectors)?;
        Ok(Storage { bytes, dirty })
    }

    /// How many sectors there are: 1 to 32768.
    pub(crate) fn sectors(&self) -> u32
        ensures value { result ≡ capacity self.now }
        ensures least { 1 ≤ result }
        ensures most { result ≤ most_sectors }
        ensures disk { IsDisk self.now }
    {
        (self.bytes.len() / SECTOR_BYTES) as u32
    }

    /// The 512 bytes of a sector.
    pub(crate) fn sector(&self, sector: u32) -> &[u8; SECTOR_BYTES]
        requires { sector < capacity self.now }
        ensures { result.now ≡ sector_at self.now sector }
    {
        let start = SECTOR_BYTES * sector as usize;
        as_sector(&self.bytes[start..start + SECTOR_BYTES])
    }

    /// Whether each byte of a sector is 0.
    pub(crate) fn blank(&self, sector: u32) -> bool
        requires { sector < capacity self.now }
        ensures { IsTrue result ↔ All (λ b. b ≡ 0) (sector_at self.now sector) }
    {
        is_zero(self.sector(sector))
    }

    /// The sectors that were written since the list was last emptied, in rising order.
    pub(crate) fn dirty(&self) -> &[u32]
        ensures value { result.now ≡ self.now.dirty }
        ensures rises { Rises 0 (capacity self.now) result.now }
    {
        self.dirty.list()
    }

    /// Empties the list of the written sectors.
    pub(crate) fn settle(&mut self)
        ensures { self.new ≡ record self.old { dirty = [] } }
    {
        self.dirty.clear();
    }

    /// Puts other bytes in the place of a sector's, and puts it into the list of the written ones.
    pub(crate) fn put_sector(&mut self, sector: u32, bytes: &[u8; SECTOR_BYTES])
        requires { sector < capacity self.old }
        ensures { self.new ≡ contents_with self.old sector bytes.now }
    {
        let start = SECTOR_BYTES * sector as usize;
        put(&mut self.bytes, start, bytes);
        self.dirty.mark(sector, 1);
    }

    /// Whether so many bytes from a sector on are whole sectors of the disk.
    pub(crate) fn in_capacity(&self, sector: u64, len: u64) -> bool
        ensures { result ≡ in_capacity self.now sector len }
    {
        let sectors = u64::from(self.sectors());
        len % 512 == 0 && sector <= sectors && len / 512 <= sectors - sector
    }

    /// Where a sector begins from which so many bytes are whole sectors of the disk.
    fn start_of(&self, sector: u64, len: u64) -> usize
        requires { IsTrue (in_capacity self.now sector len) }
        ensures start { result ≡ 512 * sector }
        ensures fits { result + len ≤ length self.now.bytes }
        ensures whole { 512 * (len / 512) ≡ len }
        ensures few { sector + len / 512 ≤ 32768 }
        ensures within { sector + len / 512 ≤ capacity self.now }
    {
        let _sectors = self.sectors();
        SECTOR_BYTES * sector as usize
    }

    /// Copies so many bytes from a sector on into a chain's writable buffers, from the first place on.
    pub(crate) fn read<R: GuestRam>(&self, ram: &mut R, chain: &Chain, sector: u64, len: u64)
        requires whole { IsTrue (in_capacity self.now sector len) }
        requires inside { BuffersInside (length (R.bytes ram.old)) chain.now.parts }
        requires fits { len ≤ writable_len chain.now.parts }
        ensures value { R.bytes ram.new ≡ put_at (R.bytes ram.old) (writable_places chain.now.parts) (bytes_at self.now sector len) }
        ensures size { length (R.bytes ram.new) ≡ length (R.bytes ram.old) }
        ensures fixed { R.fixed ram.new ≡ R.fixed ram.old }
        ensures len { length (bytes_at self.now sector len) ≡ len }
        ensures few { len ≤ 512 * 32768 }
    {
        let start = self.start_of(sector, len);
        let end = start + len as usize;
        Queue::scatter(chain, ram, 0, &self.bytes[start..end]);
    }

    /// Copies the bytes of a chain's readable buffers, from the one at `at` on, to so many bytes from a sector on, and puts these
    /// sectors into the list of the written ones.
    pub(crate) fn write<R: GuestRam>(
        &mut self,
        ram: &R,
        chain: &Chain,
        at: u64,
        sector: u64,
        len: u64,
    )
        requires whole { IsTrue (in_capacity self.old sector len) }
        requires inside { BuffersInside (length (R.bytes ram.now)) chain.now.parts }
        requires all { at + len ≡ readable_len chain.now.parts }
        ensures { self.new ≡ contents_with self.old sector (drop at (readable_bytes (R.bytes ram.now) chain.now.parts)) }
    {
        let start = self.start_of(sector, len);
        gather_at(&mut self.bytes, start, len as usize, ram, chain, at);
        self.dirty.mark(sector as u32, (len / 512) as u32);
    }
}

/// Puts a sector's bytes in the place of those from one on.
fn put(bytes: &mut Vec<u8>, start: usize, new: &[u8; SECTOR_BYTES])
    requires { start + 512 ≤ length bytes.old.items }
    ensures items { bytes.new.items ≡ written bytes.old.items start new.now }
    ensures size { length bytes.new.items ≡ length bytes.old.items }
{
    bytes[start..start + SECTOR_BYTES].copy_from_slice(new);
}

/// A sector's bytes as an array.
fn as_sector(bytes: &[u8]) -> &[u8; SECTOR_BYTES]
    requires { length bytes.now ≡ 512 }
    ensures { result.now ≡ bytes.now }
{
    let Ok(sector) = <&[u8; SECTOR_BYTES]>::try_from(bytes) else {
        unreachable!()
    };
    sector
}

/// Copies the bytes of a chain's readable buffers, from the one at `at` on, to the `len` places from `start` on.
fn gather_at<R: GuestRam>(
    bytes: &mut Vec<u8>,
    start: usize,
    len: usize,
    ram: &R,
    chain: &Chain,
    at: u64,
)
    requires within { start + len ≤ length bytes.old.items }
    requires inside { BuffersInside (length (R.bytes ram.now)) chain.now.parts }
    requires all { at + len ≡ readable_len chain.now.parts }
    ensures items { bytes.new.items ≡ written bytes.old.items start (drop at (readable_bytes (R.bytes ram.now) chain.now.parts)) }
    ensures count { length (drop at (readable_bytes (R.bytes ram.now) chain.now.parts)) ≡ len }
    ensures size { length bytes.new.items ≡ length bytes.old.items }
{
    gather_part(bytes.as_mut_slice(), start, len, ram, chain, at);
}

/// The same at a slice.
fn gather_part<R: GuestRam>(
    places: &mut [u8],
    start: usize,
    len: usize,
    ram: &R,
    chain: &Chain,
    at: u64,
)
    requires within { start + len ≤ length places.old }
    requires inside { BuffersInside (length (R.bytes ram.now)) chain.now.parts }
    requires all { at + len ≡ readable_len chain.now.parts }
    ensures value { places.new ≡ written places.old start (drop at (readable_bytes (R.bytes ram.now) chain.now.parts)) }
    ensures count { length (drop at (readable_bytes (R.bytes ram.now) chain.now.parts)) ≡ len }
{
    Queue::gather(chain, ram, at, &mut places[start..start + len]);
}
