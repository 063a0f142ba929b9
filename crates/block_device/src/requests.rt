//! The requests that a driver puts into the disk's queue (virtio 1.1, 5.2.6).
ghost use Rattle.std.specs.Prelude.{◌≡◌, ◌+◌, ◌-◌, ◌*◌, ◌≤◌, ◌<◌, ◌^◌, ◌==◌, if◌then◌else◌, length, drop};
ghost use Rattle.virtqueue.specs.Memory.{le32, le64};
ghost use Rattle.virtqueue.specs.Chains.{BuffersInside};
ghost use Rattle.virtqueue.specs.Parts.{readable_len, writable_len, readable_bytes, writable_places, put_at};
ghost use Rattle.block_device.specs.Request.{request_of, outcome, read_outcome, write_outcome, written_len, request_act};

use crate::storage::Storage;
use virtio_mmio::ChainHandler;
use virtqueue::{Broken, Chain, GuestRam, Queue};

/// How many bytes stand before the data of a request: le32 type, le32 reserved, le64 sector.
const HEADER_BYTES: u64 = 16;

/// Read sectors.
const IN: u32 = 0;

/// Write sectors.
const OUT: u32 = 1;

/// See to it that all that was written stays.
const FLUSH: u32 = 4;

/// The request was done.
const OK: u8 = 0;

/// Its range or its length is not one of this disk's.
const IOERR: u8 = 1;

/// Its type is not supported.
const UNSUPP: u8 = 2;

/// What a request asks, before its data.
#[derive(Clone, Copy)]
struct Header {
    kind: u32,
    sector: u64,
}

/// What a request did.
#[derive(Clone, Copy)]
struct Done {
    /// The status byte.
    status: u8,
    /// How many bytes were read from the disk into the first places of the chain.
    len: u32,
}

/// The header of a chain's request.
fn header_of<R: GuestRam>(chain: &Chain, ram: &R) -> Header
    requires inside { BuffersInside (length (R.bytes ram.now)) chain.now.parts }
    requires long { 16 ≤ readable_len chain.now.parts }
    ensures kind { result.kind ≡ (request_of (readable_bytes (R.bytes ram.now) chain.now.parts)).kind }
    ensures sector { result.sector ≡ (request_of (readable_bytes (R.bytes ram.now) chain.now.parts)).sector }
{
    let mut kind = [0; 4];
    Queue::gather(chain, ram, 0, &mut kind);
    let mut sector = [0; 8];
    Queue::gather(chain, ram, 8, &mut sector);
    Header {
        kind: u32::from_le_bytes(kind),
        sector: u64::from_le_bytes(sector),
    }
}

/// The used length: how many bytes were written from a chain's first place on without a gap, where `len` bytes of the `room`
/// before the status byte were.
fn used_len(room: u64, len: u32) -> u32
    requires { len < 2 ^ 32 - 1 }
    ensures { result ≡ (if len == room then room + 1 else len) }
{
    if u64::from(len) == room { len + 1 } else { len }
}

impl Storage {
    /// Reads sectors into the `room` first places of a chain.
    #[tactic(auto, using(virtqueue::specs::laws::Parts::put_none))]
    fn read_request<R: GuestRam>(&self, ram: &mut R, chain: &Chain, sector: u64, room: u64) -> Done
        requires inside { BuffersInside (length (R.bytes ram.old)) chain.now.parts }
        requires fits { room ≤ writable_len chain.now.parts }
        ensures status { result.status ≡ (read_outcome self.now sector room).status }
        ensures len { result.len ≡ length (read_outcome self.now sector room).payload }
        ensures few { result.len ≤ 512 * 32768 }
        ensures memory { R.bytes ram.new ≡ put_at (R.bytes ram.old) (writable_places chain.now.parts)
            (read_outcome self.now sector room).payload }
        ensures size { length (R.bytes ram.new) ≡ length (R.bytes ram.old) }
        ensures fixed { R.fixed ram.new ≡ R.fixed ram.old }
    {
        if !self.in_capacity(sector, room) {
            return Done {
                status: IOERR,
                len: 0,
            };
        }
        self.read(ram, chain, sector, room);
        Done {
            status: OK,
            len: room as u32,
        }
    }

    /// Writes the data of a request, `len` bytes, to the sectors from one on; answers the status.
    fn write_request<R: GuestRam>(&mut self, ram: &R, chain: &Chain, sector: u64, len: u64) -> u8
        requires inside { BuffersInside (length (R.bytes ram.now)) chain.now.parts }
        requires all { 16 + len ≡ readable_len chain.now.parts }
        ensures status { result ≡ (write_outcome self.old sector (drop 16 (readable_bytes (R.bytes ram.now) chain.now.parts))).status }
        ensures disk { self.new ≡ (write_outcome self.old sector (drop 16 (readable_bytes (R.bytes ram.now) chain.now.parts))).disk }
    {
        if !self.in_capacity(sector, len) {
            return IOERR;
        }
        self.write(ram, chain, HEADER_BYTES, sector, len);
        OK
    }

    /// Does what a request asks of the disk, and reads what it asks for into the `room` first places of its chain.
    #[tactic(auto, using(virtqueue::specs::laws::Parts::put_none))]
    fn carry_out<R: GuestRam>(
        &mut self,
        ram: &mut R,
        chain: &Chain,
        header: Header,
        len: u64,
        room: u64,
    ) -> Done
        requires inside { BuffersInside (length (R.bytes ram.old)) chain.now.parts }
        requires kind { header.kind ≡ (request_of (readable_bytes (R.bytes ram.old) chain.now.parts)).kind }
        requires sector { header.sector ≡ (request_of (readable_bytes (R.bytes ram.old) chain.now.parts)).sector }
        requires all { 16 + len ≡ readable_len chain.now.parts }
        requires fits { room ≤ writable_len chain.now.parts }
        ensures status { result.status ≡ (outcome self.old (request_of (readable_bytes (R.bytes ram.old) chain.now.parts)) room).status }
        ensures len { result.len ≡ length (outcome self.old (request_of (readable_bytes (R.bytes ram.old) chain.now.parts)) room).payload }
        ensures few { result.len ≤ 512 * 32768 }
        ensures disk { self.new ≡ (outcome self.old (request_of (readable_bytes (R.bytes ram.old) chain.now.parts)) room).disk }
        ensures memory { R.bytes ram.new ≡ put_at (R.bytes ram.old) (writable_places chain.now.parts)
            (outcome self.old (request_of (readable_bytes (R.bytes ram.old) chain.now.parts)) room).payload }
        ensures size { length (R.bytes ram.new) ≡ length (R.bytes ram.old) }
        ensures fixed { R.fixed ram.new ≡ R.fixed ram.old }
    {
        match header.kind {
            IN => self.read_request(ram, chain, header.sector, room),
            OUT => Done {
                status: self.write_request(ram, chain, header.sector, len),
                len: 0,
            },
            FLUSH => Done { status: OK, len: 0 },
            _ => Done {
                status: UNSUPP,
                len: 0,
            },
        }
    }
}

impl ChainHandler for Storage {
    ghost room = { λ _. 64 };

    ghost act = { request_act };

    #[tactic(auto, unfolding(crate::specs::Request::request_act))]
    fn act<R: GuestRam>(&mut self, ram: &mut R, chain: &Chain) -> Result<u32, Broken> {
        let readable = chain.readable_len();
        let writable = chain.writable_len();
        if readable < HEADER_BYTES || writable == 0 {
            return Err(Broken::Short);
        }
        let header = header_of(chain, ram);
        let room = writable - 1;
        let done = self.carry_out(ram, chain, header, readable - HEADER_BYTES, room);
        Queue::scatter(chain, ram, room, &[done.status]);
        Ok(used_len(room, done.len))
    }
}
