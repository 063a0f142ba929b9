//! A driver's requests to a disk of 8 sectors, in a RAM of 4096 bytes: a queue of 4 descriptors at its start, the available
//! ring at 0x40, the used ring at 0x80, the header at 0x100, the status byte at 0x110 and the data from 0x200 on. A test is a list of
//! lines, which one function plays, with the disk and the RAM in boxes: a long test that holds them by value is slow to prove.

ghost use Rattle.std.specs.Prelude.{◌<◌};

use crate::asserts::{holds, holds_at};
use block_device::{Disk, DiskError};
use memory_wanted::reserve;
use std::alloc::Global;
use std::process::Abort;
use virtio_mmio::{Action, DeviceState};
use virtqueue::{GuestRam, PlainRam};

/// What a driver stores to start the device: features, the queue, DRIVER_OK.
const START: [(u64, u64); 10] = [
    (0x070, 3),
    (0x024, 1),
    (0x020, 1),
    (0x070, 11),
    (0x038, 4),
    (0x080, 0x8000_0000),
    (0x090, 0x8000_0040),
    (0x0a0, 0x8000_0080),
    (0x044, 1),
    (0x070, 15),
];

fn start(disk: &mut Disk) {
    for (offset, value) in &START {
        let _ = disk.store(*offset, 4, *value);
    }
}

const NEXT: u8 = 1;

const WRITE: u8 = 2;

/// Puts a descriptor of a buffer at a place of RAM into the table.
fn put_descriptor(ram: &mut PlainRam, index: usize, place: u16, len: u16, flags: u8, next: u8)
    requires { index < 4 }
{
    let at = place.to_le_bytes();
    let count = len.to_le_bytes();
    let descriptor = &mut ram.bytes[16 * index..16 * index + 16];
    descriptor.copy_from_slice(&[
        at[0], at[1], 0, 0x80, 0, 0, 0, 0, count[0], count[1], 0, 0, flags, 0, next, 0,
    ]);
}

/// RAM with the descriptors of a request: its header, `len` data bytes in a buffer of these flags, and its status byte.
fn request(len: u16, flags: u8, byte: u8) -> PlainRam {
    let mut ram = PlainRam {
        bytes: [byte; 4096],
    };
    ram.write(0, &[0; 0x110]);
    put_descriptor(&mut ram, 0, 0x100, 16, NEXT, 1);
    put_descriptor(&mut ram, 1, 0x200, len, flags | NEXT, 2);
    put_descriptor(&mut ram, 2, 0x110, 1, WRITE, 0);
    ram
}

/// Has the disk serve its `count`th request, of this type and sector; answers the status byte.
fn ask(disk: &mut Disk, ram: &mut PlainRam, count: u8, kind: u8, sector: u64) -> u8 {
    ram.bytes[0x100] = kind;
    ram.bytes[0x104] = 9;
    ram.bytes[0x108..0x110].copy_from_slice(&sector.to_le_bytes());
    ram.bytes[0x110] = 0xff;
    ram.bytes[0x42] = count;
    disk.serve(ram);
    ram.bytes[0x110]
}

/// The types of requests that read and that write.
const READS: u8 = 0;

const WRITES: u8 = 1;

/// A line of a test: what is done with the disk and the RAM, or what they then have.
#[derive(Clone, Copy)]
enum Line {
    /// RAM has the descriptors of a request, whose buffer has so many bytes and these flags, and else this byte.
    Request(u16, u8, u8),
    /// The descriptor at this index is of so many bytes at a place, with these flags and this next.
    Descriptor(usize, u16, u16, u8, u8),
    /// The used ring has had so many entries.
    UsedBefore(u8),
    /// The disk serves so many requests, the last of this type and sector, which gets this status byte.
    Served(u8, u8, u64, u8),
    /// An entry of the used ring, the first or the second: head 0, and how many bytes were written.
    Used(usize, u16),
    /// The used ring's idx.
    UsedIndex(u8),
    /// So many bytes of data are all this one.
    Data(usize, u8),
    /// A sector has this byte everywhere, and counts as blank where that is 0.
    Sector(u32, u8),
    /// How many sectors the disk has.
    Sectors(u32),
    /// The sectors that were written since the last settle.
    Written(&'static [u32]),
    /// What Status and InterruptStatus are.
    Status(u64, u64),
    Settle,
    /// A load from the disk's registers.
    Load(u64, u8, Option<u64>),
    /// What a store of 4 bytes makes the disk do.
    Store(u64, u64, Action),
    /// The state of a device as at boot is put back, and read again.
    PutBack,
}

/// A disk of 8 sectors at boot.
fn booted(rt: &impl Abort, alloc: Global) -> Box<Disk> {
    let disk = Disk::boot(alloc, 8).expect(rt, "memory for the disk");
    Box::new(alloc, disk).ok().expect(rt, "memory for its box")
}

/// A RAM of zeros.
fn empty_ram(rt: &impl Abort, alloc: Global) -> Box<PlainRam> {
    Box::new(alloc, PlainRam::new())
        .ok()
        .expect(rt, "memory for the RAM")
}

/// Plays the lines with a disk at boot.
fn plays_at_boot(rt: &impl Abort, alloc: Global, lines: &[Line]) {
    let mut disk = booted(rt, alloc);
    let mut ram = empty_ram(rt, alloc);
    play(rt, &mut disk, &mut ram, lines);
}

/// Plays the lines with a disk whose driver is ready.
fn plays(rt: &impl Abort, alloc: Global, lines: &[Line]) {
    let mut disk = booted(rt, alloc);
    start(&mut disk);
    let mut ram = empty_ram(rt, alloc);
    play(rt, &mut disk, &mut ram, lines);
}

/// Plays the lines. The message of a line that fails has its place, counted from 0.
fn play(rt: &impl Abort, disk: &mut Disk, ram: &mut PlainRam, lines: &[Line]) {
    for (at, line) in lines.iter().enumerate() {
        play_line(rt, disk, ram, line, at);
    }
}

fn play_line(rt: &impl Abort, disk: &mut Disk, ram: &mut PlainRam, line: &Line, at: usize) {
    holds_at(rt, "line", at, does(rt, disk, ram, line));
}

/// Does what a line says, or compares. Says whether it is as the line says.
fn does(rt: &impl Abort, disk: &mut Disk, ram: &mut PlainRam, line: &Line) -> bool {
    match *line {
        Line::Request(len, flags, byte) => put_request(ram, len, flags, byte),
        Line::Descriptor(index, place, len, flags, next) => {
            put_one(ram, index, place, len, flags, next)
        }
        Line::UsedBefore(count) => put_used(ram, count),
        Line::Served(count, kind, sector, status) => {
            ask(disk, ram, count, kind, sector) == status
        }
        Line::Settle => settle(disk),
        Line::Store(offset, value, action) => disk.store(offset, 4, value) == Some(action),
        Line::PutBack => is_put_back(disk),
        _ => has(disk, ram, line),
    }
}

fn put_request(ram: &mut PlainRam, len: u16, flags: u8, byte: u8) -> bool {
    *ram = request(len, flags, byte);
    true
}

fn put_one(ram: &mut PlainRam, index: usize, place: u16, len: u16, flags: u8, next: u8) -> bool {
    if index < 4 {
        put_descriptor(ram, index, place, len, flags, next);
    }
    index < 4
}

fn put_used(ram: &mut PlainRam, count: u8) -> bool {
    ram.bytes[0x80..0x84].copy_from_slice(&[0, 0, count, 0]);
    true
}

fn settle(disk: &mut Disk) -> bool {
    disk.settle();
    true
}

fn is_put_back(disk: &mut Disk) -> bool {
    let state = disk.state();
    disk.put_state(&state);
    state == DeviceState::boot() && disk.state() == state
}

/// Says whether disk and RAM have what a line says.
fn has(disk: &Disk, ram: &PlainRam, line: &Line) -> bool {
    match *line {
        Line::Used(entry, len) => has_used(ram, entry, len),
        Line::UsedIndex(count) => ram.bytes[0x82] == count,
        Line::Data(len, byte) => has_data(ram, len, byte),
        Line::Sector(sector, byte) => has_sector(disk, sector, byte),
        Line::Sectors(count) => disk.sectors() == count,
        Line::Written(sectors) => disk.dirty_sectors() == sectors,
        Line::Status(status, interrupt) => has_status(disk, status, interrupt),
        Line::Load(offset, width, value) => disk.load(offset, width) == value,
        _ => false,
    }
}

fn has_used(ram: &PlainRam, entry: usize, len: u16) -> bool {
    let [low, high] = len.to_le_bytes();
    let found = if entry == 0 {
        &ram.bytes[0x84..0x8c]
    } else {
        &ram.bytes[0x8c..0x94]
    };
    entry < 2 && found == [0, 0, 0, 0, low, high, 0, 0].as_slice()
}

fn has_data(ram: &PlainRam, len: usize, byte: u8) -> bool {
    let Some(found) = ram.bytes[0x200..].get(..len) else {
        return false;
    };
    for one in found {
        if *one != byte {
            return false;
        }
    }
    true
}

fn has_sector(disk: &Disk, sector: u32, byte: u8) -> bool {
    sector < disk.sectors()
        && disk.sector(sector).as_slice() == [byte; 512].as_slice()
        && disk.blank(sector) == (byte == 0)
}

fn has_status(disk: &Disk, status: u64, interrupt: u64) -> bool {
    disk.load(0x070, 4) == Some(status)
        && disk.load(0x060, 4) == Some(interrupt)
        && u64::from(disk.interrupt_status()) == interrupt
}

static WRITTEN_AND_READ: [Line; 16] = [
    Line::Request(512, 0, 0xab),
    Line::Served(1, WRITES, 7, 0),
    Line::Used(0, 1),
    Line::Sectors(8),
    Line::Sector(7, 0xab),
    Line::Sector(6, 0),
    Line::Written(&[7]),
    Line::Status(15, 1),
    Line::Settle,
    Line::Written(&[]),
    // the second request of the driver reads it
    Line::Request(512, WRITE, 0),
    Line::UsedBefore(1),
    Line::Served(2, READS, 7, 0),
    Line::Used(1, 513),
    Line::Data(512, 0xab),
    Line::Written(&[]),
];

#[test]
fn a_sector_is_written_and_read(rt: HostRuntime) {
    plays(&rt, rt.alloc(), &WRITTEN_AND_READ);
}

static OUT_OF_RANGE: [Line; 12] = [
    Line::Request(512, 0, 0xab),
    Line::Served(1, WRITES, 8, 1),
    Line::Used(0, 1),
    Line::Served(2, 4, 7, 0),
    Line::Served(3, 9, 7, 2),
    Line::Request(1024, 0, 0xab),
    Line::Served(4, WRITES, 7, 1),
    Line::Served(5, WRITES, u64::MAX, 1),
    Line::Written(&[]),
    Line::Sectors(8),
    Line::Sector(7, 0),
    Line::Load(0x070, 4, Some(15)),
];

#[test]
fn requests_out_of_range_change_nothing(rt: HostRuntime) {
    plays(&rt, rt.alloc(), &OUT_OF_RANGE);
}

static NO_BYTES: [Line; 5] = [
    Line::Request(0, WRITE, 0),
    Line::Served(1, READS, 8, 0),
    Line::Used(0, 1),
    Line::Served(2, READS, 9, 1),
    Line::Used(1, 1),
];

#[test]
fn no_bytes_can_be_read_at_the_end(rt: HostRuntime) {
    plays(&rt, rt.alloc(), &NO_BYTES);
}

static FAILED_READ: [Line; 4] = [
    Line::Request(513, WRITE, 0x55),
    Line::Served(1, READS, 0, 1),
    Line::Used(0, 0),
    Line::Data(513, 0x55),
];

#[test]
fn a_failed_read_writes_only_its_status(rt: HostRuntime) {
    plays(&rt, rt.alloc(), &FAILED_READ);
}

static RISING: [Line; 9] = [
    Line::Request(1024, 0, 1),
    Line::Served(1, WRITES, 5, 0),
    Line::Served(2, WRITES, 1, 0),
    Line::Served(3, WRITES, 4, 0),
    Line::Served(4, WRITES, 1, 0),
    Line::Written(&[1, 2, 4, 5, 6]),
    Line::Settle,
    Line::Served(5, WRITES, 1, 0),
    Line::Written(&[1, 2]),
];

#[test]
fn written_sectors_rise(rt: HostRuntime) {
    plays(&rt, rt.alloc(), &RISING);
}

/// The first request breaks the disk, and its status byte stays as it was.
static SHORT: [Line; 5] = [
    Line::Request(0, 0, 0),
    Line::Descriptor(0, 0x100, 15, NEXT, 1),
    Line::Served(1, WRITES, 0, 0xff),
    Line::Status(0x4f, 2),
    Line::UsedIndex(0),
];

static NO_PLACE: [Line; 5] = [
    Line::Request(512, 0, 0),
    Line::Descriptor(2, 0x110, 0, WRITE, 0),
    Line::Served(1, WRITES, 0, 0xff),
    Line::Status(0x4f, 2),
    Line::UsedIndex(0),
];

static ORDER: [Line; 5] = [
    Line::Request(512, WRITE, 0),
    Line::Descriptor(2, 0x110, 1, 0, 0),
    Line::Served(1, READS, 0, 0xff),
    Line::Status(0x4f, 2),
    Line::UsedIndex(0),
];

#[test]
fn malformed_requests_break_the_disk(rt: HostRuntime) {
    plays(&rt, rt.alloc(), &SHORT);
    plays(&rt, rt.alloc(), &NO_PLACE);
    plays(&rt, rt.alloc(), &ORDER);
}

static REGISTERS: [Line; 7] = [
    Line::Load(0x008, 4, Some(2)),
    Line::Load(0x010, 4, Some(0x200)),
    Line::Load(0x100, 8, Some(8)),
    Line::Load(0x008, 8, None),
    Line::Store(0x050, 0, Action::Notify(0)),
    Line::Store(0x050, 1, Action::None),
    Line::PutBack,
];

#[test]
fn registers_are_a_block_devices(rt: HostRuntime) {
    plays_at_boot(&rt, rt.alloc(), &REGISTERS);
}

#[test]
fn a_refusal_has_its_number_and_name(rt: HostRuntime) {
    let wanted = reserve(&mut Vec::<u64>::new(rt.alloc()), usize::MAX).expect_err(
        &rt,
        "no machine has that much",
    );
    let error = DiskError::from(wanted);
    holds(&rt, "the number", error.number() == 12);
    holds(&rt, "the name", error.name() == "NoMemory");
    assert_text(&rt, rt.alloc(), &error, "NoMemory");
}

fn assert_text(rt: &impl Abort, alloc: Global, error: &DiskError, wanted: &str) {
    let text = format!(in alloc; "{error}").expect(rt, "memory for the text");
    holds(rt, "the text", text.as_str() == wanted);
}
