//! The disk in the machine: requests of guests, what breaks the disk, its reset, and its registers.

use super::play::{Guest, Line, Part, Reading, plays};
use super::{AVAILABLE, DESCRIPTOR, USED};
use guest_machine::PAGE_BYTES;
use std::alloc::Global;
use std::process::Abort;

/// The guest of one request: as the beacon, but for queue 0 of the disk, which has 4 descriptors. It notifies in step 23.
pub(super) const ONE_REQUEST: [u32; 24] = [
    0x100022b7, 0x00100313, 0x0662a823, 0x00300393, 0x0672a823, 0x0262a223, 0x0262a023, 0x00b00393,
    0x0672a823, 0x0702a403, 0x0202a823, 0x00400393, 0x0272ac23, 0x800013b7, 0x0872a023, 0x04038393,
    0x0872a823, 0x04038393, 0x0a72a023, 0x0462a223, 0x00f00393, 0x0672a823, 0x0402a823, 0x0000006f,
];

/// The place of the word that jumps to itself behind the notify.
pub(super) const BEHIND: usize = 4 * 23;

/// Where the request has its head, its status byte and its data.
pub(super) const HEAD: usize = 0x1100;

const STATUS: usize = 0x1110;

pub(super) const DATA: usize = 0x1200;

/// The head and the data, which the disk reads, and the status byte, which it writes.
pub(super) const CHAIN: [u32; 12] = [
    0x80001100, 0, 16, 0x00010001, 0x80001200, 0, 512, 0x00020001, 0x80001110, 0, 1, 0x00000002,
];

/// Places in the three descriptors: of a buffer's address, of its length, and of its flags and next.
const HEAD_LEN: usize = DESCRIPTOR + 8;

const HEAD_FLAGS: usize = DESCRIPTOR + 12;

const DATA_ADDRESS: usize = DESCRIPTOR + 16;

const DATA_LEN: usize = DESCRIPTOR + 16 + 8;

pub(super) const DATA_FLAGS: usize = DESCRIPTOR + 16 + 12;

const STATUS_LEN: usize = DESCRIPTOR + 32 + 8;

const STATUS_FLAGS: usize = DESCRIPTOR + 32 + 12;

/// Where the setup's word stands that adds 64 to the table's address for the available ring, and to that for the used ring.
const TO_AVAILABLE: usize = 4 * 15;

const TO_USED: usize = 4 * 17;

/// Types of requests (virtio 1.1, 5.2.6).
pub(super) const READ: u32 = 0;

pub(super) const WRITE: u32 = 1;

const FLUSH: u32 = 4;

/// The guest of one request: it writes sector 7 of a disk of 8 sectors, with 512 bytes 0xab.
pub(super) static REQUEST: Guest = Guest {
    pages: 2,
    sectors: 8,
    bytes: DATA + 512,
    parts: &[
        Part::Words(0, &ONE_REQUEST),
        Part::Words(DESCRIPTOR, &CHAIN),
        Part::Bytes(AVAILABLE, &[0, 0, 1, 0]),
        Part::Words(HEAD, &[WRITE, 0, 7, 0, 0xff]),
        Part::Sector(DATA, 0xab),
    ],
};

static WRITES: [Line; 17] = [
    Line::Run(22),
    Line::LastSector(0),
    Line::Written(&[]),
    Line::Bytes(STATUS, &[0xff]),
    Line::Run(1),
    Line::LastSector(0xab),
    Line::Written(&[7]),
    Line::Bytes(STATUS, &[0]),
    Line::Used(1),
    Line::Is(Reading::DiskStatus, 0x0f),
    Line::Is(Reading::DiskInterrupt, 1),
    Line::BootCard,
    Line::Is(Reading::Frames, 0),
    // a settle leaves the disk as it is
    Line::Settle,
    Line::Written(&[]),
    Line::LastSector(0xab),
    Line::Is(Reading::DiskInterrupt, 1),
];

#[test]
fn a_sector_is_written_in_step_23(rt: HostRuntime) {
    plays(&rt, rt.alloc(), &REQUEST, &[], &WRITES);
}

/// The guest's one request, with some parts changed, is answered by this status byte and this used length, and no sector is written.
fn answers(rt: &impl Abort, alloc: Global, changes: &[Part], status: u64, len: u16) {
    let lines = [
        Line::Run(23),
        Line::Is(Reading::Byte(STATUS), status),
        Line::Used(len),
        Line::LastSector(0),
        Line::Written(&[]),
        Line::Is(Reading::DiskStatus, 0x0f),
    ];
    plays(rt, alloc, &REQUEST, changes, &lines);
}

/// Requests by their type and sector, and the status byte that answers each.
static REQUESTS: [(u32, u32, u64); 6] = [
    (WRITE, 8, 1),
    (WRITE, 0xffff_ffff, 1),
    (FLUSH, 7, 0),
    (9, 7, 2),
    (READ, 8, 0),
    (READ, 9, 1),
];

#[test]
fn requests_are_answered_by_type_and_sector(rt: HostRuntime) {
    for (kind, sector, status) in &REQUESTS {
        let changes = [Part::Word(HEAD, *kind), Part::Word(HEAD + 8, *sector)];
        answers(&rt, rt.alloc(), &changes, *status, 1);
    }
}

/// Requests whose data has a wrong length, with the status byte and the used length that answer each.
static WRONG_LENGTHS: [(&[Part], u64, u16); 4] = [
    // a write of two sectors from the last on, from 2^64 - 1 on, where the sum wraps, and of 511 bytes
    (&[Part::Bytes(DATA_LEN, &[0, 4])], 1, 1),
    (
        &[
            Part::Bytes(DATA_LEN, &[0, 4]),
            Part::Bytes(HEAD + 8, &[0xff; 8]),
        ],
        1,
        1,
    ),
    (&[Part::Bytes(DATA_LEN, &[0xff, 1])], 1, 1),
    // a read of 513 bytes writes the status byte alone, which isn't the first of its places
    (
        &[
            Part::Word(HEAD, READ),
            Part::Bytes(DATA_LEN, &[1, 2]),
            Part::Bytes(DATA_FLAGS, &[3]),
        ],
        1,
        0,
    ),
];

#[test]
fn data_of_wrong_lengths_are_refused(rt: HostRuntime) {
    for (changes, status, len) in &WRONG_LENGTHS {
        answers(&rt, rt.alloc(), changes, *status, *len);
    }
}

/// A read, into data that the disk may write.
static TO_READ: [Part; 2] = [
    Part::Word(HEAD, READ),
    // NEXT and WRITE
    Part::Bytes(DATA_FLAGS, &[3]),
];

static READS: [Line; 5] = [
    Line::Run(23),
    Line::Bytes(DATA, &[0; 512]),
    Line::Bytes(STATUS, &[0]),
    Line::Used(513),
    Line::Written(&[]),
];

#[test]
fn a_sector_is_read(rt: HostRuntime) {
    plays(&rt, rt.alloc(), &REQUEST, &TO_READ, &READS);
}

/// The head lies in two buffers, of 5 bytes and of 11.
static TWO_BUFFERS: [Part; 1] = [Part::Words(
    DESCRIPTOR,
    &[
        0x80001100, 0, 5, 0x00030001, 0x80001200, 0, 512, 0x00020001, 0x80001110, 0, 1, 0x00000002,
        0x80001105, 0, 11, 0x00010001,
    ],
)];

static WRITES_ALL_THE_SAME: [Line; 4] = [
    Line::Run(23),
    Line::LastSector(0xab),
    Line::Bytes(STATUS, &[0]),
    Line::Used(1),
];

#[test]
fn a_head_may_lie_in_two_buffers(rt: HostRuntime) {
    plays(
        &rt,
        rt.alloc(),
        &REQUEST,
        &TWO_BUFFERS,
        &WRITES_ALL_THE_SAME,
    );
}

/// The disk is broken in step 23: Status 0x4f, InterruptStatus 2, no used entry, no answer and no sector written; and nothing of
/// the network card is changed.
static BREAKS: [Line; 9] = [
    Line::Run(23),
    Line::Is(Reading::DiskStatus, 0x4f),
    Line::Is(Reading::DiskInterrupt, 2),
    Line::Is(Reading::Number(USED + 2), 0),
    Line::Bytes(STATUS, &[0xff]),
    Line::LastSector(0),
    Line::Written(&[]),
    Line::BootCard,
    Line::Is(Reading::Frames, 0),
];

/// Malformed rings.
static RINGS: [&[Part]; 5] = [
    // ADDI x7, x7, 65 and back: the available ring's address is odd; ADDI x7, x7, 66: the used ring's isn't a multiple of 4
    &[
        Part::Word(TO_AVAILABLE, 0x04138393),
        Part::Word(TO_USED, 0x03f38393),
    ],
    &[Part::Word(TO_USED, 0x04238393)],
    // LUI x7, 0x80002: the rings lie behind memory
    &[Part::Word(4 * 13, 0x800023b7)],
    // 65 available, and ring entry 4 of a queue of 4
    &[Part::Word(AVAILABLE, 0x0041_0000)],
    &[Part::Word(AVAILABLE + 4, 4)],
];

#[test]
fn malformed_rings_break_the_disk(rt: HostRuntime) {
    for changes in &RINGS {
        plays(&rt, rt.alloc(), &REQUEST, changes, &BREAKS);
    }
}

/// Malformed requests.
static CHAINS: [&[Part]; 10] = [
    // a next of 4, and INDIRECT
    &[Part::Word(HEAD_FLAGS, 0x00040001)],
    &[Part::Word(HEAD_FLAGS, 0x00010005)],
    // data that end a byte behind memory
    &[Part::Word(DATA_ADDRESS, 0x8000_1e01)],
    // the status byte before the head and the data, and a head that the disk may write
    &[
        Part::Word(AVAILABLE + 4, 2),
        Part::Word(STATUS_FLAGS, 3),
        Part::Word(DATA_FLAGS, 0),
    ],
    &[Part::Word(HEAD_FLAGS, 0x00010003)],
    // chains that come back to the head, and to the status byte
    &[Part::Word(DATA_FLAGS, 1)],
    &[Part::Word(STATUS_FLAGS, 0x00020003)],
    // 15 bytes of head and no data, no place for the status byte, and one of no bytes
    &[Part::Word(HEAD_LEN, 15), Part::Word(DATA_LEN, 0)],
    &[Part::Word(STATUS_FLAGS, 0)],
    &[Part::Word(STATUS_LEN, 0)],
];

#[test]
fn malformed_requests_break_the_disk(rt: HostRuntime) {
    for changes in &CHAINS {
        plays(&rt, rt.alloc(), &REQUEST, changes, &BREAKS);
    }
}

/// Ring entry 4 of a queue of 4. What stands behind the notify mends it, notifies again, and then resets the disk and sets it up
/// anew.
static MEND_AND_RESET: [Part; 2] = [
    Part::Bytes(AVAILABLE + 4, &[4]),
    Part::Words(
        BEHIND,
        &[
            0x00001497, // AUIPC x9, 1: x9 is 0x8000105c
            0xfe049423, // SH x0, -24(x9): ring entry 0
            0x0402a823, // SW x0, 0x50(x5): notify
            0x0602a823, // SW x0, 0x70(x5): Status
            0xf99ff06f, // JAL x0, -104: to the second word
        ],
    ),
];

static SERVES_AGAIN: [Line; 10] = [
    Line::Run(26),
    Line::Is(Reading::Number(AVAILABLE + 4), 0),
    Line::Is(Reading::DiskStatus, 0x4f),
    Line::LastSector(0),
    Line::Run(1),
    Line::BootDisk,
    Line::Run(23),
    Line::Is(Reading::DiskStatus, 0x0f),
    Line::LastSector(0xab),
    Line::Used(1),
];

#[test]
fn a_broken_disk_serves_nothing_until_its_reset(rt: HostRuntime) {
    plays(&rt, rt.alloc(), &REQUEST, &MEND_AND_RESET, &SERVES_AGAIN);
}

/// SW x0, 0x70(x5): Status
static RESET: [Part; 1] = [Part::Words(BEHIND, &[0x0602a823])];

static SECTORS_STAY: [Line; 4] = [
    Line::Run(24),
    Line::BootDisk,
    Line::LastSector(0xab),
    Line::Written(&[7]),
];

#[test]
fn a_reset_leaves_the_sectors(rt: HostRuntime) {
    plays(&rt, rt.alloc(), &REQUEST, &RESET, &SECTORS_STAY);
}

/// A guest of 8 sectors that reads the registers.
static REGISTERS: Guest = Guest {
    pages: 2,
    sectors: 8,
    bytes: PAGE_BYTES,
    parts: &[Part::Words(0, &READS_REGISTERS)],
};

const READS_REGISTERS: [u32; 20] = [
    0x100020b7, // LUI x1, 0x10002
    0x0000a103, // LW x2, 0x0(x1): Magic
    0x0040a183, // LW x3, 0x4(x1): Version
    0x0080a203, // LW x4, 0x8(x1): DeviceID
    0x00c0a283, // LW x5, 0xc(x1): VendorID
    0x0100a303, // LW x6, 0x10(x1): DeviceFeatures
    0x0340a383, // LW x7, 0x34(x1): QueueNumMax
    0x0700a403, // LW x8, 0x70(x1): Status
    0x1000b483, // LD x9, 0x100(x1): the capacity
    0x10008503, // LB x10, 0x100(x1)
    0x10209583, // LH x11, 0x102(x1)
    0x1040a603, // LW x12, 0x104(x1)
    0x1080b683, // LD x13, 0x108(x1)
    0x00100713, // ADDI x14, x0, 1
    0x00e0aa23, // SW x14, 0x14(x1): DeviceFeaturesSel
    0x0100a783, // LW x15, 0x10(x1): DeviceFeatures
    0x02e0a823, // SW x14, 0x30(x1): QueueSel
    0x0340a803, // LW x16, 0x34(x1): QueueNumMax
    0x10e0b023, // SD x14, 0x100(x1): ignored
    0x1000b883, // LD x17, 0x100(x1): the capacity
];

static REGISTERS_READ: [Line; 3] = [
    Line::Run(20),
    Line::Registers(
        2,
        &[0x74726976, 2, 2, 0, 0x200, 64, 0, 8, 8, 0, 0, 0, 1, 1, 0, 8],
    ),
    Line::Is(Reading::Mcause, 0),
];

#[test]
fn registers_of_the_disk_are_read(rt: HostRuntime) {
    plays(&rt, rt.alloc(), &REGISTERS, &[], &REGISTERS_READ);
}
