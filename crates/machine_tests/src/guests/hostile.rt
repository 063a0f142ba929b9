//! Malformed rings: each breaks its device, and nothing else, whether a notify or a frame that arrives meets it.

use super::disk::{CHAIN, DATA, HEAD, ONE_REQUEST, REQUEST, WRITE};
use super::network::FROM_CLIENT;
use super::play::{Guest, Line, Part, Reading, booted, play_named};
use super::{AVAILABLE, BEACON, BEACON_GUEST, BUFFER, DESCRIPTOR, FRAME, USED};
use crate::asserts::holds;
use guest_machine::{DeviceState, Machine, PAGE_BYTES};
use std::alloc::Global;
use std::process::Abort;

/// A guest whose ring is malformed: the name of the malformation, a place in its image, and the word that stands there. A place in the
/// first page is one of its program.
type Row = (&'static str, usize, u32);

/// Rows of the beacon. It has one descriptor, of 26 bytes.
static CARD: [Row; 8] = [
    // ADDI x7, x7, 65: the available ring's address is odd
    ("Misaligned", 4 * 14, 0x04138393),
    // LUI x7, 0x80002: the rings lie behind memory
    ("AreaOutside", 4 * 12, 0x800023b7),
    ("TooMany", 0x1040, 65 << 16),
    ("BadIndex", 0x1044, 1),
    ("Indirect", 0x100c, 4),
    ("Outside", 0x1000, 0x80001fe7),
    // NEXT, to itself
    ("Loop", 0x100c, 1),
    // WRITE
    ("Direction", 0x100c, 2),
];

/// Rows of the guest of one request. It has four descriptors.
static DISK: [Row; 2] = [
    // the head: NEXT and WRITE
    ("Order", 0x100c, 0x00010003),
    // no place for the status byte
    ("Short", 0x1028, 0),
];

/// Rows of a guest that receives. It has four descriptors, the first of 26 bytes that the card may write.
static RECEIVING: [Row; 9] = [
    ("Misaligned", 4 * 15, 0x04138393),
    ("AreaOutside", 4 * 13, 0x800023b7),
    ("TooMany", 0x1040, 65 << 16),
    ("BadIndex", 0x1044, 4),
    ("Indirect", 0x100c, 6),
    ("Outside", 0x1000, 0x80001fe7),
    // NEXT and WRITE, and then a buffer that the card may only read; or itself
    ("Order", 0x100c, 0x00010003),
    ("Loop", 0x100c, 3),
    ("Direction", 0x100c, 0),
];

#[derive(Clone, Copy)]
enum Device {
    Card,
    Disk,
}

impl Device {
    fn other(self) -> Device {
        match self {
            Device::Card => Device::Disk,
            Device::Disk => Device::Card,
        }
    }

    /// What it keeps.
    fn record(self, machine: &Machine) -> DeviceState {
        match self {
            Device::Card => machine.net(),
            Device::Disk => machine.disk(),
        }
    }

    /// A step that breaks it.
    fn breaks(self) -> &'static [Line] {
        match self {
            Device::Card => &CARD_BREAKS,
            Device::Disk => &DISK_BREAKS,
        }
    }
}

/// The next step breaks the card: Status 0x4f, InterruptStatus 2, used idx 0, no frame in the outbox, and no sector written.
static CARD_BREAKS: [Line; 7] = [
    Line::Run(1),
    Line::Is(Reading::CardStatus, 0x4f),
    Line::Is(Reading::CardInterrupt, 2),
    Line::Is(Reading::Number(USED + 2), 0),
    Line::Is(Reading::Frames, 0),
    Line::Written(&[]),
    Line::Blank,
];

/// The next step breaks the disk.
static DISK_BREAKS: [Line; 7] = [
    Line::Run(1),
    Line::Is(Reading::DiskStatus, 0x4f),
    Line::Is(Reading::DiskInterrupt, 2),
    Line::Is(Reading::Number(USED + 2), 0),
    Line::Is(Reading::Frames, 0),
    Line::Written(&[]),
    Line::Blank,
];

/// A device keeps this record.
fn assert_record(
    rt: &impl Abort,
    machine: &Machine,
    device: Device,
    record: &DeviceState,
    name: &str,
) {
    holds(rt, name, device.record(machine) == *record);
}

/// The step after so many breaks the device. What the other one keeps is as in the step before.
fn breaks(rt: &impl Abort, machine: &mut Machine, before: u64, device: Device, name: &str) {
    play_named(rt, machine, &[Line::Run(before)], name);
    let other = device.other().record(machine);
    play_named(rt, machine, device.breaks(), name);
    assert_record(rt, machine, device.other(), &other, name);
}

/// The row's guest breaks its device by its notify, which comes after so many steps.
fn breaks_alone(
    rt: &impl Abort,
    alloc: Global,
    guest: &Guest,
    (name, at, word): Row,
    before: u64,
    device: Device,
) {
    let mut machine = booted(rt, alloc, guest, &[Part::Word(at, word)]);
    breaks(rt, &mut machine, before, device, name);
}

#[test]
fn malformed_rings_break_their_device(rt: HostRuntime) {
    for row in &CARD {
        breaks_alone(&rt, rt.alloc(), &BEACON_GUEST, *row, 21, Device::Card);
    }
    for row in &DISK {
        breaks_alone(&rt, rt.alloc(), &REQUEST, *row, 22, Device::Disk);
    }
}

/// Where the device that is set up first has its rings: in the first page, behind the program.
const FIRST: usize = 0xc00;

/// Sets the disk up with those rings: the words of the guest of one request up to its notify, with a word that takes 1024 from
/// 0x80001000, which the LUI before it loaded (ADDI x7, x7, -1024).
const SETS_DISK_UP: [u32; 23] = [
    0x100022b7, 0x00100313, 0x0662a823, 0x00300393, 0x0672a823, 0x0262a223, 0x0262a023, 0x00b00393,
    0x0672a823, 0x0702a403, 0x0202a823, 0x00400393, 0x0272ac23, 0x800013b7, 0xc0038393, 0x0872a023,
    0x04038393, 0x0872a823, 0x04038393, 0x0a72a023, 0x0462a223, 0x00f00393, 0x0672a823,
];

/// Sets the card up so: the words of the beacon.
const SETS_CARD_UP: [u32; 22] = [
    0x100012b7, 0x00100313, 0x0662a823, 0x00300393, 0x0672a823, 0x0262a223, 0x0262a023, 0x00b00393,
    0x0672a823, 0x0702a403, 0x0262a823, 0x0262ac23, 0x800013b7, 0xc0038393, 0x0872a023, 0x04038393,
    0x0872a823, 0x04038393, 0x0a72a023, 0x0462a223, 0x00f00393, 0x0672a823,
];

/// The beacon behind the setup of the disk, with a request that writes sector 0, which is notified last.
static DISK_FIRST: Guest = Guest {
    pages: 2,
    sectors: 1,
    bytes: 2 * PAGE_BYTES,
    parts: &[
        Part::Words(0, &SETS_DISK_UP),
        Part::Words(4 * 23, &BEACON),
        // LUI x5, 0x10002; SW x0, 0x50(x5): notify; JAL x0, 0
        Part::Words(4 * (23 + 22), &[0x100022b7, 0x0402a823, 0x0000006f]),
        Part::Words(
            FIRST,
            &[
                0x80000d00, 0, 16, 0x00010001, 0x80000e00, 0, 512, 0x00020001, 0x80000d10, 0, 1,
                0x00000002,
            ],
        ),
        Part::Words(FIRST + 0x40, &[1 << 16]),
        Part::Words(FIRST + 0x100, &[WRITE, 0, 0, 0, 0xff]),
        Part::Sector(FIRST + 0x200, 0xab),
        Part::Bytes(DESCRIPTOR, &[0x00, 0x11, 0x00, 0x80, 0, 0, 0, 0, 26]),
        Part::Bytes(AVAILABLE, &[0, 0, 1, 0]),
        Part::Bytes(BUFFER + 12, &FRAME),
    ],
};

/// The guest of one request behind the setup of the card, with the beacon's frame, which is notified last.
static CARD_FIRST: Guest = Guest {
    pages: 2,
    sectors: 8,
    bytes: DATA + 512,
    parts: &[
        Part::Words(0, &SETS_CARD_UP),
        Part::Words(4 * 22, &ONE_REQUEST),
        // LUI x5, 0x10001; SW x6, 0x50(x5): notify; JAL x0, 0
        Part::Words(4 * (22 + 23), &[0x100012b7, 0x0462a823, 0x0000006f]),
        Part::Words(FIRST, &[0x80000d00, 0, 26, 0]),
        Part::Words(FIRST + 0x40, &[1 << 16]),
        Part::Bytes(FIRST + 0x10c, &FRAME),
        Part::Words(DESCRIPTOR, &CHAIN),
        Part::Bytes(AVAILABLE, &[0, 0, 1, 0]),
        Part::Words(HEAD, &[WRITE, 0, 7, 0, 0xff]),
        Part::Sector(DATA, 0xab),
    ],
};

/// The disk, which was set up before the card, writes a sector.
static DISK_SERVES: [Line; 3] = [
    Line::Run(2),
    Line::Is(Reading::Number(FIRST + 0x82), 1),
    Line::Sector(0, 0xab),
];

/// The card, which was set up before the disk, sends its frame.
static CARD_SENDS: [Line; 3] = [
    Line::Run(2),
    Line::Is(Reading::Number(FIRST + 0x82), 1),
    Line::Frame(&FRAME),
];

/// Where a row's word stands behind the disk's setup of 23 words: those of the program are moved.
fn moved(at: usize) -> usize {
    if at < 4096 {
        at.saturating_add(4 * 23)
    } else {
        at
    }
}

/// The card breaks, and then the disk, which was set up before it, writes a sector.
fn card_breaks_after_the_disk(rt: &impl Abort, alloc: Global, (name, at, word): Row) {
    let change = [Part::Word(moved(at), word)];
    let mut machine = booted(rt, alloc, &DISK_FIRST, &change);
    breaks(rt, &mut machine, 23 + 21, Device::Card, name);
    let broken = machine.net();
    play_named(rt, &mut machine, &DISK_SERVES, name);
    assert_record(rt, &machine, Device::Card, &broken, name);
}

/// The disk breaks, and then the card, which was set up before it, sends its frame.
fn disk_breaks_after_the_card(rt: &impl Abort, alloc: Global, (name, at, word): Row) {
    let mut machine = booted(rt, alloc, &CARD_FIRST, &[Part::Word(at, word)]);
    breaks(rt, &mut machine, 22 + 22, Device::Disk, name);
    let broken = machine.disk();
    play_named(rt, &mut machine, &CARD_SENDS, name);
    assert_record(rt, &machine, Device::Disk, &broken, name);
}

#[test]
fn a_malformed_ring_leaves_the_other_device(rt: HostRuntime) {
    for row in &CARD {
        card_breaks_after_the_disk(&rt, rt.alloc(), *row);
    }
    for row in &DISK {
        disk_breaks_after_the_card(&rt, rt.alloc(), *row);
    }
}

/// A guest that gives queue 0 of its card one buffer, in step 23 at the latest.
static RECEIVING_GUEST: Guest = Guest {
    pages: 2,
    sectors: 1,
    bytes: 2 * PAGE_BYTES,
    parts: &[
        Part::Words(0, &ONE_REQUEST),
        // LUI x5, 0x10001
        Part::Words(0, &[0x100012b7]),
        // WRITE
        Part::Bytes(
            DESCRIPTOR,
            &[0x00, 0x11, 0x00, 0x80, 0, 0, 0, 0, 26, 0, 0, 0, 2],
        ),
        Part::Bytes(AVAILABLE, &[0, 0, 1, 0]),
        Part::Bytes(BUFFER + 12, &FRAME),
    ],
};

/// The notify did nothing, and the frame that arrives is lost, and breaks the card. What the disk keeps is as at boot.
static LOSES: [Line; 10] = [
    Line::Run(23),
    Line::Is(Reading::CardStatus, 0x0f),
    Line::Lost(&FROM_CLIENT),
    Line::Is(Reading::CardStatus, 0x4f),
    Line::Is(Reading::CardInterrupt, 2),
    Line::Is(Reading::Number(USED + 2), 0),
    Line::Is(Reading::Frames, 0),
    Line::Written(&[]),
    Line::Blank,
    Line::BootDisk,
];

/// A frame breaks the card of the row's guest.
fn breaks_at_a_frame(rt: &impl Abort, alloc: Global, (name, at, word): Row) {
    let change = [Part::Word(at, word)];
    let mut machine = booted(rt, alloc, &RECEIVING_GUEST, &change);
    play_named(rt, &mut machine, &LOSES, name);
}

#[test]
fn a_frame_that_meets_a_malformed_ring_is_lost(rt: HostRuntime) {
    for row in &RECEIVING {
        breaks_at_a_frame(&rt, rt.alloc(), *row);
    }
}
