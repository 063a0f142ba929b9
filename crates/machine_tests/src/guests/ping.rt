//! The guest of `guests/ping.c`, which its card's interrupts drive. The frames are those of `examples/ping.sim`, and the answers those
//! of `examples/ping.expected`: Python's (`tools/write_examples`).

use super::play::{Guest, Line, Part, Reading, booted, play, plays};
use super::program_words::PING;
use crate::asserts::{holds, holds_of};
use guest_machine::{Machine, PAGE_BYTES};
use std::process::Abort;

/// Who has 10.0.0.1? The broadcast of 10.0.0.2, which is client 1.
const ARP_REQUEST: [u8; 42] = [
    0xff, 0xff, 0xff, 0xff, 0xff, 0xff, 0x02, 0x00, 0x00, 0x00, 0x01, 0x01, 0x08, 0x06, 0x00, 0x01,
    0x08, 0x00, 0x06, 0x04, 0x00, 0x01, 0x02, 0x00, 0x00, 0x00, 0x01, 0x01, 0x0a, 0x00, 0x00, 0x02,
    0x00, 0x00, 0x00, 0x00, 0x00, 0x00, 0x0a, 0x00, 0x00, 0x01,
];

/// The guest's answer: 10.0.0.1 is at 02:00:00:00:00:01.
const ARP_REPLY: [u8; 42] = [
    0x02, 0x00, 0x00, 0x00, 0x01, 0x01, 0x02, 0x00, 0x00, 0x00, 0x00, 0x01, 0x08, 0x06, 0x00, 0x01,
    0x08, 0x00, 0x06, 0x04, 0x00, 0x02, 0x02, 0x00, 0x00, 0x00, 0x00, 0x01, 0x0a, 0x00, 0x00, 0x01,
    0x02, 0x00, 0x00, 0x00, 0x01, 0x01, 0x0a, 0x00, 0x00, 0x02,
];

/// Client 1 pings the guest, with the text "is anyone there?".
const ECHO_REQUEST: [u8; 58] = [
    0x02, 0x00, 0x00, 0x00, 0x00, 0x01, 0x02, 0x00, 0x00, 0x00, 0x01, 0x01, 0x08, 0x00, 0x45, 0x00,
    0x00, 0x2c, 0x00, 0x07, 0x40, 0x00, 0x3d, 0x01, 0x29, 0xc8, 0x0a, 0x00, 0x00, 0x02, 0x0a, 0x00,
    0x00, 0x01, 0x08, 0x00, 0x7b, 0x9e, 0x70, 0x69, 0x00, 0x01, 0x69, 0x73, 0x20, 0x61, 0x6e, 0x79,
    0x6f, 0x6e, 0x65, 0x20, 0x74, 0x68, 0x65, 0x72, 0x65, 0x3f,
];

/// The guest's answer, with the same text.
const ECHO_REPLY: [u8; 58] = [
    0x02, 0x00, 0x00, 0x00, 0x01, 0x01, 0x02, 0x00, 0x00, 0x00, 0x00, 0x01, 0x08, 0x00, 0x45, 0x00,
    0x00, 0x2c, 0x00, 0x07, 0x40, 0x00, 0x40, 0x01, 0x26, 0xc8, 0x0a, 0x00, 0x00, 0x01, 0x0a, 0x00,
    0x00, 0x02, 0x00, 0x00, 0x83, 0x9e, 0x70, 0x69, 0x00, 0x01, 0x69, 0x73, 0x20, 0x61, 0x6e, 0x79,
    0x6f, 0x6e, 0x65, 0x20, 0x74, 0x68, 0x65, 0x72, 0x65, 0x3f,
];

/// A ping whose last byte is another than its checksum says.
const DAMAGED_REQUEST: [u8; 58] = [
    0x02, 0x00, 0x00, 0x00, 0x00, 0x01, 0x02, 0x00, 0x00, 0x00, 0x01, 0x01, 0x08, 0x00, 0x45, 0x00,
    0x00, 0x2c, 0x00, 0x07, 0x40, 0x00, 0x3d, 0x01, 0x29, 0xc8, 0x0a, 0x00, 0x00, 0x02, 0x0a, 0x00,
    0x00, 0x01, 0x08, 0x00, 0x7b, 0x9d, 0x70, 0x69, 0x00, 0x02, 0x69, 0x73, 0x20, 0x61, 0x6e, 0x79,
    0x6f, 0x6e, 0x65, 0x20, 0x74, 0x68, 0x65, 0x72, 0x65, 0x21,
];

/// A ping to 10.0.0.9.
const OTHERS_REQUEST: [u8; 58] = [
    0x02, 0x00, 0x00, 0x00, 0x00, 0x01, 0x02, 0x00, 0x00, 0x00, 0x01, 0x01, 0x08, 0x00, 0x45, 0x00,
    0x00, 0x2c, 0x00, 0x07, 0x40, 0x00, 0x3d, 0x01, 0x29, 0xc0, 0x0a, 0x00, 0x00, 0x02, 0x0a, 0x00,
    0x00, 0x09, 0x08, 0x00, 0x7b, 0x9c, 0x70, 0x69, 0x00, 0x03, 0x69, 0x73, 0x20, 0x61, 0x6e, 0x79,
    0x6f, 0x6e, 0x65, 0x20, 0x74, 0x68, 0x65, 0x72, 0x65, 0x3f,
];

/// The guest, with a disk of two sectors.
static PING_GUEST: Guest = Guest {
    pages: 32,
    sectors: 2,
    bytes: PAGE_BYTES,
    parts: &[Part::Words(0, &PING)],
};

static ANSWERS: [Line; 16] = [
    Line::Run(5000),
    Line::Is(Reading::Frames, 0),
    Line::Taken(&ARP_REQUEST),
    Line::Run(2000),
    Line::Frame(&ARP_REPLY),
    Line::Settle,
    Line::Taken(&ECHO_REQUEST),
    Line::Run(3000),
    Line::Frame(&ECHO_REPLY),
    Line::Settle,
    Line::Taken(&DAMAGED_REQUEST),
    Line::Taken(&OTHERS_REQUEST),
    Line::Run(5000),
    Line::Is(Reading::Frames, 0),
    // the driver acknowledged the last interrupt, and the card isn't broken
    Line::Is(Reading::CardInterrupt, 0),
    Line::Is(Reading::CardStatus, 0x0f),
];

#[test]
fn answers_arp_and_pings(rt: HostRuntime) {
    plays(&rt, rt.alloc(), &PING_GUEST, &[], &ANSWERS);
}

/// Plays the lines, and puts the state before them back.
fn plays_and_goes_back(rt: &impl Abort, machine: &mut Machine, lines: &[Line]) {
    let state = machine.state();
    play(rt, machine, lines);
    machine.put_state(&state);
    holds(rt, "the state", machine.state() == state);
}

/// The guest only waits, so its memory stays as it is.
static WAITS: [Line; 2] = [Line::Run(10), Line::Is(Reading::Steps, 5010)];

static ANSWERS_ARP: [Line; 4] = [
    Line::Is(Reading::Steps, 5000),
    Line::Taken(&ARP_REQUEST),
    Line::Run(2000),
    Line::Frame(&ARP_REPLY),
];

#[test]
fn a_state_is_put_back(rt: HostRuntime) {
    let mut machine = booted(&rt, rt.alloc(), &PING_GUEST, &[]);
    play(&rt, &mut machine, &[Line::Run(5000)]);
    plays_and_goes_back(&rt, &mut machine, &[]);
    plays_and_goes_back(&rt, &mut machine, &WAITS);
    play(&rt, &mut machine, &ANSWERS_ARP);
}

/// Turns each bit of the second block of the first page.
fn turn_block(rt: &impl Abort, machine: &mut Machine) {
    holds(rt, "two pages", machine.ram_size() >= 8192);
    machine.xor_block(0, 1, &[0xff; 64]);
}

/// The word at a place of memory.
fn word_at(rt: &impl Abort, machine: &Machine, at: usize) -> u32 {
    holds(rt, "in the first page", at < 4096);
    holds(rt, "two pages", machine.ram_size() >= 8192);
    u32::from_le_bytes([
        machine.byte(at),
        machine.byte(at + 1),
        machine.byte(at + 2),
        machine.byte(at + 3),
    ])
}

/// The words in memory are those of the program, with each bit turned in the second block or in none.
fn assert_words(rt: &impl Abort, machine: &Machine, turned: bool) {
    for (i, word) in PING.iter().enumerate() {
        let want = if turned && i / 16 == 1 { !*word } else { *word };
        holds_of(rt, want, word_at(rt, machine, 4 * i) == want);
    }
}

/// The first page counts as written, and the second doesn't.
static FIRST_WRITTEN: [Line; 2] = [
    Line::Is(Reading::Dirty(0), 1),
    Line::Is(Reading::Dirty(1), 0),
];

#[test]
fn a_block_is_turned_and_turned_back(rt: HostRuntime) {
    let mut machine = booted(&rt, rt.alloc(), &PING_GUEST, &[]);
    turn_block(&rt, &mut machine);
    assert_words(&rt, &machine, true);
    play(&rt, &mut machine, &FIRST_WRITTEN);
    turn_block(&rt, &mut machine);
    assert_words(&rt, &machine, false);
    play(&rt, &mut machine, &FIRST_WRITTEN);
}

/// Turns each bit of the second block of the first page, where nothing counts as written.
fn turn_settled_block(rt: &impl Abort, machine: &mut Machine) {
    holds(rt, "two pages", machine.ram_size() >= 8192);
    machine.settle();
    machine.xor_settled(0, 1, &[0xff; 64]);
}

/// No page counts as written, and the first word of the block is the one of the last settle.
static UNWRITTEN: [Line; 2] = [
    Line::Is(Reading::Dirty(0), 0),
    Line::Is(Reading::Original(64), !PING[16] as u64),
];

#[test]
fn a_block_is_turned_in_an_image(rt: HostRuntime) {
    let mut machine = booted(&rt, rt.alloc(), &PING_GUEST, &[]);
    turn_settled_block(&rt, &mut machine);
    assert_words(&rt, &machine, true);
    play(&rt, &mut machine, &UNWRITTEN);
}

/// Puts 512 times a byte in the place of a sector's.
fn put_sector(rt: &impl Abort, machine: &mut Machine, sector: u32, byte: u8) {
    holds(rt, "a sector", sector < machine.sectors());
    machine.put_sector(sector, &[byte; 512]);
}

static SECTOR_PUT: [Line; 4] = [
    Line::Written(&[1]),
    Line::Is(Reading::Sectors, 2),
    Line::Sector(0, 0),
    Line::Sector(1, 0xab),
];

#[test]
fn a_sector_is_put(rt: HostRuntime) {
    let mut machine = booted(&rt, rt.alloc(), &PING_GUEST, &[]);
    put_sector(&rt, &mut machine, 1, 0xab);
    play(&rt, &mut machine, &SECTOR_PUT);
}
