//! Programs that a stock compiler made of C, run until each jumps to itself. The answers are those of Python's `zlib`, `hashlib`
//! and whole numbers (`oracle/guest_answers.py`), the step counts those of the interpreter in `oracle/interpreter`. And a round of three
//! pages, whose counts are sums.

use super::PROGRAM;
use super::play::{Guest, Line, Part, Reading, booted, play, plays};
use super::program_words::{CRC32, DISK, DIVISION, SHA256, SORT};
use crate::asserts::holds;
use guest_machine::{Machine, PAGE_BYTES};
use std::process::Abort;

/// Where each program stops: it jumps to itself.
const STOP: u64 = 0x8000_0010;

/// The register that holds the answer.
const A0: Reading = Reading::Register(10);

/// The place in memory of what a program answers beside its register.
const ANSWER: usize = 0x1000;

static SORTED: [Line; 3] = [
    Line::Run(16136),
    Line::Is(Reading::Pc, STOP),
    Line::Is(A0, 0xdeb9_69f6_7aa6_1aa2),
];

#[test]
fn sorts_a_hundred_numbers(rt: HostRuntime) {
    plays(&rt, rt.alloc(), &PROGRAM, &[Part::Words(0, &SORT)], &SORTED);
}

static CHECKED: [Line; 3] = [
    Line::Run(532),
    Line::Is(Reading::Pc, STOP),
    Line::Is(A0, 0xcbf4_3926),
];

#[test]
fn checksum_of_nine_digits(rt: HostRuntime) {
    plays(
        &rt,
        rt.alloc(),
        &PROGRAM,
        &[Part::Words(0, &CRC32)],
        &CHECKED,
    );
}

static DIGESTED: [Line; 4] = [
    Line::Run(5909),
    Line::Is(Reading::Pc, STOP),
    Line::Is(A0, 0xba78_16bf_8f01_cfea),
    Line::Bytes(
        ANSWER,
        &[
            0xba, 0x78, 0x16, 0xbf, 0x8f, 0x01, 0xcf, 0xea, 0x41, 0x41, 0x40, 0xde, 0x5d, 0xae,
            0x22, 0x23, 0xb0, 0x03, 0x61, 0xa3, 0x96, 0x17, 0x7a, 0x9c, 0xb4, 0x10, 0xff, 0x61,
            0xf2, 0x00, 0x15, 0xad,
        ],
    ),
];

#[test]
fn digest_of_three_letters(rt: HostRuntime) {
    plays(
        &rt,
        rt.alloc(),
        &PROGRAM,
        &[Part::Words(0, &SHA256)],
        &DIGESTED,
    );
}

static DIVIDED: [Line; 3] = [
    Line::Run(725_971),
    Line::Is(Reading::Pc, STOP),
    Line::Is(A0, 0x02a8_7200_df38_d16b),
];

#[test]
fn division_agrees_with_long_division(rt: HostRuntime) {
    plays(
        &rt,
        rt.alloc(),
        &PROGRAM,
        &[Part::Words(0, &DIVISION)],
        &DIVIDED,
    );
}

/// Three pages, each of which counts in x12 and jumps to the next one; the last one jumps to the first.
static ROUND: Guest = Guest {
    pages: 3,
    sectors: 1,
    bytes: 3 * PAGE_BYTES,
    parts: &[
        // ADDI x12, x12, 1; JAL x0, 4092
        Part::Words(0, &[0x0016_0613, 0x7fd0_006f]),
        // ADDI x12, x12, 16; JAL x0, 4092
        Part::Words(0x1000, &[0x0106_0613, 0x7fd0_006f]),
        // ADDI x12, x12, 256; JAL x0, -8196
        Part::Words(0x2000, &[0x1006_0613, 0xffdf_d06f]),
    ],
};

static ROUNDS: [Line; 17] = [
    Line::Is(Reading::DecodedPages, 0),
    Line::Decodes(2),
    Line::Run(602),
    Line::Is(Reading::DecodedPages, 2),
    Line::Is(Reading::Pc, 0x8000_1000),
    Line::Is(Reading::Register(12), 27_301),
    Line::Decodes(0),
    Line::Is(Reading::DecodedPages, 0),
    Line::Run(602),
    Line::Is(Reading::DecodedPages, 1),
    Line::Is(Reading::Pc, 0x8000_2000),
    Line::Is(Reading::Register(12), 54_617),
    Line::Decodes(usize::MAX),
    Line::Run(602),
    Line::Is(Reading::DecodedPages, 3),
    Line::Is(Reading::Pc, 0x8000_0000),
    Line::Is(Reading::Register(12), 82_173),
];

#[test]
fn runs_from_more_pages_than_are_decoded(rt: HostRuntime) {
    plays(&rt, rt.alloc(), &ROUND, &[], &ROUNDS);
}

/// The hash of all bytes that the disk's guest read back.
const HASH: u64 = 0x016a_9914_076e_e016;

/// Its frame to client 1: the addresses, the type 88b5, how many requests failed, and the hash.
const REPORT: [u8; 30] = [
    2, 0, 0, 0, 1, 1, 2, 0, 0, 0, 0, 1, 0x88, 0xb5, 0, 0, 0, 0, 0, 0, 0, 0, 0x01, 0x6a, 0x99, 0x14,
    0x07, 0x6e, 0xe0, 0x16,
];

static DISK_GUEST: Guest = Guest {
    pages: 32,
    sectors: 200,
    bytes: PAGE_BYTES,
    parts: &[Part::Words(0, &DISK)],
};

static WRITTEN_AND_READ: [Line; 5] = [
    Line::Run(1_342_483),
    Line::Is(Reading::Pc, STOP),
    Line::Is(A0, HASH),
    Line::Frame(&REPORT),
    Line::Is(Reading::Sectors, 200),
];

/// The bytes of the disk from its first on: each is the top one of a multiple of its place, counted from 1.
#[derive(Drop)]
struct Places {
    factor: u64,
}

impl Places {
    fn next(&mut self) -> u8 {
        self.factor = self.factor.wrapping_add(0x9e37_79b9_7f4a_7c15);
        (self.factor >> 56) as u8
    }
}

/// A sector has the next bytes.
fn assert_next(rt: &impl Abort, machine: &Machine, sector: u32, places: &mut Places) {
    holds(rt, "a sector", sector < machine.sectors());
    for byte in machine.sector(sector) {
        holds(rt, "its byte", *byte == places.next());
    }
}

#[test]
fn writes_200_sectors_and_reads_them_back(rt: HostRuntime) {
    let mut machine = booted(&rt, rt.alloc(), &DISK_GUEST, &[]);
    play(&rt, &mut machine, &WRITTEN_AND_READ);
    holds(&rt, "200 sectors", machine.dirty_sectors().len() == 200);
    let mut places = Places { factor: 0 };
    for sector in 0..200 {
        assert_next(&rt, &machine, sector, &mut places);
    }
}
