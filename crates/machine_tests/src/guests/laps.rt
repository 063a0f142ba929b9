//! Runs that count laps, and programs whose words change under the table of prepared ones. What they leave is what single steps leave,
//! which a look for a lap doesn't count.

use super::disk::{BEHIND, DATA, DATA_FLAGS, HEAD, READ, REQUEST};
use super::network::RECEIVER;
use super::play::{Guest, Line, Part, Reading, booted, play, plays, put, put_words};
use super::{DESCRIPTOR, PROGRAM, boot_shape};
use crate::asserts::holds;
use guest_machine::{Machine, PAGE_BYTES, SECTOR_BYTES, Shape};
use std::alloc::{AllocError, Global};
use std::process::Abort;

/// The register that the programs count in.
const COUNTER: Reading = Reading::Register(12);

/// ADDI x12, x12, 1 and ADDI x12, x12, 16.
const ONE: u32 = 0x0016_0613;

const SIXTEEN: u32 = 0x0106_0613;

/// XORI x11, x11, 1.
const TURN: u32 = 0x0015_c593;

/// JAL x0, 0.
const STAY: u32 = 0x0000_006f;

/// The word of a jump back by so many words.
fn jump_back(rt: &impl Abort, words: usize) -> u32 {
    holds(rt, "a jump", words < 512);
    if words == 0 {
        return STAY;
    }
    0x801f_f06f + (1024 - 2 * words as u32) * 0x20_0000
}

/// A lap of so many steps that leaves everything as it was: it turns a bit of x11 as often as makes an even number.
fn lap(rt: &impl Abort, alloc: Global, length: usize) -> Result<Vec<u8>, AllocError> {
    holds(rt, "a lap", 1 <= length && length <= 130);
    let mut image = vec![in alloc; 0u8; PAGE_BYTES]?;
    for i in 0..length - 1 {
        put(&mut image, 4 * i, &TURN.to_le_bytes());
    }
    if length % 2 == 0 {
        // ADDI x0, x0, 0
        put(&mut image, 0, &[0x13, 0, 0, 0]);
    }
    let jump = jump_back(rt, length - 1);
    put(&mut image, 4 * (length - 1), &jump.to_le_bytes());
    Ok(image)
}

/// A lap as Linux waits: interrupts off, three double words pushed, interrupts on, WFI. The timer's interrupt is enabled, and its handler,
/// at 0x80000040, counts in x7.
const WAITING: [u32; 18] = [
    0x00001117, // AUIPC x2, 1
    0x00000297, // AUIPC x5, 0
    0x03c28293, // ADDI x5, x5, 60
    0x30529073, // CSRRW x0, mtvec, x5
    0x08000313, // ADDI x6, x0, 0x80
    0x30431073, // CSRRW x0, mie, x6
    0x30047073, // CSRRCI x0, mstatus, 8
    0xfe810113, // ADDI x2, x2, -24
    0x00113023, // SD x1, 0(x2)
    0x00813423, // SD x8, 8(x2)
    0x00913823, // SD x9, 16(x2)
    0x30046073, // CSRRSI x0, mstatus, 8
    0x10500073, // WFI
    0x01810113, // ADDI x2, x2, 24
    0xfe1ff06f, // JAL x0, -32
    0x00000000, //
    0x00138393, // ADDI x7, x7, 1
    0x30200073, // MRET
];

/// The machine of two pages with this image, at this count of steps.
fn boot_at(rt: &impl Abort, alloc: Global, image: &[u8], count: u64) -> Box<Machine> {
    let shape = Shape {
        pages: 2,
        sectors: 1,
    };
    let mut machine = boot_shape(rt, alloc, shape, image);
    put_count(&mut machine, count);
    machine
}

/// Sets the count of steps.
fn put_count(machine: &mut Machine, count: u64) {
    let mut state = machine.state();
    state.steps = count;
    machine.put_state(&state);
}

/// Two machines of two pages are the same guest.
fn assert_same(rt: &impl Abort, one: &Machine, other: &Machine) {
    holds(rt, "the state", one.state() == other.state());
    assert_same_page(rt, one, other, 0);
    assert_same_page(rt, one, other, 1);
}

fn assert_same_page(rt: &impl Abort, one: &Machine, other: &Machine, page: u32) {
    holds(rt, "the first or the second", page < 2);
    holds(rt, "two pages", one.ram_size() >= 8192);
    holds(rt, "as many", other.ram_size() >= 8192);
    holds(rt, "the page", one.page(page) == other.page(page));
}

/// So many steps, none of which is refused.
fn run(rt: &impl Abort, machine: &mut Machine, steps: u64) {
    holds(rt, "the steps", machine.run(steps) == steps);
}

/// Steps one by one.
fn run_singly(rt: &impl Abort, machine: &mut Machine, steps: u64) {
    for _ in 0..steps {
        run(rt, machine, 1);
    }
}

/// So many steps, made in one run from this count on, lead where single steps led.
fn assert_run(
    rt: &impl Abort,
    alloc: Global,
    image: &[u8],
    count: u64,
    steps: u64,
    singly: &Machine,
) {
    let mut whole = boot_at(rt, alloc, image, count);
    run(rt, &mut whole, steps);
    assert_same(rt, singly, &whole);
}

/// Each number of steps from the first to below the last, made in one run from this count on, leads where so many single steps do.
fn assert_runs(rt: &impl Abort, alloc: Global, image: &[u8], count: u64, first: u64, last: u64) {
    let mut singly = boot_at(rt, alloc, image, count);
    run_singly(rt, &mut singly, first);
    for steps in first..last {
        assert_run(rt, alloc, image, count, steps, &singly);
        run(rt, &mut singly, 1);
    }
}

#[test]
fn laps_of_each_length_end_where_single_steps_do(rt: HostRuntime) {
    for length in 1..131 {
        let image = lap(&rt, rt.alloc(), length).expect(&rt, "memory for the image");
        assert_runs(&rt, rt.alloc(), &image, 0, 0, 301);
    }
}

/// The image of the lap that waits.
fn waiting(alloc: Global) -> Result<Vec<u8>, AllocError> {
    let mut image = vec![in alloc; 0u8; PAGE_BYTES]?;
    put_words(&mut image, 0, &WAITING);
    Ok(image)
}

#[test]
fn laps_that_push_and_wait_end_where_single_steps_do(rt: HostRuntime) {
    let image = waiting(rt.alloc()).expect(&rt, "memory for the image");
    // round the first look that finds the lap, and round the step at which the count is mtimecmp, 2^64 - 1, and then wraps
    assert_runs(&rt, rt.alloc(), &image, u64::MAX - 900, 500, 560);
    assert_runs(&rt, rt.alloc(), &image, u64::MAX - 900, 880, 930);
}

static WRAPS: [Line; 3] = [
    Line::Run(1 << 40),
    Line::Is(Reading::Steps, (1 << 40) - 101),
    Line::Is(Reading::Pc, 0x8000_0000),
];

#[test]
fn the_count_of_a_guest_that_waits_wraps(rt: HostRuntime) {
    let mut machine = booted(&rt, rt.alloc(), &PROGRAM, &[Part::Word(0, STAY)]);
    put_count(&mut machine, u64::MAX - 100);
    play(&rt, &mut machine, &WRAPS);
}

/// Writes the word behind its store: what stood there, and then ADDI x12, x12, 16 in its place.
const WRITES_THE_NEXT: [u32; 7] = [
    0x00000517, // AUIPC x10, 0
    0x00c52683, // LW x13, 12(x10)
    0x00d52623, // SW x13, 12(x10)
    ONE, //
    0x01852683, // LW x13, 24(x10)
    0xff5ff06f, // JAL x0, -12
    SIXTEEN,
];

/// This program, to which the first word jumps: JAL x0, 4; and JAL x0, 0xff4, to where the store is the last word of its page.
static NEXT_WORDS: [&[Part]; 2] = [
    &[Part::Word(0, 0x0040_006f), Part::Words(4, &WRITES_THE_NEXT)],
    &[
        Part::Word(0, 0x7f50_006f),
        Part::Words(4 * 1021, &WRITES_THE_NEXT),
    ],
];

/// A guest whose image has two pages, of zeros until a test puts its words there.
static TWO_PAGES: Guest = Guest {
    pages: 2,
    sectors: 1,
    bytes: 2 * PAGE_BYTES,
    parts: &[],
};

static COUNTED: [Line; 2] = [Line::Run(3 + 4 * 10), Line::Is(COUNTER, 1 + 9 * 16)];

#[test]
fn a_guest_writes_its_next_instruction(rt: HostRuntime) {
    for program in &NEXT_WORDS {
        plays(&rt, rt.alloc(), &TWO_PAGES, program, &COUNTED);
    }
}

/// The table has 16,384 places, so words 64 KiB apart share one.
static SEVENTEEN_PAGES: Guest = Guest {
    pages: 17,
    sectors: 1,
    bytes: 17 * PAGE_BYTES,
    parts: &[
        Part::Words(0, &[ONE, 0x7fd0_f06f]),
        Part::Words(0x1_0000, &[SIXTEEN, 0xffde_f06f]),
    ],
};

static COUNTED_FAR: [Line; 2] = [Line::Run(4000), Line::Is(COUNTER, 17_000)];

#[test]
fn two_addresses_of_one_place_have_their_own_words(rt: HostRuntime) {
    plays(&rt, rt.alloc(), &SEVENTEEN_PAGES, &[], &COUNTED_FAR);
}

/// Has the guest go on at 0x80001200.
fn go_to_data(machine: &mut Machine) {
    let mut state = machine.state();
    state.pc = 0x8000_1200;
    machine.put_state(&state);
}

/// ADDI x12, x12, 16 and JAL x0, 0.
const CODE: [u8; 8] = [0x13, 0x06, 0x06, 0x01, 0x6f, 0, 0, 0];

/// Puts these words at the front of sector 7.
fn put_code(rt: &impl Abort, machine: &mut Machine) {
    let mut bytes = [0; SECTOR_BYTES];
    put(&mut bytes, 0, &CODE);
    holds(rt, "eight sectors", 7 < machine.sectors());
    machine.put_sector(7, &bytes);
}

/// The guest reads a sector over ADDI x12, x12, 1 and a jump to its first word, where it began, and jumps there again.
static READS_CODE: [Part; 5] = [
    Part::Word(HEAD, READ),
    Part::Bytes(DATA_FLAGS, &[3]),
    Part::Sector(DATA, 0),
    Part::Words(DATA, &[ONE, 0xdfdf_e06f]),
    Part::Words(BEHIND, &[0x1a40_106f]),
];

static CODE_READ: [Line; 3] = [
    Line::Run(1000),
    Line::Is(COUNTER, 17),
    Line::Is(Reading::Pc, 0x8000_1204),
];

#[test]
fn code_arrives_by_the_disk(rt: HostRuntime) {
    let mut machine = booted(&rt, rt.alloc(), &REQUEST, &READS_CODE);
    put_code(&rt, &mut machine);
    go_to_data(&mut machine);
    play(&rt, &mut machine, &CODE_READ);
}

/// The guest waits in laps at the word that the frame's first word behind its type overwrites.
static WAITS_FOR_CODE: [Part; 4] = [
    Part::Bytes(DESCRIPTOR + 8, &[34]),
    Part::Bytes(DESCRIPTOR, &[0x06]),
    Part::Words(4 * 23, &[0x0c40_106f]),
    Part::Words(0x1120, &[STAY]),
];

/// The frame is one of client 1, as [`super::network::FROM_CLIENT`], with that code behind its type.
static CODE_TAKEN: [Line; 6] = [
    Line::Run(1000),
    Line::Is(Reading::Pc, 0x8000_1120),
    Line::Taken(&[
        2, 0, 0, 0, 0, 1, 2, 0, 0, 0, 1, 1, 0x88, 0xb5, 0x13, 0x06, 0x06, 0x01, 0x6f, 0, 0, 0,
    ]),
    Line::Run(1000),
    Line::Is(COUNTER, 16),
    Line::Is(Reading::Pc, 0x8000_1124),
];

#[test]
fn code_arrives_by_a_frame(rt: HostRuntime) {
    plays(&rt, rt.alloc(), &RECEIVER, &WAITS_FOR_CODE, &CODE_TAKEN);
}
