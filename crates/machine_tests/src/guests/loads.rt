//! Loads and stores: of memory, of the timer's registers and of the devices' registers, and their widths.

use super::PROGRAM;
use super::play::{Line, Part, Reading, plays};
use std::alloc::Global;
use std::process::Abort;

static OF_THE_TIMER: [Part; 1] = [Part::Words(
    0,
    &[
        0x020000b7, // LUI x1, 0x2000
        0xfff00113, // ADDI x2, x0, -1
        0x0020a023, // SW x2, 0(x1): msip keeps bit 0
        0x0000a183, // LW x3, 0(x1)
        0x02004237, // LUI x4, 0x2004
        0x00023283, // LD x5, 0(x4)
        0x00323023, // SD x3, 0(x4): mtimecmp
        0x00023303, // LD x6, 0(x4)
        0x0200c3b7, // LUI x7, 0x200c
        0xfe03bc23, // SD x0, -8(x7): mtime ignores it
        0xff83b403, // LD x8, -8(x7): 10 steps were made
    ],
)];

static TIMER_READ: [Line; 8] = [
    Line::Run(11),
    Line::Is(Reading::Register(3), 1),
    Line::Is(Reading::Register(5), 0xffffffffffffffff),
    Line::Is(Reading::Register(6), 1),
    Line::Is(Reading::Register(8), 10),
    Line::Is(Reading::Msip, 1),
    Line::Is(Reading::Mtimecmp, 1),
    Line::Is(Reading::Mcause, 0),
];

#[test]
fn timer_registers_have_their_widths(rt: HostRuntime) {
    plays(&rt, rt.alloc(), &PROGRAM, &OF_THE_TIMER, &TIMER_READ);
}

/// Accesses of x2 at x1, which the first word sets, with the cause and the address of the access fault that each is.
const FAULTS: [(u32, u32, u64, u64); 14] = [
    // msip by LD and SD
    (0x020000b7, 0x0000b103, 5, 0x02000000),
    (0x020000b7, 0x0020b023, 7, 0x02000000),
    // mtimecmp by LW and SW
    (0x020040b7, 0x0000a103, 5, 0x02004000),
    (0x020040b7, 0x0020a023, 7, 0x02004000),
    // mtime by LW
    (0x0200c0b7, 0xff80a103, 5, 0x0200bff8),
    // a register of the network card by LD and SD
    (0x100010b7, 0x0000b103, 5, 0x10001000),
    (0x100010b7, 0x0020b023, 7, 0x10001000),
    // a register of the disk by LD and SD, LH and SB
    (0x100020b7, 0x0000b103, 5, 0x10002000),
    (0x100020b7, 0x0020b023, 7, 0x10002000),
    (0x100020b7, 0x00009103, 5, 0x10002000),
    (0x100020b7, 0x04208823, 7, 0x10002050),
    // nothing is behind the disk, nor before the network card
    (0x100030b7, 0x0000a103, 5, 0x10003000),
    (0x100030b7, 0x0020a023, 7, 0x10003000),
    (0x100010b7, 0xffc0a103, 5, 0x10000ffc),
];

fn faults(rt: &impl Abort, alloc: Global, (sets, access, cause, address): (u32, u32, u64, u64)) {
    let program = [Part::Word(0, sets), Part::Word(4, access)];
    let lines = [Line::Run(2), Line::Trap(cause, address, 0x80000004)];
    plays(rt, alloc, &PROGRAM, &program, &lines);
}

#[test]
fn other_widths_are_access_faults(rt: HostRuntime) {
    for case in FAULTS {
        faults(&rt, rt.alloc(), case);
    }
}

/// JAL x1, +4: x1 is 0x80000004; LUI x2, 0x80000; SW x2, 0x100(x1); LW x3, 0x100(x1)
static OF_A_WORD: [Part; 1] = [Part::Words(0, &[0x004000ef, 0x80000137, 0x1020a023, 0x1000a183])];

static WORD_READ: [Line; 7] = [
    Line::Run(4),
    Line::Is(Reading::Register(3), 0xffffffff80000000),
    Line::Is(Reading::Number(0x104), 0),
    Line::Is(Reading::Number(0x106), 0x8000),
    Line::Is(Reading::Number(0x108), 0),
    Line::Is(Reading::RamSize, 8192),
    Line::Is(Reading::PageSize, 4096),
];

#[test]
fn loads_are_sign_extended(rt: HostRuntime) {
    plays(&rt, rt.alloc(), &PROGRAM, &OF_A_WORD, &WORD_READ);
}
