//! Exceptions and their causes, the trap's way back, and the CSRs.

use super::PROGRAM;
use super::play::{Line, Part, Reading, plays};
use std::alloc::Global;
use std::process::Abort;

/// After one step of a word the trap registers hold these values, the pc is 0, and so are all registers.
fn traps(rt: &impl Abort, alloc: Global, word: u32, cause: u64, value: u64) {
    let lines = [
        Line::Run(1),
        Line::Trap(cause, value, 0x80000000),
        Line::Is(Reading::Pc, 0),
        Line::Is(Reading::Steps, 1),
        Line::Registers(0, &[0; 32]),
    ];
    plays(rt, alloc, &PROGRAM, &[Part::Word(0, word)], &lines);
}

/// Words, and the cause and the value of the trap that each is.
const EXCEPTIONS: [(u32, u64, u64); 10] = [
    // a jump to a target that isn't a multiple of 4: JAL x1, +2
    (0x002000ef, 0, 0x80000002),
    // no instruction
    (0, 2, 0),
    (0xffffffff, 2, 0xffffffff),
    // LW x1, 1(x0), and LW x1, 4(x0): misaligned comes before an access fault
    (0x00102083, 4, 1),
    (0x00402083, 5, 4),
    // LW x1, -4(x0): the address wraps
    (0xffc02083, 5, 0xfffffffffffffffc),
    // SW x1, 2(x0), and SW x1, 8(x0)
    (0x00102123, 6, 2),
    (0x00102423, 7, 8),
    // EBREAK and ECALL
    (0x00100073, 3, 0x80000000),
    (0x00000073, 11, 0),
];

#[test]
fn exceptions_have_their_causes(rt: HostRuntime) {
    for (word, cause, value) in EXCEPTIONS {
        traps(&rt, rt.alloc(), word, cause, value);
    }
}

/// Accesses to CSRs that are illegal.
const ILLEGAL: [u32; 4] = [
    // CSRRW x0, mhartid, x0
    0xf1401073, //
    // CSRRS x1, mhartid, x2 is a write, though x2 holds 0; CSRRSI x1, mhartid, 1
    0xf14120f3, 0xf140e0f3, //
    // CSRRS x1, cycle, x0: there is no such CSR
    0xc00020f3,
];

#[test]
fn illegal_accesses_to_csrs_trap(rt: HostRuntime) {
    for word in ILLEGAL {
        traps(&rt, rt.alloc(), word, 2, word.into());
    }
}

static OF_CSRS: [Part; 1] = [Part::Words(
    0,
    &[
        0x301020f3, // CSRRS x1, misa, x0
        0x30101173, // CSRRW x2, misa, x0: ignored
        0x3406d1f3, // CSRRWI x3, mscratch, 13
        0x34096273, // CSRRSI x4, mscratch, 18
        0x3402f2f3, // CSRRCI x5, mscratch, 5
        0x34002373, // CSRRS x6, mscratch, x0
        0x34409073, // CSRRW x0, mip, x1: ignored
        0xf14023f3, // CSRRS x7, mhartid, x0: no write
        0x34033473, // CSRRC x8, mscratch, x6
        0x3010a4f3, // CSRRS x9, misa, x1
    ],
)];

static CSRS_READ: [Line; 5] = [
    Line::Run(10),
    Line::Registers(
        1,
        &[
            0x8000000000001100,
            0x8000000000001100,
            0,
            13,
            31,
            26,
            0,
            26,
            0x8000000000001100,
        ],
    ),
    Line::Is(Reading::Mscratch, 0),
    Line::Is(Reading::Mcause, 0),
    Line::Is(Reading::Pc, 0x80000028),
];

#[test]
fn csrs_are_read_and_written(rt: HostRuntime) {
    plays(&rt, rt.alloc(), &PROGRAM, &OF_CSRS, &CSRS_READ);
}

/// AUIPC x1, 0; ADDI x1, x1, 0x102; CSRRW x0, mepc, x1: bit 1 isn't kept; MRET
static OF_MRET: [Part; 1] = [Part::Words(0, &[0x00000097, 0x10208093, 0x34109073, 0x30200073])];

static GONE_BACK: [Line; 3] = [
    Line::Run(4),
    Line::Is(Reading::Pc, 0x80000100),
    // MIE is MPIE, which was 0, and MPIE is 1
    Line::Is(Reading::Mstatus, 0x1880),
];

#[test]
fn mret_goes_back(rt: HostRuntime) {
    plays(&rt, rt.alloc(), &PROGRAM, &OF_MRET, &GONE_BACK);
}

/// BNE x0, x0, 2 and BEQ x0, x0, 2
static OF_BRANCHES: [Part; 1] = [Part::Words(0, &[0x00001163, 0x00000163])];

static TAKEN_BRANCH: [Line; 7] = [
    Line::Run(1),
    Line::Is(Reading::Pc, 0x80000004),
    Line::Run(1),
    Line::Trap(0, 0x80000006, 0x80000004),
    Line::Is(Reading::Pc, 0),
    Line::Run(1),
    Line::Trap(1, 0, 0),
];

#[test]
fn a_branch_traps_on_itself_only_where_it_is_taken(rt: HostRuntime) {
    plays(&rt, rt.alloc(), &PROGRAM, &OF_BRANCHES, &TAKEN_BRANCH);
}

/// AUIPC x1, 0; ADDI x1, x1, 1; JALR x5, 0x100(x1)
static OF_JALR: [Part; 1] = [Part::Words(0, &[0x00000097, 0x00108093, 0x100082e7])];

static JUMPED: [Line; 3] = [
    Line::Run(3),
    Line::Is(Reading::Pc, 0x80000100),
    Line::Is(Reading::Register(5), 0x8000000c),
];

#[test]
fn jalr_clears_bit_0(rt: HostRuntime) {
    plays(&rt, rt.alloc(), &PROGRAM, &OF_JALR, &JUMPED);
}

/// JAL x1, -8 writes x1 and jumps below memory.
static OF_JAL: [Part; 1] = [Part::Words(0, &[0xff9ff0ef])];

static OUTSIDE: [Line; 8] = [
    Line::Run(1),
    Line::Is(Reading::Pc, 0x7ffffff8),
    Line::Is(Reading::Register(1), 0x80000004),
    Line::Run(1),
    Line::Trap(1, 0x7ffffff8, 0x7ffffff8),
    Line::Run(1),
    Line::Trap(1, 0, 0),
    Line::Is(Reading::Steps, 3),
];

#[test]
fn a_pc_outside_memory_is_an_access_fault(rt: HostRuntime) {
    plays(&rt, rt.alloc(), &PROGRAM, &OF_JAL, &OUTSIDE);
}
