//! Interrupts: which is taken, where its handler is, and how often the timer's comes.

use super::play::{Line, Part, Reading, booted, number, play, plays};
use super::{BEACON_GUEST, PROGRAM};
use crate::asserts::holds;
use std::alloc::Global;
use std::process::Abort;

/// The second word is set by a case of the test: it adds 0x200 and the mode to the first word's address.
const OF_THE_TIMER: Part = Part::Words(
    0,
    &[
        0x00000097, // AUIPC x1, 0
        0x00000000, //
        0x30509073, // CSRRW x0, mtvec, x1
        0x02004137, // LUI x2, 0x2004
        0x00900193, // ADDI x3, x0, 9
        0x00313023, // SD x3, 0(x2): mtimecmp
        0x08000213, // ADDI x4, x0, 0x80
        0x30422073, // CSRRS x0, mie, x4
        0x30046073, // CSRRSI x0, mstatus, 8
        0x00000013, // ADDI x0, x0, 0
    ],
);

/// The timer interrupt is taken in step 10, and goes to this handler, where the guest's second word is this one.
fn takes_timer_interrupt(rt: &impl Abort, alloc: Global, sets_mtvec: u32, handler: u64) {
    let program = [OF_THE_TIMER, Part::Word(4, sets_mtvec)];
    let lines = [
        Line::Run(9),
        Line::Is(Reading::Mstatus, 0x1808),
        Line::Is(Reading::Mcause, 0),
        Line::Run(1),
        Line::Trap(0x8000000000000007, 0, 0x80000024),
        Line::Is(Reading::Mstatus, 0x1880),
        Line::Is(Reading::Steps, 10),
        Line::Is(Reading::Pc, handler),
    ];
    plays(rt, alloc, &PROGRAM, &program, &lines);
}

#[test]
fn timer_interrupts_go_to_their_handler(rt: HostRuntime) {
    // vectored and direct: ADDI x1, x1, 0x201 and ADDI x1, x1, 0x200
    takes_timer_interrupt(&rt, rt.alloc(), 0x20108093, 0x8000021c);
    takes_timer_interrupt(&rt, rt.alloc(), 0x20008093, 0x80000200);
}

/// What stands in the place of the beacon's loop, where the card's interrupt is pending already: the other two are made
/// pending, some are enabled, and then all.
const ALL_PENDING: Part = Part::Words(
    4 * 22,
    &[
        0x020004b7, // LUI x9, 0x2000
        0x0064a023, // SW x6, 0(x9): msip
        0x020044b7, // LUI x9, 0x2004
        0x0004b023, // SD x0, 0(x9): mtimecmp
        0x00000493, // ADDI x9, x0, n
        0x30449073, // CSRRW x0, mie, x9
        0x34402573, // CSRRS x10, mip, x0
        0x30046073, // CSRRSI x0, mstatus, 8
    ],
);

/// With all three pending and the mie that a word sets in x9, the step after enabling them has this cause.
fn first_taken(rt: &impl Abort, alloc: Global, sets_mie: u32, cause: u64) {
    let program = [ALL_PENDING, Part::Word(4 * 26, sets_mie)];
    let lines = [
        Line::Run(30),
        Line::Is(Reading::Register(10), 0x888),
        Line::Is(Reading::Pc, 0x80000078),
        Line::Run(1),
        Line::Is(Reading::Mcause, cause),
    ];
    plays(rt, alloc, &BEACON_GUEST, &program, &lines);
}

#[test]
fn interrupts_are_taken_in_their_order(rt: HostRuntime) {
    // ADDI x9, x0, -1912: all of them; 0x88: software and timer; 0x80: the timer's alone
    first_taken(&rt, rt.alloc(), 0x88800493, 0x800000000000000b);
    first_taken(&rt, rt.alloc(), 0x08800493, 0x8000000000000003);
    first_taken(&rt, rt.alloc(), 0x08000493, 0x8000000000000007);
    // none of them: the word 0 behind is illegal
    first_taken(&rt, rt.alloc(), 0x00000493, 2);
}

/// The guest that counts timer interrupts at 0x80001000, each 100 steps after the one before (crate `guest_kit`).
static COUNTER: [Part; 1] = [Part::Words(
    0,
    &[
        0x00001417, 0x0200c2b7, 0x02004337, 0x00000397, 0x02838393, 0x30539073, 0xff82b383,
        0x06438393, 0x00733023, 0x08000393, 0x3043a073, 0x30046073, 0x0000006f, 0x00043383,
        0x00138393, 0x00743023, 0xff82b383, 0x06438393, 0x00733023, 0x30200073,
    ],
)];

static COUNTED: [Line; 2] = [Line::Run(10_000), Line::Bytes(0x1002, &[0, 0, 0, 0, 0, 0])];

#[test]
fn the_counter_counts_timer_interrupts(rt: HostRuntime) {
    let mut machine = booted(&rt, rt.alloc(), &PROGRAM, &COUNTER);
    play(&rt, &mut machine, &COUNTED);
    let count = number(&rt, &machine, 0x1000);
    holds(&rt, "50 to 100", 50 <= count && count <= 100);
}
