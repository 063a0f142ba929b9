//! The CSRs at boot, what a write leaves, and a trap and its return.

use crate::asserts::{holds, holds_at};
use mtraps::interrupts::{EXTERNAL, INTERRUPT, SOFTWARE, TIMER};
use mtraps::{Csrs, numbers};
use std::process::Abort;

/// A guest that takes timer interrupts in vectored mode, at the base 0x80000200.
fn with_timer() -> Csrs {
    static WRITES: [(u16, u64); 3] = [
        (numbers::MSTATUS, 8),
        (numbers::MIE, 1 << 7),
        (numbers::MTVEC, 0x8000_0201),
    ];
    let mut csrs = Csrs::boot();
    for (number, value) in &WRITES {
        let _ = csrs.write(*number, *value);
    }
    csrs
}

/// What the CSR of this number reads, where there is one.
fn assert_read(rt: &impl Abort, csrs: &Csrs, number: u16, value: Option<u64>) {
    holds_at(rt, "CSR", number.into(), csrs.read(number) == value);
}

/// The interrupt that is taken where these are pending.
fn assert_taken(rt: &impl Abort, csrs: &Csrs, pending: u64, cause: Option<u64>) {
    holds(rt, "the cause", csrs.pending(pending) == cause);
}

#[test]
fn boot_values(rt: HostRuntime) {
    static ZERO: [u16; 12] = [
        0x304, 0x305, 0x340, 0x341, 0x342, 0x343, 0x344, 0xf11, 0xf12, 0xf13, 0xf14, 0xf15,
    ];
    static NONE: [u16; 11] = [
        0x000, 0x302, 0x303, 0x306, 0x33f, 0x345, 0xb00, 0xc00, 0xf10, 0xf16, 0xffff,
    ];
    let csrs = Csrs::boot();
    assert_read(&rt, &csrs, 0x300, Some(0x1800));
    assert_read(&rt, &csrs, 0x301, Some(0x8000_0000_0000_1100));
    for number in &ZERO {
        assert_read(&rt, &csrs, *number, Some(0));
    }
    for number in &NONE {
        assert_read(&rt, &csrs, *number, None);
    }
}

/// A write to the CSR of this number is made.
fn assert_writes(rt: &impl Abort, csrs: &mut Csrs, number: u16, value: u64) {
    holds_at(
        rt,
        "CSR",
        number.into(),
        csrs.write(number, value).is_some(),
    );
}

/// A write of all ones leaves this of a CSR.
fn assert_kept(rt: &impl Abort, number: u16, kept: u64) {
    let mut csrs = Csrs::boot();
    assert_writes(rt, &mut csrs, number, u64::MAX);
    assert_read(rt, &csrs, number, Some(kept));
}

/// A write to the CSR of this number is refused, and changes nothing.
fn assert_refused(rt: &impl Abort, number: u16) {
    let mut csrs = with_timer();
    let refused = csrs.write(number, u64::MAX).is_none();
    holds_at(rt, "CSR", number.into(), refused && csrs == with_timer());
}

#[test]
fn writes_of_all_ones(rt: HostRuntime) {
    static KEPT: [(u16, u64); 9] = [
        (0x300, 0x1888),
        (0x301, 0x8000_0000_0000_1100),
        (0x304, 0x888),
        (0x305, 0xffff_ffff_ffff_fffd),
        (0x340, u64::MAX),
        (0x341, 0xffff_ffff_ffff_fffc),
        (0x342, u64::MAX),
        (0x343, u64::MAX),
        (0x344, 0),
    ];
    static REFUSED: [u16; 7] = [0x302, 0x345, 0xf11, 0xf12, 0xf13, 0xf14, 0xf15];
    for (number, kept) in &KEPT {
        assert_kept(&rt, *number, *kept);
    }
    for number in &REFUSED {
        assert_refused(&rt, *number);
    }
}

/// A trap of this cause and value, at this pc, goes on at a handler.
fn assert_enters(rt: &impl Abort, csrs: &mut Csrs, (cause, value, pc): (u64, u64, u64), to: u64) {
    holds(rt, "the handler", csrs.enter(cause, value, pc) == to);
}

/// MRET goes back to this pc.
fn assert_returns(rt: &impl Abort, csrs: &mut Csrs, pc: u64) {
    holds(rt, "the pc", csrs.mret() == pc);
}

#[test]
fn a_timer_interrupt_and_its_return(rt: HostRuntime) {
    let mut csrs = with_timer();
    let cause = 0x8000_0000_0000_0007;
    assert_taken(&rt, &csrs, TIMER, Some(cause));
    assert_enters(&rt, &mut csrs, (cause, 0, 0x8000_0048), 0x8000_021c);
    assert_read(&rt, &csrs, 0x342, Some(cause));
    assert_read(&rt, &csrs, 0x341, Some(0x8000_0048));
    assert_read(&rt, &csrs, 0x300, Some(0x1880));
    assert_taken(&rt, &csrs, TIMER, None);
    assert_returns(&rt, &mut csrs, 0x8000_0048);
    assert_read(&rt, &csrs, 0x300, Some(0x1888));
}

#[test]
fn an_exception_goes_to_the_base(rt: HostRuntime) {
    let mut csrs = with_timer();
    assert_enters(&rt, &mut csrs, (2, 0xf140_1073, 0x8000_0010), 0x8000_0200);
    assert_read(&rt, &csrs, 0x342, Some(2));
    assert_read(&rt, &csrs, 0x343, Some(0xf140_1073));
}

#[test]
fn interrupts_are_taken_in_their_order(rt: HostRuntime) {
    let mut csrs = with_timer();
    assert_taken(&rt, &csrs, SOFTWARE | EXTERNAL, None);
    assert_writes(&rt, &mut csrs, 0x304, 0x888);
    let all = SOFTWARE | TIMER | EXTERNAL;
    assert_taken(&rt, &csrs, all, Some(INTERRUPT + 11));
    assert_taken(&rt, &csrs, SOFTWARE | TIMER, Some(INTERRUPT + 3));
    assert_taken(&rt, &csrs, TIMER, Some(INTERRUPT + 7));
    assert_taken(&rt, &csrs, !0x888, None);
}
