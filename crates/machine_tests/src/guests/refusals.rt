//! Steps that are refused until the next settle, runs that stop at a frame, and the numbers and names of refusals.

use super::play::{Line, Part, Reading, plays};
use super::{AVAILABLE, BEACON_GUEST, USED};
use crate::asserts::holds;
use guest_machine::MachineError;
use memory_wanted::reserve;
use std::alloc::Global;
use std::process::Abort;

/// What stands behind the beacon's first notify (in the place of its loop) to make 64 more chains available and notify
/// again, twice, and then one chain more: from 192 frames in the outbox to 193.
const NOTIFY_MORE: [u32; 13] = [
    0x004004ef, // JAL x9, +4: x9 is 0x8000005c
    0x7f248493, // ADDI x9, x9, 2034
    0x7f248493, // ADDI x9, x9, 2034: x9 is 0x80001040, the available ring
    0x00800437, // LUI x8, 0x800: idx 128
    0x0084a023, // SW x8, 0(x9)
    0x0462a823, // SW x6, 0x50(x5): notify
    0x00c00437, // LUI x8, 0xc00: idx 192
    0x0084a023, //
    0x0462a823, // notify
    0x00c10437, // LUI x8, 0xc10: idx 193
    0x0084a023, //
    0x0462a823, // notify
    0x0000006f, // JAL x0, 0
];

/// The beacon with 64 chains available at its first notify.
static MORE: [Part; 2] = [
    Part::Bytes(AVAILABLE + 2, &[64]),
    Part::Words(4 * 22, &NOTIFY_MORE),
];

static REFUSED: [Line; 15] = [
    Line::RunMakes(31, 31),
    Line::Is(Reading::Frames, 192),
    // at 192 frames steps go on, and the third of these sends one more
    Line::RunMakes(u64::MAX, 3),
    Line::Is(Reading::Frames, 193),
    Line::Is(Reading::Steps, 34),
    Line::Is(Reading::Pc, LAST),
    // at 193 a step is refused, and nothing is changed
    Line::RunMakes(2, 0),
    Line::StepRefused,
    Line::Is(Reading::Steps, 34),
    Line::Is(Reading::Pc, LAST),
    Line::Is(Reading::Frames, 193),
    Line::Is(Reading::Number(USED + 2), 193),
    Line::Settle,
    Line::StepMade,
    Line::Is(Reading::Steps, 35),
];

/// The address of the last of those words.
const LAST: u64 = 0x8000_0000 + 4 * 34;

#[test]
fn a_step_needs_64_free_places(rt: HostRuntime) {
    plays(&rt, rt.alloc(), &BEACON_GUEST, &MORE, &REFUSED);
}

static STOPS: [Line; 12] = [
    Line::RunToFrameMakes(21, 21),
    Line::Is(Reading::Frames, 0),
    Line::RunToFrameMakes(u64::MAX, 1),
    Line::Is(Reading::Frames, 64),
    Line::RunToFrameMakes(5, 0),
    Line::Is(Reading::Steps, 22),
    Line::ClearOutbox,
    Line::Is(Reading::Frames, 0),
    // the used ring was written, and still counts so
    Line::Is(Reading::Dirty(1), 1),
    Line::RunToFrameMakes(u64::MAX, 6),
    Line::Is(Reading::Frames, 64),
    Line::Is(Reading::Steps, 28),
];

#[test]
fn a_run_stops_after_a_step_that_sent_frames(rt: HostRuntime) {
    plays(&rt, rt.alloc(), &BEACON_GUEST, &MORE, &STOPS);
}

/// A refusal has this number, this name, and this text.
fn assert_name(rt: &impl Abort, alloc: Global, error: MachineError, number: u32, name: &str) {
    holds(rt, "the number", error.number() == number);
    holds(rt, "the name", error.name() == name);
    assert_text(rt, alloc, &error, name);
}

fn assert_text(rt: &impl Abort, alloc: Global, error: &MachineError, name: &str) {
    let text = format!(in alloc; "{error}").expect(rt, "memory for the text");
    holds(rt, "the text", text.as_str() == name);
}

#[test]
fn refusals_have_their_numbers_and_names(rt: HostRuntime) {
    let wanted = reserve(&mut Vec::<u64>::new(rt.alloc()), usize::MAX).expect_err(
        &rt,
        "no machine has that much",
    );
    assert_name(&rt, rt.alloc(), MachineError::from(wanted), 12, "NoMemory");
    assert_name(&rt, rt.alloc(), MachineError::CutNeeded, 13, "CutNeeded");
}
