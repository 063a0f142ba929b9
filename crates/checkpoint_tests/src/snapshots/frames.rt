//! The frames that a delta carries, and that a full checkpoint doesn't.

use crate::asserts::holds;
use crate::checkpoints::{Cut, Row, assert_cut, assert_frames, assert_rows, cut_of};
use crate::guests::{Guest, machine_after};
use epoch_snapshot::Checkpoint;
use std::alloc::Global;
use std::process::Abort;

/// What the beacon's checkpoint is taken apart into: its frame.
fn assert_taken_apart(rt: &impl Abort, checkpoint: Box<Checkpoint>) {
    let frames = Box::into_inner(checkpoint).into_frames();
    holds(rt, "one frame", frames.len() == 1);
    assert_frames(rt, &frames);
}

/// The beacon's next checkpoint, once its machine is settled, carries no frame.
fn assert_settles(rt: &impl Abort, alloc: Global) {
    static ROWS: [Row; 1] = [Row::Counts([0, 0, 0, 0])];
    let mut machine = machine_after(rt, alloc, Guest::Beacon, 22);
    machine.settle();
    let checkpoint = cut_of(rt, alloc, &machine, Cut::Delta(1, 2));
    assert_rows(rt, &checkpoint, &ROWS);
}

#[test]
fn delta_carries_the_beacons_frame(rt: HostRuntime) {
    static ROWS: [Row; 3] = [
        Row::Head([2, 1, 1, 0]),
        Row::Counts([1, 1, 0, 1]),
        Row::Frames,
    ];
    let machine = machine_after(&rt, rt.alloc(), Guest::Beacon, 22);
    let checkpoint = cut_of(&rt, rt.alloc(), &machine, Cut::Delta(1, 1));
    assert_rows(&rt, &checkpoint, &ROWS);
    assert_taken_apart(&rt, checkpoint);
    assert_settles(&rt, rt.alloc());
}

#[test]
fn full_checkpoint_carries_none(rt: HostRuntime) {
    static ROWS: [Row; 2] = [Row::Head([2, 1, 0, 1]), Row::Frames];
    assert_cut(&rt, rt.alloc(), (Guest::Beacon, 22), Cut::Full(1), &ROWS);
}
