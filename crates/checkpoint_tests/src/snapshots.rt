//! What is recorded of small guests, whose checkpoints are known byte by byte.

mod frames;

use crate::asserts::holds;
use crate::checkpoints::{Cut, Row, assert_cut};
use crate::guests::{Guest, machine_after};
use std::alloc::Global;
use std::process::Abort;

/// The card has raised the used ring's idx to 1, and nothing else of memory has changed.
#[test]
fn beacon_changes_one_block(rt: HostRuntime) {
    static ROWS: [Row; 5] = [
        Row::Head([2, 1, 1, 0]),
        Row::State([2, 22, 0x8000_0058, 15]),
        Row::Counts([1, 1, 0, 1]),
        Row::Page(0, [1, 4]),
        Row::Block,
    ];
    assert_cut(
        &rt,
        rt.alloc(),
        (Guest::Beacon, 22),
        Cut::Delta(1, 1),
        &ROWS,
    );
}

/// The status byte and the used ring change, in two blocks, and the sector holds the byte.
#[test]
fn disk_changes_two_blocks_and_a_sector(rt: HostRuntime) {
    static ROWS: [Row; 4] = [
        Row::Head([2, 3, 7, 0]),
        Row::Counts([1, 2, 1, 0]),
        Row::Page(0, [1, 0x14]),
        Row::Sector(3, 0xab),
    ];
    assert_cut(&rt, rt.alloc(), (Guest::Disk, 23), Cut::Delta(3, 7), &ROWS);
}

/// The second of the two pages counts as written.
fn assert_dirty(rt: &impl Abort, alloc: Global) {
    let machine = machine_after(rt, alloc, Guest::Same, 2);
    holds(rt, "two pages", machine.shape().pages == 2);
    holds(rt, "written", machine.dirty(1));
}

/// A page written with the bytes that it had counts as written, and stands in no checkpoint.
#[test]
fn page_written_with_its_bytes_is_left_out(rt: HostRuntime) {
    static ROWS: [Row; 1] = [Row::Counts([0, 0, 0, 0])];
    assert_dirty(&rt, rt.alloc());
    assert_cut(&rt, rt.alloc(), (Guest::Same, 2), Cut::Delta(1, 1), &ROWS);
}

/// A full checkpoint holds the program's page with its two blocks, the rings' page, and the one sector that isn't zero.
#[test]
fn full_checkpoint_of_the_disk_guest(rt: HostRuntime) {
    static ROWS: [Row; 4] = [
        Row::Head([2, 1, 0, 1]),
        Row::Counts([2, 14, 1, 0]),
        Row::Page(0, [0, 3]),
        Row::Page(1, [1, 0xff17]),
    ];
    assert_cut(&rt, rt.alloc(), (Guest::Disk, 23), Cut::Full(1), &ROWS);
}
