//! Small guests, whose checkpoints are known byte by byte.

use crate::asserts::{boxed, holds, made};
use guest_kit::{beacon, disk_once};
use guest_machine::{Machine, PAGE_BYTES, Shape};
use std::alloc::Global;
use std::process::Abort;

/// AUIPC x5, 1; SW x0, 0(x5); JAL x0, 0: it writes four zeros at the start of the second page, where zeros stand.
const SAME: [u8; 12] = [0x97, 0x12, 0, 0, 0x23, 0xa0, 0x02, 0, 0x6f, 0, 0, 0];

/// A guest, and after how many steps it has done what it does.
#[derive(Clone, Copy)]
pub(super) enum Guest {
    /// It sends one frame: it notifies queue 1 of its network card in step 22.
    Beacon,
    /// It writes ab into sector 3: it notifies the disk's queue in step 23.
    Disk,
    /// It writes the bytes that a page had, with its second step.
    Same,
}

/// The guest's two pages, and its sectors.
pub(super) fn shape(guest: Guest) -> Shape {
    let sectors = match guest {
        Guest::Disk => 8,
        Guest::Beacon | Guest::Same => 1,
    };
    Shape { pages: 2, sectors }
}

/// What stands in its memory at boot.
pub(super) fn bytes(rt: &impl Abort, alloc: Global, guest: Guest) -> Vec<u8> {
    match guest {
        Guest::Beacon => made(rt, beacon(alloc)),
        Guest::Disk => made(rt, disk_once(alloc, 3, 0xab)),
        Guest::Same => made(rt, Vec::from_slice(alloc, &SAME)),
    }
}

/// The machine at boot, in a box: it's large, and a test that holds it by value is slow to prove.
fn booted(rt: &impl Abort, alloc: Global, shape: Shape, bytes: &[u8]) -> Box<Machine> {
    holds(
        rt,
        "bytes that fit",
        bytes.len() <= PAGE_BYTES * shape.pages as usize,
    );
    boxed(rt, alloc, made(rt, Machine::boot(alloc, shape, bytes)))
}

/// So many steps, none of which is refused.
pub(super) fn run(rt: &impl Abort, machine: &mut Machine, steps: u64) {
    holds(rt, "the steps", machine.run(steps) == steps);
}

/// The guest's machine after so many steps.
pub(super) fn machine_after(
    rt: &impl Abort,
    alloc: Global,
    guest: Guest,
    steps: u64,
) -> Box<Machine> {
    let bytes = bytes(rt, alloc, guest);
    let mut machine = booted(rt, alloc, shape(guest), bytes.as_slice());
    run(rt, &mut machine, steps);
    machine
}
