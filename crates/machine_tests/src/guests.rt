//! Whole runs of small guests, with the values that the rules give.

mod disk;
mod disk_interrupts;
mod hostile;
mod images;
mod interrupts;
mod laps;
mod loads;
mod network;
mod paces;
mod ping;
mod play;
mod program_words;
mod programs;
mod refusals;
mod traps;

use crate::asserts::holds;
use guest_machine::{Machine, PAGE_BYTES, Shape};
use play::{Guest, Part};
use std::alloc::Global;
use std::process::Abort;

/// The guest that sends one frame to client 1: it sets up queue 1 with one descriptor, notifies it in step 22, and then loops.
const BEACON: [u32; 23] = [
    0x100012b7, 0x00100313, 0x0662a823, 0x00300393, 0x0672a823, 0x0262a223, 0x0262a023, 0x00b00393,
    0x0672a823, 0x0702a403, 0x0262a823, 0x0262ac23, 0x800013b7, 0x0872a023, 0x04038393, 0x0872a823,
    0x04038393, 0x0a72a023, 0x0462a223, 0x00f00393, 0x0672a823, 0x0462a823, 0x0000006f,
];

/// The beacon's frame: to 02:00:00:00:01:01, from 02:00:00:00:00:01, of type 88b5.
const FRAME: [u8; 14] = [2, 0, 0, 0, 1, 1, 2, 0, 0, 0, 0, 1, 0x88, 0xb5];

/// Where the beacon keeps its descriptor, its available ring, its used ring and its buffer.
const DESCRIPTOR: usize = 0x1000;

const AVAILABLE: usize = 0x1040;

const USED: usize = 0x1080;

const BUFFER: usize = 0x1100;

/// The guest whose image is the beacon's. Its machine has two pages and one sector.
static BEACON_GUEST: Guest = Guest {
    pages: 2,
    sectors: 1,
    bytes: 2 * PAGE_BYTES,
    parts: &[
        Part::Words(0, &BEACON),
        Part::Bytes(DESCRIPTOR, &[0x00, 0x11, 0x00, 0x80, 0, 0, 0, 0, 26]),
        Part::Bytes(AVAILABLE, &[0, 0, 1, 0]),
        Part::Bytes(BUFFER + 12, &FRAME),
    ],
};

/// The guest of a program alone: a machine as the beacon's, whose image is a page of zeros until a test puts its words there.
static PROGRAM: Guest = Guest {
    pages: 2,
    sectors: 1,
    bytes: PAGE_BYTES,
    parts: &[],
};

/// The machine of this shape with this image, in a box: it's large, and a test that holds it by value is slow to prove.
fn boot_shape(rt: &impl Abort, alloc: Global, shape: Shape, image: &[u8]) -> Box<Machine> {
    holds(
        rt,
        "an image that fits",
        image.len() <= PAGE_BYTES * shape.pages as usize,
    );
    let machine = Machine::boot(alloc, shape, image).expect(rt, "memory for the machine");
    in_box(rt, alloc, machine)
}

fn in_box(rt: &impl Abort, alloc: Global, machine: Machine) -> Box<Machine> {
    Box::new(alloc, machine)
        .ok()
        .expect(rt, "memory for its box")
}
