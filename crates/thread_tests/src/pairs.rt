//! The pairs that are tested, at their start.

use guest_kit::{beacon, echo, idle};
use guest_machine::Shape;
use hypervisor::UnnamedPair;
use std::alloc::Global;
use std::process::Abort;

/// The guest of a pair.
#[derive(Clone, Copy)]
pub(super) enum Guest {
    /// It does nothing.
    Idle,
    /// It sends a frame to client 1 in its step 22.
    Beacon,
    /// It sends each frame back to where it came from. Four frames can wait for it at a time.
    Echo,
    /// It counts in a register for ever.
    Counts,
}

/// The most clients that a pair has.
const MOST_CLIENTS: u64 = 16;

/// The most bytes of an image: the guests here have four pages.
const MOST_BYTES: usize = 4096 * 4;

/// `addi x1, x1, 1` and `j -4`.
const COUNTS: [u8; 8] = [0x93, 0x80, 0x10, 0, 0x6f, 0xf0, 0xdf, 0xff];

/// The image of a guest.
fn image(rt: &impl Abort, alloc: Global, guest: Guest) -> Vec<u8> {
    match guest {
        Guest::Idle => idle(alloc).expect(rt, "memory"),
        Guest::Beacon => beacon(alloc).expect(rt, "memory"),
        Guest::Echo => echo(alloc).expect(rt, "memory"),
        Guest::Counts => Vec::from_slice(alloc, &COUNTS).expect(rt, "memory"),
    }
}

/// A pair of so many clients, whose guest has this image.
fn pair_of(rt: &impl Abort, alloc: Global, image: &[u8], clients: u64) -> UnnamedPair {
    if image.len() > MOST_BYTES || clients < 1 || clients > MOST_CLIENTS {
        panic!(rt; "there is no such pair");
    }
    let shape = Shape {
        pages: 4,
        sectors: 1,
    };
    UnnamedPair::new(alloc, shape, clients, image).expect(rt, "memory")
}

/// A pair of so many clients with this guest.
pub(super) fn pair(rt: &impl Abort, alloc: Global, guest: Guest, clients: u64) -> UnnamedPair {
    let image = image(rt, alloc, guest);
    pair_of(rt, alloc, image.as_slice(), clients)
}
