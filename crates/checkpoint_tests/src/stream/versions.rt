//! The beacon's checkpoint of version 2, with its frame, and what becomes of it where bytes are set otherwise or come in pieces.

use super::{BEACON, assert_changed, assert_malformations, assert_reads, shape};
use crate::asserts::{holds, made};
use crate::checkpoints::{Row, assert_rows};
use crate::texts::{back, front, push_frames, read_whole, set, stands, takes, text_of};
use checkpoint_stream::Reader;
use std::alloc::Global;
use std::process::Abort;

/// What follows the sector records: one frame of 14 bytes, a header to client 1 from the guest.
static FRAMES: [u8; 22] = [
    1, 0, 0, 0, 14, 0, 0, 0, 2, 0, 0, 0, 1, 1, 2, 0, 0, 0, 0, 1, 0x88, 0xb5,
];

/// Where in the text, of 630 bytes, the count of the frames stands, and the first one's length.
const COUNT: usize = 608;

const LENGTH: usize = 612;

/// The checkpoint of the beacon after 22 steps, on 2 pages and 1 sector.
fn beacon(rt: &impl Abort, alloc: Global) -> Vec<u8> {
    let mut bytes = made(rt, Vec::from_slice(alloc, &BEACON));
    made(rt, bytes.extend_from_slice(&FRAMES));
    set(&mut bytes, 3, 0x32);
    bytes
}

#[test]
fn the_beacon_is_read_and_written(rt: HostRuntime) {
    static ROWS: [Row; 3] = [
        Row::Head([2, 1, 1, 0]),
        Row::Counts([1, 1, 0, 1]),
        Row::Frames,
    ];
    let bytes = beacon(&rt, rt.alloc());
    holds(&rt, "630 bytes", bytes.len() == 630);
    let checkpoint = read_whole(&rt, rt.alloc(), shape(), bytes.as_slice());
    assert_rows(&rt, &checkpoint, &ROWS);
    let text = text_of(&rt, rt.alloc(), &checkpoint);
    holds(&rt, "the text", text.as_slice() == bytes.as_slice());
}

/// The units of version 1 break their rules at the offsets of version 1, also after a whole checkpoint.
#[test]
fn each_malformation_is_met_at_its_unit(rt: HostRuntime) {
    let text = beacon(&rt, rt.alloc());
    assert_malformations(&rt, rt.alloc(), text.as_slice(), &[1, 7, 64, 2000]);
}

/// What is read where a byte of the text is set otherwise: the count, the length, and a length that the count didn't announce.
static CHANGES: [(usize, u8, (u64, Option<u64>)); 8] = [
    (LENGTH, 13, (0, Some(612))),
    (LENGTH + 1, 6, (0, Some(612))),
    (COUNT, 0, (1, Some(612))),
    (COUNT, 2, (0, None)),
    (LENGTH, 15, (0, None)),
    (COUNT + 1, 1, (0, Some(608))),
    // A full one has no frames.
    (20, 0, (0, Some(608))),
    // Nor has version 1.
    (3, 0x31, (1, Some(608))),
];

/// So it is.
fn assert_changes(rt: &impl Abort, alloc: Global, text: &[u8]) {
    for (place, value, wanted) in &CHANGES {
        let change = (*place, *value);
        assert_changed(rt, alloc, (&[], text), change, &[1, 7, 64, 2000], *wanted);
    }
}

#[test]
fn frames_keep_their_rules(rt: HostRuntime) {
    let text = beacon(&rt, rt.alloc());
    assert_changes(&rt, rt.alloc(), text.as_slice());
}

/// A checkpoint whose front holds none comes once its back has come too.
fn assert_in_two(rt: &impl Abort, alloc: Global, front: &[u8], back: &[u8]) {
    assert_reads(rt, alloc, front, &[2000], (0, None));
    let mut reader = Reader::new(alloc, shape());
    holds(rt, "it takes the front", takes(&mut reader, front));
    holds(rt, "none stands", !stands(&mut reader));
    holds(rt, "it takes the back", takes(&mut reader, back));
    holds(rt, "one stands", stands(&mut reader));
}

#[test]
fn a_checkpoint_comes_in_two_pieces(rt: HostRuntime) {
    let text = beacon(&rt, rt.alloc());
    for at in 0..630usize {
        let bytes = text.as_slice();
        assert_in_two(&rt, rt.alloc(), front(bytes, at), back(bytes, at));
    }
}

#[test]
fn both_versions_come_in_one_stream(rt: HostRuntime) {
    static SIZES: [usize; 8] = [1, 63, 512, 607, 608, 609, 1238, 1239];
    let mut both = made(&rt, Vec::from_slice(rt.alloc(), &BEACON));
    made(
        &rt,
        both.extend_from_slice(beacon(&rt, rt.alloc()).as_slice()),
    );
    made(&rt, both.extend_from_slice(&BEACON));
    assert_reads(&rt, rt.alloc(), both.as_slice(), &SIZES, (3, None));
}

/// The beacon's delta with so many frames of so many bytes, all zeros, is read so in pieces of these sizes.
fn assert_with_frames(
    rt: &impl Abort,
    alloc: Global,
    frames: (u32, u32),
    sizes: &[usize],
    wanted: (u64, Option<u64>),
) {
    let mut bytes = made(rt, Vec::from_slice(alloc, &BEACON));
    set(&mut bytes, 3, 0x32);
    push_frames(rt, &mut bytes, frames, 0, 0);
    assert_reads(rt, alloc, bytes.as_slice(), sizes, wanted);
}

/// 256 frames of the longest kind are taken, in pieces of any size; no more are, and none that is longer.
#[test]
fn the_most_frames_are_taken(rt: HostRuntime) {
    static SIZES: [usize; 5] = [100, 1000, 1514, 5000, 500000];
    assert_with_frames(&rt, rt.alloc(), (256, 1514), &SIZES, (1, None));
    assert_with_frames(&rt, rt.alloc(), (257, 14), &[1000], (0, Some(608)));
    assert_with_frames(&rt, rt.alloc(), (2, 1515), &[1000], (0, Some(612)));
}
