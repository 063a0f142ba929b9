//! Streams cut in two at each place, and what comes after a malformation.

use super::{BEACON, MALFORMATIONS, changed, refuses, shape};
use crate::asserts::{holds, holds_at, made};
use crate::texts::{back, front, next, set, stands, takes, text_of};
use checkpoint_stream::Reader;
use guest_machine::Shape;
use std::alloc::Global;
use std::process::Abort;

/// What one more piece is answered by a reader that refused a stream at this offset: the same, and no checkpoint.
fn assert_refuses(rt: &impl Abort, reader: &mut Reader, piece: &[u8], at: u64) {
    holds_at(rt, "malformed at", at as usize, refuses(reader, piece, at));
    holds_at(rt, "nothing stands at", at as usize, !stands(reader));
}

/// It answers so whatever comes: nothing, one byte, a good checkpoint; and again.
fn assert_stays_refused(rt: &impl Abort, reader: &mut Reader, at: u64) {
    for _ in 0..2u8 {
        assert_refuses(rt, reader, &[], at);
        assert_refuses(rt, reader, &BEACON[..1], at);
        assert_refuses(rt, reader, &BEACON, at);
    }
}

/// A malformed checkpoint, cut in two at this place, is refused at this offset, and stays so.
fn assert_refused_in_two(rt: &impl Abort, alloc: Global, bytes: &[u8], cut: usize, at: u64) {
    let mut reader = Reader::new(alloc, shape());
    if takes(&mut reader, front(bytes, cut)) {
        assert_refuses(rt, &mut reader, back(bytes, cut), at);
    }
    assert_stays_refused(rt, &mut reader, at);
}

/// So it is wherever it is cut.
fn assert_refused(rt: &impl Abort, alloc: Global, change: (usize, u8), at: u64) {
    let bytes = changed(rt, alloc, &[], &BEACON, change);
    for cut in 0..609usize {
        assert_refused_in_two(rt, alloc, bytes.as_slice(), cut, at);
    }
}

#[test]
fn a_malformed_stream_is_refused_for_good_wherever_it_is_cut(rt: HostRuntime) {
    for (place, value, wanted) in &MALFORMATIONS {
        assert_refused(&rt, rt.alloc(), (*place, *value), *wanted);
    }
}

/// The checkpoint of the guest that writes sector 3, as examples/sector.stream has it.
fn sector_stream(rt: &impl Abort, alloc: Global) -> Vec<u8> {
    let mut bytes = made(rt, Vec::with_capacity(alloc, SECTOR_STREAM_BYTES));
    for (place, part) in &SECTOR_STREAM {
        made(rt, bytes.resize(*place, 0));
        made(rt, bytes.extend_from_slice(part));
    }
    made(rt, bytes.resize(SECTOR_STREAM_BYTES - 512, 0));
    made(rt, bytes.resize(SECTOR_STREAM_BYTES, 0xab));
    bytes
}

const SECTOR_STREAM_BYTES: usize = 1188;

/// The bytes before the sector's that aren't 0, by their place.
static SECTOR_STREAM: [(usize, &[u8]); 29] = [
    (0x000, &[0x52, 0x4d, 0x43, 0x31, 2]),
    (0x008, &[8]),
    (0x00c, &[1]),
    (0x014, &[1]),
    (0x01c, &[0x17]),
    (0x045, &[0x20, 0, 0x10]),
    (0x04c, &[1]),
    (0x054, &[0x0f]),
    (0x05c, &[0x0b]),
    (0x11c, &[0x5c, 0, 0, 0x80]),
    (0x125, &[0x18]),
    (0x160, &[0xff, 0xff, 0xff, 0xff, 0xff, 0xff, 0xff, 0xff]),
    (0x1cc, &[0x0f]),
    (0x1d4, &[1]),
    (0x1dc, &[1]),
    (0x1e4, &[1]),
    (0x1e8, &[4]),
    (0x1ec, &[1]),
    (0x1f1, &[0x10, 0, 0x80]),
    (0x1f8, &[0x40, 0x10, 0, 0x80]),
    (0x200, &[0x80, 0x10, 0, 0x80]),
    (0x208, &[1, 0, 1, 0, 1]),
    (0x210, &[1]),
    (0x214, &[0x14]),
    (0x21e, &[1]),
    (0x224, &[1]),
    (0x26c, &[0xff]),
    (0x29c, &[1]),
    (0x2a0, &[3]),
];

/// The same checkpoint in version 2: another first number, and no frames at the end.
fn in_version_2(rt: &impl Abort, alloc: Global, text: &[u8]) -> Vec<u8> {
    let mut bytes = made(rt, Vec::from_slice(alloc, text));
    set(&mut bytes, 3, 0x32);
    made(rt, bytes.extend_from_slice(&[0; 4]));
    bytes
}

/// The checkpoint that stands whole in a reader is the one whose text this is.
pub(super) fn assert_next(
    rt: &impl Abort,
    alloc: Global,
    reader: &mut Reader,
    text: &[u8],
    cut: usize,
) {
    let checkpoint = next(rt, alloc, reader);
    let read = text_of(rt, alloc, &checkpoint);
    holds_at(rt, "cut at", cut, read.as_slice() == text);
}

/// A text that comes in two pieces, cut at this place, gives the checkpoint whose text it is.
fn reads_in_two(rt: &impl Abort, alloc: Global, shape: Shape, text: &[u8], cut: usize) {
    let mut reader = Reader::new(alloc, shape);
    holds(
        rt,
        "it takes the front",
        takes(&mut reader, front(text, cut)),
    );
    holds(rt, "it takes the back", takes(&mut reader, back(text, cut)));
    assert_next(rt, alloc, &mut reader, text, cut);
}

/// Feeds bytes one by one, before each of which no checkpoint stands.
fn feed_bytes(rt: &impl Abort, reader: &mut Reader, text: &[u8]) {
    for byte in text.chunks(1) {
        holds(rt, "none stands", !stands(reader));
        holds(rt, "it takes the byte", takes(reader, byte));
    }
}

/// So does one that comes byte by byte.
fn reads_by_bytes(rt: &impl Abort, alloc: Global, shape: Shape, text: &[u8]) {
    let mut reader = Reader::new(alloc, shape);
    feed_bytes(rt, &mut reader, text);
    assert_next(rt, alloc, &mut reader, text, 0);
}

/// The text of a version-1 checkpoint, in version 2, is read in any pieces.
fn reads_in_pieces(rt: &impl Abort, alloc: Global, shape: Shape, text: &[u8]) {
    let text = in_version_2(rt, alloc, text);
    reads_by_bytes(rt, alloc, shape, text.as_slice());
    for cut in 1..text.len() {
        reads_in_two(rt, alloc, shape, text.as_slice(), cut);
    }
}

#[test]
fn a_text_in_pieces_is_the_checkpoint_of_the_whole(rt: HostRuntime) {
    let eight = Shape {
        pages: 2,
        sectors: 8,
    };
    reads_in_pieces(&rt, rt.alloc(), shape(), &BEACON);
    let sector = sector_stream(&rt, rt.alloc());
    reads_in_pieces(&rt, rt.alloc(), eight, sector.as_slice());
}
