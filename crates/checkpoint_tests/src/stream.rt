//! The bytes of the beacon's checkpoint, written by oracle/checkpoints.py, and what becomes of them where one is set otherwise.

mod hostile;
mod versions;

use crate::asserts::{holds, holds_at, made};
use crate::checkpoints::{Row, assert_rows};
use crate::refusals::{assert_called, refused};
use crate::texts::{next, set, stands, takes};
use checkpoint_stream::{Reader, StreamError};
use guest_machine::Shape;
use std::alloc::Global;
use std::process::Abort;

/// The checkpoint of the beacon after 22 steps, on 2 pages and 1 sector, of version 1.
#[rattlefmt::skip]
static BEACON: [u8; 608] = [
    0x52, 0x4d, 0x43, 0x31, 2, 0, 0, 0, 1, 0, 0, 0, 1, 0, 0, 0, 0, 0, 0, 0, 1, 0, 0, 0, 0, 0, 0, 0, 0x16, 0, 0, 0, 0,
    0, 0, 0, 0, 0, 0, 0, 0, 0, 0, 0, 0, 0, 0, 0, 0, 0, 0, 0, 0, 0, 0, 0, 0, 0, 0, 0, 0, 0, 0, 0, 0, 0, 0, 0, 0, 0x10,
    0, 0x10, 0, 0, 0, 0, 1, 0, 0, 0, 0, 0, 0, 0, 0xf, 0, 0, 0, 0, 0, 0, 0, 0xb, 0, 0, 0, 0, 0, 0, 0, 0, 0, 0, 0, 0,
    0, 0, 0, 0, 0, 0, 0, 0, 0, 0, 0, 0, 0, 0, 0, 0, 0, 0, 0, 0, 0, 0, 0, 0, 0, 0, 0, 0, 0, 0, 0, 0, 0, 0, 0, 0, 0, 0,
    0, 0, 0, 0, 0, 0, 0, 0, 0, 0, 0, 0, 0, 0, 0, 0, 0, 0, 0, 0, 0, 0, 0, 0, 0, 0, 0, 0, 0, 0, 0, 0, 0, 0, 0, 0, 0, 0,
    0, 0, 0, 0, 0, 0, 0, 0, 0, 0, 0, 0, 0, 0, 0, 0, 0, 0, 0, 0, 0, 0, 0, 0, 0, 0, 0, 0, 0, 0, 0, 0, 0, 0, 0, 0, 0, 0,
    0, 0, 0, 0, 0, 0, 0, 0, 0, 0, 0, 0, 0, 0, 0, 0, 0, 0, 0, 0, 0, 0, 0, 0, 0, 0, 0, 0, 0, 0, 0, 0, 0, 0, 0, 0, 0, 0,
    0, 0, 0, 0, 0, 0, 0, 0, 0, 0, 0, 0, 0, 0, 0, 0, 0, 0, 0, 0, 0, 0, 0, 0, 0, 0, 0, 0x58, 0, 0, 0x80, 0, 0, 0, 0, 0,
    0x18, 0, 0, 0, 0, 0, 0, 0, 0, 0, 0, 0, 0, 0, 0, 0, 0, 0, 0, 0, 0, 0, 0, 0, 0, 0, 0, 0, 0, 0, 0, 0, 0, 0, 0, 0, 0,
    0, 0, 0, 0, 0, 0, 0, 0, 0, 0, 0, 0, 0, 0, 0, 0, 0, 0, 0, 0, 0, 0, 0xff, 0xff, 0xff, 0xff, 0xff, 0xff, 0xff, 0xff,
    0xf, 0, 0, 0, 0, 0, 0, 0, 1, 0, 0, 0, 0, 0, 0, 0, 1, 0, 0, 0, 1, 0, 0, 0, 1, 0, 0, 0, 0, 0, 0, 0, 0, 0, 0, 0, 0,
    0, 0, 0, 0, 0, 0, 0, 0, 0, 0, 0, 0, 0, 0, 0, 0, 0, 0, 0, 0, 0, 0, 0, 0, 0, 0, 0, 1, 0, 0, 0, 1, 0, 0, 0, 0, 0x10,
    0, 0x80, 0, 0, 0, 0, 0x40, 0x10, 0, 0x80, 0, 0, 0, 0, 0x80, 0x10, 0, 0x80, 0, 0, 0, 0, 1, 0, 1, 0, 0, 0, 0, 0, 0,
    0, 0, 0, 0, 0, 0, 0, 0, 0, 0, 0, 0, 0, 0, 0, 0, 0, 0, 0, 0, 0, 0, 0, 0, 0, 0, 0, 0, 0, 0, 0, 0, 0, 0, 0, 0, 0, 0,
    0, 0, 0, 0, 0, 0, 0, 0, 0, 0, 0, 0, 0, 0, 0, 0, 0, 0, 0, 0, 0, 1, 0, 0, 0, 1, 0, 0, 0, 4, 0, 0, 0, 0, 0, 0, 0, 0,
    0, 1, 0, 0, 0, 0, 0, 0, 0, 0, 0, 0, 0, 0, 0, 0, 0, 0, 0, 0, 0, 0, 0, 0, 0, 0, 0, 0, 0, 0, 0, 0, 0, 0, 0, 0, 0, 0,
    0, 0, 0, 0, 0, 0, 0, 0, 0, 0, 0, 0, 0, 0, 0, 0, 0, 0, 0, 0, 0, 0, 0, 0, 0, 0, 0, 0, 0,
];

/// Bytes to be set in the beacon's checkpoint, and the offset of the unit that then breaks its rule.
static MALFORMATIONS: [(usize, u8, u64); 14] = [
    (0, 0, 0),
    (4, 3, 4),
    (12, 0, 12),
    (27, 0x40, 20),
    (284, 0x59, 284),
    (293, 0, 292),
    (348, 2, 348),
    (360, 0x1f, 360),
    (524, 2, 604),
    (524, 3, 524),
    (528, 2, 528),
    (532, 0, 532),
    (542, 0, 540),
    (604, 2, 604),
];

fn shape() -> Shape {
    Shape {
        pages: 2,
        sectors: 1,
    }
}

/// Feeds a piece, over each checkpoint that comes whole, and counts these.
fn read_piece(
    rt: &impl Abort,
    reader: &mut Reader,
    piece: &[u8],
    found: &mut u64,
) -> Result<(), StreamError> {
    let mut rest = piece;
    for _ in 0..3u8 {
        let count = reader.feed(rest)?;
        holds(rt, "no more", count <= rest.len());
        rest = &rest[count..];
        *found = found.saturating_add(u64::from(stands(reader)));
    }
    Ok(())
}

/// Feeds bytes in pieces of so many, and counts the checkpoints that come whole.
fn read_pieces(
    rt: &impl Abort,
    reader: &mut Reader,
    bytes: &[u8],
    size: usize,
    found: &mut u64,
) -> Result<(), StreamError> {
    for piece in bytes.chunks(size.max(1)) {
        read_piece(rt, reader, piece, found)?;
    }
    Ok(())
}

/// Whether a reader that refused a stream at this offset does so again.
fn refuses(reader: &mut Reader, piece: &[u8], at: u64) -> bool {
    matches!(reader.feed(piece), Err(StreamError::Malformed(same)) if same == at)
}

/// Feeds bytes in pieces of so many. Answers how many checkpoints came, and the offset of a malformation, which stays.
fn read(rt: &impl Abort, alloc: Global, bytes: &[u8], size: usize) -> (u64, Option<u64>) {
    let mut reader = Reader::new(alloc, shape());
    let mut found = 0;
    match read_pieces(rt, &mut reader, bytes, size, &mut found) {
        Ok(()) => (found, None),
        Err(StreamError::Malformed(at)) => {
            holds(rt, "it stays refused", refuses(&mut reader, &[], at));
            (found, Some(at))
        }
        Err(StreamError::NoMemory(_)) => panic!(rt; "there is memory"),
    }
}

/// In pieces of each of these sizes so many checkpoints come, and there is a malformation, or none.
fn assert_reads(
    rt: &impl Abort,
    alloc: Global,
    bytes: &[u8],
    sizes: &[usize],
    wanted: (u64, Option<u64>),
) {
    for size in sizes {
        let found = read(rt, alloc, bytes, *size);
        holds_at(rt, "in pieces of", *size, found == wanted);
    }
}

/// A text after another, with a byte set otherwise.
fn changed(
    rt: &impl Abort,
    alloc: Global,
    before: &[u8],
    text: &[u8],
    (place, value): (usize, u8),
) -> Vec<u8> {
    let mut bytes = made(rt, Vec::from_slice(alloc, before));
    made(rt, bytes.extend_from_slice(text));
    set(&mut bytes, before.len().saturating_add(place), value);
    bytes
}

/// So it's read.
fn assert_changed(
    rt: &impl Abort,
    alloc: Global,
    (before, text): (&[u8], &[u8]),
    change: (usize, u8),
    sizes: &[usize],
    wanted: (u64, Option<u64>),
) {
    let bytes = changed(rt, alloc, before, text, change);
    assert_reads(rt, alloc, bytes.as_slice(), sizes, wanted);
}

/// Each malformation of a text is met at its unit, also after a whole checkpoint.
fn assert_malformations(rt: &impl Abort, alloc: Global, text: &[u8], sizes: &[usize]) {
    for (place, value, wanted) in &MALFORMATIONS {
        let change = (*place, *value);
        let second = wanted.saturating_add(text.len() as u64);
        assert_changed(rt, alloc, (&[], text), change, sizes, (0, Some(*wanted)));
        assert_changed(rt, alloc, (text, text), change, sizes, (1, Some(second)));
    }
}

/// The old beacon's text but its last byte, then that one, and then what isn't taken while a checkpoint stands.
fn feed_old_beacon(rt: &impl Abort, reader: &mut Reader) {
    holds(rt, "it takes all but one", takes(reader, &BEACON[..607]));
    holds(rt, "none stands", !stands(reader));
    holds(rt, "it takes the last", takes(reader, &BEACON[607..]));
    holds(
        rt,
        "it takes no more",
        matches!(reader.feed(&[1, 2, 3]), Ok(0)),
    );
}

#[test]
fn the_old_beacon_is_read(rt: HostRuntime) {
    static ROWS: [Row; 3] = [
        Row::Head([1, 1, 1, 0]),
        Row::State([2, 22, 0x8000_0058, 15]),
        Row::Counts([1, 1, 0, 0]),
    ];
    let mut reader = Reader::new(rt.alloc(), shape());
    feed_old_beacon(&rt, &mut reader);
    let checkpoint = next(&rt, rt.alloc(), &mut reader);
    holds(&rt, "none stands any more", !stands(&mut reader));
    assert_rows(&rt, &checkpoint, &ROWS);
}

#[test]
fn each_malformation_is_met_at_its_unit(rt: HostRuntime) {
    assert_malformations(&rt, rt.alloc(), &BEACON, &[1, 7, 64, 512, 2000]);
}

#[test]
fn a_stream_comes_in_any_pieces(rt: HostRuntime) {
    static SIZES: [usize; 10] = [1, 2, 3, 63, 64, 65, 607, 608, 609, 1216];
    let mut two = made(&rt, Vec::from_slice(rt.alloc(), &BEACON));
    made(&rt, two.extend_from_slice(&BEACON));
    assert_reads(&rt, rt.alloc(), two.as_slice(), &SIZES, (2, None));
}

#[test]
fn refusals_have_numbers_and_names(rt: HostRuntime) {
    let malformed = StreamError::Malformed(7);
    assert_called(
        &rt,
        (u32::from(malformed.number()), malformed.name()),
        (11, "Malformed"),
    );
    let refused = StreamError::from(refused(&rt, rt.alloc()));
    assert_called(
        &rt,
        (u32::from(refused.number()), refused.name()),
        (12, "NoMemory"),
    );
}
