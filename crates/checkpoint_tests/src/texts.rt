//! Checkpoints as bytes.

use crate::asserts::{boxed, holds, made};
use crate::checkpoints::{Cut, cut_of};
use crate::guests::{Guest, machine_after};
use checkpoint_stream::{Reader, encode};
use epoch_snapshot::Checkpoint;
use guest_machine::{Machine, Shape};
use std::alloc::Global;
use std::process::Abort;

/// The text of a checkpoint that was cut here, or of one that was read in version 2.
pub(super) fn text_of(rt: &impl Abort, alloc: Global, checkpoint: &Checkpoint) -> Vec<u8> {
    holds(rt, "version 2", checkpoint.version() == 2);
    made(rt, encode(alloc, checkpoint))
}

/// The text of a machine's checkpoint.
pub(super) fn cut_text(rt: &impl Abort, alloc: Global, machine: &Machine, which: Cut) -> Vec<u8> {
    let checkpoint = cut_of(rt, alloc, machine, which);
    text_of(rt, alloc, &checkpoint)
}

/// The text of the beacon's checkpoint after so many steps.
pub(super) fn beacon_text(rt: &impl Abort, alloc: Global, steps: u64, which: Cut) -> Vec<u8> {
    let machine = machine_after(rt, alloc, Guest::Beacon, steps);
    cut_text(rt, alloc, &machine, which)
}

/// Sets a byte of a text, if it has it.
pub(super) fn set(text: &mut Vec<u8>, at: usize, value: u8) {
    if let Some(byte) = text.get_mut(at) {
        *byte = value;
    }
}

/// Makes a text of version 2 one of version 1, which has so many bytes: it ends with the sector records.
pub(super) fn put_version_1(text: &mut Vec<u8>, count: usize) {
    text.truncate(count);
    set(text, 3, b'1');
}

/// Adds so many frames of so many bytes each. Those of the first are this one, and those of each further one are one more, or the same.
pub(super) fn push_frames(
    rt: &impl Abort,
    text: &mut Vec<u8>,
    (count, length): (u32, u32),
    first: u8,
    more: u8,
) {
    let mut value = first;
    made(rt, text.extend_from_slice(&count.to_le_bytes()));
    for _ in 0..count {
        push_frame(rt, text, length, value);
        value = value.wrapping_add(more);
    }
}

/// Adds a frame of so many of this byte.
fn push_frame(rt: &impl Abort, text: &mut Vec<u8>, length: u32, value: u8) {
    made(rt, text.extend_from_slice(&length.to_le_bytes()));
    for _ in 0..length {
        made(rt, text.push(value));
    }
}

/// The first bytes of a text, and what follows them.
pub(super) fn front(text: &[u8], count: usize) -> &[u8] {
    text.get(..count).unwrap_or(&[])
}

pub(super) fn back(text: &[u8], count: usize) -> &[u8] {
    text.get(count..).unwrap_or(&[])
}

/// Feeds a piece. Answers whether the reader took all of it.
pub(super) fn takes(reader: &mut Reader, piece: &[u8]) -> bool {
    matches!(reader.feed(piece), Ok(count) if count == piece.len())
}

/// Whether a checkpoint stands whole in a reader, from which it is taken.
pub(super) fn stands(reader: &mut Reader) -> bool {
    reader.next().is_some()
}

/// The checkpoint that stands whole in a reader, if one does, in a box.
pub(super) fn next_if_any(
    rt: &impl Abort,
    alloc: Global,
    reader: &mut Reader,
) -> Option<Box<Checkpoint>> {
    match reader.next() {
        Some(checkpoint) => Some(boxed(rt, alloc, checkpoint)),
        None => None,
    }
}

/// The checkpoint that stands whole in a reader.
pub(super) fn next(rt: &impl Abort, alloc: Global, reader: &mut Reader) -> Box<Checkpoint> {
    next_if_any(rt, alloc, reader).expect(rt, "a checkpoint stands")
}

/// The checkpoint of a text.
pub(super) fn read_whole(
    rt: &impl Abort,
    alloc: Global,
    shape: Shape,
    text: &[u8],
) -> Box<Checkpoint> {
    let mut reader = Reader::new(alloc, shape);
    holds(rt, "it is read whole", takes(&mut reader, text));
    next(rt, alloc, &mut reader)
}
