//! Checkpoints that are cut of the small guests, and what is read of one.

use crate::asserts::{boxed, holds, holds_at, made};
use crate::guests::{Guest, machine_after};
use epoch_cuts::{cut_delta, cut_full};
use epoch_snapshot::Checkpoint;
use frame_list::FrameList;
use guest_machine::Machine;
use std::alloc::Global;
use std::process::Abort;

/// Which checkpoint is cut.
#[derive(Clone, Copy)]
pub(super) enum Cut {
    /// The delta of this generation and number.
    Delta(u64, u64),
    /// The full checkpoint of this generation.
    Full(u64),
}

fn delta(
    rt: &impl Abort,
    alloc: Global,
    machine: &Machine,
    generation: u64,
    number: u64,
) -> Box<Checkpoint> {
    holds(rt, "a generation", 1 <= generation && generation < 1 << 62);
    holds(rt, "a number", 1 <= number && number < 1 << 62);
    boxed(
        rt,
        alloc,
        made(rt, cut_delta(alloc, machine, generation, number)),
    )
}

fn full(rt: &impl Abort, alloc: Global, machine: &Machine, generation: u64) -> Box<Checkpoint> {
    holds(rt, "a generation", 1 <= generation && generation < 1 << 62);
    boxed(rt, alloc, made(rt, cut_full(alloc, machine, generation)))
}

/// The machine's checkpoint.
pub(super) fn cut_of(
    rt: &impl Abort,
    alloc: Global,
    machine: &Machine,
    which: Cut,
) -> Box<Checkpoint> {
    match which {
        Cut::Delta(generation, number) => delta(rt, alloc, machine, generation, number),
        Cut::Full(generation) => full(rt, alloc, machine, generation),
    }
}

/// What a checkpoint has to be.
pub(super) enum Row {
    /// Its version, generation and number, and 1 if it's full, 0 if it's a delta.
    Head([u64; 4]),
    /// Its machine's pages and steps, the program counter and the network card's status.
    State([u64; 4]),
    /// How many page records, blocks, sector records and frames it has.
    Counts([u64; 4]),
    /// The page record at this place has this page and this mask.
    Page(usize, [u64; 2]),
    /// Byte 2 of its first block is 1, and the others are 0.
    Block,
    /// Its first sector record is of this sector, and each byte is this one.
    Sector(u32, u8),
    /// Each frame is the beacon's.
    Frames,
}

fn head(checkpoint: &Checkpoint) -> [u64; 4] {
    [
        u64::from(checkpoint.version()),
        checkpoint.generation(),
        checkpoint.number(),
        u64::from(checkpoint.is_full()),
    ]
}

fn state(checkpoint: &Checkpoint) -> [u64; 4] {
    let state = checkpoint.state();
    [
        u64::from(checkpoint.shape().pages),
        state.steps,
        state.pc,
        u64::from(state.net.status),
    ]
}

fn counts(checkpoint: &Checkpoint) -> [u64; 4] {
    [
        checkpoint.pages().len() as u64,
        checkpoint.blocks().len() as u64,
        checkpoint.sectors().len() as u64,
        checkpoint.frames().len() as u64,
    ]
}

/// The page and the mask of a page record, if there is one at this place.
fn page(checkpoint: &Checkpoint, at: usize) -> Option<[u64; 2]> {
    let record = checkpoint.pages().get(at)?;
    Some([u64::from(record.page), record.mask])
}

fn assert_numbers(rt: &impl Abort, what: &str, found: [u64; 4], wanted: &[u64; 4]) {
    assert_eq!(rt; found, *wanted, "{what}");
}

/// There are so many bytes, and each is this one.
pub(super) fn are_all(bytes: &[u8], count: usize, byte: u8) -> bool {
    for held in bytes {
        if *held != byte {
            return false;
        }
    }
    bytes.len() == count
}

/// Byte 2 of the first block is 1, and the others are 0.
fn assert_block(rt: &impl Abort, checkpoint: &Checkpoint) {
    let blocks = checkpoint.blocks();
    holds(rt, "a block", 0 < blocks.len());
    for (i, byte) in blocks[0].iter().enumerate() {
        holds_at(rt, "byte", i, *byte == u8::from(i == 2));
    }
}

/// The first sector record is of this sector, and each byte is this one.
fn assert_sector(rt: &impl Abort, checkpoint: &Checkpoint, sector: u32, byte: u8) {
    let sectors = checkpoint.sectors();
    holds(rt, "a sector record", 0 < sectors.len());
    holds(rt, "its sector", sectors[0].sector == sector);
    holds(rt, "its bytes", are_all(&sectors[0].bytes, 512, byte));
}

/// The frame that the beacon sends: a header to client 1, from the guest, of a type for experiments.
const FRAME: [u8; 14] = [2, 0, 0, 0, 1, 1, 2, 0, 0, 0, 0, 1, 0x88, 0xb5];

/// Each frame is the beacon's.
pub(super) fn assert_frames(rt: &impl Abort, frames: &FrameList) {
    for at in 0..frames.len() {
        holds_at(rt, "frame", at, frames.bytes(at) == FRAME.as_slice());
    }
}

fn assert_row(rt: &impl Abort, checkpoint: &Checkpoint, row: &Row) {
    match row {
        Row::Head(wanted) => assert_numbers(rt, "the head", head(checkpoint), wanted),
        Row::State(wanted) => assert_numbers(rt, "the state", state(checkpoint), wanted),
        Row::Counts(wanted) => assert_numbers(rt, "the counts", counts(checkpoint), wanted),
        Row::Page(at, wanted) => {
            holds_at(
                rt,
                "page record",
                *at,
                page(checkpoint, *at) == Some(*wanted),
            );
        }
        Row::Block => assert_block(rt, checkpoint),
        Row::Sector(sector, byte) => assert_sector(rt, checkpoint, *sector, *byte),
        Row::Frames => assert_frames(rt, checkpoint.frames()),
    }
}

/// A checkpoint is as these rows say.
pub(super) fn assert_rows(rt: &impl Abort, checkpoint: &Checkpoint, rows: &[Row]) {
    for row in rows {
        assert_row(rt, checkpoint, row);
    }
}

/// The checkpoint of the guest after so many steps is as these rows say.
pub(super) fn assert_cut(
    rt: &impl Abort,
    alloc: Global,
    (guest, steps): (Guest, u64),
    which: Cut,
    rows: &[Row],
) {
    let machine = machine_after(rt, alloc, guest, steps);
    let checkpoint = cut_of(rt, alloc, &machine, which);
    assert_rows(rt, &checkpoint, rows);
}
