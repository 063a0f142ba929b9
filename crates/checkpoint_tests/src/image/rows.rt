//! What is done to an image, row by row, and what has to come of it.

use super::stage;
use crate::asserts::{boxed, holds, made};
use crate::checkpoints::{Cut, are_all, cut_of};
use crate::guests::{Guest, bytes, machine_after, run, shape};
use crate::texts::{cut_text, push_frames, put_version_1, read_whole, set};
use backup_image::{Image, ImageError, KeptFrames, Staged, Standing};
use epoch_snapshot::Checkpoint;
use frame_list::FrameList;
use guest_machine::{Machine, PAGE_BYTES, Shape};
use std::alloc::Global;
use std::process::Abort;

/// What an image answers to a checkpoint.
pub(super) type Answer = Result<Staged, ImageError>;

/// A checkpoint of the guest's machine.
pub(super) enum Handed {
    /// As it is cut.
    Cut(Cut),
    /// In version 1, which is without what follows the sector records, so many bytes.
    Old(Cut, usize),
    /// The delta of generation 1 and this number, with so many frames of 14 bytes in place of its own: number, first frame, count.
    Framed(u8, u8, u8),
}

/// What is done to an image, or what it is.
pub(super) enum Row {
    /// The checkpoint is answered so.
    Given(Handed, Answer),
    /// What is staged is committed.
    Commit,
    /// It stands at this generation and number, has made so many steps, and this sector is full of this byte.
    Stands((u64, u64), u64, (u32, u8)),
    /// It's empty, and this sector is full of zeros.
    Empty(u32),
    /// The frames from this one on are kept, of so many that were sent, and so many of each commit.
    Kept(u8, u64, &'static [usize]),
}

/// The image that rows begin with.
#[derive(Clone, Copy)]
pub(super) enum Start {
    Boot,
    Empty,
    /// An empty one that was asked for its machine, and was handed back.
    HandedBack,
    /// An empty one in the memory of a machine that made 23 steps.
    Spare,
}

/// What becomes of the image in the end.
pub(super) enum End {
    Left,
    /// Its machine goes on where the disk guest was after 23 steps.
    GoesOn,
    /// A node that goes on with its guest gets these frames.
    Kept(u8, u64, &'static [usize]),
}

/// These frames are so many, and have the numbers from this one on. Answers the next number.
fn assert_epoch(rt: &impl Abort, epoch: &FrameList, count: usize, first: u8) -> u8 {
    holds(rt, "frames of an epoch", epoch.len() == count);
    let mut number = first;
    for at in 0..epoch.len() {
        holds(
            rt,
            "a frame of its number",
            are_all(epoch.bytes(at), 14, number),
        );
        number = number.wrapping_add(1);
    }
    number
}

/// So many frames are kept of each commit, and their bytes are their numbers.
fn assert_kept(rt: &impl Abort, kept: &KeptFrames, first: u8, sent: u64, counts: &[usize]) {
    holds(rt, "the first frame", kept.first() == u64::from(first));
    holds(rt, "frames sent", kept.sent() == sent);
    holds(rt, "epochs", kept.epochs().len() == counts.len());
    let mut number = first;
    for (epoch, count) in kept.epochs().iter().zip(counts.iter()) {
        number = assert_epoch(rt, epoch, *count, number);
    }
}

fn booted(rt: &impl Abort, alloc: Global, shape: Shape, bytes: &[u8]) -> Box<Image> {
    holds(
        rt,
        "bytes that fit",
        bytes.len() <= PAGE_BYTES * shape.pages as usize,
    );
    boxed(rt, alloc, made(rt, Image::boot(alloc, shape, bytes)))
}

fn boot(rt: &impl Abort, alloc: Global, guest: Guest) -> Box<Image> {
    let bytes = bytes(rt, alloc, guest);
    booted(rt, alloc, shape(guest), bytes.as_slice())
}

fn empty(rt: &impl Abort, alloc: Global, guest: Guest) -> Box<Image> {
    boxed(rt, alloc, made(rt, Image::empty(alloc, shape(guest))))
}

/// An empty one in the memory of the guest's machine after 23 steps.
fn spare(rt: &impl Abort, alloc: Global, guest: Guest) -> Box<Image> {
    let machine = Box::into_inner(machine_after(rt, alloc, guest, 23));
    let image = Image::empty_with(alloc, shape(guest), Some(machine));
    boxed(rt, alloc, made(rt, image))
}

/// An empty image has no machine, and is handed back.
fn handed_back(rt: &impl Abort, alloc: Global, image: Box<Image>) -> Box<Image> {
    match Box::into_inner(image).resume() {
        Ok(_) => panic!(rt; "an empty image has no machine"),
        Err((image, refusal)) => {
            holds(rt, "no image", refusal == ImageError::NoImage);
            boxed(rt, alloc, image)
        }
    }
}

/// The image that rows begin with.
pub(super) fn begun(rt: &impl Abort, alloc: Global, guest: Guest, start: Start) -> Box<Image> {
    match start {
        Start::Boot => boot(rt, alloc, guest),
        Start::Empty => empty(rt, alloc, guest),
        Start::HandedBack => handed_back(rt, alloc, empty(rt, alloc, guest)),
        Start::Spare => spare(rt, alloc, guest),
    }
}

/// The machine that an image resumes to.
pub(super) fn resumed(rt: &impl Abort, alloc: Global, image: Box<Image>) -> Box<Machine> {
    match Box::into_inner(image).resume() {
        Ok(resumed) => boxed(rt, alloc, resumed.machine),
        Err(_) => panic!(rt; "the image has a machine"),
    }
}

/// What a node that goes on with an image's guest gets of its frames.
fn resumed_kept(rt: &impl Abort, image: Box<Image>) -> KeptFrames {
    match Box::into_inner(image).resume() {
        Ok(resumed) => resumed.kept,
        Err(_) => panic!(rt; "the image has a machine"),
    }
}

/// The disk guest goes on where it was after 23 steps, with nothing in its outbox.
fn assert_goes_on(rt: &impl Abort, machine: &mut Machine) {
    holds(rt, "no frame", machine.outbox().is_empty());
    run(rt, machine, 5);
    holds(rt, "28 steps", machine.steps() == 28);
    holds(rt, "the pc", machine.pc() == 0x8000_005c);
}

/// What becomes of the image.
fn finish(rt: &impl Abort, alloc: Global, image: Box<Image>, end: &End) {
    match end {
        End::Left => {}
        End::GoesOn => {
            let mut machine = resumed(rt, alloc, image);
            assert_goes_on(rt, &mut machine);
        }
        End::Kept(first, sent, counts) => {
            let kept = resumed_kept(rt, image);
            assert_kept(rt, &kept, *first, *sent, counts);
        }
    }
}

/// The machine's checkpoint in version 1.
fn old(
    rt: &impl Abort,
    alloc: Global,
    machine: &Machine,
    which: Cut,
    tail: usize,
) -> Box<Checkpoint> {
    let mut text = cut_text(rt, alloc, machine, which);
    let count = text.len().saturating_sub(tail);
    put_version_1(&mut text, count);
    let checkpoint = read_whole(rt, alloc, machine.shape(), text.as_slice());
    holds(rt, "version 1", checkpoint.version() == 1);
    checkpoint
}

/// The beacon's delta with so many frames, the bytes of which are their numbers.
fn framed(
    rt: &impl Abort,
    alloc: Global,
    machine: &Machine,
    (number, first, count): (u8, u8, u8),
) -> Box<Checkpoint> {
    let mut text = cut_text(rt, alloc, machine, Cut::Delta(1, 1));
    text.truncate(608);
    set(&mut text, 20, number);
    push_frames(rt, &mut text, (u32::from(count), 14), first, 1);
    read_whole(rt, alloc, machine.shape(), text.as_slice())
}

/// The machine's checkpoint that is handed over.
fn checkpoint_of(
    rt: &impl Abort,
    alloc: Global,
    machine: &Machine,
    handed: &Handed,
) -> Box<Checkpoint> {
    match handed {
        Handed::Cut(which) => cut_of(rt, alloc, machine, *which),
        Handed::Old(which, tail) => old(rt, alloc, machine, *which, *tail),
        Handed::Framed(number, first, count) => {
            framed(rt, alloc, machine, (*number, *first, *count))
        }
    }
}

/// An image answers so to a checkpoint.
pub(super) fn assert_answer(
    rt: &impl Abort,
    image: &mut Image,
    checkpoint: Box<Checkpoint>,
    answer: &Answer,
) {
    let given = stage(rt, image, Box::into_inner(checkpoint));
    holds(rt, "the answer", given == *answer);
}

pub(super) fn at(generation: u64, number: u64) -> Option<Standing> {
    Some(Standing { generation, number })
}

/// An image stands there and has made so many steps, and a sector of it is full of this byte.
pub(super) fn assert_image(
    rt: &impl Abort,
    image: &Image,
    standing: Option<Standing>,
    steps: u64,
    (sector, byte): (u32, u8),
) {
    holds(rt, "where it stands", image.standing() == standing);
    holds(rt, "its steps", image.steps() == steps);
    holds(rt, "a sector", sector < image.shape().sectors);
    holds(rt, "its bytes", are_all(image.sector(sector), 512, byte));
}

fn play(rt: &impl Abort, alloc: Global, machine: &Machine, image: &mut Image, row: &Row) {
    match row {
        Row::Given(handed, answer) => {
            let checkpoint = checkpoint_of(rt, alloc, machine, handed);
            assert_answer(rt, image, checkpoint, answer);
        }
        Row::Commit => image.commit(),
        Row::Stands((generation, number), steps, full) => {
            assert_image(rt, image, at(*generation, *number), *steps, *full);
        }
        Row::Empty(sector) => assert_image(rt, image, None, 0, (*sector, 0)),
        Row::Kept(first, sent, counts) => assert_kept(rt, image.kept(), *first, *sent, counts),
    }
}

fn play_all(
    rt: &impl Abort,
    alloc: Global,
    (guest, steps): (Guest, u64),
    image: &mut Image,
    rows: &[Row],
) {
    let machine = machine_after(rt, alloc, guest, steps);
    for row in rows {
        play(rt, alloc, &machine, image, row);
    }
}

/// Plays rows with an image of the guest, and with its machine after so many steps.
pub(super) fn plays(
    rt: &impl Abort,
    alloc: Global,
    (guest, steps): (Guest, u64),
    start: Start,
    rows: &[Row],
    last: &End,
) {
    let mut image = begun(rt, alloc, guest, start);
    play_all(rt, alloc, (guest, steps), &mut image, rows);
    finish(rt, alloc, image, last);
}
