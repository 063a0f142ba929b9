//! Small guests at both nodes: what the backup's image is at each point.

mod kept;
mod rows;
mod stops;
mod versions;

use crate::asserts::holds;
use crate::checkpoints::Cut;
use crate::guests::Guest;
use crate::refusals::{assert_named, refused};
use crate::texts::front;
use backup_image::{Image, ImageError, Staged};
use epoch_snapshot::Checkpoint;
use rows::{End, Handed, Row, Start, assert_image, at, begun, plays};
use std::alloc::Global;
use std::process::Abort;
use stops::{delta_text, follow};

/// What an image answers to a checkpoint, which has its shape.
fn stage(rt: &impl Abort, image: &mut Image, checkpoint: Checkpoint) -> Result<Staged, ImageError> {
    holds(rt, "the shape", image.shape() == checkpoint.shape());
    image.stage(checkpoint)
}

/// The disk guest's delta is in the image from its commit on, not from its staging on. What comes out of turn is answered otherwise.
#[test]
fn a_delta_counts_from_its_commit_on(rt: HostRuntime) {
    static ROWS: [Row; 13] = [
        Row::Given(Handed::Cut(Cut::Delta(1, 2)), Err(ImageError::Gap)),
        Row::Stands((1, 0), 0, (3, 0)),
        Row::Given(Handed::Cut(Cut::Delta(2, 1)), Err(ImageError::Stale)),
        Row::Stands((1, 0), 0, (3, 0)),
        Row::Given(Handed::Cut(Cut::Delta(1, 1)), Ok(Staged::New)),
        Row::Stands((1, 0), 0, (3, 0)),
        Row::Given(Handed::Cut(Cut::Delta(1, 1)), Ok(Staged::New)),
        Row::Stands((1, 0), 0, (3, 0)),
        Row::Commit,
        Row::Stands((1, 1), 23, (3, 0xab)),
        Row::Given(Handed::Cut(Cut::Full(1)), Ok(Staged::Again)),
        Row::Commit,
        Row::Stands((1, 1), 23, (3, 0xab)),
    ];
    plays(
        &rt,
        rt.alloc(),
        (Guest::Disk, 23),
        Start::Boot,
        &ROWS,
        &End::Left,
    );
}

/// An empty image takes a full checkpoint only, and gives no machine before. The machine that it then gives goes on where the other was.
static FILLED: [Row; 5] = [
    Row::Empty(3),
    Row::Given(Handed::Cut(Cut::Delta(2, 1)), Err(ImageError::NoImage)),
    Row::Given(Handed::Cut(Cut::Full(2)), Ok(Staged::New)),
    Row::Commit,
    Row::Stands((2, 0), 23, (3, 0xab)),
];

#[test]
fn an_empty_image_is_filled(rt: HostRuntime) {
    plays(
        &rt,
        rt.alloc(),
        (Guest::Disk, 23),
        Start::HandedBack,
        &FILLED,
        &End::GoesOn,
    );
}

#[test]
fn an_empty_image_in_spare_memory_is_filled(rt: HostRuntime) {
    plays(
        &rt,
        rt.alloc(),
        (Guest::Disk, 23),
        Start::Spare,
        &FILLED,
        &End::GoesOn,
    );
}

/// Each part of the beacon's checkpoint of 630 bytes leaves the image at boot, and the whole takes it on.
fn assert_parts(rt: &impl Abort, alloc: Global, image: &mut Image, text: &[u8]) {
    for count in 0..631usize {
        follow(rt, alloc, image, front(text, count), &Ok(Staged::New));
        let whole = u64::from(count == 630);
        assert_image(rt, image, at(1, whole), 22 * whole, (0, 0));
    }
}

/// The beacon's checkpoint, stopped after each of its bytes but the last, leaves the image at boot.
#[test]
fn part_of_a_checkpoint_leaves_the_image(rt: HostRuntime) {
    let text = delta_text(&rt, rt.alloc());
    holds(&rt, "630 bytes", text.len() == 630);
    let mut image = begun(&rt, rt.alloc(), Guest::Beacon, Start::Boot);
    assert_parts(&rt, rt.alloc(), &mut image, text.as_slice());
}

/// The refusal has this number and this name.
fn assert_refusal(rt: &impl Abort, alloc: Global, refusal: &ImageError, wanted: (u32, &str)) {
    let found = (refusal.number(), refusal.name());
    assert_named(rt, alloc, refusal, found, wanted);
}

#[test]
fn refusals_have_numbers_and_names(rt: HostRuntime) {
    static REFUSALS: [(ImageError, (u32, &str)); 5] = [
        (ImageError::NoImage, (8, "NoImage")),
        (ImageError::Stale, (9, "Stale")),
        (ImageError::Gap, (10, "Gap")),
        (ImageError::Exhausted, (14, "Exhausted")),
        (ImageError::OldVersion, (15, "OldVersion")),
    ];
    for (refusal, wanted) in &REFUSALS {
        assert_refusal(&rt, rt.alloc(), refusal, *wanted);
    }
    let refusal = ImageError::from(refused(&rt, rt.alloc()));
    assert_refusal(&rt, rt.alloc(), &refusal, (12, "NoMemory"));
}
