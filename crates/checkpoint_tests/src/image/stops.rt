//! A stream that stops inside a checkpoint leaves the guest of boot: memory, disk and devices.

use super::rows::{Answer, Start, assert_answer, assert_image, at, begun, resumed};
use crate::asserts::{holds, holds_at};
use crate::checkpoints::Cut;
use crate::guests::Guest;
use crate::texts::{beacon_text, cut_text, front, next_if_any, put_version_1, takes};
use backup_image::{Image, ImageError, Staged};
use checkpoint_stream::Reader;
use std::alloc::Global;
use std::process::Abort;

/// The beacon's first checkpoint, in which it sends its frame.
pub(super) fn delta_text(rt: &impl Abort, alloc: Global) -> Vec<u8> {
    beacon_text(rt, alloc, 22, Cut::Delta(1, 1))
}

/// Takes in the bytes of a stream, and commits the checkpoint that stands whole, if one does and it's staged.
pub(super) fn follow(
    rt: &impl Abort,
    alloc: Global,
    image: &mut Image,
    bytes: &[u8],
    answer: &Answer,
) {
    let mut reader = Reader::new(alloc, image.shape());
    holds(rt, "it takes all", takes(&mut reader, bytes));
    if let Some(checkpoint) = next_if_any(rt, alloc, &mut reader) {
        assert_answer(rt, image, checkpoint, answer);
    }
    image.commit();
}

/// An image resumes to this guest: the text of its machine's full checkpoint, of generation 2.
fn assert_resumes(rt: &impl Abort, alloc: Global, image: Box<Image>, guest: &[u8], after: usize) {
    let machine = resumed(rt, alloc, image);
    let text = cut_text(rt, alloc, &machine, Cut::Full(2));
    holds_at(rt, "after bytes", after, text.as_slice() == guest);
}

/// After these bytes of a stream the beacon's image has this number and so many steps, and resumes to this guest.
fn assert_comes_to(
    rt: &impl Abort,
    alloc: Global,
    bytes: &[u8],
    answer: &Answer,
    (number, steps): (u64, u64),
    guest: &[u8],
) {
    let mut image = begun(rt, alloc, Guest::Beacon, Start::Boot);
    follow(rt, alloc, &mut image, bytes, answer);
    assert_image(rt, &image, at(1, number), steps, (0, 0));
    assert_resumes(rt, alloc, image, guest, bytes.len());
}

/// After the whole text it resumes to the primary's guest after so many steps.
fn assert_whole(
    rt: &impl Abort,
    alloc: Global,
    text: &[u8],
    answer: &Answer,
    (number, steps): (u64, u64),
) {
    let guest = beacon_text(rt, alloc, steps, Cut::Full(2));
    assert_comes_to(rt, alloc, text, answer, (number, steps), guest.as_slice());
}

/// Each beginning of a text leaves the guest of boot.
fn assert_stops_leave(rt: &impl Abort, alloc: Global, text: &[u8]) {
    let guest = beacon_text(rt, alloc, 0, Cut::Full(2));
    for count in 0..text.len() {
        let part = front(text, count);
        assert_comes_to(rt, alloc, part, &Ok(Staged::New), (0, 0), guest.as_slice());
    }
}

#[test]
fn a_stop_leaves_the_guest_of_boot(rt: HostRuntime) {
    let text = delta_text(&rt, rt.alloc());
    holds(&rt, "630 bytes", text.len() == 630);
    assert_stops_leave(&rt, rt.alloc(), text.as_slice());
    // and the last byte takes it on
    assert_whole(&rt, rt.alloc(), text.as_slice(), &Ok(Staged::New), (1, 22));
}

/// A whole delta of version 1, which carries no frames, is refused, so that leaves it too.
#[test]
fn an_old_delta_leaves_the_guest_of_boot(rt: HostRuntime) {
    static REFUSED: Answer = Err(ImageError::OldVersion);
    let mut text = delta_text(&rt, rt.alloc());
    put_version_1(&mut text, 608);
    assert_stops_leave(&rt, rt.alloc(), text.as_slice());
    assert_whole(&rt, rt.alloc(), text.as_slice(), &REFUSED, (0, 0));
}
