//! A list of frames gives back what was put into it.

use crate::asserts::{holds, made};
use frame_list::{Frame, FrameList};
use std::alloc::Global;
use std::process::Abort;

static SHORT: [u8; 14] = [1; 14];

static LONG: [u8; 1514] = [2; 1514];

/// The frame at this place has these bytes.
fn assert_frame(rt: &impl Abort, list: &FrameList, at: usize, bytes: &[u8]) {
    holds(rt, "a place", at < list.len());
    holds(rt, "the bytes", list.bytes(at) == bytes);
    holds(rt, "the frame", list.frame(at).as_slice() == bytes);
}

/// The shortest frame and then the longest, in room that was reserved for them.
fn two_frames(rt: &impl Abort, alloc: Global) -> FrameList {
    let mut list = FrameList::new(alloc);
    made(rt, list.reserve(2));
    list.push_reserved(&SHORT);
    list.push_reserved(&LONG);
    list
}

/// Copies of the frames of a list of two, the last first.
fn turned(rt: &impl Abort, alloc: Global, list: &FrameList) -> FrameList {
    holds(rt, "two frames", list.len() == 2);
    let frames: [Frame; 2] = [list.frame(1), list.frame(0)];
    made(rt, FrameList::copies(alloc, &frames))
}

#[test]
fn frames_come_back_as_they_were_put(rt: HostRuntime) {
    holds(&rt, "none at first", FrameList::new(rt.alloc()).is_empty());
    let mut list = two_frames(&rt, rt.alloc());
    assert_frame(&rt, &list, 0, &SHORT);
    assert_frame(&rt, &list, 1, &LONG);
    let copies = turned(&rt, rt.alloc(), &list);
    assert_frame(&rt, &copies, 0, &LONG);
    assert_frame(&rt, &copies, 1, &SHORT);
    list.truncate(1);
    holds(&rt, "one is left", !list.is_empty() && list.len() == 1);
    assert_frame(&rt, &list, 0, &SHORT);
}
