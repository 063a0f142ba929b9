//! The images of the guests of [`guest_kit`], with the bytes that their words and data have.

use crate::asserts::{holds, holds_at};
use guest_kit::{beacon, counter, disk_once, echo, idle};
use std::process::Abort;

/// An image has so many bytes.
fn assert_len(rt: &impl Abort, image: &[u8], len: usize) {
    holds(rt, "bytes", image.len() == len);
}

/// An image has these bytes at a place.
fn assert_bytes(rt: &impl Abort, image: &[u8], at: usize, bytes: &[u8]) {
    holds(rt, "a place", at <= image.len());
    holds(rt, "in the image", bytes.len() <= image.len() - at);
    holds_at(rt, "bytes", at, &image[at..at + bytes.len()] == bytes);
}

#[test]
fn a_jump_to_itself(rt: HostRuntime) {
    let image = idle(rt.alloc()).expect(&rt, "memory for the image");
    assert_len(&rt, &image, 4);
    assert_bytes(&rt, &image, 0, &[0x6f, 0, 0, 0]);
}

/// The beacon's bytes behind its words that aren't 0, each with its place.
static DATA: [(usize, u8); 11] = [
    // the descriptor 0011008000000000 1a000000 0000 0000
    (0x1001, 0x11),
    (0x1003, 0x80),
    (0x1008, 0x1a),
    // the available ring 0000 0100 0000
    (0x1042, 0x01),
    // the frame 02000000010102000000000188b5, behind 12 zero bytes
    (0x110c, 0x02),
    (0x1110, 0x01),
    (0x1111, 0x01),
    (0x1112, 0x02),
    (0x1117, 0x01),
    (0x1118, 0x88),
    (0x1119, 0xb5),
];

/// The byte that is wanted at a place behind the words.
fn wanted(at: usize) -> u8 {
    for (place, byte) in &DATA {
        if *place == at {
            return *byte;
        }
    }
    0
}

/// Behind its words the image has the bytes of the data, and else 0.
fn assert_data(rt: &impl Abort, image: &[u8]) {
    for (at, byte) in image.iter().enumerate() {
        holds_at(rt, "byte", at, at < 92 || *byte == wanted(at));
    }
}

#[test]
fn the_bytes_of_the_data(rt: HostRuntime) {
    let image = beacon(rt.alloc()).expect(&rt, "memory for the image");
    assert_data(&rt, &image);
    assert_len(&rt, &image, 0x111a);
}

#[test]
fn the_bytes_of_the_first_and_the_last_words(rt: HostRuntime) {
    let image = beacon(rt.alloc()).expect(&rt, "memory for the image");
    assert_bytes(&rt, &image, 0, &FIRST_WORDS);
    assert_bytes(&rt, &image, 84, &LAST_WORDS);
}

const FIRST_WORDS: [u8; 8] = [0xb7, 0x12, 0x00, 0x10, 0x13, 0x03, 0x10, 0x00];

const LAST_WORDS: [u8; 12] = [0x23, 0xa8, 0x62, 0x04, 0x6f, 0, 0, 0, 0, 0, 0, 0];

#[test]
fn eighty_bytes(rt: HostRuntime) {
    let image = counter(rt.alloc()).expect(&rt, "memory for the image");
    assert_len(&rt, &image, 80);
    assert_bytes(
        &rt,
        &image,
        0,
        &[0x17, 0x14, 0x00, 0x00, 0xb7, 0xc2, 0x00, 0x02],
    );
}

/// A request that writes sector 7, and the status byte.
const REQUEST: [u8; 17] = [1, 0, 0, 0, 0, 0, 0, 0, 7, 0, 0, 0, 0, 0, 0, 0, 0xff];

#[test]
fn the_request_and_its_data(rt: HostRuntime) {
    let image = disk_once(rt.alloc(), 7, 0xab).expect(&rt, "memory for the image");
    assert_len(&rt, &image, 0x1400);
    assert_bytes(&rt, &image, 0x1100, &REQUEST);
    assert_bytes(&rt, &image, 0x1200, &[0xab; 4]);
    assert_bytes(&rt, &image, 0x13ff, &[0xab]);
}

const RECEIVE_RING: [u8; 12] = [1, 0, 4, 0, 0, 0, 1, 0, 2, 0, 3, 0];

#[test]
fn the_first_words_and_the_last_ring(rt: HostRuntime) {
    let image = echo(rt.alloc()).expect(&rt, "memory for the image");
    assert_len(&rt, &image, 0x1144);
    assert_bytes(
        &rt,
        &image,
        0,
        &[0x97, 0x14, 0x00, 0x00, 0xb7, 0x12, 0x00, 0x10],
    );
    assert_bytes(&rt, &image, 0x1040, &RECEIVE_RING);
}
