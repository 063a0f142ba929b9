//! What no clause of [`page_lanes`] says: each kernel at lengths round a block's, with answers counted by hand.
ghost use Rattle.std.specs.Prelude.{◌≤◌};

use crate::asserts::{holds, holds_at};
use page_lanes::{
    BLOCK_SIZE, PAGE_SIZE, Page, count_differing, equal, is_zero, mask, xor_blocks, xor_into,
};
use std::process::Abort;

/// What the kernels say of the first `len` bytes of two pages: whether they are equal, how many differ, and whether
/// the exclusive or of the two is all 0.
fn said(len: usize, a: &Page, b: &Page) -> (bool, usize, bool)
    requires { len ≤ 4096 }
{
    let mut joined = *a;
    xor_into(&mut joined[..len], &b[..len]);
    (
        equal(&a[..len], &b[..len]),
        count_differing(&a[..len], &b[..len]),
        is_zero(&joined[..len]),
    )
}

fn assert_said(rt: &impl Abort, len: usize, a: &Page, b: &Page, wanted: (bool, usize, bool)) {
    holds(rt, "in a page", len <= PAGE_SIZE);
    holds_at(rt, "bytes", len, said(len, a, b) == wanted);
}

/// A page that has these bytes, each at its place, and else 0.
fn page_with(bytes: &[(usize, u8)]) -> Page {
    let mut page = [0; PAGE_SIZE];
    for (at, byte) in bytes {
        if *at < PAGE_SIZE {
            page[*at] = *byte;
        }
    }
    page
}

/// Two slices of this length that are equal, or differ everywhere.
fn at_length(rt: &impl Abort, len: usize) {
    let zeros = [0; PAGE_SIZE];
    let ones = [0xff; PAGE_SIZE];
    assert_said(rt, len, &zeros, &zeros, (true, 0, true));
    assert_said(rt, len, &ones, &ones, (true, 0, true));
    assert_said(rt, len, &ones, &zeros, (len == 0, len, len == 0));
}

/// Two slices of this length that differ at one end.
fn at_an_end(rt: &impl Abort, len: usize) {
    let zeros = [0; PAGE_SIZE];
    let first = page_with(&[(0, 1)]);
    assert_said(rt, len, &first, &zeros, (false, 1, false));
    let last = page_with(&[(len.saturating_sub(1), 0x80)]);
    assert_said(rt, len, &zeros, &last, (false, 1, false));
}

#[test]
fn every_length_round_a_block(rt: HostRuntime) {
    static LENGTHS: [usize; 6] = [1, 63, 64, 65, 127, 4096];
    at_length(&rt, 0);
    for len in &LENGTHS {
        at_length(&rt, *len);
        at_an_end(&rt, *len);
    }
}

/// The bytes of a page that aren't 0, each with its place, and which blocks differ from those of a page of zeros.
static MASKS: [(&[(usize, u8)], u64); 4] = [
    (&[], 0),
    (&[(4095, 1)], 0x8000_0000_0000_0000),
    (&[(4095, 1), (64, 0x80)], 0x8000_0000_0000_0002),
    (&[(4095, 1), (64, 0x80), (63, 7)], 0x8000_0000_0000_0003),
];

fn assert_mask(rt: &impl Abort, a: &Page, b: &Page, wanted: u64) {
    holds(rt, "the mask", mask(a, b) == wanted);
}

/// The mask of two pages, either first.
fn assert_masks(rt: &impl Abort, a: &Page, b: &Page, wanted: u64) {
    assert_mask(rt, a, b, wanted);
    assert_mask(rt, b, a, wanted);
}

#[test]
fn a_byte_sets_the_bit_of_its_block(rt: HostRuntime) {
    let zeros = [0; PAGE_SIZE];
    for (bytes, wanted) in &MASKS {
        assert_masks(&rt, &zeros, &page_with(bytes), *wanted);
    }
    assert_mask(&rt, &zeros, &[0xff; PAGE_SIZE], u64::MAX);
}

#[test]
fn the_exclusive_or_of_two_blocks(rt: HostRuntime) {
    let mut a = [0x0f; BLOCK_SIZE];
    a[63] = 0x55;
    let joined = xor_blocks(&a, &[0x3c; BLOCK_SIZE]);
    holds(&rt, "byte 0", joined[0] == 0x33);
    holds(&rt, "byte 62", joined[62] == 0x33);
    holds(&rt, "byte 63", joined[63] == 0x69);
}
