//! Slices of any length, whole blocks first.
ghost use Rattle.std.specs.Prelude.{◌≡◌, ◌↔◌, length, IsTrue, All};
ghost use Rattle.page_lanes.specs.Kernels.{xored, differing};

use crate::blocks::{BLOCK_SIZE, blocks_differ, bytes_differing, is_zero_block, xor_block_at};
use crate::bytes::{count_bytes, equal_bytes, xor_bytes, zero_bytes};

/// Puts the exclusive or of each two bytes in the place of the first. The two slices have one length.
pub fn xor_into(into: &mut [u8], from: &[u8])
    requires { length into.old ≡ length from.now }
    ensures { into.new ≡ xored into.old from.now }
{
    let (blocks, rest) = from.as_chunks::<BLOCK_SIZE>();
    for (i, block) in blocks.iter().enumerate() {
        xor_block_at(into, BLOCK_SIZE * i, block);
    }
    xor_bytes(&mut into[BLOCK_SIZE * blocks.len()..], rest);
}

/// Whether the two slices, of one length, have the same bytes.
pub fn equal(a: &[u8], b: &[u8]) -> bool
    requires { length a.now ≡ length b.now }
    ensures { IsTrue result ↔ (a.now ≡ b.now) }
{
    let (blocks, rest) = a.as_chunks::<BLOCK_SIZE>();
    let (other_blocks, other_rest) = b.as_chunks::<BLOCK_SIZE>();
    for (i, block) in blocks.iter().enumerate() {
        if blocks_differ(block, &other_blocks[i]) {
            return false;
        }
    }
    equal_bytes(rest, other_rest)
}

/// Whether every byte is 0.
#[inline]
pub fn is_zero(bytes: &[u8]) -> bool
    ensures { IsTrue result ↔ All (λ b. b ≡ 0) bytes.now }
{
    let (blocks, rest) = bytes.as_chunks::<BLOCK_SIZE>();
    for block in blocks {
        if !is_zero_block(block) {
            return false;
        }
    }
    zero_bytes(rest)
}

/// At how many places the bytes of the two slices, of one length, differ.
pub fn count_differing(a: &[u8], b: &[u8]) -> usize
    requires { length a.now ≡ length b.now }
    ensures { result ≡ differing a.now b.now }
{
    let (blocks, rest) = a.as_chunks::<BLOCK_SIZE>();
    let (other_blocks, other_rest) = b.as_chunks::<BLOCK_SIZE>();
    let mut count = 0;
    for (i, block) in blocks.iter().enumerate() {
        count += bytes_differing(block, &other_blocks[i]);
    }
    count + count_bytes(rest, other_rest)
}
