//! One block of 64 bytes, as one vector.
ghost use Rattle.std.specs.Prelude.{◌≡◌, ◌+◌, ◌≤◌, ◌↔◌, ◌++◌, length, take, drop, IsTrue, All};
ghost use Rattle.page_lanes.specs.Kernels.{xored, differ, differing};

use std::simd::prelude::*;

/// How many bytes a block has: one vector of lanes.
pub const BLOCK_SIZE: usize = 64;

/// A block of a page.
pub type Block = [u8; BLOCK_SIZE];

/// The exclusive or of two blocks, byte by byte: what turns either of them into the other.
#[inline(always)]
pub fn xor_blocks(a: &Block, b: &Block) -> Block
    ensures { result ≡ xored a.now b.now }
{
    (u8x64::from_array(*a) ^ u8x64::from_array(*b)).to_array()
}

/// Puts the exclusive or of a block and the 64 bytes from `at` on in their place.
#[inline(always)]
pub fn xor_block_at(into: &mut [u8], at: usize, block: &Block)
    requires { at + 64 ≤ length into.old }
    ensures { into.new ≡ take at into.old ++ (xored (take 64 (drop at into.old)) block.now ++ drop (at + 64) into.old) }
{
    let lanes = u8x64::from_slice(&into[at..]) ^ u8x64::from_array(*block);
    lanes.copy_to_slice(&mut into[at..]);
}

/// Whether some byte of the two blocks differs.
#[inline(always)]
pub(crate) fn blocks_differ(a: &Block, b: &Block) -> bool
    ensures bytes { result ≡ differ a.now b.now }
    ensures blocks { IsTrue result ↔ (a.now ≡ b.now → ⊥) }
{
    u8x64::from_array(*a).simd_ne(u8x64::from_array(*b)).any()
}

/// How many bytes of the two blocks differ.
pub(crate) fn bytes_differing(a: &Block, b: &Block) -> usize
    ensures count { result ≡ differing a.now b.now }
    ensures few { result ≤ 64 }
{
    u8x64::from_array(*a)
        .simd_ne(u8x64::from_array(*b))
        .to_bitmask()
        .count_ones() as usize
}

/// Whether every byte of the block is 0.
#[inline(always)]
pub(crate) fn is_zero_block(block: &Block) -> bool
    ensures { IsTrue result ↔ All (λ b. b ≡ 0) block.now }
{
    !blocks_differ(block, &[0; BLOCK_SIZE])
}
