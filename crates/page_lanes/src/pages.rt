//! The blocks of a page.
ghost use Rattle.std.specs.Prelude.{◌≡◌, ℕ, ◌<◌, ◌↔◌, ◌≢◌, IsTrue};
ghost use Rattle.std.specs.Int.{bit_at};
ghost use Rattle.page_lanes.specs.Kernels.{differ, block};

use crate::blocks::{BLOCK_SIZE, blocks_differ};

/// How many bytes a page has.
pub const PAGE_SIZE: usize = 4096;

/// A page of memory, which has as many blocks as a `u64` has bits.
pub type Page = [u8; PAGE_SIZE];

/// How many blocks a page has.
const BLOCKS: usize = PAGE_SIZE / BLOCK_SIZE;

/// Which blocks of the two pages differ: bit i is set exactly where some byte of block i does.
pub fn mask(a: &Page, b: &Page) -> u64
    ensures bytes { (i : ℕ) → i < 64 → ((bit_at result i ≡ 1) ↔ IsTrue (differ (block i a.now) (block i b.now))) }
    ensures blocks { (i : ℕ) → i < 64 → ((bit_at result i ≡ 1) ↔ (block i a.now ≢ block i b.now)) }
{
    let (blocks, _) = a.as_chunks::<BLOCK_SIZE>();
    let (other_blocks, _) = b.as_chunks::<BLOCK_SIZE>();
    let mut mask = 0;
    for i in (0..BLOCKS).rev() {
        mask = 2 * mask + u64::from(blocks_differ(&blocks[i], &other_blocks[i]));
    }
    mask
}
