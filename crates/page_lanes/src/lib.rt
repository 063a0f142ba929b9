//! Kernels over bytes, 64 at a time: which blocks of two pages differ, exclusive or in place, equality, zero, and
//! how many bytes differ.
//!
//! A checkpoint states what changed since the last one by blocks of 64 bytes. Each kernel takes a block as one
//! vector of 64 lanes, and the bytes after the last whole block one by one. Its contract says byte by byte what it
//! gives, for every length. No call takes memory.
#![tactic(auto)]

mod blocks;
mod bytes;
mod limits;
mod pages;
mod slices;

pub use blocks::{BLOCK_SIZE, Block, xor_block_at, xor_blocks};
pub use limits::limits_are_the_rules;
pub use pages::{PAGE_SIZE, Page, mask};
pub use slices::{count_differing, equal, is_zero, xor_into};
