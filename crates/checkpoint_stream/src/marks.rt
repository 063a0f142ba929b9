//! Where a reader stood, so that it can go back there.

use crate::place::Place;
use crate::rules::HEAD_NUMBERS;
use guest_rules::SECTOR_BYTES;

/// All that a reader keeps but the lists of parts and the bytes of a frame that has begun, and how long the lists are.
#[derive(Clone, Copy)]
pub struct Mark {
    pub offset: u64,
    pub place: Place,
    pub known: usize,
    pub head: [u64; HEAD_NUMBERS],
    pub before: u64,
    pub pages: usize,
    pub blocks: usize,
    pub sectors: usize,
    pub frames: usize,
    pub filled: usize,
    pub buffer: [u8; SECTOR_BYTES],
}
