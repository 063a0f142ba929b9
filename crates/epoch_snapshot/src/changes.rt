//! What a checkpoint says of one page and of one sector.

use guest_rules::SECTOR_BYTES;

/// Bytes in a block, 64 of which are a page.
pub const BLOCK_BYTES: usize = 64;

/// 64 bytes of a page.
pub type Block = [u8; BLOCK_BYTES];

/// Which blocks of a page a checkpoint changes.
#[derive(Clone, Copy)]
pub struct PageChange {
    /// The page, from 0 for the one at the start of memory.
    pub page: u32,
    /// Bit i is 1 exactly where block i of the page changes.
    pub mask: u64,
}

/// The new bytes of a sector.
#[derive(Clone, Copy)]
pub struct SectorChange {
    /// The sector, from 0.
    pub sector: u32,
    /// All its bytes.
    pub bytes: [u8; SECTOR_BYTES],
}
