//! Blocks of 64 bytes, of which a page has 64.
pub(crate) use paged_memory::BLOCK_BYTES;
