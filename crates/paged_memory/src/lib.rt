//! Memory in pages of 4096 bytes, which knows the pages that were written since it was last settled, and what they were then.
//!
//! [`Memory::boot`] makes it, [`Memory::read`] and [`Memory::write`] copy bytes, and the calls for numbers of 1, 2, 4 and 8 bytes are
//! those of a hart's loads and stores. [`Memory::dirty`] says whether a page was written since the last [`Memory::settle`],
//! [`Memory::next_dirty`] goes from each such page to the next, and [`Memory::original`] gives a page's bytes at that settle. A page is
//! copied when it is first written after a settle, and only then: [`Memory::copies`] counts that. [`Memory::is_zero`] says whether a page
//! is all zero, and looks at no byte of one that nothing was ever put into. Contracts see a memory as a `Paged` of the specs: its bytes,
//! those at the last settle, a flag for each page, and the count of page copies.
#![tactic(auto)]

mod keeping;
mod limits;
mod listed;
mod memory;
mod numbers;

pub use limits::limits_are_the_rules;
pub use memory::{Memory, PAGE_BYTES};
pub use page_lanes::BLOCK_SIZE as BLOCK_BYTES;
