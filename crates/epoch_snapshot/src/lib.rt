//! Checkpoints: what changed in a machine since the last cut, or all that it holds.
//!
//! A [`Checkpoint`] states the hart, its timer and both devices' records whole, and of memory and disk what changed: the blocks of
//! 64 bytes that differ, each as the old block XOR the new one, and the sectors that were written. It is canonical by its type, so
//! that one change has one checkpoint. What a checkpoint makes of a guest is its image (`image_of` of the specs).
//! Machines are cut by the crate `epoch_cuts`.
#![tactic(auto)]

mod changes;
mod checkpoint;
mod laws;
mod limits;

pub use changes::{BLOCK_BYTES, Block, PageChange, SectorChange};
pub use checkpoint::{Checkpoint, MOST_OLD_PAGES};
pub use laws::{
    changes_are_found_in_turn, full_cuts_are_whole, masks_name_blocks, pages_are_their_blocks,
};
pub use limits::limits_are_the_rules;
