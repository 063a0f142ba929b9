//! A virtio block device (OASIS virtio 1.1, 5.2): a disk of sectors in memory, and the requests of its one queue.
#![tactic(auto)]

mod dirty;
mod disk;
mod errors;
mod laws;
mod limits;
mod requests;
mod storage;

pub use disk::Disk;
pub use errors::DiskError;
pub use laws::{
    changed_sectors_are_listed, other_sectors, reading_back, serving_keeps_the_disk,
    the_list_plays_no_part, worked_lengths, worked_requests, written_sectors,
};
pub use limits::limits_are_the_rules;
pub use storage::SECTOR_BYTES;
