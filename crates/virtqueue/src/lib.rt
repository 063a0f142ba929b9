//! Split virtqueues (OASIS virtio 1.1, 2.6) over any guest memory, from the device's side.
//!
//! The driver is not trusted: whatever bytes stand in the rings, every call answers, and a malformed
//! queue or chain is named by [`Broken`].
#![tactic(auto)]

mod broken;
mod chains;
mod laws;
mod limits;
mod memory;
mod parts;
mod plain_ram;
mod rings;

pub use broken::Broken;
pub use chains::{Chain, Descriptor};
pub use laws::joined_lengths;
pub use limits::limits_are_the_rules;
pub use memory::{GuestRam, RAM_START};
pub use plain_ram::PlainRam;
pub use rings::Queue;
