//! The rules of the guest: what a hart in machine mode and its devices hold, and what one step does.
//!
//! The specs are the rules that a machine follows: `Guest` and `State`, a step (`next`, what it sends and which sectors it marks), a run
//! of steps, a frame that arrives, and the part of a guest that a checkpoint states whole. The functions are laws of them. That a machine
//! keeps to the rules is the contract of the crate `guest_machine`; a crate that speaks of guests and runs none needs this one alone.
#![tactic(auto)]

mod laws;
mod machine_state;
mod shapes;

pub use block_device::SECTOR_BYTES;
pub use laws::{
    aligned_pc, changed_sectors_are_listed, counted_steps, devices_apart, early_frames_are_lost,
    kept_disk, kept_memory, sent_frames,
};
pub use machine_state::MachineState;
pub use mtraps::CsrValues;
pub use net_device::Frame;
pub use shapes::Shape;
pub use virtio_mmio::DeviceState;
pub use virtqueue::Queue;
