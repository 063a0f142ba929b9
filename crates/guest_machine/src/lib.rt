//! The guest: one RISC-V hart in machine mode with its timer, its memory, its network card and its disk, and one step of them.
//!
//! [`Machine::boot`] makes the machine, [`Machine::step`] takes an interrupt or runs one instruction, [`Machine::outbox`] gives the frames
//! that the guest sent since the last [`Machine::settle`], and [`Machine::arrive`] has one arrive at it. Contracts see a machine as a
//! `State` of guest_rules's specs: its `Guest`, a record of plain data, its outbox, the list of the written sectors, the bytes of memory at the
//! last settle, and a flag for each page that was written since.
//!
//! [`Machine::state`], [`Machine::page`] and [`Machine::sector`] give all that a checkpoint states; [`Machine::put_state`],
//! [`Machine::xor_block`] and [`Machine::put_sector`] put it back. An image, which is compared with nothing that stood there before,
//! takes blocks in by [`Machine::xor_settled`], and copies no page.
#![tactic(auto)]

mod blocks;
mod csr_access;
mod decoded_pages;
mod devices;
mod errors;
mod hart;
mod interrupts;
mod kept_words;
mod laps;
mod lending;
mod limits;
mod loads;
mod machine;
mod op_at;
mod op_steps;
mod paces;
mod page_ops;
mod page_runs;
mod pairs;
mod places;
mod prepared_words;
mod quick_steps;
mod ram;
mod readers;
mod slow_loads;
mod snapshots;
mod step;
mod stores;
mod stretches;
mod time_reads;

pub use block_device::SECTOR_BYTES;
pub use bus_map::RAM_BASE;
pub use errors::MachineError;
pub use guest_rules::{
    MachineState, Shape, changed_sectors_are_listed, devices_apart, kept_disk, kept_memory,
    sent_frames,
};
pub use limits::limits_are_the_rules;
pub use machine::Machine;
pub use mtraps::CsrValues;
pub use net_device::Frame;
pub use paces::{Pace, Unpaced};
pub use paged_memory::PAGE_BYTES;
pub use virtio_mmio::DeviceState;
pub use virtqueue::Queue;
