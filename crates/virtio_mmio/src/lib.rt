//! The registers of a virtio device as its driver sees them through memory (OASIS virtio 1.1, 4.2.2).
//!
//! A [`Transport`] is one device's register file: it answers loads and stores at an offset into the
//! device's range of addresses, and says when the driver notified a queue or reset the device. What a
//! device does with its queues stands in the crates above.
#![tactic(auto)]

mod actions;
mod changes;
mod kinds;
mod laws;
mod registers;
mod serving;
mod states;
mod transport;

pub use actions::Action;
pub use kinds::DeviceKind;
pub use laws::kept_records;
pub use serving::ChainHandler;
pub use states::DeviceState;
pub use transport::Transport;
