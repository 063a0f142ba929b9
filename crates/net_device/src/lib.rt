//! The network card behind its registers (OASIS virtio 1.1, 5.1): it sends the frames that a driver makes available in
//! its transmit queue, and puts frames that arrive into its receive queue.
//!
//! [`NetDevice::transmit`] sends into an [`Outbox`], whose places are reserved when it is made; [`NetDevice::receive`]
//! says whether the guest has the frame. Neither takes memory, and neither trusts the driver.
#![tactic(auto)]

mod device;
mod errors;
mod frames;
mod laws;
mod limits;
mod sending;

pub use device::NetDevice;
pub use errors::OutboxError;
pub use frames::{Frame, Outbox};
pub use laws::{
    earlier_chains_stay, kept_rules, packets_received, packets_sent, receive_breaks, sent_frames,
    transmit_breaks,
};
pub use limits::limits_are_the_rules;
