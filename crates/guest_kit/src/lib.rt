//! Guest programs, as the bytes that a machine boots from.
//!
//! Each program is written with an assembler of a few functions over [`rv64_core`], and its contract says every byte: the words,
//! as the specification lists them, then the data at their addresses, and zeros elsewhere.
#![tactic(auto)]

mod assembler;
mod beacon_guest;
mod counter_guest;
mod disk_guest;
mod echo_guest;
mod idle_guest;
mod image;
mod virtio;

pub use beacon_guest::beacon;
pub use counter_guest::counter;
pub use disk_guest::disk_once;
pub use echo_guest::echo;
pub use idle_guest::idle;
