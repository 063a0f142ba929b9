//! The address map of the machine: which part of it an address names.
#![tactic(auto)]

mod address_map;
mod limits;
mod parts;

pub use address_map::{RAM_BASE, place};
pub use limits::limits_are_the_rules;
pub use parts::{Place, TimerRegister};
