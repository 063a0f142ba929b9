//! Cuts: the checkpoint of what a machine changed since its last settle, and of all that it holds.
#![tactic(auto)]

mod cut;
mod memory;
mod sectors;

pub use cut::{cut_delta, cut_full};
