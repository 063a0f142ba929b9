//! Worked guests: what a few words do from boot, step by step, by the rules of `guest_rules`. Nothing stands on this crate.
#![tactic(auto)]

mod laws;

pub use laws::{
    beacon_breaks, beacon_loses, beacon_sends, branches_trap, disk_refuses, disk_writes,
    frames_arrive, read_only_csrs_trap, timer_interrupts,
};
