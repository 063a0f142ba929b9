//! Machine-mode control and status registers (CSRs), and what a trap and its return do to them, by the Privileged ISA.
//!
//! The profile is a hart with machine mode alone: no other mode, no counters, no physical memory protection. Any CSR
//! that isn't in its table is unknown.
#![tactic(auto)]

mod csrs;
pub mod interrupts;
pub mod numbers;
mod status;
mod values;

pub use csrs::Csrs;
pub use values::{CsrValues, legal_value};
