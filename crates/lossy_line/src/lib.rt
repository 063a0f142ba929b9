//! The line between the two nodes: it keeps each packet that was ever sent under its number, so that it can be got
//! any number of times, in any order, late, or never.
//!
//! A real network loses, repeats and reorders packets, and alters none. Whoever asks a [`Line`] for packets decides
//! which of these happens: a packet that nobody asks for is lost, one that is asked for twice comes twice, and each
//! comes as it was sent. What a packet holds can be let go when it can no longer matter; its number stays taken.
#![tactic(auto)]

mod errors;
mod line;

pub use errors::LineError;
pub use line::Line;
