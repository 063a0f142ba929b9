//! Frames that lie one after another. A list of them takes as many bytes as the frames have, and not a place of 1514 bytes for each.
#![tactic(auto)]

mod list;
mod spans;

pub use list::{Frame, FrameList};
