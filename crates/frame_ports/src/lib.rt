//! The ports of the virtual network: for each client an inbox, from which frames go to the guest, and a box, in
//! which the guest's frames for that client land.
//!
//! A frame that a client delivers waits in its inbox under the next frame number. A frame that the guest sent
//! goes to the client that its first six bytes name, or to all clients; where it lands is the client's box. The
//! guest numbers its frames in the order sent, and for each client the last one that came is kept here: a frame
//! up to that number doesn't land again.
//! An inbox holds at most 64 frames, and a box at most 256. All memory is reserved by [`Ports::new`].
#![tactic(auto)]

mod errors;
mod landing;
mod limits;
mod numbers;
mod ports;
mod rings;
mod targets;

pub use errors::PortError;
pub use landing::Landing;
pub use limits::{
    BOX_FRAMES, Frame, INBOX_FRAMES, MAX_CLIENTS, MAX_FRAME, MIN_FRAME, NUMBER_LIMIT,
    limits_are_the_rules,
};
pub use ports::Ports;
pub use targets::Targets;
