//! The output gate: it holds the guest's frames until the checkpoint that ends their epoch is acknowledged.
//!
//! What the outside world has seen can't be taken back. So a frame that the guest sent is held here, under the
//! number of the checkpoint that ends its epoch, until the backup could resume from that checkpoint. Only then it
//! lands in the boxes of its clients.
//!
//! The guest's frames are numbered from 1, in the order sent, those that go nowhere too. The held ones have
//! consecutive numbers, up to the last one given, so the gate keeps only the number of the next.
#![tactic(auto)]

mod errors;
mod gate;
mod landing;
mod laws;
mod limits;
mod listener;
mod marks;
mod room;
mod routes;

pub use errors::GateError;
pub use gate::Gate;
pub use landing::{Landed, land_frame, land_numbered, land_telling};
pub use laws::{
    landings_go_in_parts, listeners_hear_in_parts, new_frames_land, old_frames_stay,
    one_frame_lands,
};
pub use limits::{Frame, MAX_EPOCHS, MAX_FRAMES, MAX_HELD, limits_are_the_rules};
pub use listener::Listener;
pub use routes::{Receivers, receivers_of};
