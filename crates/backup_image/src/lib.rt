//! The backup's image: the guest as of the last checkpoint that was committed, the checkpoint that is to come next, and the frames of
//! the last commits.
//!
//! [`Image::stage`] takes a checkpoint, which stands apart from the image; [`Image::commit`] applies it in place, and takes no memory.
//! [`Image::resume`] gives the machine of the image and the frames of the last four commits ([`KeptFrames`]). Contracts see an image as
//! an `ImageState` of the specs: its shape, its guest, where it stands, what is staged, and what is kept.
#![tactic(auto)]

mod apply;
mod errors;
mod image;
mod kept;
mod laws;
mod limits;
mod standing;

pub use errors::ImageError;
pub use image::{Image, Resumed};
pub use kept::KeptFrames;
pub use laws::{
    cuts_are_committed, staging_changes_no_guest, stopped_streams_leave_whole_checkpoints,
};
pub use limits::{MAX_KEPT, NUMBER_LIMIT, limits_are_the_rules};
pub use standing::{Staged, Standing};
