//! Where an image stands, and what a staged checkpoint is for it.

/// The checkpoint that an image was made by: its generation and its number. At boot both nodes hold the boot image, which counts as
/// checkpoint 0 of generation 1.
#[derive(Clone, Copy, PartialEq, Eq)]
pub struct Standing {
    /// The generation, from 1.
    pub generation: u64,
    /// The number in the generation, from 0.
    pub number: u64,
}

/// What a checkpoint that wasn't refused is for an image.
#[derive(Clone, Copy, PartialEq, Eq)]
pub enum Staged {
    /// The next one: it stands apart until the commit, in the place of what stood there.
    New,
    /// One that the image already has in it: nothing changes.
    Again,
}
