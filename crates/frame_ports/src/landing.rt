//! What becomes of a frame of the guest at one client.

/// What becomes of a frame of the guest at one client, in [`Ports::land`](crate::Ports::land).
#[derive(Clone, Copy)]
pub enum Landing {
    /// It lies last in the client's box.
    In,
    /// The box was full, so it is dropped. Its number counts all the same.
    Dropped,
    /// It came for this client before, so nothing changes.
    Old,
}
