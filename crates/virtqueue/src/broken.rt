//! What a driver can do wrong.

use thiserror::Error;

/// A malformation of a queue or of a chain. A device that meets one serves nothing until it is reset.
///
/// The first eight are found in this order: the first three at every serve, the five from `BadIndex` to
/// `Loop` descriptor by descriptor along a chain. The last two are found by the devices.
#[derive(Clone, Copy, Debug, PartialEq, Eq, Error)]
pub enum Broken {
    /// The descriptor table is not aligned to 16 bytes, the available ring to 2 or the used ring to 4
    /// (virtio 1.1, 2.6).
    #[error("Misaligned")]
    Misaligned,
    /// The descriptor table or a ring is not wholly in RAM.
    #[error("AreaOutside")]
    AreaOutside,
    /// More than 64 chains are available.
    #[error("TooMany")]
    TooMany,
    /// A head or a next is not below the queue's size.
    #[error("BadIndex")]
    BadIndex,
    /// A descriptor is indirect, which was not offered.
    #[error("Indirect")]
    Indirect,
    /// A nonempty buffer is not wholly in RAM.
    #[error("Outside")]
    Outside,
    /// A readable descriptor comes after a writable one.
    #[error("Order")]
    Order,
    /// A chain has more descriptors than the queue's size.
    #[error("Loop")]
    Loop,
    /// A descriptor's direction is not the one that the device's queue takes.
    #[error("Direction")]
    Direction,
    /// A chain has too few bytes for a request.
    #[error("Short")]
    Short,
}
