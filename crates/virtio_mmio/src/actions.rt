//! What a store asks of the device.

/// What a store asks of the device behind the registers.
#[derive(Clone, Copy, PartialEq, Eq)]
pub enum Action {
    /// Nothing.
    None,
    /// The driver notified the queue of this number, one that the device has.
    Notify(u32),
    /// The driver reset the device.
    Reset,
}
