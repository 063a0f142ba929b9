//! The changes of mode.

/// What may happen to a pair.
#[derive(Clone, Copy)]
pub enum Change {
    /// The primary stops, and the backup may go live.
    FailPrimary,
    /// The backup stops, and the primary goes on.
    FailBackup,
    /// The backup goes live in the place of a stopped primary.
    GoLive,
    /// A node that is alone gets a backup to fill.
    Protect,
}
