//! What crosses between the sender's thread and the backup's.

use hypervisor::{Ack, Refusal};

/// How many packets the one channel holds.
pub(crate) const MOST_PACKETS: usize = 4;

/// How many answers the other one holds.
pub(crate) const MOST_ANSWERS: usize = 4;

/// What the backup answers to a packet.
#[derive(Drop)]
pub(crate) enum Answer {
    /// What it has committed up to.
    Committed(Ack),
    /// It committed nothing.
    Refused,
}

/// Whether a refusal ends the run: there is no memory, or a number would reach 2^62.
pub(crate) fn is_last(why: &Refusal) -> bool {
    matches!(why, Refusal::NoMemory(_) | Refusal::Exhausted)
}
