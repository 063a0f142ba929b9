//! What a node is.

use pair_nodes::{PrimaryNode, StandbyNode};

/// What a node is.
#[derive(Drop)]
pub enum Role {
    /// Nothing yet.
    Nothing,
    /// The guest runs here.
    Primary(PrimaryNode),
    /// It takes checkpoints, and waits until it is to go on.
    Standby(StandbyNode),
}
