//! The pair's record: all that a protected pair keeps beside its machines and its image.
//!
//! [`PairRecord`] has mode and generation, the history and what it doesn't have yet, the numbers of checkpoints, the gate and the
//! clients' ports. It holds no machine, no page and no packet. Each of its calls is one event's share of it, as the protocol of the specs
//! spells it.
#![tactic(auto)]

mod event;
mod limits;
mod modes;
mod record;
mod window;

pub use event::{Event, Packet, Refusal, Reply, Show, TakenFrame};
pub use failover::Mode;
pub use limits::limits_are_the_rules;
pub use modes::{is_alone, is_stopped, mode_refusal};
pub use pair_history::{Entry, Frame, History};
pub use record::PairRecord;
pub use window::Window;
