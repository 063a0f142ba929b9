//! The protected pair as one machine over events: a live guest, the backup's image, the gate between the guest and its
//! clients, and one history that says what clients were shown.
//!
//! [`World::apply`] does one event and answers it; [`World::run`] does a list of them. Contracts see a world as a `Pair`
//! of the specs, whose part `protocol` is the pair's record ([`PairRecord`](pair_record::PairRecord)) with the lines between its nodes.
#![tactic(auto)]

mod laws;
mod lines;
mod mode_laws;
mod nodes;
mod world;

pub use guest_machine::{SECTOR_BYTES, Shape};
pub use laws::{
    acknowledged_frames_have_left, clients_have_one_guest_that_never_fails,
    committed_epochs_enter_the_history, committed_guests_are_those_cut, cut_guests_are_awaited,
    what_is_delivered_is_lost_for_a_reason,
};
pub use mode_laws::modes_change_by_failovers_table;
pub use pair_history::released_frames_were_sent;
pub use pair_record::{
    Entry, Event, Frame, History, Mode, Packet, Refusal, Reply, Show, TakenFrame,
    limits_are_the_rules,
};
pub use world::World;
