//! The history of a protected pair: what happened to one guest that never fails, and to its clients, in order.
//!
//! A [`History`] stores the entries. Contracts see them one by one, and the specs say what each entry needs and does, which
//! histories are legal, the state that a history leads to, and what it gave to each client.
//!
//! A [`Journal`] keeps the history, and what happened to the guest that the history doesn't have yet: the sealed epochs whose
//! checkpoints no commit has covered, and the epoch that runs. A call adds to one of them, moves epochs from one to the next, or
//! discards what is kept. Where frames land it listens, and adds what becomes of each; [`count_landings`] and [`count_lists`] count
//! that before. It knows no mode, no gate and no number of a checkpoint.
#![tactic(auto)]

mod discards;
mod epochs;
mod failures;
mod fates;
mod history;
mod journal;
mod landings;
mod laws;
mod stored;

pub use failures::{
    failing_backup_lets_all_land, going_live_lands_what_is_owed, reached_states,
    steps_alone_land_at_once,
};
pub use fates::{delivered_frames_have_one_fate, sent_frames_go_by_address};
pub use frame_ports::Frame;
pub use history::{Entry, History};
pub use journal::Journal;
pub use landings::{count_landings, count_lists};
pub use laws::{
    client_entries_go_first, frames_leave_in_order, no_failure_loses_a_sent_frame,
    released_frames_were_sent,
};
pub use stored::Entries;
