//! The history of a pair, above a lock: one word counts the steps of the history's keeper, and every thread that holds a seat has
//! seen a beginning of one growing list of steps, which is legal.
//!
//! The keeper's seat is to lie under the lock, beside what the pair is. Who calls brings a seat of its own: for the call's step it
//! is joined into the keeper's, and then it has seen all, the step last. Who isn't under the lock can look, and tell others what it
//! has seen. The specs say what a step needs and does, and which entries of the history it adds.
#![tactic(auto)]

mod boot;
mod known;
mod laws;
mod seats;
mod what;

pub use boot::{Clock, Opened};
pub use known::Pair;
pub use laws::{
    Texts, a_call_is_a_point_of_one_history, a_whole_life_is_legal,
    clients_have_one_guest_that_never_fails, failures_follow_the_table,
    handed_out_frames_can_arrive, live_members_miss_nothing, live_numbers_rise,
    own_entries_are_announced, sealed_commits_make_no_mark, sealed_texts_make_their_guests,
    steps_go_on, unmarked_histories_are_legal,
};
pub use seats::{BackupSeat, Badge, ClientSeat, KeeperSeat, MemberSeat, RunnerSeat};
pub use what::{Tells, What};
