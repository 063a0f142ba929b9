//! Two nodes of a pair, each with what it has itself: what they do, with a bag of messages between them, is what a pair does.
#![tactic(auto)]

mod generations;
mod halves;
mod laws;
mod primary;
mod standby;
mod texts;

pub use halves::{what_a_primary_does_may_happen, what_a_standby_does_may_happen};
pub use laws::{
    each_text_has_a_name_of_its_own, one_that_boots_alone_is_one_of_two,
    turning_twice_is_handing_over, two_nodes_serve_as_one_guest,
    what_a_checkpoint_covers_is_let_out, what_comes_whole_was_sent, what_is_let_out_reads_so,
    what_nodes_do_a_pair_does,
};
pub use primary::PrimaryNode;
pub use standby::{Commit, StandbyNode};
