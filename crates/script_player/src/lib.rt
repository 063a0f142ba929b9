//! Scripts of a pair: how their lines are spelled, what each does to the pair, and what is printed of it.
//!
//! [`sim::sim`] plays a script from its first line to its last, and [`live::live`] plays lines as they come; both play one line at a time
//! by [`player::Player`]. [`check_stream::check_stream`] lists the checkpoints of a file. None of them opens a file: they read bytes or a
//! [`streams::Source`], and write to a [`streams::Sink`].
#![tactic(auto)]

mod answers;
pub mod boot;
pub mod check_stream;
pub mod delivery;
pub mod digits;
pub mod fields;
pub mod laws;
pub mod limits;
mod lines;
pub mod live;
mod output;
pub mod player;
pub mod replies;
mod script;
pub mod session;
pub mod sim;
pub mod streams;
pub mod text;
