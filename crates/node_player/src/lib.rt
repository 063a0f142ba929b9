//! The lines of a node: one host of a pair, which owns its own side of it and nothing else. How its lines are spelled, what each does, and
//! what is printed of it.
//!
//! [`host::serve`] plays the lines of a session as they come. It opens no file and no socket: it reads a
//! [`Source`](script_player::streams::Source), and writes to a [`Sink`](script_player::streams::Sink).
#![tactic(auto)]

mod answers;
mod begins;
pub mod host;
pub mod laws;
mod lines;
mod orders;
mod printing;
mod role;
mod runs;
mod shows;
mod waits;
