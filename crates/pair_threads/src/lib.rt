//! `remus run FILE`: the members of a pair, each in a thread of its own.
//!
//! [`run`] reads the file, boots the pair, and prints what its clients were answered. [`run_members`] starts the threads: it is handed the
//! members, and for each client a [`Session`], which says what that client's thread does.
#![tactic(auto)]

mod booting;
mod both;
mod committing;
mod epochs;
mod file_run;
mod messages;
mod pace;
mod scripts;
mod sending;
mod sessions;
mod signals;
mod threads;

pub use file_run::run;
pub use sessions::Session;
pub use threads::{Ended, Members, members_of, run_members};
