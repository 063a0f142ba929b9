//! `remus run FILE`: a pair in threads, by a file that says what to boot, how many epochs to run, and what each client does.
#![tactic(auto)]

mod actions;
mod printing;
mod reading;
mod run_file;

pub use printing::{Answered, write_run};
pub use reading::read_run;
pub use run_file::{Action, ClientLine, RunFile, Unread};
