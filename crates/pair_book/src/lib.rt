//! The book of a pair: what all its threads share, under one lock.
//!
//! A [`Book`] keeps the pair's record and the keeper's seat: mode and numbers, history and what is under way, gate, inboxes and boxes; and
//! the texts of pending checkpoints. It holds no machine, page or image. Who calls it lends its own seat, and has then seen the whole list
//! of the keeper's steps. It has the calls of clients, of the line, of the runner, of who sends checkpoints and of the backup,
//! acknowledgements, failures and new backups. The members who call it stand in `hypervisor`.
#![tactic(auto)]

mod book;
mod clients;
mod commits;
mod failures;
mod gained;
mod going_live;
mod handing;
mod kept_texts;
mod laws;
mod losses;
mod opening;
mod packet;
mod prepared;
mod runner;
mod seats;
mod sending;
mod shared_bytes;
mod submitting;
mod texts;

pub use book::{Book, LINE_SEAT};
pub use failures::{Ack, LandedCount};
pub use kept_texts::KeptTexts;
pub use laws::{members_begin, members_go_on, runners_bring_what_they_have};
pub use losses::{LineSeat, Lost};
pub use opening::{Members, NewBook, UnnamedBook};
pub use packet::TextPacket;
pub use pair_record::Refusal;
pub use prepared::Prepared;
pub use runner::{Kind, Want};
pub use submitting::{Next, OpenEpoch};
