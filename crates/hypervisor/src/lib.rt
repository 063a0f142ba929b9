//! The members of a pair in threads, above one lock.
//!
//! All members share the pair's [`Book`](pair_book::Book) behind a mutex, and the word that counts the steps of its keeper. A [`Client`]
//! and the line, [`Loss`], have a seat each: contracts see by it what the member has seen of one growing history. A [`Runner`] has a
//! machine too, and a [`Backup`] an image: they run it, and make and read checkpoints, with no lock held. A call that is passed a handle
//! [`Wait`](std::sync::Wait) takes the lock, and lets go of it before it answers; a call that isn't takes none.
#![tactic(auto)]

mod backup;
mod backup_calls;
mod boot;
mod callers;
mod clients;
mod first_backup;
mod laws;
mod looking;
mod losses;
mod runner;
mod sealed_packet;
mod seats;
mod sender;
mod shared;
mod warden;

pub use backup::Backup;
pub use boot::{Parts, UnnamedPair};
pub use clients::Client;
pub use first_backup::FirstBackup;
pub use growing_history::{Badge, Pair};
pub use laws::{answers_are_of_one_guest, clients_share_one_history};
pub use looking::{Found, LaterGeneration};
pub use losses::Loss;
pub use pair_book::{Ack, Kind, LandedCount, Lost, Prepared, Refusal, TextPacket, Want};
pub use pair_history::Frame;
pub use runner::Runner;
pub use sealed_packet::SealedPacket;
pub use sender::Sender;
pub use warden::{Node, Warden};
