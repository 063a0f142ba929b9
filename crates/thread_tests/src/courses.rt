//! What is done with the members of a pair from its start on. The tests begin here, so that a pair is named once.
ghost use Rattle.std.specs.Prelude.{◌≡◌};
ghost use Rattle.hypervisor.specs.Opening.{start_with};

use super::callers::{Task, call_all, tell_and_learn};
use super::hands::{Hand, Row, at_start, play};
use super::holds::serve_in_mid_epoch;
use super::pairs::{Guest, pair};
use super::releases::release_by_hand;
use super::zombies::outlive;
use hypervisor::{Pair, UnnamedPair};
use std::alloc::Global;
use std::marker::Brand;
use std::process::Abort;
use std::sync::Wait;
use std::thread::Threads;

/// What is done.
#[derive(Clone, Copy)]
pub(super) enum Course {
    /// These rows are played.
    Rows(&'static [Row]),
    /// Client 2 is told in a thread of what client 1 delivered. See [`tell_and_learn`].
    Told,
    /// All clients do this task so often, in which each delivers so many frames. See [`call_all`].
    Called(Task, u16, u16),
    /// The guest is held in mid-epoch while two clients call. See [`serve_in_mid_epoch`].
    Held,
    /// The guest is held at this step while the backup goes live. See [`outlive`].
    Outlived(u64),
    /// The client takes in a thread while the other members are called by hand. See [`release_by_hand`].
    Released,
}

/// Does it.
fn go<P: Pair + Send + Sync, R: Threads + Wait + Abort + Sync>(
    rt: &R,
    alloc: Global,
    hand: &mut Hand<P>,
    course: Course,
) {
    match course {
        Course::Rows(rows) => play(rt, hand, rows),
        Course::Told => tell_and_learn(rt, hand),
        Course::Called(task, count, frames) => call_all(rt, alloc, hand, task, count, frames),
        Course::Held => serve_in_mid_epoch(rt, alloc, hand),
        Course::Outlived(step) => outlive(rt, alloc, hand, step),
        Course::Released => release_by_hand(rt, hand),
    }
}

/// Names a pair, and does it with its members.
fn name_and_go<P: Pair + Send + Sync, R: Threads + Wait + Abort + Sync>(
    rt: &R,
    alloc: Global,
    pair: UnnamedPair,
    course: Course,
)
    requires { (pair.word ≡ P.word) × (P.start ≡ start_with pair.guest pair.clients) }
{
    let mut hand = at_start::<P, R>(rt, alloc, pair);
    go(rt, alloc, hand.as_mut(), course);
}

/// Does it with a pair of so many clients and this guest.
pub(super) fn plays<R: Threads + Wait + Abort + Sync>(
    rt: &R,
    alloc: Global,
    guest: Guest,
    clients: u64,
    course: Course,
) {
    let pair = pair(rt, alloc, guest, clients);
    name_and_go::<Brand, R>(rt, alloc, pair, course);
}
