//! The beacon's frame reaches its client, who takes in a thread of its own: while the members' threads run, and while one thread calls them
//! by hand. And a client is served while an epoch runs.
ghost use Rattle.std.specs.Prelude.{◌≡◌};
ghost use Rattle.hypervisor.specs.Opening.{start_with};

use super::asserts::{holds, same};
use super::courses::{Course, plays};
use super::hands::{FRAME, Hand, Row, list_of, play, take_client};
use super::pairs::{Guest, pair};
use hypervisor::{Client, Frame, Pair, UnnamedPair};
use pair_threads::{Ended, Session, members_of, run_members};
use std::alloc::Global;
use std::marker::Brand;
use std::process::Abort;
use std::sync::Wait;
use std::test::*;
use std::thread;
use std::thread::{Threads, join};

/// How often a client tries to take a frame that comes.
const MOST_TRIES: u64 = 1_000_000;

/// Takes until the beacon's frame comes, so often at most. Answers whether it came.
fn take_frame<P: Pair, R: Wait>(rt: &R, client: &mut Client<P>, tries: u64) -> bool {
    let mut frame = Frame::new();
    for _ in 0..tries {
        match client.take_into(rt, &mut frame) {
            Ok(true) => return frame.as_slice() == FRAME.as_slice(),
            Ok(false) => thread::yield_now(),
            Err(_) => return false,
        }
    }
    false
}

/// A client that takes until the beacon's frame comes, so often at most. Where it doesn't come, the run is to end.
#[derive(Drop)]
struct Taking<P: Pair> {
    client: Client<P>,
    tries: u64,
    has_frame: bool,
}

impl<P: Pair + Send + Sync> Session for Taking<P> {
    ghost served = { λ old new. Unit {0} };

    fn serve<R: Wait>(&mut self, rt: &R) -> bool {
        self.has_frame = take_frame(rt, &mut self.client, self.tries);
        self.has_frame
    }
}

/// So many epochs of so many steps, in which the client tries to take so often at most.
#[derive(Clone, Copy)]
struct Plan {
    epochs: u64,
    steps: u64,
    tries: u64,
}

/// What came of a run.
#[derive(Clone, Copy)]
struct Outcome {
    is_whole: bool,
    entries: u64,
    has_frame: bool,
}

/// What came of this one, and whether its first client has the frame.
fn outcome_of<P: Pair, R: Wait>(rt: &R, alloc: Global, ended: &Ended<P, Taking<P>>) -> Outcome {
    let has_frame = match ended.sessions.as_slice() {
        [session, ..] => session.has_frame,
        [] => false,
    };
    Outcome {
        is_whole: ended.is_whole,
        entries: ended.warden.look(rt, &mut Vec::new(alloc)).entries,
        has_frame,
    }
}

/// The session of a run's only client.
fn session_of<P: Pair>(
    rt: &impl Abort,
    alloc: Global,
    mut clients: Vec<Client<P>>,
    tries: u64,
) -> Vec<Taking<P>> {
    let client = clients.pop().expect(rt, "a client");
    let taking = Taking {
        client,
        tries,
        has_frame: false,
    };
    list_of(rt, alloc, taking)
}

/// Runs the threads of a pair's members while its client takes.
fn run<P: Pair + Send + Sync, R: Threads + Wait + Abort + Sync>(
    rt: &R,
    alloc: Global,
    pair: UnnamedPair,
    plan: Plan,
) -> Outcome
    requires { (pair.word ≡ P.word) × (P.start ≡ start_with pair.guest pair.clients) }
{
    let (clients, members) = members_of::<P>(alloc, pair).expect(rt, "memory");
    let sessions = session_of(rt, alloc, clients, plan.tries);
    let ended = run_members(rt, alloc, members, plan.epochs, plan.steps, sessions);
    outcome_of(rt, alloc, &ended.expect(rt, "threads"))
}

/// The same with a pair of one client and this guest.
fn runs<R: Threads + Wait + Abort + Sync>(
    rt: &R,
    alloc: Global,
    guest: Guest,
    plan: Plan,
) -> Outcome {
    let pair = pair(rt, alloc, guest, 1);
    run::<Brand, R>(rt, alloc, pair, plan)
}

#[test]
fn run_releases(rt: HostRuntime) {
    let plan = Plan {
        epochs: 4,
        steps: 22,
        tries: MOST_TRIES,
    };
    let outcome = runs(&rt, rt.alloc(), Guest::Beacon, plan);
    holds(&rt, "it is whole", outcome.is_whole);
    holds(&rt, "the frame came", outcome.has_frame);
}

/// One epoch that goes on for years, whose client takes all the same, and then ends it.
#[test]
fn a_client_is_served_in_mid_epoch(rt: HostRuntime) {
    let plan = Plan {
        epochs: 1,
        steps: 1 << 60,
        tries: 1000,
    };
    let outcome = runs(&rt, rt.alloc(), Guest::Counts, plan);
    holds(&rt, "it isn't whole", !outcome.is_whole);
    same(&rt, "entries", outcome.entries, 1000);
}

/// Four epochs of 22 steps, each passed by hand: the frame lands with the first.
static FOUR_EPOCHS: [Row; 16] = [
    Row::Epoch(0, 22),
    Row::Next(1, 1),
    Row::Commit(0, 0, Ok((1, 1))),
    Row::Acked(1, 1, Ok(1)),
    Row::Epoch(0, 22),
    Row::Next(1, 2),
    Row::Commit(0, 1, Ok((1, 2))),
    Row::Acked(1, 2, Ok(0)),
    Row::Epoch(0, 22),
    Row::Next(1, 3),
    Row::Commit(0, 2, Ok((1, 3))),
    Row::Acked(1, 3, Ok(0)),
    Row::Epoch(0, 22),
    Row::Next(1, 4),
    Row::Commit(0, 3, Ok((1, 4))),
    Row::Acked(1, 4, Ok(0)),
];

/// One thread calls the members, and the client takes its frame in another.
pub(super) fn release_by_hand<P: Pair + Send + Sync, R: Threads + Wait + Abort + Sync>(
    rt: &R,
    hand: &mut Hand<P>,
) {
    let mut client = take_client(rt, hand);
    let (has_frame, ()) = join(
        rt,
        || take_frame(rt, &mut client, MOST_TRIES),
        || play(rt, hand, &FOUR_EPOCHS),
    );
    holds(rt, "the frame came", has_frame);
}

#[test]
fn calls_by_hand_release(rt: HostRuntime) {
    plays(&rt, rt.alloc(), Guest::Beacon, 1, Course::Released);
}
