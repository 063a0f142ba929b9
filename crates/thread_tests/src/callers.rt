//! Clients that call from threads of their own.
ghost use Rattle.std.specs.Prelude.{◌≡◌};
ghost use Rattle.growing_history.specs.Steps.{Begins};

use super::asserts::{holds, is_number, is_refusal, same};
use super::courses::{Course, plays};
use super::hands::{FRAME, Hand, cuts, finds_none, has_entries, pass, runs, take_client};
use super::pairs::Guest;
use hypervisor::{Badge, Client, Frame, Pair, Refusal};
use std::alloc::Global;
use std::process::Abort;
use std::sync::Wait;
use std::sync::atomic::AtomicU64;
use std::sync::atomic::Ordering::SeqCst;
use std::test::*;
use std::thread::{Threads, join};
use std::{mem, thread};

/// The client delivers, and tells of it.
fn deliver_and_tell<P: Pair, R: Wait + Abort>(
    rt: &R,
    mut client: Client<P>,
) -> (Badge<P>, Client<P>)
    ensures { result.0 ≡ result.1.seen }
{
    let delivered = client.deliver(rt, &FRAME);
    is_number(rt, &delivered, &Ok(1));
    (client.tell(), client)
}

/// The client finds its box empty.
fn take_none<P: Pair, R: Wait + Abort>(rt: &R, mut client: Client<P>) -> Client<P> {
    finds_none(rt, &mut client);
    client
}

/// One client delivers and tells of it while the other takes. Then the other learns of it, and has seen all that the one has.
fn told_by_another<P: Pair + Send + Sync, R: Threads + Wait + Abort + Sync>(
    rt: &R,
    one: Client<P>,
    other: Client<P>,
) -> (Client<P>, Client<P>)
    ensures { Begins result.0.seen result.1.seen }
{
    let ((mut badge, one), mut other) = join(
        rt,
        || -> (Badge<P>, Client<P>)
            ensures { result.0 ≡ result.1.seen }
        { deliver_and_tell(rt, one) },
        || take_none(rt, other),
    );
    other.learn(&mut badge);
    (one, other)
}

/// Client 2 is told of what client 1 delivered. Then both call, and each call made its entry.
pub(super) fn tell_and_learn<P: Pair + Send + Sync, R: Threads + Wait + Abort + Sync>(
    rt: &R,
    hand: &mut Hand<P>,
) {
    let other = take_client(rt, hand);
    let one = take_client(rt, hand);
    let (one, other) = told_by_another(rt, one, other);
    let _other = take_none(rt, other);
    let _one = take_none(rt, one);
    has_entries(rt, hand, 4);
}

#[test]
fn a_call_is_told_across_threads(rt: HostRuntime) {
    plays(&rt, rt.alloc(), Guest::Idle, 2, Course::Told);
}

/// How many clients there are.
const CLIENTS: u64 = 8;

/// How many clients may have frames on the way at a time: each has two, and the guest can hold four.
const MOST_AT_ONCE: u64 = 2;

/// How often a call is made, or an epoch is run, at most.
const MOST_TURNS: u64 = 1_000_000_000;

/// The steps of an epoch: enough to set the guest up, or to send four frames back.
const STEPS: u64 = 250;

/// What each client does time after time.
#[derive(Clone, Copy)]
pub(super) enum Task {
    /// It delivers a frame, again where it is refused as Full, and finds its box empty.
    Deliver,
    /// It waits for its turn, delivers two frames, and takes until both have come back.
    Exchange,
}

/// What the threads tell each other: how many turns were begun and how many are over, how many epochs, and how many clients have ended.
#[derive(Drop)]
struct Turns {
    begun: AtomicU64,
    over: AtomicU64,
    epochs: AtomicU64,
    ended: AtomicU64,
}

impl Turns {
    /// Nothing has happened yet.
    fn new() -> Turns {
        Turns {
            begun: AtomicU64::new(0),
            over: AtomicU64::new(0),
            epochs: AtomicU64::new(0),
            ended: AtomicU64::new(0),
        }
    }
}

/// What a client was answered.
#[derive(Drop)]
struct Answers {
    /// The numbers of its frames, in order.
    numbers: Vec<u64>,
    /// How many calls it made.
    calls: u64,
}

/// The frame of this client and this place, from 0, which goes to the guest.
fn frame_of(client: u64, place: u64) -> [u8; 16] {
    let [own, ..] = client.to_le_bytes();
    let [low, high, ..] = place.to_le_bytes();
    [2, 0, 0, 0, 0, 1, 2, 0, 0, 0, 1, own, 0x88, 0xb5, low, high]
}

/// It as it comes back.
fn echo_of(client: u64, place: u64) -> [u8; 16] {
    let [own, ..] = client.to_le_bytes();
    let [low, high, ..] = place.to_le_bytes();
    [2, 0, 0, 0, 1, own, 2, 0, 0, 0, 0, 1, 0x88, 0xb5, low, high]
}

/// Keeps an answer. Says whether the frame has a number; else it was refused as Full.
fn keep(rt: &impl Abort, answers: &mut Answers, delivered: Result<u64, Refusal>) -> bool {
    answers.calls = answers.calls.wrapping_add(1);
    match delivered {
        Ok(number) => {
            answers.numbers.push(number).expect(rt, "memory");
            true
        }
        Err(why) => {
            is_refusal(rt, &why, &Refusal::Full);
            false
        }
    }
}

/// Takes once, and counts the call.
fn take<P: Pair, R: Wait + Abort>(
    rt: &R,
    client: &mut Client<P>,
    answers: &mut Answers,
) -> Option<Frame> {
    answers.calls = answers.calls.wrapping_add(1);
    client.take(rt).expect(rt, "an answer")
}

/// Waits for another epoch than this one, for a bounded time.
fn wait_for_epoch(turns: &Turns, epoch: u64) {
    for _ in 0..MOST_TURNS {
        if turns.epochs.load(SeqCst) != epoch {
            return;
        }
        thread::yield_now();
    }
}

/// The client delivers the frame of this place until it has a number.
fn deliver<P: Pair, R: Wait + Abort>(
    rt: &R,
    turns: &Turns,
    client: &mut Client<P>,
    answers: &mut Answers,
    place: u64,
) {
    let frame = frame_of(client.number(), place);
    for _ in 0..MOST_TURNS {
        let epoch = turns.epochs.load(SeqCst);
        if keep(rt, answers, client.deliver(rt, &frame)) {
            return;
        }
        wait_for_epoch(turns, epoch);
    }
    panic!(rt; "no number");
}

/// The client takes until the frame of this place has come back.
fn take_back<P: Pair, R: Wait + Abort>(
    rt: &R,
    turns: &Turns,
    client: &mut Client<P>,
    answers: &mut Answers,
    place: u64,
) {
    let wanted = echo_of(client.number(), place);
    for _ in 0..MOST_TURNS {
        let epoch = turns.epochs.load(SeqCst);
        if let Some(frame) = take(rt, client, answers) {
            holds(rt, "what came back", frame.as_slice() == wanted.as_slice());
            return;
        }
        wait_for_epoch(turns, epoch);
    }
    panic!(rt; "no frame");
}

/// Waits until so few turns are begun and not over that another may have its turn.
fn wait_for_turn(rt: &impl Abort, turns: &Turns) {
    let turn = turns.begun.fetch_add(1, SeqCst);
    for _ in 0..MOST_TURNS {
        if turn < turns.over.load(SeqCst).saturating_add(MOST_AT_ONCE) {
            return;
        }
        thread::yield_now();
    }
    panic!(rt; "no turn");
}

/// The client does its task once.
fn call<P: Pair, R: Wait + Abort>(
    rt: &R,
    turns: &Turns,
    client: &mut Client<P>,
    answers: &mut Answers,
    task: Task,
    place: u16,
) {
    let place = u64::from(place);
    match task {
        Task::Deliver => {
            deliver(rt, turns, client, answers, place);
            holds(rt, "an empty box", take(rt, client, answers).is_none());
        }
        Task::Exchange => {
            wait_for_turn(rt, turns);
            deliver(rt, turns, client, answers, place * 2);
            deliver(rt, turns, client, answers, place * 2 + 1);
            take_back(rt, turns, client, answers, place * 2);
            take_back(rt, turns, client, answers, place * 2 + 1);
            turns.over.fetch_add(1, SeqCst);
        }
    }
}

/// The client does its task so often.
fn call_many<P: Pair, R: Wait + Abort>(
    rt: &R,
    alloc: Global,
    turns: &Turns,
    mut client: Client<P>,
    task: Task,
    count: u16,
) -> Answers {
    let mut answers = Answers {
        numbers: Vec::new(alloc),
        calls: 0,
    };
    for place in 0..count {
        call(rt, turns, &mut client, &mut answers, task, place);
    }
    turns.ended.fetch_add(1, SeqCst);
    answers
}

/// Epochs are run and passed until all clients have ended. Answers how many entries they made: steps, arrivals and landings.
fn run_epochs<P: Pair, R: Wait + Abort>(rt: &R, turns: &Turns, hand: &mut Hand<P>) -> u64 {
    let mut entries = 0u64;
    let mut held = 0u64;
    for number in 1..MOST_TURNS {
        if turns.ended.load(SeqCst) == CLIENTS {
            break;
        }
        runs(rt, hand, 0, STEPS);
        entries = entries.wrapping_add(held).wrapping_add(STEPS);
        held = cuts(rt, hand, 0) as u64;
        entries = entries.wrapping_add(pass(rt, hand, number));
        turns.epochs.store(number, SeqCst);
    }
    entries
}

/// These numbers rise, and none of them was seen before.
fn see(rt: &impl Abort, seen: &mut Vec<bool>, numbers: &[u64]) {
    let mut last = 0;
    for number in numbers {
        holds(rt, "a number that rises", *number > last);
        last = *number;
        let place = seen.get_mut(last as usize).expect(rt, "no such number");
        holds(rt, "a number of its own", !*place);
        *place = true;
    }
}

/// The clients' numbers are those from 1 on, so many of each client's, each once. Answers how many calls they made.
fn see_all(rt: &impl Abort, alloc: Global, answers: &[Answers], count: u16) -> u64 {
    let mut seen = Vec::new(alloc);
    seen.resize(usize::from(count) * CLIENTS as usize + 1, false)
        .expect(rt, "memory");
    let mut calls = 0u64;
    for client in answers {
        same(rt, "frames", client.numbers.len() as u64, count.into());
        see(rt, &mut seen, client.numbers.as_slice());
        calls = calls.wrapping_add(client.calls);
    }
    calls
}

/// All clients do their task so often, each in a thread of its own, while epochs are run. Answers how many entries the epochs made, and
/// what the clients were answered.
fn call_in_threads<P: Pair + Send + Sync, R: Threads + Wait + Abort + Sync>(
    rt: &R,
    alloc: Global,
    hand: &mut Hand<P>,
    task: Task,
    count: u16,
) -> (u64, Vec<Answers>) {
    let clients = mem::replace(&mut hand.clients, Vec::new(alloc));
    let turns = Turns::new();
    let (entries, answers) = join(
        rt,
        || run_epochs(rt, &turns, hand),
        || {
            thread::map_vec(
                rt,
                clients,
                &|client| { call_many(rt, alloc, &turns, client, task, count) },
            )
        },
    );
    (entries, answers.expect(rt, "memory"))
}

/// All clients do their task so often, in which each delivers so many frames. Each frame has a number of its own, and each call made its
/// entry.
pub(super) fn call_all<P: Pair + Send + Sync, R: Threads + Wait + Abort + Sync>(
    rt: &R,
    alloc: Global,
    hand: &mut Hand<P>,
    task: Task,
    count: u16,
    frames: u16,
) {
    let (entries, answers) = call_in_threads(rt, alloc, hand, task, count);
    same(rt, "clients", answers.len() as u64, CLIENTS);
    let calls = see_all(rt, alloc, answers.as_slice(), frames);
    has_entries(rt, hand, entries.wrapping_add(calls));
}

#[test]
fn eight_clients_deliver_10000_frames(rt: HostRuntime) {
    let course = Course::Called(Task::Deliver, 1250, 1250);
    plays(&rt, rt.alloc(), Guest::Idle, CLIENTS, course);
}

#[test]
fn eight_clients_frames_come_back(rt: HostRuntime) {
    let course = Course::Called(Task::Exchange, 25, 50);
    plays(&rt, rt.alloc(), Guest::Echo, CLIENTS, course);
}
