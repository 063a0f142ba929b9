//! A runner whose guest is held in mid-epoch while two clients call, each from a thread of its own.

use super::asserts::{holds, same};
use super::courses::{Course, plays};
use super::gates::{Deed, Gate, hold};
use super::hands::{FRAME, Hand, fails, finds_none, has_entries, is_stopped, take_client};
use super::pairs::Guest;
use hypervisor::{Client, Node, Pair};
use std::alloc::Global;
use std::process::Abort;
use std::sync::Wait;
use std::test::*;
use std::thread::{Threads, join};

/// Once the guest is held the client delivers, and takes. Answers its frame's number.
fn deliver_and_take<P: Pair, R: Wait + Abort>(rt: &R, gate: &Gate, mut client: Client<P>) -> u64 {
    holds(rt, "the guest is held", gate.is_held());
    let number = client.deliver(rt, &FRAME).expect(rt, "a number");
    finds_none(rt, &mut client);
    gate.come();
    number
}

/// Both clients do so.
pub(super) fn call_both<P: Pair + Send + Sync, R: Threads + Wait + Abort + Sync>(
    rt: &R,
    gate: &Gate,
    hand: &mut Hand<P>,
) {
    let second = take_client(rt, hand);
    let first = take_client(rt, hand);
    let (one, other) = join(
        rt,
        || deliver_and_take(rt, gate, first),
        || deliver_and_take(rt, gate, second),
    );
    same(rt, "the first number", one.min(other), 1);
    same(rt, "the second number", one.max(other), 2);
}

/// Step 10 of the guest is held until both clients have called. Then the primary fails, and its epoch changes nothing any more.
pub(super) fn serve_in_mid_epoch<P: Pair + Send + Sync, R: Threads + Wait + Abort + Sync>(
    rt: &R,
    alloc: Global,
    hand: &mut Hand<P>,
) {
    let mut runner = hold(rt, alloc, hand, (10, 2), Deed::CallBoth);
    fails(rt, hand, Node::Primary, 0);
    has_entries(rt, hand, 4);
    is_stopped(rt, &mut *runner);
    has_entries(rt, hand, 4);
}

#[test]
fn pace_holds_guest(rt: HostRuntime) {
    plays(&rt, rt.alloc(), Guest::Idle, 2, Course::Held);
}
