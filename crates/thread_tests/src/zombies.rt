//! A runner that is held in the midst of an epoch while the primary fails and the backup goes live: it changes nothing any more.

use super::asserts::holds;
use super::courses::{Course, plays};
use super::gates::{Deed, Gate, hold};
use super::hands::{Hand, Row, fails, goes_live, is_stopped, play};
use super::pairs::Guest;
use hypervisor::{Node, Pair};
use std::alloc::Global;
use std::process::Abort;
use std::sync::Wait;
use std::test::*;
use std::thread::Threads;

/// Once the guest is held the primary fails, and the backup goes live.
pub(super) fn take_over<P: Pair, R: Wait + Abort>(rt: &R, gate: &Gate, hand: &mut Hand<P>) {
    holds(rt, "the guest is held", gate.is_held());
    fails(rt, hand, Node::Primary, 0);
    goes_live(rt, hand, 0);
    gate.come();
}

/// The old runner changed nothing, and its guest's frame is gone. The new runner's guest sends it.
static AFTERWARDS: [Row; 6] = [
    Row::Entries(0),
    Row::TakesNone,
    Row::Epoch(0, 22),
    Row::Takes,
    Row::TakesNone,
    Row::Entries(26),
];

/// The runner's guest is held at this step while the backup goes live. Then the runner is told that it isn't live.
pub(super) fn outlive<P: Pair + Send + Sync, R: Threads + Wait + Abort + Sync>(
    rt: &R,
    alloc: Global,
    hand: &mut Hand<P>,
    step: u64,
) {
    let mut old = hold(rt, alloc, hand, (step, 1), Deed::TakeOver);
    is_stopped(rt, &mut *old);
    play(rt, hand, &AFTERWARDS);
}

#[test]
fn a_runner_held_at_step_0_is_stopped(rt: HostRuntime) {
    plays(&rt, rt.alloc(), Guest::Beacon, 1, Course::Outlived(0));
}

#[test]
fn a_runner_held_at_step_10_is_stopped(rt: HostRuntime) {
    plays(&rt, rt.alloc(), Guest::Beacon, 1, Course::Outlived(10));
}

#[test]
fn a_runner_held_at_step_21_is_stopped(rt: HostRuntime) {
    plays(&rt, rt.alloc(), Guest::Beacon, 1, Course::Outlived(21));
}
