//! Calls in a row, worked out by hand, from one thread. A cut is to ask, to prepare and to submit. The answers are those that the events of
//! a script have, which `remus sim` plays.

use super::courses::{Course, plays};
use super::hands::Row::{
    Acked, Commit, Delivers, Entries, Epoch, Fails, GoesLive, Hands, LosesIn, LosesOut, Next,
    Protects, Runs, Takes, TakesNone,
};
use super::hands::{FRAME, Row, TO_GUEST};
use super::pairs::Guest;
use hypervisor::Node;
use std::test::*;

#[test]
fn the_beacons_frame_reaches_client_1(rt: HostRuntime) {
    static ROWS: [Row; 9] = [
        Epoch(0, 22),
        TakesNone,
        Next(1, 1),
        Commit(0, 0, Ok((1, 1))),
        TakesNone,
        Acked(1, 1, Ok(1)),
        Takes,
        TakesNone,
        // 22 steps, the frame that lands, and four takes.
        Entries(27),
    ];
    plays(&rt, rt.alloc(), Guest::Beacon, 1, Course::Rows(&ROWS));
}

#[test]
fn a_committed_frame_is_handed_over(rt: HostRuntime) {
    static ROWS: [Row; 7] = [
        Epoch(0, 22),
        Next(1, 1),
        Commit(0, 0, Ok((1, 1))),
        Fails(Node::Primary, 0),
        GoesLive(0),
        Takes,
        Entries(24),
    ];
    plays(&rt, rt.alloc(), Guest::Beacon, 1, Course::Rows(&ROWS));
}

#[test]
fn a_new_backup_runs_the_steps_again(rt: HostRuntime) {
    static ROWS: [Row; 14] = [
        Fails(Node::Backup, 0),
        Protects,
        // The full checkpoint, before the first step.
        Epoch(0, 0),
        Runs(0, 22),
        Next(2, 0),
        Commit(1, 0, Ok((2, 0))),
        Acked(2, 0, Ok(0)),
        TakesNone,
        Fails(Node::Primary, 0),
        GoesLive(1),
        TakesNone,
        Epoch(1, 22),
        Takes,
        Entries(26),
    ];
    plays(&rt, rt.alloc(), Guest::Beacon, 1, Course::Rows(&ROWS));
}

#[test]
fn the_line_loses_frames(rt: HostRuntime) {
    static ROWS: [Row; 12] = [
        Epoch(0, 22),
        TakesNone,
        Next(1, 1),
        Commit(0, 0, Ok((1, 1))),
        TakesNone,
        Acked(1, 1, Ok(1)),
        LosesOut(0),
        TakesNone,
        Entries(27),
        Delivers(FRAME, 1),
        LosesIn(0),
        Entries(29),
    ];
    plays(&rt, rt.alloc(), Guest::Beacon, 1, Course::Rows(&ROWS));
}

#[test]
fn a_frame_comes_back(rt: HostRuntime) {
    static ROWS: [Row; 12] = [
        Delivers(TO_GUEST, 1),
        // The guest sets its card up, and waits.
        Hands(0, 100, 1),
        Next(1, 1),
        Commit(0, 0, Ok((1, 1))),
        Acked(1, 1, Ok(0)),
        Epoch(0, 200),
        TakesNone,
        Next(1, 2),
        Commit(0, 1, Ok((1, 2))),
        Acked(1, 2, Ok(1)),
        Takes,
        // 300 steps, the delivery, the arrival, the frame that lands, and two takes.
        Entries(305),
    ];
    plays(&rt, rt.alloc(), Guest::Echo, 1, Course::Rows(&ROWS));
}
