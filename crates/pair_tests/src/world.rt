//! What no clause says: that each call of a pair succeeds where there is memory, by whole runs. A run is a table of rows ([`rows`]).
//! tests/gate/worked plays what is answered to the events in their modes.
mod rows;

use crate::refusals::{assert_named, refused};
use pair_core::{Event, Mode, Refusal};
use rows::{Guest, Row, Said, plays};
use std::alloc::Global;
use std::process::Abort;

#[test]
fn the_beacons_frame_reaches_client_1_after_its_acknowledgement(rt: HostRuntime) {
    static ROWS: [Row; 3] = [
        Row::Counted(0, 22),
        Row::Told(
            &[
                Event::Cut,
                Event::Take(1),
                Event::Send,
                Event::BackupGet(0),
                Event::Take(1),
                Event::AckGet(0),
                Event::Take(1),
                Event::Take(1),
            ],
            &[
                Said::Cut(1, 1),
                Said::TookNone,
                Said::Sent(1),
                Said::Committed(1, 1),
                Said::TookNone,
                Said::Acked(1, 1, 1),
                Said::TookFrame,
                Said::TookNone,
            ],
        ),
        Row::Shows(Mode::Paired, 1, 0, 22, 27),
    ];
    plays(&rt, rt.alloc(), Guest::Beacon, &ROWS);
}

#[test]
fn many_steps_are_made_in_one_call(rt: HostRuntime) {
    static ROWS: [Row; 5] = [
        Row::Steps(22, 22),
        Row::Steps(1000, 1022),
        Row::Steps(0, 1022),
        Row::Single(1022, 1023),
        Row::Shows(Mode::Paired, 1, 0, 1023, 0),
    ];
    plays(&rt, rt.alloc(), Guest::Beacon, &ROWS);
}

#[test]
fn a_list_of_10001_events_is_answered_to_its_end(rt: HostRuntime) {
    static ROWS: [Row; 2] = [Row::List(10_000), Row::Shows(Mode::Paired, 1, 1, 10_000, 0)];
    plays(&rt, rt.alloc(), Guest::Idle, &ROWS);
}

#[test]
fn a_sector_is_the_live_guests(rt: HostRuntime) {
    static ROWS: [Row; 6] = [
        Row::Steps(22, 22),
        Row::Filled(7, 0),
        Row::Single(22, 23),
        Row::Filled(7, 0xab),
        Row::Filled(6, 0),
        Row::Sectors(8),
    ];
    plays(&rt, rt.alloc(), Guest::Writer, &ROWS);
}

#[test]
fn what_a_node_alone_sends_lands_at_once(rt: HostRuntime) {
    static ROWS: [Row; 5] = [
        Row::Told(&[Event::FailBackup], &[Said::Alone(1, 0)]),
        Row::Steps(21, 21),
        Row::Told(
            &[Event::Take(1), Event::Step],
            &[Said::TookNone, Said::Steps(22)],
        ),
        Row::Told(&[Event::Take(1)], &[Said::TookFrame]),
        Row::Shows(Mode::Alone, 1, 0, 22, 25),
    ];
    plays(&rt, rt.alloc(), Guest::Beacon, &ROWS);
}

#[test]
fn many_steps_alone_are_few_stored_entries(rt: HostRuntime) {
    static ROWS: [Row; 6] = [
        Row::Steps(100, 100),
        Row::Told(&[Event::FailBackup], &[Said::Alone(1, 0)]),
        Row::Single(100, 200),
        Row::Steps(100_000, 100_200),
        Row::Shows(Mode::Alone, 1, 0, 100_200, 100_200),
        Row::Stored(100_200, 1),
    ];
    plays(&rt, rt.alloc(), Guest::Idle, &ROWS);
}

#[test]
fn many_steps_of_a_node_alone_are_made_in_one_call(rt: HostRuntime) {
    static ROWS: [Row; 6] = [
        Row::Told(&[Event::FailBackup], &[Said::Alone(1, 0)]),
        Row::Steps(22, 22),
        Row::Steps(12_000, 12_022),
        Row::Steps(0, 12_022),
        Row::Shows(Mode::Alone, 1, 0, 12_022, 12_023),
        Row::Told(&[Event::Take(1)], &[Said::TookFrame]),
    ];
    plays(&rt, rt.alloc(), Guest::Beacon, &ROWS);
}

/// The refusal has this number and this name.
fn assert_refusal(rt: &impl Abort, alloc: Global, refusal: &Refusal, number: u8, name: &str) {
    let found = (refusal.number(), refusal.name());
    assert_named(rt, alloc, refusal, found, (number, name));
}

#[test]
fn refusals_print_their_names(rt: HostRuntime) {
    static REFUSALS: [(Refusal, u8, &str); 13] = [
        (Refusal::Full, 1, "Full"),
        (Refusal::BadFrame, 2, "BadFrame"),
        (Refusal::NoClient, 3, "NoClient"),
        (Refusal::Stopped, 4, "Stopped"),
        (Refusal::Behind, 5, "Behind"),
        (Refusal::NotPaired, 6, "NotPaired"),
        (Refusal::AlreadyPaired, 7, "AlreadyPaired"),
        (Refusal::NoImage, 8, "NoImage"),
        (Refusal::Stale, 9, "Stale"),
        (Refusal::Gap, 10, "Gap"),
        (Refusal::CutNeeded, 13, "CutNeeded"),
        (Refusal::Exhausted, 14, "Exhausted"),
        (Refusal::OldVersion, 15, "OldVersion"),
    ];
    for (refusal, number, name) in &REFUSALS {
        assert_refusal(&rt, rt.alloc(), refusal, *number, name);
    }
    let refusal = Refusal::from(refused(&rt, rt.alloc()));
    assert_refusal(&rt, rt.alloc(), &refusal, 12, "NoMemory");
}
