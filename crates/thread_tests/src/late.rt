//! What comes late, twice or in another order, and a backup that has failed: nothing of it changes anything.

use super::courses::{Course, plays};
use super::hands::Row;
use super::hands::Row::{
    Acked, Commit, Entries, Epoch, Fails, GoesLive, Next, Protects, StaysBackup, Takes, TakesNone,
};
use super::pairs::Guest;
use hypervisor::{Node, Refusal};
use std::test::*;

#[test]
fn a_failed_backup_commits_nothing(rt: HostRuntime) {
    static ROWS: [Row; 18] = [
        Epoch(0, 22),
        Next(1, 1),
        // The primary goes on alone, and its frame lands.
        Fails(Node::Backup, 1),
        Entries(23),
        Commit(0, 0, Err(Refusal::Stopped)),
        Protects,
        Epoch(0, 0),
        Next(2, 0),
        Commit(1, 1, Ok((2, 0))),
        Acked(2, 0, Ok(0)),
        Fails(Node::Primary, 0),
        StaysBackup(0, Refusal::Stopped),
        Commit(2, 0, Err(Refusal::Stopped)),
        Entries(23),
        GoesLive(1),
        Takes,
        TakesNone,
        Entries(25),
    ];
    plays(&rt, rt.alloc(), Guest::Beacon, 1, Course::Rows(&ROWS));
}

#[test]
fn an_old_acknowledgement_lands_nothing(rt: HostRuntime) {
    static ROWS: [Row; 19] = [
        Epoch(0, 5),
        Epoch(0, 5),
        Epoch(0, 5),
        Fails(Node::Backup, 0),
        Protects,
        Epoch(0, 0),
        Next(2, 0),
        Commit(1, 0, Ok((2, 0))),
        // The epoch in which the beacon sends its frame.
        Epoch(0, 7),
        Acked(1, 3, Err(Refusal::Stale)),
        Acked(2, 1, Err(Refusal::Gap)),
        Acked(2, 9, Err(Refusal::Gap)),
        TakesNone,
        Entries(16),
        Next(2, 1),
        Commit(1, 1, Ok((2, 1))),
        Acked(2, 1, Ok(1)),
        Takes,
        Entries(25),
    ];
    plays(&rt, rt.alloc(), Guest::Beacon, 1, Course::Rows(&ROWS));
}

#[test]
fn each_number_is_committed_once(rt: HostRuntime) {
    static ROWS: [Row; 23] = [
        Epoch(0, 22),
        Epoch(0, 22),
        Epoch(0, 22),
        Next(1, 1),
        Next(1, 2),
        Next(1, 3),
        Commit(0, 2, Err(Refusal::Gap)),
        Commit(0, 1, Err(Refusal::Gap)),
        Entries(0),
        Commit(0, 0, Ok((1, 1))),
        Commit(0, 2, Err(Refusal::Gap)),
        Commit(0, 1, Ok((1, 2))),
        Commit(0, 0, Ok((1, 2))),
        Commit(0, 2, Ok((1, 3))),
        Commit(0, 2, Ok((1, 3))),
        Commit(0, 1, Ok((1, 3))),
        Commit(0, 0, Ok((1, 3))),
        Entries(66),
        Acked(1, 3, Ok(1)),
        Acked(1, 3, Ok(0)),
        Takes,
        TakesNone,
        Entries(69),
    ];
    plays(&rt, rt.alloc(), Guest::Beacon, 1, Course::Rows(&ROWS));
}
