//! What no clause of [`failover`] says: printed words, a pair's life in order, and the table once more by its numbers.

use crate::asserts::holds;
use crate::refusals::{assert_named, assert_text};
use failover::{Change, FailoverError, Mode};
use std::process::Abort;

/// The numbers of the refusals of the four changes in a mode: of the primary's stop, the backup's stop, going live and protecting, 0
/// where it isn't refused.
fn told(mode: Mode) -> [u8; 4] {
    [
        refusal_number(mode, Change::FailPrimary),
        refusal_number(mode, Change::FailBackup),
        refusal_number(mode, Change::GoLive),
        refusal_number(mode, Change::Protect),
    ]
}

fn refusal_number(mode: Mode, change: Change) -> u8 {
    match mode.after(change) {
        Ok(_) => 0,
        Err(error) => error.number(),
    }
}

/// The mode and the generation's number after a change, where it isn't refused.
fn made((mode, number): (Mode, u64), change: Change) -> Option<(Mode, u64)> {
    match mode.after(change) {
        Ok((next, raise)) => Some((next, number.wrapping_add(raise))),
        Err(_) => None,
    }
}

/// A change leads from one mode and generation to another.
fn assert_made(rt: &impl Abort, from: (Mode, u64), change: Change, to: (Mode, u64)) {
    holds(rt, "the change", made(from, change) == Some(to));
}

#[test]
fn a_pair_fails_over_and_is_protected_again(rt: HostRuntime) {
    let pair = (Mode::Paired, 1);
    let stopped = (Mode::Stopped, 1);
    let alone = (Mode::Alone, 2);
    let filling = (Mode::Filling, 3);
    assert_made(&rt, pair, Change::FailPrimary, stopped);
    assert_made(&rt, stopped, Change::GoLive, alone);
    assert_made(&rt, alone, Change::Protect, filling);
    assert_made(&rt, filling, Change::FailBackup, (Mode::Alone, 3));
    assert_made(&rt, pair, Change::FailBackup, (Mode::Alone, 1));
}

/// The changes are refused in this mode by these numbers.
fn assert_told(rt: &impl Abort, mode: Mode, numbers: [u8; 4]) {
    holds(rt, "the refusals", told(mode) == numbers);
}

#[test]
fn what_each_mode_refuses(rt: HostRuntime) {
    assert_told(&rt, Mode::Paired, [0, 0, 7, 7]);
    assert_told(&rt, Mode::Filling, [8, 0, 7, 7]);
    assert_told(&rt, Mode::Alone, [8, 6, 6, 0]);
    assert_told(&rt, Mode::Stopped, [4, 4, 0, 4]);
}

#[test]
fn the_words_are_those_of_the_programs(rt: HostRuntime) {
    static WORDS: [(Mode, &str); 4] = [
        (Mode::Paired, "paired"),
        (Mode::Filling, "paired"),
        (Mode::Alone, "alone"),
        (Mode::Stopped, "stopped"),
    ];
    for (mode, word) in &WORDS {
        assert_text(&rt, rt.alloc(), mode, word);
    }
}

#[test]
fn the_refusals_are_those_of_the_table(rt: HostRuntime) {
    static ERRORS: [(FailoverError, u8, &str); 4] = [
        (FailoverError::Stopped, 4, "Stopped"),
        (FailoverError::NotPaired, 6, "NotPaired"),
        (FailoverError::AlreadyPaired, 7, "AlreadyPaired"),
        (FailoverError::NoImage, 8, "NoImage"),
    ];
    for (error, number, name) in &ERRORS {
        let found = (error.number(), error.name());
        assert_named(&rt, rt.alloc(), error, found, (*number, *name));
    }
}
