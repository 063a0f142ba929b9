//! What no clause of [`pair_history`] says: that calls succeed where there is memory, and that a reservation that can't be met is refused.

use crate::asserts::{as_many, holds, made, same};
use pair_history::{Entries, Entry, History};
use std::alloc::Global;
use std::process::Abort;

/// A history of 21 steps, an arrival, no step, and a frame that a full box dropped.
fn steps_and_more(rt: &impl Abort, alloc: Global) -> History {
    let mut history = History::new(alloc);
    made(rt, history.reserve(4));
    history.add(Entry::Ran(21));
    history.add(Entry::Arrive(1));
    history.add(Entry::Ran(0));
    history.add(Entry::DropOut {
        client: 1,
        place: 256,
    });
    history
}

/// The history has so many entries, of which so many are stored.
fn assert_counts(rt: &impl Abort, history: &History, entries: u64, stored: usize) {
    same(rt, "entries", history.len(), entries);
    as_many(rt, "stored", history.entries().count(), stored);
}

#[test]
fn a_history_counts_each_step(rt: HostRuntime) {
    holds(&rt, "empty", History::new(rt.alloc()).is_empty());
    let history = steps_and_more(&rt, rt.alloc());
    assert_counts(&rt, &history, 23, 4);
    holds(&rt, "not empty", !history.is_empty());
}

const SHORT: &[u8] = b"fourteen bytes";

const OTHER: &[u8] = b"and one byte mo";

/// The longest frame.
const LONG: &[u8] = &[7; 1514];

/// A history with three frames of three lengths.
fn frames(rt: &impl Abort, alloc: Global) -> History {
    let mut history = History::new(alloc);
    made(rt, history.reserve_frame(14));
    history.add(Entry::Delivered(1, SHORT, 1));
    made(rt, history.reserve_frame(1514));
    history.add(Entry::Refused(2, LONG));
    made(rt, history.reserve(1));
    history.add(Entry::Took(3, None));
    made(rt, history.reserve_frame(15));
    history.add(Entry::Took(4, Some(OTHER)));
    history
}

/// The next entry is a delivery by client 1 of this frame, which got number 1.
fn assert_delivered(rt: &impl Abort, entries: &mut Entries<'_>, frame: &[u8]) {
    let is_right = match entries.next() {
        Some(Entry::Delivered(1, bytes, 1)) => bytes == frame,
        _ => false,
    };
    holds(rt, "the next entry", is_right);
}

/// The next entry is a delivery by client 2 of this frame, which was refused.
fn assert_refused(rt: &impl Abort, entries: &mut Entries<'_>, frame: &[u8]) {
    let is_right = match entries.next() {
        Some(Entry::Refused(2, bytes)) => bytes == frame,
        _ => false,
    };
    holds(rt, "the next entry", is_right);
}

/// The next entry is that client 3 took nothing.
fn assert_took_nothing(rt: &impl Abort, entries: &mut Entries<'_>) {
    let next = entries.next();
    let is_right = matches!(next, Some(Entry::Took(3, None)));
    holds(rt, "the next entry", is_right);
}

/// The next entry is that client 4 took this frame.
fn assert_took(rt: &impl Abort, entries: &mut Entries<'_>, frame: &[u8]) {
    let is_right = match entries.next() {
        Some(Entry::Took(4, Some(bytes))) => bytes == frame,
        _ => false,
    };
    holds(rt, "the next entry", is_right);
}

#[test]
fn frames_come_back_as_they_were_added(rt: HostRuntime) {
    let history = frames(&rt, rt.alloc());
    let mut entries = history.entries();
    assert_delivered(&rt, &mut entries, SHORT);
    assert_refused(&rt, &mut entries, LONG);
    assert_took_nothing(&rt, &mut entries);
    assert_took(&rt, &mut entries, OTHER);
    holds(&rt, "the end", entries.next().is_none());
}

#[test]
fn no_memory_for_that_many(rt: HostRuntime) {
    let mut history = History::new(rt.alloc());
    holds(&rt, "refused", history.reserve(usize::MAX).is_err());
    holds(&rt, "empty", history.is_empty());
}
