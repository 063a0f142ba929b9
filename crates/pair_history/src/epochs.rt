//! An epoch of the guest as it is stored: its arrivals, each with the steps before it, and the steps after the last.
ghost use Rattle.std.specs.Prelude.{◌≡◌, ◌+◌, ◌*◌, ◌^◌, ◌≤◌, ◌<◌, ◌++◌, [], length, map, take, drop, IfOk, OnOk, OnErr};
ghost use Rattle.std.specs.Prelude.{vec_len, vec_capacity};
ghost use Rattle.pair_history.specs.internal.Arrivals.{arrival_of, epoch_entries};
ghost use Rattle.pair_history.specs.Journal.{joined};
ghost use Rattle.pair_history.specs.internal.JournalFields.{epoch_of};
ghost use Rattle.pair_history.specs.internal.Places.{places_of};

use crate::history::{Entry, History};
use memory_wanted::{MemoryWanted, from_slice};
use std::alloc::Global;

/// A frame that arrived in an epoch.
#[derive(Clone, Copy)]
pub struct Arrival {
    /// The guest's steps in the epoch since the arrival before it.
    pub steps: u64,
    /// The frame's number.
    pub number: u64,
}

/// Drops the first `count` of these; the room stays.
fn drop_first(arrivals: &mut Vec<Arrival>, count: usize)
    requires { count ≤ vec_len arrivals.old }
    ensures items { arrivals.new.items ≡ drop count arrivals.old.items }
    ensures room { vec_capacity arrivals.new ≡ vec_capacity arrivals.old }
{
    let rest = arrivals.len() - count;
    if rest > 0 {
        arrivals.rotate_left(count);
    }
    arrivals.truncate(rest);
}

/// An epoch: what happened to the guest between two cuts.
#[derive(Drop)]
pub struct RunningEpoch {
    /// The frames that arrived, in order.
    pub arrivals: Vec<Arrival>,
    /// The steps after the last of them.
    pub steps: u64,
}

impl RunningEpoch {
    /// An epoch in which nothing happened yet.
    pub(crate) fn new(alloc: Global) -> RunningEpoch
        ensures none { result.arrivals.items ≡ [] }
        ensures still { result.steps ≡ 0 }
    {
        RunningEpoch {
            arrivals: Vec::new(alloc),
            steps: 0,
        }
    }

    /// Splits off so many arrivals, the first first, with so many steps after them. The others stay, and the steps behind the last; the
    /// room for more is no less.
    pub(crate) fn split(
        &mut self,
        alloc: Global,
        arrivals: usize,
        steps: u64,
    ) -> Result<RunningEpoch, MemoryWanted>
        requires { arrivals ≤ length self.old.arrivals.items }
        ensures first { IfOk result (λ e. e.arrivals.items ≡ take arrivals self.old.arrivals.items) }
        ensures steps { IfOk result (λ e. e.steps ≡ steps) }
        ensures others { OnOk result (self.new.arrivals.items ≡ drop arrivals self.old.arrivals.items) }
        ensures behind { self.new.steps ≡ self.old.steps }
        ensures room { OnOk result (vec_capacity self.new.arrivals ≡ vec_capacity self.old.arrivals) }
        ensures err { OnErr result (self.new.arrivals.items ≡ self.old.arrivals.items) }
    {
        let first = from_slice(alloc, &self.arrivals.as_slice()[..arrivals])?;
        drop_first(&mut self.arrivals, arrivals);
        Ok(RunningEpoch {
            arrivals: first,
            steps,
        })
    }
}

/// Adds an arrival to the history, with the steps before it, in two places that were reserved.
fn add_arrival(history: &mut History, arrival: Arrival)
    requires room { 2 ≤ history.old.room }
    requires fits { length (history.old.entries ++ arrival_of arrival) < 2 ^ 62 }
    ensures entries { history.new.entries ≡ history.old.entries ++ arrival_of arrival }
    ensures room { history.old.room ≤ history.new.room + 2 }
{
    history.run(arrival.steps);
    history.add(Entry::Arrive(arrival.number));
}

/// Adds an epoch's entries to the history, in the room that was reserved: two places for each arrival, and one.
pub(crate) fn add_epoch(history: &mut History, arrivals: &[Arrival], steps: u64)
    requires room { 2 * length arrivals.now + 1 ≤ history.old.room }
    requires fits { length (history.old.entries ++ epoch_entries arrivals.now steps) < 2 ^ 62 }
    ensures entries { history.new.entries ≡ history.old.entries ++ epoch_entries arrivals.now steps }
    ensures room { history.old.room ≤ history.new.room + (2 * length arrivals.now + 1) }
{
    for arrival in arrivals {
        add_arrival(history, *arrival);
    }
    history.run(steps);
}

/// Adds the entries of these epochs to the history, in the room that was reserved.
pub(crate) fn add_epochs(history: &mut History, epochs: &[RunningEpoch])
    requires room { places_of epochs.now ≤ history.old.room }
    requires fits { length (history.old.entries ++ joined (map epoch_of epochs.now)) < 2 ^ 62 }
    ensures entries { history.new.entries ≡ history.old.entries ++ joined (map epoch_of epochs.now) }
    ensures room { history.old.room ≤ history.new.room + places_of epochs.now }
{
    for epoch in epochs {
        add_epoch(history, epoch.arrivals.as_slice(), epoch.steps);
    }
}

/// The places that these epochs take in the history, and so many more, or a number that no list has room for.
pub(crate) fn places_with(epochs: &[RunningEpoch], more: usize) -> usize
    ensures { result < 2 ^ 63 → result ≡ places_of epochs.now + more }
{
    let mut places = more;
    for epoch in epochs {
        places = places.saturating_add(2 * epoch.arrivals.len() + 1);
    }
    places
}
