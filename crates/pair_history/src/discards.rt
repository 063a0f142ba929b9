//! What is discarded where the backup goes live: each frame that kept epochs took in is dropped before it arrives.
ghost use Rattle.std.specs.Prelude.{◌≡◌, ◌+◌, ◌^◌, ◌≤◌, ◌<◌, ◌++◌, length, map, IfOk, OnOk};
ghost use Rattle.std.specs.List.Sorted.{IsNonDecreasing, IsPermutation};
ghost use Rattle.pair_history.specs.Entries.{DropIn};
ghost use Rattle.pair_history.specs.internal.Arrivals.{numbers_of, numbers_in};

use crate::epochs::{Arrival, RunningEpoch};
use crate::history::{Entry, History};
use memory_wanted::{MemoryWanted, push, with_capacity};
use std::alloc::Global;

/// How many frames arrived in these epochs.
pub(crate) fn count_arrivals(epochs: &[RunningEpoch]) -> u64
    requires { length (numbers_in epochs.now) < 2 ^ 62 }
    ensures { result ≡ length (numbers_in epochs.now) }
{
    let mut count = 0;
    for epoch in epochs {
        count += epoch.arrivals.len() as u64;
    }
    count
}

/// Adds the numbers of these arrivals to a list.
fn push_numbers(numbers: &mut Vec<u64>, arrivals: &[Arrival]) -> Result<(), MemoryWanted>
    ensures { OnOk result (numbers.new.items ≡ numbers.old.items ++ numbers_of arrivals.now) }
{
    for arrival in arrivals {
        push(numbers, arrival.number)?;
    }
    Ok(())
}

/// Adds the numbers of the frames that arrived in these epochs to a list.
fn push_all_numbers(numbers: &mut Vec<u64>, epochs: &[RunningEpoch]) -> Result<(), MemoryWanted>
    ensures { OnOk result (numbers.new.items ≡ numbers.old.items ++ numbers_in epochs.now) }
{
    for epoch in epochs {
        push_numbers(numbers, epoch.arrivals.as_slice())?;
    }
    Ok(())
}

/// The numbers of the frames that arrived in sealed epochs and in the one that runs, sorted: so many in all.
pub(crate) fn sorted_numbers(
    alloc: Global,
    count: usize,
    sealed: &[RunningEpoch],
    running: &RunningEpoch,
) -> Result<Vec<u64>, MemoryWanted>
    ensures same { IfOk result (λ ns. IsPermutation (numbers_in sealed.now ++ numbers_of running.now.arrivals.items) ns.items) }
    ensures sorted { IfOk result (λ ns. IsNonDecreasing ns.items) }
{
    let mut numbers = with_capacity(alloc, count)?;
    push_all_numbers(&mut numbers, sealed)?;
    push_numbers(&mut numbers, running.arrivals.as_slice())?;
    numbers.sort_unstable();
    Ok(numbers)
}

/// Adds to the history that the frames of these numbers are dropped before they arrive.
pub(crate) fn add_drops_in(history: &mut History, numbers: &[u64])
    requires room { length numbers.now ≤ history.old.room }
    requires fits { length history.old.entries + length numbers.now < 2 ^ 62 }
    ensures entries { history.new.entries ≡ history.old.entries ++ map DropIn numbers.now }
    ensures room { history.old.room ≤ history.new.room + length numbers.now }
{
    for number in numbers {
        history.add(Entry::DropIn(*number));
    }
}
