//! The journal: the history, the sealed epochs that no commit has covered yet, and the one that runs.
ghost use Rattle.std.specs.Prelude.{◌≡◌, ◌+◌, ◌-◌, ◌*◌, ◌^◌, ◌≤◌, ◌<◌, ◌++◌, ◌∷◌, [], All, length, map, take};
ghost use Rattle.std.specs.Prelude.{replicate, OnOk, OnErr, IfOk, ◌⊎◌};
ghost use Rattle.frame_ports.specs.Addresses.{IsFrame, targets_of};
ghost use Rattle.frame_ports.specs.Limits.{number_limit};
ghost use Rattle.pair_history.specs.Entries.{Ran, Arrive};
ghost use Rattle.output_gate.specs.Landings.{ports_after, landed_count, AreBelow};
ghost use Rattle.output_gate.specs.Limits.{max_held};
ghost use Rattle.pair_history.specs.Failures.{arrived_numbers, drops_of_taken_in};
ghost use Rattle.pair_history.specs.Landings.{landings};
ghost use Rattle.pair_history.specs.Log.{expanded, frame_bytes};
ghost use Rattle.pair_history.specs.Journal.{all_entries, kept_entries, empty_journal, with_history, with_running, sealed_off, committed};
ghost use Rattle.pair_history.specs.Journal.{all_committed, discarded, sealed_as, entered};
ghost use Rattle.pair_history.specs.Epochs.{guest_epoch, behind};
ghost use Rattle.pair_history.specs.LandedEntries.{all_frames, entries_after};

use crate::discards::{add_drops_in, count_arrivals, sorted_numbers};
use crate::epochs::{Arrival, RunningEpoch, add_epoch, add_epochs, places_with};
use crate::history::{Entry, History};
use crate::landings::land_lists;
use frame_list::FrameList;
use frame_ports::{BOX_FRAMES, Frame, Landing, NUMBER_LIMIT, Ports};
use memory_wanted::{MemoryWanted, reserve, with_capacity};
use output_gate::{Landed, Listener, land_telling};
use std::alloc::Global;
use std::marker::Model;

/// The history and what it doesn't have yet. Contracts see it as a `Stored` journal of the specs.
#[derive(Drop)]
pub struct Journal {
    alloc: Global,
    history: History,
    sealed: Vec<RunningEpoch>,
    running: RunningEpoch,
    kept: u64,
}

impl Model for Journal {
    ghost use Rattle.pair_history.specs.Journal.{Stored};

    ghost Value = { Stored };

    ghost use Rattle.pair_history.specs.internal.JournalFields.{stored, AreFields};

    ghost view = { stored };

    ghost invariant = { AreFields };
}

/// Writes what becomes of each frame into the history.
impl Listener for Journal {
    ghost use Rattle.pair_history.specs.LandedEntries.{Heard, heard, written, entries_left};

    ghost Known = { Heard };

    ghost known = { heard };

    ghost told = { written };

    ghost room = { entries_left };

    fn hear(&mut self, client: u64, landing: Landing) {
        match landing {
            Landing::In => self.history.add(Entry::Land(client)),
            Landing::Dropped => self.history.add(Entry::DropOut {
                client,
                place: BOX_FRAMES as u64,
            }),
            Landing::Old => {}
        }
    }
}

impl Journal {
    /// A journal in which nothing happened yet.
    pub fn new(alloc: Global) -> Journal
        ensures { result.journal ≡ empty_journal }
    {
        Journal {
            alloc,
            history: History::new(alloc),
            sealed: Vec::new(alloc),
            running: RunningEpoch::new(alloc),
            kept: 0,
        }
    }

    /// The history.
    pub fn history(&self) -> &History
        ensures { result.now.entries ≡ self.now.journal.history }
    {
        &self.history
    }

    /// How many more entries have numbers.
    pub fn entries_left(&self) -> u64
        ensures { length (all_entries self.now.journal) + (result + 1) ≡ number_limit }
    {
        NUMBER_LIMIT - 1 - (self.history.len() + self.kept)
    }

    /// The guest made so many steps.
    pub fn run(&mut self, steps: u64)
        requires fits { length (all_entries self.old.journal) + steps < number_limit }
        ensures { self.new.journal ≡ with_running self.old.journal (replicate steps Ran) }
    {
        self.running.steps += steps;
        self.kept += steps;
    }

    /// Makes room for one more arrival, in the running epoch and in the history.
    pub fn reserve_arrival(&mut self) -> Result<(), MemoryWanted>
        ensures journal { self.new.journal ≡ self.old.journal }
        ensures arrival_room { OnOk result (0 < self.new.arrival_room) }
        ensures room { OnOk result (0 < self.new.room) }
    {
        reserve(&mut self.running.arrivals, 1)?;
        self.history.reserve(1)
    }

    /// Makes room for so many more arrivals in the running epoch.
    pub fn reserve_arrivals(&mut self, count: usize) -> Result<(), MemoryWanted>
        ensures journal { self.new.journal ≡ self.old.journal }
        ensures arrival_room { OnOk result (count ≤ self.new.arrival_room) }
    {
        reserve(&mut self.running.arrivals, count)
    }

    /// The frame of this number arrived at the guest.
    pub fn arrive(&mut self, number: u64)
        requires room { 0 < self.old.arrival_room }
        requires fits { length (all_entries self.old.journal) + 1 < number_limit }
        ensures journal { self.new.journal ≡ with_running self.old.journal (Arrive number ∷ []) }
        ensures arrival_room { self.old.arrival_room ≤ self.new.arrival_room + 1 }
    {
        let steps = self.running.steps;
        self.running
            .arrivals
            .push(Arrival { steps, number })
            .unwrap();
        self.running.steps = 0;
        self.kept += 1;
    }

    /// The running epoch is sealed, and the next one begins.
    pub fn seal(&mut self) -> Result<(), MemoryWanted>
        ensures ok { OnOk result (self.new.journal ≡ sealed_off self.old.journal) }
        ensures err { OnErr result (self.new.journal ≡ self.old.journal) }
    {
        reserve(&mut self.sealed, 1)?;
        let epoch = std::mem::replace(&mut self.running, RunningEpoch::new(self.alloc));
        self.sealed.push(epoch).unwrap();
        Ok(())
    }

    /// An empty epoch is sealed, and the one that runs goes on.
    pub fn seal_empty(&mut self) -> Result<(), MemoryWanted>
        ensures ok { OnOk result (self.new.journal ≡ sealed_as [] self.old.journal.running self.old.journal) }
        ensures err { OnErr result (self.new.journal ≡ self.old.journal) }
    {
        reserve(&mut self.sealed, 1)?;
        self.sealed.push(RunningEpoch::new(self.alloc)).unwrap();
        Ok(())
    }

    /// So many arrivals of those that run, the first first, and so many steps after them are sealed, and what is behind runs on.
    pub fn seal_epoch(&mut self, arrivals: usize, steps: u64) -> Result<(), MemoryWanted>
        requires there { arrivals ≤ length (arrived_numbers self.old.journal.running) }
        requires fits { length (all_entries self.old.journal) + steps < number_limit }
        ensures ok { OnOk result (self.new.journal
            ≡ sealed_as (guest_epoch arrivals steps self.old.journal.running) (behind arrivals self.old.journal.running)
            self.old.journal) }
        ensures arrival_room { OnOk result (self.old.arrival_room ≤ self.new.arrival_room) }
        ensures err { OnErr result (self.new.journal ≡ self.old.journal) }
    {
        reserve(&mut self.sealed, 1)?;
        let epoch = self.running.split(self.alloc, arrivals, steps)?;
        self.sealed.push(epoch).unwrap();
        self.kept += steps;
        Ok(())
    }

    /// Where nothing is sealed they go to the history, where so many more stored entries have room then, and what is behind runs on.
    pub fn enter_epoch(
        &mut self,
        arrivals: usize,
        steps: u64,
        more: usize,
    ) -> Result<(), MemoryWanted>
        requires none { self.old.journal.sealed ≡ [] }
        requires there { arrivals ≤ length (arrived_numbers self.old.journal.running) }
        requires fits { length (all_entries self.old.journal) + steps < number_limit }
        ensures ok { OnOk result (self.new.journal
            ≡ entered (guest_epoch arrivals steps self.old.journal.running) (behind arrivals self.old.journal.running)
            self.old.journal) }
        ensures room { OnOk result (more ≤ self.new.room) }
        ensures arrival_room { OnOk result (self.old.arrival_room ≤ self.new.arrival_room) }
        ensures err { OnErr result (self.new.journal ≡ self.old.journal) }
    {
        let first = &self.running.arrivals.as_slice()[..arrivals];
        let places = (2 * first.len() + 1).saturating_add(more);
        self.history.reserve(places)?;
        let epoch = self.running.split(self.alloc, arrivals, steps)?;
        let before = self.history.len();
        add_epoch(&mut self.history, epoch.arrivals.as_slice(), steps);
        let added = self.history.len() - before;
        self.kept = self.kept + steps - added;
        Ok(())
    }

    /// The same, and then an empty epoch is sealed.
    pub fn enter_epoch_and_seal_empty(
        &mut self,
        arrivals: usize,
        steps: u64,
        more: usize,
    ) -> Result<(), MemoryWanted>
        requires none { self.old.journal.sealed ≡ [] }
        requires there { arrivals ≤ length (arrived_numbers self.old.journal.running) }
        requires fits { length (all_entries self.old.journal) + steps < number_limit }
        ensures ok { OnOk result (self.new.journal
            ≡ sealed_as [] (behind arrivals self.old.journal.running)
            (entered (guest_epoch arrivals steps self.old.journal.running) (behind arrivals self.old.journal.running)
            self.old.journal)) }
        ensures room { OnOk result (more ≤ self.new.room) }
        ensures arrival_room { OnOk result (self.old.arrival_room ≤ self.new.arrival_room) }
        ensures err { OnErr result (self.new.journal ≡ self.old.journal) }
    {
        let mut sealed = with_capacity(self.alloc, 1)?;
        sealed.push(RunningEpoch::new(self.alloc)).unwrap();
        self.enter_epoch(arrivals, steps, more)?;
        self.sealed = sealed;
        Ok(())
    }

    /// What is sealed moves to the history, where so many more stored entries have room then, and the epoch that runs goes on.
    pub fn commit_sealed(&mut self, more: usize) -> Result<(), MemoryWanted>
        ensures ok { OnOk result (self.new.journal ≡ entered [] self.old.journal.running self.old.journal) }
        ensures room { OnOk result (more ≤ self.new.room) }
        ensures err { OnErr result (self.new.journal ≡ self.old.journal) }
    {
        let places = places_with(self.sealed.as_slice(), more);
        self.history.reserve(places)?;
        let before = self.history.len();
        add_epochs(&mut self.history, self.sealed.as_slice());
        self.sealed.clear();
        self.kept -= self.history.len() - before;
        Ok(())
    }

    /// The oldest sealed epoch moves to the history.
    pub fn commit(&mut self) -> Result<(), MemoryWanted>
        requires { 0 < length self.old.journal.sealed }
        ensures ok { OnOk result (self.new.journal ≡ committed self.old.journal) }
        ensures err { OnErr result (self.new.journal ≡ self.old.journal) }
    {
        let arrivals = self.sealed[0].arrivals.len();
        self.history.reserve(2 * arrivals + 1)?;
        let RunningEpoch { arrivals, steps } = self.sealed.remove(0);
        let before = self.history.len();
        add_epoch(&mut self.history, arrivals.as_slice(), steps);
        self.kept -= self.history.len() - before;
        Ok(())
    }

    /// All that is kept moves to the history, where so many more stored entries have room then.
    pub fn commit_all(&mut self, more: usize) -> Result<(), MemoryWanted>
        ensures ok { OnOk result (self.new.journal ≡ all_committed self.old.journal) }
        ensures room { OnOk result (more ≤ self.new.room) }
        ensures err { OnErr result (self.new.journal ≡ self.old.journal) }
    {
        let last = self.running.arrivals.as_slice();
        let places = places_with(self.sealed.as_slice(), 2 * last.len() + 1).saturating_add(more);
        self.history.reserve(places)?;
        add_epochs(&mut self.history, self.sealed.as_slice());
        add_epoch(&mut self.history, last, self.running.steps);
        self.sealed.clear();
        self.running = RunningEpoch::new(self.alloc);
        self.kept = 0;
        Ok(())
    }

    /// Makes room for so many more stored entries in the history.
    pub fn reserve(&mut self, additional: usize) -> Result<(), MemoryWanted>
        ensures journal { self.new.journal ≡ self.old.journal }
        ensures room { OnOk result (additional ≤ self.new.room) }
        ensures full { OnErr result (self.old.room < additional) }
    {
        self.history.reserve(additional)
    }

    /// Makes room for one more stored entry in the history, with a frame of so many bytes.
    pub fn reserve_frame(&mut self, bytes: usize) -> Result<(), MemoryWanted>
        ensures journal { self.new.journal ≡ self.old.journal }
        ensures room { OnOk result (0 < self.new.room) }
        ensures byte_room { OnOk result (bytes ≤ self.new.byte_room) }
        ensures full { OnErr result ((self.old.room < 1) ⊎ (self.old.byte_room < bytes)) }
    {
        self.history.reserve_frame(bytes)
    }

    /// Adds an entry of a client's to the history, in the room that was reserved.
    pub fn add(&mut self, entry: Entry)
        requires room { 0 < self.old.room }
        requires byte_room { length (frame_bytes entry) ≤ self.old.byte_room }
        requires fits { length (all_entries self.old.journal) + length (expanded entry) < number_limit }
        ensures { self.new.journal ≡ with_history self.old.journal (expanded entry.entry) }
    {
        self.history.add(entry);
    }

    /// Lands these frames, none of which came for a client before, in these ports, the first of them under that number, and adds what becomes
    /// of each, in the room that was reserved.
    pub fn land(&mut self, ports: &mut Ports, first: u64, frames: &[Frame]) -> Landed
        requires new { AreBelow ports.old first }
        requires frames { All IsFrame frames.now }
        requires few { length frames.now ≤ max_held }
        requires numbers { first + length frames.now ≤ number_limit }
        requires room { length (targets_of (length ports.old.boxes) frames.now) ≤ self.old.room }
        requires fits { length (all_entries self.old.journal) + length (targets_of (length ports.old.boxes) frames.now) < number_limit }
        ensures journal { self.new.journal
            ≡ with_history self.old.journal (landings ports.old.boxes (targets_of (length ports.old.boxes) frames.now)) }
        ensures arrival_room { self.new.arrival_room ≡ self.old.arrival_room }
        ensures ports { ports.new ≡ ports_after ports.old first frames.now }
        ensures landed { result.landed ≡ landed_count ports.old first frames.now }
    {
        land_telling(ports, first, frames, self)
    }

    /// The guest of a node that is alone made so many steps: that goes into the history, in the room that was reserved.
    pub fn run_alone(&mut self, steps: u64)
        requires room { 0 < self.old.room }
        requires fits { length (all_entries self.old.journal) + steps < number_limit }
        ensures journal { self.new.journal ≡ with_history self.old.journal (replicate steps Ran) }
        ensures room { self.old.room ≤ self.new.room + 1 }
    {
        self.history.run(steps);
    }

    /// How many frames arrived in the epoch that runs.
    pub fn arrived(&self) -> usize
        ensures { result ≡ length (arrived_numbers self.now.journal.running) }
    {
        self.running.arrivals.len()
    }

    /// How many frames the kept epochs took in.
    pub fn taken_in(&self) -> u64
        ensures count { result ≡ length (arrived_numbers (kept_entries self.now.journal)) }
        ensures fits { length self.now.journal.history + result < number_limit }
    {
        count_arrivals(self.sealed.as_slice()) + self.running.arrivals.len() as u64
    }

    /// What is kept is discarded: the frames that it took in are dropped, and the history has room for so many more stored entries then.
    pub fn go_live(&mut self, more: usize) -> Result<(), MemoryWanted>
        requires fits { length self.old.journal.history + length (arrived_numbers (kept_entries self.old.journal)) + more < number_limit }
        ensures ok { OnOk result (self.new.journal
            ≡ with_history (discarded self.old.journal) (drops_of_taken_in (kept_entries self.old.journal))) }
        ensures room { OnOk result (more ≤ self.new.room) }
        ensures err { OnErr result (self.new.journal ≡ self.old.journal) }
    {
        let count = self.taken_in() as usize;
        let numbers = sorted_numbers(self.alloc, count, self.sealed.as_slice(), &self.running)?;
        self.history.reserve(count + more)?;
        self.sealed.clear();
        self.running = RunningEpoch::new(self.alloc);
        self.kept = 0;
        add_drops_in(&mut self.history, numbers.as_slice());
        Ok(())
    }

    /// Those frames of these lists land at these ports that have a number below `end`, where the first of all has the number `first`, and
    /// what becomes of them goes to the history, in the room that was reserved.
    pub fn land_kept(&mut self, ports: &mut Ports, first: u64, end: u64, lists: &[FrameList])
        requires frames { All (λ v. All IsFrame v.items) lists.now }
        requires room { length (entries_after ports.old first (take (end - first) (all_frames (map (λ v. v.items) lists.now))))
            ≤ self.old.room }
        requires fits { length (all_entries self.old.journal)
            + length (entries_after ports.old first (take (end - first) (all_frames (map (λ v. v.items) lists.now)))) < number_limit }
        ensures journal { self.new.journal
            ≡ with_history self.old.journal
            (entries_after ports.old first (take (end - first) (all_frames (map (λ v. v.items) lists.now)))) }
        ensures ports { ports.new ≡ ports_after ports.old first (take (end - first) (all_frames (map (λ v. v.items) lists.now))) }
    {
        land_lists(ports, first, end, lists, self);
    }
}
