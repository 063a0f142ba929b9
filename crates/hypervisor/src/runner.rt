//! The runner: it has the machine that runs, and the guest makes its steps with no lock held.
ghost use Rattle.std.specs.Prelude.{◌≡◌, ℕ, ◌+◌, ◌<◌, ◌≤◌, ◌++◌, [], length, All, None, IfOk, OnOk, IfErr, OnErr};
ghost use Rattle.std.specs.List.{Contains};
ghost use Rattle.checkpoint_stream.specs.ReadBack.{ReadsBack};
ghost use Rattle.checkpoint_stream.specs.Text.{text};
ghost use Rattle.frame_ports.specs.Addresses.{IsFrame};
ghost use Rattle.frame_ports.specs.Limits.{number_limit};
ghost use Rattle.guest_rules.specs.Guest.{HasDeviceRecords};
ghost use Rattle.guest_rules.specs.Limits.{stepping_frames};
ghost use Rattle.guest_machine.specs.Paces.{Lets, Holds};
ghost use Rattle.growing_history.specs.LogState.{LegalSteps, state_at};
ghost use Rattle.pair_history.specs.Reached.{IsReached};
ghost use Rattle.pair_record.specs.Protocol.{first_refusal};
ghost use Rattle.pair_book.specs.Calls.{IsWhy};
ghost use Rattle.pair_book.specs.Running.{wanted_of};
ghost use Rattle.pair_book.specs.Settled.{settled_runner, numbers_of, Runs};
ghost use Rattle.pair_book.specs.Submitting.{prepared_rows, submit_why};
ghost use Rattle.pair_book.specs.declared.prepared.Prepared.{Prepared};
ghost use Rattle.hypervisor.specs.AtBook.{EndsAtBook};
ghost use Rattle.hypervisor.specs.Preparing.{CarriesDelta, CarriesFull, is_possible, IsMadeFor, IsOfKind, Suits};
ghost use Rattle.hypervisor.specs.Refusals.{submit_refusals};
ghost use Rattle.hypervisor.specs.Runners.{RunnerState, runner_state, new_runner, IsSized, RunsFromSettled, IsRunner};
ghost use Rattle.hypervisor.specs.Runs.{after_arrivals, frames_of, steps_asked, HasRun};
ghost use Rattle.hypervisor.specs.Submits.{Submits, BeginsEpoch};

use crate::seats::keep_seat;
use crate::shared::Shared;
use epoch_cuts::{cut_delta, cut_full};
use epoch_snapshot::Checkpoint;
use frame_ports::NUMBER_LIMIT;
use growing_history::{Clock, Pair, RunnerSeat, steps_go_on, unmarked_histories_are_legal};
use guest_machine::{
    Machine, Pace, changed_sectors_are_listed, devices_apart, kept_disk, kept_memory,
};
use memory_wanted::MemoryWanted;
use pair_book::{
    Book, Kind, OpenEpoch, Prepared, Refusal, TextPacket, Want, members_go_on,
    runners_bring_what_they_have,
};
use pair_history::{Frame, reached_states};
use std::alloc::Global;
use std::marker::Model;
use std::sync::{Arc, Wait};

/// A node's machine, and what its guest has done since the last submit. Contracts see it as a `RunnerState` of the specs.
///
/// Its guest runs, and checkpoints are made, with no lock held.
pub struct Runner<P: Pair> {
    alloc: Global,
    shared: Arc<Shared<P>>,
    machine: Machine,
    held: Vec<(u64, Frame)>,
    epoch: OpenEpoch,
    prepared: Prepared,
    seat: RunnerSeat<P>,
}

// Proved here, and not in each crate above that keeps one in a `Box` or an `Option`.
impl<P: Pair> Drop for Runner<P> {
    fn drop(self) {
        let Runner {
            alloc: _,
            shared: _,
            machine: _,
            held: _,
            epoch: _,
            prepared: _,
            seat: _,
        } = self;
    }
}

impl<P: Pair> Model for Runner<P> {
    ghost use Rattle.hypervisor.specs.Runners.{RunnerState, runner_state, IsRunner};

    ghost Value = { RunnerState };

    ghost view = { λ r. runner_state r.machine r.held.items r.epoch.arrivals r.epoch.steps r.prepared r.seat };

    ghost invariant = { λ r. IsRunner P.start (runner_state r.machine r.held.items r.epoch.arrivals r.epoch.steps r.prepared r.seat) };
}

impl<P: Pair> Runner<P> {
    /// The runner of this machine, which is just settled, with an epoch of which nothing has run yet. The machine is of the pair's size,
    /// and its guest is the one from which the runner of this seat begins, as the caller knows. It takes no memory.
    pub(crate) fn new(
        alloc: Global,
        shared: Arc<Shared<P>>,
        machine: Machine,
        seat: RunnerSeat<P>,
    ) -> Runner<P>
        requires outbox { machine.outbox ≡ [] }
        requires settled { machine.settled ≡ machine.guest.ram }
        requires sized { IsSized P.start machine.guest }
        requires runs { Runs P.start seat (settled_runner machine.guest []) }
        ensures { result ≡ new_runner machine seat }
    {
        Runner {
            alloc,
            shared,
            machine,
            held: Vec::new(alloc),
            epoch: OpenEpoch {
                arrivals: 0,
                steps: 0,
            },
            prepared: Prepared::Nothing,
            seat,
        }
    }

    /// The machine, as it is now.
    pub fn machine(&self) -> &Machine
        ensures value { result.now ≡ self.now.machine }
        // What is true of every runner.
        ensures sized { IsSized P.start self.now.machine.guest }
        ensures runs { RunsFromSettled P.start self.now }
    {
        &self.machine
    }

    /// What stands prepared for the next submit: of the machine as it is now, and nothing after each run.
    pub fn prepared(&self) -> &Prepared
        ensures value { result.now ≡ self.now.what }
        // What is true of every runner.
        ensures suits { Suits self.now.machine self.now.what }
    {
        &self.prepared
    }

    /// The frames that the runner holds arrive at the guest, and then it makes steps: `steps` of them, or fewer where the next one finds
    /// more than 192 frames in the outbox, so that fewer than 64 of its places are free, or where the pace says no. An epoch has 2^62
    /// steps at most, since no submit takes more. The answer is how many were made. What was prepared is dropped. It takes no memory.
    pub fn run<G: Pace>(&mut self, steps: u64, pace: &mut G) -> u64
        ensures run { HasRun result self.old self.new }
        ensures most { result ≤ steps_asked steps self.old }
        // Why it stopped: the pace let all of these steps by, and then no more were asked for, or the outbox had no room; or it said no.
        ensures all { result ≡ steps_asked steps self.old → Lets G.answers G.STRETCH result pace.old pace.new }
        ensures full { stepping_frames < length self.new.machine.outbox → Lets G.answers G.STRETCH result pace.old pace.new }
        ensures stopped { result < steps_asked steps self.old → length self.new.machine.outbox ≤ stepping_frames
            → Holds G.answers G.STRETCH result pace.old pace.new }
    {
        self.shared.keep();
        keep_seat(&self.seat);
        has_records(&self.machine);
        runs_go_on::<P>();
        take_in(&mut self.machine, &self.held);
        self.epoch.arrivals += self.held.len();
        self.held.clear();
        self.prepared = Prepared::Nothing;
        let asked = steps.min(NUMBER_LIMIT - self.epoch.steps);
        let made = self.machine.run_paced(asked, pace);
        self.epoch.steps += made;
        made
    }

    /// What the runner is to prepare for its next submit: nothing where the node is alone; the full checkpoint, number 0, of a new backup
    /// until it is sealed; else a delta under the next number.
    ///
    /// # Errors
    ///
    /// [`Refusal::Stopped`] where another runner is live, or the primary has stopped.
    pub fn ask<R: Wait>(&self, rt: &R) -> Result<Want, Refusal>
        ensures { IfErr result (λ why. why ≡ Refusal.Stopped) }
    {
        let shared = &*self.shared;
        let held = shared.lock(rt);
        ask(&*held, &self.seat)
    }

    /// Makes what is wanted for the next submit, as text: nothing; a delta, which carries the frames that the guest sent; or a full
    /// checkpoint. It stands in the place of what was prepared before. Where no checkpoint can have the wanted generation or number, which
    /// are 1 to 2^62 - 1, nothing is made.
    ///
    /// # Errors
    ///
    /// [`MemoryWanted`] where the room for it can't be had. What was prepared stands.
    pub fn prepare(&mut self, want: Want) -> Result<(), MemoryWanted>
        ensures made { OnOk result (IsMadeFor want.kind want.generation want.number self.old.machine self.new.what) }
        ensures same { OnOk result (self.new ≡ record self.old { what = self.new.what }) }
        ensures err { OnErr result (self.new ≡ self.old) }
    {
        let prepared = made_for(self.alloc, &self.machine, want)?;
        self.prepared = prepared;
        Ok(())
    }

    /// The epoch ends: what arrived and the steps since the last submit. With a checkpoint prepared it is sealed with that, and is pending;
    /// where the node is alone, and nothing was prepared, it enters the history. The machine is settled then, and the next epoch begins:
    /// nothing stands prepared, and the runner holds the frames that are handed out to it, which arrive with its next [`run`](Runner::run).
    /// Answers how many were: where all that was handed out before has arrived, the first four frames of each client's inbox, or as many
    /// as there are; else none.
    ///
    /// # Errors
    ///
    /// In this order: [`Refusal::Stopped`] where another runner is live, or the primary has stopped; [`Refusal::Behind`] where 4
    /// checkpoints are pending; [`Refusal::NotPaired`] for a checkpoint where the node is alone; [`Refusal::AlreadyPaired`] for none in a
    /// pair; [`Refusal::Stale`] for another generation or number than the wanted; [`Refusal::Exhausted`] where the word, the history with
    /// what is kept, or a number, would reach 2^62. [`Refusal::NoMemory`] where the room for any of it can't be had. Everything is as
    /// before then: what was prepared stands.
    pub fn submit<R: Wait>(&mut self, rt: &R) -> Result<usize, Refusal>
        ensures added { OnOk result (Submits P.start self.old self.new.seat) }
        ensures next { IfOk result (λ count. BeginsEpoch P.start count self.old self.new) }
        ensures why { IfErr result (Contains submit_refusals) }
        ensures refused { OnErr result (self.new ≡ self.old) }
    {
        let next = {
            let shared = &*self.shared;
            let mut book = shared.lock(rt);
            submit(
                self.alloc,
                &mut *book,
                shared.clock(),
                &mut self.seat,
                &self.machine,
                &self.held,
                self.epoch,
                &self.prepared,
            )?
        };
        let count = next.len();
        self.machine.settle();
        hold(&mut self.held, next);
        self.epoch = OpenEpoch {
            arrivals: 0,
            steps: 0,
        };
        self.prepared = Prepared::Nothing;
        Ok(count)
    }
}

/// A run leaves a runner's machine as large as it was, and last settled where it was; and the runner runs on.
fn runs_go_on<P: Pair>()
    ensures sized { (old new : RunnerState) (made : ℕ) → HasRun made old new → HasDeviceRecords old.machine.guest
        → IsSized P.start old.machine.guest → IsSized P.start new.machine.guest }
    ensures runs { (old new : RunnerState) (made : ℕ) → HasRun made old new → IsReached P.start → LegalSteps P.start old.seat.steps
        → (0 < old.arrivals + old.steps → old.held ≡ []) → RunsFromSettled P.start old → RunsFromSettled P.start new }
{
    reached_states();
    unmarked_histories_are_legal();
    kept_memory();
    kept_disk();
    changed_sectors_are_listed();
    devices_apart();
}

/// What a machine's devices keep meets the rules of their records.
fn has_records(machine: &Machine)
    ensures { HasDeviceRecords machine.now.guest }
{
    machine.net();
    machine.disk();
}

/// The epoch of a runner, of this machine and what it holds, ends at the book. Answers the frames that are handed out then: none where
/// some of those that it holds have still to arrive.
fn submit<P: Pair>(
    alloc: Global,
    book: &mut Book<P>,
    clock: &Clock<P>,
    seat: &mut RunnerSeat<P>,
    machine: &Machine,
    held: &[(u64, Frame)],
    epoch: OpenEpoch,
    what: &Prepared,
) -> Result<Vec<(u64, Frame)>, Refusal>
    requires { IsRunner P.start (runner_state machine.now held.now epoch.arrivals epoch.steps what.now seat.old) }
    ensures added { OnOk result (Submits P.start
        (runner_state machine.now held.now epoch.arrivals epoch.steps what.now seat.old) seat.new) }
    ensures runs { IfOk result (λ next. Runs P.start seat.new (settled_runner machine.now.guest (held.now ++ next.items))) }
    ensures frames { IfOk result (λ next. All (λ x. IsFrame x.1) next.items) }
    ensures rest { IfOk result (λ next. 0 < length held.now → next.items ≡ []) }
    ensures handed { IfOk result (λ next. numbers_of (held.now ++ next.items) ≡ (state_at P.start seat.new.steps).handed) }
    ensures number { seat.new.number ≡ seat.old.number }
    ensures book { IfOk result (λ next. EndsAtBook P.start book.old book.new seat.old seat.new
        epoch.arrivals epoch.steps machine.now.outbox what.now next.items) }
    ensures why { IfErr result (IsWhy (submit_why P.start book.old seat.old.number what.now epoch.steps machine.now.outbox)) }
    ensures among { IfErr result (Contains submit_refusals) }
    ensures refused { OnErr result ((seat.new ≡ seat.old) × (book.new ≡ book.old)) }
{
    book.keep();
    keep_seat(seat);
    steps_go_on();
    members_go_on();
    runners_bring_what_they_have();
    let next = match book.submit(alloc, clock, seat, epoch, machine.outbox(), what) {
        Ok(next) => next,
        Err(why) => return Err(why),
    };
    keep_seat(seat);
    Ok(next.frames)
}

/// These frames are held too. There are none where some are held already, as the caller knows, so it takes no memory.
fn hold(held: &mut Vec<(u64, Frame)>, next: Vec<(u64, Frame)>)
    requires { 0 < length held.old.items → next.items ≡ [] }
    ensures { held.new.items ≡ held.old.items ++ next.items }
{
    if held.is_empty() {
        *held = next;
    }
}

/// What is named is what no submit refuses at this book for being a checkpoint, or none, or for its numbers.
fn ask<P: Pair>(book: &Book<P>, seat: &RunnerSeat<P>) -> Result<Want, Refusal>
    ensures done { IfOk result (λ want. want ≡ wanted_of book.now) }
    ensures free { IfOk result (λ want. (what : Prepared) → IsOfKind want what
        → first_refusal (prepared_rows book.now.protocol what) ≡ None) }
    ensures why { IfErr result (λ why. why ≡ Refusal.Stopped) }
{
    book.ask(seat)
}

/// These frames arrive at the machine's guest, the first first.
fn take_in(machine: &mut Machine, held: &[(u64, Frame)])
    requires { All (λ x. IsFrame x.1) held.now }
    ensures guest { machine.new.guest ≡ after_arrivals machine.old.guest (frames_of held.now) }
    ensures outbox { machine.new.outbox ≡ machine.old.outbox }
    ensures dirty { machine.new.dirty ≡ machine.old.dirty }
    ensures settled { machine.new.settled ≡ machine.old.settled }
{
    for given in held {
        let _taken = machine.arrive(&given.1);
    }
}

/// Whether a checkpoint can be of this generation, or a delta have this number.
fn is_possible(number: u64) -> bool
    ensures { result ≡ is_possible number }
{
    1 <= number && number < NUMBER_LIMIT
}

/// The packet of a checkpoint, as [`TextPacket::new`] says. The checkpoint is let go of by a call: else each proof of what makes one would go
/// over every part of it.
fn packet_of(alloc: Global, checkpoint: Checkpoint) -> Result<TextPacket, MemoryWanted>
    requires { checkpoint.version ≡ 2 }
    ensures generation { IfOk result (λ p. p.generation ≡ checkpoint.generation) }
    ensures number { IfOk result (λ p. p.number ≡ checkpoint.number) }
    ensures text { IfOk result (λ p. p.text ≡ text checkpoint) }
    ensures read { IfOk result (λ p. ReadsBack checkpoint p.text) }
{
    let packet = TextPacket::new(alloc, &checkpoint);
    drop(checkpoint);
    packet
}

/// The machine's delta, as its text.
fn delta(
    alloc: Global,
    machine: &Machine,
    generation: u64,
    number: u64,
) -> Result<TextPacket, MemoryWanted>
    requires first_generation { 1 ≤ generation }
    requires last_generation { generation < number_limit }
    requires first_number { 1 ≤ number }
    requires last_number { number < number_limit }
    ensures { IfOk result (λ p. CarriesDelta machine.now generation number p) }
{
    let checkpoint = cut_delta(alloc, machine, generation, number)?;
    let packet = packet_of(alloc, checkpoint)?;
    Ok(packet)
}

/// The machine's full checkpoint, as its text.
fn full(alloc: Global, machine: &Machine, generation: u64) -> Result<TextPacket, MemoryWanted>
    requires first_generation { 1 ≤ generation }
    requires last_generation { generation < number_limit }
    ensures { IfOk result (λ p. CarriesFull machine.now generation p) }
{
    let checkpoint = cut_full(alloc, machine, generation)?;
    let packet = packet_of(alloc, checkpoint)?;
    Ok(packet)
}

/// What is prepared of a machine for what is wanted.
fn made_for(alloc: Global, machine: &Machine, want: Want) -> Result<Prepared, MemoryWanted>
    ensures { IfOk result (λ what. IsMadeFor want.kind want.generation want.number machine.now what) }
{
    match want.kind {
        Kind::Nothing => Ok(Prepared::Nothing),
        Kind::Delta => {
            if !(is_possible(want.generation) && is_possible(want.number)) {
                return Ok(Prepared::Nothing);
            }
            let packet = delta(alloc, machine, want.generation, want.number)?;
            Ok(Prepared::Checkpoint(packet))
        }
        Kind::Full => {
            if !is_possible(want.generation) {
                return Ok(Prepared::Nothing);
            }
            let packet = full(alloc, machine, want.generation)?;
            Ok(Prepared::Checkpoint(packet))
        }
    }
}
