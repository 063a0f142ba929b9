//! What happens at the record to epochs of a guest that runs elsewhere: frames are handed out to it, and its epochs come back.
ghost use Rattle.std.specs.Prelude.{◌≡◌, ◌+◌, ◌<◌, ◌≤◌, length, All, IfOk, OnOk, OnErr, IfSome, OnSome, IfNone, None, true, false};
ghost use Rattle.std.specs.Prelude.{slice_get};
ghost use Rattle.frame_ports.specs.Addresses.{IsFrame};
ghost use Rattle.frame_ports.specs.Ports.{IsClient, inbox_of};
ghost use Rattle.pair_history.specs.Failures.{arrived_numbers};
ghost use Rattle.pair_record.specs.EpochActs.{hand_out_done, seal_epoch_done, enter_epoch_refusals, enter_epoch_done};
ghost use Rattle.pair_record.specs.Modes.{is_alone as alone};
ghost use Rattle.pair_record.specs.Protocol.{exhausts, first_refusal, cut_refusals, protect_refusals};
ghost use Rattle.pair_record.specs.Protocol.{begin_done};
ghost use Rattle.pair_record.specs.Record.{IsAsBefore, IsLone, ports_landed, ports_after_admit};

use super::PairRecord;
use crate::event::{Refusal, Reply};
use crate::limits::FULL_CHECKPOINT;
use crate::window::Window;
use failover::Mode;
use memory_wanted::MemoryWanted;
use pair_history::{Frame, count_landings};

impl PairRecord {
    /// Makes room for so many frames to be handed out.
    pub fn reserve_arrivals(&mut self, count: usize) -> Result<(), MemoryWanted>
        ensures same { IsAsBefore self.old self.new }
        ensures room { OnOk result (count ≤ self.new.arrival_room) }
    {
        self.journal.reserve_arrivals(count)
    }

    /// How many frames that were handed out stand in no epoch yet.
    pub fn handed(&self) -> usize
        ensures { result ≡ length (arrived_numbers self.now.protocol.journal.running) }
    {
        self.journal.arrived()
    }

    /// The first frame of this client's inbox, if one waits, leaves it for the guest, with its number, whatever the mode: from then on it
    /// runs. This takes a place of those that [`PairRecord::reserve_arrivals`] made, and can't fail.
    pub fn hand_out(&mut self, client: u64) -> Option<(u64, Frame)>
        requires free { exhausts self.old.protocol 1 ≡ false }
        requires client { IsClient self.old.ports client }
        requires room { 0 < self.old.arrival_room }
        ensures first { result ≡ slice_get (inbox_of self.old.ports client) 0 }
        ensures frame { IfSome result (λ x. IsFrame x.1) }
        ensures protocol { IfSome result (λ x. self.new.protocol ≡ (hand_out_done self.old.protocol x.0).1) }
        ensures ports { OnSome result (self.new.ports ≡ ports_after_admit self.old.ports client) }
        ensures none { IfNone result (self.new ≡ self.old) }
        ensures room { self.old.arrival_room ≤ self.new.arrival_room + 1 }
    {
        if self.ports.inbox_len(client) == 0 {
            return None;
        }
        let Ok(Some((number, frame))) = self.ports.admit(client) else {
            unreachable!();
        };
        self.journal.arrive(number);
        Some((number, frame))
    }

    /// An epoch of the guest, so many arrivals of the frames that were handed out, the first first, and so many steps after them, along
    /// which it sent these frames, is sealed, and they go to the gate. The other frames that were handed out run on.
    pub fn seal_epoch(
        &mut self,
        arrivals: usize,
        steps: u64,
        frames: &[Frame],
    ) -> Result<Reply, MemoryWanted>
        requires pair { alone self.old.protocol.mode ≡ false }
        requires free { first_refusal (cut_refusals self.old.protocol) ≡ None }
        requires there { arrivals ≤ length (arrived_numbers self.old.protocol.journal.running) }
        requires fits { exhausts self.old.protocol steps ≡ false }
        requires few { length frames.now ≤ 256 }
        requires frames { All IsFrame frames.now }
        ensures ok { IfOk result (λ reply. (reply, self.new.protocol) ≡ seal_epoch_done arrivals steps frames.now self.old.protocol) }
        ensures ports { self.new.ports ≡ self.old.ports }
        ensures room { OnOk result (self.old.arrival_room ≤ self.new.arrival_room) }
        ensures err { OnErr result (IsAsBefore self.old self.new) }
    {
        self.journal.seal_epoch(arrivals, steps)?;
        let number = self.window.to_cut;
        self.gate.hold(number, frames);
        self.window.cut();
        Ok(Reply::Cut {
            generation: self.generation,
            number,
        })
    }

    /// Why an epoch of the guest with so many steps, along which it sent these frames, can't enter the history.
    pub fn enter_epoch_refusal(&self, steps: u64, frames: &[Frame]) -> Option<Refusal>
        requires few { length frames.now ≤ 256 }
        ensures { result ≡ first_refusal (enter_epoch_refusals steps self.now.ports.boxes frames.now self.now.protocol) }
    {
        let entries = steps.saturating_add(count_landings(&self.ports, frames));
        if self.is_exhausted_by(entries) {
            Some(Refusal::Exhausted)
        } else if self.frames_run_out() {
            Some(Refusal::Exhausted)
        } else {
            None
        }
    }

    /// Where nothing is sealed or pending: an epoch of the guest, so many arrivals of the frames that were handed out, the first first, and
    /// so many steps after them, along which it sent these frames, goes to the history, and then they land. The other frames that were
    /// handed out run on.
    pub fn enter_epoch(
        &mut self,
        arrivals: usize,
        steps: u64,
        frames: &[Frame],
    ) -> Result<(), MemoryWanted>
        requires lone { IsLone self.old.protocol }
        requires there { arrivals ≤ length (arrived_numbers self.old.protocol.journal.running) }
        requires free { first_refusal (enter_epoch_refusals steps self.old.ports.boxes frames.now self.old.protocol) ≡ None }
        requires few { length frames.now ≤ 256 }
        requires frames { All IsFrame frames.now }
        ensures protocol { OnOk result (self.new.protocol
            ≡ enter_epoch_done arrivals steps self.old.ports.boxes frames.now self.old.protocol) }
        ensures ports { OnOk result (self.new.ports ≡ ports_landed self.old.ports self.old.protocol.next_frame frames.now) }
        ensures room { OnOk result (self.old.arrival_room ≤ self.new.arrival_room) }
        ensures err { OnErr result (IsAsBefore self.old self.new) }
    {
        let count = count_landings(&self.ports, frames);
        self.journal.enter_epoch(arrivals, steps, count as usize)?;
        let first = self.gate.next();
        let _landed = self.journal.land(&mut self.ports, first, frames);
        self.gate.begin(first - 1 + frames.len() as u64);
        Ok(())
    }

    /// The node that is alone gets a new backup, in the next generation, whose full checkpoint has still to be sealed: what
    /// [`PairRecord::protect`] does first. Until then what the guest sends still lands, under numbers that go on.
    pub fn begin_protect(&mut self) -> Reply
        requires free { first_refusal (protect_refusals self.old.protocol) ≡ None }
        requires alone { alone self.old.protocol.mode ≡ true }
        ensures protocol { (result, self.new.protocol) ≡ begin_done self.old.protocol }
        ensures ports { self.new.ports ≡ self.old.ports }
    {
        self.window = Window::none_pending(FULL_CHECKPOINT);
        self.mode = Mode::Filling;
        self.generation += 1;
        Reply::Protecting(self.generation)
    }
}
