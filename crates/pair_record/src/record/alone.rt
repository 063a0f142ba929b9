//! What happens at the record where a node goes on alone.
ghost use Rattle.std.specs.Prelude.{◌≡◌, ◌+◌, ◌*◌, ◌<◌, ◌≤◌, ◌++◌, [], length, replicate, All, IfOk, IfErr, OnOk, OnErr, None, ⊤, false};
ghost use Rattle.std.specs.Prelude.{true};
ghost use Rattle.frame_ports.specs.Addresses.{IsFrame, targets_of};
ghost use Rattle.frame_ports.specs.Limits.{max_clients, number_limit};
ghost use Rattle.pair_history.specs.Entries.{Ran};
ghost use Rattle.pair_history.specs.Landings.{landings};
ghost use Rattle.pair_record.specs.EpochActs.{fail_within_done};
ghost use Rattle.pair_history.specs.Journal.{all_entries, with_history};
ghost use Rattle.pair_record.specs.Modes.{is_alone};
ghost use Rattle.pair_record.specs.Protocol.{frames_run_out, first_refusal, Refuses, fail_backup_refusals, fail_within_refusals};
ghost use Rattle.pair_record.specs.Protocol.{fail_backup_done, all_held};
ghost use Rattle.pair_record.specs.Record.{IsAsBefore, ports_landed, ports_after_all};

use super::PairRecord;
use crate::event::{Refusal, Reply};
use crate::limits::{STEP_ENTRIES, STEP_FRAMES};
use crate::window::Window;
use failover::Mode;
use memory_wanted::MemoryWanted;
use pair_history::{Frame, count_landings};

impl PairRecord {
    /// To how many clients all frames go that the gate holds, and then those of the outbox.
    fn count_all(&self, outbox: &[Frame]) -> u64
        requires { length outbox.now ≤ 256 }
        ensures { result ≡ length (all_held self.now.ports.boxes outbox.now self.now.protocol) }
    {
        let held = self.gate.held(self.window.to_cut);
        count_landings(&self.ports, held) + count_landings(&self.ports, outbox)
    }

    /// The backup stops: all that was kept goes to the history, the pending checkpoints are given up, and what the gate held, and then the
    /// outbox, lands. Where a full checkpoint has still to be sealed, [`PairRecord::fail_backup_within`] does.
    ///
    /// # Errors
    ///
    /// [`Refusal::Exhausted`] where the history would reach 2^62; [`Refusal::NoMemory`] where the room in it can't be had.
    pub fn fail_backup(&mut self, outbox: &[Frame]) -> Result<Reply, Refusal>
        requires pair { is_alone self.old.protocol.mode ≡ false }
        requires sealed { 1 ≤ self.old.protocol.window.to_cut }
        requires few { length outbox.now ≤ 256 }
        requires frames { All IsFrame outbox.now }
        ensures ok { IfOk result (λ reply. (reply, self.new.protocol)
            ≡ fail_backup_done self.old.ports.boxes outbox.now self.old.protocol) }
        ensures ports { OnOk result (self.new.ports ≡ ports_after_all self.old.ports outbox.now self.old.protocol) }
        ensures free { OnOk result (first_refusal (fail_backup_refusals self.old.ports.boxes outbox.now self.old.protocol) ≡ None) }
        ensures why { IfErr result (Refuses (fail_backup_refusals self.old.ports.boxes outbox.now self.old.protocol) ⊤) }
        ensures refused { OnErr result (IsAsBefore self.old self.new) }
    {
        let number = self.window.to_cut;
        let count = self.count_all(outbox);
        if self.is_exhausted_by(count) {
            return Err(Refusal::Exhausted);
        }
        self.journal.commit_all(count as usize)?;
        self.gate.hold(number, outbox);
        let landed = self
            .journal
            .land(&mut self.ports, self.gate.first(), self.gate.held(number));
        self.gate.discard();
        self.window = Window::none_pending(number);
        self.mode = Mode::Alone;
        Ok(Reply::Alone {
            generation: self.generation,
            landed: landed.landed,
        })
    }

    /// The backup stops while the guest is in an epoch, which goes on: the pending checkpoints are given up, and what the gate held lands.
    ///
    /// # Errors
    ///
    /// In this order: [`Refusal::Exhausted`] where the history would reach 2^62, and where the word that counts the caller's steps is full;
    /// [`Refusal::NoMemory`] where the room in the history can't be had.
    pub fn fail_backup_within(&mut self, word_full: bool) -> Result<Reply, Refusal>
        requires pair { is_alone self.old.protocol.mode ≡ false }
        ensures ok { IfOk result (λ reply. (reply, self.new.protocol) ≡ fail_within_done self.old.ports.boxes self.old.protocol) }
        ensures ports { OnOk result (self.new.ports ≡ ports_after_all self.old.ports [] self.old.protocol) }
        ensures free { OnOk result (first_refusal (fail_within_refusals word_full self.old.ports.boxes self.old.protocol) ≡ None) }
        ensures why { IfErr result (Refuses (fail_within_refusals word_full self.old.ports.boxes self.old.protocol) ⊤) }
        ensures refused { OnErr result (IsAsBefore self.old self.new) }
    {
        let number = self.window.to_cut;
        let count = self.count_all(&[]);
        if self.is_exhausted_by(count) || word_full {
            return Err(Refusal::Exhausted);
        }
        self.journal.commit_sealed(count as usize)?;
        let landed = self
            .journal
            .land(&mut self.ports, self.gate.first(), self.gate.held(number));
        self.gate.discard();
        self.window = Window::none_pending(number);
        self.mode = Mode::Alone;
        Ok(Reply::Alone {
            generation: self.generation,
            landed: landed.landed,
        })
    }

    /// Makes room in the history for all that a node that is alone adds where its guest makes steps of which only the last sends: one
    /// stored entry for the steps, and each of 64 frames landing for each client. Answers how many steps of that many it may begin in it.
    ///
    /// # Errors
    ///
    /// The want of memory that stood in the way.
    pub fn reserve_lone_steps(&mut self, count: u64) -> Result<u64, MemoryWanted>
        ensures same { IsAsBefore self.old self.new }
        ensures room { OnOk result (64 * length self.old.ports.boxes < self.new.room) }
        ensures most { IfOk result (λ steps. steps ≤ count) }
        ensures fits { IfOk result (λ steps. 0 < steps
            → length (all_entries self.old.protocol.journal) + (steps + 1024) < number_limit) }
        ensures fewer { IfOk result (λ steps. steps < count
            → number_limit ≤ length (all_entries self.old.protocol.journal) + (steps + 1025)) }
        // What is true of all ports.
        ensures few { length self.old.ports.boxes ≤ max_clients }
    {
        let landings = STEP_FRAMES * self.ports.clients() as usize;
        self.journal.reserve(landings + 1)?;
        let left = self.journal.entries_left();
        Ok(count.min(left.saturating_sub(STEP_ENTRIES - 1)))
    }

    /// Where a node is alone: its guest made so many steps, along which it sent these frames, and they land, in the room that was reserved.
    pub fn run_alone(&mut self, steps: u64, sent: &[Frame])
        requires alone { is_alone self.old.protocol.mode ≡ true }
        requires numbers { frames_run_out self.old.protocol ≡ false }
        requires few { length sent.now ≤ 64 }
        requires frames { All IsFrame sent.now }
        requires room { 64 * length self.old.ports.boxes < self.old.room }
        requires fits { length (all_entries self.old.protocol.journal) + (steps + 64 * length self.old.ports.boxes) < number_limit }
        ensures protocol { self.new.protocol ≡ record self.old.protocol {
          journal = with_history self.old.protocol.journal (replicate steps Ran ++ landings self.old.ports.boxes
              (targets_of (length self.old.ports.boxes) sent.now));
          next_frame = self.old.protocol.next_frame + length sent.now;
        } }
        ensures ports { self.new.ports ≡ ports_landed self.old.ports self.old.protocol.next_frame sent.now }
    {
        self.journal.run_alone(steps);
        let first = self.gate.next();
        let _landed = self.journal.land(&mut self.ports, first, sent);
        self.gate.begin(first - 1 + sent.len() as u64);
    }
}
