//! What happens at the record where the full checkpoint of a new backup comes with the epoch before it.
ghost use Rattle.std.specs.Prelude.{◌≡◌, ◌≤◌, length, All, IfOk, OnOk, OnErr, None, true};
ghost use Rattle.frame_ports.specs.Addresses.{IsFrame};
ghost use Rattle.frame_ports.specs.Numbers.{renumbered};
ghost use Rattle.pair_history.specs.Failures.{arrived_numbers};
ghost use Rattle.pair_record.specs.EpochActs.{enter_epoch_refusals, enter_epoch_done};
ghost use Rattle.pair_record.specs.Protocol.{first_refusal, full_done};
ghost use Rattle.pair_record.specs.Record.{IsAsBefore, ports_landed};
ghost use Rattle.failover.specs.Modes.{is_filling as filling};

use super::PairRecord;
use crate::event::Reply;
use memory_wanted::MemoryWanted;
use pair_history::{Frame, count_landings};

impl PairRecord {
    /// An epoch of the guest goes to the history, and what it sent along it lands, as [`PairRecord::enter_epoch`] says; and then the full
    /// checkpoint, which no frame waits for, is sealed and pending: what [`PairRecord::protect`] does after
    /// [`PairRecord::begin_protect`]. The guest's frames are numbered from 1 anew. All room is made first.
    pub fn enter_epoch_and_seal_full(
        &mut self,
        arrivals: usize,
        steps: u64,
        frames: &[Frame],
    ) -> Result<Reply, MemoryWanted>
        requires filling { filling self.old.protocol.mode ≡ true }
        requires first { self.old.protocol.window.to_cut ≡ 0 }
        requires there { arrivals ≤ length (arrived_numbers self.old.protocol.journal.running) }
        requires free { first_refusal (enter_epoch_refusals steps self.old.ports.boxes frames.now self.old.protocol) ≡ None }
        requires few { length frames.now ≤ 256 }
        requires frames { All IsFrame frames.now }
        ensures ok { IfOk result (λ reply. (reply, self.new.protocol)
            ≡ full_done (enter_epoch_done arrivals steps self.old.ports.boxes frames.now self.old.protocol)) }
        ensures ports { OnOk result (self.new.ports
            ≡ renumbered (ports_landed self.old.ports self.old.protocol.next_frame frames.now)) }
        ensures room { OnOk result (self.old.arrival_room ≤ self.new.arrival_room) }
        ensures err { OnErr result (IsAsBefore self.old self.new) }
    {
        let number = self.window.to_cut;
        let count = count_landings(&self.ports, frames);
        self.journal
            .enter_epoch_and_seal_empty(arrivals, steps, count as usize)?;
        let _landed = self.journal.land(&mut self.ports, self.gate.next(), frames);
        self.gate.begin(0);
        self.ports.renumber();
        self.gate.hold(number, &[]);
        self.window.cut();
        Ok(Reply::Cut {
            generation: self.generation,
            number,
        })
    }
}
